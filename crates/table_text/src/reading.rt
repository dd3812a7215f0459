//! Reading the text of an entry.
ghost use Rattle.std.specs.Prelude.{◌≡◌};
ghost use Rattle.faults.specs.Outcome.{told};
ghost use Rattle.bracket_table.specs.Faults.{table_fault};
ghost use Rattle.bracket_table.specs.Runs.{next};
ghost use Rattle.bracket_table.specs.Runs.Call.{Read};
ghost use Rattle.bracket_table.specs.Seen.{view};
ghost use Rattle.table_text.specs.Reads.{ReadOutcome, ReadsBack};

use crate::entry_line::Listed;
use bracket_table::{Table, TableFault};
use bracket_text::read_bracket;
use text::TextFault;
use word::check_letters;

/// The number of the entry that has this text.
#[tactic(auto, using(crate::proofs::ReadTexts::reads))]
pub fn read(table: &mut Table, text: &[u8]) -> Result<usize, TableFault>
    ensures outcome { ReadOutcome (view table.old) text.now (told (λ i. i) table_fault result) }
    ensures step { view table.new ≡ next (Read text.now) (view table.old) }
    ensures same { table.new ≡ table.old }
    ensures back { ReadsBack (view table.old) }
{
    let shape = table.shape()?;
    let word = read_bracket(text)?;
    check_letters(shape.k, word.letters())?;
    let unknown = TableFault::Text(TextFault::UnknownText);
    match table.find(word.letters()) {
        Ok(Some(number)) => {
            let entry = Listed {
                shape,
                entries: table.entries(),
                number,
            };
            if !entry.has_text(text) {
                return Err(unknown);
            }
            Ok(number)
        }
        // no entry has a word of more than n letters, which `find` refuses
        Ok(None) | Err(_) => Err(unknown),
    }
}
