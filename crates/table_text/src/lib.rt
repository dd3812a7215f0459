//! The entries of a table, and coordinates, as text.

#![tactic(auto)]

ghost use Rattle.std.specs.Prelude.{◌≡◌};
ghost use Rattle.faults.specs.Outcome.{told};
ghost use Rattle.bracket_table.specs.Faults.{table_fault};
ghost use Rattle.bracket_table.specs.Runs.{next};
ghost use Rattle.bracket_table.specs.Runs.Call.{Line};
ghost use Rattle.bracket_table.specs.Seen.{view};
ghost use Rattle.table_text.specs.Lines.{line_outcome, line_left, Texts};

mod coordinate_line;
mod entry_line;
mod reading;
mod symbols;
#[cfg(test)]
mod tests;

use bracket_table::{Table, TableFault};
pub use coordinate_line::write_coordinate_line;
use entry_line::Listed;
pub use reading::read;

/// Writes number, word, left, right and text of an entry to the front of a buffer, with a space between and a line
/// feed behind. Answers how many bytes were written. A refused call leaves the buffer as it was.
#[tactic(auto, using(crate::proofs::Lining::lines, crate::proofs::Texts::texts))]
pub fn line(table: &mut Table, number: usize, buffer: &mut [u8]) -> Result<usize, TableFault>
    ensures outcome { told (λ n. n) table_fault result ≡ line_outcome (view table.old) number buffer.old }
    ensures buffer { buffer.new ≡ line_left (view table.old) number buffer.old }
    ensures step { view table.new ≡ next (Line number buffer.old) (view table.old) }
    ensures same { table.new ≡ table.old }
    ensures texts { Texts }
{
    let shape = table.shape()?;
    let entries = table.entries();
    if number >= entries.len() {
        return Err(TableFault::NoEntry);
    }
    let entry = Listed {
        shape,
        entries,
        number,
    };
    let written = entry.write_line(buffer)?;
    Ok(written)
}
