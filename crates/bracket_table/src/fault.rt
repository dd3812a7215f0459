//! Why a call on a table is refused.
ghost use Rattle.std.specs.Prelude.{◌≡◌};
ghost use Rattle.bracket_table.specs.Faults.{table_fault};
ghost use Rattle.bracket_table.specs.declared.fault.TableFault.TheVariants.{Full as NoRoom, Word, Text};

use faults::{Fault, Layer};
use lent_list::Full;
use text::TextFault;
use word::WordFault;

#[derive(Clone, Copy, PartialEq, Eq, Debug)]
pub enum TableFault {
    /// k is outside 1 to 16.
    Letters,
    /// n is outside 1 to 12.
    Depth,
    /// k to the n is above 4,096.
    ManyWords,
    /// A word is missing, and entry memory is full.
    Full,
    /// The table was never opened.
    Closed,
    /// No Lyndon word up to n letters is missing.
    Complete,
    /// No entry has this number.
    NoEntry,
    /// A fault of the word layer.
    Word(WordFault),
    /// A fault of the text layer.
    Text(TextFault),
}

/// Its number, with the layer that found it and those that passed it up.
// a `match` for each layer, whose faults are others; by hand, as each `From` here: what a derive writes has no contract,
// and clauses say what a conversion gives
impl From<TableFault> for Fault {
    ghost from_gives = { λ refused fault. fault ≡ table_fault refused };

    fn from(refused: TableFault) -> Fault {
        let number = match refused {
            TableFault::Letters => 1,
            TableFault::Depth => 2,
            TableFault::ManyWords => 3,
            TableFault::Full => 4,
            TableFault::Closed => 8,
            TableFault::Complete => 9,
            TableFault::NoEntry => 10,
            TableFault::Word(lower) => return Fault::from(lower).passed_by(Layer::Table),
            TableFault::Text(lower) => return Fault::from(lower).passed_by(Layer::Table),
        };
        Fault::found(number, Layer::Table, 0, 0)
    }
}

impl From<Full> for TableFault {
    ghost from_gives = { λ below r. r ≡ NoRoom };

    fn from(_below: Full) -> Self {
        Self::Full
    }
}

impl From<WordFault> for TableFault {
    ghost from_gives = { λ below r. r ≡ Word below };

    fn from(below: WordFault) -> Self {
        Self::Word(below)
    }
}

impl From<TextFault> for TableFault {
    ghost from_gives = { λ below r. r ≡ Text below };

    fn from(below: TextFault) -> Self {
        Self::Text(below)
    }
}
