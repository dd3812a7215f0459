//! Why a call on sheets is refused.
ghost use Rattle.std.specs.Prelude.{◌≡◌};
ghost use Rattle.sheet.specs.Faults.{sheet_fault};
ghost use Rattle.sheet.specs.declared.fault.SheetFault.TheVariants.{Table};

use bracket_table::TableFault;
use faults::{Fault, Layer};

#[derive(Clone, Copy, PartialEq, Eq, Debug)]
pub enum SheetFault {
    /// A sheet has not as many values as there are words of its length.
    OtherSize,
    /// A Lyndon word of at most so many letters is no entry.
    Incomplete,
    /// No word of the table has so many letters.
    OtherLength,
    /// A fault of the table layer.
    Table(TableFault),
}

/// Its number, with the layer that found it and those that passed it up.
// by hand, as each `From` here: what a derive writes has no contract, and clauses say what a conversion gives
impl From<SheetFault> for Fault {
    ghost from_gives = { λ refused fault. fault ≡ sheet_fault refused };

    fn from(refused: SheetFault) -> Fault {
        let number = match refused {
            SheetFault::OtherSize => 5,
            SheetFault::Incomplete => 11,
            SheetFault::OtherLength => 12,
            SheetFault::Table(lower) => return Fault::from(lower).passed_by(Layer::Sheet),
        };
        Fault::found(number, Layer::Sheet, 0, 0)
    }
}

impl From<TableFault> for SheetFault {
    ghost from_gives = { λ below r. r ≡ Table below };

    fn from(below: TableFault) -> Self {
        Self::Table(below)
    }
}
