//! From sheets to coordinates and back: what a caller knows from the contracts of `into` and `back`, and from the bounds
//! that the type of a table gives its shape.
ghost use Rattle.std.specs.Prelude.{◌≡◌, length};
ghost use Rattle.bracket_table.specs.Seen.{view};
ghost use Rattle.faults.specs.Outcome.{told};
ghost use Rattle.sheet.specs.Calls.{conversion_outcome};
ghost use Rattle.sheet.specs.Faults.{sheet_fault};

use bracket_table::Table;
use ring::Ring;
use sheet::{SheetFault, back, into};

/// Replaces a sheet of length m by its coordinates, and these by their sheet: it is the same one.
pub fn into_then_back<R: Ring>(
    table: &mut Table,
    m: usize,
    sheet: &mut [R],
) -> Result<(), SheetFault>
    ensures outcome { told (λ done. done) sheet_fault result ≡ conversion_outcome (view table.old) m (length sheet.old) }
    ensures sheet { sheet.new ≡ sheet.old }
    ensures same { table.new ≡ table.old }
{
    into(table, m, sheet)?;
    back(table, m, sheet)
}

/// Replaces coordinates by their sheet of length m, and this by its coordinates: they are the same ones.
#[tactic(auto, using(crate::proofs::RoundTrips::same_coordinates))]
pub fn back_then_into<R: Ring>(
    table: &mut Table,
    m: usize,
    sheet: &mut [R],
) -> Result<(), SheetFault>
    ensures outcome { told (λ done. done) sheet_fault result ≡ conversion_outcome (view table.old) m (length sheet.old) }
    ensures sheet { sheet.new ≡ sheet.old }
    ensures same { table.new ≡ table.old }
{
    back(table, m, sheet)?;
    into(table, m, sheet)
}
