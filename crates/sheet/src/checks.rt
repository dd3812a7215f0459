//! Checks of what is asked of a table and of sheets.
ghost use Rattle.std.specs.Prelude.{◌≡◌, ◌+◌, ◌^◌, ◌≤◌, Some, IfOk};
ghost use Rattle.faults.specs.Outcome.{told};
ghost use Rattle.bracket_table.specs.Seen.{view};
ghost use Rattle.sheet.specs.Calls.{conversion_outcome, length_checked, lengths_checked, size_checked};
ghost use Rattle.sheet.specs.Faults.{sheet_fault};

use crate::fault::SheetFault;
use bracket_table::Table;
use coded_word::Shape;

/// The shape of a table, for a sheet of length m that is to be converted.
pub(crate) fn check_conversion(table: &Table, m: usize, size: usize) -> Result<Shape, SheetFault>
    ensures outcome { told (λ _. tt) sheet_fault result ≡ conversion_outcome (view table.now) m size }
    ensures shape { IfOk result (λ s. (view table.now).shape ≡ Some (record { k = s.k; n = s.n })) }
    ensures length { IfOk result (λ s. (1 ≤ m) × (m ≤ s.n)) }
    ensures size { IfOk result (λ s. size ≡ s.k ^ m) }
{
    let shape = table.shape()?;
    check_length(shape, m)?;
    check_size(shape, m, size)?;
    if !table.is_complete_to(m)? {
        return Err(SheetFault::Incomplete);
    }
    Ok(shape)
}

/// Refuses a length that no word has.
fn check_length(shape: Shape, m: usize) -> Result<(), SheetFault>
    ensures outcome { told (λ done. done) sheet_fault result ≡ length_checked shape.n m }
    ensures within { IfOk result (λ _. (1 ≤ m) × (m ≤ shape.n)) }
{
    if m == 0 || m > usize::from(shape.n) {
        return Err(SheetFault::OtherLength);
    }
    Ok(())
}

/// Refuses lengths of which one is zero, or whose sum is above that of the longest words.
pub(crate) fn check_lengths(shape: Shape, a: usize, b: usize) -> Result<(), SheetFault>
    ensures outcome { told (λ done. done) sheet_fault result ≡ lengths_checked shape.n a b }
    ensures within { IfOk result (λ _. a + b ≤ shape.n) }
{
    let n = usize::from(shape.n);
    if a == 0 || b == 0 || a > n || b > n - a {
        return Err(SheetFault::OtherLength);
    }
    Ok(())
}

/// Refuses a sheet that has not as many values as there are words of its length.
#[tactic(auto, using(coded_word::proofs::Bounds::fits))]
pub(crate) fn check_size(shape: Shape, length: usize, size: usize) -> Result<(), SheetFault>
    requires { length ≤ shape.n }
    ensures outcome { told (λ done. done) sheet_fault result ≡ size_checked shape.k length size }
    ensures size { IfOk result (λ _. size ≡ shape.k ^ length) }
{
    if size != usize::from(shape.k).pow(length as u32) {
        return Err(SheetFault::OtherSize);
    }
    Ok(())
}
