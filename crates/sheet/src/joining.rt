//! The bracket of two sheets.
ghost use Rattle.std.specs.Prelude.{◌≡◌, length, MatchResult};
ghost use Rattle.bracket_table.specs.Runs.{next};
ghost use Rattle.bracket_table.specs.Runs.Call.{Join};
ghost use Rattle.bracket_table.specs.Seen.{view};
ghost use Rattle.faults.specs.Outcome.{told};
ghost use Rattle.sheet.specs.Calls.{join_outcome, joined_in};
ghost use Rattle.sheet.specs.Faults.{sheet_fault};

use crate::checks::{check_lengths, check_size};
use crate::fault::SheetFault;
use crate::product::write_bracket;
use bracket_table::Table;
use ring::Ring;

/// Writes xy - yx to a third sheet, for a sheet x of length a and a sheet y of length b.
#[tactic(auto, using(sheet_laws::proofs::Places::joint_size, crate::proofs::Joined::joined))]
pub fn join<R: Ring>(
    table: &mut Table,
    a: usize,
    x: &[R],
    b: usize,
    y: &[R],
    sheet: &mut [R],
) -> Result<(), SheetFault>
    ensures outcome { told (λ done. done) sheet_fault result ≡ join_outcome (view table.old) a (length x.now) b (length y.now) (length sheet.old) }
    ensures sheet { MatchResult result
        (λ _. sheet.new ≡ joined_in R.ring (view table.old).shape a x.now b y.now)
        (λ _. sheet.new ≡ sheet.old) }
    ensures step { view table.new ≡ next (Join a (length x.now) b (length y.now) (length sheet.old)) (view table.old) }
    ensures same { table.new ≡ table.old }
{
    let shape = table.shape()?;
    check_lengths(shape, a, b)?;
    check_size(shape, a, x.len())?;
    check_size(shape, b, y.len())?;
    check_size(shape, a + b, sheet.len())?;
    write_bracket(x, y, sheet);
    Ok(())
}
