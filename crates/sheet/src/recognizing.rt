//! Coordinates that are zero but at Lyndon words.
ghost use Rattle.std.specs.Prelude.{◌≡◌, ◌^◌, ◌≤◌, Decides, IfOk, length};
ghost use Rattle.bracket_table.specs.Runs.{next};
ghost use Rattle.bracket_table.specs.Runs.Call.{Lie};
ghost use Rattle.bracket_table.specs.Seen.{view};
ghost use Rattle.faults.specs.Outcome.{told};
ghost use Rattle.sheet.specs.Calls.{LieSaysYes, conversion_outcome};
ghost use Rattle.sheet.specs.Faults.{sheet_fault};
ghost use Rattle.sheet_laws.specs.Brackets.{OnlyLyndon};

use crate::checks::check_conversion;
use crate::fault::SheetFault;
use crate::places::{is_zero, word_at};
use bracket_table::Table;
use coded_word::Shape;
use ring::Ring;

/// Whether each coordinate at a word that is not Lyndon is zero, for the coordinates of a sheet of length m.
#[tactic(auto, using(crate::proofs::OnlyLyndon::says_yes))]
pub fn lie<R: Ring>(table: &mut Table, m: usize, coordinates: &[R]) -> Result<bool, SheetFault>
    ensures outcome { told (λ _. tt) sheet_fault result ≡ conversion_outcome (view table.old) m (length coordinates.now) }
    ensures answer { IfOk result (λ yes. Decides yes (LieSaysYes R.ring (view table.old).shape m coordinates.now)) }
    ensures step { view table.new ≡ next (Lie m (length coordinates.now)) (view table.old) }
    ensures same { table.new ≡ table.old }
{
    let shape = check_conversion(table, m, coordinates.len())?;
    Ok(has_only_lyndon(shape, m as u8, coordinates))
}

/// Whether the coordinates of a sheet of length m are zero but at Lyndon words.
#[tactic(auto, using(crate::proofs::OnlyLyndon::none_below, crate::proofs::OnlyLyndon::zero_below, crate::proofs::OnlyLyndon::lyndon_below, crate::proofs::OnlyLyndon::one_other, crate::proofs::OnlyLyndon::all_seen))]
fn has_only_lyndon<R: Ring>(shape: Shape, m: u8, coordinates: &[R]) -> bool
    requires length { (1 ≤ m) × (m ≤ shape.n) }
    requires size { length coordinates.now ≡ shape.k ^ m }
    ensures { Decides result (OnlyLyndon R.ring shape.k m coordinates.now) }
{
    for (place, value) in coordinates.iter().enumerate() {
        if !is_zero(*value) && !word_at(shape, m, place).is_lyndon() {
            return false;
        }
    }
    true
}
