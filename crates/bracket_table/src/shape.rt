//! Which k and n are a shape.
ghost use Rattle.std.specs.Prelude.{◌≡◌, IfOk};
ghost use Rattle.faults.specs.Outcome.{told};
ghost use Rattle.bracket_table.specs.Faults.{table_fault};
ghost use Rattle.bracket_table.specs.Views.{shape_checked};

use crate::fault::TableFault;
use coded_word::Shape;

/// The shape of k letters and words of at most n of them.
#[tactic(auto, using(std::proofs::lemmas::Bool::Decides::nat_tests, crate::proofs::Shapes::fits))]
pub(crate) fn check_shape(k: u64, n: u64) -> Result<Shape, TableFault>
    ensures outcome { told (λ _. tt) table_fault result ≡ shape_checked k n }
    ensures value { IfOk result (λ s. (s.k ≡ k) × (s.n ≡ n)) }
{
    if !(1..=16).contains(&k) {
        return Err(TableFault::Letters);
    }
    if !(1..=12).contains(&n) {
        return Err(TableFault::Depth);
    }
    if k.pow(n as u32) > 4_096 {
        return Err(TableFault::ManyWords);
    }
    Ok(Shape {
        k: k as u8,
        n: n as u8,
    })
}
