//! The places of a sheet, and the values at them.
ghost use Rattle.std.specs.Prelude.{◌≡◌, ◌^◌, ◌<◌, ◌≤◌, ◌↔◌, IsTrue};

use coded_word::{CodedWord, Shape};
use ring::Ring;

/// The word that has its value at this place of a sheet of length m.
#[tactic(auto, using(coded_word::proofs::Bounds::fits))]
pub(crate) fn word_at(shape: Shape, m: u8, place: usize) -> CodedWord
    requires length { (1 ≤ m) × (m ≤ shape.n) }
    requires place { place < shape.k ^ m }
    ensures shape { result.shape ≡ shape }
    ensures length { result.length ≡ m }
    ensures code { result.code ≡ place }
{
    CodedWord {
        shape,
        length: m,
        code: place as u16,
    }
}

/// Whether a value is zero.
pub(crate) fn is_zero<R: Ring>(value: R) -> bool
    ensures { IsTrue result ↔ (value ≡ R.ring.zero) }
{
    value.same(R::zero())
}
