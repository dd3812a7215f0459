//! The words uv and vu.
ghost use Rattle.std.specs.Prelude.{◌≡◌};

use coded_word::CodedWord;

/// The words uv and vu, which have as many letters as the longest words of their shape.
#[derive(Clone, Copy)]
pub(crate) struct Products {
    pub(crate) uv: CodedWord,
    pub(crate) vu: CodedWord,
    ghost same: { vu.shape ≡ uv.shape },
    ghost uv_longest: { uv.length ≡ uv.shape.n },
    ghost vu_longest: { vu.length ≡ uv.shape.n },
}
