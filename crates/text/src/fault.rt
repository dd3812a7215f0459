//! Why a call on texts is refused.
ghost use Rattle.std.specs.Prelude.{◌≡◌};
ghost use Rattle.text.specs.Faults.{text_fault};
ghost use Rattle.text.specs.declared.fault.TextFault.TheVariants.{ShortBuffer, Word};

use faults::{Fault, Layer};
use lent_list::Full;
use word::WordFault;

#[derive(Clone, Copy, PartialEq, Eq, Debug)]
pub enum TextFault {
    /// A buffer is shorter than what is to be written into it.
    ShortBuffer,
    /// A text has more than 4,096 bytes.
    LongText,
    /// No well-formed text can continue at this byte.
    Malformed(usize),
    /// No entry has this text.
    UnknownText,
    /// A fault of the word layer.
    Word(WordFault),
}

/// Its number, with the layer that found it and those that passed it up.
// a `match` for each layer, whose faults are others; by hand, as each `From` here: what a derive writes has no contract,
// and clauses say what a conversion gives
impl From<TextFault> for Fault {
    ghost from_gives = { λ refused fault. fault ≡ text_fault refused };

    fn from(refused: TextFault) -> Fault {
        match refused {
            TextFault::ShortBuffer => Fault::found(7, Layer::Text, 0, 0),
            TextFault::LongText => Fault::found(14, Layer::Text, 0, 0),
            TextFault::Malformed(place) => Fault::found(15, Layer::Text, place, 0),
            TextFault::UnknownText => Fault::found(16, Layer::Text, 0, 0),
            TextFault::Word(lower) => Fault::from(lower).passed_by(Layer::Text),
        }
    }
}

impl From<WordFault> for TextFault {
    ghost from_gives = { λ below r. r ≡ Word below };

    fn from(below: WordFault) -> Self {
        Self::Word(below)
    }
}

/// What is written into is a list over a buffer.
impl From<Full> for TextFault {
    ghost from_gives = { λ _ r. r ≡ ShortBuffer };

    fn from(_: Full) -> Self {
        Self::ShortBuffer
    }
}
