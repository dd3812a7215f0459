//! Faults as plain numbers.
ghost use Rattle.std.specs.Prelude.{◌≡◌};
ghost use Rattle.c_interface.specs.Answers.{answer_or, fault_of, layer_number, plain};
ghost use Rattle.faults.specs.Outcome.{told};

use faults::{Fault, Layer};

/// Why a call was refused; all is 0 where it was accepted.
#[repr(C)]
#[derive(Clone, Copy)]
pub struct PlainFault {
    pub number: u8,
    /// The layer that found it, by its number.
    pub layer: u8,
    /// The layers that passed it up, lowest first.
    pub first: u8,
    pub second: u8,
    pub third: u8,
    /// The byte of a text that it is about.
    pub place: usize,
    /// The letter of a word that it is about.
    pub position: usize,
}

/// What a call answers that was accepted.
const ACCEPTED: PlainFault = PlainFault {
    number: 0,
    layer: 0,
    first: 0,
    second: 0,
    third: 0,
    place: 0,
    position: 0,
};

impl PlainFault {
    /// What a call answers.
    pub(crate) fn of(outcome: Result<(), Fault>) -> Self
        ensures { result ≡ fault_of (told (λ x. x) (λ f. f) outcome) }
    {
        match outcome {
            Ok(()) => ACCEPTED,
            Err(refused) => Self::from(refused),
        }
    }
}

impl From<Fault> for PlainFault {
    ghost from_gives = { λ refused r. r ≡ plain refused };

    fn from(refused: Fault) -> Self {
        Self {
            number: refused.number,
            layer: layer_number(Some(refused.layer)),
            first: layer_number(refused.passed.first),
            second: layer_number(refused.passed.second),
            third: layer_number(refused.passed.third),
            place: refused.place,
            position: refused.position,
        }
    }
}

/// The number of a layer, or 0.
fn layer_number(layer: Option<Layer>) -> u8
    ensures { result ≡ layer_number layer }
{
    match layer {
        None => 0,
        Some(Layer::Word) => 1,
        Some(Layer::Text) => 2,
        Some(Layer::Table) => 3,
        Some(Layer::Sheet) => 4,
    }
}

/// Puts an answer into the place that was lent for it, or answers why there is none.
pub(crate) fn settle<T: Copy>(outcome: Result<T, Fault>, place: &mut T) -> PlainFault
    ensures fault { result ≡ fault_of (told (λ x. x) (λ f. f) outcome) }
    ensures place { place.new ≡ answer_or (told (λ x. x) (λ f. f) outcome) place.old }
{
    match outcome {
        Ok(answer) => {
            *place = answer;
            ACCEPTED
        }
        Err(refused) => PlainFault::from(refused),
    }
}
