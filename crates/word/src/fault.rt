//! Why a call on words is refused.
ghost use Rattle.std.specs.Prelude.{◌≡◌, ◌<◌, ◌≤◌, MatchResult};
ghost use Rattle.faults.specs.Outcome.{told};
ghost use Rattle.word.specs.Faults.{word_fault, room_checked};
ghost use Rattle.word.specs.declared.fault.WordFault.TheVariants.{LongWord};

use faults::{Fault, Layer};

/// The most letters that a word may have.
const LONGEST: usize = 65_535;

#[derive(Clone, Copy, PartialEq, Eq, Debug)]
pub enum WordFault {
    /// A list's memory is shorter than what it must hold.
    ShortMemory,
    /// A word has no letters, or more than are allowed.
    OtherLength,
    /// The letter at this position is not below k.
    ForeignLetter(usize),
    /// A word has more than 65,535 letters.
    LongWord,
    /// A word is not a Lyndon word.
    NotLyndon,
}

/// Its number, with the layer that found it, and the position of the letter that it is about.
// by hand, as each `From` here: what a derive writes has no contract, and clauses say what a conversion gives
impl From<WordFault> for Fault {
    ghost from_gives = { λ refused fault. fault ≡ word_fault refused };

    fn from(refused: WordFault) -> Fault {
        let (number, position) = match refused {
            WordFault::ShortMemory => (6, 0),
            WordFault::OtherLength => (12, 0),
            WordFault::ForeignLetter(position) => (13, position),
            WordFault::LongWord => (17, 0),
            WordFault::NotLyndon => (18, 0),
        };
        Fault::found(number, Layer::Word, 0, position)
    }
}

/// Refuses where a list's memory is shorter than what it must hold.
pub fn check_room(size: usize, elements: usize) -> Result<(), WordFault>
    ensures { told (λ done. done) word_fault result ≡ room_checked size elements }
{
    if size < elements {
        return Err(WordFault::ShortMemory);
    }
    Ok(())
}

/// Refuses a word that has more letters than are allowed.
pub(crate) fn check_longest(letters: usize) -> Result<(), WordFault>
    ensures { MatchResult result
        (λ _. letters ≤ 65535)
        (λ refused. (65535 < letters) × (refused ≡ LongWord)) }
{
    if letters > LONGEST {
        return Err(WordFault::LongWord);
    }
    Ok(())
}
