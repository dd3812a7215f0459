//! P of a word as a sum of words with signs.
ghost use Rattle.std.specs.Prelude.{◌≡◌, ℕ, ◌+◌, ◌-◌, ◌^◌, ◌<◌, ◌≤◌, false, [], ◌∷◌, length};
ghost use Rattle.bracket.specs.Cuts.{letters_of};
ghost use Rattle.lyndon.specs.Codes.{code as code_of};
ghost use Rattle.sheet.specs.Words.{InShape, room_for, Expands};

use crate::sum::{Sum, bracket, product};
use bracket::{Cut, ShortWord};
use coded_word::Shape;
use sheet_laws::Term;

/// The memory that P of the longest words takes.
pub(crate) const ROOM: usize = 4_106;

/// P of each of two words, neither of them empty.
#[cycle(terms)]
pub(crate) fn expand_parts<'m>(
    shape: Shape,
    left: ShortWord,
    right: ShortWord,
    memory: &'m mut [Term],
) -> (Sum<'m>, Sum<'m>)
    requires left { InShape shape (letters_of left) × (0 < length (letters_of left)) }
    requires right { InShape shape (letters_of right) × (0 < length (letters_of right)) }
    requires room { room_for (length (letters_of left)) + room_for (length (letters_of right)) ≤ length memory.old }
    ensures left { Expands shape.k (letters_of left.entry) result.0 }
    ensures right { Expands shape.k (letters_of right.entry) result.1 }
{
    let (front, behind) = memory.split_at_mut(room(left));
    let x = expand_word(shape, left, front);
    let y = expand_word(shape, right, behind);
    (x, y)
}

/// P of a word that is not empty.
#[cycle(terms)]
fn expand_word<'m>(shape: Shape, word: ShortWord, memory: &'m mut [Term]) -> Sum<'m>
    requires word { InShape shape (letters_of word) × (0 < length (letters_of word)) }
    requires room { room_for (length (letters_of word)) ≤ length memory.old }
    ensures { Expands shape.k (letters_of word.entry) result }
{
    let (front, spare) = memory.split_at_mut(most(word));
    match word.cut() {
        Cut::Single => single(shape, word, front),
        Cut::Bracket(left, right) => {
            let (x, y) = expand_parts(shape, left, right, spare);
            bracket(x, y, front)
        }
        Cut::Product(factor, rest) => {
            let (x, y) = expand_parts(shape, factor, rest, spare);
            product(x, y, front)
        }
    }
}

/// How many terms P of a word has at most.
fn most(word: ShortWord) -> usize
    ensures { result ≡ 2 ^ (length (letters_of word.entry) - 1) }
{
    2_usize.pow((word.letters.len() as u32).saturating_sub(1))
}

/// The memory that P of a word takes, with P of its parts.
#[tactic(auto, unfolding(crate::specs::Words::room_for))]
fn room(word: ShortWord) -> usize
    ensures { result ≡ room_for (length (letters_of word.entry)) }
{
    let letters = word.letters.len();
    (2_usize.pow(letters as u32) + letters).saturating_sub(2)
}

/// A word of one letter.
#[tactic(auto, using(crate::proofs::Sums::below_letter))]
fn single<'m>(shape: Shape, word: ShortWord, memory: &'m mut [Term]) -> Sum<'m>
    requires word { InShape shape (letters_of word) × (length (letters_of word) ≡ 1) }
    requires room { 1 ≤ length memory.old }
    ensures words { result.words ≡ shape.k }
    ensures terms { result.terms.now ≡ record { code = code_of shape.k (letters_of word.entry); negative = false } ∷ [] }
{
    let (terms, _) = memory.split_at_mut(1);
    terms[0] = letter_term(word.letters);
    Sum {
        terms,
        words: u16::from(shape.k),
    }
}

/// The term of a word of at most one letter.
pub(crate) fn letter_term(word: &[u8]) -> Term
    requires { length word.now < 2 }
    ensures { (k : ℕ) → result ≡ record { code = code_of k word.now; negative = false } }
{
    let code = match word.first() {
        Some(letter) => u16::from(*letter),
        None => 0,
    };
    Term {
        code,
        negative: false,
    }
}
