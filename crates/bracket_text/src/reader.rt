//! Reading a bracket text: its marks one by one, and what is awaited says which may follow.
ghost use Rattle.std.specs.Prelude.{◌≡◌, ℕ, ◌+◌, ◌<◌, ◌≤◌, [], length, Decides};
ghost use Rattle.faults.specs.Outcome.{told};
ghost use Rattle.lent_list.specs.Lent.{places, items};
ghost use Rattle.text.specs.Faults.{text_fault};
ghost use Rattle.bracket_text.specs.Brackets.{BracketOutcome, OneOutcome};
ghost use Rattle.bracket_text.specs.Tokens.{Stands};
ghost use Rattle.bracket_text.specs.Words.{letters_in};

use crate::text_word::{LONGEST, TextWord};
use crate::token::{Mark, Token};
use lent_list::LentList;
use text::{TextFault, letter_of};

/// A part of a text.
#[derive(Clone, Copy)]
enum Part {
    /// A whole text: a symbol, or a bracket with two texts in it.
    Text,
    /// A comma.
    Comma,
    /// A closing bracket.
    Close,
}

/// What is awaited behind an opening bracket, the next one last.
const BRACKET: [Part; 4] = [Part::Close, Part::Text, Part::Comma, Part::Text];

/// The most parts that are awaited at once: the whole text, and three more for each opening bracket.
const PARTS: usize = 1 + 3 * LONGEST;

/// A reader of a text: the parts that it awaits, the next one last, and the letters that it has read.
#[derive(Drop)]
struct Reader<'a> {
    awaited: LentList<'a, Part>,
    word: TextWord,
}

impl<'a> Reader<'a> {
    ghost use Rattle.bracket_text.specs.States.{awaited, taken, whole, Stepped};

    /// A reader that awaits a text.
    fn new(memory: &'a mut [Part]) -> Self
        requires { 0 < length memory.old }
        ensures awaited { items result.awaited ≡ whole }
        ensures places { length (places result.awaited) ≡ length memory.old }
        ensures word { letters_in result.word ≡ [] }
        ensures count { result.word.count ≡ 0 }
    {
        let mut awaited = LentList::new(memory);
        // there is room
        let _ = awaited.push(Part::Text);
        Reader {
            awaited,
            word: TextWord::empty(),
        }
    }

    /// Takes the next mark, where what is awaited begins with it.
    fn step(&mut self, mark: Mark) -> Result<(), TextFault>
        requires stands { (c : ℕ) × Stands c mark.token }
        requires room { length (items self.old.awaited) + 3 ≤ length (places self.old.awaited) }
        requires few { self.old.word.count < 45 }
        ensures done { Stepped (taken (awaited self.old) mark.entry.token) mark.entry.place self.old self.new result }
        ensures size { length (items self.new.awaited) ≤ length (items self.old.awaited) + 3 }
        ensures places { length (places self.new.awaited) ≡ length (places self.old.awaited) }
        ensures count { self.new.word.count ≤ self.old.word.count + 1 }
    {
        // both together, so that one sees what may follow what
        match (self.awaited.pop(), mark.token) {
            (Some(Part::Text), Token::Symbol(symbol)) => self.word.push(letter_of(symbol[0])),
            // there is room, so that this is no refusal
            (Some(Part::Text), Token::Open) => self.awaited.extend_from_slice(&BRACKET)?,
            (Some(Part::Comma), Token::Comma) | (Some(Part::Close), Token::Close) => {}
            _ => return Err(TextFault::Malformed(mark.place)),
        }
        Ok(())
    }

    /// Whether nothing is awaited any more.
    fn is_done(&self) -> bool
        ensures { Decides result (awaited self.now ≡ []) }
    {
        self.awaited.count() == 0
    }
}

/// Reads a text of at most 45 bytes: a symbol, or two texts in brackets with a comma between.
/// Any other text is refused as malformed, at the first byte at which no text can continue, or at its end.
#[tactic(auto, using(crate::proofs::Outcomes::one_outcome, crate::proofs::Turns::reads))]
pub fn read_bracket(text: &[u8]) -> Result<TextWord, TextFault>
    ensures outcome { BracketOutcome text.now (told letters_in text_fault result) }
    ensures one { OneOutcome }
{
    if text.len() > LONGEST {
        return Err(TextFault::LongText);
    }
    let mut memory = [Part::Text; PARTS];
    let mut reader = Reader::new(&mut memory);
    for (place, byte) in text.iter().enumerate() {
        let token = Token::of(char::from(*byte), &text[place..=place]);
        reader.step(Mark { token, place })?;
    }
    if !reader.is_done() {
        return Err(TextFault::Malformed(text.len()));
    }
    Ok(reader.word)
}
