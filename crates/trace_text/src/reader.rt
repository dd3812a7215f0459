//! Reading a trace: its marks one by one, in a state that says what may follow.
ghost use Rattle.std.specs.Prelude.{◌≡◌, ◌+◌, ◌<◌, ◌≤◌, ◌⊎◌, ◌^◌, List, [], ◌∷◌, length, IfOk, Some, Ok, Decides, MatchResult};
ghost use Rattle.faults.specs.Outcome.{told};
ghost use Rattle.lent_list.specs.Lent.{places, items, Refilled};
ghost use Rattle.text.specs.Faults.{text_fault};
ghost use Rattle.text.specs.Digits.{AllDigits};
ghost use Rattle.trace_text.specs.Tokens.{Marked};
ghost use Rattle.trace_text.specs.Traces.{sign, IsTrace, TraceOutcome, OneOutcome};
ghost use Rattle.trace_text.specs.States.{LeadingZero, AxisRead, HasRead, Stepped, Counted};

use crate::token::{Mark, Marks, Token};
use lent_list::LentList;
use letter_order::{Move, Sense};
use text::TextFault;
use word::check_room;

/// The most bytes that a trace may have.
const LONGEST: usize = 4_096;

/// What a reader of traces awaits.
#[derive(Clone, Copy)]
enum State {
    /// A move, or the end of an empty text.
    Start,
    /// A move.
    Next,
    /// The axis of a move of this sense.
    Axis(Sense),
    /// A space, or the end of the text: a move has ended.
    Ended,
}

/// A reader of the moves of a text: the marks that are left to read, and what it awaits.
#[derive(Drop)]
struct Reader<'a> {
    marks: Marks<'a>,
    state: State,
}

/// The sense that a sign stands for.
// no `TryFrom`: a sign is a part of the text, and no other bytes come here
fn sense_of(bytes: &[u8]) -> Sense
    requires { (bytes.now ≡ 43 ∷ []) ⊎ (bytes.now ≡ 45 ∷ []) }
    ensures { bytes.now ≡ sign result ∷ [] }
{
    match bytes[0] {
        b'+' => Sense::Forward,
        _ => Sense::Reverse,
    }
}

/// Whether a zero is followed by more digits.
fn has_leading_zero(digits: &[u8]) -> bool
    ensures { Decides result (LeadingZero digits.now) }
{
    digits.len() > 1 && digits[0] == b'0'
}

/// The axis that the digits at a place write. Where they write none, it is refused at the first digit
/// with which they write none: the one behind a leading zero, or the one that makes the number greater than 255.
#[tactic(auto, using(crate::proofs::Axes::value_on, crate::proofs::Axes::axis_zero, crate::proofs::Axes::axis_great, crate::proofs::Axes::axis_read))]
fn axis_of(digits: &[u8], place: usize) -> Result<u8, TextFault>
    requires some { 0 < length digits.now }
    requires digits { AllDigits digits.now }
    requires fits { place + length digits.now < 2 ^ 64 }
    ensures { AxisRead digits.now place result }
{
    if has_leading_zero(digits) {
        return Err(TextFault::Malformed(place + 1));
    }
    let mut axis: u16 = 0;
    for (offset, digit) in digits.iter().enumerate() {
        axis = axis * 10 + (*digit - b'0') as u16;
        if axis > 255 {
            return Err(TextFault::Malformed(place + offset));
        }
    }
    Ok(axis as u8)
}

impl<'a> Reader<'a> {
    /// A reader at the start of a text.
    #[tactic(auto, using(crate::proofs::Turns::starts))]
    fn new(text: &'a [u8]) -> Self
        ensures { HasRead text.now [] result }
    {
        Reader {
            marks: Marks::new(text),
            state: State::Start,
        }
    }

    /// Takes the mark that was read last, and answers the move that it ends.
    #[tactic(auto, using(crate::proofs::Steps::digits_awaited, crate::proofs::Steps::space_taken, crate::proofs::Steps::untaken))]
    fn step(&mut self, mark: Mark) -> Result<Option<Move>, TextFault>
        requires { Marked self.old.marks.text.now mark.place self.old.marks.place (Some mark) }
        ensures marks { self.new.marks ≡ self.old.marks }
        ensures done { Stepped mark.entry.place self.old self.new result }
    {
        // state and token together, and no function for each state, so that one sees what may follow what
        match (self.state, mark.token) {
            (State::Start | State::Next, Token::Sign(bytes)) => {
                self.state = State::Axis(sense_of(bytes));
            }
            (State::Axis(sense), Token::Digits(digits)) => {
                let axis = axis_of(digits, mark.place)?;
                self.state = State::Ended;
                return Ok(Some(Move { axis, sense }));
            }
            (State::Ended, Token::Space) => self.state = State::Next,
            _ => return Err(TextFault::Malformed(mark.place)),
        }
        Ok(None)
    }
}

/// Each move of the text, up to the first fault.
impl<'a> Iterator for Reader<'a> {
    ghost use Rattle.trace_text.specs.States.{GivesMove, moves_left};

    type Item = Result<Move, TextFault>;

    ghost next_gives = { GivesMove };

    ghost remaining = { moves_left };

    fn next(&mut self) -> Option<Result<Move, TextFault>> {
        // no `for`: it would hold the marks, and `step` needs the whole reader
        while let Some(mark) = self.marks.next() {
            if let Some(ended) = self.step(mark).transpose() {
                return Some(ended);
            }
        }
        match self.state {
            State::Start | State::Ended => None,
            State::Next | State::Axis(_) => {
                // that the text ends early is told once
                self.state = State::Ended;
                Some(Err(TextFault::Malformed(self.marks.place)))
            }
        }
    }
}

/// How many moves a text has.
fn count_moves(text: &[u8]) -> Result<usize, TextFault>
    ensures { Counted text.now result }
{
    // tried as a `try_fold`: its closure cannot know that the sum fits
    let mut count = 0;
    for next in Reader::new(text) {
        next?;
        count += 1;
    }
    Ok(count)
}

/// Puts the moves of a trace into a list, in the place of all that there are.
fn fill(text: &[u8], moves: &mut LentList<Move>) -> Result<(), TextFault>
    requires { (ms : List Move) × IsTrace text.now ms × (length ms ≤ length (places moves.old)) }
    ensures done { result ≡ Ok tt }
    ensures moves { IsTrace text.now (items moves.new) }
    ensures within { length (items moves.new) ≤ length (places moves.old) }
    ensures memory { Refilled moves.old moves.new (items moves.new) }
{
    moves.clear();
    for next in Reader::new(text) {
        // there is room
        let _ = moves.push(next?);
    }
    Ok(())
}

/// Reads the moves of a text of at most 4,096 bytes into a list, in the place of all that there are.
/// Answers how many there are. A refused call alters nothing.
#[tactic(auto, using(crate::proofs::Outcomes::one_outcome))]
pub fn read_trace(text: &[u8], moves: &mut LentList<Move>) -> Result<usize, TextFault>
    ensures outcome { TraceOutcome text.now (length (places moves.old)) (told (λ _. items moves.new) text_fault result) }
    ensures count { IfOk result (λ n. n ≡ length (items moves.new)) }
    ensures memory { MatchResult result (λ _. Refilled moves.old moves.new (items moves.new)) (λ _. moves.new ≡ moves.old) }
    ensures one { OneOutcome }
{
    if text.len() > LONGEST {
        return Err(TextFault::LongText);
    }
    let count = count_moves(text)?;
    check_room(moves.size(), count)?;
    fill(text, moves)?;
    Ok(moves.count())
}
