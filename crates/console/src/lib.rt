//! What the programs share: the front of their input, what stops a report, and how it is printed.

#![tactic(auto)]

ghost use Rattle.std.specs.Prelude.{◌≡◌, ℕ, List, ◌≤◌, length, take, IfOk, IfSome, MatchResult, OnOk, vec_items};
ghost use Rattle.std.specs.Io.KnownBytes.{Appends, Consumes};
ghost use Rattle.text.specs.Faults.{text_fault};
ghost use Rattle.text.specs.Lines.{fault_line};
ghost use Rattle.word.specs.Faults.{word_fault};
ghost use Rattle.console.specs.Reports.{Determined, Prints, Settled, StopPrints};
ghost use Rattle.console.specs.declared.Stop.TheVariants.{Refused, NoMemory};

use faults::Fault;
use std::alloc::{AllocError, Global};
use std::io;
use std::io::{Error, ErrorKind, Read, Write};
use text::{TextFault, write_fault_line};
use word::WordFault;

/// So many bytes of an input decide what its first line is: those of the longest line that is taken, and one more.
pub const FRONT: usize = 4_097;

/// The most bytes that the line of a fault has, and some more.
const LONGEST: usize = 16;

/// Fills a buffer with the front of an input, and answers how many bytes were read: fewer than it has room for only
/// where the input ends.
pub fn read_front<R: Read>(input: &mut R, buffer: &mut [u8; FRONT]) -> io::Result<usize>
    ensures room { length buffer.new ≡ 4097 }
    ensures within { IfOk result (λ count. count ≤ 4097) }
    ensures bytes { IfOk result (λ count. IfSome (R.remaining input.old) (λ bytes. take count buffer.new ≡ take 4097 bytes)) }
    ensures taken { IfOk result (λ count. Consumes (R.remaining input.old) (R.remaining input.new) (take count buffer.new)) }
{
    read_at_most(input, FRONT, buffer)
}

/// Reads so many bytes of an input into a buffer of that size, or all where there are fewer.
// Into lent memory, and each time for all that is left of it: `read_to_end` asks the heap for memory, which could be
// refused, and at first reads less, so that the rest of a message would be lost where standard input keeps them apart.
#[tactic(auto, using(crate::proofs::Fronts::reads_more, crate::proofs::Fronts::reads_none))]
fn read_at_most<R: Read>(input: &mut R, most: usize, buffer: &mut [u8]) -> io::Result<usize>
    requires { length buffer.old ≡ most }
    ensures within { IfOk result (λ count. count ≤ most) }
    ensures bytes { IfOk result (λ count. IfSome (R.remaining input.old) (λ bytes. take count buffer.new ≡ take most bytes)) }
    ensures taken { IfOk result (λ count. Consumes (R.remaining input.old) (R.remaining input.new) (take count buffer.new)) }
{
    let mut count = 0;
    // turns are counted, since nothing says that an input which is interrupted each time ever ends
    for _ in 0..u64::MAX {
        if count == most {
            return Ok(count);
        }
        let read = match input.read(&mut buffer[count..]) {
            Ok(read) => read,
            Err(error) if error.kind() == ErrorKind::Interrupted => continue,
            Err(error) => return Err(error),
        };
        if read == 0 {
            return Ok(count);
        }
        count += read;
    }
    Err(Error::from(ErrorKind::TimedOut))
}

/// What stops a report.
#[derive(Clone, Copy, PartialEq, Eq, Debug)]
pub enum Stop {
    /// A call is refused: the line of the fault is printed.
    Refused(Fault),
    /// There is no memory: nothing is printed.
    NoMemory(AllocError),
}

// by hand, since clauses say what a conversion gives, and one for each: one for all that a fault is made of would cover
// missing memory too
impl From<Fault> for Stop {
    ghost from_gives = { λ fault stop. stop ≡ Refused fault };

    fn from(fault: Fault) -> Stop {
        Stop::Refused(fault)
    }
}

impl From<TextFault> for Stop {
    ghost from_gives = { λ refused stop. stop ≡ Refused (text_fault refused) };

    fn from(refused: TextFault) -> Stop {
        Stop::Refused(Fault::from(refused))
    }
}

impl From<WordFault> for Stop {
    ghost from_gives = { λ refused stop. stop ≡ Refused (word_fault refused) };

    fn from(refused: WordFault) -> Stop {
        Stop::Refused(Fault::from(refused))
    }
}

impl From<AllocError> for Stop {
    ghost from_gives = { λ refused stop. stop ≡ NoMemory refused };

    fn from(refused: AllocError) -> Stop {
        Stop::NoMemory(refused)
    }
}

/// The line of a fault, for printing.
#[tactic(auto, using(crate::proofs::Lines::line_answered, crate::proofs::Lines::line_in_front, crate::proofs::Lines::fault_line_short))]
pub fn fault_report(heap: Global, number: u8) -> Result<Vec<u8>, AllocError>
    ensures { IfOk result (λ lines. lines.items ≡ fault_line number) }
{
    // each line is written into a lent buffer, by a buffer, a call and a slice. One public function for all would ask
    // that a closure may be called, which public ones do not, and a trait for lines would be longer
    let mut line = [0; LONGEST];
    let count = write_fault_line(number, &mut line).unwrap();
    Vec::from_slice(heap, &line[..count])
}

/// A report as it is printed: the line of a fault stands in its place.
pub fn settled(heap: Global, report: Result<Vec<u8>, Stop>) -> Result<Vec<u8>, AllocError>
    ensures { Settled vec_items report result }
{
    match report {
        Ok(lines) => Ok(lines),
        Err(Stop::Refused(fault)) => fault_report(heap, fault.number),
        Err(Stop::NoMemory(error)) => Err(error),
    }
}

/// A program: what it prints for an input, of which the first line decides.
pub trait Program {
    /// What may be printed for a line of at most 4,096 bytes.
    ghost prints: { List ℕ → List ℕ → Type 0 };

    /// The lines that it prints for an input, or what stops them.
    fn lines(&self, heap: Global, input: &[u8]) -> Result<Vec<u8>, Stop>
        ensures { MatchResult result (λ lines. Prints prints input.now lines.items) (StopPrints (Prints prints input.now)) };

    /// What it prints for an input: these lines, or the line of a fault.
    #[tactic(auto, using(crate::proofs::Reports::settles))]
    fn report(&self, heap: Global, input: &[u8]) -> Result<Vec<u8>, AllocError>
        ensures printed { IfOk result (λ lines. Prints prints input.now lines.items) }
        ensures determined { Determined prints }
    {
        settled(heap, self.lines(heap, input))
    }

    /// One thing is printed for a line.
    ghost once: { (line one other : List ℕ) → prints line one → prints line other → one ≡ other };
}

/// Runs a program: writes what it prints for an input, which is closed before that is made.
pub fn run<P: Program, R: Read + Drop, W: Write>(
    program: &P,
    heap: Global,
    mut input: R,
    output: &mut W,
) -> io::Result<()>
    ensures { OnOk result (IfSome (R.remaining input) (λ bytes. (printed : List ℕ)
        × Prints P.prints bytes printed
        × Appends (W.contents output.old) (W.contents output.new) printed)) }
{
    let mut front = [0; FRONT];
    let count = read_front(&mut input, &mut front)?;
    // whoever makes or takes the lines may wait for this
    drop(input);
    let lines = program.report(heap, &front[..count])?;
    output.write_all(&lines)
}

#[cfg(test)]
mod tests {
    use super::*;
    use faults::Layer;
    use std::cell::Cell;
    use std::test::Fail;
    use text::first_line;

    /// Prints the first line of its input.
    struct Echo;

    impl Program for Echo {
        ghost use Rattle.std.proofs.Common.{sym, ◌∙◌};

        ghost prints = { λ line printed. printed ≡ line };

        #[tactic(auto, using(crate::proofs::Reports::line_prints))]
        fn lines(&self, heap: Global, input: &[u8]) -> Result<Vec<u8>, Stop> {
            let line = first_line(input)?;
            Ok(Vec::from_slice(heap, line)?)
        }

        ghost once = { λ line one other p q. p ∙ sym q };
    }

    /// An input, and whether it is still open.
    struct Opened<'a> {
        bytes: &'a [u8],
        open: &'a Cell<bool>,
    }

    impl Read for Opened<'_> {
        fn read(&mut self, buffer: &mut [u8]) -> io::Result<usize> {
            self.bytes.read(buffer)
        }
    }

    impl Drop for Opened<'_> {
        fn drop(self) {
            let Opened { bytes: _, open } = self;
            open.set(false);
        }
    }

    /// Prints the first line of its input, but gives up while an input is open.
    #[derive(Drop)]
    struct Waits<'a> {
        open: &'a Cell<bool>,
    }

    impl Program for Waits<'_> {
        ghost use Rattle.std.proofs.Common.{sym, ◌∙◌};

        ghost prints = { λ line printed. printed ≡ line };

        fn lines(&self, heap: Global, input: &[u8]) -> Result<Vec<u8>, Stop> {
            if self.open.get() {
                return Err(Stop::NoMemory(AllocError));
            }
            Echo.lines(heap, input)
        }

        ghost once = { λ line one other p q. p ∙ sym q };
    }

    #[test]
    fn an_input_is_closed_before_its_lines_are_made(rt: HostRuntime) -> Result<(), Fail> {
        let open = Cell::new(true);
        let input = Opened {
            bytes: b"one\ntwo",
            open: &open,
        };
        let mut output = Vec::new(rt.alloc());
        run(&Waits { open: &open }, rt.alloc(), input, &mut output)?;
        assert!(rt; output.as_slice() == b"one".as_slice());
        Ok(())
    }

    #[test]
    fn a_program_prints_by_its_first_line(rt: HostRuntime) -> Result<(), Fail> {
        let input = b"one\ntwo";
        let mut output = Vec::new(rt.alloc());
        run(&Echo, rt.alloc(), input.as_slice(), &mut output)?;
        assert!(rt; output.as_slice() == b"one".as_slice());
        Ok(())
    }

    #[test]
    fn an_empty_input_is_an_empty_line(rt: HostRuntime) -> Result<(), Fail> {
        let mut output = Vec::new(rt.alloc());
        run(&Echo, rt.alloc(), b"".as_slice(), &mut output)?;
        assert!(rt; output.is_empty());
        Ok(())
    }

    #[test]
    fn a_fault_is_a_line(rt: HostRuntime) -> Result<(), Fail> {
        let fault = Fault::found(14, Layer::Text, 0, 0);
        let lines = settled(rt.alloc(), Err(Stop::Refused(fault)))?;
        assert!(rt; lines.as_slice() == b"fault 14\n".as_slice());
        let fault = Fault::found(15, Layer::Text, 0, 0);
        let lines = settled(rt.alloc(), Err(Stop::Refused(fault)))?;
        assert!(rt; lines.as_slice() == b"fault 15\n".as_slice());
        Ok(())
    }
}
