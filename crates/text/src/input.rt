//! What a program reads of its input.
ghost use Rattle.std.specs.Prelude.{◌≡◌, position, ◌==◌};
ghost use Rattle.faults.specs.Outcome.{told};
ghost use Rattle.text.specs.Faults.{text_fault};
ghost use Rattle.text.specs.Input.{first_line, FrontDecides};

use crate::fault::TextFault;

/// The most bytes that a line of an input may have.
const LONGEST: usize = 4_096;

/// Where the first line feed stands, if there is one.
fn line_feed(input: &[u8]) -> Option<usize>
    ensures { result ≡ position (λ c. c == 10) input.now }
{
    input.iter().position(|byte| *byte == b'\n')
}

/// The first line of an input: the bytes before the first line feed, or all where there is none.
/// The first 4,097 bytes of an input decide what is answered.
#[tactic(auto, using(crate::proofs::FirstLine::line_end, crate::proofs::FirstLine::line_front, crate::proofs::FirstLine::front_decides))]
pub fn first_line(input: &[u8]) -> Result<&[u8], TextFault>
    ensures outcome { told (λ bytes. bytes.now) text_fault result ≡ first_line input.now }
    ensures front { FrontDecides }
{
    let end = line_feed(input).unwrap_or(input.len());
    if end > LONGEST {
        return Err(TextFault::LongText);
    }
    Ok(&input[..end])
}
