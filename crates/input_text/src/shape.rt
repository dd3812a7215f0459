//! Reading a line "k n".
ghost use Rattle.faults.specs.Outcome.{told};
ghost use Rattle.text.specs.Faults.{text_fault};
ghost use Rattle.input_text.specs.Shapes.{ShapeOutcome, OneOutcome};

use crate::part::LineReader;
use text::TextFault;

/// The two numbers of a line "k n".
#[derive(Clone, Copy, PartialEq, Eq, Debug)]
pub struct Numbers {
    pub k: u8,
    pub n: u8,
}

/// Reads a line "k n": two decimal numbers, each of at most two digits and without leading zero, with one space
/// between them and nothing else.
/// Any other line is refused as malformed, at the first byte at which no such line can continue, or at its end.
#[tactic(auto, using(crate::proofs::Outcomes::one_outcome))]
pub fn read_shape(line: &[u8]) -> Result<Numbers, TextFault>
    ensures outcome { ShapeOutcome line.now (told (λ numbers. numbers) text_fault result) }
    ensures one { OneOutcome }
{
    let mut reader = LineReader::new(line);
    let k = reader.number()?;
    reader.space()?;
    let n = reader.number()?;
    reader.end()?;
    Ok(Numbers { k, n })
}
