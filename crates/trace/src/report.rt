//! What the program prints for an input.
ghost use Rattle.std.specs.Prelude.{◌≡◌, ◌++◌, IfOk, OnOk};
ghost use Rattle.text.specs.Lines.{factor_line};
ghost use Rattle.trace.specs.Printed.{LinePrints, Rising, start_lines};

use console::{Program, Stop};
use lent_list::LentList;
use letter_order::{ByAxis, Move, Reversed, Sense};
use std::alloc::{AllocError, Global};
use text::{first_line, write_factor_line};
use trace_text::read_trace;
use word::factor;

/// A line of 4,096 bytes has no more moves: each takes two bytes, and a space but for the first.
const MOST: usize = 1_366;

/// What stands in the memory for moves before any is read.
const UNREAD: Move = Move {
    axis: 0,
    sense: Sense::Reverse,
};

/// The most bytes that the line of a factor has, and some more.
const LONGEST: usize = 16;

/// The program that prints the factors of a trace.
pub struct Trace;

impl Program for Trace {
    ghost use Rattle.trace.specs.OneLine.{one_line};

    ghost prints = { LinePrints };

    /// A line for each factor of the trace in the first line of an input, under the reversed order.
    #[tactic(auto, using(crate::proofs::Reports::trace_refused, crate::proofs::Reports::factors_fit, crate::proofs::Reports::rising_factors, crate::proofs::Reports::trace_printed))]
    fn lines(&self, heap: Global, input: &[u8]) -> Result<Vec<u8>, Stop> {
        let line = first_line(input)?;
        let mut memory = [UNREAD; MOST];
        let mut moves = LentList::new(&mut memory);
        let count = read_trace(line, &mut moves)?;
        let mut memory = [0; MOST];
        let mut starts = LentList::new(&mut memory);
        factor(&Reversed(ByAxis), moves.items(), &mut starts)?;
        Ok(start_lines(heap, starts.items(), count as u16)?)
    }

    ghost once = { one_line };
}

/// A line for each factor, by where they start and the place behind them all.
fn start_lines(heap: Global, starts: &[u16], end: u16) -> Result<Vec<u8>, AllocError>
    requires { Rising starts.now end }
    ensures { IfOk result (λ lines. lines.items ≡ start_lines starts.now end) }
{
    let mut lines = Vec::new(heap);
    let mut left = starts;
    while let Some((start, behind)) = left.split_first() {
        let next = behind.first().copied().unwrap_or(end);
        push_line(&mut lines, *start, next - *start)?;
        left = behind;
    }
    Ok(lines)
}

/// Puts the line of a factor behind others.
#[tactic(auto, using(console::proofs::Lines::line_answered, console::proofs::Lines::line_in_front, crate::proofs::Lines::factor_line_short))]
fn push_line(lines: &mut Vec<u8>, start: u16, size: u16) -> Result<(), AllocError>
    ensures { OnOk result (lines.new.items ≡ lines.old.items ++ factor_line start size) }
{
    // written into a lent buffer, as `console::fault_report` says
    let mut line = [0; LONGEST];
    let count = write_factor_line(start, size, &mut line).unwrap();
    lines.extend_from_slice(&line[..count])
}
