//! What the program prints for an input.
ghost use Rattle.table.specs.Printed.{LinePrints};

use crate::lines::table_lines;
use bracket_table::Table;
use console::{Program, Stop};
use faults::Fault;
use input_text::read_shape;
use lyndon::Entry;
use std::alloc::Global;
use text::first_line;

/// No shape has more Lyndon words.
const MOST: usize = 1_496;

/// The program that prints the bracket table of a shape.
pub struct Brackets;

impl Program for Brackets {
    ghost use Rattle.table.specs.OneLine.{one_line};

    ghost prints = { LinePrints };

    /// The lines of the table whose shape stands in the first line of an input.
    #[tactic(auto, using(crate::proofs::Reports::numbers_refused))]
    fn lines(&self, heap: Global, input: &[u8]) -> Result<Vec<u8>, Stop> {
        let line = first_line(input)?;
        let numbers = read_shape(line)?;
        let mut memory = [Entry::default(); MOST];
        let mut table = Table::fresh(&mut memory);
        table
            .open(numbers.k as u64, numbers.n as u64)
            .map_err(Fault::from)?;
        Ok(table_lines(heap, numbers, &mut table)?)
    }

    ghost once = { one_line };
}
