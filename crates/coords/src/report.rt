//! What the program prints for an input.
ghost use Rattle.std.specs.Prelude.{◌≡◌, Some, IfOk, MatchResult};
ghost use Rattle.faults.specs.Outcome.{told};
ghost use Rattle.bracket_table.specs.Seen.{view};
ghost use Rattle.bracket_table.specs.Views.{shape_checked};
ghost use Rattle.console.specs.Reports.{StopPrints};
ghost use Rattle.input_text.specs.Words.{words_of};
ghost use Rattle.coords.specs.Printed.{LinePrints, WordsPrint, size};

use crate::lines::bracket_lines;
use crate::reading::read_products;
use bracket_table::Table;
use coded_word::Shape;
use console::{Program, Stop};
use faults::Fault;
use input_text::{WordPair, read_words};
use lyndon::Entry;
use std::alloc::Global;
use text::first_line;

/// No shape has more Lyndon words.
const MOST: usize = 1_496;

/// The program that prints the coordinates of uv - vu for two words.
pub struct BracketOfWords;

impl Program for BracketOfWords {
    ghost use Rattle.coords.specs.OneLine.{one_line};

    ghost prints = { LinePrints };

    /// The lines of the coordinates of uv - vu, for the words in the first line of an input.
    #[tactic(auto, using(crate::proofs::Reports::words_refused))]
    fn lines(&self, heap: Global, input: &[u8]) -> Result<Vec<u8>, Stop> {
        let line = first_line(input)?;
        let words = read_words(line)?;
        words_lines(heap, words)
    }

    ghost once = { one_line };
}

/// The lines of the coordinates of uv - vu for two words.
#[tactic(auto, using(crate::proofs::Reports::shape_refused, crate::proofs::Reports::letters_refused, crate::proofs::Reports::bracket_printed))]
fn words_lines(heap: Global, words: WordPair) -> Result<Vec<u8>, Stop>
    ensures { MatchResult result (λ lines. WordsPrint (words_of words.entry) lines.items) (StopPrints (WordsPrint (words_of words.entry))) }
{
    let mut memory = [Entry::default(); MOST];
    let mut table = Table::fresh(&mut memory);
    let shape = open_for(words, &mut table)?;
    let products = read_products(shape, words)?;
    Ok(bracket_lines(heap, &mut table, products)?)
}

/// Opens a table whose longest words have as many letters as two words together, and answers its shape.
fn open_for(words: WordPair, table: &mut Table) -> Result<Shape, Fault>
    ensures outcome { let w = words_of words.entry in told (λ _. tt) (λ f. f) result ≡ shape_checked w.k (size w) }
    ensures value { let w = words_of words.entry in IfOk result (λ s. (s.k ≡ w.k) × (s.n ≡ size w)) }
    ensures shape { IfOk result (λ s. (view table.new).shape ≡ Some (record { k = s.k; n = s.n })) }
    ensures room { (view table.new).room ≡ (view table.old).room }
{
    table.open(u64::from(words.k), words.count() as u64)?;
    Ok(table.shape()?)
}
