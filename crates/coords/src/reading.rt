//! Reading uv and vu from a line.
ghost use Rattle.std.specs.Prelude.{◌≡◌, ◌+◌, ◌≤◌, ◌++◌, length, take, IfOk};
ghost use Rattle.faults.specs.Outcome.{told, checked};
ghost use Rattle.faults.specs.Outcome.Outcome.{answered};
ghost use Rattle.word.specs.Faults.{letters_checked, word_fault};
ghost use Rattle.coded_word.specs.Words.{word_of};
ghost use Rattle.input_text.specs.Symbols.{letters_of};
ghost use Rattle.input_text.specs.Words.{words_of};
ghost use Rattle.coords.specs.Printed.{size, uv, vu};
ghost use Rattle.coords.specs.Products.{both};

use crate::products::Products;
use coded_word::{CodedWord, Shape};
use input_text::{Symbols, WordPair};
use word::WordFault;

/// No word of a shape has more letters.
const LETTERS: usize = 12;

/// Reads uv and vu, where they have as many letters as the longest words of the shape.
#[tactic(auto, using(crate::proofs::Read::vu_read))]
pub(crate) fn read_products(shape: Shape, words: WordPair) -> Result<Products, WordFault>
    requires { size (words_of words) ≡ shape.n }
    ensures outcome { let w = words_of words.entry in told both word_fault result ≡ checked (letters_checked shape.k (uv w)) (answered (uv w, vu w)) }
    ensures shape { IfOk result (λ p. p.uv.shape ≡ shape) }
{
    let uv = read_product(shape, words.first, words.second)?;
    // its letters are those of uv
    let vu = read_product(shape, words.second, words.first).unwrap();
    Ok(Products { uv, vu })
}

/// Reads one word with another behind it, which have together as many letters as the longest words of the shape.
#[tactic(auto, using(crate::proofs::Read::product_read))]
fn read_product(shape: Shape, first: Symbols, second: Symbols) -> Result<CodedWord, WordFault>
    requires { length (letters_of first) + length (letters_of second) ≡ shape.n }
    ensures outcome { let letters = letters_of first.entry ++ letters_of second.entry in told word_of word_fault result ≡ checked (letters_checked shape.k letters) (answered letters) }
    ensures shape { IfOk result (λ w. (w.shape ≡ shape) × (w.length ≡ shape.n)) }
{
    let mut letters = [0; LETTERS];
    let count = write_product(first, second, &mut letters);
    CodedWord::read(shape, &letters[..count])
}

/// Writes the letters of one word with those of another behind them, and answers how many there are.
fn write_product(first: Symbols, second: Symbols, letters: &mut [u8]) -> usize
    requires { length (letters_of first) + length (letters_of second) ≤ length letters.old }
    ensures count { result ≤ length letters.new }
    ensures letters { take result letters.new ≡ letters_of first.entry ++ letters_of second.entry }
{
    let count = first.write_letters(letters).unwrap();
    count + second.write_letters(&mut letters[count..]).unwrap()
}
