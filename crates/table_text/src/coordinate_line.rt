//! The line of a coordinate.
ghost use Rattle.std.specs.Prelude.{◌≡◌, [], ◌∷◌, ◌++◌, decimal};
ghost use Rattle.faults.specs.Outcome.{told};
ghost use Rattle.text.specs.Faults.{text_fault};
ghost use Rattle.text.specs.Lines.{written, left};
ghost use Rattle.coded_word.specs.Words.{word_of};
ghost use Rattle.table_text.specs.Lines.{coordinate_line};

use crate::symbols::{LETTERS, put_word};
use coded_word::CodedWord;
use text::{Piece, TextFault, write_pieces};

/// Writes symbols and a value, with a space between and a line feed behind.
fn write_fields(symbols: &[u8], value: u64, buffer: &mut [u8]) -> Result<usize, TextFault>
    ensures outcome { told (λ n. n) text_fault result ≡ written (symbols.now ++ (32 ∷ (decimal value ++ 10 ∷ []))) buffer.old }
    ensures buffer { buffer.new ≡ left (symbols.now ++ (32 ∷ (decimal value ++ 10 ∷ []))) buffer.old }
{
    let value = Piece::Number(value);
    write_pieces(
        &[
            Piece::Bytes(symbols),
            Piece::Bytes(b" "),
            value,
            Piece::Bytes(b"\n"),
        ],
        buffer,
    )
}

/// Writes a word and the value of its coordinate, with a space between and a line feed behind.
/// Answers how many bytes were written. A buffer that is too short stays as it was.
pub fn write_coordinate_line(
    word: CodedWord,
    value: u64,
    buffer: &mut [u8],
) -> Result<usize, TextFault>
    ensures outcome { told (λ n. n) text_fault result ≡ written (coordinate_line (word_of word) value) buffer.old }
    ensures buffer { buffer.new ≡ left (coordinate_line (word_of word) value) buffer.old }
{
    let mut memory = [0; LETTERS];
    let symbols = &mut memory[..usize::from(word.length)];
    put_word(word, symbols);
    write_fields(symbols, value, buffer)
}
