//! Lines of text, written into a lent buffer.
ghost use Rattle.std.specs.Prelude.{◌≡◌};
ghost use Rattle.faults.specs.Outcome.{told};
ghost use Rattle.text.specs.Faults.{text_fault};
ghost use Rattle.text.specs.Lines.{factor_line, fault_line, header_line, number_line, written, left};

// Not by `Display` and `write!`: what these promise is what is written if they succeed, and not that they do where there
// is room. The separators stand among the pieces of each line: one list says all of its bytes, and `write_pieces` serves
// each line, those of `table_text` too.
mod piece;

pub use self::piece::{Piece, write_pieces};
use crate::fault::TextFault;

/// Writes where a factor starts and its length, with a space between and a line feed behind.
/// Answers how many bytes were written. A buffer that is too short stays as it was.
pub fn write_factor_line(start: u16, length: u16, buffer: &mut [u8]) -> Result<usize, TextFault>
    ensures outcome { told (λ n. n) text_fault result ≡ written (factor_line start length) buffer.old }
    ensures buffer { buffer.new ≡ left (factor_line start length) buffer.old }
{
    let start = Piece::Number(u64::from(start));
    let length = Piece::Number(u64::from(length));
    write_pieces(
        &[start, Piece::Bytes(b" "), length, Piece::Bytes(b"\n")],
        buffer,
    )
}

/// Writes `fault` and the number of a fault, with a line feed behind.
/// Answers how many bytes were written. A buffer that is too short stays as it was.
// by the number, which is all that the line shows
pub fn write_fault_line(number: u8, buffer: &mut [u8]) -> Result<usize, TextFault>
    ensures outcome { told (λ n. n) text_fault result ≡ written (fault_line number) buffer.old }
    ensures buffer { buffer.new ≡ left (fault_line number) buffer.old }
{
    let number = Piece::Number(u64::from(number));
    write_pieces(
        &[Piece::Bytes(b"fault "), number, Piece::Bytes(b"\n")],
        buffer,
    )
}

/// Writes k, n and how many entries there are, with spaces between and a line feed behind.
/// Answers how many bytes were written. A buffer that is too short stays as it was.
pub fn write_header_line(
    k: u64,
    n: u64,
    count: usize,
    buffer: &mut [u8],
) -> Result<usize, TextFault>
    ensures outcome { told (λ n. n) text_fault result ≡ written (header_line k n count) buffer.old }
    ensures buffer { buffer.new ≡ left (header_line k n count) buffer.old }
{
    let space = Piece::Bytes(b" ");
    let count = Piece::Number(count as u64);
    write_pieces(
        &[
            Piece::Number(k),
            space,
            Piece::Number(n),
            space,
            count,
            Piece::Bytes(b"\n"),
        ],
        buffer,
    )
}

/// Writes a number, with a line feed behind.
/// Answers how many bytes were written. A buffer that is too short stays as it was.
pub fn write_number_line(number: u64, buffer: &mut [u8]) -> Result<usize, TextFault>
    ensures outcome { told (λ n. n) text_fault result ≡ written (number_line number) buffer.old }
    ensures buffer { buffer.new ≡ left (number_line number) buffer.old }
{
    write_pieces(&[Piece::Number(number), Piece::Bytes(b"\n")], buffer)
}
