//! The pieces of a line, put into a buffer one behind another.
ghost use Rattle.std.specs.Prelude.{◌≡◌, ◌+◌, ◌<◌, ◌≤◌, length, decimal, MatchBool};
ghost use Rattle.faults.specs.Outcome.{told};
ghost use Rattle.text.specs.Faults.{text_fault};
ghost use Rattle.text.specs.Lines.{written, left};
ghost use Rattle.text.specs.Pieces.{bytes_of, bytes_of_all, Puts};

use crate::fault::TextFault;

/// A piece of a line.
#[derive(Clone, Copy, PartialEq, Eq, Debug)]
pub enum Piece<'a> {
    /// Bytes, as they stand.
    Bytes(&'a [u8]),
    /// A number, in decimal.
    Number(u64),
}

// By places in the buffer, and digits by a recursion of its own: with a list that bytes are pushed onto and the digits of
// the crate `itoa`, a line of small numbers took eight times the instructions, and that of an entry twice the time.

/// How many digits a number has in decimal.
fn decimal_length(n: u64) -> usize
    ensures value { result ≡ length (decimal n) }
    ensures bound { result ≤ 20 }
{
    if n < 10 {
        1
    } else {
        decimal_length(n / 10) + 1
    }
}

/// Puts bytes into a buffer from a place on, and answers the place behind them.
fn put_bytes(bytes: &[u8], buffer: &mut [u8], place: usize) -> usize
    requires { place + length bytes.now ≤ length buffer.old }
    ensures { Puts place result buffer.old buffer.new bytes.now }
{
    let end = place + bytes.len();
    buffer[place..end].copy_from_slice(bytes);
    end
}

/// Puts a number in decimal into a buffer from a place on, and answers the place behind it.
fn put_decimal(n: u64, buffer: &mut [u8], place: usize) -> usize
    requires { place + length (decimal n) ≤ length buffer.old }
    ensures { Puts place result buffer.old buffer.new (decimal n) }
{
    let digit = [b'0' + (n % 10) as u8];
    if n < 10 {
        return put_bytes(&digit, buffer, place);
    }
    let last = put_decimal(n / 10, buffer, place);
    put_bytes(&digit, buffer, last)
}

impl<'a> Piece<'a> {
    /// How many bytes it has.
    fn size(self) -> usize
        ensures { result ≡ length (bytes_of self.entry) }
    {
        match self {
            Piece::Bytes(bytes) => bytes.len(),
            Piece::Number(n) => decimal_length(n),
        }
    }

    /// Puts it into a buffer from a place on, and answers the place behind it.
    fn put(self, buffer: &mut [u8], place: usize) -> usize
        requires { place + length (bytes_of self) ≤ length buffer.old }
        ensures { Puts place result buffer.old buffer.new (bytes_of self.entry) }
    {
        match self {
            Piece::Bytes(bytes) => put_bytes(bytes, buffer, place),
            Piece::Number(n) => put_decimal(n, buffer, place),
        }
    }
}

/// Whether so many places are enough for all of the pieces.
fn have_room(pieces: &[Piece], places: usize) -> bool
    ensures { MatchBool result
        (length (bytes_of_all pieces.now) ≤ places)
        (places < length (bytes_of_all pieces.now)) }
{
    let mut room = places;
    for piece in pieces {
        match room.checked_sub(piece.size()) {
            Some(rest) => room = rest,
            None => return false,
        }
    }
    true
}

/// Puts all of the pieces to the front of a buffer, and answers the place behind them.
fn put_all(pieces: &[Piece], buffer: &mut [u8]) -> usize
    requires { length (bytes_of_all pieces.now) ≤ length buffer.old }
    ensures { Puts 0 result buffer.old buffer.new (bytes_of_all pieces.now) }
{
    let mut place = 0;
    for piece in pieces {
        place = piece.put(buffer, place);
    }
    place
}

/// Writes the pieces of a line to the front of a buffer, and answers how many bytes they have.
/// A buffer that is too short stays as it was.
pub fn write_pieces(pieces: &[Piece], buffer: &mut [u8]) -> Result<usize, TextFault>
    ensures outcome { told (λ n. n) text_fault result ≡ written (bytes_of_all pieces.now) buffer.old }
    ensures buffer { buffer.new ≡ left (bytes_of_all pieces.now) buffer.old }
{
    if !have_room(pieces, buffer.len()) {
        return Err(TextFault::ShortBuffer);
    }
    Ok(put_all(pieces, buffer))
}
