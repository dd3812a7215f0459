//! The line of an entry.
ghost use Rattle.std.specs.Prelude.{◌≡◌, ◌+◌, ◌<◌, ◌≤◌, [], ◌∷◌, length, take, Decides, MatchOption};
ghost use Rattle.faults.specs.Outcome.{told};
ghost use Rattle.lyndon.specs.Entries.{listing};
ghost use Rattle.coded_word.specs.Words.{word_of};
ghost use Rattle.text.specs.Faults.{text_fault};
ghost use Rattle.text.specs.Lines.{written, left as left_over};
ghost use Rattle.text.specs.Pieces.{bytes_of, Puts};
ghost use Rattle.text.specs.Symbols.{symbol};
ghost use Rattle.bracket_text.specs.Brackets.{pair};
ghost use Rattle.table_text.specs.Lines.{text_of, part, fields, line_of_entry};
ghost use Rattle.table_text.specs.Reads.{entry_text};

use crate::symbols::{LETTERS, put_word, symbol_of};
use coded_word::{CodedWord, Shape};
use lyndon::Entry;
use text::{Piece, TextFault, write_pieces};

/// The most bytes that the text of a word has.
const BYTES: usize = 4 * LETTERS - 3;

/// The number of a part of an entry, which a letter has not.
fn part_of(entry: Entry, number: u16) -> Piece<'static>
    ensures { bytes_of result ≡ part entry number }
{
    if entry.length == 1 {
        Piece::Bytes(b"-")
    } else {
        Piece::Number(u64::from(number))
    }
}

/// Writes five fields to the front of a buffer, with a space between and a line feed behind.
fn write_fields<'a>(
    number: usize,
    word: &'a [u8],
    left: Piece<'a>,
    right: Piece<'a>,
    text: &'a [u8],
    buffer: &mut [u8],
) -> Result<usize, TextFault>
    ensures outcome { told (λ n. n) text_fault result ≡ written (fields number word.now (bytes_of left.entry) (bytes_of right.entry) text.now) buffer.old }
    ensures buffer { buffer.new ≡ left_over (fields number word.now (bytes_of left.entry) (bytes_of right.entry) text.now) buffer.old }
{
    let number = Piece::Number(number as u64);
    let space = Piece::Bytes(b" ");
    write_pieces(
        &[
            number,
            space,
            Piece::Bytes(word),
            space,
            left,
            space,
            right,
            space,
            Piece::Bytes(text),
            Piece::Bytes(b"\n"),
        ],
        buffer,
    )
}

/// An entry of a table, by its number.
#[derive(Clone, Copy)]
pub(crate) struct Listed<'a> {
    pub(crate) shape: Shape,
    pub(crate) entries: &'a [Entry],
    pub(crate) number: usize,
    ghost listed: { entries.now ≡ take (length entries.now) (listing shape.k shape.n) },
    ghost named: { number < length entries.now },
}

impl<'a> Listed<'a> {
    ghost use Rattle.table_text.specs.Listed.{entry_at, word_at};

    /// What the table holds of it.
    fn entry(self) -> Entry
        ensures { result ≡ entry_at self.entry }
    {
        self.entries[self.number]
    }

    /// Another entry of the table.
    fn at(self, number: usize) -> Self
        requires { number < length self.entries.now }
        ensures entries { result.entries.now ≡ self.entry.entries.now }
        ensures number { result.number ≡ number }
        ensures shape { result.shape ≡ self.entry.shape }
    {
        Listed {
            shape: self.shape,
            entries: self.entries,
            number,
        }
    }

    /// The numbers of its two parts, which a letter has not.
    #[tactic(auto, using(crate::proofs::Listed::letter_code, crate::proofs::Listed::letter_text, crate::proofs::Listed::left_within, crate::proofs::Listed::right_within, crate::proofs::Listed::pair_text))]
    fn parts(self) -> Option<(u16, u16)>
        ensures { MatchOption result
            (((entry_at self.entry).code < 16) × (text_of (word_at self.entry) ≡ symbol (entry_at self.entry).code ∷ []))
            (λ p. (text_of (word_at self.entry) ≡ pair (entry_text self.entry.shape.k self.entry.entries.now p.0) (entry_text self.entry.shape.k self.entry.entries.now p.1))
            × (p.0 < length self.entry.entries.now)
            × (p.1 < length self.entry.entries.now)) }
    {
        let entry = self.entry();
        if entry.length == 1 {
            None
        } else {
            Some((entry.left, entry.right))
        }
    }

    /// Its word.
    #[tactic(auto, using(crate::proofs::Listed::some_letters, crate::proofs::Listed::few_letters, crate::proofs::Listed::coded))]
    fn word(self) -> CodedWord
        ensures word { word_of result ≡ word_at self.entry }
        ensures length { result.length ≡ (entry_at self.entry).length }
    {
        let entry = self.entry();
        CodedWord {
            shape: self.shape,
            length: entry.length,
            code: entry.code,
        }
    }

    /// Puts the text of an entry of the table into a buffer from a place on, and answers the place behind it.
    // A list in the place of buffer and place was tried. It asks for room at each byte and counts in memory, and so took
    // 2.4 times the instructions. A method of that entry, which hands on a whole `Listed` through memory at each part,
    // took 1.7 times as many: here only its number is handed on.
    fn put_text(&self, number: usize, buffer: &mut [u8], place: usize) -> usize
        requires named { number < length self.now.entries.now }
        requires room { place + length (entry_text self.now.shape.k self.now.entries.now number) ≤ length buffer.old }
        ensures { Puts place result buffer.old buffer.new (entry_text self.now.shape.k self.now.entries.now number) }
    {
        let listed = self.at(number);
        match listed.parts() {
            None => {
                buffer[place] = symbol_of(listed.entry().code as u8);
                place + 1
            }
            Some((left, right)) => {
                buffer[place] = b'[';
                let comma = self.put_text(usize::from(left), buffer, place + 1);
                buffer[comma] = b',';
                let close = self.put_text(usize::from(right), buffer, comma + 1);
                buffer[close] = b']';
                close + 1
            }
        }
    }

    /// Whether a text is that of its word.
    #[tactic(auto, using(crate::proofs::Listed::few_letters, crate::proofs::Listed::text_size))]
    pub(crate) fn has_text(self, text: &[u8]) -> bool
        ensures { Decides result (text.now ≡ text_of (word_at self.entry)) }
    {
        let mut own = [0; BYTES];
        let end = self.put_text(self.number, &mut own, 0);
        &own[..end] == text
    }

    /// Writes its line to the front of a buffer.
    #[tactic(auto, using(crate::proofs::Listed::few_letters, crate::proofs::Listed::text_size))]
    pub(crate) fn write_line(self, buffer: &mut [u8]) -> Result<usize, TextFault>
        ensures outcome { told (λ n. n) text_fault result ≡ written (line_of_entry self.entry.shape.k self.entry.number (entry_at self.entry)) buffer.old }
        ensures buffer { buffer.new ≡ left_over (line_of_entry self.entry.shape.k self.entry.number (entry_at self.entry)) buffer.old }
    {
        let entry = self.entry();
        let word = self.word();
        let mut letters = [0; LETTERS];
        let symbols = &mut letters[..usize::from(word.length)];
        put_word(word, symbols);
        let mut text = [0; BYTES];
        let end = self.put_text(self.number, &mut text, 0);
        write_fields(
            self.number,
            symbols,
            part_of(entry, entry.left),
            part_of(entry, entry.right),
            &text[..end],
            buffer,
        )
    }
}
