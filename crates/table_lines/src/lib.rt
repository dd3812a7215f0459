//! The lines of all entries of a table, one behind the other.

#![tactic(auto)]

ghost use Rattle.std.specs.Prelude.{◌≡◌, ◌+◌, [], ◌++◌, ◌<◌, ◌≤◌, length, take};
ghost use Rattle.bracket_table.specs.Faults.{table_fault};
ghost use Rattle.bracket_table.specs.Seen.{view};
ghost use Rattle.faults.specs.Outcome.{told};
ghost use Rattle.lent_list.specs.Lent.{items, places, Refilled};
ghost use Rattle.table_lines.specs.Lines.{line_in, lines_in, lines_outcome, lines_left};

use bracket_table::{Table, TableFault};
use lent_list::LentList;
use table_text::line;
use text::TextFault;

/// The most bytes that the line of an entry has: four for each of three numbers, 12 for the word, 45 for its text,
/// four spaces and the line feed.
const LONGEST: usize = 74;

/// Writes the lines of all entries, by number, to the front of a buffer. Answers how many bytes were written. A refused
/// call leaves the buffer as it was.
pub fn lines(table: &mut Table, buffer: &mut [u8]) -> Result<usize, TableFault>
    ensures outcome { told (λ n. n) table_fault result ≡ lines_outcome (view table.old) buffer.old }
    ensures buffer { buffer.new ≡ lines_left (view table.old) buffer.old }
    ensures same { table.new ≡ table.old }
{
    table.shape()?;
    // all are measured before the first is written
    if buffer.len() < lines_size(table) {
        return Err(TableFault::Text(TextFault::ShortBuffer));
    }
    let mut list = LentList::new(buffer);
    push_lines(table, &mut list);
    Ok(list.count())
}

/// How many bytes the lines of all entries have.
#[tactic(auto, using(crate::proofs::Shown::few_entries))]
fn lines_size(table: &mut Table) -> usize
    ensures size { result ≡ length (lines_in (view table.old)) }
    ensures same { table.new ≡ table.old }
{
    let mut size = 0;
    for number in 0..table.entries().len() {
        size += line_size(table, number);
    }
    size
}

/// How many bytes the line of an entry has.
fn line_size(table: &mut Table, number: usize) -> usize
    requires { number < length (view table.old).entries }
    ensures size { result ≡ length (line_in (view table.old) number) }
    ensures few { result ≤ 74 }
    ensures same { table.new ≡ table.old }
{
    let mut bytes = [0; LONGEST];
    write_line(table, number, &mut bytes)
}

/// Puts the lines of all entries into an empty list that has room for them.
#[tactic(auto, using(crate::proofs::Filled::filled_more))]
fn push_lines(table: &mut Table, list: &mut LentList<u8>)
    requires empty { items list.old ≡ [] }
    requires room { length (lines_in (view table.old)) ≤ length (places list.old) }
    ensures lines { Refilled list.old list.new (lines_in (view table.old)) }
    ensures same { table.new ≡ table.old }
{
    for number in 0..table.entries().len() {
        push_line(table, number, list);
    }
}

/// Puts the line of an entry behind others, where there is room.
fn push_line(table: &mut Table, number: usize, list: &mut LentList<u8>)
    requires here { number < length (view table.old).entries }
    requires room { length (items list.old) + length (line_in (view table.old) number) ≤ length (places list.old) }
    ensures line { Refilled list.old list.new (items list.old ++ line_in (view table.old) number) }
    ensures same { table.new ≡ table.old }
{
    let mut bytes = [0; LONGEST];
    let size = write_line(table, number, &mut bytes);
    // there is room
    let _ = list.extend_from_slice(&bytes[..size]);
}

/// Writes the line of an entry into a buffer that is long enough for each.
#[tactic(auto, using(crate::proofs::Shown::entry_answered, crate::proofs::Shown::entry_in_front, crate::proofs::Shown::entry_measured))]
fn write_line(table: &mut Table, number: usize, bytes: &mut [u8]) -> usize
    requires here { number < length (view table.old).entries }
    requires room { length bytes.old ≡ 74 }
    ensures line { take result bytes.new ≡ line_in (view table.old) number }
    ensures size { result ≡ length (line_in (view table.old) number) }
    ensures few { result ≤ 74 }
    ensures same { table.new ≡ table.old }
{
    // an entry has this number, and its line is no longer
    line(table, number, bytes).unwrap()
}
