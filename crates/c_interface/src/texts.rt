//! Lines and texts of entries.
ghost use Rattle.std.specs.Prelude.{◌≡◌, ℕ};
ghost use Rattle.c_interface.specs.Answers.{answer_or, fault_of};
ghost use Rattle.c_interface.specs.Calls.{ReadBy, line_by, line_left_by, lines_by, lines_left};
ghost use Rattle.faults.specs.Outcome.{Outcome, told};

use crate::fault::{PlainFault, settle};
use crate::tables::{MOST, make, make_whole};
use bracket_table::Table;
use faults::Fault;
use lyndon::Entry;

/// The lines of all entries of a shape, one behind the other, and how many bytes they have.
#[unsafe(no_mangle)]
pub extern "C" fn lyndon_lines(k: u64, n: u64, buffer: &mut [u8], bytes: &mut usize) -> PlainFault
    ensures fault { result ≡ fault_of (lines_by k n buffer.old) }
    ensures buffer { buffer.new ≡ lines_left k n buffer.old }
    ensures bytes { bytes.new ≡ answer_or (lines_by k n buffer.old) bytes.old }
{
    settle(lines(k, n, buffer), bytes)
}

/// The line of the entry with a number, and how many bytes it has.
#[unsafe(no_mangle)]
pub extern "C" fn lyndon_line(
    k: u64,
    n: u64,
    grows: usize,
    number: usize,
    buffer: &mut [u8],
    bytes: &mut usize,
) -> PlainFault
    ensures fault { result ≡ fault_of (line_by k n grows number buffer.old) }
    ensures buffer { buffer.new ≡ line_left_by k n grows number buffer.old }
    ensures bytes { bytes.new ≡ answer_or (line_by k n grows number buffer.old) bytes.old }
{
    settle(line(k, n, grows, number, buffer), bytes)
}

/// The number of the entry that has a text.
#[unsafe(no_mangle)]
pub extern "C" fn lyndon_read(
    k: u64,
    n: u64,
    grows: usize,
    text: &[u8],
    number: &mut usize,
) -> PlainFault
    ensures { (o : Outcome ℕ) × ReadBy k n grows text.now o × (result ≡ fault_of o) × (number.new ≡ answer_or o number.old) }
{
    settle(read(k, n, grows, text), number)
}

fn lines(k: u64, n: u64, buffer: &mut [u8]) -> Result<usize, Fault>
    ensures bytes { told (λ n. n) (λ f. f) result ≡ lines_by k n buffer.old }
    ensures buffer { buffer.new ≡ lines_left k n buffer.old }
{
    let mut memory = [Entry::default(); MOST];
    let mut table = Table::fresh(&mut memory);
    make_whole(&mut table, k, n)?;
    Ok(table_lines::lines(&mut table, buffer)?)
}

fn line(k: u64, n: u64, grows: usize, number: usize, buffer: &mut [u8]) -> Result<usize, Fault>
    ensures bytes { told (λ n. n) (λ f. f) result ≡ line_by k n grows number buffer.old }
    ensures buffer { buffer.new ≡ line_left_by k n grows number buffer.old }
{
    let mut memory = [Entry::default(); MOST];
    let mut table = Table::fresh(&mut memory);
    make(&mut table, k, n, grows)?;
    Ok(table_text::line(&mut table, number, buffer)?)
}

fn read(k: u64, n: u64, grows: usize, text: &[u8]) -> Result<usize, Fault>
    ensures { ReadBy k n grows text.now (told (λ n. n) (λ f. f) result) }
{
    let mut memory = [Entry::default(); MOST];
    let mut table = Table::fresh(&mut memory);
    make(&mut table, k, n, grows)?;
    Ok(table_text::read(&mut table, text)?)
}
