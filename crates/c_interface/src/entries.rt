//! Entries of tables, by number and by word.
ghost use Rattle.std.specs.Prelude.{◌≡◌, length};
ghost use Rattle.c_interface.specs.Answers.{answer_or, fault_of};
ghost use Rattle.c_interface.specs.Calls.{entries_by, entries_left, find_by, look_by};
ghost use Rattle.faults.specs.Outcome.{told};

use crate::fault::{PlainFault, settle};
use crate::tables::{MOST, make, make_whole};
use bracket_table::{Table, TableFault};
use faults::Fault;
use lent_list::LentList;
use lyndon::Entry;

/// What stands for a number that there is not.
const NONE: usize = 65_535;

/// The entries of all Lyndon words of a shape, and how many there are.
#[unsafe(no_mangle)]
pub extern "C" fn lyndon_entries(
    k: u64,
    n: u64,
    entries: &mut [Entry],
    count: &mut usize,
) -> PlainFault
    ensures fault { result ≡ fault_of (entries_by k n (length entries.old)) }
    ensures entries { entries.new ≡ entries_left k n entries.old }
    ensures count { count.new ≡ answer_or (entries_by k n (length entries.old)) count.old }
{
    settle(write_entries(k, n, entries), count)
}

/// The entry with a number.
#[unsafe(no_mangle)]
pub extern "C" fn lyndon_look(
    k: u64,
    n: u64,
    grows: usize,
    number: usize,
    entry: &mut Entry,
) -> PlainFault
    ensures fault { result ≡ fault_of (look_by k n grows number) }
    ensures entry { entry.new ≡ answer_or (look_by k n grows number) entry.old }
{
    settle(look(k, n, grows, number), entry)
}

/// The number of the entry with a word, or 65,535 where no entry has it.
#[unsafe(no_mangle)]
pub extern "C" fn lyndon_find(
    k: u64,
    n: u64,
    grows: usize,
    letters: &[u8],
    number: &mut usize,
) -> PlainFault
    ensures fault { result ≡ fault_of (find_by k n grows letters.now) }
    ensures number { number.new ≡ answer_or (find_by k n grows letters.now) number.old }
{
    settle(find(k, n, grows, letters), number)
}

/// Writes the entries, and answers how many there are.
fn write_entries(k: u64, n: u64, lent: &mut [Entry]) -> Result<usize, Fault>
    ensures count { told (λ n. n) (λ f. f) result ≡ entries_by k n (length lent.old) }
    ensures entries { lent.new ≡ entries_left k n lent.old }
{
    let mut memory = [Entry::default(); MOST];
    let mut table = Table::fresh(&mut memory);
    make_whole(&mut table, k, n)?;
    let entries = table.entries();
    // so that nothing is written where there is no room for all
    LentList::new(lent)
        .replace(entries)
        .map_err(TableFault::from)?;
    Ok(entries.len())
}

fn look(k: u64, n: u64, grows: usize, number: usize) -> Result<Entry, Fault>
    ensures { told (λ e. e) (λ f. f) result ≡ look_by k n grows number }
{
    let mut memory = [Entry::default(); MOST];
    let mut table = Table::fresh(&mut memory);
    make(&mut table, k, n, grows)?;
    Ok(table.look(number)?)
}

fn find(k: u64, n: u64, grows: usize, letters: &[u8]) -> Result<usize, Fault>
    ensures { told (λ n. n) (λ f. f) result ≡ find_by k n grows letters.now }
{
    let mut memory = [Entry::default(); MOST];
    let mut table = Table::fresh(&mut memory);
    make(&mut table, k, n, grows)?;
    Ok(table.find(letters)?.unwrap_or(NONE))
}
