//! Sheets of whole numbers modulo 2^64.
ghost use Rattle.std.specs.Prelude.{◌≡◌, IfOk, length};
ghost use Rattle.c_interface.specs.Answers.{Says, fault_of};
ghost use Rattle.c_interface.specs.Calls.{IntoLeft, LieLeft, back_left, convert_by, expand_by, expand_left, join_by, join_left};
ghost use Rattle.c_interface.specs.Tables.{table_of};
ghost use Rattle.faults.specs.Outcome.{told};
ghost use Rattle.ring.specs.Modulo.{ring_64};
ghost use Rattle.sheet.specs.Calls.{LieSaysYes};

use crate::fault::{PlainFault, settle};
use crate::tables::{MOST, make};
use bracket_table::Table;
use faults::Fault;
use lyndon::Entry;
use ring::Mod64;

/// P of the entry with a number, over a sheet of its length.
#[unsafe(no_mangle)]
pub extern "C" fn lyndon_expand(
    k: u64,
    n: u64,
    grows: usize,
    number: usize,
    sheet: &mut [Mod64],
) -> PlainFault
    ensures fault { result ≡ fault_of (expand_by k n grows number (length sheet.old)) }
    ensures sheet { sheet.new ≡ expand_left k n grows number sheet.old }
{
    PlainFault::of(expand(k, n, grows, number, sheet))
}

/// The coordinates of a sheet of length m, in its place.
#[unsafe(no_mangle)]
pub extern "C" fn lyndon_into(
    k: u64,
    n: u64,
    grows: usize,
    m: usize,
    sheet: &mut [Mod64],
) -> PlainFault
    ensures fault { result ≡ fault_of (convert_by k n grows m (length sheet.old)) }
    ensures sheet { IntoLeft k n grows m sheet.old sheet.new }
{
    PlainFault::of(into(k, n, grows, m, sheet))
}

/// The sheet of length m that has these coordinates, in their place.
#[unsafe(no_mangle)]
pub extern "C" fn lyndon_back(
    k: u64,
    n: u64,
    grows: usize,
    m: usize,
    sheet: &mut [Mod64],
) -> PlainFault
    ensures fault { result ≡ fault_of (convert_by k n grows m (length sheet.old)) }
    ensures sheet { sheet.new ≡ back_left k n grows m sheet.old }
{
    PlainFault::of(back(k, n, grows, m, sheet))
}

/// Whether the coordinates of a sheet of length m are zero but at Lyndon words: 1 or 0.
#[unsafe(no_mangle)]
pub extern "C" fn lyndon_lie(
    k: u64,
    n: u64,
    grows: usize,
    m: usize,
    coordinates: &[Mod64],
    yes: &mut u8,
) -> PlainFault
    ensures fault { result ≡ fault_of (convert_by k n grows m (length coordinates.now)) }
    ensures yes { LieLeft k n grows m coordinates.now yes.old yes.new }
{
    settle(lie(k, n, grows, m, coordinates), yes)
}

/// xy - yx of a sheet x of length a and a sheet y of length b, over a third sheet.
#[unsafe(no_mangle)]
pub extern "C" fn lyndon_join(
    k: u64,
    n: u64,
    grows: usize,
    a: usize,
    x: &[Mod64],
    b: usize,
    y: &[Mod64],
    sheet: &mut [Mod64],
) -> PlainFault
    ensures fault { result ≡ fault_of (join_by k n grows a (length x.now) b (length y.now) (length sheet.old)) }
    ensures sheet { sheet.new ≡ join_left k n grows a x.now b y.now sheet.old }
{
    PlainFault::of(join(k, n, grows, a, x, b, y, sheet))
}

fn expand(k: u64, n: u64, grows: usize, number: usize, sheet: &mut [Mod64]) -> Result<(), Fault>
    ensures outcome { told (λ done. done) (λ f. f) result ≡ expand_by k n grows number (length sheet.old) }
    ensures sheet { sheet.new ≡ expand_left k n grows number sheet.old }
{
    let mut memory = [Entry::default(); MOST];
    let mut table = Table::fresh(&mut memory);
    make(&mut table, k, n, grows)?;
    Ok(sheet::expand(&mut table, number, sheet)?)
}

fn into(k: u64, n: u64, grows: usize, m: usize, sheet: &mut [Mod64]) -> Result<(), Fault>
    ensures outcome { told (λ done. done) (λ f. f) result ≡ convert_by k n grows m (length sheet.old) }
    ensures sheet { IntoLeft k n grows m sheet.old sheet.new }
{
    let mut memory = [Entry::default(); MOST];
    let mut table = Table::fresh(&mut memory);
    make(&mut table, k, n, grows)?;
    Ok(sheet::into(&mut table, m, sheet)?)
}

fn back(k: u64, n: u64, grows: usize, m: usize, sheet: &mut [Mod64]) -> Result<(), Fault>
    ensures outcome { told (λ done. done) (λ f. f) result ≡ convert_by k n grows m (length sheet.old) }
    ensures sheet { sheet.new ≡ back_left k n grows m sheet.old }
{
    let mut memory = [Entry::default(); MOST];
    let mut table = Table::fresh(&mut memory);
    make(&mut table, k, n, grows)?;
    Ok(sheet::back(&mut table, m, sheet)?)
}

fn lie(k: u64, n: u64, grows: usize, m: usize, coordinates: &[Mod64]) -> Result<u8, Fault>
    ensures outcome { told (λ _. tt) (λ f. f) result ≡ convert_by k n grows m (length coordinates.now) }
    ensures answer { IfOk result (λ yes. Says yes (LieSaysYes ring_64 (table_of k n grows).shape m coordinates.now)) }
{
    let mut memory = [Entry::default(); MOST];
    let mut table = Table::fresh(&mut memory);
    make(&mut table, k, n, grows)?;
    Ok(u8::from(sheet::lie(&mut table, m, coordinates)?))
}

fn join(
    k: u64,
    n: u64,
    grows: usize,
    a: usize,
    x: &[Mod64],
    b: usize,
    y: &[Mod64],
    sheet: &mut [Mod64],
) -> Result<(), Fault>
    ensures outcome { told (λ done. done) (λ f. f) result ≡ join_by k n grows a (length x.now) b (length y.now) (length sheet.old) }
    ensures sheet { sheet.new ≡ join_left k n grows a x.now b y.now sheet.old }
{
    let mut memory = [Entry::default(); MOST];
    let mut table = Table::fresh(&mut memory);
    make(&mut table, k, n, grows)?;
    Ok(sheet::join(&mut table, a, x, b, y, sheet)?)
}
