//! The lines of a table.
ghost use Rattle.std.specs.Prelude.{◌≡◌, ◌<◌, ◌≤◌, [], ◌++◌, length, IfOk, OnOk};
ghost use Rattle.faults.specs.Outcome.Outcome.{answered};
ghost use Rattle.text.specs.Lines.{header_line};
ghost use Rattle.bracket_table.specs.Calls.{opened};
ghost use Rattle.bracket_table.specs.Seen.{view};
ghost use Rattle.bracket_table.specs.Views.{fresh};
ghost use Rattle.table.specs.Printed.{printed_table};
ghost use Rattle.table_lines.specs.Lines.{line_in, lines_in};

use bracket_table::Table;
use grown_table::grow_all;
use input_text::Numbers;
use ring::Mod64;
use std::alloc::{AllocError, Global};
use table_audit::audit;
use table_text::line;
use text::write_header_line;

/// The most bytes that the line of an entry has: four for each of three numbers, 12 for the word, 45 for its text,
/// four spaces and the line feed.
const LONGEST: usize = 74;

/// The most bytes that a header has, and some more.
const HEADER: usize = 32;

/// The header and the line of every entry, for a table that was just opened.
#[tactic(auto, using(grown_table::proofs::Rooms::all_entries, crate::proofs::Counted::audit_answers, crate::proofs::Counted::audit_counts))]
pub(crate) fn table_lines(
    heap: Global,
    numbers: Numbers,
    table: &mut Table,
) -> Result<Vec<u8>, AllocError>
    requires { view table.old ≡ opened numbers.k numbers.n (answered tt) (fresh 1496) }
    ensures { IfOk result (λ lines. lines.items ≡ printed_table numbers.k numbers.n) }
{
    grow_all(table);
    // it is open; nothing is asked of the ring
    let growth = audit::<Mod64>(table).unwrap();
    let mut lines = Vec::new(heap);
    push_header(&mut lines, numbers, growth.entries)?;
    push_entries(&mut lines, table)?;
    Ok(lines)
}

/// Puts the header of a table behind other lines.
#[tactic(auto, using(console::proofs::Lines::line_answered, console::proofs::Lines::line_in_front, crate::proofs::Sizes::header_size))]
fn push_header(lines: &mut Vec<u8>, numbers: Numbers, count: usize) -> Result<(), AllocError>
    ensures { OnOk result (lines.new.items ≡ lines.old.items ++ header_line numbers.k numbers.n count) }
{
    // written into a lent buffer, as `console::fault_report` says
    let mut line = [0; HEADER];
    let count = write_header_line(numbers.k as u64, numbers.n as u64, count, &mut line).unwrap();
    lines.extend_from_slice(&line[..count])
}

/// Puts the lines of all entries behind others.
fn push_entries(lines: &mut Vec<u8>, table: &mut Table) -> Result<(), AllocError>
    ensures { OnOk result (lines.new.items ≡ lines.old.items ++ lines_in (view table.old)) }
{
    for number in 0..table.entries().len() {
        push_line(lines, table, number)?;
    }
    Ok(())
}

/// Puts the line of an entry behind others.
#[tactic(auto, using(table_lines::proofs::Shown::entry_answered, table_lines::proofs::Shown::entry_in_front))]
fn push_line(lines: &mut Vec<u8>, table: &mut Table, number: usize) -> Result<(), AllocError>
    requires { number < length (view table.old).entries }
    ensures lines { OnOk result (lines.new.items ≡ lines.old.items ++ line_in (view table.old) number) }
    ensures same { table.new ≡ table.old }
{
    // written into a lent buffer, as `console::fault_report` says
    let mut buffer = [0; LONGEST];
    // an entry has this number, and its line is no longer
    let count = line(table, number, &mut buffer).unwrap();
    lines.extend_from_slice(&buffer[..count])
}
