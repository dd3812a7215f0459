//! The tables on which calls work: each is made anew, so that nothing rests on what a caller hands back.
ghost use Rattle.std.specs.Prelude.{◌≡◌};
ghost use Rattle.bracket_table.specs.Faults.{table_fault};
ghost use Rattle.bracket_table.specs.Seen.{view};
ghost use Rattle.bracket_table.specs.Views.{fresh, shape_checked};
ghost use Rattle.c_interface.specs.Tables.{grown_by, table_checked, table_of, whole_of};
ghost use Rattle.faults.specs.Outcome.{checked, told};
ghost use Rattle.faults.specs.Outcome.Outcome.{answered};

use bracket_table::{Table, TableFault};
use grown_table::grow_all;

/// No shape has more Lyndon words.
pub(crate) const MOST: usize = 1_496;

/// Makes a fresh table that of k and n with so many grows.
#[tactic(auto, using(crate::proofs::Growth::counted))]
pub(crate) fn make(table: &mut Table, k: u64, n: u64, grows: usize) -> Result<(), TableFault>
    requires { view table.old ≡ fresh 1496 }
    ensures { told (λ _. view table.new) table_fault result ≡ checked (table_checked k n grows) (answered (table_of k n grows)) }
{
    table.open(k, n)?;
    grow_times(table, grows)
}

/// Makes a fresh table the whole one of k and n.
#[tactic(auto, using(crate::proofs::Growth::whole))]
pub(crate) fn make_whole(table: &mut Table, k: u64, n: u64) -> Result<(), TableFault>
    requires { view table.old ≡ fresh 1496 }
    ensures { told (λ _. view table.new) table_fault result ≡ checked (shape_checked k n) (answered (whole_of k n)) }
{
    table.open(k, n)?;
    grow_all(table);
    Ok(())
}

/// Grows a table so many times, or until a grow is refused.
#[tactic(auto, using(crate::proofs::Growth::grow_more))]
fn grow_times(table: &mut Table, grows: usize) -> Result<(), TableFault>
    ensures { told (λ _. view table.new) table_fault result ≡ grown_by grows (view table.old) }
{
    for _ in 0..grows {
        table.grow()?;
    }
    Ok(())
}
