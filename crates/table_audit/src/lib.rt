//! How far a table is grown, and the law of tables: what holds after every list of calls.

#![tactic(auto)]

ghost use Rattle.std.specs.Prelude.{◌≡◌, IfOk};
ghost use Rattle.faults.specs.Outcome.{told};
ghost use Rattle.bracket_table.specs.Calls.{Completed};
ghost use Rattle.bracket_table.specs.Faults.{table_fault};
ghost use Rattle.bracket_table.specs.Seen.{view};
ghost use Rattle.table_audit.specs.Law.{EveryList, Reached};
ghost use Rattle.table_audit.specs.Outcome.{count_outcome};

use bracket_table::{Table, TableFault};
use ring::Ring;

/// How far a table is grown.
#[derive(Clone, Copy, PartialEq, Eq, Debug)]
pub struct Growth {
    /// How many entries stand.
    pub entries: usize,
    /// The greatest length up to which every Lyndon word of the shape is an entry.
    pub complete: u8,
}

/// How far a table is grown. The ring is the one over which `law` speaks of sheets; the answer does not depend on it.
#[tactic(auto, using(crate::proofs::Law::every_list, crate::proofs::Law::counted, crate::proofs::Reached::reached))]
pub fn audit<R: Ring>(table: &mut Table) -> Result<Growth, TableFault>
    ensures outcome { told (λ g. g.entries) table_fault result ≡ count_outcome (view table.old) }
    ensures complete { IfOk result (λ g. Completed (view table.old) g.complete) }
    ensures same { table.new ≡ table.old }
    ensures law { EveryList R.ring (view table.old) }
    ensures reached { Reached (view table.old) }
{
    Ok(Growth {
        entries: table.entries().len(),
        complete: table.complete_length()?,
    })
}
