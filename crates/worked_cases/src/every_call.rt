//! What a caller knows of a table after a run of all its calls, from the calls that were made and the law that `audit`
//! promises: no answer is looked at on the way.
ghost use Rattle.std.specs.Prelude.{◌≡◌};
ghost use Rattle.bracket_table.specs.Faults.{table_fault};
ghost use Rattle.bracket_table.specs.Runs.{after};
ghost use Rattle.bracket_table.specs.Seen.{view};
ghost use Rattle.faults.specs.Outcome.{told};
ghost use Rattle.faults.specs.Outcome.Outcome.{answered};
ghost use Rattle.worked_cases.specs.EveryCall.{every_call};

use bracket_table::{Table, TableFault};
use lyndon::Entry;
use ring::{Mod64, Ring};
use sheet::{back, expand, into, join, lie};
use table_audit::{Growth, audit};
use table_text::{line, read};

/// Makes every call on a table with room for four entries, and audits it: three grows were accepted since the open that
/// was, so three entries stand.
#[tactic(auto, using(crate::proofs::EveryCall::counted))]
pub fn after_every_call() -> Result<Growth, TableFault>
    ensures { told (λ growth. growth.entries) table_fault result ≡ answered 3 }
{
    let mut memory = [Entry::default(); 4];
    let mut table = Table::fresh(&mut memory);
    make_every_call(&mut table);
    audit::<Mod64>(&mut table)
}

/// Makes every call, some of them more than once.
fn make_every_call(table: &mut Table)
    ensures { view table.new ≡ after (view table.old) every_call }
{
    let x = [Mod64::one(), Mod64::zero()];
    let y = [Mod64::zero(), Mod64::one()];
    let mut sheet = [Mod64::zero(); 4];
    // refused: the table is closed
    let _ = table.grow();
    let _ = table.open(2, 2);
    let _ = table.grow();
    let _ = table.look(0);
    let _ = table.find(&[0, 1]);
    let _ = table.grow();
    // refused: the line is longer
    let _ = line(table, 1, &mut [0; 2]);
    // refused: 01 is no entry yet
    let _ = read(table, b"[0,1]");
    let _ = table.grow();
    let _ = expand(table, 2, &mut sheet);
    let _ = join(table, 1, &x, 1, &y, &mut sheet);
    let _ = into(table, 2, &mut sheet);
    let _ = lie(table, 2, &sheet);
    let _ = back(table, 2, &mut sheet);
    // refused: no word is missing
    let _ = table.grow();
    // refused: no shape
    let _ = table.open(2, 13);
}
