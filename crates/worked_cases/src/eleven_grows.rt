//! What a caller of a table knows from the contracts of its calls alone.
ghost use Rattle.std.specs.Prelude.{◌≡◌, nat_lt};
ghost use Rattle.bracket_table.specs.Faults.{table_fault};
ghost use Rattle.bracket_table.specs.Seen.{view};
ghost use Rattle.faults.specs.Faults.{found};
ghost use Rattle.faults.specs.Outcome.{told, refuse_if};
ghost use Rattle.faults.specs.Outcome.Outcome.{answered};
ghost use Rattle.faults.specs.declared.Layer.TheVariants as layer;

use bracket_table::{Table, TableFault};
use lyndon::Entry;

/// Opens a table with the shape 2, 5, grows it eleven times and looks at entry 10. Where its memory holds eleven
/// entries, that is 00101 with the parts 3 and 2, whatever the table held before.
pub fn entry_ten(table: &mut Table) -> Result<Entry, TableFault>
    ensures { told (λ e. e) table_fault result ≡ refuse_if (nat_lt (view table.old).room 11) (found 10 layer.Table 0 0) (answered (record { length = 5; code = 5; left = 3; right = 2 })) }
{
    table.open(2, 5)?;
    for _ in 0..11_u8 {
        // refused where the memory is full
        let _ = table.grow();
    }
    table.look(10)
}
