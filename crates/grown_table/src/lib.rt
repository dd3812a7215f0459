//! Tables that are grown to their end.

#![tactic(auto)]

ghost use Rattle.std.specs.Prelude.{◌≡◌};
ghost use Rattle.lent_list.specs.Lent.{over, SameMemory};
ghost use Rattle.bracket_table.specs.Seen.{memory, view};
ghost use Rattle.grown_table.specs.Filled.{filled};

use bracket_table::Table;

/// Grows a table until no word is missing or its memory is full. A closed table has no words, and stays as it is.
pub fn grow_all(table: &mut Table)
    ensures view { view table.new ≡ filled (view table.old) }
    ensures memory { memory table.new ≡ over (view table.new).entries (memory table.old) }
    ensures lender { SameMemory table.old.entries table.new.entries }
{
    while table.grow().is_ok() {}
}
