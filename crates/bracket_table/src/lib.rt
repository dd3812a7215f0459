//! The table of a shape: every Lyndon word with the two entries of its split, in listing order, by number.

#![tactic(auto)]

ghost use Rattle.std.specs.Prelude.{◌≡◌, length, take, drop};
ghost use Rattle.lent_list.specs.Lent.{items};
ghost use Rattle.bracket_table.specs.Held.{entries_in, keys_in, rest_in};

mod calls;
mod fault;
mod search;
mod shape;

use coded_word::Cursor;
pub use fault::TableFault;
use lent_list::LentList;
use lyndon::Entry;

/// A table over entry memory that its user lends. Its entries are the first of the listing of its shape.
#[derive(Drop)]
pub struct Table<'a> {
    entries: LentList<'a, Entry>,
    /// Where the scan for the next word goes on, with the shape; none until the table is opened.
    /// No Lyndon word that is missing stands before it.
    next: Option<Cursor>,
    ghost listed: { items entries ≡ take (length (items entries)) (entries_in next) },
    ghost missing: { drop (length (items entries)) (keys_in next) ≡ rest_in next },
}
