//! The entries of a listing.

/// A Lyndon word, with the numbers of the two entries of its split.
// numbers, and no boxes or options: whoever takes the list calls its routines by these numbers, and the rules give a letter 65,535
// laid out as in C, so that programs in C can lend memory for entries
#[repr(C)]
#[derive(Clone, Copy, PartialEq, Eq, Default, Debug)]
pub struct Entry {
    /// How many letters the word has.
    pub length: u8,
    /// The number that it spells in base k, first letter highest.
    pub code: u16,
    /// The entry of the left part, or 65,535 for a letter.
    pub left: u16,
    /// The entry of the right part, or 65,535 for a letter.
    pub right: u16,
}
