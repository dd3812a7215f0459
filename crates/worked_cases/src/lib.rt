//! Examples worked on paper, each shown to follow from the definitions.

#![tactic(auto)]

ghost use Rattle.worked_cases.specs.Holds.{AllHold};

mod eleven_grows;
mod every_call;
mod round_trips;

pub use eleven_grows::entry_ten;
pub use every_call::after_every_call;
pub use round_trips::{back_then_into, into_then_back};

/// A fact on letters 0, 1, .. ordered by their value.
#[derive(Clone, Copy)]
pub enum Case {
    /// A word has these factors.
    Factors(&'static [u8], &'static [&'static [u8]]),
    /// A word is not a Lyndon word.
    NotLyndon(&'static [u8]),
    /// A Lyndon word splits into these two.
    Split(&'static [u8], &'static [u8], &'static [u8]),
    /// In the listing of k and n, the entry of this number is this word, with these parts.
    Entry(u8, u8, usize, &'static [u8], u16, u16),
    /// A word has this text.
    Text(&'static [u8], &'static [u8]),
    /// In the table of all entries of k and n, reading this text is refused with this fault, at this byte place.
    Unread(u8, u8, &'static [u8], u8, usize),
    /// Over so many letters, P of a word has these coefficients, each at the code of its word.
    Polynomial(u8, &'static [u8], &'static [i16]),
    /// Over so many letters, a word has these coordinates, each at the code of its word.
    Coordinates(u8, &'static [u8], &'static [i16]),
}

const CASES: [Case; 13] = [
    Case::Factors(&[0, 0, 1, 0, 0, 1], &[&[0, 0, 1], &[0, 0, 1]]),
    Case::Factors(&[1, 0], &[&[1], &[0]]),
    Case::Factors(&[0, 1, 0, 1], &[&[0, 1], &[0, 1]]),
    Case::NotLyndon(&[0, 1, 0, 1]),
    Case::Split(
        &[0, 0, 1, 0, 0, 1, 0, 1, 1],
        &[0, 0, 1],
        &[0, 0, 1, 0, 1, 1],
    ),
    Case::Split(&[0, 0, 0, 1, 0, 1], &[0], &[0, 0, 1, 0, 1]),
    Case::Entry(2, 5, 10, &[0, 0, 1, 0, 1], 3, 2),
    Case::Entry(2, 5, 12, &[0, 1, 0, 1, 1], 2, 4),
    Case::Text(&[0, 0, 1, 1, 0, 1], b"[[0,[[0,1],1]],[0,1]]"),
    Case::Unread(2, 5, b"[0,[0,1]", 15, 8),
    Case::Unread(2, 5, b"[1,0]", 16, 0),
    Case::Polynomial(2, &[0, 0, 1], &[0, 1, -2, 0, 1, 0, 0, 0]),
    Case::Coordinates(2, &[0, 0, 1], &[0, 1, 2, 0, 1, 0, 0, 0]),
];

/// All of them.
#[tactic(auto, using(crate::proofs::Refusals::unclosed, crate::proofs::Refusals::unlisted), unfolding(lyndon::specs::Listing::lyndon, lyndon::specs::Listing::codes, lyndon::specs::Listing::lengths, lyndon::specs::Listing::keys, lyndon::specs::Entries::listing, table_text::specs::Lines::text, polynomial::specs::Polynomials::poly))]
pub fn cases() -> [Case; 13]
    ensures { AllHold result }
{
    CASES
}
