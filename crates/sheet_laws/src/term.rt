//! The terms of polynomials.

/// A word with a sign, by its code.
#[derive(Clone, Copy, PartialEq, Eq, Default, Debug)]
pub struct Term {
    /// The number that the word spells in base k, first letter highest.
    pub code: u16,
    /// Whether it is taken away.
    pub negative: bool,
}
