//! A number and two words.
ghost use Rattle.std.specs.Prelude.{◌≡◌, ◌+◌, ◌<◌, ◌^◌, length};
ghost use Rattle.input_text.specs.Symbols.{letters_of};

use crate::symbols::Symbols;

/// The number and the two words of a line "k u v".
#[derive(Clone, Copy)]
pub struct WordPair<'a> {
    pub k: u8,
    pub first: Symbols<'a>,
    pub second: Symbols<'a>,
    ghost fits: { length (letters_of first) + length (letters_of second) < 2 ^ 64 },
}

impl WordPair<'_> {
    /// How many letters the two words have together.
    pub fn count(self) -> usize
        ensures { result ≡ length (letters_of self.entry.first) + length (letters_of self.entry.second) }
    {
        self.first.count() + self.second.count()
    }
}
