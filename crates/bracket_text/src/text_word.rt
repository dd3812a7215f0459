//! The word that a bracket text means.
ghost use Rattle.std.specs.Prelude.{◌≡◌, ◌+◌, ◌<◌, ◌≤◌, [], ◌∷◌, ◌++◌};

/// The most bytes that the text of a word has, and so more than its letters.
pub(crate) const LONGEST: usize = 45;

/// The letters of a text, in their order.
#[derive(Clone, Copy)]
pub struct TextWord {
    places: [u8; LONGEST],
    count: usize,
    ghost within: { count ≤ 45 },
}

impl TextWord {
    ghost use Rattle.bracket_text.specs.Words.{letters_in};

    /// No letters yet.
    pub(crate) fn empty() -> Self
        ensures letters { letters_in result ≡ [] }
        ensures count { result.count ≡ 0 }
    {
        TextWord {
            places: [0; LONGEST],
            count: 0,
        }
    }

    /// One letter more.
    pub(crate) fn push(&mut self, letter: u8)
        requires { self.old.count < 45 }
        ensures letters { letters_in self.new ≡ letters_in self.old ++ letter ∷ [] }
        ensures count { self.new.count ≡ self.old.count + 1 }
    {
        self.places[self.count] = letter;
        self.count += 1;
    }

    /// The letters, one after the other.
    pub fn letters(&self) -> &[u8]
        ensures { result.now ≡ letters_in self.now }
    {
        &self.places[..self.count]
    }
}
