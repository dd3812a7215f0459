//! Shapes.
ghost use Rattle.std.specs.Prelude.{◌≡◌, ◌^◌, ◌<◌, ◌≤◌, length, Decides};
ghost use Rattle.lyndon.specs.Codes.{Over, code};

/// How many letters there are, and how many of them a word may have. Whoever has a shape knows its bounds.
#[derive(Clone, Copy, PartialEq, Eq, Debug)]
pub struct Shape {
    pub k: u8,
    pub n: u8,
    ghost some: { 1 ≤ k },
    ghost letters: { k ≤ 16 },
    ghost one: { 1 ≤ n },
    ghost depth: { n ≤ 12 },
    ghost few: { k ^ n ≤ 4096 },
}

impl Shape {
    /// Whether no word has more letters.
    pub fn is_longest(self, letters: u8) -> bool
        ensures { Decides result (letters ≡ self.n) }
    {
        letters == self.n
    }

    /// How many words have so many letters.
    #[tactic(auto, using(crate::proofs::Bounds::fewer, crate::proofs::Bounds::some))]
    pub(crate) fn count_words(self, letters: u8) -> u16
        requires { letters ≤ self.n }
        ensures value { result ≡ self.k ^ letters }
        ensures some { 0 < result }
        ensures few { result ≤ 4096 }
    {
        (self.k as u16).pow(letters as u32)
    }

    /// The code of a word.
    #[tactic(auto, using(crate::proofs::Spelling::code_next, crate::proofs::Spelling::code_all, crate::proofs::Spelling::below_next, crate::proofs::Spelling::below_top, crate::proofs::Spelling::letter_at))]
    pub(crate) fn code_of(self, letters: &[u8]) -> u16
        requires short { length letters.now ≤ self.n }
        requires letters { Over self.k letters.now }
        ensures value { result ≡ code self.k letters.now }
        ensures coded { result < self.k ^ length letters.now }
    {
        let k = self.k as u16;
        let mut code = 0;
        for letter in letters {
            code = code * k + *letter as u16;
        }
        code
    }
}
