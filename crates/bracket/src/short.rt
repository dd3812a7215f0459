//! Words of at most 12 letters, and the coefficients of their polynomials.
ghost use Rattle.std.specs.Prelude.{◌≡◌, ◌+◌, ◌<◌, ◌≤◌, length, MatchOption, unsigned_abs};
ghost use Rattle.polynomial.specs.Polynomials.{only, P};
ghost use Rattle.polynomial.specs.Theorems.{BracketPolynomials};

use letter_order::ByValue;
use word::{first, split};

/// The most letters that a word of a shape has.
const LONGEST: usize = 12;

/// A word of at most 12 letters: the coefficients of its polynomial fit an `i16`.
#[derive(Clone, Copy)]
pub struct ShortWord<'w> {
    pub letters: &'w [u8],
    ghost short: { length letters.now ≤ 12 },
}

/// How P of a word is made.
#[derive(Clone, Copy)]
pub enum Cut<'w> {
    /// The word has at most one letter, and P is the word.
    Single,
    /// The word is Lyndon, and with its split l, r, P is P(l) P(r) - P(r) P(l).
    Bracket(ShortWord<'w>, ShortWord<'w>),
    /// It is not, and with its first factor f and the rest r, P is P(f) P(r).
    Product(ShortWord<'w>, ShortWord<'w>),
}

impl<'w> ShortWord<'w> {
    ghost use Rattle.bracket.specs.Cuts.{letters_of, product_at, SplitCut, FirstCut, Cuts, Whole, Unsplit};

    /// The word with these letters, or none where there are more than 12.
    pub fn new(letters: &'w [u8]) -> Option<Self>
        ensures { MatchOption result (12 < length letters.now) (λ w. (length letters.now ≤ 12) × (letters_of w ≡ letters.now)) }
    {
        if letters.len() > LONGEST {
            return None;
        }
        Some(ShortWord { letters })
    }

    /// How its polynomial is made.
    pub fn cut(self) -> Cut<'w>
        ensures { Cuts (letters_of self.entry) result }
    {
        if self.letters.len() < 2 {
            return Cut::Single;
        }
        // the split first: most parts of a word are Lyndon
        if let Some((left, right)) = self.split() {
            Cut::Bracket(left, right)
        } else if let Some((factor, rest)) = self.first_factor() {
            Cut::Product(factor, rest)
        } else {
            Cut::Single
        }
    }

    /// The coefficient of a word in its polynomial.
    #[cycle(coefficient)]
    #[tactic(auto, using(polynomial::proofs::Theorems::bracket_polynomials, crate::proofs::Values::other_size, crate::proofs::Values::single, crate::proofs::Values::bound, crate::proofs::Values::first_code, crate::proofs::Values::split_code, crate::proofs::Values::difference_fits, crate::proofs::Values::difference_small))]
    pub fn coefficient(self, at: &[u8]) -> i16
        ensures value { result ≡ P (letters_of self.entry) at.now }
        ensures bound { unsigned_abs result ≤ 2048 }
        ensures polynomials { BracketPolynomials }
    {
        if self.letters.len() != at.len() {
            return 0;
        }
        match self.cut() {
            Cut::Single => only(self.letters, at),
            Cut::Bracket(left, right) => { left.product_at(right, at) - right.product_at(left, at) }
            Cut::Product(factor, rest) => factor.product_at(rest, at),
        }
    }

    /// The coefficient of a word in the product of the polynomials of two parts, neither of them empty.
    #[cycle(coefficient)]
    #[tactic(auto, using(crate::proofs::Values::bound, crate::proofs::Values::product_fits, crate::proofs::Values::product_value, crate::proofs::Values::product_small))]
    fn product_at(self, behind: Self, at: &[u8]) -> i16
        requires front { 0 < length (letters_of self) }
        requires back { 0 < length (letters_of behind) }
        requires whole { length (letters_of self) + length (letters_of behind) ≡ length at.now }
        requires short { length at.now ≤ 12 }
        ensures value { result ≡ product_at (letters_of self.entry) (letters_of behind.entry) at.now }
        ensures bound { unsigned_abs result ≤ 1024 }
    {
        let (front, back) = at.split_at(self.letters.len());
        self.coefficient(front) * behind.coefficient(back)
    }

    /// Its first factor and the rest, or none where nothing is left.
    #[tactic(auto, using(crate::proofs::Cutting::first_found, crate::proofs::Cutting::first_whole, crate::proofs::Cutting::first_none, crate::proofs::Cutting::first_left, crate::proofs::Cutting::first_right))]
    fn first_factor(self) -> Option<(Self, Self)>
        ensures { MatchOption result
            (Whole (letters_of self.entry))
            (λ p. FirstCut (letters_of self.entry) (letters_of p.0) (letters_of p.1)) }
    {
        let (factor, rest) = first(&ByValue, self.letters).ok()??;
        if rest.is_empty() {
            return None;
        }
        Some((ShortWord { letters: factor }, ShortWord { letters: rest }))
    }

    /// The two parts of its split, or none where it has none.
    #[tactic(auto, using(crate::proofs::Cutting::split_found, crate::proofs::Cutting::split_none, crate::proofs::Cutting::split_refused, crate::proofs::Cutting::split_left, crate::proofs::Cutting::split_right))]
    fn split(self) -> Option<(Self, Self)>
        ensures { MatchOption result
            (Unsplit (letters_of self.entry))
            (λ p. SplitCut (letters_of self.entry) (letters_of p.0) (letters_of p.1)) }
    {
        match split(&ByValue, self.letters) {
            Ok(Some((left, right))) => Some((
                ShortWord { letters: left },
                ShortWord { letters: right },
            )),
            Ok(None) => None,
            Err(_) => None,
        }
    }
}

/// The coefficient of a word in the polynomial of a single word.
#[tactic(auto, using(crate::proofs::Values::only_same, crate::proofs::Values::only_apart))]
fn only(word: &[u8], at: &[u8]) -> i16
    ensures { result ≡ only word.now at.now }
{
    if word == at { 1 } else { 0 }
}
