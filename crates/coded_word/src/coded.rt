//! Words by their codes, and the scan through the Lyndon words of a shape.
ghost use Rattle.std.specs.Prelude.{◌≡◌, ℕ, ◌+◌, ◌^◌, ◌<◌, ◌≤◌, true, [], length, take, drop, Some, MatchOption, IfOk};
ghost use Rattle.faults.specs.Outcome.{told};
ghost use Rattle.lyndon.specs.Entries.{cut};
ghost use Rattle.lyndon.specs.Listing.{lyndon, codes};
ghost use Rattle.word.specs.Faults.{word_fault};
ghost use Rattle.coded_word.specs.Codes.{read_outcome};

use crate::shape::Shape;
use word::{WordFault, check_length, check_letters};

/// A word of a shape, by its length and its code.
#[derive(Clone, Copy, PartialEq, Eq, Debug)]
pub struct CodedWord {
    pub shape: Shape,
    pub length: u8,
    pub code: u16,
    ghost some: { 1 ≤ length },
    ghost short: { length ≤ shape.n },
    ghost coded: { code < shape.k ^ length },
}

/// The letters of a word of a shape, which has at most 12.
#[derive(Clone, Copy)]
pub struct Letters {
    places: [u8; 12],
    count: u8,
    ghost few: { count ≤ 12 },
}

/// The two parts of a word.
#[derive(Clone, Copy, PartialEq, Eq, Debug)]
pub struct Parts {
    pub left: CodedWord,
    pub right: CodedWord,
}

/// A place in the scan through the words of a shape, in listing order: a word, or the end of those of its length.
// not a `CodedWord`: at the end of a length there is none
#[derive(Clone, Copy, PartialEq, Eq, Debug)]
pub struct Cursor {
    pub shape: Shape,
    pub length: u8,
    pub code: u16,
    ghost least: { 1 ≤ length },
    ghost most: { length ≤ shape.n },
    ghost upto: { code ≤ shape.k ^ length },
}

impl CodedWord {
    ghost use Rattle.coded_word.specs.Words.{word_of, letters_in, left_of, right_of, IsWord};

    /// The word with these letters.
    #[tactic(auto, using(crate::proofs::Passed::letters_below))]
    pub fn read(shape: Shape, letters: &[u8]) -> Result<CodedWord, WordFault>
        ensures outcome { told {Y = ℕ × ℕ} (λ w. (w.length, w.code)) word_fault result ≡ read_outcome shape.k shape.n letters.now }
        ensures shape { IfOk result (λ w. w.shape ≡ shape) }
    {
        check_length(shape.n as usize, letters.len())?;
        check_letters(shape.k, letters)?;
        Ok(CodedWord {
            shape,
            length: letters.len() as u8,
            code: shape.code_of(letters),
        })
    }

    /// Whether it is a Lyndon word.
    #[tactic(auto, using(crate::proofs::Scanning::lyndon_by_passed))]
    pub fn is_lyndon(self) -> bool
        ensures { result ≡ lyndon (word_of self) }
    {
        self.count_passed(self.shape.count_words(self.length)) == 0
    }

    /// It cut before its longest proper suffix that is Lyndon, or none for a single letter.
    pub fn parts(self) -> Option<Parts>
        ensures { MatchOption result (self.length ≡ 1)
            (λ p. (1 < self.length) × IsWord self.shape (left_of self) p.left × IsWord self.shape (right_of self) p.right) }
    {
        Some(self.cut_at(self.cut()?))
    }

    /// Its letters.
    pub fn letters(self) -> Letters
        ensures { letters_in result ≡ word_of self }
    {
        let mut places = [0; 12];
        self.write_letters(&mut places[..usize::from(self.length)]);
        Letters {
            places,
            count: self.length,
        }
    }

    /// The place behind it.
    #[tactic(auto, using(crate::proofs::Bounds::fewer))]
    pub fn after(self) -> Cursor
        ensures shape { result.shape ≡ self.shape }
        ensures length { result.length ≡ self.length }
        ensures code { result.code ≡ self.code + 1 }
    {
        Cursor {
            shape: self.shape,
            length: self.length,
            code: self.code + 1,
        }
    }

    /// Writes its letters.
    // from the last on, with one division for each
    #[tactic(auto, using(crate::proofs::Spelling::letters_none))]
    fn write_letters(self, letters: &mut [u8])
        requires { length letters.old ≡ self.length }
        ensures { letters.new ≡ word_of self }
    {
        let k = u16::from(self.shape.k);
        let mut rest = self.code;
        for place in (0..letters.len()).rev() {
            letters[place] = (rest % k) as u8;
            rest /= k;
        }
    }

    /// How many codes from its own on its first suffix that is not behind it shows to be of no Lyndon words; 0 if it is one.
    // each suffix is filled up with zeros to the length of the word, and so are compared two codes
    #[tactic(auto, using(crate::proofs::Scanning::led_start, crate::proofs::Scanning::led_next, crate::proofs::Scanning::led_lyndon, crate::proofs::Scanning::none_passed, crate::proofs::Scanning::led_passed, crate::proofs::Scanning::led_within))]
    fn count_passed(self, words: u16) -> u16
        requires value { words ≡ self.shape.k ^ self.length }
        requires few { words ≤ 4096 }
        ensures none { result ≡ 0 → true ≡ lyndon (word_of self) }
        ensures passed { codes self.shape.k self.length self.code result ≡ [] }
        ensures within { self.code + result ≤ words }
    {
        let k = u16::from(self.shape.k);
        let mut shifted = self.code;
        for i in 1..self.length {
            shifted = shifted * k % words;
            if shifted <= self.code {
                return (self.code - shifted) / self.shape.count_words(i) + 1;
            }
        }
        0
    }

    /// How many letters stand before its longest proper suffix that is Lyndon, or none for a single letter.
    fn cut(self) -> Option<u8>
        ensures { MatchOption result (self.length ≡ 1) (λ i. (0 < i) × (i < self.length) × (i ≡ cut (word_of self))) }
    {
        if self.length == 1 {
            return None;
        }
        Some(self.find_least())
    }

    /// How many letters stand before its least proper suffix, which is the longest that is Lyndon.
    // the suffixes are filled up with zeros; of two that then are the same the shorter, which comes later, is the lesser
    #[tactic(auto, using(crate::proofs::Least::least_start, crate::proofs::Least::least_taken, crate::proofs::Least::least_kept, crate::proofs::Least::least_some, crate::proofs::Least::least_within, crate::proofs::Least::least_cut))]
    fn find_least(self) -> u8
        requires { 1 < self.length }
        ensures some { 0 < result }
        ensures within { result < self.length }
        ensures cut { result ≡ cut (word_of self) }
    {
        let k = u16::from(self.shape.k);
        let words = self.shape.count_words(self.length);
        let mut shifted = self.code;
        let mut least = words;
        let mut before = 0;
        for i in 1..self.length {
            shifted = shifted * k % words;
            if shifted <= least {
                least = shifted;
                before = i;
            }
        }
        before
    }

    /// It cut behind so many letters.
    fn cut_at(self, letters: u8) -> Parts
        requires { (0 < letters) × (letters < self.length) }
        ensures left { IsWord self.shape (take letters (word_of self)) result.left }
        ensures right { IsWord self.shape (drop letters (word_of self)) result.right }
    {
        let behind = self.length - letters;
        let weight = self.shape.count_words(behind);
        let left = CodedWord {
            shape: self.shape,
            length: letters,
            code: self.code / weight,
        };
        let right = CodedWord {
            shape: self.shape,
            length: behind,
            code: self.code % weight,
        };
        Parts { left, right }
    }
}

impl Letters {
    ghost use Rattle.coded_word.specs.Words.{letters_in};

    /// Them, one after the other.
    pub fn as_slice(&self) -> &[u8]
        ensures { result.now ≡ letters_in self.now }
    {
        &self.places[..usize::from(self.count)]
    }
}

impl Cursor {
    ghost use Rattle.coded_word.specs.Scan.{FirstFrom, left_from, left_behind};

    /// The first place.
    pub fn start(shape: Shape) -> Cursor
        ensures shape { result.shape ≡ shape }
        ensures place { (result.length ≡ 1) × (result.code ≡ 0) }
    {
        Cursor::of_length(shape, 1)
    }

    /// The first Lyndon word from here on, or none.
    #[tactic(auto, using(lyndon::proofs::Keys::rest_none, lyndon::proofs::Keys::rest_longer, crate::proofs::Bounds::not_longest))]
    pub fn next(self) -> Option<CodedWord>
        ensures { FirstFrom self result }
    {
        let mut place = self;
        loop {
            if let Some(word) = place.scan_length() {
                return Some(word);
            }
            place = place.longer()?;
        }
    }

    /// The first place of a length.
    fn of_length(shape: Shape, length: u8) -> Cursor
        requires { (1 ≤ length) × (length ≤ shape.n) }
        ensures shape { result.shape ≡ shape }
        ensures place { (result.length ≡ length) × (result.code ≡ 0) }
    {
        Cursor {
            shape,
            length,
            code: 0,
        }
    }

    /// The first Lyndon word from here on that is no longer, or none.
    #[tactic(auto, using(lyndon::proofs::Keys::rest_found, crate::proofs::Scanning::rest_behind))]
    fn scan_length(self) -> Option<CodedWord>
        ensures { MatchOption result (left_from self ≡ left_behind self) (λ w. FirstFrom self (Some w)) }
    {
        let words = self.shape.count_words(self.length);
        let mut code = self.code;
        // by hand: how far a step goes is known when a code is tried
        while code < words {
            let word = CodedWord {
                shape: self.shape,
                length: self.length,
                code,
            };
            let passed = word.count_passed(words);
            if passed == 0 {
                return Some(word);
            }
            code += passed;
        }
        None
    }

    /// The first place of the next length, or none behind the longest.
    fn longer(self) -> Option<Cursor>
        ensures { MatchOption result (self.length ≡ self.shape.n)
            (λ c. (c.shape ≡ self.shape) × (c.length ≡ self.length + 1) × (c.code ≡ 0)) }
    {
        if self.shape.is_longest(self.length) {
            return None;
        }
        Some(Cursor::of_length(self.shape, self.length + 1))
    }
}
