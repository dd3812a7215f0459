//! The search for words among the entries of a table, which stand in listing order.
ghost use Rattle.std.specs.Prelude.{◌≡◌, ◌<◌, IfSome, unwrap_or};
ghost use Rattle.std.specs.Ordering.{nat_cmp, ordering_then};
ghost use Rattle.lent_list.specs.Lent.{items};
ghost use Rattle.lyndon.specs.Entries.{Earlier};
ghost use Rattle.lyndon.specs.Listing.{Rising};
ghost use Rattle.bracket_table.specs.Search.{spot, entry_for};

use crate::Table;
use coded_word::CodedWord;
use lyndon::Entry;
use std::cmp::Ordering;

/// What the rules give a letter in place of the numbers of its parts.
const NO_PART: u16 = 65_535;

impl<'a> Table<'a> {
    /// The number of the entry with a word, or none where no entry has it.
    #[tactic(auto, using(crate::proofs::Growing::rising, crate::proofs::Growing::spot_few))]
    pub(crate) fn number_of(&self, word: CodedWord) -> Option<usize>
        ensures value { result ≡ spot (items self.now.entries) word.length word.code }
        ensures few { IfSome result (λ i. i < 1496) }
    {
        position(self.entries.items(), word)
    }

    /// The entry of a Lyndon word, the parts of which stand among the entries.
    pub(crate) fn entry_of(&self, word: CodedWord) -> Entry
        ensures { result ≡ entry_for (items self.now.entries) word }
    {
        let (left, right) = match word.parts() {
            Some(parts) => (self.part(parts.left), self.part(parts.right)),
            None => (NO_PART, NO_PART),
        };
        Entry {
            length: word.length,
            code: word.code,
            left,
            right,
        }
    }

    /// The number of a part, which stands among the entries.
    fn part(&self, word: CodedWord) -> u16
        ensures { result ≡ unwrap_or (spot (items self.now.entries) word.length word.code) 65535 }
    {
        self.number_of(word).map_or(NO_PART, |number| number as u16)
    }
}

/// How an entry stands to a word in listing order.
// by cases: with the tuples of both compared, many searches took twice the time
fn compare(entry: &Entry, word: CodedWord) -> Ordering
    ensures { result ≡ ordering_then (nat_cmp entry.now.length word.length) (nat_cmp entry.now.code word.code) }
{
    match entry.length.cmp(&word.length) {
        Ordering::Equal => entry.code.cmp(&word.code),
        other => other,
    }
}

/// The number of the entry with a word, among entries in listing order.
#[tactic(auto, using(crate::proofs::Searching::searches))]
fn position(entries: &[Entry], word: CodedWord) -> Option<usize>
    requires { Rising Earlier entries.now }
    ensures { result ≡ spot entries.now word.length word.code }
{
    let mut low = 0;
    let mut high = entries.len();
    // by hand: the library's search goes on to the end, and where the word stands in the middle that was ten times the time
    while low < high {
        let mid = low + (high - low) / 2;
        match compare(&entries[mid], word) {
            Ordering::Less => low = mid + 1,
            Ordering::Equal => return Some(mid),
            Ordering::Greater => high = mid,
        }
    }
    None
}
