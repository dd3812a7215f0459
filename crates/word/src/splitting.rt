//! The split of a Lyndon word.
ghost use Rattle.std.specs.Prelude.{◌≡◌, ◌<◌, [], length, MatchOption};
ghost use Rattle.faults.specs.Outcome.{told};
ghost use Rattle.lyndon.specs.Factoring.{is_lyndon, ahead};
ghost use Rattle.lyndon.specs.Theorems.{Splits, Tested};
ghost use Rattle.word.specs.Calls.{shown, split_parts, split_outcome};
ghost use Rattle.word.specs.Faults.{word_fault};

use crate::Parts;
use crate::fault::{WordFault, check_longest};
use crate::run::{Runs, leading_run};
use letter_order::Order;

/// The two parts of a Lyndon word, cut before its longest proper suffix that is Lyndon, or none for a single letter.
pub fn split<'a, L, O: Order<L>>(
    order: &O,
    word: &'a [L],
) -> Result<Option<Parts<'a, L>>, WordFault>
    ensures answer { told shown word_fault result ≡ split_outcome (O.ranks order.now) word.now }
    ensures lyndon { Tested (O.ranks order.now) }
    ensures splits { Splits (O.ranks order.now) }
{
    check_longest(word.len())?;
    if !is_lyndon(order, word) {
        return Err(WordFault::NotLyndon);
    }
    Ok(cut_parts(order, word))
}

/// Whether a word is a Lyndon word: its first factor is all of it.
fn is_lyndon<L, O: Order<L>>(order: &O, word: &[L]) -> bool
    ensures { result ≡ is_lyndon (O.ranks order.now) word.now }
{
    leading_run(order, word).is_some_and(|run| run.period == word.len())
}

/// A Lyndon word, cut before its longest proper suffix that is Lyndon, or none for a single letter.
fn cut_parts<'a, L, O: Order<L>>(order: &O, word: &'a [L]) -> Option<Parts<'a, L>>
    ensures { shown result ≡ split_parts (O.ranks order.now) word.now }
{
    let (_, behind) = word.split_first()?;
    let place = last_factor(order, behind)?;
    Some(word.split_at(1 + place))
}

/// Where the last factor of a word begins: it is the longest suffix that is Lyndon.
fn last_factor<L, O: Order<L>>(order: &O, word: &[L]) -> Option<usize>
    ensures { MatchOption result
        (word.now ≡ [])
        (λ place. (place ≡ ahead (O.ranks order.now) word.now) × (place < length word.now)) }
{
    let (from, run) = Runs::new(order, word).last()?;
    Some(from + (run.count - 1) * run.period)
}
