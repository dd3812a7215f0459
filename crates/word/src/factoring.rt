//! The factors of a word.
ghost use Rattle.std.specs.Prelude.{◌≡◌, ◌+◌, ◌*◌, ◌<◌, ◌≤◌, ◌++◌, length, MatchResult, nat_le};
ghost use Rattle.faults.specs.Outcome.{told};
ghost use Rattle.lent_list.specs.Lent.{items, places, Refilled};
ghost use Rattle.lyndon.specs.Factoring.{factors};
ghost use Rattle.lyndon.specs.Theorems.{Factorizations};
ghost use Rattle.word.specs.Calls.{shown, cut_behind, first_outcome, factor_outcome, starts_of, paced};
ghost use Rattle.word.specs.Faults.{word_fault};

use crate::Parts;
use crate::fault::{WordFault, check_longest};
use crate::run::{Run, Runs, leading_run};
use lent_list::LentList;
use letter_order::Order;

/// The first factor of a word and the rest of the word, or none for the empty word.
pub fn first<'a, L, O: Order<L>>(
    order: &O,
    word: &'a [L],
) -> Result<Option<Parts<'a, L>>, WordFault>
    ensures answer { told shown word_fault result ≡ first_outcome (O.ranks order.now) word.now }
    ensures factorizations { Factorizations (O.ranks order.now) }
{
    check_longest(word.len())?;
    Ok(cut_first(order, word))
}

/// Replaces the contents of a list by the starts of the factors of a word, and answers how many there are.
pub fn factor<L, O: Order<L>>(
    order: &O,
    word: &[L],
    starts: &mut LentList<u16>,
) -> Result<usize, WordFault>
    ensures answer { told (λ n. n) word_fault result ≡ factor_outcome (O.ranks order.now) word.now (length (places starts.old)) }
    ensures starts { MatchResult result
        (λ _. Refilled starts.old starts.new (starts_of (O.ranks order.now) word.now))
        (λ _. starts.new ≡ starts.old) }
    ensures factorizations { Factorizations (O.ranks order.now) }
{
    check_longest(word.len())?;
    if !fits(order, word, starts.size()) {
        return Err(WordFault::ShortMemory);
    }
    Ok(list_starts(order, word, starts))
}

/// A word cut behind its first factor, or none for the empty word.
fn cut_first<'a, L, O: Order<L>>(order: &O, word: &'a [L]) -> Option<Parts<'a, L>>
    ensures { shown result ≡ cut_behind word.now (factors (O.ranks order.now) word.now) }
{
    let run = leading_run(order, word)?;
    Some(word.split_at(run.period))
}

/// Whether a list of this size holds the starts of the factors of a word.
fn fits<L, O: Order<L>>(order: &O, word: &[L], size: usize) -> bool
    ensures { result ≡ nat_le (length (factors (O.ranks order.now) word.now)) size }
{
    // a word has no more factors than letters, so that only a short list asks for their number
    word.len() <= size || count_factors(order, word) <= size
}

/// How many factors a word has.
fn count_factors<L, O: Order<L>>(order: &O, word: &[L]) -> usize
    ensures { result ≡ length (factors (O.ranks order.now) word.now) }
{
    Runs::new(order, word).map(|(_, run)| run.count).sum()
}

/// Puts the starts of equal factors, the first of which begins at `from`, behind the others.
fn push_starts(starts: &mut LentList<u16>, from: usize, run: Run)
    requires last { from + run.count * run.period ≤ 65535 }
    requires room { length (items starts.old) + run.count ≤ length (places starts.old) }
    ensures { Refilled starts.old starts.new (items starts.old ++ paced from run.period run.count) }
{
    // by number: that a start is a place and so many periods says as much as `step_by`, which could overflow
    for i in 0..run.count {
        // there is room
        let _ = starts.push((from + i * run.period) as u16);
    }
}

/// Replaces the contents of a list that is large enough by the starts of the factors of a word.
fn list_starts<L, O: Order<L>>(order: &O, word: &[L], starts: &mut LentList<u16>) -> usize
    requires few { length word.now ≤ 65535 }
    requires room { length (factors (O.ranks order.now) word.now) ≤ length (places starts.old) }
    ensures count { result ≡ length (factors (O.ranks order.now) word.now) }
    ensures starts { Refilled starts.old starts.new (starts_of (O.ranks order.now) word.now) }
{
    starts.clear();
    for (from, run) in Runs::new(order, word) {
        push_starts(starts, from, run);
    }
    starts.count()
}
