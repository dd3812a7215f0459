//! Dictionary order, Lyndon words, factors and splits, over every order of letters; the listing of Lyndon words.

#![tactic(auto)]

ghost use Rattle.std.specs.Prelude.{◌≡◌, length};
ghost use Rattle.std.specs.Ordering.{ordering_then};
ghost use Rattle.letter_order.specs.Orders.{TotalOrder, by_value};
ghost use Rattle.lyndon.specs.Words.{dictionary};

mod entry;

pub use entry::Entry;
use letter_order::Order;
use std::cmp::Ordering;

/// Dictionary order of two words. It is an order of words as `order` is one of letters.
#[tactic(auto, using(crate::proofs::Dictionary::dictionary_total))]
pub fn compare_words<L, O: Order<L>>(order: &O, u: &[L], v: &[L]) -> Ordering
    ensures answer { result ≡ dictionary (O.ranks order.now) u.now v.now }
    ensures total { TotalOrder (dictionary (O.ranks order.now)) }
{
    compare_letters(order, u, v).then(u.len().cmp(&v.len()))
}

/// What the letters of two words decide, up to the end of the shorter word.
#[tactic(auto, using(crate::proofs::Comparing::decides_alone))]
fn compare_letters<L, O: Order<L>>(order: &O, u: &[L], v: &[L]) -> Ordering
    ensures { ordering_then result (by_value (length u.now) (length v.now)) ≡ dictionary (O.ranks order.now) u.now v.now }
{
    for (x, y) in u.iter().zip(v) {
        match order.compare(x, y) {
            Ordering::Equal => {}
            decided => return decided,
        }
    }
    Ordering::Equal
}
