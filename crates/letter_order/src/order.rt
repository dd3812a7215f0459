//! What an order of letters is, and the orders that need no letters of their own.
ghost use Rattle.std.specs.Prelude.{◌≡◌};
ghost use Rattle.std.specs.declared.cmp.Ordering.{Ordering};
ghost use Rattle.std.specs.Ordering.{is_lt};
ghost use Rattle.letter_order.specs.Orders.{TotalOrder, by_value, reversed_order};
ghost use Rattle.std.proofs.Common.{rules};

use std::cmp::Ordering;

/// An order of the letters `L`. It is a value of its own, so that one word can be read under several orders.
pub trait Order<L> {
    /// How the order ranks one letter against another.
    ghost ranks: { Self → L → L → Ordering };

    /// Whether `x` comes before `y`, is the same letter, or comes after it.
    fn compare(&self, x: &L, y: &L) -> Ordering
        ensures { result ≡ ranks self.now x.now y.now };

    /// Whether `x` comes before `y`. An order that decides it faster than by `compare` says so itself.
    fn before(&self, x: &L, y: &L) -> bool
        ensures { result ≡ is_lt (ranks self.now x.now y.now) }
    {
        self.compare(x, y).is_lt()
    }

    ghost total: { (order : Self) → TotalOrder (ranks order) };
}

/// Letters that are numbers, by their value.
#[derive(Clone, Copy, Default, Debug)]
pub struct ByValue;

impl Order<u8> for ByValue {
    ghost ranks = { λ _. by_value };

    ghost total = { Prim.search rules };

    fn compare(&self, x: &u8, y: &u8) -> Ordering {
        x.cmp(y)
    }

    fn before(&self, x: &u8, y: &u8) -> bool {
        *x < *y
    }
}

/// The reverse of an order.
#[derive(Clone, Copy, Default, Debug)]
pub struct Reversed<O>(pub O);

impl<L, O: Order<L>> Order<L> for Reversed<O> {
    ghost ranks = { λ order. reversed_order (O.Order.ranks order.0) };

    ghost total = { Prim.search rules };

    fn compare(&self, x: &L, y: &L) -> Ordering {
        self.0.compare(y, x)
    }

    fn before(&self, x: &L, y: &L) -> bool {
        self.0.before(y, x)
    }
}
