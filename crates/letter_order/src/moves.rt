//! Moves of a machine along its axes, as letters.
ghost use Rattle.letter_order.specs.Moves.{by_axis};
ghost use Rattle.std.proofs.Common.{rules};

use crate::order::Order;
use std::cmp::Ordering;

/// Which way a move goes along its axis.
#[derive(Clone, Copy, PartialEq, Eq, PartialOrd, Ord, Debug)]
pub enum Sense {
    Reverse,
    Forward,
}

/// A move along an axis. Its order is by axis, and along one axis by sense.
#[derive(Clone, Copy, PartialEq, Eq, PartialOrd, Ord, Debug)]
pub struct Move {
    pub axis: u8,
    pub sense: Sense,
}

/// Moves by their axis, the lower first, and along one axis reverse before forward.
// beside `ByValue`, and no impl for each `Ord`: std's `Equal` is no promise that two letters are the same, as the third law is
#[derive(Clone, Copy, Default, Debug)]
pub struct ByAxis;

impl Order<Move> for ByAxis {
    ghost ranks = { λ _. by_axis };

    ghost total = { Prim.search rules };

    fn compare(&self, x: &Move, y: &Move) -> Ordering {
        x.cmp(y)
    }
}
