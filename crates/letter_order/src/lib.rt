//! Orders of letters: what a word can be read under.

#![tactic(auto)]

mod moves;
mod order;

pub use moves::{ByAxis, Move, Sense};
pub use order::{ByValue, Order, Reversed};
