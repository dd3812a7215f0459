//! Commutative rings: what the values of a coefficient sheet are.

#![tactic(auto)]

mod bits;
mod mod16;
mod mod64;
mod modulo;
mod ring;

pub use modulo::{Mod16, Mod64};
pub use ring::Ring;
