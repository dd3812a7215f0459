//! Words over any ordered letters: their factors, and the splits of Lyndon words.

#![tactic(auto)]

mod factoring;
mod fault;
mod letters;
mod run;
mod splitting;

pub use factoring::{factor, first};
pub use fault::{WordFault, check_room};
pub use letters::{check_length, check_letters};
pub use splitting::split;

/// Two parts of a word, one behind the other.
type Parts<'a, L> = (&'a [L], &'a [L]);
