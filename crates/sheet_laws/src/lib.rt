//! What holds of coefficient sheets: their coordinates, and the terms of which P of a word is the sum.

#![tactic(auto)]

mod term;

pub use term::Term;
