//! The lines that the programs `table` and `coords` read.

#![tactic(auto)]

mod part;
mod shape;
mod symbols;
mod word_pair;
mod words;

pub use shape::{Numbers, read_shape};
pub use symbols::Symbols;
pub use word_pair::WordPair;
pub use words::read_words;
