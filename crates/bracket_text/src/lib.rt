//! Bracket texts: a symbol, or two texts in brackets with a comma between.

#![tactic(auto)]

mod reader;
mod text_word;
mod token;

pub use reader::read_bracket;
pub use text_word::TextWord;
