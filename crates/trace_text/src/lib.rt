//! Trace texts: the moves of a machine, with one space between them.

#![tactic(auto)]

mod reader;
mod token;

pub use reader::read_trace;
