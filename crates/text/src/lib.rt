//! Texts: what is read from bytes, and what is written as bytes.

#![tactic(auto)]

mod fault;
mod input;
mod line;
mod symbols;

pub use fault::TextFault;
pub use input::first_line;
pub use line::{
    Piece, write_factor_line, write_fault_line, write_header_line, write_number_line, write_pieces,
};
pub use symbols::{is_symbol, letter_of};
