//! The polynomials of words, by their coefficients.

#![tactic(auto)]

mod short;

pub use short::{Cut, ShortWord};
