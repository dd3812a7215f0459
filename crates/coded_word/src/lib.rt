//! Words of a shape by their lengths and codes, and its Lyndon words one after the other.

#![tactic(auto)]

mod coded;
mod shape;

pub use coded::{CodedWord, Cursor, Letters, Parts};
pub use shape::Shape;
