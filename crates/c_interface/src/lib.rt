//! The calls of the library for programs in C or Rust: include/lyndon.h declares them. A slice is a pointer and then a
//! count, and what is answered beside the fault goes into a place that the caller lends.
//! A caller in another language sees to it that each pointer is valid for its count, and that memory which is written
//! overlaps no other.

#![tactic(auto)]

mod entries;
mod fault;
mod sheets;
mod tables;
mod texts;
mod words;
