//! Polynomials in letters that do not commute, and the polynomial P of every word.

#![tactic(auto)]
