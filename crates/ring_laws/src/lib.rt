//! What a commutative ring with images of small whole numbers is, and what follows from its laws.

#![tactic(auto)]
