//! Lists of specifiers: their atoms, the lists of their cars and cdrs, and what a decision by them costs. Nearly all of it
//! is definitions (`specs/`) and the theory of them (`proofs/`), which the crates above share.
#![tactic(auto)]
