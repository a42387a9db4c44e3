//! Arrays that stand for all arrays, before given atoms.
#![tactic(auto)]

mod atom;
mod codes;
mod columns;
mod laws;
mod numbers;
mod regions;
mod tuples;

pub use atom::ArrayAtom;
pub use laws::regions_of_arrays;
pub use regions::ArrayRegions;
