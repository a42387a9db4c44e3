//! Objects that stand for all numbers, all characters, all symbols, all opaque objects and all structures of a
//! file, before given atoms.
#![tactic(auto)]

mod chars;
mod kinds;
mod laws;
mod numbers;
mod object;
mod structs;
mod symbols;

pub use chars::CharRegions;
pub use kinds::OpaqueRegions;
pub use laws::{
    regions_of_characters, regions_of_numbers, regions_of_opaque_objects, regions_of_structures,
    regions_of_symbols,
};
pub use numbers::NumberRegions;
pub use structs::StructRegions;
pub use symbols::SymbolRegions;
