//! Type specifiers (4.2.3), and which objects belong to them. What a reader must believe stands in
//! `specs/`; `belongs` is the plain test of one object, and the module `laws` has laws about
//! the definitions.
#![tactic(auto)]

mod atom_list;
mod bounds;
mod builtin;
mod codes;
mod copy;
mod dims;
mod fits;
mod key;
mod laws;
mod limits;
mod membership;
mod regions;
mod spec;

pub use atom_list::atoms;
pub use builtin::of_builtin;
pub use codes::of_code;
pub use dims::are_dims_matched;
pub use key::{key_of, key_of_name};
pub use laws::{
    approximations, distinct_specifiers, free_predicates, limits_of_specifiers, one_right_answer,
    one_upgraded_code, types_of_codes, upgrading_is_monotone,
};
pub use limits::{
    DIMENSION_LIMIT, LARGEST_DENOMINATOR, LARGEST_DEPTH, LARGEST_NUMERATOR, LARGEST_RANK,
};
pub use membership::{belongs, belongs_unmarked};
pub use regions::{Regions, is_included_within};
pub use spec::{Bound, CharClass, DimPattern, Point, RangeKind, Spec, SymClass};
