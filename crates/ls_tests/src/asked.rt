//! What is asked of the specifiers of a text. One function alone owns them: each one that does is dear to prove.

use crate::copies::{push_approximations, push_copies, push_keys};
use crate::decide::{push_pair_cost, push_type_cost};
use crate::intern::{push_counts, push_numbers, push_trees};
use crate::points::{Class, push_shares, push_within};
use crate::predicates::push_predicates;
use crate::sides::{push_levels, push_sides};
use crate::slow::push_slow;
use crate::spec::{push_atoms, push_members};
use crate::texts::list_of;
use crate::upgrade::push_codes;
use ls_object::Items;
use ls_spec::Spec;
use std::alloc::Global;

/// What is asked.
#[derive(Clone, Copy)]
pub(crate) enum Asked {
    Copies,
    Approximations,
    Keys,
    Atoms,
    Members,
    Numbers,
    Counts,
    Trees,
    Sides,
    Levels,
    PairCost,
    TypeCost,
    Shares(Class),
    Within,
    Codes(u16),
    Slow,
    Predicates,
}

/// Writes the answer.
fn push_told(alloc: Global, out: &mut String, asked: Asked, list: &Items<Spec>) -> Option<()> {
    match asked {
        Asked::Copies => push_copies(alloc, out, list.as_slice()),
        Asked::Approximations => push_approximations(alloc, out, list.as_slice()),
        Asked::Keys => push_keys(alloc, out, list.as_slice()),
        Asked::Atoms => push_atoms(alloc, out, list),
        Asked::Members => push_members(alloc, out, list.as_slice()),
        Asked::Numbers => push_numbers(alloc, out, list.as_slice()),
        Asked::Counts => push_counts(alloc, out, list),
        Asked::Trees => push_trees(alloc, out, list.as_slice()),
        Asked::Sides => push_sides(alloc, out, list.as_slice()),
        Asked::Levels => push_levels(alloc, out, list.as_slice()),
        Asked::PairCost => push_pair_cost(alloc, out, list.as_slice()),
        Asked::TypeCost => push_type_cost(alloc, out, list.as_slice()),
        Asked::Shares(class) => push_shares(alloc, out, class, list),
        Asked::Within => push_within(alloc, out, list),
        Asked::Codes(budget) => push_codes(alloc, out, budget, list.as_slice()),
        Asked::Slow => push_slow(alloc, out, list.as_slice()),
        Asked::Predicates => push_predicates(alloc, out, list.as_slice()),
    }
}

/// What is told of the specifiers of a text; None where it has none, or where the question doesn't fit them.
pub(crate) fn told(alloc: Global, asked: Asked, text: &str) -> Option<String> {
    let list = list_of(alloc, text)?;
    let mut out = String::new(alloc);
    push_told(alloc, &mut out, asked, &list)?;
    Some(out)
}

/// Whether that is what is told; `none` stands for nothing.
pub(crate) fn is_told(alloc: Global, asked: Asked, text: &str, want: &str) -> bool {
    match told(alloc, asked, text) {
        Some(out) => out.as_str() == want,
        None => want == "none",
    }
}
