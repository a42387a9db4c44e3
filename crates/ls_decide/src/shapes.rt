// The shapes of arrays that a list of atoms can tell apart.

ghost use Rattle.std.specs.Prelude.{◌≡◌, ◌<◌, length, map, filter, fold, if◌then◌else◌, [], ◌++◌, ◌==◌, IfOk, OnOk};
ghost use Rattle.std.specs.List.{flat_map};
ghost use Rattle.ls_lists.specs.Candidates.{pattern_of, number_at as numbers_at, with_number, distinct_numbers, shapes_of_rank as shapes_of, shapes as all_shapes};
ghost use Rattle.ls_intern.specs.Places.{at, specifiers_at, AllBelow};
ghost use Rattle.ls_decide.specs.steps.Cut.{cut};

use crate::cut::{cut_at, plus, times};
use crate::node::{number_at, rank};
use indexmap::IndexSet;
use ls_intern::{Id, Table};
use ls_sides::Ids;
use std::alloc::{AllocError, Global};

/// Puts in the rank that an atom names, if it isn't there.
fn add_rank(table: &Table, id: Id, out: &mut Ids) -> Result<(), AllocError>
    requires { id < length table.now }
    ensures { OnOk result (out.new ≡ fold with_number out.old (map length (pattern_of (at table.now id)))) }
{
    match rank(table.node(id)) {
        None => Ok(()),
        Some(rank) => out.push(rank),
    }
}

/// The distinct ranks that the atoms name.
fn ranks(alloc: Global, table: &Table, atoms: &[Id]) -> Result<Ids, AllocError>
    requires { AllBelow (length table.now) atoms.now }
    ensures { IfOk result (λ ids. ids ≡ distinct_numbers (map length (flat_map pattern_of (specifiers_at table.now atoms.now)))) }
{
    let mut out = Ids::new(alloc);
    for id in atoms {
        add_rank(table, *id, &mut out)?;
    }
    Ok(out)
}

/// Whether an atom names the rank.
fn has_rank(table: &Table, id: Id, asked: usize) -> bool
    requires { id < length table.now }
    ensures { filter (λ p. length p == asked) (pattern_of (at table.now id)) ≡ (if result then pattern_of (at table.now id) else []) }
{
    match rank(table.node(id)) {
        None => false,
        Some(rank) => rank == asked,
    }
}

/// Puts an atom in, if it names the rank.
fn add_of_rank(table: &Table, id: Id, asked: usize, out: &mut Vec<Id>) -> Result<(), AllocError>
    requires id { id < length table.now }
    requires out { AllBelow (length table.now) out.old.items }
    ensures below { OnOk result (AllBelow (length table.now) out.new.items) }
    ensures are { OnOk result (flat_map pattern_of (specifiers_at table.now out.new.items)
        ≡ flat_map pattern_of (specifiers_at table.now out.old.items) ++ filter (λ p. length p == asked) (pattern_of (at table.now id))) }
{
    if has_rank(table, id, asked) {
        out.push(id)?;
        return Ok(());
    }
    Ok(())
}

/// Those of the atoms that name the rank.
fn of_rank(alloc: Global, table: &Table, atoms: &[Id], asked: usize) -> Result<Vec<Id>, AllocError>
    requires { AllBelow (length table.now) atoms.now }
    ensures below { IfOk result (λ ids. AllBelow (length table.now) ids.items) }
    ensures are { IfOk result (λ ids. flat_map pattern_of (specifiers_at table.now ids.items)
        ≡ filter (λ p. length p == asked) (flat_map pattern_of (specifiers_at table.now atoms.now))) }
{
    let mut out = Vec::new(alloc);
    for id in atoms {
        add_of_rank(table, *id, asked, &mut out)?;
    }
    Ok(out)
}

/// Puts in the number that an atom names at a place, if it isn't there.
fn add_number(
    table: &Table,
    id: Id,
    place: usize,
    seen: &mut IndexSet<u64>,
) -> Result<(), AllocError>
    requires { id < length table.now }
    ensures { OnOk result (seen.new.keys ≡ fold with_number seen.old.keys (flat_map (numbers_at place) (pattern_of (at table.now id)))) }
{
    match number_at(table.node(id), place) {
        None => Ok(()),
        Some(number) => {
            seen.insert(number)?;
            Ok(())
        }
    }
}

/// How many different numbers the atoms name at a place.
fn count_numbers(
    alloc: Global,
    table: &Table,
    atoms: &[Id],
    place: usize,
) -> Result<usize, AllocError>
    requires { AllBelow (length table.now) atoms.now }
    ensures { IfOk result (λ n. n ≡ length (distinct_numbers (flat_map (numbers_at place) (flat_map pattern_of (specifiers_at table.now atoms.now))))) }
{
    let mut seen = IndexSet::new(alloc);
    for id in atoms {
        add_number(table, *id, place, &mut seen)?;
    }
    Ok(seen.len())
}

/// The shapes of a rank that atoms of that rank tell apart.
fn shapes_of_rank(
    alloc: Global,
    table: &Table,
    atoms: &[Id],
    rank: usize,
) -> Result<u64, AllocError>
    requires { AllBelow (length table.now) atoms.now }
    ensures { IfOk result (λ n. n ≡ cut (shapes_of rank (flat_map pattern_of (specifiers_at table.now atoms.now)))) }
{
    let mut n = 1;
    for place in 0..rank {
        let numbers = count_numbers(alloc, table, atoms, place)?;
        n = times(n, plus(1, cut_at(numbers as u64)));
    }
    Ok(n)
}

/// The shapes that the atoms tell apart.
pub fn shapes(alloc: Global, table: &Table, atoms: &[Id]) -> Result<u64, AllocError>
    requires { AllBelow (length table.now) atoms.now }
    ensures { IfOk result (λ n. n ≡ cut (all_shapes (flat_map pattern_of (specifiers_at table.now atoms.now)))) }
{
    let ranks = ranks(alloc, table, atoms)?;
    let mut n = 0;
    for rank in ranks.as_slice() {
        let same = of_rank(alloc, table, atoms, *rank)?;
        n = plus(n, shapes_of_rank(alloc, table, &same, *rank)?);
    }
    Ok(n)
}
