// The candidates for a list of atoms, and its rows.

ghost use Rattle.std.specs.Prelude.{◌≡◌, ◌≤◌, ◌<◌, ◌^◌, min, if◌then◌else◌, length, List, IfOk, OnOk};
ghost use Rattle.std.specs.List.{count_by, list_any, sum_by, flat_map};
ghost use Rattle.ls_object.specs.declared.table.TheConstants.{TABLE_LEN};
ghost use Rattle.ls_spec.specs.Specifier.{Specifier};
ghost use Rattle.ls_spec.specs.Atoms.{atoms_of};
ghost use Rattle.ls_spec.specs.Distinct.{distinct};
ghost use Rattle.ls_lists.specs.Candidates.{is_predicate as is_predicate_atom, is_string as is_string_atom, element_of, element_codes as codes_of, arrays as arrays_of, candidates_of_atoms};
ghost use Rattle.ls_lists.specs.Walks.{rows_with, part_with};
ghost use Rattle.ls_intern.specs.Places.{at, specifiers_at, AllBelow};
ghost use Rattle.ls_decide.specs.steps.Cut.{cut};
ghost use Rattle.ls_sides.specs.Gathering.{Gathers};
ghost use Rattle.ls_decide.specs.steps.Weights.{weight as weight_of};

use crate::cut::{cut_at, least_of, plus, power, times};
use crate::node::{is_predicate, is_string, weight};
use crate::shapes::shapes;
use ls_intern::{Id, Table};
use ls_object::TABLE_LEN;
use ls_sides::{Ids, add, element};
use std::alloc::{AllocError, Global};

/// How many rows a list may have, and how many are tried for it, both cut.
#[derive(Clone, Copy, Debug)]
pub struct RowCount {
    pub rows: u64,
    pub part: u64,
}

/// Whether a specifier is a predicate.
fn predicate_at(table: &Table, id: Id) -> bool
    requires { id < length table.now }
    ensures { result ≡ is_predicate_atom (at table.now id) }
{
    is_predicate(table.node(id))
}

/// Whether a specifier is a string type.
fn string_at(table: &Table, id: Id) -> bool
    requires { id < length table.now }
    ensures { result ≡ is_string_atom (at table.now id) }
{
    is_string(table.node(id))
}

/// What a specifier counts for, other than an array.
fn weight_at(table: &Table, id: Id) -> u64
    requires { id < length table.now }
    ensures is { result ≡ weight_of (at table.now id) }
    ensures small { result ≤ 6 }
{
    weight(table.node(id))
}

/// The predicates among the atoms.
fn count_predicates(table: &Table, atoms: &[Id]) -> usize
    requires { AllBelow (length table.now) atoms.now }
    ensures { result ≡ count_by is_predicate_atom (specifiers_at table.now atoms.now) }
{
    let mut n = 0;
    for id in atoms {
        if predicate_at(table, *id) {
            n += 1;
        }
    }
    n
}

/// What the atoms other than arrays count for.
fn weigh(table: &Table, atoms: &[Id]) -> u64
    requires { AllBelow (length table.now) atoms.now }
    ensures { result ≡ cut (sum_by weight_of (specifiers_at table.now atoms.now)) }
{
    let mut n = 0;
    for id in atoms {
        n = plus(n, weight_at(table, *id));
    }
    n
}

/// Whether a string type is among the atoms.
fn has_string(table: &Table, atoms: &[Id]) -> bool
    requires { AllBelow (length table.now) atoms.now }
    ensures { result ≡ list_any is_string_atom (specifiers_at table.now atoms.now) }
{
    for id in atoms {
        if string_at(table, *id) {
            return true;
        }
    }
    false
}

/// Three codes for strings, if there are any.
fn string_codes(table: &Table, atoms: &[Id]) -> usize
    requires { AllBelow (length table.now) atoms.now }
    ensures { result ≡ (if list_any is_string_atom (specifiers_at table.now atoms.now) then 3 else 0) }
{
    if has_string(table, atoms) { 3 } else { 0 }
}

/// Puts in the element specifier that an atom names, if it isn't there.
fn add_element(table: &Table, id: Id, out: &mut Ids) -> Result<(), AllocError>
    requires id { id < length table.now }
    requires out { AllBelow (length table.now) out.old }
    ensures { OnOk result (Gathers table.now out.old out.new (element_of (at table.now id))) }
{
    match element(table.node(id)) {
        None => Ok(()),
        Some(element) => add(table, element, out),
    }
}

/// The distinct element specifiers that the atoms name.
fn elements(alloc: Global, table: &Table, atoms: &[Id]) -> Result<Ids, AllocError>
    requires { AllBelow (length table.now) atoms.now }
    ensures { IfOk result (λ ids. specifiers_at table.now ids ≡ distinct (flat_map element_of (specifiers_at table.now atoms.now))) }
{
    let mut out = Ids::new(alloc);
    for id in atoms {
        add_element(table, *id, &mut out)?;
    }
    Ok(out)
}

/// The number, or that of all codes where it is more.
fn at_most_all_codes(n: usize) -> u64
    ensures { result ≡ min TABLE_LEN n }
{
    n.min(TABLE_LEN) as u64
}

/// The element codes that the atoms tell apart.
fn element_codes(alloc: Global, table: &Table, atoms: &[Id]) -> Result<u64, AllocError>
    requires { AllBelow (length table.now) atoms.now }
    ensures { IfOk result (λ n. n ≡ codes_of (specifiers_at table.now atoms.now)) }
{
    let elements = elements(alloc, table, atoms)?;
    let named = at_most_all_codes(elements.as_slice().len());
    Ok(at_most_all_codes(named as usize + string_codes(table, atoms)))
}

/// The arrays among the candidates.
fn arrays(alloc: Global, table: &Table, atoms: &[Id]) -> Result<u64, AllocError>
    requires { AllBelow (length table.now) atoms.now }
    ensures { IfOk result (λ n. n ≡ cut (arrays_of (specifiers_at table.now atoms.now))) }
{
    let codes = element_codes(alloc, table, atoms)?;
    let shapes = shapes(alloc, table, atoms)?;
    Ok(times(2 * (codes + 1), plus(1, shapes)))
}

/// The candidates for a list with these atoms.
fn candidates(alloc: Global, table: &Table, atoms: &[Id]) -> Result<u64, AllocError>
    requires { AllBelow (length table.now) atoms.now }
    ensures { IfOk result (λ n. n ≡ cut (candidates_of_atoms (specifiers_at table.now atoms.now))) }
{
    let arrays = arrays(alloc, table, atoms)?;
    Ok(plus(plus(20, weigh(table, atoms)), arrays))
}

/// The rows of a list with these atoms, for a number of pairs.
pub fn count_rows(
    alloc: Global,
    table: &Table,
    atoms: &[Id],
    pairs: u64,
) -> Result<RowCount, AllocError>
    requires below { AllBelow (length table.now) atoms.now }
    requires pairs { pairs ≤ 2 ^ 31 }
    ensures rows { IfOk result (λ c. (list : List Specifier) → specifiers_at table.now atoms.now ≡ atoms_of list → c.rows ≡ cut (rows_with pairs list)) }
    ensures part { IfOk result (λ c. (list : List Specifier) → specifiers_at table.now atoms.now ≡ atoms_of list → c.part ≡ cut (part_with pairs list)) }
    ensures small { IfOk result (λ c. c.part ≤ 2 ^ 31) }
{
    let count = atoms.len();
    let predicates = count_predicates(table, atoms);
    let all = plus(candidates(alloc, table, atoms)?, pairs);
    let scale = power(predicates);
    let rows = times(scale, least_of(power(count - predicates), all));
    let words = cut_at(1 + (count / 64) as u64);
    let part = times(times(scale, all), words);
    Ok(RowCount { rows, part })
}
