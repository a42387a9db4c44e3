// What a decision costs, over a table of specifiers by number.

ghost use Rattle.std.specs.Prelude.{◌≡◌, ◌<◌, ◌≤◌, ◌^◌, ◌∷◌, ◌||◌, ℕ, length, map, IfOk, OnOk};
ghost use Rattle.std.specs.List.{flat_map, sum_by};
ghost use Rattle.ls_spec.specs.Meaning.{specifier};
ghost use Rattle.ls_spec.specs.Approximation.{low, high, has_free_predicate as is_free};
ghost use Rattle.ls_spec.specs.Distinct.{distinct};
ghost use Rattle.ls_spec.specs.Entries.{code_specifier};
ghost use Rattle.ls_lists.specs.Walks.{sum};
ghost use Rattle.ls_lists.specs.Costs.{elements_in, element_lists, predicate_lists, table_specifiers};
ghost use Rattle.ls_intern.specs.Places.{at, specifiers_at, AllBelow, Extends};
ghost use Rattle.ls_decide.specs.Answers.{TellsCost};
ghost use Rattle.ls_decide.specs.steps.Cut.{cut};
ghost use Rattle.ls_sides.specs.Gathering.{Gathers};

use crate::counting::Counting;
use ls_intern::{Id, Table};
use ls_object::{Code, TABLE_LEN};
use ls_sides::{Ids, add, branches, cons_sides, distinct_of, element};
use ls_spec::{Spec, of_code};
use std::alloc::{AllocError, Global};

/// The number, or None where it is more than the budget.
fn within(n: u64, budget: u64) -> Option<u64>
    requires { budget < 2 ^ 31 }
    ensures { (cost : ℕ) → n ≡ cut cost → TellsCost budget cost result }
{
    if n <= budget { Some(n) } else { None }
}

/// What a list costs, or None where that is more than the budget.
pub fn cost_of_list(
    alloc: Global,
    table: &Table,
    list: &[Id],
    budget: u64,
) -> Result<Option<u64>, AllocError>
    requires list { AllBelow (length table.now) list.now }
    requires budget { budget < 2 ^ 31 }
    ensures { IfOk result (TellsCost budget (sum (specifiers_at table.now list.now))) }
{
    let mut counting = Counting::new(alloc);
    match counting.visit(alloc, table, list, budget)? {
        None => Ok(None),
        Some(_) => Ok(within(counting.total, budget)),
    }
}

/// Puts in the element specifiers anywhere in a specifier that are not there, each behind those in it.
fn add_elements(table: &Table, id: Id, out: &mut Ids) -> Result<(), AllocError>
    requires id { id < length table.now }
    requires out { AllBelow (length table.now) out.old }
    ensures { OnOk result (Gathers table.now out.old out.new (elements_in (at table.now id))) }
{
    let node = table.node(id);
    if let Some(element) = element(node) {
        add_elements(table, element, out)?;
        return add(table, element, out);
    }
    if let Some((car, cdr)) = cons_sides(node) {
        add_elements(table, car, out)?;
        return add_elements(table, cdr, out);
    }
    match branches(node) {
        None => Ok(()),
        Some(parts) => {
            for part in parts {
                add_elements(table, *part, out)?;
            }
            Ok(())
        }
    }
}

/// The distinct element specifiers anywhere in the specifiers, each behind those in it.
pub(crate) fn elements_of(alloc: Global, table: &Table, list: &[Id]) -> Result<Ids, AllocError>
    requires { AllBelow (length table.now) list.now }
    ensures below { IfOk result (λ ids. AllBelow (length table.now) ids) }
    ensures are { IfOk result (λ ids. specifiers_at table.now ids ≡ distinct (flat_map elements_in (specifiers_at table.now list.now))) }
{
    let mut out = Ids::new(alloc);
    for id in list {
        add_elements(table, *id, &mut out)?;
    }
    Ok(out)
}

/// What each of the specifiers costs, in a list with the entries, all together.
pub(crate) fn cost_with_entries(
    alloc: Global,
    table: &Table,
    elements: &[Id],
    entries: &[Id],
    budget: u64,
) -> Result<Option<u64>, AllocError>
    requires elements { AllBelow (length table.now) elements.now }
    requires entries { AllBelow (length table.now) entries.now }
    requires budget { budget < 2 ^ 31 }
    ensures { IfOk result (TellsCost budget (sum_by (λ e. sum (distinct (e ∷ specifiers_at table.now entries.now))) (specifiers_at table.now elements.now))) }
{
    let mut n = 0;
    for element in elements {
        let list = distinct_of(alloc, table, *element, entries)?;
        let Some(more) = cost_of_list(alloc, table, list.as_slice(), budget - n)? else {
            return Ok(None);
        };
        n += more;
    }
    Ok(Some(n))
}

/// What the upgraded codes of the element specifiers in the list cost.
pub fn cost_of_elements(
    alloc: Global,
    table: &Table,
    list: &[Id],
    entries: &[Id],
    budget: u64,
) -> Result<Option<u64>, AllocError>
    requires list { AllBelow (length table.now) list.now }
    requires below { AllBelow (length table.now) entries.now }
    requires entries { specifiers_at table.now entries.now ≡ table_specifiers }
    requires budget { budget < 2 ^ 31 }
    ensures { IfOk result (TellsCost budget (sum_by sum (element_lists (specifiers_at table.now list.now)))) }
{
    let elements = elements_of(alloc, table, list)?;
    cost_with_entries(alloc, table, elements.as_slice(), entries, budget)
}

/// Whether a predicate stands in one of the two outside element types.
pub(crate) fn has_free_predicate(a: &Spec, b: &Spec) -> bool
    ensures { result ≡ (is_free (specifier a.now) || is_free (specifier b.now)) }
{
    a.has_free_predicate() || b.has_free_predicate()
}

/// Puts what surely belongs to the type into the table.
fn add_low(alloc: Global, table: &mut Table, s: &Spec) -> Result<Id, AllocError>
    ensures grows { Extends table.old table.new }
    ensures within { IfOk result (λ id. id < length table.new) }
    ensures is { IfOk result (λ id. at table.new id ≡ low (specifier s.now)) }
{
    let lower = s.low(alloc)?;
    table.add(&lower)
}

/// Puts what may belong to the type into the table.
fn add_high(alloc: Global, table: &mut Table, s: &Spec) -> Result<Id, AllocError>
    ensures grows { Extends table.old table.new }
    ensures within { IfOk result (λ id. id < length table.new) }
    ensures is { IfOk result (λ id. at table.new id ≡ high (specifier s.now)) }
{
    let upper = s.high(alloc)?;
    table.add(&upper)
}

/// What the comparison of what surely belongs to the first type with what may belong to the second costs, where a
/// predicate decides.
pub fn cost_of_predicates(
    alloc: Global,
    table: &mut Table,
    a: &Spec,
    b: &Spec,
    budget: u64,
) -> Result<Option<u64>, AllocError>
    requires { budget < 2 ^ 31 }
    ensures { IfOk result (TellsCost budget (sum_by sum (predicate_lists (specifier a.now) (specifier b.now)))) }
{
    if !has_free_predicate(a, b) {
        return Ok(Some(0));
    }
    let lower = add_low(alloc, table, a)?;
    let upper = add_high(alloc, table, b)?;
    let list = distinct_of(alloc, table, lower, &[upper])?;
    cost_of_list(alloc, table, list.as_slice(), budget)
}

/// Puts an entry of the upgrading table into the table.
fn add_entry(alloc: Global, table: &mut Table, code: Code) -> Result<Id, AllocError>
    ensures grows { Extends table.old table.new }
    ensures within { IfOk result (λ id. id < length table.new) }
    ensures is { IfOk result (λ id. at table.new id ≡ code_specifier code.index) }
{
    let entry = of_code(alloc, code)?;
    table.add(&entry)
}

/// The entries of the upgrading table, in order.
pub fn add_entries(alloc: Global, table: &mut Table) -> Result<Vec<Id>, AllocError>
    ensures grows { Extends table.old table.new }
    ensures below { IfOk result (λ ids. AllBelow (length table.new) ids.items) }
    ensures are { IfOk result (λ ids. specifiers_at table.new ids.items ≡ table_specifiers) }
{
    let mut ids = Vec::new(alloc);
    for index in 0..TABLE_LEN {
        let id = add_entry(alloc, table, Code { index: index as u8 })?;
        ids.push(id)?;
    }
    Ok(ids)
}
