// Pairs of types in a store, with their bounds.

ghost use Rattle.std.specs.Prelude.{◌≡◌, ◌<◌, ◌^◌, ◌∷◌, [], IfOk, IfSome};
ghost use Rattle.std.specs.List.{sum_by};
ghost use Rattle.ls_object.specs.Universe.{IsPlain};
ghost use Rattle.ls_object.specs.Meaning.{lisp_object};
ghost use Rattle.ls_spec.specs.Meaning.{specifier};
ghost use Rattle.ls_spec.specs.Fits.{Fits};
ghost use Rattle.ls_lists.specs.Walks.{sum};
ghost use Rattle.ls_intern.specs.Places.{Extends};
ghost use Rattle.ls_cells.specs.Codes.{HasCodes};
ghost use Rattle.ls_cells.specs.Kept.{structures_in, specifiers_in, codes_in, entries_in};
ghost use Rattle.ls_decide.specs.Answers.{IsPlainAnswer, TellsCost};
ghost use Rattle.ls_decide.specs.Sessions.{pair_list, Works, HasMade, IsPaid};
ghost use Rattle.ls_decide.specs.steps.Comparing.{IsFound, IsRightWithin};
ghost use Rattle.ls_decide.specs.steps.Pairs.{first_of, second_of, IsPairOf, AreBoundsOf, ArePairsOf, compared_lists, lists_behind};

use crate::answer::Answer;
use crate::compare::outside;
use crate::cost::{cost_of_list, has_free_predicate};
use ls_cells::Store;
use ls_intern::{Id, Table};
use ls_memo::Steps;
use ls_object::Object;
use ls_sides::{Ids, distinct_of};
use ls_spec::Spec;
use std::alloc::{AllocError, Global};
use std::sync::ledger::Ledger;

/// Two types by number, with the distinct list of both, by which they are compared.
#[derive(Drop)]
pub(crate) struct Pair {
    pub first: Id,
    pub second: Id,
    pub list: Ids,
}

/// A pair of types, and where a predicate stands in one of them outside element types the pair of their bounds: of what
/// surely belongs to the first, and of what may belong to the second.
#[derive(Drop)]
pub(crate) struct Pairs {
    pub own: Pair,
    pub bounds: Option<Pair>,
}

/// Puts both types into the store.
fn intern_pair(alloc: Global, store: &mut Store, a: &Spec, b: &Spec) -> Result<Pair, AllocError>
    ensures structures { structures_in store.new ≡ structures_in store.old }
    ensures codes { codes_in store.new ≡ codes_in store.old }
    ensures kept { entries_in store.new ≡ entries_in store.old }
    ensures grows { Extends (specifiers_in store.old) (specifiers_in store.new) }
    ensures is { IfOk result (λ pair. IsPairOf (specifiers_in store.new) pair (specifier a.now) (specifier b.now)) }
{
    let first = store.intern(a)?;
    let second = store.intern(b)?;
    let list = distinct_of(alloc, store.table(), first, &[second])?;
    Ok(Pair {
        first,
        second,
        list,
    })
}

/// Puts what surely belongs to the first type and what may belong to the second into the store, where a predicate
/// stands in one of them outside element types.
fn intern_bounds(
    alloc: Global,
    store: &mut Store,
    a: &Spec,
    b: &Spec,
) -> Result<Option<Pair>, AllocError>
    ensures structures { structures_in store.new ≡ structures_in store.old }
    ensures codes { codes_in store.new ≡ codes_in store.old }
    ensures kept { entries_in store.new ≡ entries_in store.old }
    ensures grows { Extends (specifiers_in store.old) (specifiers_in store.new) }
    ensures are { IfOk result (λ bounds. AreBoundsOf (specifiers_in store.new) bounds (specifier a.now) (specifier b.now)) }
{
    if !has_free_predicate(a, b) {
        return Ok(None);
    }
    let low = a.low(alloc)?;
    let high = b.high(alloc)?;
    let bounds = intern_pair(alloc, store, &low, &high)?;
    Ok(Some(bounds))
}

/// Puts both types and their bounds into the store.
pub(crate) fn intern_pairs(
    alloc: Global,
    store: &mut Store,
    a: &Spec,
    b: &Spec,
) -> Result<Pairs, AllocError>
    ensures structures { structures_in store.new ≡ structures_in store.old }
    ensures codes { codes_in store.new ≡ codes_in store.old }
    ensures kept { entries_in store.new ≡ entries_in store.old }
    ensures grows { Extends (specifiers_in store.old) (specifiers_in store.new) }
    ensures are { IfOk result (λ pairs. ArePairsOf (specifiers_in store.new) pairs (specifier a.now) (specifier b.now)) }
{
    let own = intern_pair(alloc, store, a, b)?;
    let bounds = intern_bounds(alloc, store, a, b)?;
    Ok(Pairs { own, bounds })
}

/// What the lists of both pairs cost together, or None where that is more than the budget.
pub(crate) fn cost_of_pairs(
    alloc: Global,
    table: &Table,
    pairs: &Pairs,
    budget: u64,
) -> Result<Option<u64>, AllocError>
    requires pairs { ArePairsOf table.now pairs.now (first_of table.now pairs.now.own) (second_of table.now pairs.now.own) }
    requires budget { budget < 2 ^ 31 }
    ensures { IfOk result (TellsCost budget
        (sum_by sum (compared_lists (first_of table.now pairs.now.own) (second_of table.now pairs.now.own)))) }
{
    let Some(own) = cost_of_list(alloc, table, pairs.own.list.as_slice(), budget)? else {
        return Ok(None);
    };
    let Some(bounds) = &pairs.bounds else {
        return Ok(Some(own));
    };
    let Some(more) = cost_of_list(alloc, table, bounds.list.as_slice(), budget - own)? else {
        return Ok(None);
    };
    Ok(Some(own + more))
}

/// The plain form of an object that is in the first of two types and not in the second, or None where the first is
/// included in the second. It makes the rows of the list of both.
fn find_outside<L: Ledger>(
    alloc: Global,
    store: &mut Store,
    pair: &Pair,
    steps: &mut Steps<L>,
) -> Result<Option<Object>, AllocError>
    requires pair { IsPairOf (specifiers_in store.old) pair.now
        (first_of (specifiers_in store.old) pair.now) (second_of (specifiers_in store.old) pair.now) }
    requires first_fits { Fits (structures_in store.old) (first_of (specifiers_in store.old) pair.now) }
    requires second_fits { Fits (structures_in store.old) (second_of (specifiers_in store.old) pair.now) }
    requires first_learnt { HasCodes (codes_in store.old) (first_of (specifiers_in store.old) pair.now) }
    requires second_learnt { HasCodes (codes_in store.old) (second_of (specifiers_in store.old) pair.now) }
    ensures structures { structures_in store.new ≡ structures_in store.old }
    ensures specifiers { specifiers_in store.new ≡ specifiers_in store.old }
    ensures codes { codes_in store.new ≡ codes_in store.old }
    ensures right { IfOk result (IsFound (structures_in store.old)
        (first_of (specifiers_in store.old) pair.now) (second_of (specifiers_in store.old) pair.now)) }
    ensures plain { IfOk result (λ found. IfSome found (λ o. IsPlain (lisp_object o))) }
    ensures works { Works
        (pair_list (first_of (specifiers_in store.old) pair.now) (second_of (specifiers_in store.old) pair.now) ∷ [])
        (entries_in store.old) (entries_in store.new) steps.old steps.new }
    ensures done { IfOk result (λ found. HasMade
        (pair_list (first_of (specifiers_in store.old) pair.now) (second_of (specifiers_in store.old) pair.now) ∷ [])
        (entries_in store.old) (entries_in store.new)) }
{
    let list = pair.list.as_slice();
    store.fill(list, steps)?;
    Ok(outside(
        alloc,
        store.table(),
        store.cells(list),
        pair.first,
        pair.second,
    )?)
}

/// Whether every object of the first of two types belongs to the second. Where one doesn't and predicates decide, the
/// bounds tell whether one doesn't whatever they mean.
pub(crate) fn decide_by_pairs<L: Ledger>(
    alloc: Global,
    store: &mut Store,
    pairs: &Pairs,
    steps: &mut Steps<L>,
) -> Result<Answer, AllocError>
    requires pairs { ArePairsOf (specifiers_in store.old) pairs.now
        (first_of (specifiers_in store.old) pairs.now.own) (second_of (specifiers_in store.old) pairs.now.own) }
    requires first_fits { Fits (structures_in store.old) (first_of (specifiers_in store.old) pairs.now.own) }
    requires second_fits { Fits (structures_in store.old) (second_of (specifiers_in store.old) pairs.now.own) }
    requires first_learnt { HasCodes (codes_in store.old) (first_of (specifiers_in store.old) pairs.now.own) }
    requires second_learnt { HasCodes (codes_in store.old) (second_of (specifiers_in store.old) pairs.now.own) }
    ensures structures { structures_in store.new ≡ structures_in store.old }
    ensures right { IfOk result (IsRightWithin (structures_in store.old)
        (first_of (specifiers_in store.old) pairs.now.own) (second_of (specifiers_in store.old) pairs.now.own)) }
    ensures plain { IfOk result IsPlainAnswer }
    ensures works { Works
        (compared_lists (first_of (specifiers_in store.old) pairs.now.own) (second_of (specifiers_in store.old) pairs.now.own))
        (entries_in store.old) (entries_in store.new) steps.old steps.new }
    ensures done { IfOk result (λ answer. HasMade
        (lists_behind (first_of (specifiers_in store.old) pairs.now.own) (second_of (specifiers_in store.old) pairs.now.own) answer)
        (entries_in store.old) (entries_in store.new)) }
    ensures paid { IfOk result (λ answer. IsPaid (entries_in store.old) (entries_in store.new) steps.old steps.new) }
{
    let Some(o) = find_outside(alloc, store, &pairs.own, steps)? else {
        return Ok(Answer::Yes);
    };
    let Some(bounds) = &pairs.bounds else {
        return Ok(Answer::No(o));
    };
    let Some(witness) = find_outside(alloc, store, bounds, steps)? else {
        return Ok(Answer::Unsure(o));
    };
    Ok(Answer::No(witness))
}
