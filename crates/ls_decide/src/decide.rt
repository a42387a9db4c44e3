// The decision on a pair of types, over what a store keeps.

ghost use Rattle.std.specs.Prelude.{◌≡◌, ◌≤◌, ◌+◌, ◌^◌, IfOk};
ghost use Rattle.ls_spec.specs.Meaning.{specifier};
ghost use Rattle.ls_spec.specs.Fits.{Fits};
ghost use Rattle.ls_lists.specs.Costs.{pair_cost, pair_lists, upgrade_cost, upgrade_lists};
ghost use Rattle.ls_cells.specs.Kept.{structures_in, entries_in};
ghost use Rattle.ls_decide.specs.Answers.{IsRight, IsPlainAnswer, IsUpgraded};
ghost use Rattle.ls_decide.specs.Sessions.{Works, HasDone, HasUpgraded, IsPaid};

use crate::answer::Answer;
use crate::cost::elements_of;
use crate::learn::learn_within;
use crate::pairs::{cost_of_pairs, decide_by_pairs, intern_pairs};
use ls_cells::Store;
use ls_memo::Steps;
use ls_object::Code;
use ls_sides::add;
use ls_spec::Spec;
use std::alloc::{AllocError, Global};
use std::sync::ledger::Ledger;

/// Whether every object of the first type belongs to the second, or TooLarge where that costs more than the budget. The
/// cost is counted over the store's own table: that of the list of both, of the list of their bounds where predicates
/// decide, and of the element types in them, which are learnt first.
pub(crate) fn decide<L: Ledger>(
    alloc: Global,
    store: &mut Store,
    a: &Spec,
    b: &Spec,
    budget: u64,
    steps: &mut Steps<L>,
) -> Result<Answer, AllocError>
    requires first { Fits (structures_in store.old) (specifier a.now) }
    requires second { Fits (structures_in store.old) (specifier b.now) }
    requires budget { budget ≤ 2 ^ 30 }
    ensures structures { structures_in store.new ≡ structures_in store.old }
    ensures right { IfOk result (IsRight (structures_in store.old) (specifier a.now) (specifier b.now) budget) }
    ensures plain { IfOk result IsPlainAnswer }
    ensures works { Works (pair_lists (specifier a.now) (specifier b.now))
        (entries_in store.old) (entries_in store.new) steps.old steps.new }
    ensures cost { steps.new ≤ steps.old + pair_cost (specifier a.now) (specifier b.now) }
    ensures done { IfOk result (HasDone (specifier a.now) (specifier b.now)
        (entries_in store.old) (entries_in store.new) steps.old steps.new) }
    ensures paid { IfOk result (λ answer. IsPaid (entries_in store.old) (entries_in store.new) steps.old steps.new) }
{
    // Its contract says that where a list is kept, so are those that it reaches.
    let _closed = store.table();
    let pairs = intern_pairs(alloc, store, a, b)?;
    let Some(own) = cost_of_pairs(alloc, store.table(), &pairs, budget)? else {
        return Ok(Answer::TooLarge);
    };
    let elements = elements_of(alloc, store.table(), &[pairs.own.first, pairs.own.second])?;
    if !learn_within(alloc, store, elements.as_slice(), budget - own, steps)? {
        return Ok(Answer::TooLarge);
    }
    Ok(decide_by_pairs(alloc, store, &pairs, steps)?)
}

/// The upgraded code of an element type, or None where finding it costs more than the budget.
pub(crate) fn upgrade<L: Ledger>(
    alloc: Global,
    store: &mut Store,
    e: &Spec,
    budget: u64,
    steps: &mut Steps<L>,
) -> Result<Option<Code>, AllocError>
    requires fits { Fits (structures_in store.old) (specifier e.now) }
    requires budget { budget ≤ 2 ^ 30 }
    ensures structures { structures_in store.new ≡ structures_in store.old }
    ensures right { IfOk result (IsUpgraded (structures_in store.old) (specifier e.now) budget) }
    ensures works { Works (upgrade_lists (specifier e.now))
        (entries_in store.old) (entries_in store.new) steps.old steps.new }
    ensures cost { steps.new ≤ steps.old + upgrade_cost (specifier e.now) }
    ensures done { IfOk result (HasUpgraded (upgrade_lists (specifier e.now))
        (entries_in store.old) (entries_in store.new) steps.old steps.new) }
    ensures paid { IfOk result (λ code. IsPaid (entries_in store.old) (entries_in store.new) steps.old steps.new) }
{
    // Its contract says that where a list is kept, so are those that it reaches.
    let _closed = store.table();
    let element = store.intern(e)?;
    let mut elements = elements_of(alloc, store.table(), &[element])?;
    add(store.table(), element, &mut elements)?;
    if !learn_within(alloc, store, elements.as_slice(), budget, steps)? {
        return Ok(None);
    }
    Ok(store.code(element))
}
