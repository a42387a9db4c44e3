// The element types of specifiers are learnt, where that is within a budget.

ghost use Rattle.std.specs.Prelude.{◌≡◌, ◌<◌, ◌^◌, length, map, All, IfOk, MatchBool};
ghost use Rattle.ls_spec.specs.Fits.{Fits};
ghost use Rattle.ls_spec.specs.Entries.{code_specifier};
ghost use Rattle.ls_lists.specs.Costs.{table_specifiers};
ghost use Rattle.ls_intern.specs.Places.{at, specifiers_at, AllBelow, Extends};
ghost use Rattle.ls_cells.specs.Kept.{structures_in, specifiers_in, codes_in, entries_in, Grows};
ghost use Rattle.ls_decide.specs.Sessions.{element_list, Works};
ghost use Rattle.ls_decide.specs.steps.Learning.{AreInnerFirst, HasLearnt, HasPassed};

use crate::cost::cost_with_entries;
use crate::upgrade::learn_all;
use ls_cells::Store;
use ls_intern::Id;
use ls_memo::Steps;
use ls_object::{Code, TABLE_LEN};
use ls_spec::of_code;
use std::alloc::{AllocError, Global};
use std::sync::ledger::Ledger;

/// Puts an entry of the upgrading table into the store.
fn intern_entry(alloc: Global, store: &mut Store, code: Code) -> Result<Id, AllocError>
    ensures structures { structures_in store.new ≡ structures_in store.old }
    ensures codes { codes_in store.new ≡ codes_in store.old }
    ensures kept { entries_in store.new ≡ entries_in store.old }
    ensures grows { Extends (specifiers_in store.old) (specifiers_in store.new) }
    ensures within { IfOk result (λ id. id < length (specifiers_in store.new)) }
    ensures is { IfOk result (λ id. at (specifiers_in store.new) id ≡ code_specifier code.index) }
{
    let entry = of_code(alloc, code)?;
    store.intern(&entry)
}

/// The entries of the upgrading table, in order.
fn intern_entries(alloc: Global, store: &mut Store) -> Result<Vec<Id>, AllocError>
    ensures structures { structures_in store.new ≡ structures_in store.old }
    ensures codes { codes_in store.new ≡ codes_in store.old }
    ensures kept { entries_in store.new ≡ entries_in store.old }
    ensures grows { Extends (specifiers_in store.old) (specifiers_in store.new) }
    ensures below { IfOk result (λ ids. AllBelow (length (specifiers_in store.new)) ids.items) }
    ensures are { IfOk result (λ ids. specifiers_at (specifiers_in store.new) ids.items ≡ table_specifiers) }
{
    let mut ids = Vec::new(alloc);
    for index in 0..TABLE_LEN {
        let id = intern_entry(alloc, store, Code { index: index as u8 })?;
        ids.push(id)?;
    }
    Ok(ids)
}

/// Learns the codes of element types, each of which stands behind those in it. It answers whether that is within the
/// budget; where it isn't, nothing is made.
pub(crate) fn learn_within<L: Ledger>(
    alloc: Global,
    store: &mut Store,
    elements: &[Id],
    budget: u64,
    steps: &mut Steps<L>,
) -> Result<bool, AllocError>
    requires elements { AllBelow (length (specifiers_in store.old)) elements.now }
    requires fit { All (Fits (structures_in store.old)) (specifiers_at (specifiers_in store.old) elements.now) }
    requires inner { AreInnerFirst (specifiers_at (specifiers_in store.old) elements.now) }
    requires budget { budget < 2 ^ 31 }
    ensures structures { structures_in store.new ≡ structures_in store.old }
    ensures grows { Extends (specifiers_in store.old) (specifiers_in store.new) }
    ensures codes { Grows (codes_in store.old) (codes_in store.new) }
    ensures works { Works (map element_list (specifiers_at (specifiers_in store.old) elements.now))
        (entries_in store.old) (entries_in store.new) steps.old steps.new }
    ensures done { IfOk result (λ within. MatchBool within
        (HasLearnt (specifiers_at (specifiers_in store.old) elements.now) budget (codes_in store.new)
        (entries_in store.old) (entries_in store.new))
        (HasPassed (specifiers_at (specifiers_in store.old) elements.now) budget
        (entries_in store.old) (entries_in store.new) steps.old steps.new)) }
{
    if elements.is_empty() {
        return Ok(true);
    }
    let entries = intern_entries(alloc, store)?;
    match cost_with_entries(alloc, store.table(), elements, entries.as_slice(), budget)? {
        None => Ok(false),
        Some(_) => {
            learn_all(alloc, store, elements, entries.as_slice(), steps)?;
            Ok(true)
        }
    }
}
