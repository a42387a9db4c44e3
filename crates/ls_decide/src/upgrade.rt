// The upgraded codes of element types (UPGRADED-ARRAY-ELEMENT-TYPE, 15.1.2.1).

ghost use Rattle.std.specs.Prelude.{◌≡◌, ◌≤◌, ◌<◌, [], ◌∷◌, length, map, All, IsTrue, IfOk, OnOk};
ghost use Rattle.ls_object.specs.Universe.{Structures};
ghost use Rattle.ls_spec.specs.Membership.{UpgradesTo};
ghost use Rattle.ls_spec.specs.Fits.{Fits};
ghost use Rattle.ls_spec.specs.Truth.{Learnt, IsLearnt};
ghost use Rattle.ls_lists.specs.Walks.{among};
ghost use Rattle.ls_lists.specs.Costs.{table_specifiers};
ghost use Rattle.ls_intern.specs.Places.{at, specifiers_at, AllBelow};
ghost use Rattle.ls_cells.specs.Cells.{AreRowsOf};
ghost use Rattle.ls_cells.specs.Codes.{IsKnown, HasCodes};
ghost use Rattle.ls_cells.specs.Kept.{structures_in, specifiers_in, codes_in, entries_in, lists, Grows};
ghost use Rattle.ls_decide.specs.Sessions.{element_list, Works, HasMade};
ghost use Rattle.ls_decide.specs.steps.Comparing.{IsOver};
ghost use Rattle.ls_decide.specs.steps.Learning.{AreInnerFirst};

use crate::compare::place_outside;
use ls_cells::{Cells, Store};
use ls_intern::{Id, Table};
use ls_memo::Steps;
use ls_object::{Code, TABLE_LEN};
use ls_sides::distinct_of;
use std::alloc::{AllocError, Global};
use std::sync::ledger::Ledger;

/// The first entry of the upgrading table that holds every object of the element type, by the rows of the list of the
/// type and the entries. The last entry holds every object.
fn first_holding(
    alloc: Global,
    table: &Table,
    cells: &Cells,
    element: Id,
    entries: &[Id],
) -> Result<Code, AllocError>
    requires element { element < length table.now }
    requires below { AllBelow (length table.now) entries.now }
    requires entries { specifiers_at table.now entries.now ≡ table_specifiers }
    requires over { IsOver (specifiers_at table.now cells.now.atoms) (at table.now element) }
    requires entries_over { All (IsOver (specifiers_at table.now cells.now.atoms)) table_specifiers }
    ensures { IfOk result (λ code. (structures : Structures) (learnt : Learnt)
        → IsLearnt structures learnt (at table.now element)
        → AreRowsOf structures learnt (specifiers_at table.now cells.now.atoms) cells.now.rows
        → UpgradesTo structures (at table.now element) code.index) }
{
    for place in 0..TABLE_LEN - 1 {
        if place_outside(alloc, table, cells, element, entries[place])?.is_none() {
            return Ok(Code { index: place as u8 });
        }
    }
    Ok(Code {
        index: TABLE_LEN as u8 - 1,
    })
}

/// Learns the code of an element type, for which the rows of the list of the type and the entries are kept, unless it
/// is known.
fn learn_code(
    alloc: Global,
    store: &mut Store,
    element: Id,
    entries: &[Id],
    list: &[Id],
) -> Result<(), AllocError>
    requires element { element < length (specifiers_in store.old) }
    requires below { AllBelow (length (specifiers_in store.old)) entries.now }
    requires list_below { AllBelow (length (specifiers_in store.old)) list.now }
    requires entries { specifiers_at (specifiers_in store.old) entries.now ≡ table_specifiers }
    requires list { specifiers_at (specifiers_in store.old) list.now
        ≡ element_list (at (specifiers_in store.old) element) }
    requires kept { IsTrue (among (element_list (at (specifiers_in store.old) element)) (lists (entries_in store.old))) }
    requires learnt { HasCodes (codes_in store.old) (at (specifiers_in store.old) element) }
    ensures structures { structures_in store.new ≡ structures_in store.old }
    ensures specifiers { specifiers_in store.new ≡ specifiers_in store.old }
    ensures entries { entries_in store.new ≡ entries_in store.old }
    ensures codes { Grows (codes_in store.old) (codes_in store.new) }
    ensures known { OnOk result (IsKnown (codes_in store.new) (at (specifiers_in store.old) element)) }
{
    if let Some(_known) = store.code(element) {
        return Ok(());
    }
    let code = first_holding(alloc, store.table(), store.cells(list), element, entries)?;
    store.learn(element, code)
}

/// Learns the code of an element type, all of whose own element types are known.
fn learn_one<L: Ledger>(
    alloc: Global,
    store: &mut Store,
    element: Id,
    entries: &[Id],
    steps: &mut Steps<L>,
) -> Result<(), AllocError>
    requires element { element < length (specifiers_in store.old) }
    requires below { AllBelow (length (specifiers_in store.old)) entries.now }
    requires entries { specifiers_at (specifiers_in store.old) entries.now ≡ table_specifiers }
    requires fits { Fits (structures_in store.old) (at (specifiers_in store.old) element) }
    requires learnt { HasCodes (codes_in store.old) (at (specifiers_in store.old) element) }
    ensures structures { structures_in store.new ≡ structures_in store.old }
    ensures specifiers { specifiers_in store.new ≡ specifiers_in store.old }
    ensures codes { Grows (codes_in store.old) (codes_in store.new) }
    ensures works { Works (element_list (at (specifiers_in store.old) element) ∷ [])
        (entries_in store.old) (entries_in store.new) steps.old steps.new }
    ensures known { OnOk result (IsKnown (codes_in store.new) (at (specifiers_in store.old) element)) }
    ensures done { OnOk result (HasMade (element_list (at (specifiers_in store.old) element) ∷ [])
        (entries_in store.old) (entries_in store.new)) }
{
    let list = distinct_of(alloc, store.table(), element, entries)?;
    store.fill(list.as_slice(), steps)?;
    learn_code(alloc, store, element, entries, list.as_slice())
}

/// Learns the codes of element types, each of which stands behind those in it.
pub(crate) fn learn_all<L: Ledger>(
    alloc: Global,
    store: &mut Store,
    elements: &[Id],
    entries: &[Id],
    steps: &mut Steps<L>,
) -> Result<(), AllocError>
    requires elements { AllBelow (length (specifiers_in store.old)) elements.now }
    requires below { AllBelow (length (specifiers_in store.old)) entries.now }
    requires entries { specifiers_at (specifiers_in store.old) entries.now ≡ table_specifiers }
    requires fit { All (Fits (structures_in store.old)) (specifiers_at (specifiers_in store.old) elements.now) }
    requires inner { AreInnerFirst (specifiers_at (specifiers_in store.old) elements.now) }
    ensures structures { structures_in store.new ≡ structures_in store.old }
    ensures specifiers { specifiers_in store.new ≡ specifiers_in store.old }
    ensures codes { Grows (codes_in store.old) (codes_in store.new) }
    ensures works { Works (map element_list (specifiers_at (specifiers_in store.old) elements.now))
        (entries_in store.old) (entries_in store.new) steps.old steps.new }
    ensures known { OnOk result (All (IsKnown (codes_in store.new))
        (specifiers_at (specifiers_in store.old) elements.now)) }
    ensures done { OnOk result (HasMade (map element_list (specifiers_at (specifiers_in store.old) elements.now))
        (entries_in store.old) (entries_in store.new)) }
{
    for element in elements {
        learn_one(alloc, store, *element, entries, steps)?;
    }
    Ok(())
}
