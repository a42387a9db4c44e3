// The making of the rows of one list.

ghost use Rattle.std.specs.Prelude.{◌≡◌, ◌≤◌, ◌+◌, ◌*◌, ◌^◌, ℕ, List, length, map, All, IfOk, OnOk};
ghost use Rattle.ls_object.specs.declared.table.Code.{Code};
ghost use Rattle.ls_object.specs.Universe.{Structures};
ghost use Rattle.ls_spec.specs.Specifier.{Specifier};
ghost use Rattle.ls_spec.specs.Meaning.{specifier};
ghost use Rattle.ls_spec.specs.Atoms.{atoms_of};
ghost use Rattle.ls_spec.specs.Truth.{Learnt, IsLearnt};
ghost use Rattle.ls_lists.specs.Sides.{cars_of, cdrs_of};
ghost use Rattle.ls_lists.specs.Candidates.{candidates, predicates};
ghost use Rattle.ls_lists.specs.Walks as walks;
ghost use Rattle.ls_intern.specs.Places.{specifiers_at, AllBelow};
ghost use Rattle.ls_cells.specs.Cells.{IsCons, AreRowsOf, AddsRows};
ghost use Rattle.ls_cells.specs.Rows.{AreLong};
ghost use Rattle.ls_cells.specs.steps.Filling.{MayMake};

use crate::arrays::array_atoms;
use crate::cells::Cells;
use crate::classes::push_flat;
use crate::marks::push_marks;
use crate::pairs::{push_cons, push_pairs};
use crate::rows::Rows;
use ls_intern::{Id, Table};
use ls_memo::{Memo, Steps};
use ls_object::{Code, Items};
use ls_points::StructRegions;
use ls_sides::Sides;
use ls_spec::Spec;
use std::alloc::{AllocError, Global};
use std::sync::ledger::Ledger;

/// The specifiers with these numbers, in order.
fn trees(alloc: Global, table: &Table, ids: &[Id]) -> Result<Items<Spec>, AllocError>
    requires { AllBelow (length table.now) ids.now }
    ensures { IfOk result (λ specs. map specifier specs ≡ specifiers_at table.now ids.now) }
{
    let mut specs = Items::new(alloc);
    for id in ids {
        specs.push(table.tree(*id)?)?;
    }
    Ok(specs)
}

/// Adds the rows of the conses, one for each pair of a row that is kept for the cars and one for the cdrs; where no
/// atom is a CONS, one row.
fn push_conses<L: Ledger>(
    alloc: Global,
    table: &Table,
    sides: &Sides,
    memo: &Memo<Cells>,
    rows: &mut Rows,
    steps: &mut Steps<L>,
) -> Result<(), AllocError>
    requires { AllBelow (length table.now) sides.now.atoms }
    ensures rises { steps.old ≤ steps.new }
    ensures most { (structures : Structures) (list : List Specifier) (codes : List (List ℕ × Code))
        → MayMake structures table.now list sides.now.atoms sides.now.cars sides.now.cdrs codes memo.now
        → steps.new ≤ steps.old + walks.rows (cars_of list) * walks.rows (cdrs_of list) }
    ensures fewer { length rows.new + steps.old ≤ length rows.old + steps.new }
    ensures long { AreLong (length sides.now.atoms) rows.old → AreLong (length sides.now.atoms) rows.new }
    ensures rows { OnOk result ((structures : Structures) (learnt : Learnt) (list : List Specifier)
        (codes : List (List ℕ × Code))
        → MayMake structures table.now list sides.now.atoms sides.now.cars sides.now.cdrs codes memo.now
        → All (IsLearnt structures learnt) (atoms_of list)
        → AddsRows structures learnt (atoms_of list) IsCons rows.old rows.new) }
{
    let atoms = sides.atoms.as_slice();
    let Some(cars) = memo.get(sides.cars.as_slice()) else {
        push_cons(alloc, atoms.len(), rows, steps)?;
        return Ok(());
    };
    let Some(cdrs) = memo.get(sides.cdrs.as_slice()) else {
        push_cons(alloc, atoms.len(), rows, steps)?;
        return Ok(());
    };
    push_pairs(alloc, table, atoms, cars, cdrs, rows, steps)?;
    Ok(())
}

/// The rows of a list with these atoms, cars and cdrs.
pub fn make<L: Ledger>(
    alloc: Global,
    structures: &StructRegions,
    table: &Table,
    codes: &Memo<Code>,
    sides: &Sides,
    memo: &Memo<Cells>,
    steps: &mut Steps<L>,
) -> Result<Rows, AllocError>
    requires { (list : List Specifier)
        × MayMake structures.now table.now list sides.now.atoms sides.now.cars sides.now.cdrs codes.now memo.now }
    ensures rises { steps.old ≤ steps.new }
    ensures most { (list : List Specifier)
        → MayMake structures.now table.now list sides.now.atoms sides.now.cars sides.now.cdrs codes.now memo.now
        → steps.new ≤ steps.old
        + 2 ^ predicates list * (candidates list + walks.rows (cars_of list) * walks.rows (cdrs_of list)) }
    ensures fewer { IfOk result (λ rows. length rows + steps.old ≤ steps.new) }
    ensures rows { IfOk result (λ rows. (learnt : Learnt) (list : List Specifier)
        → MayMake structures.now table.now list sides.now.atoms sides.now.cars sides.now.cdrs codes.now memo.now
        → All (IsLearnt structures.now learnt) (atoms_of list)
        → AreRowsOf structures.now learnt (atoms_of list) rows) }
{
    let mut rows = Rows::new(alloc);
    let atoms = trees(alloc, table, sides.atoms.as_slice())?;
    let asked = array_atoms(alloc, table, codes, sides.atoms.as_slice())?;
    push_flat(alloc, structures, &atoms, &asked, &mut rows, steps)?;
    push_conses(alloc, table, sides, memo, &mut rows, steps)?;
    push_marks(atoms.as_slice(), &mut rows, steps)?;
    Ok(rows)
}
