// The rows of all objects but conses.

ghost use Rattle.std.specs.Prelude.{ℕ, ◌≡◌, ◌≤◌, ◌+◌, ◌<◌, ◌↔◌, map, length, All, IfOk, OnOk};
ghost use Rattle.std.specs.List.{AllByRecursion};
ghost use Rattle.ls_object.specs.Universe.{LispObject, Structures, IsObject, IsPlain, plain};
ghost use Rattle.ls_object.specs.Meaning.{lisp_object};
ghost use Rattle.ls_spec.specs.declared.spec.Spec.{Spec};
ghost use Rattle.ls_spec.specs.Meaning.{specifier};
ghost use Rattle.ls_spec.specs.Membership.{Belongs};
ghost use Rattle.ls_spec.specs.Truth.{Learnt, IsLearnt};
ghost use Rattle.ls_points.specs.Members as members;
ghost use Rattle.ls_lists.specs.Candidates.{candidates_of_atoms};
ghost use Rattle.ls_cells.specs.Cells.{signs_at, AddsRows, IsNoCons};
ghost use Rattle.ls_cells.specs.Rows.{AreLong};
ghost use Rattle.ls_cells.specs.steps.Asking.{AreAskedBy};
ghost use Rattle.ls_cells.specs.steps.Classes.{IsItself};
ghost use Rattle.ls_cells.specs.steps.Idle.{IsOf};
ghost use Rattle.ls_cells.specs.steps.Index.{IsIndexOf};

use crate::arrays::push_arrays;
use crate::idle::{Class, is_idle, push_idle};
use crate::index::Index;
use crate::origin::Origin;
use crate::rows::{Row, Rows};
use crate::signs::Signs;
use ls_arrays::ArrayAtom;
use ls_memo::Steps;
use ls_object::{Items, Object};
use ls_points::{CharRegions, NumberRegions, OpaqueRegions, StructRegions, SymbolRegions};
use ls_spec::{Regions, Spec};
use std::alloc::{AllocError, Global};
use std::sync::ledger::Ledger;

/// The truth value of each atom at an object of the class. Only the atoms that the index does not name are tested.
fn signs_of_object<R: Regions<Atom = Spec>>(
    alloc: Global,
    regions: &R,
    atoms: &[Spec],
    index: &Index,
    object: &Object,
) -> Result<Signs, AllocError>
    requires class { R.IsOfClass regions.now (lisp_object object.now) }
    requires index { IsIndexOf (map specifier atoms.now) (length atoms.now) index.now }
    requires meaning { (structures : Structures) (a : Spec) (o : LispObject)
        → R.IsIn structures a o ↔ Belongs structures (specifier a) o }
    ensures long { IfOk result (λ signs. length signs ≡ length atoms.now) }
    ensures signs { IfOk result (λ signs. (structures : Structures) (learnt : Learnt) → R.IsOver regions.now structures
        → All (IsLearnt structures learnt) (map specifier atoms.now)
        → signs ≡ signs_at learnt (map specifier atoms.now) (plain (lisp_object object.now))) }
{
    let mut signs = index.found(alloc, atoms.len(), object)?;
    for place in index.others() {
        signs.set(*place, regions.holds(&atoms[*place], object));
    }
    Ok(signs)
}

/// Adds the row of one object of the class, which has no marks. It makes at most one step.
fn push_object<R: Regions<Atom = Spec>, L: Ledger>(
    alloc: Global,
    regions: &R,
    atoms: &[Spec],
    index: &Index,
    object: Object,
    rows: &mut Rows,
    steps: &mut Steps<L>,
) -> Result<(), AllocError>
    requires class { R.IsOfClass regions.now (lisp_object object) }
    requires plain { IsPlain (lisp_object object) }
    requires index { IsIndexOf (map specifier atoms.now) (length atoms.now) index.now }
    requires meaning { (structures : Structures) (a : Spec) (o : LispObject)
        → R.IsIn structures a o ↔ Belongs structures (specifier a) o }
    ensures rises { steps.old ≤ steps.new }
    ensures most { steps.new ≤ steps.old + 1 }
    ensures fewer { length rows.new + steps.old ≤ length rows.old + steps.new }
    ensures long { AreLong (length atoms.now) rows.old → AreLong (length atoms.now) rows.new }
    ensures rows { OnOk result ((structures : Structures) (learnt : Learnt) → R.IsOver regions.now structures
        → IsObject structures (lisp_object object)
        → All (IsLearnt structures learnt) (map specifier atoms.now)
        → AddsRows structures learnt (map specifier atoms.now) (IsItself (lisp_object object)) rows.old rows.new) }
{
    let signs = signs_of_object(alloc, regions, atoms, index, &object)?;
    // Most objects of a class have the truth values of one before them.
    if let Some(_) = rows.find(&signs) {
        return Ok(());
    }
    let origin = Origin::of_object(alloc, object)?;
    rows.add(Row { signs, origin }, steps)?;
    Ok(())
}

/// Adds the rows of the objects that stand for a class.
fn push_reps<R: Regions<Atom = Spec>, L: Ledger>(
    alloc: Global,
    regions: &R,
    atoms: &Items<Spec>,
    index: &Index,
    rows: &mut Rows,
    steps: &mut Steps<L>,
) -> Result<(), AllocError>
    requires flat { (o : LispObject) → R.IsOfClass regions.now o → IsNoCons o }
    requires fit { AllByRecursion (R.IsFit regions.now) atoms.now }
    requires index { IsIndexOf (map specifier atoms.now) (length atoms.now) index.now }
    requires meaning { (structures : Structures) (a : Spec) (o : LispObject)
        → R.IsIn structures a o ↔ Belongs structures (specifier a) o }
    ensures rises { steps.old ≤ steps.new }
    ensures most { steps.new ≤ steps.old + R.limit atoms.now }
    ensures fewer { length rows.new + steps.old ≤ length rows.old + steps.new }
    ensures long { AreLong (length atoms.now) rows.old → AreLong (length atoms.now) rows.new }
    ensures rows { OnOk result ((structures : Structures) (learnt : Learnt) → R.IsOver regions.now structures
        → All (IsLearnt structures learnt) (map specifier atoms.now)
        → AddsRows structures learnt (map specifier atoms.now) (R.IsOfClass regions.now) rows.old rows.new) }
{
    let mut reps = regions.reps(alloc, atoms)?;
    let these = atoms.as_slice();
    while let Some(object) = reps.pop() {
        push_object(alloc, regions, these, index, object, rows, steps)?;
    }
    Ok(())
}

/// Adds the rows of the objects of a class: one for each of those that stand for it, or one in all where no atom can
/// hold in the class.
fn push_class<R: Regions<Atom = Spec>, L: Ledger>(
    alloc: Global,
    class: Class,
    regions: &R,
    atoms: &Items<Spec>,
    index: &Index,
    rows: &mut Rows,
    steps: &mut Steps<L>,
) -> Result<(), AllocError>
    requires class { (o : LispObject) → R.IsOfClass regions.now o → IsOf class o }
    requires room { 1 ≤ R.limit atoms.now }
    requires fit { AllByRecursion (R.IsFit regions.now) atoms.now }
    requires index { IsIndexOf (map specifier atoms.now) (length atoms.now) index.now }
    requires meaning { (structures : Structures) (a : Spec) (o : LispObject)
        → R.IsIn structures a o ↔ Belongs structures (specifier a) o }
    ensures rises { steps.old ≤ steps.new }
    ensures most { steps.new ≤ steps.old + R.limit atoms.now }
    ensures fewer { length rows.new + steps.old ≤ length rows.old + steps.new }
    ensures long { AreLong (length atoms.now) rows.old → AreLong (length atoms.now) rows.new }
    ensures rows { OnOk result ((structures : Structures) (learnt : Learnt) → R.IsOver regions.now structures
        → All (IsLearnt structures learnt) (map specifier atoms.now)
        → AddsRows structures learnt (map specifier atoms.now) (R.IsOfClass regions.now) rows.old rows.new) }
{
    if is_idle(class, atoms.as_slice()) {
        return push_idle(alloc, class, atoms, rows, steps);
    }
    push_reps(alloc, regions, atoms, index, rows, steps)
}

/// Adds the rows of all objects but conses. An error comes for want of memory; the rows are then some of them.
pub(crate) fn push_flat<L: Ledger>(
    alloc: Global,
    structs: &StructRegions,
    atoms: &Items<Spec>,
    asked: &Items<ArrayAtom>,
    rows: &mut Rows,
    steps: &mut Steps<L>,
) -> Result<(), AllocError>
    requires fit { AllByRecursion (members.IsFitIn structs.now) atoms.now }
    requires asked { AreAskedBy structs.now (map specifier atoms.now) asked.now }
    ensures rises { steps.old ≤ steps.new }
    ensures most { steps.new ≤ steps.old + candidates_of_atoms (map specifier atoms.now) }
    ensures fewer { length rows.new + steps.old ≤ length rows.old + steps.new }
    ensures long { AreLong (length atoms.now) rows.old → AreLong (length atoms.now) rows.new }
    ensures rows { OnOk result ((learnt : Learnt) → All (IsLearnt structs.now learnt) (map specifier atoms.now)
        → AddsRows structs.now learnt (map specifier atoms.now) IsNoCons rows.old rows.new) }
{
    let index = Index::of_atoms(alloc, atoms.as_slice())?;
    push_class(
        alloc,
        Class::Numbers,
        &NumberRegions,
        atoms,
        &index,
        rows,
        steps,
    )?;
    push_class(
        alloc,
        Class::Characters,
        &CharRegions,
        atoms,
        &index,
        rows,
        steps,
    )?;
    push_class(
        alloc,
        Class::Symbols,
        &SymbolRegions,
        atoms,
        &index,
        rows,
        steps,
    )?;
    push_class(
        alloc,
        Class::Opaques,
        &OpaqueRegions,
        atoms,
        &index,
        rows,
        steps,
    )?;
    push_class(alloc, Class::Structs, structs, atoms, &index, rows, steps)?;
    push_arrays(alloc, atoms, asked, rows, steps)?;
    Ok(())
}
