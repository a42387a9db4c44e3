// The rows of conses.

ghost use Rattle.std.specs.Prelude.{ℕ, ◌≡◌, ◌≤◌, ◌+◌, ◌*◌, [], ◌∷◌, List, All, length, IfOk, OnOk, true};
ghost use Rattle.std.specs.List.{AllByRecursion};
ghost use Rattle.ls_object.specs.Universe.{Structures, IsPlain, node, symbol};
ghost use Rattle.ls_object.specs.Symbols.{nil_symbol};
ghost use Rattle.ls_spec.specs.Specifier.{Specifier};
ghost use Rattle.ls_spec.specs.Atoms.{atoms_of};
ghost use Rattle.ls_spec.specs.Truth.{Learnt};
ghost use Rattle.ls_lists.specs.Sides.{cars_of, cdrs_of};
ghost use Rattle.ls_lists.specs.Walks.{is_none};
ghost use Rattle.ls_intern.specs.Places.{specifiers_at, AllBelow};
ghost use Rattle.ls_cells.specs.Rows.{origin_object, AreLong};
ghost use Rattle.ls_cells.specs.Cells.{AreRowsOf, AddsRows, IsCons};
ghost use Rattle.ls_cells.specs.steps.Pairing.{Crosses};

use crate::cells::Cells;
use crate::half::halves;
use crate::origin::Origin;
use crate::rows::{Row, Rows};
use crate::side::Side;
use crate::signs::Signs;
use ls_intern::{Id, Table};
use ls_memo::Steps;
use ls_object::{Items, Object, Shape, Symbol};
use std::alloc::{AllocError, Global};
use std::rc::Rc;
use std::sync::ledger::Ledger;

// Adds the row of a cons of what the two are made of.
fn push_pair<L: Ledger>(
    alloc: Global,
    car: &Row,
    cdr: &Row,
    rows: &mut Rows,
    steps: &mut Steps<L>,
) -> Result<(), AllocError>
    requires long { length car.now.signs ≡ length cdr.now.signs }
    requires car { IsPlain (origin_object car.now.origin.value) }
    requires cdr { IsPlain (origin_object cdr.now.origin.value) }
    ensures rises { steps.old ≤ steps.new }
    ensures most { steps.new ≤ steps.old + 1 }
    ensures fewer { length rows.new + steps.old ≤ length rows.old + steps.new }
    ensures long { AreLong (length car.now.signs) rows.old → AreLong (length car.now.signs) rows.new }
    ensures rows { OnOk result (Crosses (car.now ∷ []) (cdr.now ∷ []) rows.old rows.new) }
{
    let mut signs = car.signs.copy()?;
    signs.and_with(&cdr.signs);
    // Most pairs have the truth values of one before them.
    if let Some(_) = rows.find(&signs) {
        return Ok(());
    }
    let origin = Origin::of_pair(alloc, &car.origin, &cdr.origin)?;
    rows.add(Row { signs, origin }, steps)?;
    Ok(())
}

// Adds the rows of the conses of the one with each of the others.
fn push_with_car<L: Ledger>(
    alloc: Global,
    car: &Row,
    cdrs: &[Row],
    rows: &mut Rows,
    steps: &mut Steps<L>,
) -> Result<(), AllocError>
    requires long { AllByRecursion (λ cdr. length car.now.signs ≡ length cdr.signs) cdrs.now }
    requires car { IsPlain (origin_object car.now.origin.value) }
    requires cdrs { AllByRecursion (λ cdr. IsPlain (origin_object cdr.origin.value)) cdrs.now }
    ensures rises { steps.old ≤ steps.new }
    ensures most { steps.new ≤ steps.old + length cdrs.now }
    ensures fewer { length rows.new + steps.old ≤ length rows.old + steps.new }
    ensures long { AreLong (length car.now.signs) rows.old → AreLong (length car.now.signs) rows.new }
    ensures rows { OnOk result (Crosses (car.now ∷ []) cdrs.now rows.old rows.new) }
{
    for cdr in cdrs {
        push_pair(alloc, car, cdr, rows, steps)?;
    }
    Ok(())
}

// Adds the rows of the conses of each of the ones with each of the others.
fn push_crossed<L: Ledger>(
    alloc: Global,
    cars: &[Row],
    cdrs: &[Row],
    rows: &mut Rows,
    steps: &mut Steps<L>,
) -> Result<(), AllocError>
    requires long { AllByRecursion
        (λ car. AllByRecursion (λ cdr. length car.signs ≡ length cdr.signs) cdrs.now)
        cars.now }
    requires cars { AllByRecursion (λ car. IsPlain (origin_object car.origin.value)) cars.now }
    requires cdrs { AllByRecursion (λ cdr. IsPlain (origin_object cdr.origin.value)) cdrs.now }
    ensures rises { steps.old ≤ steps.new }
    ensures most { steps.new ≤ steps.old + length cars.now * length cdrs.now }
    ensures fewer { length rows.new + steps.old ≤ length rows.old + steps.new }
    ensures long { (n : ℕ)
        → AllByRecursion (λ car. length car.signs ≡ n) cars.now
        → AreLong n rows.old
        → AreLong n rows.new }
    ensures rows { OnOk result (Crosses cars.now cdrs.now rows.old rows.new) }
{
    for car in cars {
        push_with_car(alloc, car, cdrs, rows, steps)?;
    }
    Ok(())
}

/// Adds the rows of the conses to those of a list: one for each pair of a row of its cars and a row of its cdrs. Each
/// that is new makes a step. An error comes for want of memory.
pub(crate) fn push_pairs<L: Ledger>(
    alloc: Global,
    table: &Table,
    atoms: &[Id],
    cars: &Cells,
    cdrs: &Cells,
    rows: &mut Rows,
    steps: &mut Steps<L>,
) -> Result<(), AllocError>
    requires { AllBelow (length table.now) atoms.now }
    ensures rises { steps.old ≤ steps.new }
    ensures most { steps.new ≤ steps.old + length cars.now.rows * length cdrs.now.rows }
    ensures fewer { length rows.new + steps.old ≤ length rows.old + steps.new }
    ensures long { AreLong (length atoms.now) rows.old → AreLong (length atoms.now) rows.new }
    ensures rows { OnOk result ((structures : Structures) (learnt : Learnt) (list : List Specifier)
        → specifiers_at table.now atoms.now ≡ atoms_of list
        → specifiers_at table.now cars.now.atoms ≡ atoms_of (cars_of list)
        → specifiers_at table.now cdrs.now.atoms ≡ atoms_of (cdrs_of list)
        → AreRowsOf structures learnt (atoms_of (cars_of list)) cars.now.rows
        → AreRowsOf structures learnt (atoms_of (cdrs_of list)) cdrs.now.rows
        → AddsRows structures learnt (atoms_of list) IsCons rows.old rows.new) }
{
    let cars = halves(alloc, table, atoms, cars, Side::Car)?;
    let cdrs = halves(alloc, table, atoms, cdrs, Side::Cdr)?;
    push_crossed(alloc, cars.as_slice(), cdrs.as_slice(), rows, steps)?;
    Ok(())
}

// The symbol NIL.
fn nil(alloc: Global) -> Result<Rc<Origin>, AllocError>
    ensures { IfOk result (λ r. origin_object r.value ≡ node [] (symbol nil_symbol)) }
{
    let shape = Shape::Sym(Symbol::nil(alloc)?);
    let marks = Items::new(alloc);
    Origin::of_object(alloc, Object { marks, shape })
}

/// Adds the row of the conses to those of a list of so many atoms of which none is a CONS: that of NIL and NIL. It
/// makes at most a step. An error comes for want of memory.
pub(crate) fn push_cons<L: Ledger>(
    alloc: Global,
    count: usize,
    rows: &mut Rows,
    steps: &mut Steps<L>,
) -> Result<(), AllocError>
    ensures rises { steps.old ≤ steps.new }
    ensures most { steps.new ≤ steps.old + 1 }
    ensures fewer { length rows.new + steps.old ≤ length rows.old + steps.new }
    ensures long { AreLong count rows.old → AreLong count rows.new }
    ensures rows { OnOk result ((structures : Structures) (learnt : Learnt) (list : List Specifier)
        → length (atoms_of list) ≡ count
        → is_none (cars_of list) ≡ true
        → AddsRows structures learnt (atoms_of list) IsCons rows.old rows.new) }
{
    let signs = Signs::interval(alloc, count, 0, 0)?;
    if let Some(_) = rows.find(&signs) {
        return Ok(());
    }
    let nil = nil(alloc)?;
    let origin = Origin::of_pair(alloc, &nil, &nil)?;
    rows.add(Row { signs, origin }, steps)?;
    Ok(())
}
