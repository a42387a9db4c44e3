// The rows of objects with marks. Each predicate (SATISFIES) may be true of any object, whatever else is true of it, so
// it doubles the rows.

ghost use Rattle.std.specs.Prelude.{ℕ, ◌≡◌, ◌≤◌, ◌<◌, ◌+◌, ◌*◌, ◌^◌, List, length, map, IfOk, OnOk};
ghost use Rattle.std.specs.List.{count_by};
ghost use Rattle.ls_object.specs.Universe.{Structures, IsName};
ghost use Rattle.ls_spec.specs.Specifier.{Specifier};
ghost use Rattle.ls_spec.specs.Meaning.{specifier};
ghost use Rattle.ls_spec.specs.Atoms.{atoms_of};
ghost use Rattle.ls_spec.specs.Truth.{Learnt};
ghost use Rattle.ls_lists.specs.Candidates.{is_predicate};
ghost use Rattle.ls_cells.specs.Cells.{AreBareRowsOf, AreRowsOf};
ghost use Rattle.ls_cells.specs.Rows.{AreLong};
ghost use Rattle.ls_cells.specs.steps.Marking.{IsNamed, IsMarked, Marks};

use crate::rows::{Row, Rows};
use ls_memo::Steps;
use ls_object::Symbol;
use ls_spec::Spec;
use std::alloc::AllocError;
use std::sync::ledger::Ledger;

/// The row of the same object, with the truth value at a place true.
fn marked(row: &Row, place: usize) -> Result<Row, AllocError>
    requires { place < length row.now.signs }
    ensures { IfOk result (IsMarked place row.now) }
{
    let mut signs = row.signs.copy()?;
    signs.set(place, true);
    let origin = row.origin.clone()?;
    Ok(Row { signs, origin })
}

/// Adds such a row for each of the rows.
fn double<L: Ledger>(place: usize, rows: &mut Rows, steps: &mut Steps<L>) -> Result<(), AllocError>
    requires { (n : ℕ) × AreLong n rows.old × (place < n) }
    ensures rises { steps.old ≤ steps.new }
    ensures most { steps.new ≤ steps.old + length rows.old }
    ensures fewer { length rows.new + steps.old ≤ length rows.old + steps.new }
    ensures long { (n : ℕ) → AreLong n rows.old → AreLong n rows.new }
    ensures marks { OnOk result (Marks place (length rows.old) rows.old rows.new) }
{
    for i in 0..rows.len() {
        let row = marked(rows.row(i), place)?;
        rows.add(row, steps)?;
    }
    Ok(())
}

/// Reads a name, of which it is then known that its characters are Unicode scalar values.
fn read_name(name: &Symbol)
    ensures { IsName name.now }
{
    let _package = name.package.as_str();
    let _name = name.name.as_str();
}

/// Whether the atom is a predicate; then its name is one.
fn is_predicate(atom: &Spec) -> bool
    ensures value { result ≡ is_predicate (specifier atom.now) }
    ensures name { IsNamed (specifier atom.now) }
{
    let Spec::Satisfies(name) = atom else {
        return false;
    };
    read_name(name);
    true
}

/// Adds to the rows of the objects without marks of their own those of all others: for each predicate among the atoms
/// as many as there are. An error comes for want of memory; the rows are then some of them.
pub(crate) fn push_marks<L: Ledger>(
    atoms: &[Spec],
    rows: &mut Rows,
    steps: &mut Steps<L>,
) -> Result<(), AllocError>
    requires { AreLong (length atoms.now) rows.old }
    ensures rises { steps.old ≤ steps.new }
    ensures most { steps.new + length rows.old
        ≤ steps.old + 2 ^ count_by is_predicate (map specifier atoms.now) * length rows.old }
    ensures fewer { length rows.new + steps.old ≤ length rows.old + steps.new }
    ensures long { AreLong (length atoms.now) rows.new }
    ensures rows { OnOk result ((structures : Structures) (learnt : Learnt) (list : List Specifier)
        → map specifier atoms.now ≡ atoms_of list
        → AreBareRowsOf structures learnt (atoms_of list) rows.old
        → AreRowsOf structures learnt (atoms_of list) rows.new) }
{
    for i in 0..atoms.len() {
        if is_predicate(&atoms[i]) {
            double(i, rows, steps)?;
        }
    }
    Ok(())
}
