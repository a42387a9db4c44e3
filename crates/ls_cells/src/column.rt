// At which rows a specifier holds.

ghost use Rattle.std.specs.Prelude.{◌≡◌, ◌<◌, ℕ, length, IfOk, slice_get, Some};
ghost use Rattle.ls_object.specs.Universe.{LispObject};
ghost use Rattle.ls_spec.specs.Atoms.{leaves};
ghost use Rattle.ls_spec.specs.Truth.{Learnt, holds};
ghost use Rattle.ls_intern.specs.Places.{at as specifier_at, specifiers_at};
ghost use Rattle.ls_cells.specs.Signs.{at};
ghost use Rattle.ls_cells.specs.Rows.{signs_of};
ghost use Rattle.ls_cells.specs.Cells.{signs_at};
ghost use Rattle.ls_cells.specs.Values.{AreAmong};

use crate::cells::Cells;
use crate::formula::evaluate;
use crate::signs::Signs;
use crate::value::formula_of;
use ls_intern::{Id, Table};
use std::alloc::{AllocError, Global};

/// At which rows of a list the specifier holds whose leaves are among the list's atoms: the value at each place is
/// whether an object that has that row belongs to the specifier. An error comes for want of memory.
pub fn column_of(alloc: Global, table: &Table, cells: &Cells, id: Id) -> Result<Signs, AllocError>
    requires { id < length table.now }
    ensures len { IfOk result (λ c. length c ≡ length cells.now.rows) }
    ensures holds { IfOk result (λ c. (learnt : Learnt) (o : LispObject) (j : ℕ)
        → AreAmong (specifiers_at table.now cells.now.atoms) (leaves (specifier_at table.now id))
        → slice_get (signs_of cells.now.rows) j ≡ Some (signs_at learnt (specifiers_at table.now cells.now.atoms) o)
        → at c j ≡ holds learnt (specifier_at table.now id) o) }
{
    let formula = formula_of(alloc, table, &cells.atoms, id)?;
    evaluate(alloc, &formula, cells.columns.as_slice(), cells.rows.len())
}
