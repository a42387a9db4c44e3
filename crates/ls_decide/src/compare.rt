// Two types compared at the rows of the list of both.

ghost use Rattle.std.specs.Prelude.{◌<◌, length, IfOk, IfSome};
ghost use Rattle.ls_object.specs.Universe.{Structures, IsPlain};
ghost use Rattle.ls_object.specs.Meaning.{lisp_object};
ghost use Rattle.ls_spec.specs.Truth.{Learnt, IsLearnt};
ghost use Rattle.ls_intern.specs.Places.{at, specifiers_at};
ghost use Rattle.ls_cells.specs.Cells.{AreRowsOf};
ghost use Rattle.ls_decide.specs.steps.Comparing.{IsOver, IsPlaceOutside, IsFound};

use ls_cells::{Cells, column_of};
use ls_intern::{Id, Table};
use ls_object::Object;
use std::alloc::{AllocError, Global};

/// The place of a row at which the first specifier holds and the second doesn't, or None where there is none.
pub(crate) fn place_outside(
    alloc: Global,
    table: &Table,
    cells: &Cells,
    a: Id,
    b: Id,
) -> Result<Option<usize>, AllocError>
    requires first { a < length table.now }
    requires second { b < length table.now }
    requires first_over { IsOver (specifiers_at table.now cells.now.atoms) (at table.now a) }
    requires second_over { IsOver (specifiers_at table.now cells.now.atoms) (at table.now b) }
    ensures right { IfOk result (λ place. (structures : Structures) (learnt : Learnt)
        → IsLearnt structures learnt (at table.now a)
        → IsLearnt structures learnt (at table.now b)
        → AreRowsOf structures learnt (specifiers_at table.now cells.now.atoms) cells.now.rows
        → IsPlaceOutside structures (at table.now a) (at table.now b) cells.now.rows place) }
    ensures within { IfOk result (λ place. IfSome place (λ i. i < length cells.now.rows)) }
{
    let inside = column_of(alloc, table, cells, a)?;
    let allowed = column_of(alloc, table, cells, b)?;
    Ok(inside.place_outside(&allowed))
}

/// The plain form of an object that is in the first type and not in the second, or None where the first is included in
/// the second.
pub(crate) fn outside(
    alloc: Global,
    table: &Table,
    cells: &Cells,
    a: Id,
    b: Id,
) -> Result<Option<Object>, AllocError>
    requires first { a < length table.now }
    requires second { b < length table.now }
    requires first_over { IsOver (specifiers_at table.now cells.now.atoms) (at table.now a) }
    requires second_over { IsOver (specifiers_at table.now cells.now.atoms) (at table.now b) }
    ensures right { IfOk result (λ found. (structures : Structures) (learnt : Learnt)
        → IsLearnt structures learnt (at table.now a)
        → IsLearnt structures learnt (at table.now b)
        → AreRowsOf structures learnt (specifiers_at table.now cells.now.atoms) cells.now.rows
        → IsFound structures (at table.now a) (at table.now b) found) }
    ensures plain { IfOk result (λ found. IfSome found (λ o. IsPlain (lisp_object o))) }
{
    let Some(row) = place_outside(alloc, table, cells, a, b)? else {
        return Ok(None);
    };
    Ok(Some(cells.rows.object(row)?))
}
