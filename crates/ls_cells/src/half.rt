// The rows of the cars and of the cdrs, as far as the conses above can tell them apart.

ghost use Rattle.std.specs.Prelude.{◌≡◌, ◌<◌, [], ◌∷◌, length, IfOk, MatchOption, slice_get, Some, IfSome};
ghost use Rattle.ls_object.specs.Universe.{IsPlain};
ghost use Rattle.ls_intern.specs.Places.{at, specifiers_at, AllBelow};
ghost use Rattle.ls_cells.specs.Rows.{origin_object};
ghost use Rattle.ls_cells.specs.steps.Halves.{part_of, IsPartColumn, ArePartColumns, AreHalves};

use crate::cells::Cells;
use crate::column::column_of;
use crate::rows::{Row, Rows};
use crate::side::Side;
use crate::signs::Signs;
use crate::transpose::transpose;
use ls_intern::{Id, Table};
use ls_object::Items;
use ls_sides::cons_sides;
use std::alloc::{AllocError, Global};

// The part of an atom on a side, if the atom is a CONS.
fn part_at(table: &Table, id: Id, side: Side) -> Option<Id>
    requires { id < length table.now }
    ensures { MatchOption result
        (part_of side (at table.now id) ≡ [])
        (λ part. (part < length table.now) × (part_of side (at table.now id) ≡ at table.now part ∷ [])) }
{
    match cons_sides(table.node(id)) {
        None => None,
        Some((car, cdr)) => match side {
            Side::Car => Some(car),
            Side::Cdr => Some(cdr),
        },
    }
}

// At which rows the part of an atom holds; nowhere, if the atom is no CONS.
fn part_column(
    alloc: Global,
    table: &Table,
    cells: &Cells,
    id: Id,
    side: Side,
) -> Result<Signs, AllocError>
    requires { id < length table.now }
    ensures { IfOk result
        (IsPartColumn (specifiers_at table.now cells.now.atoms) cells.now.rows (part_of side (at table.now id))) }
{
    match part_at(table, id, side) {
        None => Signs::interval(alloc, cells.rows.len(), 0, 0),
        Some(part) => column_of(alloc, table, cells, part),
    }
}

// Such a column for each atom.
fn part_columns(
    alloc: Global,
    table: &Table,
    atoms: &[Id],
    cells: &Cells,
    side: Side,
) -> Result<Items<Signs>, AllocError>
    requires { AllBelow (length table.now) atoms.now }
    ensures { IfOk result
        (ArePartColumns side (specifiers_at table.now cells.now.atoms) cells.now.rows (specifiers_at table.now atoms.now)) }
{
    let mut columns = Items::new(alloc);
    for id in atoms {
        let column = part_column(alloc, table, cells, *id, side)?;
        columns.push(column)?;
    }
    Ok(columns)
}

// The row at a place with other values.
fn half_at(values: &[Signs], rows: &Rows, i: usize) -> Result<Row, AllocError>
    requires row { i < length rows.now }
    requires values { i < length values.now }
    ensures object { IfOk result (λ half.
        IfSome (slice_get rows.now i) (λ row. origin_object half.origin.value ≡ origin_object row.origin.value)) }
    ensures plain { IfOk result (λ half. IsPlain (origin_object half.origin.value)) }
    ensures signs { IfOk result (λ half. slice_get values.now i ≡ Some half.signs) }
{
    let signs = values[i].copy()?;
    let origin = rows.row(i).origin.clone()?;
    Ok(Row { signs, origin })
}

/// For each row of the cars (or of the cdrs) its truth values in the cars (or the cdrs) of the atoms, which are false for
/// an atom that is no CONS; with the row's object. An error comes for want of memory.
pub(crate) fn halves(
    alloc: Global,
    table: &Table,
    atoms: &[Id],
    cells: &Cells,
    side: Side,
) -> Result<Vec<Row>, AllocError>
    requires { AllBelow (length table.now) atoms.now }
    ensures { IfOk result (λ hs. AreHalves side
        (specifiers_at table.now cells.now.atoms)
        (specifiers_at table.now atoms.now)
        cells.now.rows
        hs.items) }
{
    let columns = part_columns(alloc, table, atoms, cells, side)?;
    let count = cells.rows.len();
    let values = transpose(alloc, columns.as_slice(), count)?;
    let values = values.as_slice();
    let mut halves = Vec::new(alloc);
    for i in 0..count {
        let half = half_at(values, &cells.rows, i)?;
        halves.push(half)?;
    }
    Ok(halves)
}
