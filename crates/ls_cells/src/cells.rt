// The rows of a list of atoms with their columns.

ghost use Rattle.std.specs.Prelude.{◌≡◌, length, IfOk};
ghost use Rattle.ls_cells.specs.Rows.{signs_of};
ghost use Rattle.ls_cells.specs.Columns.{columns_of};

use crate::rows::Rows;
use crate::signs::Signs;
use crate::transpose::transpose;
use ls_object::Items;
use ls_sides::Ids;
use std::alloc::{AllocError, Global};

/// What is kept for a list of specifiers: its atoms by number, its rows, and for each atom its truth value at each row.
#[derive(Drop)]
pub struct Cells {
    pub atoms: Ids,
    pub rows: Rows,
    pub columns: Items<Signs>,
    pub ghost turned: { columns ≡ columns_of (length atoms) rows },
}

impl Cells {
    /// The atoms and the rows, with the columns. An error comes for want of memory.
    pub fn new(alloc: Global, atoms: Ids, rows: Rows) -> Result<Cells, AllocError>
        ensures atoms { IfOk result (λ c. c.atoms ≡ atoms) }
        ensures rows { IfOk result (λ c. c.rows ≡ rows) }
    {
        let lists = lists_of(alloc, &rows)?;
        let columns = transpose(alloc, lists.as_slice(), atoms.as_slice().len())?;
        Ok(Cells {
            atoms,
            rows,
            columns,
        })
    }
}

// The truth values of each row.
fn lists_of(alloc: Global, rows: &Rows) -> Result<Items<Signs>, AllocError>
    ensures { IfOk result (λ lists. lists ≡ signs_of rows.now) }
{
    let mut lists = Items::new(alloc);
    for i in 0..rows.len() {
        let list = rows.row(i).signs.copy()?;
        lists.push(list)?;
    }
    Ok(lists)
}
