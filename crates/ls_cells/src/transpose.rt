// Lists of truth values turned over: each true value is put where it belongs, so that the work is that of the true values
// and of the words.

ghost use Rattle.std.specs.Prelude.{ℕ, ◌≡◌, ◌<◌, ◌≤◌, ◌+◌, ◌⊎◌, ◌&&◌, nat_le, nat_lt, map, length, [], All, IfOk, slice_index_or};
ghost use Rattle.std.specs.List.{range_with_len};
ghost use Rattle.ls_cells.specs.Signs.{at, tabulate};
ghost use Rattle.ls_cells.specs.Formulas.{row_at};
ghost use Rattle.ls_cells.specs.steps.Turning.{RaisedAt, Raises, HasTurned};

use crate::signs::Signs;
use ls_object::Items;
use std::alloc::{AllocError, Global};

// As many lists of false values as asked for.
fn blank(alloc: Global, count: usize, len: usize) -> Result<Vec<Signs>, AllocError>
    ensures { IfOk result (λ columns. (length columns.items ≡ count)
        × All (λ c. c ≡ tabulate len (λ i. nat_le 0 i && nat_lt i 0)) columns.items) }
{
    let mut columns = Vec::new(alloc);
    for i in 0..count {
        columns.push(Signs::interval(alloc, len, 0, 0)?)?;
    }
    Ok(columns)
}

// Makes the value at place k of list i true.
fn raise_at(columns: &mut Vec<Signs>, i: usize, k: usize)
    requires list { i < length columns.old.items }
    requires place { k < length (slice_index_or columns.old.items i []) }
    ensures { RaisedAt i k columns.old.items columns.new.items }
{
    columns[i].set(k, true);
}

// Makes the value at place k true in those of the columns from one place up to another for which the list is true.
fn raise_between(columns: &mut Vec<Signs>, list: &Signs, k: usize, from: usize, to: usize)
    requires long { (i : ℕ) → i < length columns.old.items → k < length (slice_index_or columns.old.items i []) }
    requires order { from ≤ to }
    requires columns { to ≤ length columns.old.items }
    requires list { to ≤ length list.now }
    ensures { Raises (λ i. nat_le from i && nat_lt i to && at list.now i) k columns.old.items columns.new.items }
{
    for i in from..to {
        if list.get(i) {
            raise_at(columns, i, k);
        }
    }
}

// The end of a block of 64 places, or of all.
fn block_end(from: usize, count: usize) -> usize
    requires { from < count }
    ensures least { from < result }
    ensures within { result ≤ count }
    ensures most { result ≤ from + 64 }
    ensures end { (result ≡ count) ⊎ (result ≡ from + 64) }
{
    if count - from < 64 {
        return count;
    }
    from + 64
}

// Makes the value at place k true in each of the first columns for which the list is true, block by block.
fn raise_first(columns: &mut Vec<Signs>, list: &Signs, k: usize, count: usize)
    requires long { (i : ℕ) → i < length columns.old.items → k < length (slice_index_or columns.old.items i []) }
    requires columns { count ≤ length columns.old.items }
    requires list { count ≤ length list.now }
    ensures { Raises (λ i. nat_lt i count && at list.now i) k columns.old.items columns.new.items }
{
    for block in 0..count.div_ceil(64) {
        if !list.is_clear_block(block) {
            let from = block * 64;
            raise_between(columns, list, k, from, block_end(from, count));
        }
    }
}

// The smaller of the two.
fn smaller(a: usize, b: usize) -> usize
    ensures first { result ≤ a }
    ensures second { result ≤ b }
    ensures one { (result ≡ a) ⊎ (result ≡ b) }
{
    if a < b {
        return a;
    }
    b
}

// Makes the value at place k true in each of the columns for which the list is true.
fn raise_by(columns: &mut Vec<Signs>, list: &Signs, k: usize)
    requires long { (i : ℕ) → i < length columns.old.items → k < length (slice_index_or columns.old.items i []) }
    ensures { Raises (at list.now) k columns.old.items columns.new.items }
{
    let count = smaller(columns.len(), list.len());
    raise_first(columns, list, k, count);
}

// Puts the values of the lists into the columns.
fn raise_all(columns: &mut Vec<Signs>, lists: &[Signs])
    requires { HasTurned lists.now (length columns.old.items) 0 columns.old.items }
    ensures { HasTurned lists.now (length columns.old.items) (length lists.now) columns.new.items }
{
    for k in 0..lists.len() {
        raise_by(columns, &lists[k], k);
    }
}

/// The lists turned over: list j of the answer has the value at j of each list, for each j below the count. A list that
/// is too short counts as false there. An error comes for want of memory.
pub(crate) fn transpose(
    alloc: Global,
    lists: &[Signs],
    count: usize,
) -> Result<Items<Signs>, AllocError>
    ensures { IfOk result (λ out. out ≡ map (row_at lists.now) (range_with_len 0 count)) }
{
    let mut columns = blank(alloc, count, lists.len())?;
    raise_all(&mut columns, lists);
    Ok(Items::from_vec(columns))
}
