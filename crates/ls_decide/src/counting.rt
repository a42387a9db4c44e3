// The rows of lists, each list counted once.

ghost use Rattle.std.specs.Prelude.{◌≡◌, ◌<◌, ◌≤◌, ◌^◌, ◌++◌, ◌∷◌, [], length, List, IfOk, None, false};
ghost use Rattle.ls_spec.specs.Specifier.{Specifier};
ghost use Rattle.ls_spec.specs.Atoms.{atoms_of};
ghost use Rattle.ls_lists.specs.Walks.{rows_with, part_with};
ghost use Rattle.ls_intern.specs.Places.{specifiers_at, AllBelow};
ghost use Rattle.ls_memo.specs.Kept.{kept_for};
ghost use Rattle.ls_decide.specs.steps.Cut.{cut};
ghost use Rattle.ls_decide.specs.steps.Counting.{AreCounts, Counts, Adds};

use crate::candidates::count_rows;
use crate::cut::{plus, times};
use ls_intern::{Id, Table};
use ls_memo::Memo;
use ls_object::Items;
use ls_sides::sides_of;
use std::alloc::{AllocError, Global};

/// How many rows each list has that was counted, and what all of them add together, both cut.
#[derive(Drop)]
pub struct Counting {
    pub entries: Memo<u64>,
    pub total: u64,
}

impl Counting {
    /// Nothing was counted.
    pub fn new(alloc: Global) -> Counting
        ensures entries { result.entries ≡ [] }
        ensures total { result.total ≡ 0 }
    {
        Counting {
            entries: Memo::new(alloc),
            total: 0,
        }
    }

    /// Adds a list that wasn't counted, given its atoms and the pairs of rows of its cars and cdrs.
    fn add(
        &mut self,
        alloc: Global,
        table: &Table,
        list: &[Id],
        atoms: &[Id],
        pairs: u64,
    ) -> Result<u64, AllocError>
        requires atoms { AllBelow (length table.now) atoms.now }
        requires pairs { pairs ≤ 2 ^ 31 }
        requires total { self.old.total ≤ 2 ^ 31 }
        requires absent { kept_for list.now self.old.entries ≡ None }
        ensures { IfOk result (λ n. (these : List Specifier) → specifiers_at table.now atoms.now ≡ atoms_of these
            → Adds list.now these pairs self.old.entries self.new.entries self.old.total self.new.total n) }
    {
        let count = count_rows(alloc, table, atoms, pairs)?;
        let key = Items::from_slice(alloc, list)?;
        self.entries.put(key, count.rows)?;
        self.total = plus(self.total, count.part);
        Ok(count.rows)
    }

    /// Counts the lists that a list reaches and that weren't counted. Answers its rows, or None where all together cost
    /// more than the budget.
    pub fn visit(
        &mut self,
        alloc: Global,
        table: &Table,
        list: &[Id],
        budget: u64,
    ) -> Result<Option<u64>, AllocError>
        requires list { AllBelow (length table.now) list.now }
        requires counts { AreCounts table.now self.old.entries self.old.total }
        requires budget { budget < 2 ^ 31 }
        ensures { IfOk result (Counts table.now (specifiers_at table.now list.now) budget self.old.entries self.new.entries self.new.total) }
    {
        if list.is_empty() {
            return Ok(Some(1));
        }
        if let Some(n) = self.entries.get(list) {
            return Ok(Some(*n));
        }
        // Its contract says that no specifier stands twice, so a list that isn't found wasn't counted.
        let _distinct = table.len();
        let sides = sides_of(alloc, table, list)?;
        let Some(first) = self.visit(alloc, table, sides.cars.as_slice(), budget)? else {
            return Ok(None);
        };
        let Some(second) = self.visit(alloc, table, sides.cdrs.as_slice(), budget)? else {
            return Ok(None);
        };
        let n = self.add(
            alloc,
            table,
            list,
            sides.atoms.as_slice(),
            times(first, second),
        )?;
        if self.total > budget {
            return Ok(None);
        }
        Ok(Some(n))
    }
}
