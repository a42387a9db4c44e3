// The cells that are kept, each list made once.

ghost use Rattle.std.specs.Prelude.{◌≡◌, ◌≤◌, ◌+◌, [], length, All, OnOk, OnErr, None};
ghost use Rattle.ls_spec.specs.Fits.{Fits};
ghost use Rattle.ls_lists.specs.Walks.{part, walk};
ghost use Rattle.ls_intern.specs.Places.{specifiers_at, AllBelow};
ghost use Rattle.ls_memo.specs.Kept.{kept_for};
ghost use Rattle.ls_cells.specs.Codes.{codes_of, AreCodes, HasCodes};
ghost use Rattle.ls_cells.specs.Kept.{lists, count_rows, entries_of, AreKept, AreCounted};
ghost use Rattle.ls_cells.specs.steps.Filling.{MayMake, Makes, Fills};

use crate::cells::Cells;
use crate::make::make;
use ls_intern::{Id, Table};
use ls_memo::{Memo, Steps};
use ls_object::{Code, Items};
use ls_points::StructRegions;
use ls_sides::{Sides, sides_of};
use std::alloc::{AllocError, Global};
use std::sync::ledger::Ledger;

/// Cells by lists of numbers, and how many rows they have together, cut at the greatest u64.
#[derive(Drop)]
pub struct Kept {
    pub memo: Memo<Cells>,
    pub rows: u64,
}

impl Kept {
    /// Nothing is kept.
    pub fn new(alloc: Global) -> Kept
        ensures memo { result.memo ≡ [] }
        ensures rows { result.rows ≡ 0 }
    {
        Kept {
            memo: Memo::new(alloc),
            rows: 0,
        }
    }

    /// Makes and keeps the cells of a list whose cars and cdrs are done.
    fn put<L: Ledger>(
        &mut self,
        alloc: Global,
        structures: &StructRegions,
        table: &Table,
        codes: &Memo<Code>,
        list: &[Id],
        sides: Sides,
        steps: &mut Steps<L>,
    ) -> Result<(), AllocError>
        requires may { MayMake structures.now table.now (specifiers_at table.now list.now)
            sides.atoms sides.cars sides.cdrs codes.now self.old.memo }
        requires counted { AreCounted table.now self.old.memo self.old.rows }
        requires absent { kept_for list.now self.old.memo ≡ None }
        ensures rises { steps.old ≤ steps.new }
        ensures most { steps.new ≤ steps.old + part (specifiers_at table.now list.now) }
        ensures ok { OnOk result (Makes structures.now table.now list.now self.old.memo self.new.memo) }
        ensures err { OnErr result (self.new.memo ≡ self.old.memo) }
        ensures counted { AreCounted table.now self.new.memo self.new.rows }
        ensures rows { count_rows (entries_of table.now self.new.memo) + steps.old
            ≤ count_rows (entries_of table.now self.old.memo) + steps.new }
    {
        let rows = make(alloc, structures, table, codes, &sides, &self.memo, steps)?;
        // Its contract says that no two rows have the same truth values.
        let count = rows.len();
        let cells = Cells::new(alloc, sides.atoms, rows)?;
        let key = Items::from_slice(alloc, list)?;
        self.memo.put(key, cells)?;
        self.rows = self.rows.saturating_add(count as u64);
        Ok(())
    }

    /// Makes the cells of a list, and of those that it reaches, where none are kept: first those of its cars, then
    /// those of its cdrs, and its own last.
    pub fn fill<L: Ledger>(
        &mut self,
        alloc: Global,
        structures: &StructRegions,
        table: &Table,
        codes: &Memo<Code>,
        list: &[Id],
        steps: &mut Steps<L>,
    ) -> Result<(), AllocError>
        requires below { AllBelow (length table.now) list.now }
        requires fit { All (Fits structures.now) (specifiers_at table.now list.now) }
        requires codes { AreCodes structures.now table.now codes.now }
        requires learnt { All (HasCodes (codes_of table.now codes.now)) (specifiers_at table.now list.now) }
        requires kept { AreKept structures.now table.now self.old.memo }
        requires counted { AreCounted table.now self.old.memo self.old.rows }
        ensures fills { Fills structures.now table.now (specifiers_at table.now list.now)
            self.old.memo self.new.memo steps.old steps.new }
        ensures counted { AreCounted table.now self.new.memo self.new.rows }
        ensures all { OnOk result (lists (entries_of table.now self.new.memo)
            ≡ walk (specifiers_at table.now list.now) (lists (entries_of table.now self.old.memo))) }
    {
        if list.is_empty() {
            return Ok(());
        }
        if let Some(_cells) = self.memo.get(list) {
            return Ok(());
        }
        // Its contract says that no specifier stands twice, so nothing is kept for a list that isn't found.
        let _distinct = table.len();
        let sides = sides_of(alloc, table, list)?;
        self.fill(
            alloc,
            structures,
            table,
            codes,
            sides.cars.as_slice(),
            steps,
        )?;
        self.fill(
            alloc,
            structures,
            table,
            codes,
            sides.cdrs.as_slice(),
            steps,
        )?;
        self.put(alloc, structures, table, codes, list, sides, steps)?;
        Ok(())
    }
}
