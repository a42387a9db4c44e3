// The store.

ghost use Rattle.std.specs.Prelude.{◌≡◌, ◌≤◌, ◌+◌, ◌-◌, ◌^◌, ◌<◌, ◌++◌, ◌∷◌, [], length, min, All, IsTrue, IfOk, OnOk, OnErr, MatchOption};
ghost use Rattle.ls_object.specs.Inclusion.{IsInclusionOrder};
ghost use Rattle.ls_spec.specs.Meaning.{specifier};
ghost use Rattle.ls_spec.specs.Fits.{Fits};
ghost use Rattle.ls_spec.specs.Membership.{UpgradesTo};
ghost use Rattle.ls_lists.specs.Walks.{among, walk, reached, total, missing, IsClosed};
ghost use Rattle.ls_intern.specs.Places.{at, specifiers_at, AllBelow, Extends};
ghost use Rattle.ls_cells.specs.Codes.{AreUpgraded, IsKnown, HasCodes};
ghost use Rattle.ls_cells.specs.Kept.{structures_in, specifiers_in, codes_in, entries_in, lists, count_rows};
ghost use Rattle.ls_cells.specs.Kept.{AreCellsOf, Began, Grows};

use crate::cells::Cells;
use crate::fill::Kept;
use ls_intern::{Id, Table};
use ls_memo::{Memo, Steps};
use ls_object::{Code, Items, Parents};
use ls_points::StructRegions;
use ls_spec::Spec;
use std::alloc::{AllocError, Global};
use std::marker::Model;
use std::sync::ledger::Ledger;

/// Specifiers by number, the upgraded codes of element types, and the cells of lists, over the structure types of a
/// file. Contracts see the structure types, the specifiers, the element types whose codes were learnt, with the codes,
/// and the lists for which rows are kept, with the rows.
#[derive(Drop)]
pub struct Store {
    alloc: Global,
    structures: StructRegions,
    table: Table,
    codes: Memo<Code>,
    kept: Kept,
}

impl Model for Store {
    ghost use Rattle.std.specs.Coded.{codes as common_codes};
    ghost use Rattle.ls_intern.specs.Codes.{coded_specifier};
    ghost use Rattle.ls_cells.specs.contracts.rows.Row as row;
    ghost use Rattle.ls_cells.specs.Kept.{Stored};

    ghost Value = { Stored };

    ghost coded = { Prim.hlevel (common_codes, coded_specifier, row.the_row.coded) };

    ghost use Rattle.ls_cells.specs.Codes.{codes_of};
    ghost use Rattle.ls_cells.specs.Kept.{entries_of, IsStore};

    ghost view = { λ s. (s.structures, (s.table, (codes_of s.table s.codes, entries_of s.table s.kept.memo))) };

    ghost invariant = { λ s. IsStore s.structures s.table s.codes s.kept.memo s.kept.rows };
}

impl Store {
    /// A store over these structure types, of no specifier and no list.
    pub fn new(alloc: Global, parents: Parents) -> Store
        ensures { result ≡ (parents, ([], ([], []))) }
    {
        let _order = parents.as_slice();
        Store {
            alloc,
            structures: StructRegions::new(parents),
            table: Table::new(alloc),
            codes: Memo::new(alloc),
            kept: Kept::new(alloc),
        }
    }

    /// The specifiers. The structure types are in order, the codes that were learnt are right, and where a list is kept, so are its cars and its cdrs.
    pub fn table(&self) -> &Table
        ensures specifiers { result.now ≡ specifiers_in self.now }
        ensures order { IsInclusionOrder (structures_in self.now) }
        ensures codes { AreUpgraded (structures_in self.now) (codes_in self.now) }
        ensures closed { IsClosed (lists (entries_in self.now)) }
    {
        &self.table
    }

    /// The number of a specifier, which is put in if it isn't there. No number changes and what is kept stays, also
    /// where memory is refused.
    pub fn intern(&mut self, spec: &Spec) -> Result<Id, AllocError>
        ensures structures { structures_in self.new ≡ structures_in self.old }
        ensures codes { codes_in self.new ≡ codes_in self.old }
        ensures kept { entries_in self.new ≡ entries_in self.old }
        ensures grows { Extends (specifiers_in self.old) (specifiers_in self.new) }
        ensures within { IfOk result (λ id. id < length (specifiers_in self.new)) }
        ensures is { IfOk result (λ id. at (specifiers_in self.new) id ≡ specifier spec.now) }
    {
        self.table.add(spec)
    }

    /// The upgraded code of an element type, or None exactly where it was not learnt. It takes no memory.
    pub fn code(&self, element: Id) -> Option<Code>
        requires { element < length (specifiers_in self.now) }
        ensures { MatchOption result (¬ IsKnown (codes_in self.now) (at (specifiers_in self.now) element))
            (λ code. IsKnown (codes_in self.now) (at (specifiers_in self.now) element)
            × UpgradesTo (structures_in self.now) (at (specifiers_in self.now) element) code.index) }
    {
        let _distinct = self.table.len();
        self.codes.get(&[element]).copied()
    }

    /// Learns that the code is the upgraded one of an element type whose code was not learnt. After a refusal for memory
    /// all is as before.
    pub fn learn(&mut self, element: Id, code: Code) -> Result<(), AllocError>
        requires within { element < length (specifiers_in self.old) }
        requires absent { ¬ IsKnown (codes_in self.old) (at (specifiers_in self.old) element) }
        requires upgraded { UpgradesTo (structures_in self.old) (at (specifiers_in self.old) element) code.index }
        ensures structures { structures_in self.new ≡ structures_in self.old }
        ensures specifiers { specifiers_in self.new ≡ specifiers_in self.old }
        ensures kept { entries_in self.new ≡ entries_in self.old }
        ensures ok { OnOk result (codes_in self.new
            ≡ codes_in self.old ++ (at (specifiers_in self.old) element, code.index) ∷ []) }
        ensures err { OnErr result (codes_in self.new ≡ codes_in self.old) }
    {
        let _distinct = self.table.len();
        let key = Items::from_slice(self.alloc, &[element])?;
        self.codes.put(key, code)
    }

    /// For how many lists rows are kept.
    pub fn kept(&self) -> usize
        ensures { result ≡ length (entries_in self.now) }
    {
        self.kept.memo.len()
    }

    /// How many rows are kept, or the greatest u64 where they are more. It is at least the number of lists for which
    /// rows are kept, since each of them has a row.
    pub fn rows(&self) -> u64
        ensures count { result ≡ min (count_rows (entries_in self.now)) (2 ^ 64 - 1) }
        ensures some { length (entries_in self.now) ≤ result }
    {
        let _lists = self.kept.memo.len();
        self.kept.rows
    }

    /// Makes the rows of a list and of all lists that it reaches by cars and cdrs, each of them once, and none for
    /// which rows are kept. An error comes for want of memory; those are kept then that were made until then.
    pub fn fill<L: Ledger>(&mut self, list: &[Id], steps: &mut Steps<L>) -> Result<(), AllocError>
        requires below { AllBelow (length (specifiers_in self.old)) list.now }
        requires fit { All (Fits (structures_in self.old)) (specifiers_at (specifiers_in self.old) list.now) }
        requires learnt { All (HasCodes (codes_in self.old)) (specifiers_at (specifiers_in self.old) list.now) }
        ensures structures { structures_in self.new ≡ structures_in self.old }
        ensures specifiers { specifiers_in self.new ≡ specifiers_in self.old }
        ensures codes { codes_in self.new ≡ codes_in self.old }
        ensures grows { Grows (entries_in self.old) (entries_in self.new) }
        ensures began { Began (specifiers_at (specifiers_in self.old) list.now)
            (lists (entries_in self.old)) (lists (entries_in self.new)) steps.old steps.new }
        ensures rises { steps.old ≤ steps.new }
        ensures cost { steps.new ≤ steps.old
            + total (missing (lists (entries_in self.old))
            (reached (specifiers_at (specifiers_in self.old) list.now))) }
        ensures rows { count_rows (entries_in self.new) + steps.old ≤ count_rows (entries_in self.old) + steps.new }
        ensures all { OnOk result (lists (entries_in self.new)
            ≡ walk (specifiers_at (specifiers_in self.old) list.now) (lists (entries_in self.old))) }
        ensures kept { OnOk result (0 < length list.now
            → IsTrue (among (specifiers_at (specifiers_in self.old) list.now) (lists (entries_in self.new)))) }
    {
        self.kept.fill(
            self.alloc,
            &self.structures,
            &self.table,
            &self.codes,
            list,
            steps,
        )
    }

    /// What is kept for a list.
    pub fn cells(&self, list: &[Id]) -> &Cells
        requires below { AllBelow (length (specifiers_in self.now)) list.now }
        requires kept { IsTrue
            (among (specifiers_at (specifiers_in self.now) list.now) (lists (entries_in self.now))) }
        ensures { AreCellsOf (structures_in self.now) (specifiers_in self.now)
            (specifiers_at (specifiers_in self.now) list.now) result.now }
    {
        let _distinct = self.table.len();
        match self.kept.memo.get(list) {
            Some(cells) => cells,
            None => unreachable!(),
        }
    }
}
