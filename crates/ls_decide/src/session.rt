// A session.

ghost use Rattle.std.specs.Prelude.{◌≡◌, ◌≤◌, ◌<◌, ◌+◌, ◌-◌, ◌^◌, [], min, length, IfOk};
ghost use Rattle.ls_object.specs.Meaning.{lisp_object};
ghost use Rattle.ls_spec.specs.Meaning.{specifier};
ghost use Rattle.ls_spec.specs.Fits.{Fits};
ghost use Rattle.ls_lists.specs.Costs.{pair_cost, pair_lists, type_cost, type_lists, upgrade_cost, upgrade_lists};
ghost use Rattle.ls_cells.specs.Kept.{structures_in, entries_in, count_rows};
ghost use Rattle.ls_structs.specs.Trees.{types};
ghost use Rattle.ls_decide.specs.Answers.{IsRight, IsPlainAnswer, IsUpgraded, IsRightMembership, TellsCost};
ghost use Rattle.ls_decide.specs.Sessions.{Works, HasDone, HasUpgraded, HasAsked, IsPaid};

use crate::answer::{Answer, Belongs};
use crate::belonging::typep;
use crate::cost::{add_entries, cost_of_elements, cost_of_list, cost_of_predicates};
use crate::decide::{decide, upgrade};
use ls_cells::Store;
use ls_intern::Table;
use ls_memo::Steps;
use ls_object::{Code, Object, Parents};
use ls_sides::distinct_of;
use ls_spec::Spec;
use ls_structs::Tree;
use std::alloc::{AllocError, Global};
use std::marker::Model;
use std::sync::ledger::Ledger;

/// Decisions over one list of structure types. What was made for one is kept for the others. Contracts see the structure
/// types, the specifiers that were asked about with their parts, and the lists for which rows are kept.
#[derive(Drop)]
pub struct Session {
    alloc: Global,
    store: Store,
    /// The structure types of the store.
    parents: Parents,
}

impl Model for Session {
    ghost use Rattle.std.specs.Coded.{codes};
    ghost use Rattle.ls_intern.specs.Codes.{coded_specifier};
    ghost use Rattle.ls_cells.specs.contracts.rows.Row as row;
    ghost use Rattle.ls_cells.specs.Kept.{Stored};

    ghost Value = { Stored };

    ghost coded = { Prim.hlevel (codes, coded_specifier, row.the_row.coded) };

    ghost use Rattle.std.specs.Prelude.{◌≡◌};
    ghost use Rattle.ls_cells.specs.Kept.{structures_in};

    ghost view = { λ s. s.store };

    ghost invariant = { λ s. s.parents ≡ structures_in s.store };
}

impl Session {
    /// A session over the structure types of the tree, for which no rows are kept.
    pub fn new(alloc: Global, tree: Tree) -> Result<Session, AllocError>
        ensures { IfOk result (λ s. s ≡ (types tree, ([], ([], [])))) }
    {
        let parents = tree.parents().copy()?;
        let store = Store::new(alloc, parents.copy()?);
        Ok(Session {
            alloc,
            store,
            parents,
        })
    }

    /// How many rows are kept, of all lists together; the greatest u64 where they are more. It is at least the number of
    /// lists for which rows are kept, since each of them has a row.
    pub fn rows(&self) -> u64
        ensures count { result ≡ min (count_rows (entries_in self.now)) (2 ^ 64 - 1) }
        ensures some { length (entries_in self.now) ≤ result }
    {
        self.store.rows()
    }

    /// For how many lists rows are kept.
    pub fn kept(&self) -> usize
        ensures { result ≡ length (entries_in self.now) }
    {
        self.store.kept()
    }

    /// What it costs to decide whether every object of the first type belongs to the second (SUBTYPEP), or None exactly
    /// where that is more than the budget.
    pub fn cost(&self, a: &Spec, b: &Spec, budget: u64) -> Result<Option<u64>, AllocError>
        requires { budget ≤ 2 ^ 30 }
        ensures { IfOk result (TellsCost budget (pair_cost (specifier a.now) (specifier b.now))) }
    {
        let alloc = self.alloc;
        let mut table = Table::new(alloc);
        let first = table.add(a)?;
        let second = table.add(b)?;
        let entries = add_entries(alloc, &mut table)?;
        let pair = distinct_of(alloc, &table, first, &[second])?;
        let Some(own) = cost_of_list(alloc, &table, pair.as_slice(), budget)? else {
            return Ok(None);
        };
        let left = budget - own;
        let Some(elements) = cost_of_elements(alloc, &table, &[first, second], &entries, left)?
        else {
            return Ok(None);
        };
        let left = left - elements;
        let Some(predicates) = cost_of_predicates(alloc, &mut table, a, b, left)? else {
            return Ok(None);
        };
        Ok(Some(own + elements + predicates))
    }

    /// What it costs to decide whether an object belongs to the type (TYPEP), or None exactly where that is more than the
    /// budget.
    pub fn typep_cost(&self, s: &Spec, budget: u64) -> Result<Option<u64>, AllocError>
        requires { budget ≤ 2 ^ 30 }
        ensures { IfOk result (TellsCost budget (type_cost (specifier s.now))) }
    {
        let alloc = self.alloc;
        let mut table = Table::new(alloc);
        let id = table.add(s)?;
        let entries = add_entries(alloc, &mut table)?;
        cost_of_elements(alloc, &table, &[id], &entries, budget)
    }

    /// Whether every object of the first type belongs to the second (SUBTYPEP), or TooLarge exactly where that costs more
    /// than the budget. It is Unsure where the predicates decide (SATISFIES, 4.2.3). It makes rows for the lists that it
    /// needs and for which none are kept, and no more than it costs. An error comes for want of memory; the answers that
    /// follow are right all the same.
    pub fn subtypep<L: Ledger>(
        &mut self,
        a: &Spec,
        b: &Spec,
        budget: u64,
        steps: &mut Steps<L>,
    ) -> Result<Answer, AllocError>
        requires first { Fits (structures_in self.old) (specifier a.now) }
        requires second { Fits (structures_in self.old) (specifier b.now) }
        requires budget { budget ≤ 2 ^ 30 }
        ensures structures { structures_in self.new ≡ structures_in self.old }
        ensures right { IfOk result (IsRight (structures_in self.old) (specifier a.now) (specifier b.now) budget) }
        ensures plain { IfOk result IsPlainAnswer }
        ensures works { Works (pair_lists (specifier a.now) (specifier b.now)) (entries_in self.old) (entries_in self.new) steps.old steps.new }
        ensures cost { steps.new ≤ steps.old + pair_cost (specifier a.now) (specifier b.now) }
        ensures done { IfOk result (HasDone (specifier a.now) (specifier b.now) (entries_in self.old) (entries_in self.new) steps.old steps.new) }
        ensures paid { IfOk result (λ answer. IsPaid (entries_in self.old) (entries_in self.new) steps.old steps.new) }
    {
        decide(self.alloc, &mut self.store, a, b, budget, steps)
    }

    /// The upgraded code of an element type (UPGRADED-ARRAY-ELEMENT-TYPE): the first entry of the upgrading table that
    /// holds each of its objects; None exactly where finding it costs more than the budget. An error comes for want of
    /// memory; the answers that follow are right all the same.
    pub fn upgrade<L: Ledger>(
        &mut self,
        e: &Spec,
        budget: u64,
        steps: &mut Steps<L>,
    ) -> Result<Option<Code>, AllocError>
        requires fits { Fits (structures_in self.old) (specifier e.now) }
        requires budget { budget ≤ 2 ^ 30 }
        ensures structures { structures_in self.new ≡ structures_in self.old }
        ensures right { IfOk result (IsUpgraded (structures_in self.old) (specifier e.now) budget) }
        ensures works { Works (upgrade_lists (specifier e.now)) (entries_in self.old) (entries_in self.new) steps.old steps.new }
        ensures cost { steps.new ≤ steps.old + upgrade_cost (specifier e.now) }
        ensures done { IfOk result (HasUpgraded (upgrade_lists (specifier e.now)) (entries_in self.old) (entries_in self.new) steps.old steps.new) }
        ensures paid { IfOk result (λ code. IsPaid (entries_in self.old) (entries_in self.new) steps.old steps.new) }
    {
        upgrade(self.alloc, &mut self.store, e, budget, steps)
    }

    /// Whether the object belongs to the type (TYPEP), or TooLarge exactly where that costs more than the budget. It makes
    /// rows for the lists from which the upgraded codes of element types are found and for which none are kept, and no
    /// more than it costs. An error comes for want of memory; the answers that follow are right all the same.
    pub fn typep<L: Ledger>(
        &mut self,
        object: &Object,
        s: &Spec,
        budget: u64,
        steps: &mut Steps<L>,
    ) -> Result<Belongs, AllocError>
        requires fits { Fits (structures_in self.old) (specifier s.now) }
        requires budget { budget ≤ 2 ^ 30 }
        ensures structures { structures_in self.new ≡ structures_in self.old }
        ensures right { IfOk result (IsRightMembership (structures_in self.old) (lisp_object object.now) (specifier s.now) budget) }
        ensures works { Works (type_lists (specifier s.now)) (entries_in self.old) (entries_in self.new) steps.old steps.new }
        ensures cost { steps.new ≤ steps.old + type_cost (specifier s.now) }
        ensures done { IfOk result (HasAsked (type_lists (specifier s.now)) (entries_in self.old) (entries_in self.new) steps.old steps.new) }
        ensures paid { IfOk result (λ answer. IsPaid (entries_in self.old) (entries_in self.new) steps.old steps.new) }
    {
        typep(
            self.alloc,
            &self.parents,
            &mut self.store,
            object,
            s,
            budget,
            steps,
        )
    }
}
