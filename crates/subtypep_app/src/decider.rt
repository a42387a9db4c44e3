// The decision of queries under their budget.

ghost use Rattle.std.specs.Prelude.{◌≡◌, ◌≤◌, ◌^◌, [], IfOk};
ghost use Rattle.ls_spec.specs.Meaning.{specifier};
ghost use Rattle.ls_spec.specs.Fits.{Fits};
ghost use Rattle.ls_cells.specs.Kept.{structures_in, entries_in, Grows};
ghost use Rattle.ls_object.specs.Universe.{IsObject, IsPlain};
ghost use Rattle.ls_object.specs.Meaning.{lisp_object};
ghost use Rattle.ls_env.specs.Environments.{structures_of};
ghost use Rattle.ls_decide.specs.Answers.{IsRight, IsPlainAnswer, IsRightMembership};
ghost use Rattle.ls_lists.specs.Costs.{pair_cost, type_cost, of_pair, of_type};
ghost use Rattle.subtypep_app.specs.Charges.{if_within};
ghost use Rattle.subtypep_app.specs.steps.Charging.{Spends};

use ls_decide::{Answer, Belongs, Session};
use ls_env::Env;
use ls_memo::Steps;
use ls_object::Object;
use ls_spec::Spec;
use std::alloc::{AllocError, Global};
use std::sync::ledger::Ledger;

/// A session for all queries of a file, with the budget of each of them.
#[derive(Drop)]
pub(crate) struct Decider {
    pub session: Session,
    pub budget: u64,
    pub ghost within: { budget ≤ 2 ^ 30 },
}

impl Decider {
    /// Of the structure types of a file, with a budget for each query.
    pub(crate) fn new(alloc: Global, env: &Env, budget: u64) -> Result<Self, AllocError>
        requires budget { budget ≤ 2 ^ 30 }
        ensures budget { IfOk result (λ decider. decider.budget ≡ budget) }
        ensures structures { IfOk result (λ decider. structures_in decider.session ≡ structures_of env.now) }
        ensures empty { IfOk result (λ decider. entries_in decider.session ≡ []) }
    {
        Ok(Decider {
            session: Session::new(alloc, env.tree().copy()?)?,
            budget,
        })
    }

    /// The right answer to whether every object of the first type belongs to the second. A query whose cost is more
    /// than the budget is not worked on.
    pub(crate) fn answer<L: Ledger>(
        &mut self,
        a: &Spec,
        b: &Spec,
        steps: &mut Steps<L>,
    ) -> Result<Answer, AllocError>
        requires first { Fits (structures_in self.old.session) (specifier a.now) }
        requires second { Fits (structures_in self.old.session) (specifier b.now) }
        ensures budget { self.new.budget ≡ self.old.budget }
        ensures structures { structures_in self.new.session ≡ structures_in self.old.session }
        ensures keeps { Grows (entries_in self.old.session) (entries_in self.new.session) }
        ensures right { IfOk result (IsRight (structures_in self.old.session) (specifier a.now) (specifier b.now) self.old.budget) }
        ensures plain { IfOk result IsPlainAnswer }
        ensures spends { IfOk result (λ answer. Spends
            (if_within self.old.budget (pair_cost (specifier a.now) (specifier b.now)) (of_pair (specifier a.now) (specifier b.now)))
            (entries_in self.old.session) (entries_in self.new.session) steps.old steps.new) }
    {
        self.session.subtypep(a, b, self.budget, steps)
    }

    /// The right answer to whether the object, which has no marks, belongs to the type. A query whose cost is more than
    /// the budget is not worked on.
    pub(crate) fn place<L: Ledger>(
        &mut self,
        object: &Object,
        s: &Spec,
        steps: &mut Steps<L>,
    ) -> Result<Belongs, AllocError>
        requires plain { IsPlain (lisp_object object.now) }
        requires object { IsObject (structures_in self.old.session) (lisp_object object.now) }
        requires fits { Fits (structures_in self.old.session) (specifier s.now) }
        ensures budget { self.new.budget ≡ self.old.budget }
        ensures structures { structures_in self.new.session ≡ structures_in self.old.session }
        ensures keeps { Grows (entries_in self.old.session) (entries_in self.new.session) }
        ensures right { IfOk result (IsRightMembership (structures_in self.old.session) (lisp_object object.now) (specifier s.now) self.old.budget) }
        ensures spends { IfOk result (λ answer. Spends
            (if_within self.old.budget (type_cost (specifier s.now)) (of_type (specifier s.now)))
            (entries_in self.old.session) (entries_in self.new.session) steps.old steps.new) }
    {
        self.session.typep(object, s, self.budget, steps)
    }
}
