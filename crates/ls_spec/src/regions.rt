// Classes of objects in which finitely many objects stand for all.

ghost use Rattle.std.specs.Prelude.{ℕ, List, ◌≤◌, length, IfOk, MatchBool};
ghost use Rattle.std.specs.Bool.{Decides};
ghost use Rattle.std.specs.List.{AllByRecursion, Contains};
ghost use Rattle.ls_object.specs.Universe.{LispObject, Structures, IsObject, plain};
ghost use Rattle.ls_object.specs.Meaning.{lisp_object};
ghost use Rattle.ls_spec.specs.Regions.{AreRepresentatives, IsPlainOf, IsInFirstOnly, IsInSecondIfFirst, IsIncludedWithin};

use ls_object::{Items, Object};
use std::alloc::{AllocError, Global};

/// A class of objects. For each list of atoms finitely many objects of the class stand for all of it, also for
/// those that no `Object` holds, as numbers past every limit.
pub trait Regions {
    /// What an object of the class may belong to.
    type Atom;

    /// The lists of structure types for whose objects the representatives stand.
    ghost IsOver: { Self → Structures → Type 0 };

    /// The object is of the class.
    ghost IsOfClass: { Self → LispObject → Type 0 };

    /// The atom may be asked about.
    ghost IsFit: { Self → Self.Atom → Type 0 };

    /// The object is in the atom.
    ghost IsIn: { Structures → Self.Atom → LispObject → Type 0 };

    /// How many objects are answered at most.
    ghost limit: { List Self.Atom → ℕ };

    /// Whether the object is of the class.
    fn covers(&self, object: &Object) -> bool
        ensures { Decides result (IsOfClass self.now (lisp_object object.now)) };

    /// Whether the plain form of an object of the class is in the atom. It takes no memory.
    fn holds(&self, atom: &Self::Atom, object: &Object) -> bool
        ensures { (structures : Structures) → IsOver self.now structures → IsOfClass self.now (lisp_object object.now)
            → Decides result (IsIn structures atom.now (plain (lisp_object object.now))) };

    /// Plain objects of the class that stand for all of it: for every object of the class one of them is in
    /// exactly the same atoms as its plain form.
    fn reps(&self, alloc: Global, atoms: &Items<Self::Atom>) -> Result<Items<Object>, AllocError>
        requires { AllByRecursion (IsFit self.now) atoms.now }
        // Each is plain and of the class.
        ensures plain { IfOk result (λ rs. AllByRecursion (λ r. IsPlainOf (IsOfClass self.now) (lisp_object r)) rs) }
        // Each is an object of the universe.
        ensures objects { IfOk result (λ rs. (structures : Structures) → IsOver self.now structures → AllByRecursion (λ r. IsObject structures (lisp_object r)) rs) }
        // They stand for every object of the class.
        ensures law { IfOk result (λ rs. (structures : Structures) → IsOver self.now structures → AreRepresentatives structures (IsOfClass self.now) (IsIn structures) atoms.now rs) }
        // There are few of them.
        ensures count { IfOk result (λ rs. length rs ≤ limit atoms.now) };
}

/// Whether an object of the class is in the one atom and outside the other.
fn is_outside<R: Regions>(regions: &R, first: &R::Atom, second: &R::Atom, object: &Object) -> bool
    ensures { (structures : Structures) → R.IsOver regions.now structures → R.IsOfClass regions.now (lisp_object object.now)
        → MatchBool result
        (IsInFirstOnly (R.IsIn structures) first.now second.now (plain (lisp_object object.now)))
        (IsInSecondIfFirst (R.IsIn structures) first.now second.now (plain (lisp_object object.now))) }
{
    regions.holds(first, object) && !regions.holds(second, object)
}

/// Whether every object of the class that is in the one atom is in the other. Both are in the list of atoms.
pub fn is_included_within<R: Regions>(
    alloc: Global,
    regions: &R,
    atoms: &Items<R::Atom>,
    first: &R::Atom,
    second: &R::Atom,
) -> Result<bool, AllocError>
    requires fit { AllByRecursion (R.IsFit regions.now) atoms.now }
    requires first { Contains atoms.now first.now }
    requires second { Contains atoms.now second.now }
    ensures { IfOk result (λ b. (structures : Structures) → R.IsOver regions.now structures
        → Decides b (IsIncludedWithin structures (R.IsOfClass regions.now) (R.IsIn structures) first.now second.now)) }
{
    let reps = regions.reps(alloc, atoms)?;
    for object in reps.as_slice() {
        if is_outside(regions, first, second, object) {
            return Ok(false);
        }
    }
    Ok(true)
}
