// The opaque objects.

ghost use Rattle.std.specs.Prelude.{◌≡◌, ◌+◌, ◌++◌, [], ◌∷◌, true, false, map, OnOk, MatchOption};
ghost use Rattle.std.specs.List.{AllByRecursion};
ghost use Rattle.std.specs.Option.{option_to_list};
ghost use Rattle.ls_object.specs.Universe.{node, opaque};
ghost use Rattle.ls_object.specs.Meaning.{lisp_object};
ghost use Rattle.ls_spec.specs.Meaning.{specifier};
ghost use Rattle.ls_spec.specs.Truth.{holds, nothing_learnt};
ghost use Rattle.ls_points.specs.Classes.{IsOpaque};
ghost use Rattle.ls_points.specs.Members as members;
ghost use Rattle.ls_points.specs.steps.Kinds.{named_kind, named_kinds, is_in_none};

use crate::object::push_unmarked;
use ls_object::{Items, Kind, Object, Shape};
use ls_spec::{Regions, Spec, belongs_unmarked};
use std::alloc::{AllocError, Global};

/// The kinds.
const KINDS: [Kind; 16] = [
    Kind::SingleFloat,
    Kind::DoubleFloat,
    Kind::Complex,
    Kind::Function,
    Kind::CompiledFunction,
    Kind::HashTable,
    Kind::Readtable,
    Kind::Package,
    Kind::Pathname,
    Kind::LogicalPathname,
    Kind::Stream,
    Kind::RandomState,
    Kind::Condition,
    Kind::Restart,
    Kind::OtherStructure,
    Kind::Other,
];

/// The opaque objects.
pub struct OpaqueRegions;

impl Regions for OpaqueRegions {
    type Atom = Spec;

    ghost IsOver = { λ _ structures. members.IsOverEvery structures };

    ghost IsOfClass = { λ _ o. IsOpaque o };

    ghost IsFit = { λ _ a. members.IsFit a };

    ghost IsIn = { members.IsIn };

    ghost limit = { members.kind_limit };

    fn covers(&self, object: &Object) -> bool {
        match object.shape {
            Shape::Opaque(_) => true,
            _ => false,
        }
    }

    fn holds(&self, atom: &Spec, object: &Object) -> bool {
        belongs_unmarked(atom, &object.shape)
    }

    /// The kinds that atoms name, OTHER-STRUCTURE, which is in STRUCTURE-OBJECT, and a kind that is in no atom.
    fn reps(&self, alloc: Global, atoms: &Items<Spec>) -> Result<Items<Object>, AllocError> {
        let mut out = Items::new(alloc);
        push_named(alloc, atoms.as_slice(), &mut out)?;
        push_kind(alloc, Kind::OtherStructure, &mut out)?;
        let unnamed = first_in_none(&KINDS, atoms.as_slice());
        push_found(alloc, unnamed, &mut out)?;
        Ok(out)
    }
}

/// Appends opaque objects of the kinds that the atoms name.
fn push_named(alloc: Global, atoms: &[Spec], out: &mut Items<Object>) -> Result<(), AllocError>
    ensures { OnOk result (map lisp_object out.new ≡ map lisp_object out.old ++ map (λ k. node [] (opaque k)) (named_kinds atoms.now)) }
{
    for atom in atoms {
        push_named_by(alloc, atom, out)?;
    }
    Ok(())
}

/// Appends an opaque object of the kind that an atom names, if it names one.
fn push_named_by(alloc: Global, atom: &Spec, out: &mut Items<Object>) -> Result<(), AllocError>
    ensures { OnOk result (map lisp_object out.new ≡ map lisp_object out.old ++ map (λ k. node [] (opaque k)) (named_kind (specifier atom.now))) }
{
    if let Spec::Kind(kind) = atom {
        push_kind(alloc, *kind, out)?;
    }
    Ok(())
}

/// Appends an opaque object of the kind.
fn push_kind(alloc: Global, kind: Kind, out: &mut Items<Object>) -> Result<(), AllocError>
    ensures { OnOk result (map lisp_object out.new ≡ map lisp_object out.old ++ node [] (opaque kind) ∷ []) }
{
    push_unmarked(alloc, Shape::Opaque(kind), out)
}

/// Appends an opaque object of the kind, if there is one.
fn push_found(alloc: Global, found: Option<Kind>, out: &mut Items<Object>) -> Result<(), AllocError>
    ensures { OnOk result (map lisp_object out.new ≡ map lisp_object out.old ++ map (λ k. node [] (opaque k)) (option_to_list found)) }
{
    if let Some(kind) = found {
        push_kind(alloc, kind, out)?;
    }
    Ok(())
}

/// The first of the kinds that is in none of the atoms.
fn first_in_none(kinds: &[Kind], atoms: &[Spec]) -> Option<Kind>
    ensures { MatchOption result (AllByRecursion (λ k. is_in_none k atoms.now ≡ false) kinds.now) (λ k. is_in_none k atoms.now ≡ true) }
{
    for kind in kinds {
        if is_in_none(*kind, atoms) {
            return Some(*kind);
        }
    }
    None
}

/// Whether an opaque object of the kind is in none of the atoms.
fn is_in_none(kind: Kind, atoms: &[Spec]) -> bool
    ensures { result ≡ is_in_none kind atoms.now }
{
    for atom in atoms {
        if is_in(kind, atom) {
            return false;
        }
    }
    true
}

/// Whether an opaque object of the kind is in the atom.
fn is_in(kind: Kind, atom: &Spec) -> bool
    ensures { result ≡ holds nothing_learnt (specifier atom.now) (node [] (opaque kind)) }
{
    belongs_unmarked(atom, &Shape::Opaque(kind))
}
