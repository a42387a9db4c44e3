// What the representatives of small lists of atoms are in and outside. What is expected is worked out by hand.

ghost use Rattle.std.specs.Prelude.{IsTrue, IfOk};
ghost use Rattle.std.specs.List.{AllByRecursion};
ghost use Rattle.ls_spec.specs.Meaning.{specifier};
ghost use Rattle.ls_points.specs.Classes.{IsFitAtom, IsFitAtomOf};

use crate::asked::{Asked, is_told};
use ls_object::{Items, Object, Parents, Symbol, Text};
use ls_points::*;
use ls_spec::{Regions, Spec, is_included_within};
use std::alloc::{AllocError, Global};

/// Whether it is an atom within the limits.
fn is_fit(alloc: Global, spec: &Spec) -> bool
    ensures { IsTrue result → IsFitAtom (specifier spec.now) }
{
    match spec {
        Spec::All => false,
        Spec::Nothing => false,
        Spec::And(_) => false,
        Spec::Or(_) => false,
        Spec::Not(_) => false,
        spec => spec.fits(&Parents::new(alloc)),
    }
}

/// Whether some object is in the first atom or outside it, and in the second or outside it, as asked.
fn has<R: Regions>(
    regions: &R,
    reps: &Items<Object>,
    atoms: (&R::Atom, &R::Atom),
    inside: (bool, bool),
) -> bool {
    for object in reps.as_slice() {
        if regions.holds(atoms.0, object) == inside.0
            && regions.holds(atoms.1, object) == inside.1
        {
            return true;
        }
    }
    false
}

/// Writes whether there are objects in both atoms, in the first alone, in the second alone, and in neither.
fn push_seen<R: Regions>(
    out: &mut String,
    regions: &R,
    reps: &Items<Object>,
    atoms: (&R::Atom, &R::Atom),
) -> Option<()> {
    for inside in [(true, true), (true, false), (false, true), (false, false)] {
        out.push_str(if has(regions, reps, atoms, inside) {
            "T"
        } else {
            "-"
        })
        .ok()?;
    }
    Some(())
}

/// A class of objects.
#[derive(Clone, Copy)]
pub(crate) enum Class {
    Numbers,
    Characters,
    Symbols,
    Opaque,
}

/// The representatives of a class for two atoms.
fn reps_of(alloc: Global, class: Class, atoms: &Items<Spec>) -> Option<Items<Object>>
    requires { AllByRecursion (λ a. IsFitAtom (specifier a)) atoms.now }
{
    match class {
        Class::Numbers => NumberRegions.reps(alloc, atoms).ok(),
        Class::Characters => CharRegions.reps(alloc, atoms).ok(),
        Class::Symbols => SymbolRegions.reps(alloc, atoms).ok(),
        Class::Opaque => OpaqueRegions.reps(alloc, atoms).ok(),
    }
}

/// Writes whether representatives of a class are in both atoms of a list, in one of them alone, and in neither.
pub(crate) fn push_shares(
    alloc: Global,
    out: &mut String,
    class: Class,
    list: &Items<Spec>,
) -> Option<()> {
    let [first, second] = list.as_slice() else {
        return None;
    };
    if !is_fit(alloc, first) || !is_fit(alloc, second) {
        return None;
    }
    let reps = reps_of(alloc, class, list)?;
    match class {
        Class::Numbers => push_seen(out, &NumberRegions, &reps, (first, second)),
        Class::Characters => push_seen(out, &CharRegions, &reps, (first, second)),
        Class::Symbols => push_seen(out, &SymbolRegions, &reps, (first, second)),
        Class::Opaque => push_seen(out, &OpaqueRegions, &reps, (first, second)),
    }
}

/// Writes whether each number of the first atom of a list is in the second.
pub(crate) fn push_within(alloc: Global, out: &mut String, list: &Items<Spec>) -> Option<()> {
    let [first, second] = list.as_slice() else {
        return None;
    };
    if !is_fit(alloc, first) || !is_fit(alloc, second) {
        return None;
    }
    let within = is_included_within(alloc, &NumberRegions, list, first, second).ok()?;
    write!(out, "{within}").ok()
}

/// A class, two atoms, and whether there are representatives in both, in the first, in the second and in neither.
const SEEN: [(Class, &str, &str); 12] = [
    (Class::Numbers, "(rational (0) (1)) integer", "-TTT"),
    (Class::Numbers, "(eql 1/3) (rational 1/3 (1/2))", "T-TT"),
    (Class::Numbers, "integer rational", "T-T-"),
    (Class::Numbers, "(integer 0) (integer * 0)", "TTTT"),
    (Class::Characters, "base-char standard-char", "TT-T"),
    (Class::Characters, "(eql #\\a) standard-char", "T-TT"),
    (Class::Characters, "character (eql #\\U+80)", "TT--"),
    (Class::Symbols, "keyword null", "-TTT"),
    (Class::Symbols, "symbol keyword", "TT--"),
    (Class::Symbols, "(eql :a) keyword", "T-TT"),
    (Class::Opaque, "stream structure-object", "-TTT"),
    (Class::Opaque, "hash-table package", "-TTT"),
];

/// Pairs of atoms, and whether each number of the first is in the second.
const WITHIN: [(&str, &str); 5] = [
    ("integer rational", "true"),
    ("rational integer", "false"),
    ("(rational (0) (1)) integer", "false"),
    ("(integer (0) (2)) (eql 1)", "true"),
    ("t integer", "none"),
];

#[test]
fn representatives_stand_for_each_share(rt: HostRuntime) {
    for (class, text, want) in SEEN {
        assert!(rt;
            is_told(rt.alloc(), Asked::Shares(class), text, want),
            "at {text:?}"
        );
    }
    for (text, want) in WITHIN {
        assert!(rt;
            is_told(rt.alloc(), Asked::Within, text, want),
            "at {text:?}"
        );
    }
}

/// The symbol POINT.
fn point(alloc: Global) -> Result<Symbol, AllocError> {
    Symbol::of_common_lisp(alloc, Text::of(alloc, "POINT")?)
}

/// A list of one structure type.
fn one_type(alloc: Global) -> Result<Parents, AllocError> {
    let name = point(alloc)?;
    let mut parents = Parents::new(alloc);
    if !parents.contains(&name) {
        parents.push(name, None)?;
    }
    Ok(parents)
}

/// The structure type of that name, if it is one of these.
fn named(alloc: Global, parents: &Parents, name: &Symbol) -> Result<Items<Spec>, AllocError>
    ensures { IfOk result (λ atoms. AllByRecursion (λ a. IsFitAtomOf parents.now (specifier a)) atoms) }
{
    let mut atoms = Items::new(alloc);
    if parents.contains(name) {
        atoms.push(Spec::StructIs(name.copy()?))?;
    }
    Ok(atoms)
}

/// Whether there are some objects, each of them covered and in the first atom of a list.
fn are_all_in<R: Regions>(regions: &R, reps: &Items<Object>, atoms: &[R::Atom]) -> bool {
    let Some(atom) = atoms.first() else {
        return false;
    };
    for object in reps.as_slice() {
        if !regions.covers(object) || !regions.holds(atom, object) {
            return false;
        }
    }
    !reps.is_empty()
}

/// Whether the representatives of structures for one structure type are structures of it.
fn stand_for_their_type(alloc: Global) -> Result<bool, AllocError> {
    let parents = one_type(alloc)?;
    let atoms = named(alloc, &parents, &point(alloc)?)?;
    let regions = StructRegions::new(parents);
    let reps = regions.reps(alloc, &atoms)?;
    Ok(are_all_in(&regions, &reps, atoms.as_slice()))
}

/// Whether the representatives of structures for STRUCTURE-OBJECT are structures.
fn stand_for_all_types(alloc: Global) -> Result<bool, AllocError> {
    let regions = StructRegions::new(one_type(alloc)?);
    let mut atoms = Items::new(alloc);
    atoms.push(Spec::StructAny)?;
    let reps = regions.reps(alloc, &atoms)?;
    Ok(are_all_in(&regions, &reps, atoms.as_slice()))
}

#[test]
fn structures_stand_for_their_types(rt: HostRuntime) {
    assert_eq!(rt; stand_for_their_type(rt.alloc()).ok(), Some(true));
    assert_eq!(rt; stand_for_all_types(rt.alloc()).ok(), Some(true));
}
