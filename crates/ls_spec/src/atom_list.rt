// The atoms of specifiers.

ghost use Rattle.std.specs.Prelude.{◌≡◌, [], map, IfOk, OnOk, fold};
ghost use Rattle.ls_spec.specs.Meaning.{specifier, specifiers};
ghost use Rattle.ls_spec.specs.Atoms.{atoms_of, leaves, leaves_of_all};
ghost use Rattle.ls_spec.specs.Distinct.{with_new};
ghost use Rattle.ls_spec.specs.steps.Finding.{AreKeysOf};

use crate::key::key_of;
use crate::spec::Spec;
use indexmap::IndexSet;
use ls_object::Items;
use std::alloc::{AllocError, Global};

/// The distinct specifiers other than T, NIL, AND, OR and NOT that are reached from those of the list through AND,
/// OR and NOT, in order of first occurrence. Repeats are found by a look-up.
pub fn atoms(alloc: Global, list: &Items<Spec>) -> Result<Items<Spec>, AllocError>
    ensures { IfOk result (λ found. map specifier found ≡ atoms_of (map specifier list.now)) }
{
    let mut seen = IndexSet::new(alloc);
    let mut found = Items::new(alloc);
    add_all(list.as_slice(), alloc, &mut seen, &mut found)?;
    Ok(found)
}

/// Adds the atoms of a specifier that are not among those found, of which the keys are seen.
#[cycle(atoms)]
fn add(
    spec: &Spec,
    alloc: Global,
    seen: &mut IndexSet<Vec<u128>>,
    found: &mut Items<Spec>,
) -> Result<(), AllocError>
    requires { AreKeysOf seen.old.keys (map specifier found.old) }
    ensures keys { OnOk result (AreKeysOf seen.new.keys (map specifier found.new)) }
    ensures found { OnOk result (map specifier found.new ≡ fold with_new (map specifier found.old) (leaves (specifier spec.now))) }
{
    match spec {
        Spec::All => Ok(()),
        Spec::Nothing => Ok(()),
        Spec::And(parts) => add_all(parts.as_slice(), alloc, seen, found),
        Spec::Or(parts) => add_all(parts.as_slice(), alloc, seen, found),
        Spec::Not(part) => add(part.get(), alloc, seen, found),
        Spec::Eql(_) => add_atom(spec, alloc, seen, found),
        Spec::Range {
            kind: _,
            lo: _,
            hi: _,
        } => add_atom(spec, alloc, seen, found),
        Spec::Chars(_) => add_atom(spec, alloc, seen, found),
        Spec::Symbols(_) => add_atom(spec, alloc, seen, found),
        Spec::Kind(_) => add_atom(spec, alloc, seen, found),
        Spec::StructIs(_) => add_atom(spec, alloc, seen, found),
        Spec::StructAny => add_atom(spec, alloc, seen, found),
        Spec::ArrayOf {
            elem,
            simple: _,
            dims: _,
        } => match elem {
            None => add_atom(spec, alloc, seen, found),
            Some(_) => add_atom(spec, alloc, seen, found),
        },
        Spec::StringOf { simple: _, dim: _ } => add_atom(spec, alloc, seen, found),
        Spec::ConsOf(_, _) => add_atom(spec, alloc, seen, found),
        Spec::Satisfies(_) => add_atom(spec, alloc, seen, found),
    }
}

/// Adds those of each of the specifiers.
#[cycle(atoms)]
fn add_all(
    specs: &[Spec],
    alloc: Global,
    seen: &mut IndexSet<Vec<u128>>,
    found: &mut Items<Spec>,
) -> Result<(), AllocError>
    requires { AreKeysOf seen.old.keys (map specifier found.old) }
    ensures keys { OnOk result (AreKeysOf seen.new.keys (map specifier found.new)) }
    ensures found { OnOk result (map specifier found.new ≡ fold with_new (map specifier found.old) (leaves_of_all (specifiers specs.now))) }
{
    for spec in specs {
        add(spec, alloc, seen, found)?;
    }
    Ok(())
}

/// Adds the specifier itself, if it isn't among those found.
fn add_atom(
    spec: &Spec,
    alloc: Global,
    seen: &mut IndexSet<Vec<u128>>,
    found: &mut Items<Spec>,
) -> Result<(), AllocError>
    requires { AreKeysOf seen.old.keys (map specifier found.old) }
    ensures keys { OnOk result (AreKeysOf seen.new.keys (map specifier found.new)) }
    ensures found { OnOk result (map specifier found.new ≡ with_new (map specifier found.old) (specifier spec.now)) }
{
    if seen.insert(key_of(alloc, spec)?)? {
        found.push(spec.copy(alloc)?)?;
    }
    Ok(())
}
