// The structures of a file.

ghost use Rattle.std.specs.Prelude.{◌≡◌, ◌+◌, ◌++◌, ◌∷◌, [], map, IfOk, OnOk, List, MatchBool, MatchOption};
ghost use Rattle.std.specs.Bool.{Decides};
ghost use Rattle.std.specs.List.{AllByRecursion, Contains};
ghost use Rattle.std.specs.Option.{option_to_list, ForSome};
ghost use Rattle.ls_object.specs.declared.symbol.Symbol.{Symbol};
ghost use Rattle.ls_object.specs.Meaning.{lisp_object};
ghost use Rattle.ls_object.specs.Universe.{node, structure, IsName};
ghost use Rattle.ls_spec.specs.Meaning.{specifier, specifiers};
ghost use Rattle.ls_spec.specs.Membership.{Belongs, BelongsToAll, BelongsToSome};
ghost use Rattle.ls_points.specs.Classes.{IsStructure};
ghost use Rattle.ls_points.specs.Members as members;
ghost use Rattle.ls_points.specs.steps.Inheriting.{named_structure, named_structures, IsOneOf, IsNewRoot, IsRootNamed, IsUnnamedRoot, AreRootsNamed, AddsKeys, is_key_of, has_key};

use crate::object::push_unmarked;
use crate::symbols::read_name;
use indexmap::IndexSet;
use ls_object::{Items, Object, Parents, Shape, Symbol};
use ls_spec::{Regions, Spec, key_of_name};
use std::alloc::{AllocError, Global};
use std::marker::Model;

/// The structures of the structure types of a file.
#[derive(Drop)]
pub struct StructRegions {
    parents: Parents,
}

impl Model for StructRegions {
    ghost use Rattle.ls_object.specs.Universe.{Structures};

    ghost Value = { Structures };

    ghost view = { λ regions. regions.parents };
}

impl StructRegions {
    /// Those of these structure types.
    pub fn new(parents: Parents) -> StructRegions
        ensures { result ≡ parents }
    {
        StructRegions { parents }
    }
}

impl Regions for StructRegions {
    type Atom = Spec;

    ghost IsOver = { members.IsOverItsOwn };

    ghost IsOfClass = { IsStructure };

    ghost IsFit = { members.IsFitIn };

    ghost IsIn = { members.IsIn };

    ghost limit = { members.structure_limit };

    fn covers(&self, object: &Object) -> bool {
        match &object.shape {
            Shape::Structure(name) => self.parents.contains(name),
            _ => false,
        }
    }

    fn holds(&self, atom: &Spec, object: &Object) -> bool {
        match &object.shape {
            Shape::Structure(name) => is_in(atom, &self.parents, name),
            _ => false,
        }
    }

    /// Structures of the types that atoms name, and one of a type that includes none and isn't named. The first
    /// named type on the way from a type to those that it includes decides in which atoms its structures are.
    fn reps(&self, alloc: Global, atoms: &Items<Spec>) -> Result<Items<Object>, AllocError> {
        let mut keys = IndexSet::new(alloc);
        add_keys(alloc, atoms.as_slice(), &mut keys)?;
        let mut out = Items::new(alloc);
        push_named(alloc, atoms.as_slice(), &mut out)?;
        let root = first_root(alloc, self.parents.as_slice(), &keys)?;
        push_found(alloc, root, &mut out)?;
        Ok(out)
    }
}

/// Whether the plain structure of that name belongs to the specifier.
#[cycle(is_in)]
fn is_in(spec: &Spec, parents: &Parents, name: &Symbol) -> bool
    ensures { Decides result (Belongs parents.now (specifier spec.now) (node [] (structure name.now))) }
{
    match spec {
        Spec::All => true,
        Spec::And(parts) => is_in_all(parts.as_slice(), parents, name),
        Spec::Or(parts) => is_in_some(parts.as_slice(), parents, name),
        Spec::Not(part) => !is_in(part.get(), parents, name),
        Spec::StructIs(other) => parents.is_under(name, other),
        Spec::StructAny => true,
        Spec::Nothing => false,
        Spec::Eql(_) => false,
        Spec::Range {
            kind: _,
            lo: _,
            hi: _,
        } => false,
        Spec::Chars(_) => false,
        Spec::Symbols(_) => false,
        Spec::Kind(_) => false,
        Spec::ArrayOf {
            elem,
            simple: _,
            dims: _,
        } => match elem {
            None => false,
            Some(_) => false,
        },
        Spec::StringOf { simple: _, dim: _ } => false,
        Spec::ConsOf(_, _) => false,
        Spec::Satisfies(_) => false,
    }
}

#[cycle(is_in)]
fn is_in_all(parts: &[Spec], parents: &Parents, name: &Symbol) -> bool
    ensures { Decides result (BelongsToAll parents.now (specifiers parts.now) (node [] (structure name.now))) }
{
    for part in parts {
        if !is_in(part, parents, name) {
            return false;
        }
    }
    true
}

#[cycle(is_in)]
fn is_in_some(parts: &[Spec], parents: &Parents, name: &Symbol) -> bool
    ensures { Decides result (BelongsToSome parents.now (specifiers parts.now) (node [] (structure name.now))) }
{
    for part in parts {
        if is_in(part, parents, name) {
            return true;
        }
    }
    false
}

/// Adds the keys of the structure names of the atoms.
fn add_keys(alloc: Global, atoms: &[Spec], keys: &mut IndexSet<Vec<u128>>) -> Result<(), AllocError>
    ensures { OnOk result (AddsKeys (named_structures atoms.now) keys.old.keys keys.new.keys) }
{
    for atom in atoms {
        add_key_of(alloc, atom, keys)?;
    }
    Ok(())
}

/// Adds the key of the structure name of an atom, if it has one.
fn add_key_of(alloc: Global, atom: &Spec, keys: &mut IndexSet<Vec<u128>>) -> Result<(), AllocError>
    ensures { OnOk result (AddsKeys (named_structure (specifier atom.now)) keys.old.keys keys.new.keys) }
{
    if let Spec::StructIs(name) = atom {
        add_key(alloc, name, keys)?;
    }
    Ok(())
}

fn add_key(alloc: Global, name: &Symbol, keys: &mut IndexSet<Vec<u128>>) -> Result<(), AllocError>
    ensures { OnOk result (AddsKeys (name.now ∷ []) keys.old.keys keys.new.keys) }
{
    keys.insert(key_of_name(alloc, name)?)?;
    Ok(())
}

/// Appends structures of the types that the atoms name.
fn push_named(alloc: Global, atoms: &[Spec], out: &mut Items<Object>) -> Result<(), AllocError>
    ensures objects { OnOk result (map lisp_object out.new ≡ map lisp_object out.old ++ map (λ s. node [] (structure s)) (named_structures atoms.now)) }
    ensures names { OnOk result (AllByRecursion IsName (named_structures atoms.now)) }
{
    for atom in atoms {
        push_named_by(alloc, atom, out)?;
    }
    Ok(())
}

/// Appends a structure of the type that an atom names, if it names one.
fn push_named_by(alloc: Global, atom: &Spec, out: &mut Items<Object>) -> Result<(), AllocError>
    ensures objects { OnOk result (map lisp_object out.new ≡ map lisp_object out.old ++ map (λ s. node [] (structure s)) (named_structure (specifier atom.now))) }
    ensures names { OnOk result (AllByRecursion IsName (named_structure (specifier atom.now))) }
{
    if let Spec::StructIs(name) = atom {
        read_name(name);
        push_structure(alloc, name.copy()?, out)?;
    }
    Ok(())
}

/// Appends a structure of the type.
fn push_structure(alloc: Global, name: Symbol, out: &mut Items<Object>) -> Result<(), AllocError>
    ensures { OnOk result (map lisp_object out.new ≡ map lisp_object out.old ++ node [] (structure name) ∷ []) }
{
    push_unmarked(alloc, Shape::Structure(name), out)
}

/// Appends a structure of the type, if there is one.
fn push_found(
    alloc: Global,
    found: Option<Symbol>,
    out: &mut Items<Object>,
) -> Result<(), AllocError>
    ensures { OnOk result (map lisp_object out.new ≡ map lisp_object out.old ++ map (λ s. node [] (structure s)) (option_to_list found)) }
{
    if let Some(name) = found {
        push_structure(alloc, name, out)?;
    }
    Ok(())
}

/// The first structure type that includes none and whose key is not among these.
fn first_root(
    alloc: Global,
    pairs: &[(Symbol, Option<Symbol>)],
    keys: &IndexSet<Vec<u128>>,
) -> Result<Option<Symbol>, AllocError>
    ensures root { (names : List Symbol) → AddsKeys names [] keys.now.keys → IfOk result (λ found. MatchOption found (AreRootsNamed pairs.now names) (IsUnnamedRoot pairs.now names)) }
    ensures name { IfOk result (λ found. ForSome found IsName) }
{
    for pair in pairs {
        if is_unnamed_root(alloc, pair, keys)? {
            let (name, _) = pair;
            read_name(name);
            return Ok(Some(name.copy()?));
        }
    }
    Ok(None)
}

/// Whether the structure type includes none and its key is not among these.
fn is_unnamed_root(
    alloc: Global,
    pair: &(Symbol, Option<Symbol>),
    keys: &IndexSet<Vec<u128>>,
) -> Result<bool, AllocError>
    ensures { IfOk result (λ b. (names : List Symbol) → AddsKeys names [] keys.now.keys → MatchBool b (IsNewRoot names pair.now) (IsRootNamed names pair.now)) }
{
    let (name, include) = pair;
    match include {
        Some(_) => Ok(false),
        None => Ok(!has_key(alloc, name, keys)?),
    }
}

/// Whether the key of the name is among these.
fn has_key(alloc: Global, name: &Symbol, keys: &IndexSet<Vec<u128>>) -> Result<bool, AllocError>
    ensures { IfOk result (λ b. (names : List Symbol) → AddsKeys names [] keys.now.keys → Decides b (IsOneOf name.now names)) }
{
    let key = key_of_name(alloc, name)?;
    Ok(keys.contains(&key))
}
