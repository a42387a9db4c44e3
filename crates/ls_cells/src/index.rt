// The EQL atoms of a list by their keys, so that those of an object are found and not tested one by one.

ghost use Rattle.std.specs.Prelude.{ℕ, List, ◌≡◌, ◌<◌, length, map, IfOk, OnOk, MatchOption, Some};
ghost use Rattle.ls_object.specs.Meaning.{lisp_object, lisp_shape};
ghost use Rattle.ls_spec.specs.Specifier.{eql_to};
ghost use Rattle.ls_spec.specs.Meaning.{specifier};
ghost use Rattle.ls_spec.specs.Keys.{key};
ghost use Rattle.ls_memo.specs.Kept.{kept_for};
ghost use Rattle.ls_cells.specs.steps.Index.{IsEql, IsNoPoint, IsKeyOf, IsPlaceOf, AreApart, AreFound, IsIndexOf, AddsAtom};

use crate::names::Names;
use crate::signs::Signs;
use ls_object::{Items, Object, Shape};
use ls_spec::{Point, Spec, key_of};
use std::alloc::{AllocError, Global};

/// The places of the EQL atoms of a list by their keys, and those of the other atoms. An EQL atom that stands twice is
/// among the others the second time.
#[derive(Drop)]
pub(crate) struct Index {
    names: Names,
    others: Items<usize>,
}

impl Index {
    /// That of a list of atoms. An error comes for want of memory.
    pub(crate) fn of_atoms(alloc: Global, atoms: &[Spec]) -> Result<Index, AllocError>
        ensures { IfOk result (IsIndexOf (map specifier atoms.now) (length atoms.now)) }
    {
        let mut index = Index {
            names: Names::new(alloc),
            others: Items::new(alloc),
        };
        for i in 0..atoms.len() {
            index.add(alloc, &atoms[i], i)?;
        }
        Ok(index)
    }

    // Adds the atom at a place.
    fn add(&mut self, alloc: Global, atom: &Spec, i: usize) -> Result<(), AllocError>
        ensures { OnOk result (AddsAtom (specifier atom.now) i self.old self.new) }
    {
        if let Spec::Eql(_) = atom {
            return self.add_named(alloc, atom, i);
        }
        self.others.push(i)?;
        Ok(())
    }

    // Adds the EQL atom at a place.
    fn add_named(&mut self, alloc: Global, atom: &Spec, i: usize) -> Result<(), AllocError>
        requires { IsEql (specifier atom.now) }
        ensures { OnOk result (AddsAtom (specifier atom.now) i self.old self.new) }
    {
        let key = key_of(alloc, atom)?;
        match self.names.get(key.as_slice()) {
            Some(_before) => {
                self.others.push(i)?;
                Ok(())
            }
            None => {
                self.names.put(key, i)?;
                Ok(())
            }
        }
    }

    /// The places of the atoms that are tested one by one.
    pub(crate) fn others(&self) -> &[usize]
        ensures { result.now ≡ self.now.others }
    {
        self.others.as_slice()
    }

    /// As many truth values as atoms, true at the EQL atom that is found for the object and false elsewhere. An error
    /// comes for want of memory.
    pub(crate) fn found(
        &self,
        alloc: Global,
        len: usize,
        object: &Object,
    ) -> Result<Signs, AllocError>
        requires below { (q : List ℕ) (i : ℕ) → kept_for q self.now.names ≡ Some i → i < len }
        requires apart { AreApart self.now.names }
        ensures { IfOk result (AreFound len self.now.names (lisp_object object.now)) }
    {
        let mut signs = Signs::interval(alloc, len, 0, 0)?;
        match place_of(alloc, &self.names, &object.shape)? {
            None => Ok(signs),
            Some(place) => {
                signs.set(place, true);
                Ok(signs)
            }
        }
    }
}

// The key of an EQL atom for that point.
fn key_of_point(alloc: Global, point: Point) -> Result<Vec<u128>, AllocError>
    ensures { IfOk result (λ k. k.items ≡ key (eql_to point)) }
{
    key_of(alloc, &Spec::Eql(point))
}

// The key of the EQL atoms that an object of this shape is in, if it can be in one.
fn key_of_shape(alloc: Global, shape: &Shape) -> Result<Option<Vec<u128>>, AllocError>
    ensures { IfOk result (λ r. MatchOption r (IsNoPoint (lisp_shape shape.now)) (λ k. IsKeyOf (lisp_shape shape.now) k.items)) }
{
    match shape {
        Shape::Number(r) => Ok(Some(key_of_point(alloc, Point::Number(*r))?)),
        Shape::Char(c) => Ok(Some(key_of_point(alloc, Point::Char(*c))?)),
        Shape::Sym(s) => Ok(Some(key_of_point(alloc, Point::Sym(s.copy()?))?)),
        Shape::Pair(_, _) => Ok(None),
        Shape::Array {
            elem: _,
            simple: _,
            dims: _,
        } => Ok(None),
        Shape::Structure(_) => Ok(None),
        Shape::Opaque(_) => Ok(None),
    }
}

// The place of the EQL atom that an object of this shape is in, if one is named.
fn place_of(alloc: Global, names: &Names, shape: &Shape) -> Result<Option<usize>, AllocError>
    requires { AreApart names.now }
    ensures { IfOk result (IsPlaceOf names.now (lisp_shape shape.now)) }
{
    match key_of_shape(alloc, shape)? {
        None => Ok(None),
        Some(key) => Ok(names.get(key.as_slice())),
    }
}
