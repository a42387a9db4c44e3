// Arrays that stand for all arrays.

ghost use Rattle.std.specs.Prelude.{◌≡◌, ◌++◌, [], map, OnOk, IfOk};
ghost use Rattle.ls_object.specs.Meaning.{lisp_object};
ghost use Rattle.ls_object.specs.Universe.{node, array};
ghost use Rattle.ls_spec.specs.Limits.{dimension_limit};
ghost use Rattle.ls_arrays.specs.Arrays as arrays;
ghost use Rattle.ls_arrays.specs.steps.Representatives as rep;

use crate::atom::{ArrayAtom, is_in};
use crate::codes::stand_ins;
use crate::columns::{columns, ranks};
use crate::tuples::tuples;
use ls_object::{Code, Dims, Items, Object, Shape};
use ls_spec::Regions;
use std::alloc::{AllocError, Global};

/// The arrays.
pub struct ArrayRegions;

impl Regions for ArrayRegions {
    type Atom = ArrayAtom;

    ghost IsOver = { λ _ structures. arrays.IsOverEvery structures };

    ghost IsOfClass = { λ _ o. arrays.IsArray o };

    ghost IsFit = { λ _ a. arrays.IsFit a };

    ghost IsIn = { arrays.IsIn };

    ghost limit = { arrays.array_limit };

    fn covers(&self, object: &Object) -> bool {
        match &object.shape {
            Shape::Array {
                elem: _,
                simple: _,
                dims: _,
            } => true,
            _ => false,
        }
    }

    fn holds(&self, atom: &ArrayAtom, object: &Object) -> bool {
        is_in(atom, &object.shape)
    }

    /// Arrays, simple and not, of each element code that a set other than the whole table has and of one more, and of
    /// dimensions that match the same patterns as any: of each rank that a pattern names those with a number that
    /// patterns name at each place, or with another one there, and dimensions of a rank that none names.
    fn reps(&self, alloc: Global, atoms: &Items<ArrayAtom>) -> Result<Items<Object>, AllocError> {
        let codes = stand_ins(alloc, atoms.as_slice())?;
        let dims = all_dims(alloc, atoms.as_slice())?;
        let out = with_codes(alloc, codes.as_slice(), dims.as_slice())?;
        Ok(out)
    }
}

/// The greatest of the numbers, or 0.
fn greatest(numbers: &[u64]) -> u64
    ensures { result ≡ rep.greatest numbers.now }
{
    let mut most = 0;
    for n in numbers {
        most = most.max(*n);
    }
    most
}

/// Dimensions of a rank that isn't named.
fn unnamed_dims(alloc: Global, ranks: &[u64]) -> Result<Items<u64>, AllocError>
    ensures { IfOk result (λ t. t ≡ rep.unnamed_dims ranks.now) }
{
    let mut out = Items::new(alloc);
    out.push(0)?;
    for place in 0..greatest(ranks) {
        out.push(0)?;
    }
    Ok(out)
}

/// Appends the dimensions that stand for all of the rank.
fn push_rank(
    alloc: Global,
    atoms: &[ArrayAtom],
    rank: u64,
    out: &mut Items<Items<u64>>,
) -> Result<(), AllocError>
    ensures { OnOk result (out.new ≡ out.old ++ rep.tuples dimension_limit (rep.columns rank (rep.places_of atoms.now))) }
{
    let places = columns(alloc, atoms, rank)?;
    out.append(tuples(alloc, places.as_slice())?)?;
    Ok(())
}

/// The dimensions that stand for all.
fn all_dims(alloc: Global, atoms: &[ArrayAtom]) -> Result<Items<Items<u64>>, AllocError>
    ensures { IfOk result (λ ts. ts ≡ rep.dimension_stand_ins dimension_limit (rep.places_of atoms.now)) }
{
    let named = ranks(alloc, atoms)?;
    let mut out = Items::new(alloc);
    let each = named.as_slice();
    out.push(unnamed_dims(alloc, each)?)?;
    for rank in each {
        push_rank(alloc, atoms, *rank, &mut out)?;
    }
    Ok(out)
}

/// The numbers as dimensions.
fn dims_of(alloc: Global, numbers: &[u64]) -> Result<Dims, AllocError>
    ensures { IfOk result (λ dims. dims ≡ numbers.now) }
{
    let mut out = Dims::new(alloc);
    for n in numbers {
        out.push(*n)?;
    }
    Ok(out)
}

/// The array of this code and these dimensions, without marks.
fn unmarked(alloc: Global, elem: Code, simple: bool, numbers: &[u64]) -> Result<Object, AllocError>
    ensures { IfOk result (λ o. lisp_object o ≡ node [] (array elem.index simple numbers.now)) }
{
    let dims = dims_of(alloc, numbers)?;
    Ok(Object {
        marks: Items::new(alloc),
        shape: Shape::Array { elem, simple, dims },
    })
}

/// Appends an array of each of the dimensions.
fn push_arrays(
    alloc: Global,
    elem: Code,
    simple: bool,
    dims: &[Items<u64>],
    out: &mut Items<Object>,
) -> Result<(), AllocError>
    ensures { OnOk result (map lisp_object out.new ≡ map lisp_object out.old ++ rep.with_dims dims.now elem.index simple) }
{
    for numbers in dims {
        out.push(unmarked(alloc, elem, simple, numbers.as_slice())?)?;
    }
    Ok(())
}

/// Appends arrays of the code and each of the dimensions, some simple and some not.
fn push_code(
    alloc: Global,
    elem: Code,
    dims: &[Items<u64>],
    out: &mut Items<Object>,
) -> Result<(), AllocError>
    ensures { OnOk result (map lisp_object out.new ≡ map lisp_object out.old ++ rep.with_code dims.now elem.index) }
{
    push_arrays(alloc, elem, false, dims, out)?;
    push_arrays(alloc, elem, true, dims, out)?;
    Ok(())
}

/// Arrays of each of the codes and each of the dimensions, some simple and some not.
fn with_codes(
    alloc: Global,
    codes: &[Code],
    dims: &[Items<u64>],
) -> Result<Items<Object>, AllocError>
    ensures { IfOk result (λ rs. map lisp_object rs ≡ rep.with_codes dims.now (map (λ c. c.index) codes.now)) }
{
    let mut out = Items::new(alloc);
    for code in codes {
        push_code(alloc, *code, dims, &mut out)?;
    }
    Ok(out)
}
