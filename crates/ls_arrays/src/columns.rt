// The ranks that patterns name, and the numbers that they name at each place.

ghost use Rattle.std.specs.Prelude.{◌≡◌, [], OnOk, IfOk};
ghost use Rattle.ls_arrays.specs.steps.Representatives as rep;

use crate::atom::ArrayAtom;
use crate::numbers::{push_named, push_new};
use ls_object::Items;
use ls_spec::DimPattern;
use std::alloc::{AllocError, Global};

/// The number that is asked for at a place, if there is one.
fn name_in(places: &[Option<u64>], place: usize) -> Option<u64>
    ensures { result ≡ rep.name_at place places.now }
{
    if place < places.len() {
        places[place]
    } else {
        None
    }
}

/// Adds the rank that the pattern names, unless it is there.
fn push_rank(pattern: &DimPattern, out: &mut Items<u64>) -> Result<(), AllocError>
    ensures { OnOk result (out.new ≡ rep.ranks_with out.old pattern.now) }
{
    match pattern {
        DimPattern::Any => Ok(()),
        DimPattern::Places(places) => push_new(out, places.len() as u64),
    }
}

/// The ranks that the patterns of the atoms name, each once.
pub(crate) fn ranks(alloc: Global, atoms: &[ArrayAtom]) -> Result<Items<u64>, AllocError>
    ensures { IfOk result (λ ranks. ranks ≡ rep.ranks_past [] (rep.places_of atoms.now)) }
{
    let mut out = Items::new(alloc);
    for atom in atoms {
        push_rank(&atom.dims, &mut out)?;
    }
    Ok(out)
}

/// Adds the number that a pattern of the rank names at the place, unless it is there.
fn push_at(
    pattern: &DimPattern,
    rank: u64,
    place: usize,
    out: &mut Items<u64>,
) -> Result<(), AllocError>
    ensures { OnOk result (out.new ≡ rep.column_with out.old rank place pattern.now) }
{
    match pattern {
        DimPattern::Any => Ok(()),
        DimPattern::Places(places) => {
            if places.len() as u64 != rank {
                return Ok(());
            }
            push_named(out, name_in(places.as_slice(), place))
        }
    }
}

/// The numbers that patterns of the rank name at the place, each once.
fn column_of(
    alloc: Global,
    atoms: &[ArrayAtom],
    rank: u64,
    place: usize,
) -> Result<Items<u64>, AllocError>
    ensures { IfOk result (λ numbers. numbers ≡ rep.column rank place (rep.places_of atoms.now)) }
{
    let mut out = Items::new(alloc);
    for atom in atoms {
        push_at(&atom.dims, rank, place, &mut out)?;
    }
    Ok(out)
}

/// The same of each place.
pub(crate) fn columns(
    alloc: Global,
    atoms: &[ArrayAtom],
    rank: u64,
) -> Result<Items<Items<u64>>, AllocError>
    ensures { IfOk result (λ found. found ≡ rep.columns rank (rep.places_of atoms.now)) }
{
    let mut out = Items::new(alloc);
    for place in 0..rank as usize {
        out.push(column_of(alloc, atoms, rank, place)?)?;
    }
    Ok(out)
}
