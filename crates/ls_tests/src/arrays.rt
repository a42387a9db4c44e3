// What the representatives of arrays are in and outside. What is expected is worked out by hand.

ghost use Rattle.std.specs.Prelude.{IfOk};
ghost use Rattle.std.specs.List.{AllByRecursion};
ghost use Rattle.ls_arrays.specs.Arrays.{IsFit};

use ls_arrays::{ArrayAtom, ArrayRegions};
use ls_object::{BASE_CHAR_PLACE, CHARACTER_PLACE, Items, Object, TABLE_LEN};
use ls_spec::{DimPattern, Regions};
use ls_tables::TagSet;
use std::alloc::{AllocError, Global};
use std::test::*;

/// ARRAY or SIMPLE-ARRAY, of any element type.
fn any_array(simple: bool) -> ArrayAtom
    ensures { IsFit result }
{
    ArrayAtom {
        codes: TagSet::<TABLE_LEN>::empty().complement(),
        simple,
        dims: DimPattern::Any,
    }
}

/// Arrays of characters or of base characters, of any dimensions.
fn array_of_characters() -> ArrayAtom
    ensures { IsFit result }
{
    ArrayAtom {
        codes: TagSet::<TABLE_LEN>::empty()
            .insert(usize::from(BASE_CHAR_PLACE))
            .insert(usize::from(CHARACTER_PLACE)),
        simple: false,
        dims: DimPattern::Any,
    }
}

/// Arrays of two dimensions, of which the first is 3.
fn matrix(alloc: Global) -> Result<ArrayAtom, AllocError>
    ensures { IfOk result IsFit }
{
    let mut places = Items::new(alloc);
    places.push(Some(3))?;
    places.push(None)?;
    Ok(ArrayAtom {
        codes: TagSet::<TABLE_LEN>::empty().complement(),
        simple: false,
        dims: DimPattern::Places(places),
    })
}

/// A list of two atoms.
fn two(alloc: Global, first: ArrayAtom, second: ArrayAtom) -> Result<Items<ArrayAtom>, AllocError>
    requires first { IsFit first }
    requires second { IsFit second }
    ensures { IfOk result (λ atoms. AllByRecursion IsFit atoms) }
{
    let mut atoms = Items::new(alloc);
    atoms.push(first)?;
    atoms.push(second)?;
    Ok(atoms)
}

/// Whether some object is in the first atom or outside it, and in the second or outside it, as asked.
fn has(reps: &Items<Object>, atoms: (&ArrayAtom, &ArrayAtom), inside: (bool, bool)) -> bool {
    for object in reps.as_slice() {
        if ArrayRegions.holds(atoms.0, object) == inside.0
            && ArrayRegions.holds(atoms.1, object) == inside.1
        {
            return true;
        }
    }
    false
}

#[test]
fn some_arrays_are_simple_and_some_not(rt: HostRuntime) -> Result<(), Fail> {
    let atoms = two(rt.alloc(), any_array(false), any_array(true))?;
    let reps = ArrayRegions.reps(rt.alloc(), &atoms)?;
    let pair = (&any_array(false), &any_array(true));
    assert_eq!(rt; reps.len(), 2);
    assert!(rt; has(&reps, pair, (true, true)));
    assert!(rt; has(&reps, pair, (true, false)));
    assert!(rt; !has(&reps, pair, (false, true)));
    Ok(())
}

#[test]
fn codes_that_are_named_and_one_more(rt: HostRuntime) -> Result<(), Fail> {
    let atoms = two(rt.alloc(), any_array(true), array_of_characters())?;
    let reps = ArrayRegions.reps(rt.alloc(), &atoms)?;
    let pair = (&any_array(true), &array_of_characters());
    assert_eq!(rt; reps.len(), 6);
    assert!(rt; has(&reps, pair, (true, true)));
    assert!(rt; has(&reps, pair, (true, false)));
    assert!(rt; has(&reps, pair, (false, true)));
    assert!(rt; has(&reps, pair, (false, false)));
    Ok(())
}

#[test]
fn dimensions_that_are_named_and_others(rt: HostRuntime) -> Result<(), Fail> {
    let atoms = two(rt.alloc(), any_array(true), matrix(rt.alloc())?)?;
    let reps = ArrayRegions.reps(rt.alloc(), &atoms)?;
    let pair = (&any_array(true), &matrix(rt.alloc())?);
    assert_eq!(rt; reps.len(), 6);
    assert!(rt; has(&reps, pair, (true, true)));
    assert!(rt; has(&reps, pair, (true, false)));
    assert!(rt; has(&reps, pair, (false, true)));
    assert!(rt; has(&reps, pair, (false, false)));
    Ok(())
}
