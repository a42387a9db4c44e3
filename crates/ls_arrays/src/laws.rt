// What `ArrayRegions` says of itself. The function is empty: all that it gives is its contract.

ghost use Rattle.std.specs.Prelude.{◌≡◌, ◌↔◌, ◌+◌, ◌*◌, List, length};
ghost use Rattle.ls_object.specs.Universe.{LispObject, Structures};
ghost use Rattle.ls_spec.specs.Fits.{AreSmallDimensions};
ghost use Rattle.ls_lists.specs.Candidates.{shapes};
ghost use Rattle.ls_arrays.specs.declared.atom.ArrayAtom.{ArrayAtom as Atom};
ghost use Rattle.ls_arrays.specs.Arrays as arrays;

use crate::ArrayRegions;
use ls_spec::Regions;

/// The arrays: over every structure list, for every atom whose rank and dimensions are within the limits, at most
/// `2 * (c + 1) * (1 + S)` objects, where c counts the codes that are in a set other than the whole table, and S the
/// shapes that the patterns tell apart.
pub fn regions_of_arrays(regions: &ArrayRegions)
    ensures over { (structures : Structures) → ⟦<ArrayRegions as Regions>⟧.IsOver regions.now structures }
    ensures class { (o : LispObject) → ⟦<ArrayRegions as Regions>⟧.IsOfClass regions.now o ↔ arrays.IsArray o }
    ensures fit { (a : Atom) → ⟦<ArrayRegions as Regions>⟧.IsFit regions.now a ↔ AreSmallDimensions a.dims }
    ensures inside { (structures : Structures) (a : Atom) (o : LispObject) → ⟦<ArrayRegions as Regions>⟧.IsIn structures a o ↔ arrays.IsArrayIn a o }
    ensures limit { (atoms : List Atom) → ⟦<ArrayRegions as Regions>⟧.limit atoms
        ≡ 2 * (length (arrays.codes_that (arrays.is_named atoms)) + 1) * (1 + shapes (arrays.patterns atoms)) }
{}
