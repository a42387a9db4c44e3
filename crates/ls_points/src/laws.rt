// What each implementation of `Regions` says of itself. Each function is empty: all that it gives is its contract.

ghost use Rattle.std.specs.Prelude.{◌≡◌, ◌↔◌, ◌+◌, ◌*◌, List, map};
ghost use Rattle.ls_object.specs.Universe.{LispObject, Structures};
ghost use Rattle.ls_spec.specs.declared.spec.Spec.{Spec};
ghost use Rattle.ls_spec.specs.Meaning.{specifier};
ghost use Rattle.ls_spec.specs.Membership.{Belongs};
ghost use Rattle.ls_points.specs.Classes as class;

use crate::{CharRegions, NumberRegions, OpaqueRegions, StructRegions, SymbolRegions};
use ls_spec::Regions;

/// The numbers: over every structure list, for every atom within the limits, at most 4 objects, 6 for each range and 3
/// for each number that is named.
pub fn regions_of_numbers(regions: &NumberRegions)
    ensures over { (structures : Structures) → ⟦<NumberRegions as Regions>⟧.IsOver regions.now structures }
    ensures class { (o : LispObject) → ⟦<NumberRegions as Regions>⟧.IsOfClass regions.now o ↔ class.IsNumber o }
    ensures fit { (a : Spec) → ⟦<NumberRegions as Regions>⟧.IsFit regions.now a ↔ class.IsFitAtom (specifier a) }
    ensures inside { (structures : Structures) (a : Spec) (o : LispObject) → ⟦<NumberRegions as Regions>⟧.IsIn structures a o ↔ Belongs structures (specifier a) o }
    ensures limit { (atoms : List Spec) → ⟦<NumberRegions as Regions>⟧.limit atoms ≡ 4 + 6 * class.count_atoms class.is_range (map specifier atoms) + 3 * class.count_atoms class.is_number_point (map specifier atoms) }
{}

/// The characters: over every structure list, for every atom within the limits, at most 4 objects and one for each
/// character that is named.
pub fn regions_of_characters(regions: &CharRegions)
    ensures over { (structures : Structures) → ⟦<CharRegions as Regions>⟧.IsOver regions.now structures }
    ensures class { (o : LispObject) → ⟦<CharRegions as Regions>⟧.IsOfClass regions.now o ↔ class.IsCharacter o }
    ensures fit { (a : Spec) → ⟦<CharRegions as Regions>⟧.IsFit regions.now a ↔ class.IsFitAtom (specifier a) }
    ensures inside { (structures : Structures) (a : Spec) (o : LispObject) → ⟦<CharRegions as Regions>⟧.IsIn structures a o ↔ Belongs structures (specifier a) o }
    ensures limit { (atoms : List Spec) → ⟦<CharRegions as Regions>⟧.limit atoms ≡ 4 + class.count_atoms class.is_character_point (map specifier atoms) }
{}

/// The symbols: over every structure list, for every atom within the limits, at most 4 objects and one for each symbol
/// that is named.
pub fn regions_of_symbols(regions: &SymbolRegions)
    ensures over { (structures : Structures) → ⟦<SymbolRegions as Regions>⟧.IsOver regions.now structures }
    ensures class { (o : LispObject) → ⟦<SymbolRegions as Regions>⟧.IsOfClass regions.now o ↔ class.IsSymbol o }
    ensures fit { (a : Spec) → ⟦<SymbolRegions as Regions>⟧.IsFit regions.now a ↔ class.IsFitAtom (specifier a) }
    ensures inside { (structures : Structures) (a : Spec) (o : LispObject) → ⟦<SymbolRegions as Regions>⟧.IsIn structures a o ↔ Belongs structures (specifier a) o }
    ensures limit { (atoms : List Spec) → ⟦<SymbolRegions as Regions>⟧.limit atoms ≡ 4 + class.count_atoms class.is_symbol_point (map specifier atoms) }
{}

/// The opaque objects: over every structure list, for every atom within the limits, at most 4 objects and one for each
/// kind that is named.
pub fn regions_of_opaque_objects(regions: &OpaqueRegions)
    ensures over { (structures : Structures) → ⟦<OpaqueRegions as Regions>⟧.IsOver regions.now structures }
    ensures class { (o : LispObject) → ⟦<OpaqueRegions as Regions>⟧.IsOfClass regions.now o ↔ class.IsOpaque o }
    ensures fit { (a : Spec) → ⟦<OpaqueRegions as Regions>⟧.IsFit regions.now a ↔ class.IsFitAtom (specifier a) }
    ensures inside { (structures : Structures) (a : Spec) (o : LispObject) → ⟦<OpaqueRegions as Regions>⟧.IsIn structures a o ↔ Belongs structures (specifier a) o }
    ensures limit { (atoms : List Spec) → ⟦<OpaqueRegions as Regions>⟧.limit atoms ≡ 4 + class.count_atoms class.is_kind (map specifier atoms) }
{}

/// The structures of a file: over its structure list alone, for every atom within the limits whose structure names are
/// of the list, at most 4 objects and one for each structure name and each STRUCTURE-OBJECT.
pub fn regions_of_structures(regions: &StructRegions)
    ensures over { (structures : Structures) → ⟦<StructRegions as Regions>⟧.IsOver regions.now structures ↔ structures ≡ regions.now }
    ensures class { (o : LispObject) → ⟦<StructRegions as Regions>⟧.IsOfClass regions.now o ↔ class.IsStructure regions.now o }
    ensures fit { (a : Spec) → ⟦<StructRegions as Regions>⟧.IsFit regions.now a ↔ class.IsFitAtomOf regions.now (specifier a) }
    ensures inside { (structures : Structures) (a : Spec) (o : LispObject) → ⟦<StructRegions as Regions>⟧.IsIn structures a o ↔ Belongs structures (specifier a) o }
    ensures limit { (atoms : List Spec) → ⟦<StructRegions as Regions>⟧.limit atoms ≡ 4 + class.count_atoms class.is_structure_atom (map specifier atoms) }
{}
