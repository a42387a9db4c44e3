// Laws about the definitions in specs/ and about constants. Each function is empty: all that it gives is its
// contract.

ghost use Rattle.std.specs.Prelude.{◌≡◌, [], ◌∷◌, map, slice_get};
ghost use Rattle.std.specs.Bool.{Decides};
ghost use Rattle.ls_object.specs.declared.symbol.Symbol.{Symbol};
ghost use Rattle.ls_object.specs.Universe.{LispObject, Structures, IsObject, IsPlain};
ghost use Rattle.ls_object.specs.ObjectText.{object_text};
ghost use Rattle.ls_object.specs.Inclusion.{Under, under_in, IsInclusionOrder};
ghost use Rattle.ls_object.specs.Limits.{numerator_limit, greatest_denominator};
ghost use Rattle.ls_object.specs.Table.{extent};
ghost use Rattle.ls_object.specs.Entries.{entries_and_extents};

use crate::rat::{DENOMINATOR_LIMIT, NUMERATOR_LIMIT};
use crate::table::{
    BASE_CHAR_PLACE, BIT_PLACE, CHARACTER_PLACE, Code, Entry, NIL_PLACE, T_PLACE, UPGRADING_TABLE,
};

/// No two plain objects have one text, so a printed text says which object it stands for. The body is empty,
/// since this is a law about definitions.
pub fn one_text_one_object()
    ensures { (structures : Structures) (o p : LispObject)
        → IsObject structures o → IsObject structures p → IsPlain o → IsPlain p → object_text o ≡ object_text p → o ≡ p }
{}

/// For structure types each of which stands behind the one that it includes, `under_in` says which name is under
/// which.
pub fn inclusion_is_decided()
    ensures { (structures : Structures) (x y : Symbol)
        → IsInclusionOrder structures → Decides (under_in structures x y) (Under structures x y) }
{}

/// The limits of the rationals: a numerator's absolute value is below 2^66, a denominator at most 2^61.
pub fn limits_of_rationals()
    ensures numerators { NUMERATOR_LIMIT ≡ numerator_limit }
    ensures denominators { DENOMINATOR_LIMIT ≡ greatest_denominator }
{}

/// The entries of the upgrading table, in order, each with what it holds (15.1.2.1).
pub fn entries_of_the_table()
    ensures { map (λ entry. (entry, extent entry)) UPGRADING_TABLE ≡ entries_and_extents }
{}

/// Each named place of the upgrading table has the entry that it is named by.
pub fn places_of_the_table()
    ensures nil { slice_get UPGRADING_TABLE NIL_PLACE ≡ Some Entry.Nil }
    ensures bit { slice_get UPGRADING_TABLE BIT_PLACE ≡ Some Entry.Bit }
    ensures base_char { slice_get UPGRADING_TABLE BASE_CHAR_PLACE ≡ Some Entry.BaseChar }
    ensures character { slice_get UPGRADING_TABLE CHARACTER_PLACE ≡ Some Entry.Character }
    ensures all { slice_get UPGRADING_TABLE T_PLACE ≡ Some Entry.T }
{}

/// The named element codes, of NIL, BIT, BASE-CHAR, CHARACTER and T: each is the place of its entry.
pub fn named_codes() -> [Code; 5]
    ensures { map (λ code. slice_get UPGRADING_TABLE code.index) result
        ≡ Some Entry.Nil ∷ Some Entry.Bit ∷ Some Entry.BaseChar ∷ Some Entry.Character ∷ Some Entry.T ∷ [] }
{
    [
        Code::NIL,
        Code::BIT,
        Code::BASE_CHAR,
        Code::CHARACTER,
        Code::ALL,
    ]
}
