// Laws about the definitions in specs/. Each function is empty: all that it gives is its contract.

ghost use Rattle.std.specs.Prelude.{ℕ, ◌≡◌, ◌↔◌, Bool, not, List};
ghost use Rattle.std.specs.Bool.{Decides};
ghost use Rattle.ls_object.specs.Universe.{LispObject, Structures, IsObject};
ghost use Rattle.ls_object.specs.Table.{Holds};
ghost use Rattle.ls_spec.specs.Limits as limit;
ghost use Rattle.ls_spec.specs.Specifier.{Specifier};
ghost use Rattle.ls_spec.specs.Membership.{Belongs, UpgradesTo};
ghost use Rattle.ls_spec.specs.Approximation.{low, high, HasNoPredicate, has_free_predicate};
ghost use Rattle.ls_spec.specs.Distinct.{same, distinct, AreDistinctOf};
ghost use Rattle.ls_spec.specs.Entries.{code_specifier};
ghost use Rattle.ls_spec.specs.Inclusion.{IsIncluded, IsWitness, IsUnsureWitness};

use crate::limits::{
    DIMENSION_LIMIT, LARGEST_DENOMINATOR, LARGEST_DEPTH, LARGEST_NUMERATOR, LARGEST_RANK,
};

/// The limits of specifiers: numerators up to 2^64, denominators up to 2^60, up to 255 dimensions, each below 2^62, and
/// 1,024 levels. The body is empty, since this is a law about constants.
pub fn limits_of_specifiers()
    ensures numerators { LARGEST_NUMERATOR ≡ limit.largest_numerator }
    ensures denominators { LARGEST_DENOMINATOR ≡ limit.largest_denominator }
    ensures ranks { LARGEST_RANK ≡ limit.largest_rank }
    ensures dimensions { DIMENSION_LIMIT ≡ limit.dimension_limit }
    ensures depths { LARGEST_DEPTH ≡ limit.largest_depth }
{}

/// The lower approximation of a specifier lies within it, and the specifier within its upper approximation.
/// The body is empty, since this is a law about definitions.
pub fn approximations()
    ensures lower { (structures : Structures) (s : Specifier) (o : LispObject) → Belongs structures (low s) o → Belongs structures s o }
    ensures upper { (structures : Structures) (s : Specifier) (o : LispObject) → Belongs structures s o → Belongs structures (high s) o }
{}

/// The test for predicates outside element types tells whether there is none. The body is empty, since this is a law
/// about definitions.
pub fn free_predicates()
    ensures { (s : Specifier) → Decides (not (has_free_predicate s)) (HasNoPredicate s) }
{}

/// An object belongs to the type of an element code exactly where the entry at that place of the upgrading table holds
/// it (15.1.2.1). The body is empty, since this is a law about definitions.
pub fn types_of_codes()
    ensures { (structures : Structures) (code : ℕ) (o : LispObject) → IsObject structures o → Belongs structures (code_specifier code) o ↔ Holds code o }
{}

/// Of inclusion, a witness against it, and a witness under some meaning of the predicates alone, at most one
/// stands for two specifiers (SUBTYPEP has one right answer). The body is empty, since this is a law about
/// definitions.
pub fn one_right_answer()
    // A type that is included has no witness against it.
    ensures witness { (structures : Structures) (a b : Specifier) (o : LispObject) → IsIncluded structures a b → IsWitness structures a b o → ⊥ }
    // Nor has it one under some meaning of the predicates.
    ensures unsure { (structures : Structures) (a b : Specifier) (o : LispObject) → IsIncluded structures a b → IsUnsureWitness structures a b o → ⊥ }
    // Where there is a witness under every meaning, none is unsure.
    ensures sure { (structures : Structures) (a b : Specifier) (w o : LispObject) → IsWitness structures a b w → IsUnsureWitness structures a b o → ⊥ }
    // Without predicates outside element types, none is unsure.
    ensures without_predicates { (structures : Structures) (a b : Specifier) (o : LispObject)
        → HasNoPredicate a → HasNoPredicate b → IsUnsureWitness structures a b o → ⊥ }
{}

/// A type has at most one upgraded element code (UPGRADED-ARRAY-ELEMENT-TYPE, 15.1.2.1). The body is empty,
/// since this is a law about definitions.
pub fn one_upgraded_code()
    ensures { (structures : Structures) (e : Specifier) (c d : ℕ) → UpgradesTo structures e c → UpgradesTo structures e d → c ≡ d }
{}

/// Upgrading is monotone: where every object of one type is of another, arrays with the upgraded code of the one can
/// hold no object that arrays with that of the other can't (15.1.2.1). The body is empty, since this is a law about
/// definitions.
pub fn upgrading_is_monotone()
    ensures { (structures : Structures) (e f : Specifier) (c d : ℕ) → UpgradesTo structures e c → UpgradesTo structures f d
        → IsIncluded structures e f → (o : LispObject) → Holds c o → Holds d o }
{}

/// The distinct specifiers of a list are each of its specifiers once, in order of first occurrence. The body is
/// empty, since this is a law about definitions.
pub fn distinct_specifiers()
    // The test by keys tells equality.
    ensures same { (s t : Specifier) → Decides (same s t) (s ≡ t) }
    // What it finds is what equality asks for.
    ensures distinct { (list : List Specifier) → AreDistinctOf list (distinct list) }
{}
