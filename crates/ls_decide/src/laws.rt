// Laws about the definitions in specs/. Each function is empty: all that it gives is its contract.

ghost use Rattle.std.specs.Prelude.{ℕ, ◌≡◌, ◌↔◌, List};
ghost use Rattle.std.specs.Bool.{Decides};
ghost use Rattle.std.specs.List.{Contains};
ghost use Rattle.ls_object.specs.declared.symbol.Symbol.{Symbol};
ghost use Rattle.ls_object.specs.Universe.{LispObject, node, pair, Structures, IsObject, IsPlain, plain as plain_form};
ghost use Rattle.ls_spec.specs.Specifier.{Specifier};
ghost use Rattle.ls_spec.specs.Membership.{Belongs};
ghost use Rattle.ls_spec.specs.Approximation.{low, high, HasNoPredicate};
ghost use Rattle.ls_spec.specs.Inclusion.{IsIncluded, IsWitness};
ghost use Rattle.ls_decide.specs.declared.answer.Belongs.{Belongs as Belonging};
ghost use Rattle.ls_decide.specs.declared.answer.Belongs.TheVariants as belongs;
ghost use Rattle.ls_decide.specs.Answers.{IsRightMembership};
ghost use Rattle.ls_decide.specs.Meanings.{Meaning, IsMeaning, same_plain, marked, marks_of};

/// Under a meaning of the predicates an object has as marks, at each node, the predicates that the meaning says of the
/// plain form of the node (SATISFIES). The body is empty, since this is a law about definitions.
pub fn marks_are_meant()
    // The test of plain forms tells whether they are equal.
    ensures test { (o x : LispObject) → Decides (same_plain o x) (plain_form o ≡ plain_form x) }
    ensures marks { (meaning : Meaning) (o : LispObject) (p : Symbol) → IsMeaning meaning
        → Contains (marks_of (marked meaning o)) p ↔ Contains meaning (p, plain_form o) }
    ensures plain { (meaning : Meaning) (o : LispObject) → plain_form (marked meaning o) ≡ plain_form o }
    ensures object { (structures : Structures) (meaning : Meaning) (o : LispObject) → IsMeaning meaning
        → IsObject structures o → IsObject structures (marked meaning o) }
    // So it is with the car and the cdr of a cons.
    ensures parts { (meaning : Meaning) (marks : List Symbol) (car cdr : LispObject)
        → marked meaning (node marks (pair car cdr))
        ≡ node (marks_of (marked meaning (node marks (pair car cdr)))) (pair (marked meaning car) (marked meaning cdr)) }
{}

/// The answer that one type is included in another, or that it is not, is right under every meaning of the predicates
/// (SUBTYPEP). The body is empty, since this is a law about definitions.
pub fn every_meaning_of_inclusion()
    // Where it is included, each object of the one belongs to the other.
    ensures yes { (structures : Structures) (a b : Specifier) (meaning : Meaning) (o : LispObject)
        → IsIncluded structures a b → IsMeaning meaning → IsObject structures o
        → Belongs structures a (marked meaning o) → Belongs structures b (marked meaning o) }
    // A witness belongs to the one and not to the other.
    ensures no { (structures : Structures) (a b : Specifier) (meaning : Meaning) (o : LispObject)
        → IsWitness structures a b o
        → Belongs structures a (marked meaning o) × (Belongs structures b (marked meaning o) → ⊥) }
{}

/// The answer that an object belongs to a type, or that it does not, is right under every meaning of the predicates
/// (TYPEP). The body is empty, since this is a law about definitions.
pub fn every_meaning_of_membership()
    ensures inside { (structures : Structures) (s : Specifier) (meaning : Meaning) (o : LispObject) → IsPlain o
        → Belongs structures (low s) o → Belongs structures s (marked meaning o) }
    ensures outside { (structures : Structures) (s : Specifier) (meaning : Meaning) (o : LispObject) → IsPlain o
        → (Belongs structures (high s) o → ⊥) → Belongs structures s (marked meaning o) → ⊥ }
{}

/// At most one answer is right for an object and a type (TYPEP). The body is empty, since this is a law about
/// definitions.
pub fn one_right_membership()
    ensures one { (structures : Structures) (o : LispObject) (s : Specifier) (budget : ℕ) (x y : Belonging)
        → IsRightMembership structures o s budget x → IsRightMembership structures o s budget y → x ≡ y }
    // Without predicates outside element types it never depends.
    ensures without_predicates { (structures : Structures) (o : LispObject) (s : Specifier) (budget : ℕ)
        → HasNoPredicate s → IsRightMembership structures o s budget belongs.Depends → ⊥ }
{}
