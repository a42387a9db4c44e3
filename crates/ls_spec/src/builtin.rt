// What the built-in names mean as atoms.

ghost use Rattle.std.specs.Prelude.{◌≡◌, [], ◌∷◌, IfOk, IsTrue, None};
ghost use Rattle.ls_tables.specs.Builtins.{stands_alone};
ghost use Rattle.ls_spec.specs.declared.spec.DimPattern.TheVariants as dimensions;
ghost use Rattle.ls_spec.specs.Specifier.{not_of, kind_of};
ghost use Rattle.ls_spec.specs.Meaning.{specifier};
ghost use Rattle.ls_spec.specs.Builtins as spec;

use crate::spec::{Bound, CharClass, DimPattern, Point, RangeKind, Spec, SymClass};
use ls_object::{Boxed, Items, Kind, Rat, Symbol, Text};
use ls_tables::Builtin;
use std::alloc::{AllocError, Global};

/// The least number of type FIXNUM, MOST-NEGATIVE-FIXNUM.
const LEAST_FIXNUM: i128 = -0x2000_0000_0000_0000;

/// The greatest number of type FIXNUM, MOST-POSITIVE-FIXNUM.
const GREATEST_FIXNUM: i128 = 0x1fff_ffff_ffff_ffff;

fn integers() -> Spec
    ensures { specifier result ≡ spec.integers }
{
    Spec::Range {
        kind: RangeKind::Integer,
        lo: Bound::Free,
        hi: Bound::Free,
    }
}

fn naturals() -> Spec
    ensures { specifier result ≡ spec.naturals }
{
    Spec::Range {
        kind: RangeKind::Integer,
        lo: Bound::Incl(Rat::integer(0)),
        hi: Bound::Free,
    }
}

fn rationals() -> Spec
    ensures { specifier result ≡ spec.rationals }
{
    Spec::Range {
        kind: RangeKind::Rational,
        lo: Bound::Free,
        hi: Bound::Free,
    }
}

fn bits() -> Spec
    ensures { specifier result ≡ spec.bits }
{
    Spec::Range {
        kind: RangeKind::Integer,
        lo: Bound::Incl(Rat::integer(0)),
        hi: Bound::Incl(Rat::integer(1)),
    }
}

fn fixnums() -> Spec
    ensures { specifier result ≡ spec.fixnums }
{
    Spec::Range {
        kind: RangeKind::Integer,
        lo: Bound::Incl(Rat::integer(LEAST_FIXNUM)),
        hi: Bound::Incl(Rat::integer(GREATEST_FIXNUM)),
    }
}

fn both(alloc: Global, a: Spec, b: Spec) -> Result<Items<Spec>, AllocError>
    ensures { IfOk result (λ both. both ≡ a ∷ b ∷ []) }
{
    let mut both = Items::new(alloc);
    both.push(a)?;
    both.push(b)?;
    Ok(both)
}

fn either_of(alloc: Global, a: Spec, b: Spec) -> Result<Spec, AllocError>
    ensures { IfOk result (λ s. specifier s ≡ spec.either_of (specifier a) (specifier b)) }
{
    Ok(Spec::Or(both(alloc, a, b)?))
}

fn not_of(alloc: Global, part: Spec) -> Result<Spec, AllocError>
    ensures { IfOk result (λ s. specifier s ≡ not_of (specifier part)) }
{
    Ok(Spec::Not(Boxed::new(alloc, part)?))
}

fn first_without(alloc: Global, a: Spec, b: Spec) -> Result<Spec, AllocError>
    ensures { IfOk result (λ s. specifier s ≡ spec.first_without (specifier a) (specifier b)) }
{
    let other = not_of(alloc, b)?;
    Ok(Spec::And(both(alloc, a, other)?))
}

fn extended_chars(alloc: Global) -> Result<Spec, AllocError>
    ensures { IfOk result (λ s. specifier s ≡ spec.extended_chars) }
{
    first_without(
        alloc,
        Spec::Chars(CharClass::Any),
        Spec::Chars(CharClass::Base),
    )
}

fn kinds(alloc: Global, a: Kind, b: Kind) -> Result<Spec, AllocError>
    ensures { IfOk result (λ s. specifier s ≡ spec.either_of (kind_of a) (kind_of b)) }
{
    either_of(alloc, Spec::Kind(a), Spec::Kind(b))
}

fn floats(alloc: Global) -> Result<Spec, AllocError>
    ensures { IfOk result (λ s. specifier s ≡ spec.floats) }
{
    kinds(alloc, Kind::SingleFloat, Kind::DoubleFloat)
}

fn numbers(alloc: Global) -> Result<Spec, AllocError>
    ensures { IfOk result (λ s. specifier s ≡ spec.numbers) }
{
    let mut parts = both(alloc, rationals(), Spec::Kind(Kind::SingleFloat))?;
    parts.push(Spec::Kind(Kind::DoubleFloat))?;
    parts.push(Spec::Kind(Kind::Complex))?;
    Ok(Spec::Or(parts))
}

fn conses(alloc: Global) -> Result<Spec, AllocError>
    ensures { IfOk result (λ s. specifier s ≡ spec.conses) }
{
    let car = Boxed::new(alloc, Spec::All)?;
    let cdr = Boxed::new(alloc, Spec::All)?;
    Ok(Spec::ConsOf(car, cdr))
}

fn only_nil(alloc: Global) -> Result<Spec, AllocError>
    ensures { IfOk result (λ s. specifier s ≡ spec.only_nil) }
{
    Ok(Spec::Eql(Point::Sym(Symbol::nil(alloc)?)))
}

fn booleans(alloc: Global) -> Result<Spec, AllocError>
    ensures { IfOk result (λ s. specifier s ≡ spec.booleans) }
{
    let t = Symbol::of_common_lisp(alloc, Text::of_ascii(alloc, "T")?)?;
    either_of(alloc, Spec::Eql(Point::Sym(t)), only_nil(alloc)?)
}

fn lists(alloc: Global) -> Result<Spec, AllocError>
    ensures { IfOk result (λ s. specifier s ≡ spec.lists) }
{
    either_of(alloc, only_nil(alloc)?, conses(alloc)?)
}

fn one_dimension(alloc: Global) -> Result<DimPattern, AllocError>
    ensures { IfOk result (λ dims. dims ≡ dimensions.Places (None ∷ [])) }
{
    let mut places = Items::new(alloc);
    places.push(None)?;
    Ok(DimPattern::Places(places))
}

fn vectors(alloc: Global) -> Result<Spec, AllocError>
    ensures { IfOk result (λ s. specifier s ≡ spec.vectors) }
{
    Ok(Spec::ArrayOf {
        elem: None,
        simple: false,
        dims: one_dimension(alloc)?,
    })
}

fn vectors_of(alloc: Global, elem: Spec, simple: bool) -> Result<Spec, AllocError>
    ensures { IfOk result (λ s. specifier s ≡ spec.vectors_of (specifier elem) simple) }
{
    let elem = Boxed::new(alloc, elem)?;
    Ok(Spec::ArrayOf {
        elem: Some(elem),
        simple,
        dims: one_dimension(alloc)?,
    })
}

fn arrays(simple: bool) -> Spec
    ensures { specifier result ≡ spec.arrays simple }
{
    Spec::ArrayOf {
        elem: None,
        simple,
        dims: DimPattern::Any,
    }
}

fn strings(simple: bool) -> Spec
    ensures { specifier result ≡ spec.strings simple }
{
    Spec::StringOf { simple, dim: None }
}

/// What a built-in name means that stands alone: what the list of the name means with `*` for each argument (4.2.3).
pub fn of_builtin(alloc: Global, name: Builtin) -> Result<Spec, AllocError>
    requires { IsTrue (stands_alone name) }
    ensures { IfOk result (λ s. specifier s ≡ spec.expansion name) }
{
    match name {
        Builtin::T => Ok(Spec::All),
        Builtin::Atom => not_of(alloc, conses(alloc)?),
        Builtin::List => lists(alloc),
        Builtin::Null => only_nil(alloc),
        Builtin::Boolean => booleans(alloc),
        Builtin::Symbol => Ok(Spec::Symbols(SymClass::Any)),
        Builtin::Keyword => Ok(Spec::Symbols(SymClass::Keyword)),
        Builtin::Character => Ok(Spec::Chars(CharClass::Any)),
        Builtin::BaseChar => Ok(Spec::Chars(CharClass::Base)),
        Builtin::StandardChar => Ok(Spec::Chars(CharClass::Standard)),
        Builtin::ExtendedChar => extended_chars(alloc),
        Builtin::Bit => Ok(bits()),
        Builtin::Fixnum => Ok(fixnums()),
        Builtin::Bignum => first_without(alloc, integers(), fixnums()),
        Builtin::Ratio => first_without(alloc, rationals(), integers()),
        Builtin::Number => numbers(alloc),
        Builtin::Sequence => either_of(alloc, lists(alloc)?, vectors(alloc)?),
        Builtin::StructureObject => Ok(Spec::StructAny),
        Builtin::HashTable => Ok(Spec::Kind(Kind::HashTable)),
        Builtin::Readtable => Ok(Spec::Kind(Kind::Readtable)),
        Builtin::Package => Ok(Spec::Kind(Kind::Package)),
        Builtin::Pathname => kinds(alloc, Kind::Pathname, Kind::LogicalPathname),
        Builtin::LogicalPathname => Ok(Spec::Kind(Kind::LogicalPathname)),
        Builtin::Stream => Ok(Spec::Kind(Kind::Stream)),
        Builtin::RandomState => Ok(Spec::Kind(Kind::RandomState)),
        Builtin::Condition => Ok(Spec::Kind(Kind::Condition)),
        Builtin::Restart => Ok(Spec::Kind(Kind::Restart)),
        Builtin::CompiledFunction => Ok(Spec::Kind(Kind::CompiledFunction)),
        Builtin::Integer | Builtin::SignedByte => Ok(integers()),
        Builtin::Rational => Ok(rationals()),
        Builtin::UnsignedByte => Ok(naturals()),
        Builtin::Cons => conses(alloc),
        Builtin::Array => Ok(arrays(false)),
        Builtin::SimpleArray => Ok(arrays(true)),
        Builtin::Vector => vectors(alloc),
        Builtin::SimpleVector => vectors_of(alloc, Spec::All, true),
        Builtin::BitVector => vectors_of(alloc, bits(), false),
        Builtin::SimpleBitVector => vectors_of(alloc, bits(), true),
        Builtin::BaseString => vectors_of(alloc, Spec::Chars(CharClass::Base), false),
        Builtin::SimpleBaseString => vectors_of(alloc, Spec::Chars(CharClass::Base), true),
        Builtin::String => Ok(strings(false)),
        Builtin::SimpleString => Ok(strings(true)),
        Builtin::Float => floats(alloc),
        Builtin::ShortFloat | Builtin::SingleFloat => Ok(Spec::Kind(Kind::SingleFloat)),
        Builtin::LongFloat | Builtin::DoubleFloat => Ok(Spec::Kind(Kind::DoubleFloat)),
        Builtin::Real => either_of(alloc, rationals(), floats(alloc)?),
        Builtin::Complex => Ok(Spec::Kind(Kind::Complex)),
        Builtin::Function => kinds(alloc, Kind::Function, Kind::CompiledFunction),
        // NIL, and the names that the condition bars.
        _ => Ok(Spec::Nothing),
    }
}
