// The plain test whether one object belongs to a specifier.

ghost use Rattle.std.specs.Prelude.{◌≡◌, [], ◌∷◌, true};
ghost use Rattle.std.specs.Bool.{Decides};
ghost use Rattle.std.specs.List.{list_any};
ghost use Rattle.ls_object.specs.Symbols.{same_symbol};
ghost use Rattle.ls_object.specs.Universe.{Structures, node, array};
ghost use Rattle.ls_object.specs.Meaning.{lisp_object, lisp_shape};
ghost use Rattle.ls_spec.specs.Meaning.{specifier, specifiers};
ghost use Rattle.ls_spec.specs.Membership.{Belongs};
ghost use Rattle.ls_spec.specs.Truth as truth;
ghost use Rattle.ls_spec.specs.SelfContained.{IsSelfContained, IsFlat};
ghost use Rattle.ls_spec.specs.Truth.{nothing_learnt};

use crate::dims::{are_dims_matched, is_place_matched};
use crate::spec::{Bound, CharClass, DimPattern, Point, RangeKind, Spec, SymClass};
use ls_object::{
    BASE_CHAR_PLACE, CHARACTER_PLACE, Code, Dims, Kind, NIL_PLACE, Object, Rat, Shape, Symbol,
};

pub(crate) fn kind_number(kind: Kind) -> u8
    ensures { result ≡ truth.kind_number kind }
{
    kind as u8
}

fn is_point(point: &Point, shape: &Shape) -> bool
    ensures { result ≡ truth.is_point point.now (lisp_shape shape.now) }
{
    match (point, shape) {
        (Point::Number(r), Shape::Number(n)) => n.num == r.num && n.den == r.den,
        (Point::Char(c), Shape::Char(d)) => d == c,
        (Point::Sym(s), Shape::Sym(t)) => t.is(s),
        _ => false,
    }
}

fn is_above(lo: Bound, number: &Rat) -> bool
    ensures { result ≡ truth.is_above lo number.now.num number.now.den }
{
    match lo {
        Bound::Free => true,
        Bound::Incl(r) => r.cmp(number).is_le(),
        Bound::Excl(r) => r.cmp(number).is_lt(),
    }
}

fn is_below(hi: Bound, number: &Rat) -> bool
    ensures { result ≡ truth.is_below hi number.now.num number.now.den }
{
    match hi {
        Bound::Free => true,
        Bound::Incl(r) => number.cmp(&r).is_le(),
        Bound::Excl(r) => number.cmp(&r).is_lt(),
    }
}

fn is_in_range(kind: RangeKind, lo: Bound, hi: Bound, shape: &Shape) -> bool
    ensures { result ≡ truth.is_in_range kind lo hi (lisp_shape shape.now) }
{
    let Shape::Number(number) = shape else {
        return false;
    };
    let fits = match kind {
        RangeKind::Integer => number.den == 1,
        RangeKind::Rational => true,
    };
    fits && (is_above(lo, number) && is_below(hi, number))
}

fn is_char_in(class: CharClass, shape: &Shape) -> bool
    ensures { result ≡ truth.is_char_in class (lisp_shape shape.now) }
{
    let Shape::Char(c) = shape else {
        return false;
    };
    match class {
        CharClass::Any => true,
        CharClass::Base => *c < '\u{80}',
        CharClass::Standard => *c == '\n' || (' ' <= *c && *c <= '~'),
    }
}

fn is_symbol_in(class: SymClass, shape: &Shape) -> bool
    ensures { result ≡ truth.is_symbol_in class (lisp_shape shape.now) }
{
    let Shape::Sym(symbol) = shape else {
        return false;
    };
    match class {
        SymClass::Any => true,
        SymClass::Keyword => symbol.package.is_ascii_text("KEYWORD"),
    }
}

fn is_of_kind(kind: Kind, shape: &Shape) -> bool
    ensures { result ≡ truth.is_of_kind kind (lisp_shape shape.now) }
{
    match shape {
        Shape::Opaque(k) => kind_number(*k) == kind_number(kind),
        _ => false,
    }
}

fn is_any_structure(shape: &Shape) -> bool
    ensures { result ≡ truth.is_any_structure (lisp_shape shape.now) }
{
    match shape {
        Shape::Structure(_) => true,
        Shape::Opaque(k) => kind_number(*k) == kind_number(Kind::OtherStructure),
        _ => false,
    }
}

fn is_string_code(code: Code) -> bool
    ensures { result ≡ truth.is_string_code code.index }
{
    code.index == NIL_PLACE || (code.index == BASE_CHAR_PLACE || code.index == CHARACTER_PLACE)
}

fn is_array(simple: bool, dims: &DimPattern, shape: &Shape) -> bool
    ensures { result ≡ truth.is_array_with (λ c. true) simple (truth.matches_dimensions dims.now) (lisp_shape shape.now) }
{
    let Shape::Array {
        elem: _,
        simple: is_simple,
        dims: has,
    } = shape
    else {
        return false;
    };
    (!simple || *is_simple) && are_dims_matched(dims, has)
}

fn is_of_length(dim: Option<u64>, dims: &Dims) -> bool
    ensures { result ≡ truth.matches_places (dim ∷ []) dims.now }
{
    match dims.as_slice() {
        [length] => is_place_matched(dim, *length),
        _ => false,
    }
}

fn is_string(simple: bool, dim: Option<u64>, shape: &Shape) -> bool
    ensures { result ≡ truth.is_array_with truth.is_string_code simple (truth.matches_places (dim ∷ [])) (lisp_shape shape.now) }
{
    let Shape::Array {
        elem,
        simple: is_simple,
        dims,
    } = shape
    else {
        return false;
    };
    is_string_code(*elem) && ((!simple || *is_simple) && is_of_length(dim, dims))
}

fn has_mark(predicate: &Symbol, marks: &[Symbol]) -> bool
    ensures { result ≡ list_any (same_symbol predicate.now) marks.now }
{
    marks.iter().any(|mark| predicate.is(mark))
}

/// Whether the object with these marks at its top node and this shape belongs to the specifier, where no
/// structure name and no element type is asked for.
#[cycle(holds)]
fn holds(spec: &Spec, marks: &[Symbol], shape: &Shape) -> bool
    ensures { result ≡ truth.holds nothing_learnt (specifier spec.now) (node marks.now (lisp_shape shape.now)) }
{
    match spec {
        Spec::All => true,
        Spec::Nothing => false,
        Spec::And(parts) => all_hold(parts.as_slice(), marks, shape),
        Spec::Or(parts) => some_holds(parts.as_slice(), marks, shape),
        Spec::Not(part) => !holds(part.get(), marks, shape),
        Spec::Eql(point) => is_point(point, shape),
        Spec::Range { kind, lo, hi } => is_in_range(*kind, *lo, *hi, shape),
        Spec::Chars(class) => is_char_in(*class, shape),
        Spec::Symbols(class) => is_symbol_in(*class, shape),
        Spec::Kind(kind) => is_of_kind(*kind, shape),
        Spec::StructIs(_) => false,
        Spec::StructAny => is_any_structure(shape),
        Spec::ArrayOf { elem, simple, dims } => match elem {
            None => is_array(*simple, dims, shape),
            Some(_) => false,
        },
        Spec::StringOf { simple, dim } => is_string(*simple, *dim, shape),
        Spec::ConsOf(car, cdr) => match shape {
            Shape::Pair(x, y) => object_holds(car.get(), x.get())
                && object_holds(cdr.get(), y.get()),
            _ => false,
        },
        Spec::Satisfies(predicate) => has_mark(predicate, marks),
    }
}

/// The same, of an object.
#[cycle(holds)]
fn object_holds(spec: &Spec, object: &Object) -> bool
    ensures { result ≡ truth.holds nothing_learnt (specifier spec.now) (lisp_object object.now) }
{
    holds(spec, object.marks.as_slice(), &object.shape)
}

#[cycle(holds)]
fn all_hold(parts: &[Spec], marks: &[Symbol], shape: &Shape) -> bool
    ensures { result ≡ truth.all_hold nothing_learnt (specifiers parts.now) (node marks.now (lisp_shape shape.now)) }
{
    for part in parts {
        if !holds(part, marks, shape) {
            return false;
        }
    }
    true
}

#[cycle(holds)]
fn some_holds(parts: &[Spec], marks: &[Symbol], shape: &Shape) -> bool
    ensures { result ≡ truth.some_holds nothing_learnt (specifiers parts.now) (node marks.now (lisp_shape shape.now)) }
{
    for part in parts {
        if holds(part, marks, shape) {
            return true;
        }
    }
    false
}

/// Whether the object belongs to the specifier (TYPEP). The specifier names no structure type and no array
/// with an element type: these ask for more than one object. It takes no memory.
pub fn belongs(spec: &Spec, object: &Object) -> bool
    requires { IsSelfContained (specifier spec.now) }
    ensures { (structures : Structures) → Decides result (Belongs structures (specifier spec.now) (lisp_object object.now)) }
{
    object_holds(spec, object)
}

/// Whether the object of this shape that has no marks belongs to the specifier, where the shape is that of a
/// number, a character, a symbol or an opaque object. It takes no memory.
pub fn belongs_unmarked(spec: &Spec, shape: &Shape) -> bool
    ensures membership { (structures : Structures) → IsFlat (lisp_shape shape.now) → Decides result (Belongs structures (specifier spec.now) (node [] (lisp_shape shape.now))) }
    ensures truth { result ≡ truth.holds nothing_learnt (specifier spec.now) (node [] (lisp_shape shape.now)) }
{
    holds(spec, &[], shape)
}
