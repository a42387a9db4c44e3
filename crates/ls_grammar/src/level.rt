// What a datum says as a specifier, one level deep.

ghost use Rattle.std.specs.Prelude.{◌≡◌, ◌≤◌, ◌^◌, pos, unsigned_abs, IsTrue, IfOk};
ghost use Rattle.std.specs.List.{list_all};
ghost use Rattle.ls_reader.specs.declared.datum.Form.{out-Form};
ghost use Rattle.ls_tables.specs.Builtins.{stands_alone};
ghost use Rattle.ls_spec.specs.Meaning.{specifier};
ghost use Rattle.ls_spec.specs.Specifier.{string_of};
ghost use Rattle.ls_grammar.specs.Levels as spec;
ghost use Rattle.ls_grammar.specs.ArrayLevels as array_spec;
ghost use Rattle.ls_grammar.specs.Numbers.{whole, is_star, refusal, IsSizeWithin};
ghost use Rattle.ls_spec.specs.declared.spec.Bound.TheVariants.{Incl};
ghost use Rattle.ls_grammar.specs.steps.Answering.{lent, shown, IsExpandable};

use crate::array::{Dims, place_of};
use crate::number::{bits_of, bound_of, is_star, refusal, size_of};
use crate::refusal::{Refusal, RefusalKind};
use ls_deftype::Template;
use ls_object::{Rat, Symbol};
use ls_reader::{Datum, Form, Span};
use ls_spec::{Bound, RangeKind, Spec};
use ls_tables::Builtin;

/// A part of a CONS, or an element type, with its datum lent.
#[derive(Drop)]
pub(crate) enum Part<'a> {
    /// Any object.
    Any,
    /// The objects of a specifier.
    Of(&'a Datum),
}

/// What a datum says one level deep, with its parts lent.
#[derive(Drop)]
pub(crate) enum Level<'a> {
    /// What is wrong with it, and where.
    Refused(Refusal),
    /// A specifier without parts.
    Known(Spec),
    /// A built-in name that is a specifier by itself.
    Named(Builtin),
    /// A structure type of the file.
    Structure(&'a Symbol),
    /// SATISFIES of the name of a predicate.
    Predicate(&'a Symbol),
    /// EQL of an object.
    Object(&'a Datum),
    /// MEMBER of objects.
    Members(&'a [Datum]),
    /// AND, OR and NOT of specifiers.
    AllOf(&'a [Datum]),
    SomeOf(&'a [Datum]),
    NoneOf(&'a Datum),
    /// CONS of a car and a cdr.
    ConsOf(Part<'a>, Part<'a>),
    /// ARRAY, or SIMPLE-ARRAY where the flag is set, of an element type with dimensions.
    ArrayOf(Part<'a>, bool, Dims<'a>),
    /// Vectors, simple ones where the flag is set, with the element type of a name, of a length or of any.
    VectorsOver(Builtin, bool, Option<u64>),
    /// A use of a DEFTYPE at a place, with arguments.
    Use(&'a Template, Span, &'a [Datum]),
}

pub(crate) fn refused(kind: RefusalKind, at: Span) -> Level<'static>
    ensures value { shown result ≡ spec.refused (refusal kind at) }
    ensures expandable { IsExpandable result }
{
    Level::Refused(refusal(kind, at))
}

fn range(kind: RangeKind, lo: Result<Bound, Refusal>, hi: Result<Bound, Refusal>) -> Level<'static>
    ensures value { shown result ≡ spec.range kind lo hi }
    ensures expandable { IsExpandable result }
{
    match lo {
        Err(why) => Level::Refused(why),
        Ok(lo) => match hi {
            Err(why) => Level::Refused(why),
            Ok(hi) => Level::Known(Spec::Range { kind, lo, hi }),
        },
    }
}

pub(crate) fn range_level(kind: RangeKind, at: Span, args: &[Datum]) -> Level<'static>
    ensures value { shown result ≡ spec.range_level kind at args.now }
    ensures expandable { IsExpandable result }
{
    match args {
        [] => range(kind, Ok(Bound::Free), Ok(Bound::Free)),
        [lo] => range(kind, bound_of(kind, lo), Ok(Bound::Free)),
        [lo, hi] => range(kind, bound_of(kind, lo), bound_of(kind, hi)),
        _ => refused(RefusalKind::BadArgument, at),
    }
}

/// The bound that is this integer, which belongs.
fn inclusive(value: i128) -> Bound
    requires { unsigned_abs value ≤ 2 ^ 64 }
    ensures { result ≡ Incl (whole value) }
{
    Bound::Incl(Rat::integer(value))
}

/// The integers from one to another.
fn from_to(lo: i128, hi: i128) -> Spec
    requires lo { unsigned_abs lo ≤ 2 ^ 64 }
    requires hi { unsigned_abs hi ≤ 2 ^ 64 }
    ensures { specifier result ≡ spec.from_to lo hi }
{
    Spec::Range {
        kind: RangeKind::Integer,
        lo: inclusive(lo),
        hi: inclusive(hi),
    }
}

/// The integers from 0 below a number.
fn below(size: u128) -> Spec
    requires { IsSizeWithin (2 ^ 64) size }
    ensures { specifier result ≡ spec.below size }
{
    from_to(0, size as i128 - 1)
}

/// 2 to this power.
fn power_of_two(exponent: u128) -> i128
    requires { exponent ≤ 64 }
    ensures { result ≡ pos (2 ^ exponent) }
{
    1 << exponent
}

/// The integers of so many bits, one of them for the sign.
fn signed_bytes(size: u128) -> Spec
    requires { IsSizeWithin 65 size }
    ensures { specifier result ≡ spec.signed_bytes size }
{
    let half = power_of_two(size - 1);
    from_to(-half, half - 1)
}

/// The integers of so many bits, without a sign.
fn unsigned_bytes(size: u128) -> Spec
    requires { IsSizeWithin 64 size }
    ensures { specifier result ≡ spec.unsigned_bytes size }
{
    from_to(0, power_of_two(size) - 1)
}

pub(crate) fn mod_level(at: Span, args: &[Datum]) -> Level<'static>
    ensures value { shown result ≡ spec.mod_level at args.now }
    ensures expandable { IsExpandable result }
{
    let [size] = args else {
        return refused(RefusalKind::BadArgument, at);
    };
    match size_of(size) {
        Err(why) => Level::Refused(why),
        Ok(size) => Level::Known(below(size)),
    }
}

pub(crate) fn signed_level(at: Span, args: &[Datum]) -> Level<'static>
    ensures value { shown result ≡ spec.signed_level at args.now }
    ensures expandable { IsExpandable result }
{
    match args {
        [] => Level::Named(Builtin::SignedByte),
        [size] => if is_star(size) {
            Level::Named(Builtin::SignedByte)
        } else {
            signed(bits_of(65, size))
        },
        _ => refused(RefusalKind::BadArgument, at),
    }
}

fn signed(size: Result<u128, Refusal>) -> Level<'static>
    requires { IfOk size (IsSizeWithin 65) }
    ensures value { shown result ≡ spec.sized spec.signed_bytes size }
    ensures expandable { IsExpandable result }
{
    match size {
        Err(why) => Level::Refused(why),
        Ok(size) => Level::Known(signed_bytes(size)),
    }
}

pub(crate) fn unsigned_level(at: Span, args: &[Datum]) -> Level<'static>
    ensures value { shown result ≡ spec.unsigned_level at args.now }
    ensures expandable { IsExpandable result }
{
    match args {
        [] => Level::Named(Builtin::UnsignedByte),
        [size] => if is_star(size) {
            Level::Named(Builtin::UnsignedByte)
        } else {
            unsigned(bits_of(64, size))
        },
        _ => refused(RefusalKind::BadArgument, at),
    }
}

fn unsigned(size: Result<u128, Refusal>) -> Level<'static>
    requires { IfOk size (IsSizeWithin 64) }
    ensures value { shown result ≡ spec.sized spec.unsigned_bytes size }
    ensures expandable { IsExpandable result }
{
    match size {
        Err(why) => Level::Refused(why),
        Ok(size) => Level::Known(unsigned_bytes(size)),
    }
}

fn are_stars(args: &[Datum]) -> bool
    ensures { result ≡ list_all is_star args.now }
{
    args.iter().all(|arg| is_star(arg))
}

/// A name all of whose arguments are `*`, of which there may be so many.
pub(crate) fn starred_level(
    otherwise: RefusalKind,
    most: usize,
    name: Builtin,
    at: Span,
    args: &[Datum],
) -> Level<'static>
    requires { IsTrue (stands_alone name) }
    ensures value { shown result ≡ spec.starred_level otherwise most name at args.now }
    ensures expandable { IsExpandable result }
{
    if !are_stars(args) {
        refused(otherwise, at)
    } else if args.len() <= most {
        Level::Named(name)
    } else {
        refused(RefusalKind::BadArgument, at)
    }
}

pub(crate) fn not_level(at: Span, args: &[Datum]) -> Level<'_>
    ensures value { shown result ≡ spec.not_level at args.now }
    ensures expandable { IsExpandable result }
{
    match args {
        [part] => Level::NoneOf(part),
        _ => refused(RefusalKind::BadArgument, at),
    }
}

pub(crate) fn eql_level(at: Span, args: &[Datum]) -> Level<'_>
    ensures value { shown result ≡ spec.eql_level at args.now }
    ensures expandable { IsExpandable result }
{
    match args {
        [object] => Level::Object(object),
        _ => refused(RefusalKind::BadArgument, at),
    }
}

/// SATISFIES of what the argument names (SATISFIES, 4.2.3).
fn predicate_level(at: Span, arg: &Datum) -> Level<'_>
    ensures value { shown result ≡ spec.predicate_form at (out-Form arg.now.form) }
    ensures expandable { IsExpandable result }
{
    match &arg.form {
        Form::Symbol(symbol) => Level::Predicate(symbol),
        _ => refused(RefusalKind::BadArgument, at),
    }
}

pub(crate) fn satisfies_level(at: Span, args: &[Datum]) -> Level<'_>
    ensures value { shown result ≡ spec.satisfies_level at args.now }
    ensures expandable { IsExpandable result }
{
    match args {
        [arg] => predicate_level(at, arg),
        _ => refused(RefusalKind::BadArgument, at),
    }
}

/// The part of a CONS, or the element type, that an argument is.
fn part_of(arg: &Datum) -> Part<'_>
    ensures { lent result ≡ spec.part_of arg.now }
{
    if is_star(arg) {
        Part::Any
    } else {
        Part::Of(arg)
    }
}

pub(crate) fn cons_level(at: Span, args: &[Datum]) -> Level<'_>
    ensures value { shown result ≡ spec.cons_level at args.now }
    ensures expandable { IsExpandable result }
{
    match args {
        [] => Level::ConsOf(Part::Any, Part::Any),
        [car] => Level::ConsOf(part_of(car), Part::Any),
        [car, cdr] => Level::ConsOf(part_of(car), part_of(cdr)),
        _ => refused(RefusalKind::BadArgument, at),
    }
}

/// ARRAY, or SIMPLE-ARRAY.
pub(crate) fn array_level(simple: bool, at: Span, args: &[Datum]) -> Level<'_>
    ensures value { shown result ≡ array_spec.array_level simple at args.now }
    ensures expandable { IsExpandable result }
{
    match args {
        [] => Level::ArrayOf(Part::Any, simple, Dims::Any),
        [element] => Level::ArrayOf(part_of(element), simple, Dims::Any),
        [element, dims] => Level::ArrayOf(part_of(element), simple, Dims::Of(dims)),
        _ => refused(RefusalKind::BadArgument, at),
    }
}

fn vector_with(element: Part<'_>, length: Result<Option<u64>, Refusal>) -> Level<'_>
    ensures value { shown result ≡ array_spec.vector_with (lent element.entry) length }
    ensures expandable { IsExpandable result }
{
    match length {
        Err(why) => Level::Refused(why),
        Ok(length) => Level::ArrayOf(element, false, Dims::One(length)),
    }
}

pub(crate) fn vector_level(at: Span, args: &[Datum]) -> Level<'_>
    ensures value { shown result ≡ array_spec.vector_level at args.now }
    ensures expandable { IsExpandable result }
{
    match args {
        [] => Level::ArrayOf(Part::Any, false, Dims::One(None)),
        [element] => Level::ArrayOf(part_of(element), false, Dims::One(None)),
        [element, length] => vector_with(part_of(element), place_of(length)),
        _ => refused(RefusalKind::BadArgument, at),
    }
}

/// Vectors whose element type is that of a name, with a length as the only argument.
pub(crate) fn named_level(
    element: Builtin,
    simple: bool,
    at: Span,
    args: &[Datum],
) -> Level<'static>
    requires { IsTrue (stands_alone element) }
    ensures value { shown result ≡ array_spec.length_level (array_spec.vectors_over element simple) at args.now }
    ensures expandable { IsExpandable result }
{
    match args {
        [] => Level::VectorsOver(element, simple, None),
        [length] => match place_of(length) {
            Err(why) => Level::Refused(why),
            Ok(length) => Level::VectorsOver(element, simple, length),
        },
        _ => refused(RefusalKind::BadArgument, at),
    }
}

fn strings(simple: bool, dim: Option<u64>) -> Level<'static>
    ensures value { shown result ≡ spec.known (string_of simple dim) }
    ensures expandable { IsExpandable result }
{
    Level::Known(Spec::StringOf { simple, dim })
}

/// STRING, or SIMPLE-STRING.
pub(crate) fn string_level(simple: bool, at: Span, args: &[Datum]) -> Level<'static>
    ensures value { shown result ≡ array_spec.length_level (string_of simple) at args.now }
    ensures expandable { IsExpandable result }
{
    match args {
        [] => strings(simple, None),
        [length] => match place_of(length) {
            Err(why) => Level::Refused(why),
            Ok(length) => strings(simple, length),
        },
        _ => refused(RefusalKind::BadArgument, at),
    }
}
