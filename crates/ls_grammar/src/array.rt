// Dimensions of arrays in specifiers.

ghost use Rattle.std.specs.Prelude.{◌≡◌, replicate, None, IsTrue, IfOk};
ghost use Rattle.ls_spec.specs.Meaning.{specifier};
ghost use Rattle.ls_spec.specs.Specifier.{array_of};
ghost use Rattle.ls_grammar.specs.ArrayLevels.{vectors_over};
ghost use Rattle.ls_grammar.specs.Dimensions as spec;
ghost use Rattle.ls_grammar.specs.steps.Answering.{wanted, Gives, kept};
ghost use Rattle.ls_tables.specs.Builtins.{stands_alone};

use crate::number::{is_star_name, refusal, written};
use crate::refusal::{Refusal, RefusalKind, Stop};
use ls_object::{Boxed, Items, Rat};
use ls_reader::{Datum, Form, Span};
use ls_spec::{DIMENSION_LIMIT, DimPattern, LARGEST_RANK, Spec, of_builtin};
use ls_tables::{Builtin, builtin};
use std::alloc::{AllocError, Global};

/// What a specifier of arrays asks of their dimensions, with its argument lent.
#[derive(Drop)]
pub(crate) enum Dims<'a> {
    /// Nothing.
    Any,
    /// One dimension, and its size where that is told.
    One(Option<u64>),
    /// What the second argument of ARRAY asks.
    Of(&'a Datum),
}

fn bad_dimension(at: Span) -> Refusal
    ensures { result ≡ spec.bad_dimension at }
{
    refusal(RefusalKind::BadArgument, at)
}

fn is_natural(number: &Rat) -> bool
    ensures { result ≡ spec.is_natural number.now }
{
    number.den == 1 && 0 <= number.num
}

fn below_limit(limit: u64, at: Span, number: u128) -> Result<u64, Refusal>
    ensures { result ≡ spec.below_limit limit at number }
{
    if number < limit as u128 {
        Ok(number as u64)
    } else {
        Err(refusal(RefusalKind::NumberTooWide, at))
    }
}

/// An integer of at least 0 that stays below the limit, or what is wrong with it.
fn natural_number(limit: u64, at: Span, number: Option<Rat>) -> Result<u64, Refusal>
    ensures { result ≡ spec.natural_number limit at number }
{
    match number {
        None => Err(refusal(RefusalKind::NumberTooWide, at)),
        Some(number) => if is_natural(&number) {
            below_limit(limit, at, number.num.unsigned_abs())
        } else {
            Err(bad_dimension(at))
        },
    }
}

fn asked(number: Result<u64, Refusal>) -> Result<Option<u64>, Refusal>
    ensures { result ≡ spec.asked number }
{
    match number {
        Ok(number) => Ok(Some(number)),
        Err(why) => Err(why),
    }
}

fn star_place(at: Span, name: Option<Builtin>) -> Result<Option<u64>, Refusal>
    ensures { result ≡ spec.star_place at name }
{
    if is_star_name(name) {
        Ok(None)
    } else {
        Err(bad_dimension(at))
    }
}

/// One dimension of a list, or a length, or what is wrong with it.
pub(crate) fn place_of(datum: &Datum) -> Result<Option<u64>, Refusal>
    ensures { result ≡ spec.place_of datum.now }
{
    let at = datum.span;
    match &datum.form {
        Form::Symbol(symbol) => star_place(at, builtin(symbol)),
        Form::Number(literal) => asked(natural_number(DIMENSION_LIMIT, at, written(literal))),
        _ => Err(bad_dimension(at)),
    }
}

fn places_of(alloc: Global, data: &[Datum]) -> Result<Items<Option<u64>>, Stop>
    ensures { Gives kept result (spec.places_of data.now) }
{
    let mut places = Items::new(alloc);
    for datum in data {
        match place_of(datum) {
            Ok(place) => places.push(place)?,
            Err(why) => return Err(Stop::Refused(why)),
        }
    }
    Ok(places)
}

fn list_dimensions(alloc: Global, at: Span, data: &[Datum]) -> Result<DimPattern, Stop>
    ensures { Gives kept result (spec.list_dimensions at data.now) }
{
    if data.len() <= LARGEST_RANK {
        Ok(DimPattern::Places(places_of(alloc, data)?))
    } else {
        Err(Stop::Refused(refusal(RefusalKind::NumberTooWide, at)))
    }
}

/// So many dimensions, each of any size.
fn free_places(alloc: Global, rank: u64) -> Result<Items<Option<u64>>, AllocError>
    ensures { IfOk result (λ places. places ≡ replicate rank None) }
{
    let mut places = Items::new(alloc);
    for _turn in 0..rank {
        places.push(None)?;
    }
    Ok(places)
}

fn of_rank(alloc: Global, rank: Result<u64, Refusal>) -> Result<DimPattern, Stop>
    ensures { Gives kept result (spec.of_rank rank) }
{
    match rank {
        Ok(rank) => Ok(DimPattern::Places(free_places(alloc, rank)?)),
        Err(why) => Err(Stop::Refused(why)),
    }
}

fn symbol_dimensions(alloc: Global, at: Span, name: Option<Builtin>) -> Result<DimPattern, Stop>
    ensures { Gives kept result (spec.symbol_dimensions at name) }
{
    match name {
        Some(Builtin::Star) => Ok(DimPattern::Any),
        Some(Builtin::Nil) => Ok(DimPattern::Places(Items::new(alloc))),
        _ => Err(Stop::Refused(bad_dimension(at))),
    }
}

/// What the second argument of ARRAY asks.
fn dimensions_of(alloc: Global, datum: &Datum) -> Result<DimPattern, Stop>
    ensures { Gives kept result (spec.dimensions_of datum.now) }
{
    let at = datum.span;
    match &datum.form {
        Form::Symbol(symbol) => symbol_dimensions(alloc, at, builtin(symbol)),
        Form::Number(literal) => {
            of_rank(
                alloc,
                natural_number(LARGEST_RANK as u64 + 1, at, written(literal)),
            )
        }
        Form::List(items) => list_dimensions(alloc, at, items.as_slice()),
        _ => Err(Stop::Refused(bad_dimension(at))),
    }
}

fn one_place(alloc: Global, place: Option<u64>) -> Result<DimPattern, AllocError>
    ensures { IfOk result (λ dims. dims ≡ spec.one_place place) }
{
    let mut places = Items::new(alloc);
    places.push(place)?;
    Ok(DimPattern::Places(places))
}

/// What is asked of the dimensions, or what is wrong with the argument.
pub(crate) fn pattern(alloc: Global, dims: Dims<'_>) -> Result<DimPattern, Stop>
    ensures { Gives kept result (wanted dims.entry) }
{
    match dims {
        Dims::Any => Ok(DimPattern::Any),
        Dims::One(place) => Ok(one_place(alloc, place)?),
        Dims::Of(datum) => dimensions_of(alloc, datum),
    }
}

/// Arrays of an element type.
pub(crate) fn array_over(
    alloc: Global,
    element: Spec,
    simple: bool,
    dims: DimPattern,
) -> Result<Spec, AllocError>
    ensures { IfOk result (λ s. specifier s ≡ array_of (specifier element) simple dims) }
{
    let element = Boxed::new(alloc, element)?;
    Ok(Spec::ArrayOf {
        elem: Some(element),
        simple,
        dims,
    })
}

/// Vectors whose element type is that of a name, of a length or of any.
pub(crate) fn vectors_over(
    alloc: Global,
    name: Builtin,
    simple: bool,
    length: Option<u64>,
) -> Result<Spec, AllocError>
    requires { IsTrue (stands_alone name) }
    ensures { IfOk result (λ s. specifier s ≡ vectors_over name simple length) }
{
    let element = of_builtin(alloc, name)?;
    let dims = one_place(alloc, length)?;
    array_over(alloc, element, simple, dims)
}
