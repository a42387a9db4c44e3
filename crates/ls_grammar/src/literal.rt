// Objects that are written out in a text.

ghost use Rattle.std.specs.Prelude.{◌≡◌, [], ◌∷◌, length, map, Some, Ok, IfOk, IfErr};
ghost use Rattle.std.specs.Str.{IsAscii};
ghost use Rattle.ls_object.specs.Universe.{LispObject, Structures, symbol, IsName, IsObject, IsShape, IsPlain};
ghost use Rattle.ls_object.specs.Meaning.{lisp_object, lisp_shape};
ghost use Rattle.ls_object.specs.Writing.{IsAtomShape};
ghost use Rattle.ls_reader.specs.declared.datum.Datum.{Datum};
ghost use Rattle.ls_env.specs.Lent.{lent};
ghost use Rattle.ls_grammar.specs.declared.literal.ObjectRefusal.TheVariants.{Memory};
ghost use Rattle.ls_grammar.specs.Literals as spec;
ghost use Rattle.ls_grammar.specs.Literals.{IsLiteral, literal_refusal, IsLiteralOrIsRefused, IsLiteralReason, AnswersObject, RefusesObject};
ghost use Rattle.ls_grammar.specs.steps.Making.{IsMade, Makes, Tells};

use crate::number::written;
use ls_env::{Argument, value_of};
use ls_object::{Boxed, Code, Dims, Items, Kind, Object, Rat, Shape, Symbol, Text};
use ls_reader::{Datum, FloatFormat, Form, Span};
use std::alloc::{AllocError, AllocFailed, Global};
use thiserror::Error;

/// Why a datum is no object that is written out.
#[derive(Debug, Drop, Error)]
pub enum ObjectRefusal {
    /// The datum is not quoted and doesn't evaluate to itself, or what stands here in quoted data is no object.
    #[error("no object is written out here")]
    NoLiteral(Span),
    /// A number past the limits, or a string or a vector of too many elements.
    #[error("the number is past the limits")]
    NumberTooWide(Span),
    /// The conses of the datum are nested past the limit.
    #[error("the object is nested too deeply")]
    TooDeep(Span),
    /// There was no memory for the object.
    #[error("out of memory")]
    Memory,
}

impl From<AllocError> for ObjectRefusal {
    ghost use Rattle.std.specs.Prelude.{◌≡◌};
    ghost use Rattle.ls_grammar.specs.declared.literal.ObjectRefusal.TheVariants.{Memory};

    ghost from_gives = { λ _ e. e ≡ Memory };

    fn from(_e: AllocError) -> ObjectRefusal {
        ObjectRefusal::Memory
    }
}

impl<T: Drop> From<AllocFailed<T>> for ObjectRefusal {
    ghost use Rattle.std.specs.Prelude.{◌≡◌};
    ghost use Rattle.ls_grammar.specs.declared.literal.ObjectRefusal.TheVariants.{Memory};

    ghost from_gives = { λ _ e. e ≡ Memory };

    fn from(_e: AllocFailed<T>) -> ObjectRefusal {
        ObjectRefusal::Memory
    }
}

/// How deep the conses of an object may be nested.
const DEEPEST_CONS: u32 = 256;

/// The length that no string and no vector reaches.
const LENGTH_LIMIT: u64 = 1 << 62;

/// What was made of a datum.
#[derive(Drop)]
enum Made {
    /// An object that is no deeper than it may be, with its depth.
    Object(Object, u32),
    /// In place of an object that is deeper. It is not kept, so that long chains are neither made nor taken apart.
    TooDeep,
}

/// The object of this shape, which is no cons.
fn atom(alloc: Global, shape: Shape) -> Made
    requires atom { IsAtomShape (lisp_shape shape) }
    requires object { (structures : Structures) → IsShape structures (lisp_shape shape) }
    ensures { IsMade (Ok (spec.unmarked (lisp_shape shape))) result }
{
    let marks = Items::new(alloc);
    Made::Object(Object { marks, shape }, 0)
}

/// Reads a symbol, of which it is then known that its characters are Unicode scalar values.
fn read_name(s: &Symbol)
    ensures { IsName s.now }
{
    let _home = s.package.as_str();
    let _name = s.name.as_str();
}

fn symbol(alloc: Global, s: Symbol) -> Made
    ensures { IsMade (Ok (spec.unmarked (symbol s))) result }
{
    read_name(&s);
    atom(alloc, Shape::Sym(s))
}

fn nil(alloc: Global) -> Result<Made, ObjectRefusal>
    ensures { Makes (Ok spec.nil) result }
{
    Ok(symbol(alloc, Symbol::nil(alloc)?))
}

fn number(alloc: Global, at: Span, number: Option<Rat>) -> Result<Made, ObjectRefusal>
    ensures { Makes (spec.number_value at number) result }
{
    match number {
        None => Err(ObjectRefusal::NumberTooWide(at)),
        Some(number) => Ok(atom(alloc, Shape::Number(number))),
    }
}

fn float_kind(format: FloatFormat) -> Kind
    ensures { result ≡ spec.float_kind format }
{
    match format {
        FloatFormat::Single => Kind::SingleFloat,
        FloatFormat::Double => Kind::DoubleFloat,
    }
}

fn one_dimension(alloc: Global, count: u64) -> Result<Dims, AllocError>
    ensures { IfOk result (λ dims. dims ≡ count ∷ []) }
{
    let mut dims = Dims::new(alloc);
    dims.push(count)?;
    Ok(dims)
}

/// A simple vector of so many elements.
fn vector(alloc: Global, at: Span, elem: Code, count: u64) -> Result<Made, ObjectRefusal>
    ensures { Makes (spec.vector_value at elem.index count) result }
{
    if LENGTH_LIMIT <= count {
        return Err(ObjectRefusal::NumberTooWide(at));
    }
    let dims = one_dimension(alloc, count)?;
    Ok(atom(
        alloc,
        Shape::Array {
            elem,
            simple: true,
            dims,
        },
    ))
}

/// How many characters a text has.
#[tactic(auto, using(std::proofs::lemmas::Str::chars_from_encodes))]
fn char_count(text: &Text) -> u64
    ensures { result ≡ length text.now }
{
    text.as_str().chars().count() as u64
}

/// A cons of two objects of these depths.
fn pair(
    alloc: Global,
    car: Object,
    car_depth: u32,
    cdr: Object,
    cdr_depth: u32,
) -> Result<Made, ObjectRefusal>
    ensures { (v w : spec.Value) → IsMade v (Made.Object car car_depth) → IsMade w (Made.Object cdr cdr_depth)
        → Makes (spec.cons_value v w) result }
{
    let deeper = car_depth.max(cdr_depth);
    if DEEPEST_CONS <= deeper {
        return Ok(Made::TooDeep);
    }
    let marks = Items::new(alloc);
    let shape = Shape::Pair(Boxed::new(alloc, car)?, Boxed::new(alloc, cdr)?);
    Ok(Made::Object(Object { marks, shape }, deeper + 1))
}

/// A cons of what was made, or the first refusal.
fn cons(
    alloc: Global,
    car: Result<Made, ObjectRefusal>,
    cdr: Result<Made, ObjectRefusal>,
) -> Result<Made, ObjectRefusal>
    ensures { (v w : spec.Value) → Makes v car → Makes w cdr → Makes (spec.cons_value v w) result }
{
    let car = car?;
    let cdr = cdr?;
    let Made::Object(car, car_depth) = car else {
        return Ok(Made::TooDeep);
    };
    let Made::Object(cdr, cdr_depth) = cdr else {
        return Ok(Made::TooDeep);
    };
    pair(alloc, car, car_depth, cdr, cdr_depth)
}

/// The conses whose cars are these data, of which the last has what is handed in as its cdr. They are made from the
/// last to the first, so that no more of them are made than may be nested; each datum is looked at.
#[cycle(literal)]
fn chain(
    alloc: Global,
    items: &[Datum],
    last: Result<Made, ObjectRefusal>,
) -> Result<Made, ObjectRefusal>
    ensures { (v : spec.Value) → Makes v last → Makes (spec.chain (map spec.value items.now) v) result }
{
    let mut made = last;
    for i in (0..items.len()).rev() {
        made = cons(alloc, make(alloc, &items[i]), made);
    }
    made
}

/// The list of a symbol of the package COMMON-LISP, whose name is ASCII, and a datum.
#[cycle(literal)]
fn headed(alloc: Global, name: &str, of: &Datum) -> Result<Made, ObjectRefusal>
    requires { IsAscii name.now }
    ensures { Makes (spec.headed name.now (spec.value of.now)) result }
{
    let name = Text::of_ascii(alloc, name)?;
    let head = symbol(alloc, Symbol::of_common_lisp(alloc, name)?);
    let rest = cons(alloc, make(alloc, of), nil(alloc));
    cons(alloc, Ok(head), rest)
}

/// The object that a quoted datum is.
#[cycle(literal)]
fn make(alloc: Global, datum: &Datum) -> Result<Made, ObjectRefusal>
    ensures { Makes (spec.value datum.now) result }
{
    let at = datum.span;
    match &datum.form {
        Form::Symbol(s) => Ok(symbol(alloc, s.copy()?)),
        Form::Number(literal) => number(alloc, at, written(literal)),
        Form::Float(format) => Ok(atom(alloc, Shape::Opaque(float_kind(*format)))),
        Form::Char(c) => Ok(atom(alloc, Shape::Char(*c))),
        Form::Str(text) => vector(alloc, at, Code::CHARACTER, char_count(text)),
        Form::List(items) => chain(alloc, items.as_slice(), nil(alloc)),
        Form::Dotted(items, last) => chain(alloc, items.as_slice(), make(alloc, last.get())),
        Form::Vector(items) => vector(alloc, at, Code::ALL, items.as_slice().len() as u64),
        Form::Bits(count) => vector(alloc, at, Code::BIT, *count),
        Form::Quote(of) => headed(alloc, "QUOTE", of.get()),
        Form::FunctionOf(of) => headed(alloc, "FUNCTION", of.get()),
        Form::Back(_) | Form::Comma(_) | Form::Splice(_) | Form::Odd => Err(
            ObjectRefusal::NoLiteral(at),
        ),
    }
}

/// What the datum quotes; what evaluates to itself is as if it were quoted.
fn quoted(datum: &Datum) -> Argument<'_>
    ensures { lent result ≡ spec.quoted datum.now }
{
    match &datum.form {
        Form::Number(_)
        | Form::Float(_)
        | Form::Char(_)
        | Form::Str(_)
        | Form::Vector(_)
        | Form::Bits(_) => Argument::Known(datum),
        Form::Symbol(_)
        | Form::List(_)
        | Form::Dotted(_, _)
        | Form::Quote(_)
        | Form::Back(_)
        | Form::Comma(_)
        | Form::Splice(_)
        | Form::FunctionOf(_)
        | Form::Odd => value_of(datum),
    }
}

/// Each datum writes an object out or has a refusal, and never both; want of memory is no refusal of a datum. The body
/// is empty, since this is a law.
pub fn each_datum_is_an_object_or_is_refused()
    ensures either { (d : Datum) → IsLiteralOrIsRefused d }
    ensures one { (d : Datum) (o : LispObject) (x : ObjectRefusal) → IsLiteral d o → literal_refusal d ≡ Some x → ⊥ }
    ensures of_the_datum { (d : Datum) → literal_refusal d ≡ Some Memory → ⊥ }
{}

/// What a whole datum writes out.
fn written_out(alloc: Global, datum: &Datum) -> Result<Object, ObjectRefusal>
    ensures { Tells (spec.literal datum.now) result }
{
    let Argument::Known(data) = quoted(datum) else {
        return Err(ObjectRefusal::NoLiteral(datum.span));
    };
    let Made::Object(object, _depth) = make(alloc, data)? else {
        return Err(ObjectRefusal::TooDeep(datum.span));
    };
    Ok(object)
}

/// The object that the datum writes out, without marks: what evaluates to itself (3.1.2.1.3), or quoted data (QUOTE,
/// 2.4). `NoLiteral` comes, with the place, for any other datum and for what is no object in quoted data, as a
/// backquote; `NumberTooWide` for a number past the limits and for 2^62 elements or more; `TooDeep`, with the place of
/// the whole datum, for conses more than 256 deep where nothing else is wrong; `Memory` where there was no memory.
pub fn object_of(alloc: Global, datum: &Datum) -> Result<Object, ObjectRefusal>
    ensures ok { IfOk result (λ o. IsLiteral datum.now (lisp_object o)) }
    ensures plain { IfOk result (λ o. IsPlain (lisp_object o)) }
    ensures object { IfOk result (λ o. (structures : Structures) → IsObject structures (lisp_object o)) }
    ensures err { IfErr result (IsLiteralReason datum.now) }
    ensures answers { (o : LispObject) → IsLiteral datum.now o → AnswersObject o result }
    ensures refuses { (x : ObjectRefusal) → literal_refusal datum.now ≡ Some x → RefusesObject x result }
{
    written_out(alloc, datum)
}
