// Bounds and sizes of specifiers.

ghost use Rattle.std.specs.Prelude.{◌≡◌, ◌^◌, ◌≤◌, ◌<◌, pos, unsigned_abs, IfOk, IfSome};
ghost use Rattle.ls_reader.specs.declared.datum.Form.{out-Form};
ghost use Rattle.ls_spec.specs.Membership.{is_of_range_kind};
ghost use Rattle.ls_grammar.specs.Numbers as spec;

use crate::refusal::{Refusal, RefusalKind};
use ls_object::Rat;
use ls_reader::{Datum, Form, Literal, Span};
use ls_spec::{Bound, RangeKind};
use ls_tables::{Builtin, builtin};

pub(crate) fn refusal(kind: RefusalKind, place: Span) -> Refusal
    ensures { result ≡ spec.refusal kind place }
{
    Refusal { kind, place }
}

/// The number that is written; None where it is past the limits.
pub(crate) fn written(literal: &Literal) -> Option<Rat>
    ensures value { result ≡ spec.written literal.now }
    ensures small { IfSome result (λ r. unsigned_abs r.num ≤ 2 ^ 64) }
{
    match literal {
        Literal::Value(small) => Some(small.value),
        Literal::Wide => None,
    }
}

/// Whether the datum is the symbol `*`.
pub(crate) fn is_star(datum: &Datum) -> bool
    ensures { result ≡ spec.is_star datum.now }
{
    match &datum.form {
        Form::Symbol(symbol) => is_star_name(builtin(symbol)),
        _ => false,
    }
}

pub(crate) fn is_star_name(name: Option<Builtin>) -> bool
    ensures { result ≡ spec.is_star_name name }
{
    match name {
        Some(Builtin::Star) => true,
        _ => false,
    }
}

fn is_of_kind(kind: RangeKind, number: &Rat) -> bool
    ensures { result ≡ is_of_range_kind kind number.now.den }
{
    match kind {
        RangeKind::Integer => number.den == 1,
        RangeKind::Rational => true,
    }
}

/// The number of a bound, which stands at a place of its own.
fn bound_number(kind: RangeKind, bound: Span, at: Span, number: Option<Rat>) -> Result<Rat, Refusal>
    ensures { result ≡ spec.bound_number kind bound at number }
{
    match number {
        None => Err(refusal(RefusalKind::NumberTooWide, at)),
        Some(number) => if is_of_kind(kind, &number) {
            Ok(number)
        } else {
            Err(refusal(RefusalKind::BadBound, bound))
        },
    }
}

fn inclusive(number: Result<Rat, Refusal>) -> Result<Bound, Refusal>
    ensures { result ≡ spec.inclusive number }
{
    match number {
        Ok(number) => Ok(Bound::Incl(number)),
        Err(why) => Err(why),
    }
}

fn exclusive(number: Result<Rat, Refusal>) -> Result<Bound, Refusal>
    ensures { result ≡ spec.exclusive number }
{
    match number {
        Ok(number) => Ok(Bound::Excl(number)),
        Err(why) => Err(why),
    }
}

/// The bound that is a list of this datum.
fn exclusive_of(kind: RangeKind, bound: Span, datum: &Datum) -> Result<Bound, Refusal>
    ensures { result ≡ spec.exclusive_form kind bound datum.now.span (out-Form datum.now.form) }
{
    match &datum.form {
        Form::Number(literal) => exclusive(bound_number(kind, bound, datum.span, written(literal))),
        _ => Err(refusal(RefusalKind::BadBound, bound)),
    }
}

fn exclusive_bound(kind: RangeKind, bound: Span, items: &[Datum]) -> Result<Bound, Refusal>
    ensures { result ≡ spec.exclusive_bound kind bound items.now }
{
    match items {
        [datum] => exclusive_of(kind, bound, datum),
        _ => Err(refusal(RefusalKind::BadBound, bound)),
    }
}

fn star_bound(bound: Span, name: Option<Builtin>) -> Result<Bound, Refusal>
    ensures { result ≡ spec.star_bound bound name }
{
    if is_star_name(name) {
        Ok(Bound::Free)
    } else {
        Err(refusal(RefusalKind::BadBound, bound))
    }
}

/// A bound of INTEGER or RATIONAL, or what is wrong with it.
pub(crate) fn bound_of(kind: RangeKind, datum: &Datum) -> Result<Bound, Refusal>
    ensures { result ≡ spec.bound_of kind datum.now }
{
    let bound = datum.span;
    match &datum.form {
        Form::Symbol(symbol) => star_bound(bound, builtin(symbol)),
        Form::Number(literal) => inclusive(bound_number(kind, bound, bound, written(literal))),
        Form::List(items) => exclusive_bound(kind, bound, items.as_slice()),
        _ => Err(refusal(RefusalKind::BadBound, bound)),
    }
}

fn is_positive(number: &Rat) -> bool
    ensures { result ≡ spec.is_positive number.now }
{
    number.den == 1 && 0 < number.num
}

fn size_number(at: Span, number: Option<Rat>) -> Result<u128, Refusal>
    requires { IfSome number (λ r. unsigned_abs r.num ≤ 2 ^ 64) }
    ensures value { result ≡ spec.size_number at number }
    ensures limits { IfOk result (spec.IsSizeWithin (2 ^ 64)) }
{
    match number {
        None => Err(refusal(RefusalKind::NumberTooWide, at)),
        Some(number) => if is_positive(&number) {
            Ok(number.num.unsigned_abs())
        } else {
            Err(refusal(RefusalKind::BadBound, at))
        },
    }
}

/// A size, which is an integer of at least 1, or what is wrong with it.
pub(crate) fn size_of(datum: &Datum) -> Result<u128, Refusal>
    ensures value { result ≡ spec.size_of datum.now }
    ensures limits { IfOk result (spec.IsSizeWithin (2 ^ 64)) }
{
    match &datum.form {
        Form::Number(literal) => size_number(datum.span, written(literal)),
        _ => Err(refusal(RefusalKind::BadBound, datum.span)),
    }
}

/// A size of at most so many bits, or what is wrong with it.
pub(crate) fn bits_of(limit: u128, datum: &Datum) -> Result<u128, Refusal>
    ensures value { result ≡ spec.bits_of limit datum.now }
    ensures limits { IfOk result (spec.IsSizeWithin limit) }
{
    match size_of(datum) {
        Err(why) => Err(why),
        Ok(size) => if size <= limit {
            Ok(size)
        } else {
            Err(refusal(RefusalKind::NumberTooWide, datum.span))
        },
    }
}
