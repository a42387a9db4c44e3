// Lambda lists of DEFTYPE.

ghost use Rattle.std.specs.Prelude.{◌≡◌, ◌≤◌, [], ◌∷◌, length, Some, IfOk};
ghost use Rattle.std.specs.Option.{option_copied};
ghost use Rattle.ls_deftype.specs.LambdaLists as spec;
ghost use Rattle.ls_deftype.specs.Quoting.{items_of};

use crate::quoting::{items_of, quoted};
use crate::symbol::{is_constant, is_keyword_datum, is_lambda_keyword, is_lisp_datum, symbol_of};
use ls_object::{Items, Symbol, Text};
use ls_reader::{Datum, Form, Span};
use std::alloc::{AllocError, Global};

/// An optional parameter, and what it stands for where there is no argument for it.
#[derive(Drop)]
pub struct OptionalParam {
    pub name: Symbol,
    pub value: Datum,
}

/// The parameters of a lambda list, in their order.
#[derive(Drop)]
pub(crate) struct Parameters {
    pub required: Items<Symbol>,
    pub optional: Items<OptionalParam>,
    pub rest: Option<Symbol>,
}

/// The parameter that a datum names, if it does.
fn name_of(datum: &Datum) -> Option<&Symbol>
    ensures { option_copied result ≡ spec.name_of datum.now }
{
    let symbol = symbol_of(datum)?;
    if is_lambda_keyword(symbol) {
        None
    } else {
        Some(symbol)
    }
}

/// Where the first lambda keyword stands, or the end.
#[tactic(auto, using(crate::proofs::LambdaLemmas::keyword_next, crate::proofs::LambdaLemmas::keyword_here, crate::proofs::LambdaLemmas::keyword_end))]
fn keyword_at(data: &[Datum]) -> usize
    ensures value { result ≡ spec.keyword_at data.now }
    ensures within { result ≤ length data.now }
{
    for i in 0..data.len() {
        if is_keyword_datum(&data[i]) {
            return i;
        }
    }
    data.len()
}

/// The parameters that the data name; `None` where one of them names none.
#[tactic(auto, using(crate::proofs::LambdaLemmas::each_next, crate::proofs::LambdaLemmas::each_none))]
fn names_of(alloc: Global, data: &[Datum]) -> Result<Option<Items<Symbol>>, AllocError>
    ensures { IfOk result (λ names. names ≡ spec.names_of data.now) }
{
    let mut names = Items::new(alloc);
    for datum in data {
        let Some(name) = name_of(datum) else {
            return Ok(None);
        };
        names.push(name.copy()?)?;
    }
    Ok(Some(names))
}

/// The symbol `*`.
fn star(alloc: Global, at: Span) -> Result<Datum, AllocError>
    ensures { IfOk result (λ d. d ≡ spec.star at) }
{
    let name = Text::of_ascii(alloc, "*")?;
    let symbol = Symbol::of_common_lisp(alloc, name)?;
    Ok(Datum {
        span: at,
        form: Form::Symbol(symbol),
    })
}

/// The value of a default: what is quoted, a number, T, NIL or a keyword; `None` for any other.
fn default_value(datum: &Datum) -> Option<&Datum>
    ensures { option_copied result ≡ spec.default_value datum.now }
{
    match quoted(datum) {
        Some(value) => Some(value),
        None => match &datum.form {
            Form::Number(_) => Some(datum),
            Form::Symbol(symbol) => if is_constant(symbol) {
                Some(datum)
            } else {
                None
            },
            _ => None,
        },
    }
}

/// The optional parameter `name`, or `(name)`, at a place.
fn without_default(
    alloc: Global,
    at: Span,
    name: &Datum,
) -> Result<Option<OptionalParam>, AllocError>
    ensures { IfOk result (λ p. p ≡ spec.parameter (spec.name_of name.now) (Some (spec.star at))) }
{
    let Some(name) = name_of(name) else {
        return Ok(None);
    };
    Ok(Some(OptionalParam {
        name: name.copy()?,
        value: star(alloc, at)?,
    }))
}

/// The optional parameter `(name default)`.
fn with_default(
    alloc: Global,
    name: &Datum,
    default: &Datum,
) -> Result<Option<OptionalParam>, AllocError>
    ensures { IfOk result (λ p. p ≡ spec.parameter (spec.name_of name.now) (spec.default_value default.now)) }
{
    let Some(name) = name_of(name) else {
        return Ok(None);
    };
    let Some(value) = default_value(default) else {
        return Ok(None);
    };
    Ok(Some(OptionalParam {
        name: name.copy()?,
        value: value.copy(alloc)?,
    }))
}

/// The optional parameter that an item says; `None` where it says none.
fn item_of(alloc: Global, item: &Datum) -> Result<Option<OptionalParam>, AllocError>
    ensures { IfOk result (λ p. p ≡ spec.item_of item.now) }
{
    match &item.form {
        Form::List(parts) => match parts.as_slice() {
            [name] => without_default(alloc, item.span, name),
            [name, default] => with_default(alloc, name, default),
            _ => Ok(None),
        },
        _ => without_default(alloc, item.span, item),
    }
}

/// The optional parameters that the items say; `None` where one of them says none.
#[tactic(auto, using(crate::proofs::LambdaLemmas::each_next, crate::proofs::LambdaLemmas::each_none))]
fn optionals_of(alloc: Global, items: &[Datum]) -> Result<Option<Items<OptionalParam>>, AllocError>
    ensures { IfOk result (λ ps. ps ≡ spec.optionals_of items.now) }
{
    let mut parameters = Items::new(alloc);
    for item in items {
        let Some(parameter) = item_of(alloc, item)? else {
            return Ok(None);
        };
        parameters.push(parameter)?;
    }
    Ok(Some(parameters))
}

/// The rest parameter, if there is one: nothing, or `&rest` or `&body` and one name. `None` for anything else.
fn rest_of(items: &[Datum]) -> Result<Option<Option<Symbol>>, AllocError>
    ensures { IfOk result (λ r. r ≡ spec.rest_of items.now) }
{
    match items {
        [] => Ok(Some(None)),
        [keyword, name] => rest_named(keyword, name),
        _ => Ok(None),
    }
}

fn rest_named(keyword: &Datum, name: &Datum) -> Result<Option<Option<Symbol>>, AllocError>
    ensures { IfOk result (λ r. r ≡ spec.rest_of (keyword.now ∷ name.now ∷ [])) }
{
    if !(is_lisp_datum(keyword, "&REST") || is_lisp_datum(keyword, "&BODY")) {
        return Ok(None);
    }
    match name_of(name) {
        Some(name) => Ok(Some(Some(name.copy()?))),
        None => Ok(None),
    }
}

fn of_parts(
    required: Option<Items<Symbol>>,
    optional: Option<Items<OptionalParam>>,
    rest: Option<Option<Symbol>>,
) -> Option<Parameters>
    ensures { result ≡ spec.of_parts required optional rest }
{
    Some(Parameters {
        required: required?,
        optional: optional?,
        rest: rest?,
    })
}

/// The parameters behind the required ones, from the first lambda keyword on.
fn behind_required(
    alloc: Global,
    required: Option<Items<Symbol>>,
    items: &[Datum],
) -> Result<Option<Parameters>, AllocError>
    ensures { IfOk result (λ p. p ≡ spec.behind_required required items.now) }
{
    match items {
        [keyword, items @ ..] if is_lisp_datum(keyword, "&OPTIONAL") => {
            let end = keyword_at(items);
            let optional = optionals_of(alloc, &items[..end])?;
            Ok(of_parts(required, optional, rest_of(&items[end..])?))
        }
        _ => Ok(of_parts(required, Some(Items::new(alloc)), rest_of(items)?)),
    }
}

/// The parameters that a lambda list says, whether their names differ or not; `None` where it is none.
pub(crate) fn written(alloc: Global, lambda: &Datum) -> Result<Option<Parameters>, AllocError>
    ensures { IfOk result (λ p. p ≡ spec.written_in (items_of lambda.now)) }
{
    let Some(items) = items_of(lambda) else {
        return Ok(None);
    };
    let end = keyword_at(items);
    let required = names_of(alloc, &items[..end])?;
    behind_required(alloc, required, &items[end..])
}
