//! The data that tokens, brackets and marks make, each with its span.

ghost use Rattle.std.specs.Prelude.{◌≡◌, IfOk};
ghost use Rattle.ls_reader.specs.Data as made;

use crate::datum::{Datum, Form, Span};
use crate::place::Place;
use crate::token::{Bracket, Mark};
use ls_object::Symbol;
use sqlite_items::{Boxed, Items};
use std::alloc::{AllocError, Global};

/// A form that begins at a place and ends before a byte.
pub(crate) fn datum(from: Place, end: u32, form: Form) -> Datum
    ensures { result ≡ made.datum from end form }
{
    Datum {
        span: Span {
            start: from.byte,
            end,
            line: from.line,
            column: from.column,
        },
        form,
    }
}

/// The place where a datum begins.
pub(crate) fn start_of(datum: &Datum) -> Place
    ensures { result ≡ made.start_of datum.now }
{
    Place {
        byte: datum.span.start,
        line: datum.span.line,
        column: datum.span.column,
    }
}

/// The same data, in memory for just as many: a list begins with room for four data, and then for eight, and most
/// are shorter.
fn without_room(alloc: Global, items: Items<Datum>) -> Result<Items<Datum>, AllocError>
    ensures { IfOk result (λ same. same ≡ items) }
{
    if !matches!(items.len(), 1..=3 | 5..=7) {
        return Ok(items);
    }
    let mut same = Items::from_vec(Vec::with_capacity(alloc, items.len())?);
    same.append(items)?;
    Ok(same)
}

/// What brackets with these data in them are.
pub(crate) fn listed(alloc: Global, kind: Bracket, items: Items<Datum>) -> Result<Form, AllocError>
    ensures { IfOk result (λ form. form ≡ made.listed kind items) }
{
    match kind {
        Bracket::Round => {
            if items.is_empty() {
                return Ok(Form::Symbol(Symbol::nil(alloc)?));
            }
            Ok(Form::List(without_room(alloc, items)?))
        }
        Bracket::Vector => Ok(Form::Vector(without_room(alloc, items)?)),
        Bracket::Odd => Ok(Form::Odd),
    }
}

/// Whether a dot may stand behind these data.
pub(crate) fn takes_dot(kind: Bracket, items: &Items<Datum>) -> bool
    ensures { result ≡ made.takes_dot kind items.now }
{
    match kind {
        Bracket::Round => !items.is_empty(),
        Bracket::Vector | Bracket::Odd => false,
    }
}

/// What brackets with these data, a dot and a datum in them are.
pub(crate) fn dotted(alloc: Global, items: Items<Datum>, last: Datum) -> Result<Form, AllocError>
    ensures { IfOk result (λ form. form ≡ made.dotted items last) }
{
    let mut items = items;
    let Datum { span, form } = last;
    match form {
        Form::List(more) => {
            items.append(more)?;
            Ok(Form::List(items))
        }
        Form::Dotted(more, end) => {
            items.append(more)?;
            Ok(Form::Dotted(items, end))
        }
        Form::Symbol(symbol) => {
            if symbol.is_nil() {
                return Ok(Form::List(items));
            }
            let form = Form::Symbol(symbol);
            Ok(Form::Dotted(items, Boxed::new(alloc, Datum { span, form })?))
        }
        form => Ok(Form::Dotted(items, Boxed::new(alloc, Datum { span, form })?)),
    }
}

/// What a mark and its datum are.
fn marked(alloc: Global, kind: Mark, of: Datum) -> Result<Form, AllocError>
    ensures { IfOk result (λ form. form ≡ made.marked kind of) }
{
    Ok(match kind {
        Mark::Quote => Form::Quote(Boxed::new(alloc, of)?),
        Mark::Back => Form::Back(Boxed::new(alloc, of)?),
        Mark::Comma => Form::Comma(Boxed::new(alloc, of)?),
        Mark::Splice => Form::Splice(Boxed::new(alloc, of)?),
        Mark::FunctionOf => Form::FunctionOf(Boxed::new(alloc, of)?),
        Mark::Odd => Form::Odd,
    })
}

/// The datum of a mark and its datum.
pub(crate) fn mark_on(
    alloc: Global,
    kind: Mark,
    from: Place,
    of: Datum,
) -> Result<Datum, AllocError>
    ensures { IfOk result (λ d. d ≡ made.mark_on kind from of) }
{
    let end = of.span.end;
    Ok(datum(from, end, marked(alloc, kind, of)?))
}
