// The body of a DEFTYPE form.

ghost use Rattle.std.specs.Prelude.{◌≡◌, count_by};
ghost use Rattle.std.specs.List.{list_all};
ghost use Rattle.std.specs.Option.{option_copied};
ghost use Rattle.ls_deftype.specs.Bodies as spec;
ghost use Rattle.ls_deftype.specs.steps.Lent.{lent_body};

use crate::quoting::quoted;
use crate::symbol::{is_lisp, is_lisp_datum};
use ls_reader::{Datum, Form};

/// A body, lent: a datum that is quoted, or one that is backquoted.
#[derive(Drop)]
pub(crate) struct Body<'a> {
    pub backquoted: bool,
    pub datum: &'a Datum,
}

/// Whether it is a list with the head DECLARE (3.3).
fn is_declaration(datum: &Datum) -> bool
    ensures { result ≡ spec.is_declaration datum.now }
{
    match &datum.form {
        Form::List(items) => match items.as_slice() {
            [head, ..] => is_lisp_datum(head, "DECLARE"),
            [] => false,
        },
        _ => false,
    }
}

fn is_string(datum: &Datum) -> bool
    ensures { result ≡ spec.is_string datum.now }
{
    match &datum.form {
        Form::Str(_) => true,
        _ => false,
    }
}

/// Whether it is a declaration or a documentation string.
fn is_preface(form: &Datum) -> bool
    ensures { result ≡ spec.is_preface form.now }
{
    is_declaration(form) || is_string(form)
}

/// How many of the forms are strings.
fn strings_in(forms: &[Datum]) -> usize
    ensures { result ≡ count_by spec.is_string forms.now }
{
    let mut count = 0;
    for form in forms {
        if is_string(form) {
            count += 1;
        }
    }
    count
}

fn are_prefaces(forms: &[Datum]) -> bool
    ensures { result ≡ list_all spec.is_preface forms.now }
{
    forms.iter().all(|form| is_preface(form))
}

/// Whether these may stand before a body: declarations, and at most one documentation string (3.4.11).
fn may_precede(forms: &[Datum]) -> bool
    ensures { result ≡ spec.may_precede forms.now }
{
    are_prefaces(forms) && strings_in(forms) <= 1
}

fn plain(datum: Option<&Datum>) -> Option<Body<'_>>
    ensures { lent_body result ≡ spec.plain_body (option_copied datum.entry) }
{
    match datum {
        Some(datum) => Some(Body {
            backquoted: false,
            datum,
        }),
        None => None,
    }
}

/// What a form is as a body: quoted or backquoted data, T or NIL.
fn body_of(form: &Datum) -> Option<Body<'_>>
    ensures { lent_body result ≡ spec.body_of form.now }
{
    match &form.form {
        Form::Back(of) => Some(Body {
            backquoted: true,
            datum: of.get(),
        }),
        Form::Symbol(symbol) => if is_lisp(symbol, "T") || is_lisp(symbol, "NIL") {
            plain(Some(form))
        } else {
            None
        },
        _ => plain(quoted(form)),
    }
}

/// The one body of the forms behind a lambda list.
pub(crate) fn sole_body(forms: &[Datum]) -> Option<Body<'_>>
    ensures { lent_body result ≡ spec.sole_body forms.now }
{
    let last = forms.last()?;
    if may_precede(&forms[..forms.len() - 1]) {
        body_of(last)
    } else {
        None
    }
}
