// Quoted data, and lists that may be empty.

ghost use Rattle.std.specs.Prelude.{◌≡◌};
ghost use Rattle.std.specs.Option.{option_copied};
ghost use Rattle.ls_deftype.specs.Quoting as spec;

use crate::symbol::{is_lisp, is_lisp_datum};
use ls_reader::{Datum, Form};

fn quoted_in(items: &[Datum]) -> Option<&Datum>
    ensures { option_copied result ≡ spec.quoted_in items.now }
{
    match items {
        [head, datum] => if is_lisp_datum(head, "QUOTE") {
            Some(datum)
        } else {
            None
        },
        _ => None,
    }
}

/// The datum that a datum quotes, if it does (QUOTE).
pub(crate) fn quoted(datum: &Datum) -> Option<&Datum>
    ensures { option_copied result ≡ spec.quoted datum.now }
{
    match &datum.form {
        Form::Quote(of) => Some(of.get()),
        Form::List(items) => quoted_in(items.as_slice()),
        _ => None,
    }
}

/// The items of a list, which NIL is too.
pub(crate) fn items_of(datum: &Datum) -> Option<&[Datum]>
    ensures { option_copied result ≡ spec.items_of datum.now }
{
    match &datum.form {
        Form::List(items) => Some(items.as_slice()),
        Form::Symbol(symbol) => if is_lisp(symbol, "NIL") {
            Some(&[])
        } else {
            None
        },
        _ => None,
    }
}
