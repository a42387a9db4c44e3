// Arguments whose values are known without evaluation.

ghost use Rattle.std.specs.Prelude.{◌≡◌};
ghost use Rattle.ls_reader.specs.declared.datum.Form.{out-Form};
ghost use Rattle.ls_env.specs.Arguments as spec;
ghost use Rattle.ls_env.specs.Lent.{lent};

use ls_object::Symbol;
use ls_reader::{Datum, Form};

/// What the text alone says of an argument's value, lent.
#[derive(Drop)]
pub enum Argument<'a> {
    /// The value is this datum.
    Known(&'a Datum),
    /// The argument would have to be evaluated.
    Evaluated,
}

fn is_quote(symbol: &Symbol) -> bool
    ensures { result ≡ spec.is_quote symbol.now }
{
    symbol.package.is_ascii_text("COMMON-LISP") && symbol.name.is_ascii_text("QUOTE")
}

/// Whether the symbol is its own value: T, NIL or a keyword.
fn is_constant(symbol: &Symbol) -> bool
    ensures { result ≡ spec.is_constant symbol.now }
{
    if symbol.package.is_ascii_text("COMMON-LISP") {
        symbol.name.is_ascii_text("T") || symbol.name.is_ascii_text("NIL")
    } else {
        symbol.package.is_ascii_text("KEYWORD")
    }
}

fn is_quote_form(head: &Datum) -> bool
    ensures { result ≡ spec.is_quote_form (out-Form head.now.form) }
{
    match &head.form {
        Form::Symbol(symbol) => is_quote(symbol),
        _ => false,
    }
}

/// The datum that a list quotes: x of `(quote x)` (QUOTE).
pub fn quoted_in(items: &[Datum]) -> Argument<'_>
    ensures { lent result ≡ spec.quoted_in items.now }
{
    match items {
        [head, datum] => if is_quote_form(head) {
            Argument::Known(datum)
        } else {
            Argument::Evaluated
        },
        _ => Argument::Evaluated,
    }
}

/// The value of an argument that needs no evaluation: what is quoted, T, NIL or a keyword (3.1.2.1).
pub fn value_of(datum: &Datum) -> Argument<'_>
    ensures { lent result ≡ spec.value_of datum.now }
{
    match &datum.form {
        Form::Quote(quoted) => Argument::Known(quoted.get()),
        Form::List(items) => quoted_in(items.as_slice()),
        Form::Symbol(symbol) => if is_constant(symbol) {
            Argument::Known(datum)
        } else {
            Argument::Evaluated
        },
        _ => Argument::Evaluated,
    }
}
