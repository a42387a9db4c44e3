// The symbols that a DEFTYPE form means something by.

ghost use Rattle.std.specs.Prelude.{◌≡◌};
ghost use Rattle.std.specs.Option.{option_copied};
ghost use Rattle.std.specs.Str.{IsAscii};
ghost use Rattle.ls_deftype.specs.Symbols as spec;

use ls_object::Symbol;
use ls_reader::{Datum, Form};

/// Whether it is the symbol of that name in the package COMMON-LISP.
pub(crate) fn is_lisp(symbol: &Symbol, name: &str) -> bool
    requires { IsAscii name.now }
    ensures { result ≡ spec.is_lisp name.now symbol.now }
{
    symbol.package.is_ascii_text("COMMON-LISP") && symbol.name.is_ascii_text(name)
}

/// Whether the symbol is its own value: T, NIL or a keyword (3.1.2.1).
pub(crate) fn is_constant(symbol: &Symbol) -> bool
    ensures { result ≡ spec.is_constant symbol.now }
{
    if symbol.package.is_ascii_text("COMMON-LISP") {
        symbol.name.is_ascii_text("T") || symbol.name.is_ascii_text("NIL")
    } else {
        symbol.package.is_ascii_text("KEYWORD")
    }
}

/// Whether its name begins with `&` (3.4.1).
pub(crate) fn is_lambda_keyword(symbol: &Symbol) -> bool
    ensures { result ≡ spec.is_lambda_keyword symbol.now }
{
    match symbol.name.as_bytes() {
        [first, ..] => *first == 38,
        [] => false,
    }
}

/// The symbol that a datum is, if it is one.
pub(crate) fn symbol_of(datum: &Datum) -> Option<&Symbol>
    ensures { option_copied result ≡ spec.symbol_of datum.now }
{
    match &datum.form {
        Form::Symbol(symbol) => Some(symbol),
        _ => None,
    }
}

/// Whether a datum is the symbol of that name in the package COMMON-LISP.
pub(crate) fn is_lisp_datum(datum: &Datum, name: &str) -> bool
    requires { IsAscii name.now }
    ensures { result ≡ spec.is_symbol (spec.is_lisp name.now) datum.now }
{
    match &datum.form {
        Form::Symbol(symbol) => is_lisp(symbol, name),
        _ => false,
    }
}

/// Whether a datum is a lambda keyword.
pub(crate) fn is_keyword_datum(datum: &Datum) -> bool
    ensures { result ≡ spec.is_symbol spec.is_lambda_keyword datum.now }
{
    match &datum.form {
        Form::Symbol(symbol) => is_lambda_keyword(symbol),
        _ => false,
    }
}
