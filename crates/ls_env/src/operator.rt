ghost use Rattle.std.specs.Prelude.{◌≡◌};
ghost use Rattle.ls_env.specs.TopLevel as spec;

use ls_object::{Symbol, Text};
use ls_reader::{Datum, Form};

/// What the operator of a top-level form means.
#[derive(Clone, Copy, Debug, PartialEq, Eq)]
pub(crate) enum Operator {
    /// PROGN: its arguments are top-level forms too.
    Progn,
    /// EVAL-WHEN: its arguments are top-level forms too, but for the first one.
    EvalWhen,
    Subtypep,
    Typep,
    Deftype,
    Defstruct,
    /// DEFCLASS or DEFINE-CONDITION.
    Defclass,
    Other,
}

fn operator_named(name: &Text) -> Operator
    ensures { result ≡ spec.operator_named name.now }
{
    if name.is_ascii_text("PROGN") {
        Operator::Progn
    } else if name.is_ascii_text("EVAL-WHEN") {
        Operator::EvalWhen
    } else if name.is_ascii_text("SUBTYPEP") {
        Operator::Subtypep
    } else if name.is_ascii_text("TYPEP") {
        Operator::Typep
    } else {
        defining_operator_named(name)
    }
}

fn defining_operator_named(name: &Text) -> Operator
    ensures { result ≡ spec.defining_operator_named name.now }
{
    if name.is_ascii_text("DEFTYPE") {
        Operator::Deftype
    } else if name.is_ascii_text("DEFSTRUCT") {
        Operator::Defstruct
    } else if name.is_ascii_text("DEFCLASS") || name.is_ascii_text("DEFINE-CONDITION") {
        Operator::Defclass
    } else {
        Operator::Other
    }
}

fn operator_of(symbol: &Symbol) -> Operator
    ensures { result ≡ spec.operator_of symbol.now }
{
    if symbol.package.is_ascii_text("COMMON-LISP") {
        operator_named(&symbol.name)
    } else {
        Operator::Other
    }
}

fn operator_at(head: &Datum) -> Operator
    ensures { result ≡ spec.operator_at head.now }
{
    match &head.form {
        Form::Symbol(symbol) => operator_of(symbol),
        _ => Operator::Other,
    }
}

/// What the first datum of a list means as its operator.
pub(crate) fn operator_of_list(items: &[Datum]) -> Operator
    ensures { result ≡ spec.operator_of_list items.now }
{
    match items {
        [head, ..] => operator_at(head),
        [] => Operator::Other,
    }
}
