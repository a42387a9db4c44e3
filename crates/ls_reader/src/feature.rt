//! Feature expressions (24.1.2.1).

ghost use Rattle.std.specs.Prelude.{◌≡◌, map};
ghost use Rattle.ls_reader.specs.Features as spec;
ghost use Rattle.ls_reader.specs.Features.{part};

use crate::datum::{Datum, Form};
use ls_object::Text;

/// Whether a name is that of a feature of this reader.
fn is_feature(name: &Text) -> bool
    ensures { result ≡ spec.is_feature name.now }
{
    name.is_ascii_text("ANSI-CL") || name.is_ascii_text("COMMON-LISP")
}

/// What stands at the head of a list that is a feature expression.
#[derive(Clone, Copy, Debug, PartialEq, Eq)]
pub(crate) enum Operator {
    And,
    Or,
    Not,
}

/// The operator of a name.
fn operator_of(name: &Text) -> Option<Operator>
    ensures { result ≡ spec.operator_of name.now }
{
    if name.is_ascii_text("AND") {
        Some(Operator::And)
    } else if name.is_ascii_text("OR") {
        Some(Operator::Or)
    } else if name.is_ascii_text("NOT") {
        Some(Operator::Not)
    } else {
        None
    }
}

/// The operator that the head of a list is.
fn head_operator(datum: &Datum) -> Option<Operator>
    ensures { result ≡ spec.head_operator (part datum.now).name }
{
    match &datum.form {
        Form::Symbol(symbol) => operator_of(&symbol.name),
        _ => None,
    }
}

/// Whether a datum holds as a feature expression; None where it is out of form.
#[cycle(holds)]
pub(crate) fn holds(datum: &Datum) -> Option<bool>
    ensures { result ≡ spec.holds datum.now }
{
    match &datum.form {
        Form::Symbol(symbol) => Some(is_feature(&symbol.name)),
        Form::List(items) => {
            let [head, parts @ ..] = items.as_slice() else {
                return None;
            };
            match head_operator(head)? {
                Operator::And => all_hold(parts),
                Operator::Or => some_holds(parts),
                Operator::Not => none_holds(parts),
            }
        }
        _ => None,
    }
}

/// Whether all parts hold.
#[cycle(holds)]
fn all_hold(parts: &[Datum]) -> Option<bool>
    ensures { result ≡ spec.conjunction (map part parts.now) }
{
    let mut all = true;
    for part in parts {
        all &= holds(part)?;
    }
    Some(all)
}

/// Whether one of the parts holds.
#[cycle(holds)]
fn some_holds(parts: &[Datum]) -> Option<bool>
    ensures { result ≡ spec.disjunction (map part parts.now) }
{
    let mut any = false;
    for part in parts {
        any |= holds(part)?;
    }
    Some(any)
}

/// Whether the one part does not hold.
#[cycle(holds)]
fn none_holds(parts: &[Datum]) -> Option<bool>
    ensures { result ≡ spec.negation (map part parts.now) }
{
    let [part] = parts else {
        return None;
    };
    Some(!holds(part)?)
}

/// Whether the datum behind an expression is there: for `#+` where it holds, for `#-` where it does not.
pub(crate) fn is_kept(plus: bool, holds: bool) -> bool
    ensures { result ≡ spec.is_kept plus (Some holds) }
{
    plus == holds
}
