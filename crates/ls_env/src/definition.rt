// Forms that define names of types.

ghost use Rattle.std.specs.Prelude.{◌≡◌, map, IfOk};
ghost use Rattle.std.specs.Option.{option_copied};
ghost use Rattle.ls_reader.specs.declared.datum.Form.{out-Form};
ghost use Rattle.ls_env.specs.Definitions as spec;
ghost use Rattle.ls_env.specs.steps.Gathered.{lent_definition, definition_lent};

use crate::operator::{Operator, operator_of_list};
use ls_object::{Items, Symbol};
use ls_reader::{Datum, Form};
use ls_tables::builtin;
use std::alloc::{AllocError, Global};

/// What kind of form defines a name.
#[derive(Clone, Copy, Debug, PartialEq, Eq)]
pub(crate) enum DefiningKind {
    /// DEFTYPE.
    Type,
    /// DEFSTRUCT.
    Structure,
    /// DEFCLASS or DEFINE-CONDITION.
    Class,
}

/// A form that defines a name, lent.
#[derive(Clone, Copy, Drop)]
pub(crate) struct Defining<'a> {
    pub kind: DefiningKind,
    pub name: &'a Symbol,
    pub form: &'a Datum,
}

fn symbol_of(datum: &Datum) -> Option<&Symbol>
    ensures { option_copied result ≡ spec.symbol_of datum.now }
{
    match &datum.form {
        Form::Symbol(symbol) => Some(symbol),
        _ => None,
    }
}

/// The name of a DEFSTRUCT by its second datum: a symbol, or a list with one in front.
fn structure_name(datum: &Datum) -> Option<&Symbol>
    ensures { option_copied result ≡ spec.structure_name datum.now }
{
    match &datum.form {
        Form::Symbol(symbol) => Some(symbol),
        Form::List(items) => match items.as_slice() {
            [name, ..] => symbol_of(name),
            [] => None,
        },
        _ => None,
    }
}

/// The definition of a name that is not built in.
fn of_own_name<'a>(
    kind: DefiningKind,
    name: Option<&'a Symbol>,
    form: &'a Datum,
) -> Option<Defining<'a>>
    ensures { definition_lent result ≡ spec.of_own_name kind (option_copied name.entry) form.now }
{
    let name = name?;
    match builtin(name) {
        None => Some(Defining { kind, name, form }),
        Some(_) => None,
    }
}

/// The definition that a list with that operator is, if it is one.
fn definition_by<'a>(operator: Operator, name: &'a Datum, form: &'a Datum) -> Option<Defining<'a>>
    ensures { definition_lent result ≡ spec.definition_by operator name.now form.now }
{
    match operator {
        Operator::Deftype => of_own_name(DefiningKind::Type, symbol_of(name), form),
        Operator::Defclass => of_own_name(DefiningKind::Class, symbol_of(name), form),
        Operator::Defstruct => of_own_name(DefiningKind::Structure, structure_name(name), form),
        Operator::Progn
        | Operator::EvalWhen
        | Operator::Subtypep
        | Operator::Typep
        | Operator::Other => None,
    }
}

/// The definition that a form is, if it defines a name that is not built in.
pub(crate) fn definition_of(form: &Datum) -> Option<Defining<'_>>
    ensures { definition_lent result ≡ spec.definition_in form.now (out-Form form.now.form) }
{
    let Form::List(items) = &form.form else {
        return None;
    };
    let items = items.as_slice();
    match items {
        [_, name, ..] => definition_by(operator_of_list(items), name, form),
        _ => None,
    }
}

/// The definitions among top-level forms, in order.
pub(crate) fn definitions_among<'a>(
    alloc: Global,
    top: &[&'a Datum],
) -> Result<Items<Defining<'a>>, AllocError>
    ensures { IfOk result
        (λ ds. map lent_definition ds ≡ spec.definitions (map (λ d. d.now) top.entry.now)) }
{
    let mut definitions = Items::new(alloc);
    for form in top {
        if let Some(definition) = definition_of(*form) {
            definitions.push(definition)?;
        }
    }
    Ok(definitions)
}
