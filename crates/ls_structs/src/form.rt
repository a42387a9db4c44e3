ghost use Rattle.std.specs.Prelude.{◌≡◌, IfOk, IfErr, Ok};
ghost use Rattle.std.specs.Option.{option_copied, option_map};
ghost use Rattle.ls_reader.specs.declared.datum.Form.{out-Form};
ghost use Rattle.ls_structs.specs.Forms as spec;

use crate::fault::StructFault;
use crate::option::{are_options, are_typed, included_in, symbol_of};
use ls_object::Symbol;
use ls_reader::{Datum, Form};
use std::alloc::{AllocError, Global};

/// What a DEFSTRUCT form says: `(defstruct name slot ..)` or `(defstruct (name option ..) slot ..)`.
#[derive(Drop)]
pub struct StructForm {
    pub name: Symbol,
    /// The name of the structure type that it includes (`:INCLUDE`), if it has this option.
    pub include: Option<Symbol>,
    /// Whether it has the option `:TYPE`. Then structures are vectors or lists, and the name becomes no type.
    pub typed: bool,
    /// The whole form, in which the slots stand.
    pub rest: Datum,
}

impl StructForm {
    /// What a DEFSTRUCT form says, or that it has no name, or else an option out of form. The operator and the slots
    /// are not looked at.
    pub fn of(alloc: Global, datum: &Datum) -> Result<StructForm, StructFault>
        ensures form { IfOk result (λ form. spec.definition datum.now ≡ Ok form) }
        ensures fault { IfErr result (spec.IsFaultOf (spec.definition datum.now)) }
    {
        let Some((name, options)) = name_and_options(datum) else {
            return Err(StructFault::NoName);
        };
        let Some(include) = inclusion(options) else {
            return Err(StructFault::BadOption);
        };
        Ok(StructForm {
            name: name.copy()?,
            include: copy_name(include)?,
            typed: are_typed(options),
            rest: datum.copy(alloc)?,
        })
    }
}

/// The name and the options of a datum `name` or `(name option ..)`.
fn named(datum: &Datum) -> Option<(&Symbol, &[Datum])>
    ensures { option_map (λ p. (p.0.now, p.1.now)) result ≡ spec.named_form (out-Form datum.now.form) }
{
    match &datum.form {
        Form::Symbol(symbol) => Some((symbol, &[])),
        Form::List(items) => match items.as_slice() {
            [name, options @ ..] => Some((symbol_of(name)?, options)),
            [] => None,
        },
        _ => None,
    }
}

/// The name and the options of a DEFSTRUCT form.
fn name_and_options(datum: &Datum) -> Option<(&Symbol, &[Datum])>
    ensures { option_map (λ p. (p.0.now, p.1.now)) result ≡ spec.named datum.now }
{
    match &datum.form {
        Form::List(items) => match items.as_slice() {
            [_, name, ..] => named(name),
            _ => None,
        },
        _ => None,
    }
}

/// The name that the options include, or none; `None` where an option is out of form, or there is a second inclusion.
fn inclusion(options: &[Datum]) -> Option<Option<&Symbol>>
    ensures { option_map option_copied result ≡ spec.inclusion options.now }
{
    if are_options(options) {
        included_in(options)
    } else {
        None
    }
}

/// An equal name, where there is one.
pub(crate) fn copy_name(name: Option<&Symbol>) -> Result<Option<Symbol>, AllocError>
    ensures { IfOk result (λ copied. copied ≡ option_copied name.entry) }
{
    match name {
        Some(name) => Ok(Some(name.copy()?)),
        None => Ok(None),
    }
}
