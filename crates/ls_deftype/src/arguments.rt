// The arguments of a use of a template.

ghost use Rattle.std.specs.Prelude.{◌≡◌, ◌≤◌, ◌<◌, true, length, Some, IfOk};
ghost use Rattle.ls_deftype.specs.Symbols.{symbol_of};
ghost use Rattle.ls_deftype.specs.Arguments as spec;
ghost use Rattle.ls_deftype.specs.Templates.{definition_of};
ghost use Rattle.ls_deftype.specs.steps.Filling.{use_of, shown};

use crate::symbol::symbol_of;
use crate::template::Template;
use ls_object::Symbol;
use ls_reader::{Datum, Form, Span};
use sqlite_items::Items;
use std::alloc::{AllocError, Global};

/// A use of a template: its place, and its arguments.
#[derive(Drop)]
pub(crate) struct Use<'a> {
    pub alloc: Global,
    pub template: &'a Template,
    pub place: Span,
    pub args: &'a [Datum],
}

/// What a parameter stands for: nothing where there is no such parameter, a datum, or the list of the arguments that
/// are left.
#[derive(Drop)]
pub(crate) enum Value<'a> {
    None,
    Datum(&'a Datum),
    Rest,
}

impl Template {
    /// Whether it takes so many arguments.
    pub(crate) fn takes(&self, count: usize) -> bool
        ensures value { result ≡ spec.takes (definition_of self.now) count }
        ensures enough { result ≡ true → length self.now.required ≤ count }
    {
        let required = self.required.len();
        required <= count && (self.rest.is_some() || count - required <= self.optional.len())
    }
}

/// The list of the data, which is NIL where there are none.
pub(crate) fn listed(alloc: Global, at: Span, items: Items<Datum>) -> Result<Datum, AllocError>
    ensures { IfOk result (λ d. d ≡ spec.listed at items) }
{
    let form = if items.is_empty() {
        Form::Symbol(Symbol::nil(alloc)?)
    } else {
        Form::List(items)
    };
    Ok(Datum { span: at, form })
}

impl<'a> Use<'a> {
    /// The arguments behind those of the required and optional parameters.
    pub fn rest_args(&self) -> &'a [Datum]
        requires { length self.now.template.now.required ≤ length self.now.args.now }
        ensures { result.now ≡ spec.rest_args (use_of self.now) }
    {
        let args = self.args;
        let behind = &args[self.template.required.len()..];
        let optional = self.template.optional.len();
        if optional <= behind.len() {
            &behind[optional..]
        } else {
            &[]
        }
    }

    /// What the parameter at a place stands for.
    fn value_at(&self, at: usize) -> Value<'a>
        requires enough { length self.now.template.now.required ≤ length self.now.args.now }
        requires within { at < length (spec.names (definition_of self.now.template.now)) }
        ensures { shown (use_of self.now) result ≡ spec.value_at (use_of self.now) (Some at) }
    {
        let template = self.template;
        let args = self.args;
        let required = template.required.len();
        if at < required {
            return Value::Datum(&args[at]);
        }
        let optional = template.optional.as_slice();
        if at - required >= optional.len() {
            return Value::Rest;
        }
        if at < args.len() {
            Value::Datum(&args[at])
        } else {
            Value::Datum(&optional[at - required].value)
        }
    }

    /// What the parameter that a datum names stands for.
    pub fn value_of(&self, datum: &Datum) -> Value<'a>
        requires { length self.now.template.now.required ≤ length self.now.args.now }
        ensures { shown (use_of self.now) result ≡ spec.value_of (use_of self.now) (symbol_of datum.now) }
    {
        let Some(symbol) = symbol_of(datum) else {
            return Value::None;
        };
        match self.template.names.find(symbol) {
            Some(at) => self.value_at(at),
            None => Value::None,
        }
    }
}
