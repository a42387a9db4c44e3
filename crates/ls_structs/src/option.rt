// The options of a structure definition.

ghost use Rattle.std.specs.Prelude.{◌≡◌};
ghost use Rattle.std.specs.Option.{option_copied, option_map};
ghost use Rattle.ls_structs.specs.Options as spec;

use ls_object::{Symbol, Text};
use ls_reader::{Datum, Form};

/// The options of a structure definition (DEFSTRUCT).
#[derive(Clone, Copy, Debug, PartialEq, Eq)]
pub(crate) enum OptionKind {
    /// `:INCLUDE`: the structure type includes another.
    Include,
    /// `:TYPE`: structures of this name are vectors or lists.
    Representation,
    /// One that says nothing of types.
    Other,
}

/// Whether this is the name of an option that says nothing of types.
fn is_other_option(name: &Text) -> bool
    ensures { result ≡ spec.is_other_option name.now }
{
    name.is_ascii_text("CONC-NAME")
        || name.is_ascii_text("CONSTRUCTOR")
        || name.is_ascii_text("COPIER")
        || name.is_ascii_text("PREDICATE")
        || name.is_ascii_text("NAMED")
        || name.is_ascii_text("PRINT-FUNCTION")
        || name.is_ascii_text("PRINT-OBJECT")
        || name.is_ascii_text("INITIAL-OFFSET")
}

fn option_named(name: &Text) -> Option<OptionKind>
    ensures { result ≡ spec.option_named name.now }
{
    if name.is_ascii_text("INCLUDE") {
        Some(OptionKind::Include)
    } else if name.is_ascii_text("TYPE") {
        Some(OptionKind::Representation)
    } else if is_other_option(name) {
        Some(OptionKind::Other)
    } else {
        None
    }
}

/// The option of which the datum is the keyword.
fn option_of_keyword(datum: &Datum) -> Option<OptionKind>
    ensures { result ≡ spec.option_of_keyword datum.now }
{
    match &datum.form {
        Form::Symbol(symbol) => if symbol.package.is_ascii_text("KEYWORD") {
            option_named(&symbol.name)
        } else {
            None
        },
        _ => None,
    }
}

/// The option that the datum is: a keyword, or a list that begins with one.
fn kind_of(option: &Datum) -> Option<OptionKind>
    ensures { result ≡ spec.kind_of option.now }
{
    match &option.form {
        Form::List(items) => match items.as_slice() {
            [keyword, ..] => option_of_keyword(keyword),
            [] => None,
        },
        _ => option_of_keyword(option),
    }
}

/// The symbol that the datum is.
pub(crate) fn symbol_of(datum: &Datum) -> Option<&Symbol>
    ensures { option_copied result ≡ spec.symbol_of datum.now }
{
    match &datum.form {
        Form::Symbol(symbol) => Some(symbol),
        _ => None,
    }
}

/// The symbol that follows the keyword of an option.
fn argument_of(option: &Datum) -> Option<&Symbol>
    ensures { option_copied result ≡ spec.argument_of option.now }
{
    match &option.form {
        Form::List(items) => match items.as_slice() {
            [_, argument, ..] => symbol_of(argument),
            _ => None,
        },
        _ => None,
    }
}

/// The name that the option includes, if it is an inclusion with one.
fn included_by(option: &Datum) -> Option<&Symbol>
    ensures { option_copied result ≡ spec.included_by option.now }
{
    match kind_of(option) {
        Some(OptionKind::Include) => argument_of(option),
        _ => None,
    }
}

/// Whether the datum is an option in the form that it has to have.
fn is_option(option: &Datum) -> bool
    ensures { result ≡ spec.is_option option.now }
{
    match kind_of(option) {
        Some(OptionKind::Include) => argument_of(option).is_some(),
        Some(_) => true,
        None => false,
    }
}

fn is_type_option(option: &Datum) -> bool
    ensures { result ≡ spec.is_type_option option.now }
{
    match kind_of(option) {
        Some(OptionKind::Representation) => true,
        _ => false,
    }
}

pub(crate) fn are_options(options: &[Datum]) -> bool
    ensures { result ≡ spec.are_options options.now }
{
    options.iter().all(|option| is_option(option))
}

/// Whether one of the options is `:TYPE`.
pub(crate) fn are_typed(options: &[Datum]) -> bool
    ensures { result ≡ spec.are_typed options.now }
{
    options.iter().any(|option| is_type_option(option))
}

/// The name that the options include, or none; `None` where they include more than one.
pub(crate) fn included_in(options: &[Datum]) -> Option<Option<&Symbol>>
    ensures { option_map option_copied result ≡ spec.at_most_one (spec.names_included options.now) }
{
    let mut found = None;
    for option in options {
        if let Some(name) = included_by(option) {
            if found.is_some() {
                return None;
            }
            found = Some(name);
        }
    }
    Some(found)
}
