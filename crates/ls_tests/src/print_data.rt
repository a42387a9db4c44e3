//! Data as texts.

use ls_reader::{Datum, FloatFormat, Form, Literal, Span};
use std::alloc::AllocError;

/// Writes data, each with a space before it, and with its span if that is asked for.
#[cycle(describe)]
pub(crate) fn describe_all(
    out: &mut String,
    data: &[Datum],
    spans: bool,
) -> Result<(), AllocError> {
    for datum in data {
        describe(out, datum, spans)?;
    }
    Ok(())
}

/// Writes a datum as `FORM@START-END,LINE:COLUMN` or as `FORM`, with a space before it.
#[cycle(describe)]
pub(crate) fn describe(out: &mut String, datum: &Datum, spans: bool) -> Result<(), AllocError> {
    out.push_str(" ")?;
    describe_form(out, &datum.form, spans)?;
    if spans {
        let Span {
            start,
            end,
            line,
            column,
        } = datum.span;
        write!(out, "@{start}-{end},{line}:{column}")?;
    }
    Ok(())
}

/// Writes a form that has data in it, or another one.
#[cycle(describe)]
fn describe_form(out: &mut String, form: &Form, spans: bool) -> Result<(), AllocError> {
    match form {
        Form::List(items) => {
            out.push_str("(")?;
            describe_all(out, items.as_slice(), spans)?;
            out.push_str(")")
        }
        Form::Dotted(items, last) => {
            out.push_str("(")?;
            describe_all(out, items.as_slice(), spans)?;
            out.push_str(" .")?;
            describe(out, last.get(), spans)?;
            out.push_str(")")
        }
        Form::Vector(items) => {
            out.push_str("#(")?;
            describe_all(out, items.as_slice(), spans)?;
            out.push_str(")")
        }
        Form::Quote(of) => describe_prefixed(out, "'", of.get(), spans),
        Form::Back(of) => describe_prefixed(out, "`", of.get(), spans),
        Form::Comma(of) => describe_prefixed(out, ",", of.get(), spans),
        Form::Splice(of) => describe_prefixed(out, ",@", of.get(), spans),
        Form::FunctionOf(of) => describe_prefixed(out, "#'", of.get(), spans),
        form => describe_atom(out, form),
    }
}

/// Writes a prefix and its datum.
#[cycle(describe)]
fn describe_prefixed(
    out: &mut String,
    prefix: &str,
    of: &Datum,
    spans: bool,
) -> Result<(), AllocError> {
    out.push_str(prefix)?;
    describe(out, of, spans)
}

/// Writes a form without data in it.
fn describe_atom(out: &mut String, form: &Form) -> Result<(), AllocError> {
    match form {
        Form::Symbol(symbol) => describe_symbol(out, symbol.package.as_str(), symbol.name.as_str()),
        Form::Number(Literal::Value(small)) => {
            write!(out, "{}/{}", small.value.num, small.value.den)
        }
        Form::Number(Literal::Wide) => out.push_str("wide"),
        Form::Float(FloatFormat::Single) => out.push_str("single"),
        Form::Float(FloatFormat::Double) => out.push_str("double"),
        Form::Char(c) => write!(out, "#{}", *c as u32),
        Form::Str(text) => write!(out, "<{}>", text.as_str()),
        Form::Bits(count) => write!(out, "#*{count}"),
        _ => out.push_str("odd"),
    }
}

/// Writes a symbol as `NAME`, `:NAME` or `PACKAGE::NAME`.
fn describe_symbol(out: &mut String, package_name: &str, name: &str) -> Result<(), AllocError> {
    if package_name == "KEYWORD" {
        out.push_str(":")?;
    } else if package_name != "COMMON-LISP" {
        out.push_str(package_name)?;
        out.push_str("::")?;
    }
    out.push_str(name)
}
