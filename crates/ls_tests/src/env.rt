use ls_env::*;
use ls_object::{Items, Symbol};
use ls_reader::{Datum, read_text};
use std::alloc::AllocError;
use std::test::*;

/// Writes the kind and the column of each query, with a space behind.
fn describe(env: &Env, out: &mut String) -> Result<(), AllocError> {
    for query in env.queries().as_slice() {
        let kind = match query.kind {
            QueryKind::Subtypep => "subtypep",
            QueryKind::Typep => "typep",
        };
        write!(out, "{kind}@{} ", query.form.span.column)?;
    }
    Ok(())
}

/// The forms of a text; None where it is not read.
fn forms_of(rt: &HostRuntime, text: &str) -> Option<Items<Datum>> {
    if text.len() > 1000 {
        return None;
    }
    read_text(rt.alloc(), text.as_bytes()).ok()
}

/// The queries of a text; None where it is not read.
fn queries(rt: &HostRuntime, text: &str) -> Option<String> {
    let forms = forms_of(rt, text)?;
    let env = Env::of_file(rt.alloc(), &forms).ok()?;
    let mut out = String::new(rt.alloc());
    describe(&env, &mut out).ok()?;
    Some(out)
}

/// Texts and their queries, each by its kind and column.
const QUERIES: [(&str, &str); 8] = [
    ("", ""),
    ("subtypep typep (a) ((subtypep)) 'typep", ""),
    (
        "(typep 1 'a) (subtypep) (Typep)",
        "typep@1 subtypep@14 typep@25 ",
    ),
    ("'(subtypep a b) (let (typep 1 a))", ""),
    (
        "(progn (typep) (subtypep) x) (typep)",
        "typep@8 subtypep@16 typep@30 ",
    ),
    (
        "(eval-when (typep) (subtypep) (typep))",
        "subtypep@20 typep@31 ",
    ),
    (
        "(progn (progn) (eval-when) (eval-when (typep) (progn (subtypep))))",
        "subtypep@54 ",
    ),
    ("(progn '(typep) (a (typep)))", ""),
];

#[test]
fn queries_of_texts(rt: HostRuntime) -> Result<(), Fail> {
    for (text, want) in QUERIES {
        let found = queries(&rt, text).ok_or("the text is read")?;
        assert_eq!(rt; found.as_str(), want, "at {text:?}");
    }
    Ok(())
}

/// What the argument of the form stands for: the column of its value, or 0 where it would have to be evaluated.
fn value_column(rt: &HostRuntime, text: &str) -> Option<u32> {
    let forms = forms_of(rt, text)?;
    match value_of(forms.as_slice().first()?) {
        Argument::Known(datum) => Some(datum.span.column),
        Argument::Evaluated => Some(0),
    }
}

const VALUES: [(&str, u32); 10] = [
    ("'x", 2),
    ("(quote x)", 8),
    ("t", 1),
    ("nil", 1),
    (":x", 1),
    ("x", 0),
    ("keyword::quote", 1),
    ("(quote x y)", 0),
    ("(p::quote x)", 0),
    ("1", 0),
];

#[test]
fn values_of_arguments(rt: HostRuntime) -> Result<(), Fail> {
    for (text, column) in VALUES {
        let found = value_column(&rt, text).ok_or("the text is read")?;
        assert_eq!(rt; found, column, "at {text:?}");
    }
    Ok(())
}

#[test]
fn nothing_defines_names_or_structures(rt: HostRuntime) -> Result<(), Fail> {
    let env = Env::of_file(rt.alloc(), &Items::new(rt.alloc()))?;
    assert_eq!(rt; env.tree().parents().as_slice().len(), 0);
    assert_eq!(rt; env.status(&Symbol::nil(rt.alloc())?), NameStatus::Unknown);
    assert_eq!(rt; env.status_of_quote(), NameStatus::Unknown);
    Ok(())
}
