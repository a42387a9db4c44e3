// The objects that data write out, and how other data are refused. What is expected is worked out by hand from the
// standard (3.1.2.1.3, QUOTE).

use crate::grammar::many;
use crate::session::push_object;
use crate::texts::data_of;
use ls_grammar::{ObjectRefusal, object_of};
use ls_object::Object;
use ls_reader::Span;
use std::alloc::Global;
use std::test::Fail;

/// The object that the first datum of a text writes out; None where it writes out none.
pub(crate) fn object_in(alloc: Global, text: &str) -> Option<Object> {
    let data = data_of(alloc, text)?;
    object_of(alloc, data.as_slice().first()?).ok()
}

/// The kind of a refusal, and its place; None for want of memory.
fn kind_of(refusal: &ObjectRefusal) -> Option<(&'static str, Span)> {
    Some(match refusal {
        ObjectRefusal::NoLiteral(at) => ("no-literal", *at),
        ObjectRefusal::NumberTooWide(at) => ("too-wide", *at),
        ObjectRefusal::TooDeep(at) => ("too-deep", *at),
        ObjectRefusal::Memory => return None,
    })
}

/// Writes the kind of a refusal, its line and its column.
fn push_refusal(out: &mut String, refusal: &ObjectRefusal) -> Option<()> {
    let (kind, at) = kind_of(refusal)?;
    write!(out, "{kind} {}:{}", at.line, at.column).ok()
}

/// The object that the first datum of a text writes out, as text, or the refusal.
fn written(alloc: Global, text: &str) -> Option<String> {
    let data = data_of(alloc, text)?;
    let mut out = String::new(alloc);
    match object_of(alloc, data.as_slice().first()?) {
        Ok(object) => push_object(alloc, &mut out, &object)?,
        Err(refusal) => push_refusal(&mut out, &refusal)?,
    }
    Some(out)
}

/// Texts, and the objects that they write out, or why they write out none.
const WRITTEN: [(&str, &str); 51] = [
    ("+5", "5"),
    ("-4/6", "-2/3"),
    ("#xFF", "255"),
    ("18446744073709551616", "18446744073709551616"),
    ("1.5", "#<SINGLE-FLOAT>"),
    ("1d0", "#<DOUBLE-FLOAT>"),
    ("#\\a", "#\\a"),
    ("#\\Space", "#\\Space"),
    ("\"\"", "#<ARRAY CHARACTER (0) SIMPLE>"),
    // characters are counted, not bytes
    ("\"a\u{e9}\u{1f600}\"", "#<ARRAY CHARACTER (3) SIMPLE>"),
    ("#()", "#<ARRAY T (0) SIMPLE>"),
    ("#(1 a (b))", "#<ARRAY T (3) SIMPLE>"),
    // what stands in a vector is counted, and not looked at
    ("#(`a 18446744073709551617)", "#<ARRAY T (2) SIMPLE>"),
    ("#*0110", "#<ARRAY BIT (4) SIMPLE>"),
    ("t", "T"),
    ("nil", "NIL"),
    ("()", "NIL"),
    (":sale", ":SALE"),
    ("'a", "A"),
    ("'p::|a b|", "P::|a b|"),
    ("'5", "5"),
    ("'()", "NIL"),
    ("(quote a)", "A"),
    ("(quote (1 :a))", "(1 :A)"),
    ("'(a . b)", "(A . B)"),
    ("'(a (b) . 1)", "(A (B) . 1)"),
    ("'(a . (b))", "(A B)"),
    ("''a", "(QUOTE A)"),
    ("'(a . 'b)", "(A QUOTE B)"),
    ("'#'f", "(FUNCTION F)"),
    ("'(1 #'(lambda (x) x))", "(1 (FUNCTION (LAMBDA (X) X)))"),
    (
        "'(1d0 \"x\" #(1))",
        "(#<DOUBLE-FLOAT> #<ARRAY CHARACTER (1) SIMPLE> #<ARRAY T (1) SIMPLE>)",
    ),
    // no object is written out
    ("a", "no-literal 1:1"),
    ("(f 1)", "no-literal 1:1"),
    ("(quote a b)", "no-literal 1:1"),
    ("(quote . a)", "no-literal 1:1"),
    ("(p::quote a)", "no-literal 1:1"),
    ("#'f", "no-literal 1:1"),
    ("`a", "no-literal 1:1"),
    ("#.a", "no-literal 1:1"),
    ("'`a", "no-literal 1:2"),
    ("'#:a", "no-literal 1:2"),
    ("(quote ,a)", "no-literal 1:8"),
    ("'(a\n (b ,@c))", "no-literal 2:5"),
    ("'(a . `b)", "no-literal 1:7"),
    ("''#c(1 2)", "no-literal 1:3"),
    ("18446744073709551617", "too-wide 1:1"),
    ("-1/1152921504606846977", "too-wide 1:1"),
    ("'(1\n . 18446744073709551617)", "too-wide 2:4"),
    // the first one is told
    ("'(18446744073709551617 `a)", "too-wide 1:3"),
    ("'((`a) . 18446744073709551617)", "no-literal 1:4"),
];

#[test]
fn data_write_objects_out(rt: HostRuntime) -> Result<(), Fail> {
    for (text, want) in WRITTEN {
        let found = written(rt.alloc(), text).ok_or("the text is read")?;
        assert_eq!(rt; found.as_str(), want, "at {text:?}");
    }
    Ok(())
}

/// Texts of an opening, an item so often and what closes it.
const LARGE: [(&str, &str, usize, &str, &str); 5] = [
    ("#(", "a ", 100_000, ")", "#<ARRAY T (100000) SIMPLE>"),
    ("#*", "01", 50_000, "", "#<ARRAY BIT (100000) SIMPLE>"),
    (
        "\"",
        "\u{e9}",
        100_000,
        "\"",
        "#<ARRAY CHARACTER (100000) SIMPLE>",
    ),
    // each element is one deeper than the one before it
    ("'(", "a ", 257, ")", "too-deep 1:1"),
    // any other refusal comes before that
    ("'(", "a ", 300, "`b)", "no-literal 1:603"),
];

/// What such a text writes out.
fn many_written(
    alloc: Global,
    open: &str,
    item: &str,
    count: usize,
    close: &str,
) -> Option<String> {
    let text = many(alloc, open, item, count, close)?;
    written(alloc, &text)
}

#[test]
fn large_data_write_objects_out(rt: HostRuntime) -> Result<(), Fail> {
    for (open, item, count, close, want) in LARGE {
        let found = many_written(rt.alloc(), open, item, count, close).ok_or("the text is read")?;
        assert_eq!(rt; found.as_str(), want, "at {open:?}");
    }
    let found = many_written(rt.alloc(), "'(a", " a", 255, ")").ok_or("the text is read")?;
    let want = many(rt.alloc(), "(A", " A", 255, ")").ok_or("there is memory")?;
    assert_eq!(rt; found.as_str(), want.as_str());
    Ok(())
}
