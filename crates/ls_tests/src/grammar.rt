// What data resolve to as specifiers, and how they are refused. What is expected is worked out by hand.

use crate::print::write_spec;
use crate::texts::data_of;
use ls_env::Env;
use ls_grammar::{Stop, resolve};
use ls_spec::Spec;
use std::alloc::{AllocError, Global};
use std::test::Fail;

/// Writes what the datum resolved to, or the refusal with its column.
fn describe(out: &mut String, found: &Result<Spec, Stop>) -> Result<(), AllocError> {
    match found {
        Ok(spec) => write_spec(out, spec),
        Err(Stop::Refused(refusal)) => {
            write!(out, "{:?} {}", refusal.kind, refusal.place.column)
        }
        Err(Stop::Memory) => Err(AllocError),
    }
}

/// What the first datum of a text resolves to; None where it has none.
pub fn resolution(alloc: Global, text: &str) -> Option<String> {
    let data = data_of(alloc, text)?;
    let env = Env::of_file(alloc, &data).ok()?;
    let found = resolve(alloc, &env, data.as_slice().first()?);
    let mut out = String::new(alloc);
    describe(&mut out, &found).ok()?;
    Some(out)
}

const RESOLVED: [(&str, &str); 35] = [
    ("t", "all"),
    ("nil", "nothing"),
    ("null", "NIL"),
    ("integer", "integer:*..*"),
    ("(integer)", "integer:*..*"),
    ("(integer -3 (10))", "integer:-3..<10"),
    ("(rational (0) *)", "rational:<0..*"),
    ("(mod 1)", "integer:0..0"),
    (
        "(mod 18446744073709551616)",
        "integer:0..18446744073709551615",
    ),
    ("bit", "integer:0..1"),
    ("(signed-byte 1)", "integer:-1..0"),
    (
        "(signed-byte 65)",
        "integer:-18446744073709551616..18446744073709551615",
    ),
    ("(signed-byte *)", "integer:*..*"),
    ("(unsigned-byte 64)", "integer:0..18446744073709551615"),
    ("(unsigned-byte)", "integer:0..*"),
    ("(and)", "(and)"),
    ("(member)", "(or)"),
    (
        "(or (and integer (mod 2)) (not (eql -1)))",
        "(or (and integer:*..* integer:0..1) not -1)",
    ),
    ("(member * nil integer 1)", "(or * NIL INTEGER 1)"),
    ("(eql cons)", "CONS"),
    ("(eql #\\a)", "char 97"),
    ("(eql -2/4)", "-1/2"),
    ("(rational 1/2)", "rational:1/2..*"),
    ("(float * *)", "(or SingleFloat DoubleFloat)"),
    ("real", "(or rational:*..* (or SingleFloat DoubleFloat))"),
    ("(complex *)", "Complex"),
    ("function", "(or Function CompiledFunction)"),
    ("(cons)", "(cons all all)"),
    ("(cons * (cons bit))", "(cons all (cons integer:0..1 all))"),
    ("(cons (cons *) *)", "(cons (cons all all) all)"),
    ("atom", "not (cons all all)"),
    ("list", "(or NIL (cons all all))"),
    ("sequence", "(or (or NIL (cons all all)) (array * *))"),
    ("(satisfies evenp)", "satisfying EVENP"),
    (
        "(and bit (not (satisfies *)))",
        "(and integer:0..1 not satisfying *)",
    ),
];

const REFUSED: [(&str, &str); 60] = [
    ("(float 1 2 3)", "FloatRange 1"),
    ("(or t (real 0))", "FloatRange 7"),
    ("(long-float * * *)", "BadArgument 1"),
    ("(complex real)", "ComplexPart 1"),
    ("(complex * 1)", "ComplexPart 1"),
    ("(complex * *)", "BadArgument 1"),
    ("(not (function 1))", "FunctionList 6"),
    ("(values)", "FunctionList 1"),
    ("(and values)", "FunctionList 6"),
    ("1", "BadArgument 1"),
    ("((mod 2) 1)", "BadArgument 1"),
    ("(not t nil)", "BadArgument 1"),
    ("(eql)", "BadArgument 1"),
    ("(mod)", "BadArgument 1"),
    ("(or member)", "BadArgument 5"),
    ("(nil)", "BadArgument 1"),
    ("(symbol *)", "BadArgument 1"),
    ("(* 1)", "BadArgument 1"),
    ("(integer a b c)", "BadArgument 1"),
    ("(signed-byte 1 2)", "BadArgument 1"),
    ("(integer a 18446744073709551617)", "BadBound 10"),
    ("(rational 0 (1 2))", "BadBound 13"),
    ("(integer (*))", "BadBound 10"),
    ("(mod 0)", "BadBound 6"),
    ("(mod *)", "BadBound 6"),
    ("(signed-byte -1)", "BadBound 14"),
    ("(unsigned-byte (8))", "BadBound 16"),
    ("(integer -18446744073709551617 a)", "NumberTooWide 10"),
    ("(integer * (18446744073709551617))", "NumberTooWide 13"),
    ("(mod 18446744073709551617)", "NumberTooWide 6"),
    ("(mod -18446744073709551617)", "NumberTooWide 6"),
    ("(signed-byte 66)", "NumberTooWide 14"),
    ("(unsigned-byte 65)", "NumberTooWide 16"),
    ("(eql 18446744073709551617)", "NumberTooWide 6"),
    ("(member a 18446744073709551617 (b))", "NumberTooWide 11"),
    ("(member a (b) *)", "MemberObject 11"),
    ("(eql 'a)", "MemberObject 6"),
    ("(eql 1.0)", "MemberObject 6"),
    ("(rational 1d0)", "BadBound 11"),
    ("(integer 1/2)", "BadBound 10"),
    ("(mod 3/2)", "BadBound 6"),
    ("(mod -1/1152921504606846977)", "NumberTooWide 6"),
    ("*", "StarNotAllowed 1"),
    ("(or integer *)", "StarNotAllowed 13"),
    ("(and cons *)", "StarNotAllowed 11"),
    ("(and (atom) *)", "BadArgument 6"),
    ("(list 1 2)", "BadArgument 1"),
    ("(cons t t t)", "BadArgument 1"),
    ("(cons * (or *))", "StarNotAllowed 13"),
    ("(cons (eql) (mod 0))", "BadArgument 7"),
    ("(sequence)", "BadArgument 1"),
    ("satisfies", "BadArgument 1"),
    ("(satisfies)", "BadArgument 1"),
    ("(satisfies p q)", "BadArgument 1"),
    ("(not (satisfies 'p))", "BadArgument 6"),
    ("(satisfies (p))", "BadArgument 1"),
    ("(foo *)", "UnknownType 1"),
    ("(not foo)", "UnknownType 6"),
    ("'integer", "UnknownType 1"),
    ("(or (mod 0) *)", "BadBound 10"),
];

#[test]
fn data_resolve(rt: HostRuntime) -> Result<(), Fail> {
    for (text, want) in RESOLVED {
        let found = resolution(rt.alloc(), text).ok_or("the text is read")?;
        assert_eq!(rt; found.as_str(), want, "at {text:?}");
    }
    Ok(())
}

#[test]
fn data_are_refused(rt: HostRuntime) -> Result<(), Fail> {
    for (text, want) in REFUSED {
        let found = resolution(rt.alloc(), text).ok_or("the text is read")?;
        assert_eq!(rt; found.as_str(), want, "at {text:?}");
    }
    Ok(())
}

/// `open` so many times, an atom, and as many closing brackets.
fn nested(alloc: Global, open: &str, depth: usize) -> Option<String> {
    let mut text = String::new(alloc);
    for _ in 0..depth {
        text.push_str(open).ok()?;
    }
    text.push_str("t").ok()?;
    for _ in 0..depth {
        text.push_str(")").ok()?;
    }
    Some(text)
}

/// What the first datum of a text nested so deep resolves to.
fn nested_resolution(alloc: Global, open: &str, depth: usize) -> Option<String> {
    let text = nested(alloc, open, depth)?;
    resolution(alloc, &text)
}

/// An opening, an item so many times, and what closes it.
pub(crate) fn many(
    alloc: Global,
    open: &str,
    item: &str,
    count: usize,
    close: &str,
) -> Option<String> {
    let mut text = String::from_str(alloc, open).ok()?;
    for _ in 0..count {
        text.push_str(item).ok()?;
    }
    text.push_str(close).ok()?;
    Some(text)
}

/// What a text with so many items resolves to.
fn many_resolution(
    alloc: Global,
    open: &str,
    item: &str,
    count: usize,
    close: &str,
) -> Option<String> {
    let text = many(alloc, open, item, count, close)?;
    resolution(alloc, &text)
}

/// An element type is one deeper than its array.
#[test]
fn depth_of_parts(rt: HostRuntime) -> Result<(), Fail> {
    for (open, start, refusal) in [
        ("(and ", "(and (and ", "TooDeep 1281"),
        ("(vector ", "(array (array ", "TooDeep 2049"),
    ] {
        let found = nested_resolution(rt.alloc(), open, 255).ok_or("the text is read")?;
        assert!(rt; found.as_str().starts_with(start));
        let found = nested_resolution(rt.alloc(), open, 256).ok_or("the text is read")?;
        assert_eq!(rt; found.as_str(), refusal);
    }
    Ok(())
}

/// MEMBER itself takes one of the room, so the last object finds none, and all before it did.
#[test]
fn room_of_objects(rt: HostRuntime) -> Result<(), Fail> {
    let found = many_resolution(rt.alloc(), "(member", " a", 262_144, ")").ok_or(
        "the text is read",
    )?;
    assert_eq!(rt; found.as_str(), "TooManyNodes 524295");
    Ok(())
}

/// OR, MEMBER and its objects leave one of the room: the vector takes it, and its element type finds none.
#[test]
fn room_of_element_types(rt: HostRuntime) -> Result<(), Fail> {
    let found = many_resolution(rt.alloc(), "(or (member", " a", 262_141, ") (vector t))").ok_or(
        "the text is read",
    )?;
    assert_eq!(rt; found.as_str(), "TooManyNodes 524304");
    Ok(())
}

/// A list of dimensions is looked at by its length before its dimensions are, and a rank asks for as many of any size.
#[test]
fn ranks(rt: HostRuntime) -> Result<(), Fail> {
    let found = many_resolution(rt.alloc(), "(array * (*", " *", 254, "))").ok_or(
        "the text is read",
    )?;
    let rank = resolution(rt.alloc(), "(array * 255)").ok_or("the text is read")?;
    assert_eq!(rt; found.as_str(), rank.as_str());
    let found = many_resolution(rt.alloc(), "(array * (a", " *", 255, "))").ok_or(
        "the text is read",
    )?;
    assert_eq!(rt; found.as_str(), "NumberTooWide 10");
    Ok(())
}
