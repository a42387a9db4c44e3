// The faults of texts. What is expected is worked out by hand.

use ls_reader::{ReadError, Span, read_text};
use std::alloc::{AllocError, Global};
use std::test::Fail;

/// The kind of a fault, and its span; None for want of memory.
fn kind_of(error: &ReadError) -> Option<(&'static str, Span)> {
    Some(match error {
        ReadError::NotUtf8(at) => ("not utf-8", *at),
        ReadError::BadToken(at) => ("bad token", *at),
        ReadError::StrayClose(at) => ("stray close", *at),
        ReadError::Unclosed(at) => ("unclosed", *at),
        ReadError::BadDot(at) => ("bad dot", *at),
        ReadError::TooDeep(at) => ("too deep", *at),
        ReadError::ZeroDenominator(at) => ("zero denominator", *at),
        ReadError::Label(at) => ("label", *at),
        ReadError::Memory => return None,
    })
}

/// Writes the kind of a fault, its byte, its line and its column.
fn describe(out: &mut String, kind: &str, at: Span) -> Result<(), AllocError> {
    write!(out, "{kind} {} {}:{}", at.start, at.line, at.column)?;
    if at.end != at.start {
        out.push_str(" and more")?;
    }
    Ok(())
}

/// The fault of a text; None where it is not read.
fn fault_of(alloc: Global, text: &[u8]) -> Option<ReadError> {
    if text.len() > 16_777_216 {
        return None;
    }
    read_text(alloc, text).err()
}

/// The fault of a text, written out; `none` where it has none.
fn fault(alloc: Global, text: &[u8]) -> Option<String> {
    let mut out = String::new(alloc);
    match fault_of(alloc, text) {
        None => out.push_str("none").ok()?,
        Some(error) => {
            let (kind, at) = kind_of(&error)?;
            describe(&mut out, kind, at).ok()?;
        }
    }
    Some(out)
}

/// Texts and their faults: the kind, the byte, the line and the column.
const FAULTS: [(&[u8], &str); 67] = [
    (b"(subtypep 'integer", "unclosed 0 1:1"),
    (b"'", "unclosed 0 1:1"),
    (b"a\n (b\n'", "unclosed 6 3:1"),
    (b"(a (b) (c ", "unclosed 7 1:8"),
    (b"(subtypep 'integer 't))", "stray close 22 1:23"),
    (b"(a ')", "stray close 4 1:5"),
    (b"(a ,)", "stray close 4 1:5"),
    (b"(a #+)", "stray close 5 1:6"),
    (b"(a #+b)", "stray close 6 1:7"),
    (b"(a #.)", "stray close 5 1:6"),
    (b") .", "stray close 0 1:1"),
    (b"a\n)\n(", "stray close 2 2:1"),
    (b"(a . )", "bad dot 5 1:6"),
    (b".", "bad dot 0 1:1"),
    (b"(. a)", "bad dot 1 1:2"),
    (b"(#+(or) a . b)", "bad dot 10 1:11"),
    (b"(a . b . c)", "bad dot 7 1:8"),
    (b"(a . . c)", "bad dot 5 1:6"),
    (b"(a . b c)", "bad dot 7 1:8"),
    (b"(a . b 'c)", "bad dot 7 1:8"),
    (b"(a . b (", "bad dot 7 1:8"),
    (b"(a . b #+(and) c)", "bad dot 15 1:16"),
    (b"(a . #+(or) b)", "bad dot 13 1:14"),
    (b"#(a . b)", "bad dot 4 1:5"),
    (b"(a '. b)", "bad dot 4 1:5"),
    (b"(a . b \"x", "unclosed 7 1:8"),
    (b"(a . b 1/0)", "zero denominator 7 1:8"),
    (b"(a . b #1=c)", "label 7 1:8"),
    (b"1/0", "zero denominator 0 1:1"),
    (b"(a 99999999999999999999/00)", "zero denominator 3 1:4"),
    (b"#1=a", "label 0 1:1"),
    (b"(#22# )", "label 1 1:2"),
    (b"a::", "bad token 0 1:1"),
    (b"(a b:c:d)", "bad token 3 1:4"),
    (b":", "bad token 0 1:1"),
    (b"::a", "bad token 0 1:1"),
    (b"a:::b", "bad token 0 1:1"),
    (b"||:a", "bad token 0 1:1"),
    (b"(a ...)", "bad token 3 1:4"),
    (b"ab\x01", "bad token 2 1:3"),
    (b"#", "bad token 0 1:1"),
    (b"a #12 b", "bad token 2 1:3"),
    (b"#<a>", "bad token 0 1:1"),
    (b"#1'a", "bad token 0 1:1"),
    (b"#b2", "bad token 0 1:1"),
    (b"#x", "bad token 0 1:1"),
    (b"#b#1", "bad token 0 1:1"),
    (b"#x1.", "bad token 0 1:1"),
    (b"#b|1|", "bad token 0 1:1"),
    (b"#*012", "bad token 0 1:1"),
    (b"#o7/0", "zero denominator 0 1:1"),
    (b"#:a::", "bad token 0 1:1"),
    (b"#:1/0", "zero denominator 0 1:1"),
    (b"(x #-(or (foo)) y)", "bad token 3 1:4"),
    (b"#+\"x\" a", "bad token 0 1:1"),
    (b"#+(not a b) c", "bad token 0 1:1"),
    (b"#+(or a 1) c", "bad token 0 1:1"),
    (b"#\\", "unclosed 0 1:1"),
    (b"#|a #| b", "unclosed 4 1:5"),
    (b"#| #| |# x", "unclosed 0 1:1"),
    (b"#|#|#||#|#\n#|", "unclosed 11 2:1"),
    (b"a #b|1", "unclosed 2 1:3"),
    (b"x \\", "unclosed 2 1:3"),
    (b"(a b|c", "unclosed 3 1:4"),
    (b"a\xff", "not utf-8 1 1:2"),
    (b"(a\n\xc3\xa9\xff", "not utf-8 5 2:2"),
    (b"1/0 \xe2\x82", "not utf-8 4 1:5"),
];

#[test]
fn faults_have_kind_and_place(rt: HostRuntime) -> Result<(), Fail> {
    for (text, want) in FAULTS {
        let found = fault(rt.alloc(), text).ok_or("there is memory")?;
        assert_eq!(rt; found.as_str(), want, "at {text:?}");
    }
    Ok(())
}

/// A prefix so often, an atom, and closing brackets.
fn nested(alloc: Global, open: &[u8], depth: usize, close: usize) -> Option<Vec<u8>> {
    let mut text = Vec::new(alloc);
    for _ in 0..depth {
        text.extend_from_slice(open).ok()?;
    }
    text.push(b'a').ok()?;
    for _ in 0..close {
        text.push(b')').ok()?;
    }
    Some(text)
}

/// The fault of such a text.
fn nested_fault(alloc: Global, open: &[u8], depth: usize, close: usize) -> Option<String> {
    let text = nested(alloc, open, depth, close)?;
    fault(alloc, text.as_slice())
}

/// Prefixes, how many closing brackets stand behind, how often the prefix stands, and the fault.
const NESTED: [(&[u8], usize, usize, &str); 8] = [
    (b"(", 256, 256, "none"),
    (b"(", 256, 257, "too deep 256 1:257"),
    (b"'", 0, 256, "none"),
    (b"'", 0, 257, "too deep 256 1:257"),
    (b"#(", 256, 256, "none"),
    (b"#(", 256, 257, "too deep 512 1:513"),
    (b",@", 0, 256, "none"),
    (b",@", 0, 257, "too deep 512 1:513"),
];

#[test]
fn constructs_may_be_256_deep(rt: HostRuntime) -> Result<(), Fail> {
    for (open, close, depth, want) in NESTED {
        let found = nested_fault(rt.alloc(), open, depth, close).ok_or("there is memory")?;
        assert_eq!(rt; found.as_str(), want, "at {open:?}");
    }
    Ok(())
}
