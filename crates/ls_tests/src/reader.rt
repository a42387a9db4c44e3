// What texts read as. What is expected is worked out by hand from the standard's chapter 2.

use crate::print_data::{describe, describe_all};
use ls_object::Items;
use ls_reader::{Datum, read_text};
use std::alloc::Global;
use std::test::Fail;

/// The data of a text; None where it is not read.
fn read(alloc: Global, text: &[u8]) -> Option<Items<Datum>> {
    if text.len() > 16_777_216 {
        return None;
    }
    read_text(alloc, text).ok()
}

/// What a text reads as, written out; None where it is not read.
fn reading(alloc: Global, text: &str, spans: bool) -> Option<String> {
    let data = read(alloc, text.as_bytes())?;
    let mut out = String::new(alloc);
    describe_all(&mut out, data.as_slice(), spans).ok()?;
    Some(out)
}

/// Texts and their data, with their spans.
const DATA: [(&str, &str); 11] = [
    ("", ""),
    (" \n ", ""),
    ("a", " A@0-1,1:1"),
    ("()", " NIL@0-2,1:1"),
    ("( \n )", " NIL@0-5,1:1"),
    (
        "(f 'a)\n  (\n b)(c)",
        " ( F@1-2,1:2 ' A@4-5,1:5@3-5,1:4)@0-6,1:1 ( B@12-13,3:2)@9-14,2:3 ( C@15-16,3:5)@14-17,3:4",
    ),
    (
        "\u{e9}\n(\u{1f600} b)",
        " \u{e9}@0-2,1:1 ( \u{1f600}@4-8,2:2 B@9-10,2:4)@3-11,2:1",
    ),
    (
        "(a . (b . (c)))",
        " ( A@1-2,1:2 B@6-7,1:7 C@11-12,1:12)@0-15,1:1",
    ),
    ("(a . ())", " ( A@1-2,1:2)@0-8,1:1"),
    ("#-x ' #| c |# a #+x b", " ' A@14-15,1:15@4-15,1:5"),
    (
        "#(1) #\\a #*01 \"\n\" x",
        " #( 1/1@2-3,1:3)@0-4,1:1 #97@5-8,1:6 #*2@9-13,1:10 <\n>@14-17,1:15 X@18-19,2:3",
    ),
];

/// Texts and their data, without spans.
const FORMS: [(&str, &str); 26] = [
    ("+1 -1 007 -0 10. +5.", " 1/1 -1/1 7/1 0/1 10/1 5/1"),
    (
        "1+ + - -a 1e e5 1e+ +e5 1g5 1e5e5 ./ +.",
        " 1+ + - -A 1E E5 1E+ +E5 1G5 1E5E5 ./ +.",
    ),
    (
        "18446744073709551616 -18446744073709551616",
        " 18446744073709551616/1 -18446744073709551616/1",
    ),
    (
        "18446744073709551617 -99999999999999999999999999999999999999999999",
        " wide wide",
    ),
    (
        "1/2 -4/6 4/2 0/5 18446744073709551616/2",
        " 1/2 -2/3 2/1 0/1 9223372036854775808/1",
    ),
    (
        "18446744073709551618/2 1/1152921504606846976 1/1152921504606846977",
        " wide 1/1152921504606846976 wide",
    ),
    (
        "1.5 .5 +.5e3 1.5f0 1e5 -1.e5 1d0 2L0 1.0D-3 1s0",
        " single single single single single single double double double single",
    ),
    (
        "#b101 #O-17 #xfF #x-1/A #b+10/100",
        " 5/1 -15/1 255/1 -1/10 1/2",
    ),
    ("; c\na ;d", " A"),
    ("#|x #| y |# z|#a #||# b", " A B"),
    ("a#|b|#c", " A#b#C"),
    ("\"a\\\"b\\\\\" \"\" \"\n;#|\"", " <a\"b\\> <> <\n;#|>"),
    ("|a B| \\x a\\bc|D e|f ||", " a B x AbCD eF "),
    (
        "a::b a:b :k keyword:k cl:car common-lisp-user::x CL-user:y common-lisp::z",
        " A::B A::B :K :K CAR X Y Z",
    ),
    ("|a:b| a\\:b :|| a:|| |p|:q", " a:b A:B : A:: p::Q"),
    (
        "the-package-of-a-name-that-is-long::the-name-itself-which-is-much-longer-than-64-characters",
        " THE-PACKAGE-OF-A-NAME-THAT-IS-LONG::THE-NAME-ITSELF-WHICH-IS-MUCH-LONGER-THAN-64-CHARACTERS",
    ),
    (
        "#\\a #\\Space #\\NEWLINE #\\u+e9 #\\( #\\Linefeed #\\rubout #\\Page #\\tab #\\Return #\\BackSpace",
        " #97 #32 #10 #233 #40 #10 #127 #12 #9 #13 #8",
    ),
    (
        "#\\U+110000 #\\foo #\\U+D800 #\\U+10FFFF #\\U+0000041 #\\U+ #\\a\\b",
        " odd odd odd #1114111 odd odd #97 b",
    ),
    (
        "#(1 a) #() #* #*0110 #5*1 #3(a) #*#(b)",
        " #( 1/1 A) #() #*0 #*4 odd odd #*0 #( B)",
    ),
    ("`(a ,b ,@c ,.d ,.5)", " ` ( A , B ,@ C ,@ D ,@ 5/1)"),
    (
        "#'car #.(f) #C(1 2) #p\"x\" #:g #:. #1a(b) #s(p) #2r 1",
        " #' CAR odd odd odd odd odd odd odd odd",
    ),
    (
        "(a . b) (a . (b c)) (a . nil) (a . (b . c)) (a . 'b) (a . p:x) (a . :k)",
        " ( A . B) ( A B C) ( A) ( A B . C) ( A . ' B) ( A . P::X) ( A . :K)",
    ),
    (
        "(a . #+(or) x b #-(and) y) (a . b #+(or) c)",
        " ( A . B) ( A . B)",
    ),
    ("#+ansi-cl a b #-ansi-cl c d #+(and) e #+(or) f", " A B D E"),
    (
        "#+x:common-lisp g #-(not (and :common-lisp q)) h #+(or q (not nil)) i #+() j",
        " G I",
    ),
    ("a\u{e9}B\u{7f}\tc\u{c}d", " A\u{e9}B C D"),
];

#[test]
fn texts_are_read(rt: HostRuntime) -> Result<(), Fail> {
    for (text, want) in DATA {
        let found = reading(rt.alloc(), text, true).ok_or("the text is read")?;
        assert_eq!(rt; found.as_str(), want, "at {text:?}");
    }
    for (text, want) in FORMS {
        let found = reading(rt.alloc(), text, false).ok_or("the text is read")?;
        assert_eq!(rt; found.as_str(), want, "at {text:?}");
    }
    Ok(())
}

/// A front, a part so often, and a back.
fn repeated(
    alloc: Global,
    front: &[u8],
    part: &[u8],
    count: usize,
    back: &[u8],
) -> Option<Vec<u8>> {
    let mut text = Vec::new(alloc);
    text.extend_from_slice(front).ok()?;
    for _ in 0..count {
        text.extend_from_slice(part).ok()?;
    }
    text.extend_from_slice(back).ok()?;
    Some(text)
}

/// Large texts: what comes first, what comes again and again, how often, what comes last, and how many data are read.
const LARGE: [(&[u8], &[u8], usize, &[u8], usize); 12] = [
    (
        b"",
        b"a ; what stands behind a semicolon is no datum\n",
        25_000,
        b"",
        25_000,
    ),
    (b"", b"a:b ", 10_000, b"", 10_000),
    (b"", b"(a . #(b 'c))", 10_000, b"", 10_000),
    (b"", b"#+lisp a #-(and x) b 1/2 ", 10_000, b"", 20_000),
    (b"(", b"\n\tb", 10_000, b")", 1),
    (b"(a . (", b"b ", 10_000, b"))", 1),
    (b"\"", b"\\\"s", 10_000, b"\"", 1),
    (b"p:|", b"b\\|", 10_000, b"|c", 1),
    (b"", b"1", 10_000, b"/1", 1),
    (b"#*", b"01", 10_000, b"", 1),
    (b"#\\", b"a", 10_000, b"", 1),
    (b"a;", b"; c ", 10_000, b"", 1),
];

/// How many data a front, a part so often, and a back have; None where they are not read.
fn count_of(alloc: Global, front: &[u8], part: &[u8], count: usize, back: &[u8]) -> Option<usize> {
    let text = repeated(alloc, front, part, count, back)?;
    Some(read(alloc, text.as_slice())?.len())
}

#[test]
fn large_texts_are_read(rt: HostRuntime) {
    for (front, part, count, back, want) in LARGE {
        let found = count_of(rt.alloc(), front, part, count, back);
        assert_eq!(rt; found, Some(want), "at {part:?}");
    }
}

/// Writes a copy of each datum of a text, with the size of the first.
fn copies(alloc: Global, text: &[u8]) -> Option<String> {
    let data = read(alloc, text)?;
    let datum = data.as_slice().first()?;
    let mut out = String::new(alloc);
    write!(out, "{}", datum.size()).ok()?;
    push_copy(alloc, &mut out, datum)?;
    Some(out)
}

/// Writes a copy of a datum.
fn push_copy(alloc: Global, out: &mut String, datum: &Datum) -> Option<()> {
    let copy = datum.copy(alloc).ok()?;
    describe(out, &copy, false).ok()
}

#[test]
fn data_are_copied_and_counted(rt: HostRuntime) -> Result<(), Fail> {
    let text = b"(a (b . c) #(1 'd) \"e\" `(,x ,@y) #'z 1.0 #\\a #*01 #.q)";
    let found = copies(rt.alloc(), text).ok_or("the text is read")?;
    let want = "22 ( A ( B . C) #( 1/1 ' D) <e> ` ( , X ,@ Y) #' Z single #97 #*2 odd)";
    assert_eq!(rt; found.as_str(), want);
    Ok(())
}
