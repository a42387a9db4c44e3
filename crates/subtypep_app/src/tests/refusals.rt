// What is refused: queries, texts, and words without a meaning.

use super::{Case, RANGES, Row, USAGE, outcome_of};
use crate::status::Status;
use ls_io::LIMIT;
use std::test::Fail;

/// Texts with a refused query, and their lines.
const REFUSED: [Row<'static>; 20] = [
    (
        b"(subtypep '(float 0.0 1.0) 'float)",
        b"1:1 REFUSED FLOAT-RANGE 1:12\n",
    ),
    (
        b"(subtypep 'complex '(complex float))",
        b"1:1 REFUSED COMPLEX-PART 1:21\n",
    ),
    (
        b"(subtypep 'function '(function (t) t))",
        b"1:1 REFUSED FUNCTION-LIST 1:22\n",
    ),
    (
        b"(subtypep '(integer 0 18446744073709551617) 't)",
        b"1:1 REFUSED NUMBER-TOO-WIDE 1:23\n",
    ),
    (
        b"(subtypep '(integer a) 't)",
        b"1:1 REFUSED BAD-BOUND 1:21\n",
    ),
    (
        b"(subtypep '(member a \"a\") 't)",
        b"1:1 REFUSED MEMBER-OBJECT 1:22\n",
    ),
    (
        b"(subtypep '(or integer *) t)",
        b"1:1 REFUSED STAR-NOT-ALLOWED 1:24\n",
    ),
    (
        b"(subtypep '(not integer symbol) t)",
        b"1:1 REFUSED BAD-ARGUMENT 1:12\n",
    ),
    (
        b"(subtypep '(vector t (2)) 'sequence)",
        b"1:1 REFUSED BAD-ARGUMENT 1:22\n",
    ),
    (b"(subtypep :a t)", b"1:1 REFUSED UNKNOWN-TYPE 1:11\n"),
    (b"(subtypep 't :a)", b"1:1 REFUSED UNKNOWN-TYPE 1:14\n"),
    // The refusal of the first type comes first.
    (
        b"(subtypep '(satisfies) '(float 1))",
        b"1:1 REFUSED BAD-ARGUMENT 1:12\n",
    ),
    // An argument that is not quoted comes before it.
    (
        b"(subtypep 'cons \"a\")",
        b"1:1 REFUSED BAD-ARGUMENT 1:17\n",
    ),
    (b"(subtypep 1 \"a\")", b"1:1 REFUSED BAD-ARGUMENT 1:11\n"),
    (
        b"(subtypep integer 'integer)",
        b"1:1 REFUSED BAD-ARGUMENT 1:11\n",
    ),
    (
        b"(subtypep 't (quote integer symbol))",
        b"1:1 REFUSED BAD-ARGUMENT 1:14\n",
    ),
    (
        b"(subtypep 't (list integer))",
        b"1:1 REFUSED BAD-ARGUMENT 1:14\n",
    ),
    // A wrong count comes first.
    (b" (subtypep)", b"1:2 REFUSED BAD-ARGUMENT 1:2\n"),
    (b"(subtypep 't)", b"1:1 REFUSED BAD-ARGUMENT 1:1\n"),
    (
        b"(subtypep cons 't 't 't)",
        b"1:1 REFUSED BAD-ARGUMENT 1:1\n",
    ),
];

#[test]
fn queries_are_refused_with_kind_and_place(rt: HostRuntime) -> Result<(), Fail> {
    for (text, report) in REFUSED {
        let got = outcome_of(rt.alloc(), &Case::ask(text))?;
        assert_eq!(rt; got.bytes.as_slice(), report);
        assert_eq!(rt; got.status, Status::Found);
    }
    Ok(())
}

/// The line of a text that has a fault.
#[test]
fn faults_are_named_with_their_places(rt: HostRuntime) -> Result<(), Fail> {
    let cases: [(&[u8], &[u8]); 11] = [
        (b"(subtypep 'integer", b"FAULT UNCLOSED 1:1\n"),
        (b"(subtypep 'integer 't))", b"FAULT STRAY-CLOSE 1:23\n"),
        (b"a\xff", b"FAULT NOT-UTF8 1:2\n"),
        (b"(a . )", b"FAULT BAD-DOT 1:6\n"),
        (b"(a ,)", b"FAULT STRAY-CLOSE 1:5\n"),
        (b"1/0", b"FAULT ZERO-DENOMINATOR 1:1\n"),
        (b"#1=a", b"FAULT LABEL 1:1\n"),
        (b"a::", b"FAULT BAD-TOKEN 1:1\n"),
        (b"'", b"FAULT UNCLOSED 1:1\n"),
        (b"#| a\n  #| b |# #|", b"FAULT UNCLOSED 2:11\n"),
        (&[b'('; 257], b"FAULT TOO-DEEP 1:257\n"),
    ];
    for (text, report) in cases {
        let got = outcome_of(rt.alloc(), &Case::ask(text))?;
        assert_eq!(rt; got.bytes.as_slice(), report);
        assert_eq!(rt; got.status, Status::Unreadable);
    }
    Ok(())
}

#[test]
fn words_without_a_meaning_leave_the_text_unread(rt: HostRuntime) -> Result<(), Fail> {
    let lists: [&[&str]; 11] = [
        &[],
        &["check"],
        &["ASK"],
        &["ask", "ask"],
        &["ask", "--budget"],
        &["ask", "--budget", "0"],
        &["ask", "--budget", "035"],
        &["ask", "--budget", "+35"],
        &["ask", "--budget", "1073741825"],
        &["ask", "35", "--budget"],
        &["ask", "--budget", "35", "35"],
    ];
    for words in lists {
        let got = outcome_of(rt.alloc(), &Case::new(words, RANGES))?;
        assert_eq!(rt; got.status, Status::Usage);
        assert_eq!(rt; got.bytes.as_slice(), USAGE);
        assert_eq!(rt; got.left, RANGES.len());
    }
    Ok(())
}

#[test]
fn a_long_text_is_refused(rt: HostRuntime) -> Result<(), Fail> {
    let text = vec![in rt.alloc(); b' '; LIMIT + 1]?;
    let got = outcome_of(rt.alloc(), &Case::ask(&text))?;
    assert_eq!(rt; got.status, Status::Unreadable);
    assert_eq!(rt; got.bytes.as_slice(), b"FAULT TOO-LONG\n".as_slice());
    Ok(())
}
