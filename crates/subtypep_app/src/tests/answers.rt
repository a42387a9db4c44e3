// Texts that are answered without a refusal.

use super::{Case, RANGES, RANGES_REPORT, Row, outcome_of};
use crate::status::Status;
use std::test::Fail;

/// Texts without a refusal.
const ANSWERED: [Row<'static>; 29] = [
    (b"", b""),
    (RANGES, RANGES_REPORT),
    (b"(defun f)", b""),
    (b"(subtypep 'integer 'rational)", b"1:1 T\n"),
    (b"(subtypep '(rational (0) (1)) 'ratio)", b"1:1 T\n"),
    (b"(subtypep '(integer 5 3) nil)", b"1:1 T\n"),
    (
        b"(subtypep '(integer 5 3) nil)\n  (subtypep '(integer 0 10) '(integer (0) 10))\n",
        b"1:1 T\n2:3 NIL WITNESS 0\n",
    ),
    (
        b"(subtypep '(unsigned-byte 64) '(integer 0 18446744073709551615))",
        b"1:1 T\n",
    ),
    (
        b"(subtypep '(integer 0 18446744073709551615) '(unsigned-byte 64))",
        b"1:1 T\n",
    ),
    (
        b"(subtypep '(integer 0 18446744073709551616) '(unsigned-byte 64))",
        b"1:1 NIL WITNESS 18446744073709551616\n",
    ),
    (
        b"(subtypep '(member |a b|) 'keyword)",
        b"1:1 NIL WITNESS |a b|\n",
    ),
    (
        b"(subtypep '(member 1+) 'keyword)",
        b"1:1 NIL WITNESS |1+|\n",
    ),
    (
        b"(subtypep '(eql #\\U+00E9) 'base-char)",
        b"1:1 NIL WITNESS #\\U+00E9\n",
    ),
    (
        b"(subtypep '(eql pkg:x) 'null)",
        b"1:1 NIL WITNESS PKG::X\n",
    ),
    (b"(subtypep '(member *) 'symbol)", b"1:1 T\n"),
    (
        b"(subtypep '(eql 1/3) '(rational (1/3)))",
        b"1:1 NIL WITNESS 1/3\n",
    ),
    (
        b"(subtypep '(and character (not base-char)) 'extended-char)",
        b"1:1 T\n",
    ),
    (
        b"(subtypep '(and base-char (not standard-char) (not (eql #\\Rubout))) '(or (eql #\\Tab) (integer 0)))",
        b"1:1 NIL WITNESS #\\U+0000\n",
    ),
    (b"(subtypep 'boolean 'symbol)", b"1:1 T\n"),
    (
        b"(subtypep 'keyword '(member :a))",
        b"1:1 NIL WITNESS :AA\n",
    ),
    (b"(subtypep 'real 'number)", b"1:1 T\n"),
    (b"(subtypep 'number 'real)", b"1:1 NIL WITNESS #<COMPLEX>\n"),
    (
        b"(subtypep 'structure-object '(not random-state))",
        b"1:1 T\n",
    ),
    (
        b"(subtypep 't '(or number symbol character structure-object function hash-table readtable package pathname stream random-state condition restart))",
        b"1:1 NIL WITNESS #<OTHER>\n",
    ),
    (b"(subtypep (quote integer) (quote number))", b"1:1 T\n"),
    (b"(subtypep 'integer 'rational anything)", b"1:1 T\n"),
    (
        b"(progn (subtypep nil nil) (eval-when (subtypep t t) (subtypep t t)))",
        b"1:8 T\n1:53 T\n",
    ),
    (b"\n(progn)(eval-when)", b""),
    (
        b"(progn (subtypep nil nil)(subtypep t t)(subtypep nil t)(subtypep t t)(subtypep nil t)(subtypep nil nil)
(subtypep t t)(subtypep nil nil)(subtypep nil nil)(subtypep t t)(subtypep nil nil)(subtypep nil t))",
        b"1:8 T\n1:26 T\n1:40 T\n1:56 T\n1:70 T\n1:86 T\n2:1 T\n2:15 T\n2:33 T\n2:51 T\n2:65 T\n2:83 T\n",
    ),
];

#[test]
fn texts_are_answered(rt: HostRuntime) -> Result<(), Fail> {
    for (text, report) in ANSWERED {
        let got = outcome_of(rt.alloc(), &Case::ask(text))?;
        assert_eq!(rt; got.bytes.as_slice(), report);
        assert_eq!(rt; got.status, Status::Clean);
    }
    Ok(())
}

/// A datum that a feature expression leaves out is not there.
#[test]
fn features_choose_the_arguments(rt: HostRuntime) -> Result<(), Fail> {
    let text = b"(subtypep #+ansi-cl 'integer #-ansi-cl 'symbol t)";
    let got = outcome_of(rt.alloc(), &Case::ask(text))?;
    assert_eq!(rt; got.bytes.as_slice(), b"1:1 T\n".as_slice());
    assert_eq!(rt; got.status, Status::Clean);
    Ok(())
}

/// Any object may be the witness.
#[test]
fn t_is_not_included_in_nil(rt: HostRuntime) -> Result<(), Fail> {
    let got = outcome_of(rt.alloc(), &Case::ask(b"(subtypep t nil)"))?;
    let report = got.bytes.as_slice();
    assert!(rt; report.starts_with(b"1:1 NIL WITNESS "));
    assert!(rt; report.ends_with(b"\n"));
    assert_eq!(rt; got.status, Status::Clean);
    Ok(())
}
