// Texts about conses.

use super::{Case, Row, outcome_of};
use crate::status::Status;
use std::test::Fail;

/// Texts about conses, without a refusal.
const CONSES: [Row<'static>; 16] = [
    (b"(subtypep '(cons nil t) nil)", b"1:1 T\n"),
    (
        b"(subtypep '(cons t (cons t t)) '(cons t list))",
        b"1:1 T\n",
    ),
    (b"(subtypep 'cons 'list)", b"1:1 T\n"),
    (b"(subtypep 'atom '(not (cons * *)))", b"1:1 T\n"),
    (b"(subtypep 'list '(or cons boolean))", b"1:1 T\n"),
    (PRODUCTS, b"1:1 T\n"),
    (
        b"(subtypep '(cons (member 1 2) (member 3 4)) '(or (cons (eql 1) t) (cons t (eql 3))))",
        b"1:1 NIL WITNESS (2 . 4)\n",
    ),
    // Lisps that are in use answer the rest of these wrongly, or die of them.
    (
        b"(subtypep nil '(or (cons bit) (cons (not symbol) bit) (cons keyword)))",
        b"1:1 T\n",
    ),
    (
        b"(subtypep '(cons keyword) '(or (cons bit) (cons (not symbol) bit) (cons keyword)))",
        b"1:1 T\n",
    ),
    (
        b"(subtypep '(cons (member a 1)) '(or (cons null) (cons (not bit) bit) (cons (member a 1))))",
        b"1:1 T\n",
    ),
    (
        b"(subtypep '(cons (or bit symbol) null) '(or (cons bit) (cons symbol)))",
        b"1:1 T\n",
    ),
    (
        b"(subtypep '(and (cons bit) (cons symbol)) nil)",
        b"1:1 T\n",
    ),
    (b"(subtypep '(cons t (and integer symbol)) nil)", b"1:1 T\n"),
    (b"(subtypep '(not (cons t t)) 'atom)", b"1:1 T\n"),
    (
        b"(subtypep '(and cons (not (cons (eql 1) t))) '(cons (not (eql 1)) t))",
        b"1:1 T\n",
    ),
    (
        b"(subtypep '(cons (eql :a) (cons (eql 2) null)) '(cons symbol (cons (eql 2) (not null))))",
        b"1:1 NIL WITNESS (:A 2)\n",
    ),
];

#[test]
fn conses_are_decided(rt: HostRuntime) -> Result<(), Fail> {
    for (text, report) in CONSES {
        let got = outcome_of(rt.alloc(), &Case::ask(text))?;
        assert_eq!(rt; got.bytes.as_slice(), report);
        assert_eq!(rt; got.status, Status::Clean);
    }
    Ok(())
}

/// A cons whose cdr is a cons with a car other than 1: which one is free.
#[test]
fn a_list_is_not_included_in_those_that_begin_with_1(rt: HostRuntime) -> Result<(), Fail> {
    let text = b"(subtypep '(cons t list) '(cons t (or (eql nil) (cons (eql 1) t))))";
    let got = outcome_of(rt.alloc(), &Case::ask(text))?;
    assert!(rt; got.bytes.starts_with(b"1:1 NIL WITNESS ("));
    assert!(rt; !got.bytes.starts_with(b"1:1 NIL WITNESS (1)"));
    assert_eq!(rt; got.status, Status::Clean);
    Ok(())
}

/// A product of unions and the union of the products.
pub(super) const PRODUCTS: &[u8] =
    b"(subtypep '(cons (or integer symbol) (or integer symbol)) '(or (cons integer integer) (cons integer symbol) (cons symbol integer) (cons symbol symbol)))";
