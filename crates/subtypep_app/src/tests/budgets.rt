// What a query is answered within a budget, and how much one may say.

use super::conses::PRODUCTS;
use super::{Case, RANGES, RANGES_REPORT, outcome_of};
use crate::status::Status;
use std::alloc::{AllocError, Global};
use std::test::Fail;

/// What a query is answered within a budget.
const BUDGETS: [(&str, &[u8], &[u8], Status); 6] = [
    ("66", PRODUCTS, b"1:1 TOO-LARGE\n", Status::Found),
    ("67", PRODUCTS, b"1:1 T\n", Status::Clean),
    (
        "34",
        b"(subtypep 'integer 'rational)",
        b"1:1 TOO-LARGE\n",
        Status::Found,
    ),
    (
        "35",
        b"(subtypep 'integer 'rational)",
        b"1:1 T\n",
        Status::Clean,
    ),
    ("1073741824", RANGES, RANGES_REPORT, Status::Clean),
    // Another query before it changes no answer.
    (
        "40",
        b"(subtypep '(eql 7) 'symbol)(subtypep '(cons integer integer) '(cons integer))(subtypep 'integer 'integer)(subtypep '(eql 7) 'symbol)",
        b"1:1 NIL WITNESS 7\n1:28 TOO-LARGE\n1:78 T\n1:106 NIL WITNESS 7\n",
        Status::Found,
    ),
];

#[test]
fn the_budget_bounds_each_query(rt: HostRuntime) -> Result<(), Fail> {
    for (budget, text, report, status) in BUDGETS {
        let words = ["ask", "--budget", budget];
        let got = outcome_of(rt.alloc(), &Case::new(&words, text))?;
        assert_eq!(rt; got.bytes.as_slice(), report);
        assert_eq!(rt; got.status, status);
    }
    Ok(())
}

/// Whether the OR of so many conses with keywords as their cars is included in the conses of a keyword and a list.
fn tagged(alloc: Global, count: u32) -> Result<String, AllocError> {
    let mut text = String::from_str(alloc, "(subtypep '(or")?;
    for n in 0..count {
        write!(
            text,
            " (cons (eql :k{n}) (cons integer (cons symbol null)))"
        )?;
    }
    text.push_str(") '(cons keyword list))")?;
    Ok(text)
}

/// The pair has 64 atoms, and so has the list of its cars: a word of bits more.
#[test]
fn a_large_union_of_conses_costs_3993(rt: HostRuntime) -> Result<(), Fail> {
    let text = tagged(rt.alloc(), 63)?;
    let rows: [(&str, &[u8]); 2] = [("3992", b"1:1 TOO-LARGE\n"), ("3993", b"1:1 T\n")];
    for (budget, report) in rows {
        let words = ["ask", "--budget", budget];
        let got = outcome_of(rt.alloc(), &Case::new(&words, text.as_bytes()))?;
        assert_eq!(rt; got.bytes.as_slice(), report, "within {budget}");
    }
    Ok(())
}

/// Whether MEMBER of so many zeros is included in T.
fn zeros(alloc: Global, count: usize) -> Result<Vec<u8>, AllocError> {
    let mut text = Vec::from_slice(alloc, b"(subtypep '(member")?;
    for _ in 0..count {
        text.extend_from_slice(b" 0")?;
    }
    text.extend_from_slice(b") t)")?;
    Ok(text)
}

#[test]
fn a_specifier_has_so_many_parts(rt: HostRuntime) -> Result<(), Fail> {
    let rows: [(usize, &[u8]); 2] = [
        (262_143, b"1:1 T\n"),
        (262_144, b"1:1 REFUSED TOO-MANY-NODES 1:524306\n"),
    ];
    for (count, report) in rows {
        let text = zeros(rt.alloc(), count)?;
        let got = outcome_of(rt.alloc(), &Case::ask(&text))?;
        assert_eq!(rt; got.bytes.as_slice(), report, "with {count} parts");
    }
    Ok(())
}

/// A query about a MEMBER of so many integers.
fn members(alloc: Global, count: u32) -> Result<String, AllocError> {
    let mut text = String::from_str(alloc, "(subtypep '(member")?;
    for n in 0..count {
        write!(text, " {n}")?;
    }
    text.push_str(") nil)")?;
    Ok(text)
}

/// For n integers the cost is (23 + 3 * n) * (1 + n / 64), which is more than 4,194,304 from 9,439 integers on.
#[test]
fn a_query_may_cost_too_much(rt: HostRuntime) -> Result<(), Fail> {
    let text = members(rt.alloc(), 9_438)?;
    let got = outcome_of(rt.alloc(), &Case::ask(text.as_bytes()))?;
    assert!(rt; got.bytes.starts_with(b"1:1 NIL WITNESS "));
    assert_eq!(rt; got.status, Status::Clean);
    let text = members(rt.alloc(), 9_439)?;
    let got = outcome_of(rt.alloc(), &Case::ask(text.as_bytes()))?;
    assert_eq!(rt; got.bytes.as_slice(), b"1:1 TOO-LARGE\n".as_slice());
    assert_eq!(rt; got.status, Status::Found);
    Ok(())
}
