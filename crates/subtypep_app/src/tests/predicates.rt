// Texts about predicates (SATISFIES). What is expected is worked out by hand.

use super::{Case, Row, first_wrong, outcome_of};
use crate::status::Status;
use std::alloc::{AllocError, Global};
use std::test::Fail;

/// Texts whose queries are answered; where an object is shown, it is the only one.
const ANSWERED: [Row<'static>; 29] = [
    // Included under every meaning.
    (
        b"(subtypep '(and integer (satisfies evenp)) 'integer)",
        b"1:1 T\n",
    ),
    (b"(subtypep '(satisfies p) '(satisfies p))", b"1:1 T\n"),
    (b"(subtypep '(satisfies p) t)", b"1:1 T\n"),
    (b"(subtypep nil '(satisfies p))", b"1:1 T\n"),
    (
        b"(subtypep 'null '(or (satisfies p) (not (satisfies p))))",
        b"1:1 T\n",
    ),
    (
        b"(subtypep '(and (satisfies p) (not (satisfies p))) nil)",
        b"1:1 T\n",
    ),
    (
        b"(subtypep '(or (and bit (satisfies p)) (and bit (satisfies q))) '(and bit (or (satisfies q) (satisfies p))))",
        b"1:1 T\n",
    ),
    (
        b"(subtypep '(cons (and bit (satisfies p)) null) '(cons (satisfies p) list))",
        b"1:1 T\n",
    ),
    // One object stands twice in a cons, with marks of its own at each place.
    (
        b"(subtypep '(cons (and (eql 5) (satisfies p)) (and (eql 5) (not (satisfies p)))) nil)",
        b"1:1 NIL UNSURE (5 . 5)\n",
    ),
    // Outside under some meaning alone.
    (b"(subtypep '(eql 5) '(satisfies p))", b"1:1 NIL UNSURE 5\n"),
    (
        b"(subtypep '(and (eql 5) (satisfies p)) nil)",
        b"1:1 NIL UNSURE 5\n",
    ),
    (
        b"(subtypep '(and (eql 5) (satisfies p)) '(satisfies q))",
        b"1:1 NIL UNSURE 5\n",
    ),
    (
        b"(subtypep '(member 5 a) '(or integer (satisfies p)))",
        b"1:1 NIL UNSURE A\n",
    ),
    (
        b"(subtypep '(eql 5) '(not (satisfies p)))",
        b"1:1 NIL UNSURE 5\n",
    ),
    (
        b"(subtypep '(cons (eql 1) (eql 2)) '(cons (satisfies p) t))",
        b"1:1 NIL UNSURE (1 . 2)\n",
    ),
    // Outside under every meaning.
    (
        b"(subtypep '(or null (satisfies p)) 'cons)",
        b"1:1 NIL WITNESS NIL\n",
    ),
    (
        b"(subtypep '(or (eql 5) (satisfies p)) '(and integer (not (eql 5))))",
        b"1:1 NIL WITNESS 5\n",
    ),
    (
        b"(subtypep '(eql 5) '(and symbol (satisfies p)))",
        b"1:1 NIL WITNESS 5\n",
    ),
    (
        b"(subtypep '(not (and integer (satisfies p))) '(not null))",
        b"1:1 NIL WITNESS NIL\n",
    ),
    (
        b"(subtypep '(cons (eql 1) (or null (satisfies p))) '(cons t (and cons (satisfies p))))",
        b"1:1 NIL WITNESS (1)\n",
    ),
    // Of two objects that differ, one is outside whatever the predicate means.
    (
        b"(subtypep '(member 5 a) '(and integer (satisfies p)))",
        b"1:1 NIL WITNESS A\n",
    ),
    // In an element type a predicate may be true of any object, and the query is never unsure.
    (
        b"(subtypep '(vector (and bit (satisfies p))) 'bit-vector)",
        b"1:1 T\n",
    ),
    (
        b"(subtypep '(vector (satisfies p)) '(vector t))",
        b"1:1 T\n",
    ),
    (
        b"(subtypep '(vector (not (satisfies p))) '(vector (satisfies q)))",
        b"1:1 T\n",
    ),
    (
        b"(subtypep '(simple-array (and bit (satisfies p)) (2)) '(vector t))",
        b"1:1 NIL WITNESS #<ARRAY BIT (2) SIMPLE>\n",
    ),
    // NIL, T and keywords name predicates too, and so do names of other packages.
    (
        b"(subtypep '(and null (satisfies nil)) '(satisfies t))",
        b"1:1 NIL UNSURE NIL\n",
    ),
    (
        b"(subtypep '(and null (satisfies :p)) '(satisfies p))",
        b"1:1 NIL UNSURE NIL\n",
    ),
    (
        b"(subtypep '(satisfies my::p) '(satisfies my::p))",
        b"1:1 T\n",
    ),
    // A predicate that a DEFTYPE brings.
    (
        b"(deftype even () '(and integer (satisfies evenp)))\n(subtypep 'even 'integer)\n(subtypep '(eql 4) 'even)\n(subtypep '(eql a) 'even)",
        b"2:1 T\n3:1 NIL UNSURE 4\n4:1 NIL WITNESS A\n",
    ),
];

/// Texts with a query that is refused.
const REFUSED: [Row<'static>; 6] = [
    (
        b"(subtypep 'satisfies t)",
        b"1:1 REFUSED BAD-ARGUMENT 1:12\n",
    ),
    (
        b"(subtypep '(satisfies) t)",
        b"1:1 REFUSED BAD-ARGUMENT 1:12\n",
    ),
    (
        b"(subtypep '(satisfies p q) t)",
        b"1:1 REFUSED BAD-ARGUMENT 1:12\n",
    ),
    (
        b"(subtypep '(satisfies 'p) t)",
        b"1:1 REFUSED BAD-ARGUMENT 1:12\n",
    ),
    (
        b"(subtypep '(satisfies \"p\") t)",
        b"1:1 REFUSED BAD-ARGUMENT 1:12\n",
    ),
    (
        b"(subtypep '(and t (satisfies (lambda (x) x))) t)",
        b"1:1 REFUSED BAD-ARGUMENT 1:19\n",
    ),
];

#[test]
fn predicates_may_mean_anything(rt: HostRuntime) -> Result<(), Fail> {
    assert_eq!(rt; first_wrong(rt.alloc(), &ANSWERED, Status::Clean)?, None);
    assert_eq!(rt; first_wrong(rt.alloc(), &REFUSED, Status::Found)?, None);
    Ok(())
}

/// Whether what so many predicates are true of is included in T.
fn all_of(alloc: Global, count: u32) -> Result<String, AllocError> {
    let mut text = String::from_str(alloc, "(subtypep '(and")?;
    for n in 0..count {
        write!(text, " (satisfies p{n})")?;
    }
    text.push_str(") t)")?;
    Ok(text)
}

/// Each predicate doubles the cost: n of them cost 2^n times 23, and 23 for what surely belongs.
#[test]
fn each_predicate_doubles_the_cost(rt: HostRuntime) -> Result<(), Fail> {
    let rows: [(u32, &str, &[u8]); 5] = [
        (17, "3014678", b"1:1 TOO-LARGE\n"),
        (17, "3014679", b"1:1 T\n"),
        (18, "4194304", b"1:1 TOO-LARGE\n"),
        (200, "1073741824", b"1:1 TOO-LARGE\n"),
        (3, "207", b"1:1 T\n"),
    ];
    for (count, budget, report) in rows {
        let text = all_of(rt.alloc(), count)?;
        let words = ["ask", "--budget", budget];
        let got = outcome_of(rt.alloc(), &Case::new(&words, text.as_bytes()))?;
        assert_eq!(rt;
            got.bytes.as_slice(),
            report,
            "{count} predicates within {budget}"
        );
    }
    Ok(())
}
