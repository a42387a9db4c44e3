// Texts about objects and types (TYPEP). What is expected is worked out by hand.

use super::{Case, Row, first_wrong, outcome_of};
use crate::status::Status;
use std::alloc::{AllocError, Global};
use std::test::Fail;

/// Texts whose queries are answered.
const ANSWERED: [Row<'static>; 53] = [
    // Objects that stand for themselves.
    (b"(typep 5 'integer)", b"1:1 T\n"),
    (b"(typep 3/4 'integer)", b"1:1 NIL\n"),
    (b"(typep -6/4 '(rational -3/2 -3/2))", b"1:1 T\n"),
    (b"(typep 1.5 'float)", b"1:1 T\n"),
    (b"(typep 1.5 'double-float)", b"1:1 NIL\n"),
    (b"(typep 1d0 'double-float)", b"1:1 T\n"),
    (b"(typep #\\a 'standard-char)", b"1:1 T\n"),
    (b"(typep #\\U+00E9 'base-char)", b"1:1 NIL\n"),
    (b"(typep \"abc\" '(vector character 3))", b"1:1 T\n"),
    (b"(typep \"abc\" 'base-string)", b"1:1 NIL\n"),
    (b"(typep \"\xc3\xa9\" '(simple-string 1))", b"1:1 T\n"),
    (b"(typep \"\" '(string 0))", b"1:1 T\n"),
    (b"(typep #(1 b) 'simple-vector)", b"1:1 T\n"),
    (b"(typep #(1 b) '(vector t 3))", b"1:1 NIL\n"),
    (b"(typep #() '(vector t 0))", b"1:1 T\n"),
    (b"(typep #*101 '(simple-bit-vector 3))", b"1:1 T\n"),
    (b"(typep #*101 '(vector t))", b"1:1 NIL\n"),
    (b"(typep t 'boolean)", b"1:1 T\n"),
    (b"(typep nil 'list)", b"1:1 T\n"),
    (b"(typep () 'null)", b"1:1 T\n"),
    (b"(typep :a 'keyword)", b"1:1 T\n"),
    // Quoted data.
    (b"(typep 'a 'symbol)", b"1:1 T\n"),
    (b"(typep 'nil 'null)", b"1:1 T\n"),
    (b"(typep '5 'bit)", b"1:1 NIL\n"),
    (b"(typep '(1 . 2) '(cons integer integer))", b"1:1 T\n"),
    (
        b"(typep '(1 2) '(cons integer (cons (eql 2) null)))",
        b"1:1 T\n",
    ),
    (b"(typep '(1 2 . 3) '(cons t (cons t null)))", b"1:1 NIL\n"),
    (b"(typep '(1 . (2)) '(cons t (cons t null)))", b"1:1 T\n"),
    (b"(typep '() 'cons)", b"1:1 NIL\n"),
    (b"(typep (quote (a)) '(cons (eql a) null))", b"1:1 T\n"),
    (
        b"(typep ''a '(cons (eql quote) (cons (eql a) null)))",
        b"1:1 T\n",
    ),
    (
        b"(typep '#'a '(cons (eql function) (cons (eql a) null)))",
        b"1:1 T\n",
    ),
    (
        b"(typep '(#*1 #(,a) \"x\") '(cons bit-vector (cons simple-vector (cons string null))))",
        b"1:1 T\n",
    ),
    // Structure types hold none of these objects.
    (
        b"(defstruct p)\n(typep 'p 'p)\n(typep 'p '(not p))\n(typep '(p) 'structure-object)",
        b"2:1 NIL\n3:1 T\n4:1 NIL\n",
    ),
    // A predicate is for its meaning to say, where nothing else tells.
    (b"(typep 5 '(satisfies evenp))", b"1:1 UNSURE\n"),
    (b"(typep 5 '(not (satisfies evenp)))", b"1:1 UNSURE\n"),
    (b"(typep 5 '(or integer (satisfies evenp)))", b"1:1 T\n"),
    (b"(typep 'a '(and integer (satisfies evenp)))", b"1:1 NIL\n"),
    (
        b"(typep 'a '(not (and integer (satisfies evenp))))",
        b"1:1 T\n",
    ),
    (
        b"(typep '(1 . 2) '(cons integer (satisfies p)))",
        b"1:1 UNSURE\n",
    ),
    (
        b"(typep '(1 . 2) '(cons symbol (satisfies p)))",
        b"1:1 NIL\n",
    ),
    (
        b"(typep '(1 . 2) '(or (cons symbol (satisfies p)) (cons t (eql 2))))",
        b"1:1 T\n",
    ),
    (
        b"(typep 5 '(or (satisfies p) (not (satisfies p))))",
        b"1:1 UNSURE\n",
    ),
    // In an element type it says which arrays there are.
    (b"(typep #*1 '(vector (and bit (satisfies p))))", b"1:1 T\n"),
    (b"(typep #*1 '(vector (satisfies p)))", b"1:1 NIL\n"),
    (b"(typep #(1) '(array (satisfies p)))", b"1:1 T\n"),
    (b"(typep #*1 '(vector (mod 2)))", b"1:1 T\n"),
    (b"(typep #*1 '(vector (mod 3)))", b"1:1 NIL\n"),
    (b"(typep \"a\" '(vector (vector bit)))", b"1:1 NIL\n"),
    // A third argument is passed over.
    (b"(typep 1 'bit env)", b"1:1 T\n"),
    (b"(typep 1 t x)", b"1:1 T\n"),
    (b"(typep 1 nil)", b"1:1 NIL\n"),
    // Inside PROGN, beside other queries, and by a DEFTYPE.
    (
        b"(progn (deftype small () '(mod 3)))\n(typep 2 'small) (typep 3 'small)\n(subtypep 'small 'bit)\n(typep 1 'bit)",
        b"2:1 T\n2:18 NIL\n3:1 NIL WITNESS 2\n4:1 T\n",
    ),
];

/// Texts with a query that is refused.
const REFUSED: [Row<'static>; 20] = [
    // The count comes first, then a type that is not quoted, then the object, and the type last.
    (b"(typep)", b"1:1 REFUSED BAD-ARGUMENT 1:1\n"),
    (b"(typep x)", b"1:1 REFUSED BAD-ARGUMENT 1:1\n"),
    (b"(typep 1 'a 't 't)", b"1:1 REFUSED BAD-ARGUMENT 1:1\n"),
    (b"(typep x integer)", b"1:1 REFUSED BAD-ARGUMENT 1:10\n"),
    (b"(typep x '(float 1))", b"1:1 REFUSED NO-LITERAL 1:8\n"),
    (b"(typep 1 '(float 1))", b"1:1 REFUSED FLOAT-RANGE 1:11\n"),
    // What would have to be evaluated is no object, and neither is what stands for something else.
    (b"(typep x 'integer)", b"1:1 REFUSED NO-LITERAL 1:8\n"),
    (b"(typep (list 1) 'list)", b"1:1 REFUSED NO-LITERAL 1:8\n"),
    (b"(typep #'car 'function)", b"1:1 REFUSED NO-LITERAL 1:8\n"),
    (b"(typep `a 'symbol)", b"1:1 REFUSED NO-LITERAL 1:8\n"),
    (b"(typep #.a t)", b"1:1 REFUSED NO-LITERAL 1:8\n"),
    (b"(typep (quote a b) t)", b"1:1 REFUSED NO-LITERAL 1:8\n"),
    // Inside quoted data the first such part counts.
    (b"(typep '(1 ,a) 'list)", b"1:1 REFUSED NO-LITERAL 1:12\n"),
    (
        b"(typep '(1 `a ,b) 'list)",
        b"1:1 REFUSED NO-LITERAL 1:12\n",
    ),
    (
        b"(typep '(1 . ,@a) 'list)",
        b"1:1 REFUSED NO-LITERAL 1:14\n",
    ),
    (
        b"(typep '((1 #:g) ,a) 'list)",
        b"1:1 REFUSED NO-LITERAL 1:13\n",
    ),
    (
        b"(typep 18446744073709551617 'integer)",
        b"1:1 REFUSED NUMBER-TOO-WIDE 1:8\n",
    ),
    (
        b"(typep '(a 1/1152921504606846977 ,b) 'list)",
        b"1:1 REFUSED NUMBER-TOO-WIDE 1:12\n",
    ),
    (b"(typep 1 'shop)", b"1:1 REFUSED UNKNOWN-TYPE 1:11\n"),
    (
        b"(defclass shop () ())\n(typep 'total 'shop)",
        b"2:1 REFUSED CLASS-TYPE 2:16\n",
    ),
];

#[test]
fn an_object_belongs_or_not(rt: HostRuntime) -> Result<(), Fail> {
    assert_eq!(rt; first_wrong(rt.alloc(), &ANSWERED, Status::Clean)?, None);
    assert_eq!(rt; first_wrong(rt.alloc(), &REFUSED, Status::Found)?, None);
    Ok(())
}

/// Whether a list of so many zeros is a list.
fn zeros(alloc: Global, count: u32) -> Result<String, AllocError> {
    let mut text = String::from_str(alloc, "(typep '(")?;
    for _ in 0..count {
        text.push_str("0 ")?;
    }
    text.push_str(") 'list)")?;
    Ok(text)
}

/// An object may be 256 deep, and a list of n elements is n deep.
#[test]
fn an_object_is_so_deep(rt: HostRuntime) -> Result<(), Fail> {
    let rows: [(u32, &[u8]); 3] = [
        (256, b"1:1 T\n"),
        (257, b"1:1 REFUSED TOO-DEEP 1:8\n"),
        (100_000, b"1:1 REFUSED TOO-DEEP 1:8\n"),
    ];
    for (count, report) in rows {
        let text = zeros(rt.alloc(), count)?;
        let got = outcome_of(rt.alloc(), &Case::ask(text.as_bytes()))?;
        assert_eq!(rt; got.bytes.as_slice(), report, "with {count} elements");
    }
    Ok(())
}

/// A query costs what the element types of its type cost: here 109.
#[test]
fn the_budget_bounds_the_element_types(rt: HostRuntime) -> Result<(), Fail> {
    let rows: [(&str, &[u8]); 2] = [("108", b"1:1 TOO-LARGE\n"), ("109", b"1:1 NIL\n")];
    for (budget, report) in rows {
        let words = ["ask", "--budget", budget];
        let text: &[u8] = b"(typep #(1) '(vector (mod 100)))";
        let got = outcome_of(rt.alloc(), &Case::new(&words, text))?;
        assert_eq!(rt; got.bytes.as_slice(), report, "within {budget}");
    }
    Ok(())
}
