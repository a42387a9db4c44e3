// Texts about names that DEFTYPE defines. What is expected is worked out by hand.

use super::{Case, Row, first_wrong, outcome_of};
use crate::status::Status;
use std::alloc::{AllocError, Global};
use std::test::Fail;

/// Texts whose queries are answered; where there is a witness, it is the only one.
const ANSWERED: [Row<'static>; 24] = [
    // A rest parameter, spliced.
    (
        b"(deftype one-of (&rest xs) `(member ,@xs))\n(subtypep '(one-of a b) '(member a))",
        b"2:1 NIL WITNESS B\n",
    ),
    (
        b"(deftype square (&optional type size) `(array ,type (,size ,size)))\n(subtypep '(square bit 3) '(array bit 2))",
        b"2:1 T\n",
    ),
    (
        b"(deftype square (&optional type size) `(array ,type (,size ,size)))\n(subtypep '(array * (* *)) 'square)",
        b"2:1 T\n",
    ),
    // Optional parameters with defaults.
    (
        b"(deftype tag (name &optional (body t)) `(cons (eql ,name) ,body))\n(subtypep '(tag :sale) 'cons)",
        b"2:1 T\n",
    ),
    (
        b"(deftype tag (name &optional (body t)) `(cons (eql ,name) ,body))\n(subtypep '(tag :sale (or list (eql 7))) '(tag :sale list))",
        b"2:1 NIL WITNESS (:SALE . 7)\n",
    ),
    (
        b"(deftype a (&optional (x 'integer) (y 5)) `(cons ,x (eql ,y)))\n(subtypep 'a '(cons integer (eql 5)))",
        b"2:1 T\n",
    ),
    (
        b"(deftype a (&optional (x 'integer) (y 5)) `(cons ,x (eql ,y)))\n(subtypep '(a null) '(cons null (eql 5)))",
        b"2:1 T\n",
    ),
    (
        b"(deftype a (&optional (x 'integer) (y 5)) `(cons ,x (eql ,y)))\n(subtypep '(a (eql 1) 7) nil)",
        b"2:1 NIL WITNESS (1 . 7)\n",
    ),
    (
        b"(deftype a (&optional x) `(cons ,x))\n(subtypep 'cons 'a)",
        b"2:1 T\n",
    ),
    // The rest parameter as a list, behind a dot, and empty.
    (
        b"(deftype a (&rest ys) `(array t ,ys))\n(subtypep '(a 2 3) '(array t (2 3)))",
        b"2:1 T\n",
    ),
    (
        b"(deftype a (&rest ys) `(array t ,ys))\n(subtypep '(array t ()) 'a)",
        b"2:1 T\n",
    ),
    (
        b"(deftype a (&body ys) `(cons . ,ys))\n(subtypep '(a integer null) '(cons integer null))",
        b"2:1 T\n",
    ),
    (
        b"(deftype a (&rest ys) `(member (,@ys)))\n(subtypep 'a 'null)",
        b"2:1 T\n",
    ),
    (
        b"(deftype a (x &rest ys) `(or ,x (member ,@ys)))\n(subtypep '(a null 1 2) '(or null (integer 1 2)))",
        b"2:1 T\n",
    ),
    // Bodies.
    (
        b"(deftype a () \"text\" (declare (x)) 'bit)\n(subtypep 'a '(integer 0 1))",
        b"2:1 T\n",
    ),
    (
        b"(deftype a () (quote bit))(deftype b () t)(deftype c () nil)\n(subtypep 'c 'a)\n(subtypep 'a 'b)",
        b"2:1 T\n3:1 T\n",
    ),
    // Names of objects are no uses.
    (
        b"(deftype a () 'integer)\n(subtypep '(member a) 'symbol)",
        b"2:1 T\n",
    ),
    (
        b"(deftype a () '(member a b))\n(subtypep 'a '(member b a))",
        b"2:1 T\n",
    ),
    (
        b"(deftype a () '(eql a))\n(subtypep '(eql a) 'a)",
        b"2:1 T\n",
    ),
    // A name that comes back through an argument.
    (
        b"(deftype a (x) `(or ,x))\n(subtypep '(a (a null)) 'null)",
        b"2:1 T\n",
    ),
    // Where definitions may stand: anywhere in the file, in PROGN and in EVAL-WHEN.
    (b"(subtypep 'a 'integer)\n(deftype a () 'bit)", b"1:1 T\n"),
    (
        b"(progn (deftype a () 't))(eval-when (:execute) (deftype b () nil))\n(subtypep 'b 'a)",
        b"2:1 T\n",
    ),
    // A definition of a built-in name is passed over.
    (
        b"(deftype integer () 'symbol)\n(subtypep 'integer 'rational)",
        b"2:1 T\n",
    ),
    // A quote in a type is the list of QUOTE and the datum.
    (
        b"(deftype quote (x) `(eql ,x))\n(subtypep '(or 'a) '(member a))",
        b"2:1 T\n",
    ),
];

/// Texts whose query is refused.
const REFUSED: [Row<'static>; 47] = [
    // Names that lead back to themselves.
    (
        b"(deftype l (x) `(or null (cons ,x (l ,x))))\n(subtypep '(l t) t)",
        b"2:1 REFUSED RECURSIVE-TYPE 2:12\n",
    ),
    (
        b"(deftype a () 'b)(deftype b () 'a)\n(subtypep 'a t)",
        b"2:1 REFUSED RECURSIVE-TYPE 2:12\n",
    ),
    (
        b"(deftype a () '(not a))(deftype b () '(or a))\n(subtypep 'b t)",
        b"2:1 REFUSED RECURSIVE-TYPE 1:43\n",
    ),
    // An expansion that comes back without end.
    (
        b"(deftype ap (f) `(,f ,f))\n(subtypep '(ap ap) t)",
        b"2:1 REFUSED TOO-DEEP 1:18\n",
    ),
    // Other statuses.
    (
        b"(deftype a () t)(deftype a () nil)(subtypep 'a t)",
        b"1:35 REFUSED NAME-TWICE 1:46\n",
    ),
    (
        b"(defclass a () ())(deftype a () t)\n(subtypep 'a t)",
        b"2:1 REFUSED NAME-TWICE 2:12\n",
    ),
    (
        b"(defstruct a)(deftype a () t)\n(subtypep 'a t)",
        b"2:1 REFUSED NAME-TWICE 2:12\n",
    ),
    (
        b"(defclass a () ())\n(subtypep 'a t)",
        b"2:1 REFUSED CLASS-TYPE 2:12\n",
    ),
    (
        b"(define-condition a () ())\n(subtypep '(a) t)",
        b"2:1 REFUSED CLASS-TYPE 2:12\n",
    ),
    (
        b"(deftype (a) () t)\n(subtypep 'a t)",
        b"2:1 REFUSED UNKNOWN-TYPE 2:12\n",
    ),
    (
        b"(let () (deftype a () t))\n(subtypep 'a t)",
        b"2:1 REFUSED UNKNOWN-TYPE 2:12\n",
    ),
    // A wrong count of arguments, at the use, also inside an expansion.
    (
        b"(deftype a (x) `(or ,x))\n(subtypep 'a t)",
        b"2:1 REFUSED ARGUMENT-COUNT 2:12\n",
    ),
    (
        b"(deftype a (x) `(or ,x))\n(subtypep '(or integer (a 1 2)) t)",
        b"2:1 REFUSED ARGUMENT-COUNT 2:24\n",
    ),
    (
        b"(deftype a (x) `(or ,x))\n(deftype b () '(cons (a)))\n(subtypep 'b t)",
        b"3:1 REFUSED ARGUMENT-COUNT 2:22\n",
    ),
    (
        b"(deftype a (x &optional y) `(cons ,x ,y))\n(subtypep '(a t t t) t)",
        b"2:1 REFUSED ARGUMENT-COUNT 2:12\n",
    ),
    // A refusal in an argument has its place, and one in the body that of the body.
    (
        b"(deftype a (x) `(or ,x))\n(subtypep '(a b) t)",
        b"2:1 REFUSED UNKNOWN-TYPE 2:15\n",
    ),
    (
        b"(deftype a () '(or integer b))\n(subtypep 'a t)",
        b"2:1 REFUSED UNKNOWN-TYPE 1:28\n",
    ),
    // Lambda lists that are none.
    (
        b"(deftype a (x x) 't)\n(subtypep 'a t)",
        b"2:1 REFUSED BAD-DEFINITION 2:12\n",
    ),
    (
        b"(deftype a (&key x) 't)\n(subtypep 'a t)",
        b"2:1 REFUSED BAD-DEFINITION 2:12\n",
    ),
    (
        b"(deftype a (x &aux y) 't)\n(subtypep 'a t)",
        b"2:1 REFUSED BAD-DEFINITION 2:12\n",
    ),
    (
        b"(deftype a (&rest) 't)\n(subtypep 'a t)",
        b"2:1 REFUSED BAD-DEFINITION 2:12\n",
    ),
    (
        b"(deftype a (&rest x y) 't)\n(subtypep 'a t)",
        b"2:1 REFUSED BAD-DEFINITION 2:12\n",
    ),
    (
        b"(deftype a (&optional (x y)) 't)\n(subtypep 'a t)",
        b"2:1 REFUSED BAD-DEFINITION 2:12\n",
    ),
    (
        b"(deftype a (&optional (x \"b\")) 't)\n(subtypep 'a t)",
        b"2:1 REFUSED BAD-DEFINITION 2:12\n",
    ),
    (
        b"(deftype a (&optional (x 1.5)) 't)\n(subtypep 'a t)",
        b"2:1 REFUSED BAD-DEFINITION 2:12\n",
    ),
    (
        b"(deftype a (&optional (x 1 2)) 't)\n(subtypep 'a t)",
        b"2:1 REFUSED BAD-DEFINITION 2:12\n",
    ),
    (
        b"(deftype a (1) 't)\n(subtypep 'a t)",
        b"2:1 REFUSED BAD-DEFINITION 2:12\n",
    ),
    (
        b"(deftype a ((x)) 't)\n(subtypep 'a t)",
        b"2:1 REFUSED BAD-DEFINITION 2:12\n",
    ),
    (
        b"(deftype a (&optional x &optional y) 't)\n(subtypep 'a t)",
        b"2:1 REFUSED BAD-DEFINITION 2:12\n",
    ),
    (
        b"(deftype a (&rest x &optional y) 't)\n(subtypep 'a t)",
        b"2:1 REFUSED BAD-DEFINITION 2:12\n",
    ),
    (
        b"(deftype a (x . y) 't)\n(subtypep 'a t)",
        b"2:1 REFUSED BAD-DEFINITION 2:12\n",
    ),
    (
        b"(deftype a x 't)\n(subtypep 'a t)",
        b"2:1 REFUSED BAD-DEFINITION 2:12\n",
    ),
    (
        b"(deftype a #(x) 't)\n(subtypep 'a t)",
        b"2:1 REFUSED BAD-DEFINITION 2:12\n",
    ),
    // Bodies that are none.
    (
        b"(deftype a (x &rest z))\n(subtypep 'a t)",
        b"2:1 REFUSED CODE-BODY 2:12\n",
    ),
    (
        b"(deftype a (x &rest z) 't 't)\n(subtypep 'a t)",
        b"2:1 REFUSED CODE-BODY 2:12\n",
    ),
    (
        b"(deftype a (x &rest z) 5)\n(subtypep 'a t)",
        b"2:1 REFUSED CODE-BODY 2:12\n",
    ),
    (
        b"(deftype a (x &rest z) b)\n(subtypep 'a t)",
        b"2:1 REFUSED CODE-BODY 2:12\n",
    ),
    (
        b"(deftype a (x &rest z) (list 'or 'b))\n(subtypep 'a t)",
        b"2:1 REFUSED CODE-BODY 2:12\n",
    ),
    (
        b"(deftype a (x &rest z) \"text\")\n(subtypep 'a t)",
        b"2:1 REFUSED CODE-BODY 2:12\n",
    ),
    (
        b"(deftype a (x &rest z) '(or ,x))\n(subtypep 'a t)",
        b"2:1 REFUSED CODE-BODY 2:12\n",
    ),
    (
        b"(deftype a (x &rest z) `(or ,y))\n(subtypep 'a t)",
        b"2:1 REFUSED CODE-BODY 2:12\n",
    ),
    (
        b"(deftype a (x &rest z) `(or ,@x))\n(subtypep 'a t)",
        b"2:1 REFUSED CODE-BODY 2:12\n",
    ),
    (
        b"(deftype a (x &rest z) `#(,z))\n(subtypep 'a t)",
        b"2:1 REFUSED CODE-BODY 2:12\n",
    ),
    (
        b"(deftype a (x &rest z) `(or . ,x))\n(subtypep 'a t)",
        b"2:1 REFUSED CODE-BODY 2:12\n",
    ),
    (
        b"(deftype a (x &rest z) `(or `(and ,x)))\n(subtypep 'a t)",
        b"2:1 REFUSED CODE-BODY 2:12\n",
    ),
    (
        b"(deftype a (x &rest z) `(or (,@x . y)))\n(subtypep 'a t)",
        b"2:1 REFUSED CODE-BODY 2:12\n",
    ),
    // A body comes before a lambda list.
    (
        b"(deftype a (x x) 5)\n(subtypep 'a t)",
        b"2:1 REFUSED CODE-BODY 2:12\n",
    ),
];

#[test]
fn types_are_expanded(rt: HostRuntime) -> Result<(), Fail> {
    assert_eq!(rt; first_wrong(rt.alloc(), &ANSWERED, Status::Clean)?, None);
    Ok(())
}

#[test]
fn uses_are_refused_with_kind_and_place(rt: HostRuntime) -> Result<(), Fail> {
    assert_eq!(rt; first_wrong(rt.alloc(), &REFUSED, Status::Found)?, None);
    Ok(())
}

/// 256 definitions, each naming the one before, and a query of one of them.
fn chain(alloc: Global, asked: u32) -> Result<String, AllocError> {
    let mut text = String::new(alloc);
    text.push_str("(deftype a0 () t)\n")?;
    for i in 1..256_u32 {
        let before = i - 1;
        write!(text, "(deftype a{i} () 'a{before})\n")?;
    }
    write!(text, "(subtypep 'a{asked} 'a0)\n")?;
    Ok(text)
}

/// Which of the chain is asked about, and the report.
const CHAINED: [(u32, &'static [u8]); 2] = [
    (254, b"257:1 T\n"),
    (255, b"257:1 REFUSED TOO-DEEP 1:16\n"),
];

#[test]
fn a_chain_of_uses_is_as_deep_as_it_is_long(rt: HostRuntime) -> Result<(), Fail> {
    for (asked, report) in CHAINED {
        let text = chain(rt.alloc(), asked)?;
        let got = outcome_of(rt.alloc(), &Case::ask(text.as_bytes()))?;
        assert_eq!(rt; got.bytes.as_slice(), report);
    }
    Ok(())
}

/// 16 definitions, each but the first naming the one before twice, and a query of one of them.
fn doubling(alloc: Global, asked: u32) -> Result<String, AllocError> {
    let mut text = String::new(alloc);
    text.push_str("(deftype d0 () 'bit)\n")?;
    for i in 1..16_u32 {
        let before = i - 1;
        write!(text, "(deftype d{i} () '(or d{before} d{before}))\n")?;
    }
    write!(text, "(subtypep 'd{asked} 'bit)\n")?;
    Ok(text)
}

/// Which of the doubling definitions is asked about, and the report.
const DOUBLED: [(u32, &'static [u8]); 2] = [
    (8, b"17:1 T\n"),
    (15, b"17:1 REFUSED TOO-MANY-NODES 3:24\n"),
];

#[test]
fn expansions_take_room(rt: HostRuntime) -> Result<(), Fail> {
    for (asked, report) in DOUBLED {
        let text = doubling(rt.alloc(), asked)?;
        let got = outcome_of(rt.alloc(), &Case::ask(text.as_bytes()))?;
        assert_eq!(rt; got.bytes.as_slice(), report);
    }
    Ok(())
}
