// Texts about structure types. What is expected is worked out by hand.

use super::{Row, first_wrong};
use crate::status::Status;
use std::test::Fail;

/// Texts whose queries are answered; where there is a witness, it is the only one.
const ANSWERED: [Row<'static>; 12] = [
    // A type is more than those that include it, and these are disjoint.
    (
        b"(defstruct p)(defstruct (a (:include p)))(defstruct (b (:include p)))\n(subtypep 'p '(or a b))\n(subtypep '(and a b) nil)",
        b"2:1 NIL WITNESS #<STRUCTURE P>\n3:1 T\n",
    ),
    // What includes is included, over several steps.
    (
        b"(defstruct p)(defstruct (a (:include p)))(defstruct (b (:include a)))\n(subtypep 'b 'p)\n(subtypep 'p 'a)\n(subtypep '(and p (not a)) 'b)",
        b"2:1 T\n3:1 NIL WITNESS #<STRUCTURE P>\n4:1 NIL WITNESS #<STRUCTURE P>\n",
    ),
    (
        b"(defstruct p)(defstruct q)\n(subtypep 'p 'q)\n(subtypep '(and p q) nil)",
        b"2:1 NIL WITNESS #<STRUCTURE P>\n3:1 T\n",
    ),
    // STRUCTURE-OBJECT holds also structures of types that the file doesn't name.
    (
        b"(defstruct p)(defstruct (a (:include p)))\n(subtypep 'a 'structure-object)\n(subtypep 'structure-object 'p)\n(subtypep 'a '(or number cons))",
        b"2:1 T\n3:1 NIL WITNESS #<OTHER-STRUCTURE>\n4:1 NIL WITNESS #<STRUCTURE A>\n",
    ),
    // Definitions stand anywhere in the file, in PROGN and in EVAL-WHEN.
    (
        b"(subtypep 'a 'p)\n(defstruct p)(defstruct (a (:include p)))",
        b"1:1 T\n",
    ),
    (
        b"(progn (defstruct p))(eval-when (:execute) (defstruct (a (:include p))))\n(subtypep 'a 'p)",
        b"2:1 T\n",
    ),
    // Slots, documentation strings and the other options say nothing of the type.
    (
        b"(defstruct p \"text\" x (y 1))(defstruct (a :copier (:conc-name nil) (:constructor make (x)) (:predicate) (:print-function f) (:print-object f) (:include p (x 2))) \"text\")\n(subtypep 'a 'p)",
        b"2:1 T\n",
    ),
    (
        b"(defstruct (a :named (:initial-offset 2)))\n(subtypep 'a 'structure-object)",
        b"2:1 T\n",
    ),
    // A name of another package.
    (
        b"(defstruct my::p)\n(subtypep 'my::p 'symbol)",
        b"2:1 NIL WITNESS #<STRUCTURE MY::P>\n",
    ),
    // In a DEFTYPE, as an element type, and as an object.
    (
        b"(deftype ps () '(or null p))(defstruct p)\n(subtypep 'ps '(or p symbol))",
        b"2:1 T\n",
    ),
    (
        b"(defstruct p)\n(subtypep '(vector p) '(vector (or p bit)))\n(subtypep '(eql p) 'p)\n(subtypep '(cons p) 'cons)",
        b"2:1 T\n3:1 NIL WITNESS P\n4:1 T\n",
    ),
    // A definition of a built-in name is passed over.
    (
        b"(defstruct integer)\n(subtypep 'integer 'rational)",
        b"2:1 T\n",
    ),
];

/// Texts with a query that is refused.
const REFUSED: [Row<'static>; 19] = [
    // A structure type takes no arguments.
    (
        b"(defstruct p)\n(subtypep '(p) t)",
        b"2:1 REFUSED BAD-ARGUMENT 2:12\n",
    ),
    // What is included stands before, and is a structure type.
    (
        b"(defstruct (a (:include q)))\n(subtypep 'a t)",
        b"2:1 REFUSED BAD-DEFINITION 2:12\n",
    ),
    (
        b"(defstruct (a (:include p)))(defstruct p)\n(subtypep '(or p a) t)",
        b"2:1 REFUSED BAD-DEFINITION 2:18\n",
    ),
    (
        b"(defstruct (a (:include a)))\n(subtypep 'a t)",
        b"2:1 REFUSED BAD-DEFINITION 2:12\n",
    ),
    (
        b"(defstruct (a (:include b)))(defstruct (b (:include a)))\n(subtypep 'b t)",
        b"2:1 REFUSED BAD-DEFINITION 2:12\n",
    ),
    (
        b"(defstruct (r (:type list)) x)(defstruct (a (:include r)))\n(subtypep 'a t)",
        b"2:1 REFUSED BAD-DEFINITION 2:12\n",
    ),
    (
        b"(deftype p () t)(defstruct (a (:include p)))\n(subtypep 'a t)",
        b"2:1 REFUSED BAD-DEFINITION 2:12\n",
    ),
    (
        b"(defstruct (a (:include integer)))\n(subtypep 'a t)",
        b"2:1 REFUSED BAD-DEFINITION 2:12\n",
    ),
    // Structures of another representation have no type.
    (
        b"(defstruct (r (:type list)) x)\n(subtypep 'r t)",
        b"2:1 REFUSED UNKNOWN-TYPE 2:12\n",
    ),
    (
        b"(defstruct (r :named (:include q) (:type vector)))\n(subtypep '(r) t)",
        b"2:1 REFUSED UNKNOWN-TYPE 2:12\n",
    ),
    // A name that two forms define is no structure type.
    (
        b"(defstruct p)(defstruct p)(defstruct (a (:include p)))\n(subtypep 'p t)\n(subtypep 'a t)",
        b"2:1 REFUSED NAME-TWICE 2:12\n3:1 REFUSED BAD-DEFINITION 3:12\n",
    ),
    (
        b"(defstruct p)(defclass p () ())(defstruct (a (:include p)))\n(subtypep 'a t)",
        b"2:1 REFUSED BAD-DEFINITION 2:12\n",
    ),
    // Options out of form.
    (
        b"(defstruct (a :size))\n(subtypep 'a t)",
        b"2:1 REFUSED BAD-DEFINITION 2:12\n",
    ),
    (
        b"(defstruct (a (:size 3)))\n(subtypep 'a t)",
        b"2:1 REFUSED BAD-DEFINITION 2:12\n",
    ),
    (
        b"(defstruct (a \"text\"))\n(subtypep 'a t)",
        b"2:1 REFUSED BAD-DEFINITION 2:12\n",
    ),
    (
        b"(defstruct p)(defstruct (a (:include p) (:include p)))\n(subtypep 'a t)",
        b"2:1 REFUSED BAD-DEFINITION 2:12\n",
    ),
    (
        b"(defstruct (a (:include)))\n(subtypep 'a t)",
        b"2:1 REFUSED BAD-DEFINITION 2:12\n",
    ),
    (
        b"(defstruct (a :include))\n(subtypep 'a t)",
        b"2:1 REFUSED BAD-DEFINITION 2:12\n",
    ),
    // Without a name, or not at the top, a form defines nothing.
    (
        b"(defstruct \"a\")(let () (defstruct a))\n(subtypep 'a t)",
        b"2:1 REFUSED UNKNOWN-TYPE 2:12\n",
    ),
];

#[test]
fn structure_types_are_decided(rt: HostRuntime) -> Result<(), Fail> {
    assert_eq!(rt; first_wrong(rt.alloc(), &ANSWERED, Status::Clean)?, None);
    Ok(())
}

#[test]
fn structure_definitions_are_refused(rt: HostRuntime) -> Result<(), Fail> {
    assert_eq!(rt; first_wrong(rt.alloc(), &REFUSED, Status::Found)?, None);
    Ok(())
}
