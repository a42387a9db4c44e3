// The answers of a session about types with predicates (SATISFIES) beside those of the plain slow program, whose objects
// have every choice of two predicates that are true of their nodes.

use crate::asked::{Asked, told};
use crate::literal::object_in;
use crate::marks::marked;
use crate::slow::{ask_pairs, count};
use ls_object::{Items, Object};
use ls_spec::Spec;
use std::alloc::Global;
use std::marker::Brand;
use std::sync::ledger::Blank;

/// Adds the object with each of so many choices of marks.
fn push_marked(
    alloc: Global,
    objects: &mut Items<Object>,
    object: &Object,
    choices: u32,
) -> Option<()> {
    for choice in 0..choices {
        let mut rest = choice;
        objects.push(marked(alloc, object, &mut rest)?).ok()?;
    }
    Some(())
}

/// Texts of objects, and how many choices of marks they have: four for each node.
const OBJECTS: [(&str, u32); 5] = [
    ("5", 4),
    ("'a", 4),
    ("nil", 4),
    ("'(5 . a)", 64),
    ("#*01", 4),
];

/// These objects with each choice of marks.
fn marked_objects(alloc: Global) -> Option<Items<Object>> {
    let mut objects = Items::new(alloc);
    for (text, choices) in OBJECTS {
        let object = object_in(alloc, text)?;
        push_marked(alloc, &mut objects, &object, choices)?;
    }
    Some(objects)
}

/// Asks about each two of the types, beside the slow program over these objects.
pub(crate) fn push_predicates(alloc: Global, out: &mut String, types: &[Spec]) -> Option<()> {
    let objects = marked_objects(alloc)?;
    ask_pairs::<Brand>(alloc, types, objects.as_slice(), out, Blank::new(1))
}

/// Types that these objects tell apart: conses ask of their parts for nothing but predicates.
const TYPES: &str =
    "t nil (satisfies p) (not (satisfies p)) (satisfies q) (and (satisfies p) (satisfies q)) \
    (or (satisfies p) (satisfies q)) integer (and integer (satisfies p)) (or integer (satisfies q)) \
    (and symbol (not (satisfies p))) list (or (satisfies p) (not (satisfies p))) \
    (or (and (satisfies p) (not symbol)) (and symbol (not (satisfies p)))) array (and array (satisfies q)) \
    cons (cons (satisfies p) t) (cons t (not (satisfies q))) (cons (satisfies p) (satisfies q)) \
    (and cons (satisfies p) (not (cons t (satisfies q))))";

/// Of the 441 pairs 112 are included, 59 surely are not, and of 270 the predicates decide.
#[test]
fn answers_with_predicates_are_those_of_a_slow_program(rt: HostRuntime) {
    let answers = told(rt.alloc(), Asked::Predicates, TYPES);
    assert!(rt; answers.is_some());
    if let Some(answers) = answers {
        assert_eq!(rt; count(&answers, b'T'), 112);
        assert_eq!(rt; count(&answers, b'-'), 59);
        assert_eq!(rt; count(&answers, b'?'), 270);
        assert_eq!(rt; count(&answers, b'!'), 0);
    }
}
