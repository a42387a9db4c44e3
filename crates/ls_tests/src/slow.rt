//! The answers of a session beside those of a plain slow program: a type is included in another where each of some
//! objects that belongs to it belongs to the other. The objects tell apart all of the types that differ.

ghost use Rattle.std.specs.Prelude.{◌≡◌, ◌<◌, []};
ghost use Rattle.ls_cells.specs.Kept.{structures_in};

use crate::asked::{Asked, told};
use crate::marks::marked;
use crate::simple::is_simple;
use crate::spec::object_of;
use ls_decide::{Answer, Session};
use ls_memo::Steps;
use ls_object::{Items, Object, Parents};
use ls_spec::{Spec, belongs};
use ls_structs::Tree;
use std::alloc::Global;
use std::marker::Brand;
use std::sync::ledger::{Blank, Ledger};

/// The objects that specifiers stand for.
fn objects_of(alloc: Global, list: &[Spec]) -> Option<Items<Object>> {
    let mut objects = Items::new(alloc);
    for spec in list {
        objects.push(object_of(alloc, spec)?).ok()?;
    }
    Some(objects)
}

/// Whether the object belongs to the first type alone; None where one of them asks about more than one object.
fn is_apart(a: &Spec, b: &Spec, object: &Object) -> Option<bool> {
    if !(is_simple(a) && is_simple(b)) {
        return None;
    }
    Some(belongs(a, object) && !belongs(b, object))
}

/// Whether it surely belongs to the first, and surely not to the second: whatever the predicates mean.
fn is_surely_apart(alloc: Global, a: &Spec, b: &Spec, object: &Object) -> Option<bool> {
    let low = a.low(alloc).ok()?;
    let high = b.high(alloc).ok()?;
    is_apart(&low, &high, object)
}

/// Whether one of the objects belongs to the first type alone.
fn some_apart(a: &Spec, b: &Spec, objects: &[Object]) -> Option<bool> {
    for object in objects {
        if is_apart(a, b, object)? {
            return Some(true);
        }
    }
    Some(false)
}

/// Whether one of them surely does.
fn some_surely_apart(alloc: Global, a: &Spec, b: &Spec, objects: &[Object]) -> Option<bool> {
    for object in objects {
        if is_surely_apart(alloc, a, b, object)? {
            return Some(true);
        }
    }
    Some(false)
}

/// Whether the object with these marks belongs to the first type alone.
fn is_apart_by(alloc: Global, a: &Spec, b: &Spec, object: &Object, choice: u32) -> Option<bool> {
    let mut rest = choice;
    let marked = marked(alloc, object, &mut rest)?;
    is_apart(a, b, &marked)
}

/// The choices of marks of five nodes.
const CHOICES: u32 = 1024;

/// Whether it does with some marks.
fn is_apart_with_marks(alloc: Global, a: &Spec, b: &Spec, object: &Object) -> Option<bool> {
    for choice in 0..CHOICES {
        if is_apart_by(alloc, a, b, object, choice)? {
            return Some(true);
        }
    }
    Some(false)
}

/// The slow answer: `-` where an object is surely apart, `?` where one is apart, and else `T`.
fn slow_answer(alloc: Global, a: &Spec, b: &Spec, objects: &[Object]) -> Option<&'static str> {
    if some_surely_apart(alloc, a, b, objects)? {
        return Some("-");
    }
    Some(if some_apart(a, b, objects)? { "?" } else { "T" })
}

/// The answer in the same way; a witness has to be as it says, and `!` stands for one that is not.
fn shown(alloc: Global, a: &Spec, b: &Spec, answer: &Answer) -> Option<&'static str> {
    let (right, text) = match answer {
        Answer::Yes => (true, "T"),
        Answer::No(object) => (is_surely_apart(alloc, a, b, object)?, "-"),
        Answer::Unsure(object) => (is_apart_with_marks(alloc, a, b, object)?, "?"),
        Answer::TooLarge => (false, "!"),
    };
    Some(if right { text } else { "!" })
}

/// Asks about two types, and writes the answer, or `!` where it is not the slow one.
fn ask<L: Ledger>(
    alloc: Global,
    session: &mut Session,
    steps: &mut Steps<L>,
    a: &Spec,
    b: &Spec,
    objects: &[Object],
    out: &mut String,
) -> Option<()>
    requires { structures_in session.old ≡ [] }
    ensures { structures_in session.new ≡ [] }
{
    let parents = Parents::new(alloc);
    if !(a.fits(&parents) && b.fits(&parents)) {
        return None;
    }
    let answer = session.subtypep(a, b, 100_000, steps).ok()?;
    let found = shown(alloc, a, b, &answer)?;
    let want = slow_answer(alloc, a, b, objects)?;
    out.push_str(if found == want { found } else { "!" }).ok()
}

/// Asks one session about a type and each of a list.
fn ask_all<L: Ledger>(
    alloc: Global,
    session: &mut Session,
    steps: &mut Steps<L>,
    a: &Spec,
    types: &[Spec],
    objects: &[Object],
    out: &mut String,
) -> Option<()>
    requires { structures_in session.old ≡ [] }
    ensures { structures_in session.new ≡ [] }
{
    for b in types {
        ask(alloc, session, steps, a, b, objects, out)?;
    }
    Some(())
}

/// Asks about each two of the types.
fn ask_each<L: Ledger>(
    alloc: Global,
    session: &mut Session,
    steps: &mut Steps<L>,
    types: &[Spec],
    objects: &[Object],
    out: &mut String,
) -> Option<()>
    requires { structures_in session.old ≡ [] }
    ensures { structures_in session.new ≡ [] }
{
    for a in types {
        ask_all(alloc, session, steps, a, types, objects, out)?;
        out.push_str(" ").ok()?;
    }
    Some(())
}

/// Asks one session about each two of the types.
pub(crate) fn ask_pairs<L: Ledger>(
    alloc: Global,
    types: &[Spec],
    objects: &[Object],
    out: &mut String,
    blank: Blank,
) -> Option<()>
    requires name { blank.name ≡ L.name }
    requires parts { blank.parts ≡ L.parts }
    requires some { 0 < L.parts }
{
    let mut session = Session::new(alloc, Tree::new(alloc)).ok()?;
    let mut steps = Steps::<L>::new(blank);
    ask_each(alloc, &mut session, &mut steps, types, objects, out)
}

/// So many types come first, and then what stands for objects.
const TYPE_COUNT: usize = 23;

/// Asks about each two of the types of a list, beside the slow program over its objects.
pub(crate) fn push_slow(alloc: Global, out: &mut String, list: &[Spec]) -> Option<()> {
    let types = list.get(..TYPE_COUNT)?;
    let objects = objects_of(alloc, list.get(TYPE_COUNT..)?)?;
    ask_pairs::<Brand>(alloc, types, objects.as_slice(), out, Blank::new(1))
}

/// The types, and the objects: numbers, symbols, characters, a float and a stream, and conses.
const TYPES_AND_OBJECTS: &str =
    "t nil integer bit (integer 2 (10)) rational ratio (rational (0) 1) \
    symbol keyword boolean (member a :a 1) character base-char (and character (not standard-char)) \
    (or integer symbol) (not (or symbol cons)) list (cons bit t) (cons t null) \
    (cons (or bit symbol) (not keyword)) (and cons (not (cons bit t))) (and (cons t bit) (cons bit)) \
    (eql 0) (eql 1) (eql 2) (eql 9) (eql 10) (eql -1) (eql 1/2) (eql 5/2) (eql -1/2) \
    null (eql t) (eql a) (eql b) (eql :a) (eql :b) \
    (eql #\\A) (eql #\\Newline) (eql #\\Rubout) (eql #\\U+80) single-float stream \
    (cons (eql 0) null) (cons (eql 0) (eql :a)) (cons (eql 0) (eql 1)) (cons (eql 0) (eql #\\A)) \
    (cons (eql a) null) (cons (eql a) (eql :a)) (cons (eql a) (eql 1)) (cons (eql a) (eql #\\A)) \
    (cons (eql 2) null) (cons (eql 2) (eql :a)) (cons (eql 2) (eql 1)) (cons (eql 2) (eql #\\A))";

/// How often a byte stands in a text.
pub(crate) fn count(text: &str, wanted: u8) -> usize {
    let mut found = 0;
    for byte in text.as_bytes() {
        if *byte == wanted && found < 100_000 {
            found += 1;
        }
    }
    found
}

/// Of the 529 pairs 100 are included.
#[test]
fn answers_are_those_of_a_slow_program(rt: HostRuntime) {
    let answers = told(rt.alloc(), Asked::Slow, TYPES_AND_OBJECTS);
    assert!(rt; answers.is_some());
    if let Some(answers) = answers {
        assert_eq!(rt; count(&answers, b'T'), 100);
        assert_eq!(rt; count(&answers, b'-'), 429);
        assert_eq!(rt; count(&answers, b'!'), 0);
    }
}
