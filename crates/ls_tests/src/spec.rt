// Which objects belong to specifiers, and the atoms of these. What is expected is worked out by hand from the standard.

use crate::asked::{Asked, is_told};
use crate::print::write_spec;
use crate::simple::is_simple;
use ls_object::{Boxed, Items, Object, Shape};
use ls_spec::{Point, Spec, atoms, belongs, belongs_unmarked};
use std::alloc::Global;

/// The object of a point.
fn shape_of_point(point: &Point) -> Option<Shape> {
    match point {
        Point::Number(number) => Some(Shape::Number(*number)),
        Point::Char(c) => Some(Shape::Char(*c)),
        Point::Sym(symbol) => Some(Shape::Sym(symbol.copy().ok()?)),
    }
}

/// The object of a specifier that is made of EQL, CONS and kinds.
#[cycle(object)]
pub(crate) fn object_of(alloc: Global, spec: &Spec) -> Option<Object> {
    let shape = match spec {
        Spec::Eql(point) => shape_of_point(point)?,
        Spec::Kind(kind) => Shape::Opaque(*kind),
        Spec::ConsOf(car, cdr) => {
            let car = boxed_object_of(alloc, car.get())?;
            let cdr = boxed_object_of(alloc, cdr.get())?;
            Shape::Pair(car, cdr)
        }
        _ => return None,
    };
    Some(Object {
        marks: Items::new(alloc),
        shape,
    })
}

/// Such an object in a box.
#[cycle(object)]
fn boxed_object_of(alloc: Global, spec: &Spec) -> Option<Boxed<Object>> {
    Boxed::new(alloc, object_of(alloc, spec)?).ok()
}

/// Whether the object of the one specifier belongs to the other; None where the two calls that decide it differ.
fn is_member(alloc: Global, spec: &Spec, of: &Spec) -> Option<bool> {
    let object = object_of(alloc, of)?;
    let found = belongs_unmarked(spec, &object.shape);
    if is_simple(spec) && belongs(spec, &object) != found {
        return None;
    }
    Some(found)
}

/// Writes for each object behind the first specifier whether it belongs to that.
pub(crate) fn push_members(alloc: Global, out: &mut String, list: &[Spec]) -> Option<()> {
    let [spec, rest @ ..] = list else {
        return None;
    };
    for of in rest {
        out.push_str(if is_member(alloc, spec, of)? {
            "T"
        } else {
            "-"
        })
        .ok()?;
    }
    Some(())
}

/// Writes the distinct atoms of a list.
pub(crate) fn push_atoms(alloc: Global, out: &mut String, list: &Items<Spec>) -> Option<()> {
    let found = atoms(alloc, list).ok()?;
    for atom in found.as_slice() {
        write_spec(out, atom).ok()?;
        out.push_str(" ").ok()?;
    }
    Some(())
}

/// Texts of a specifier and of objects, and which of these belong to it.
const MEMBERS: [(&str, &str); 22] = [
    (
        "(integer 0 (10)) (eql 0) (eql 9) (eql 4/2) (eql 10) (eql -1) (eql 1/2) (eql a)",
        "TTT----",
    ),
    (
        "(rational (0)) (eql 9) (eql 1/2) (eql 0) (eql -1) (eql #\\a)",
        "TT---",
    ),
    (
        "base-char (eql #\\A) (eql #\\Newline) (eql #\\Tab) (eql #\\Rubout) (eql #\\U+80) (eql 65)",
        "TTTT--",
    ),
    (
        "standard-char (eql #\\A) (eql #\\Newline) (eql #\\Tab) (eql #\\Rubout) (eql #\\U+80)",
        "TT---",
    ),
    ("character (eql #\\U+10FFFF) (eql a)", "T-"),
    ("(eql #\\A) (eql #\\A) (eql #\\a)", "T-"),
    (
        "symbol (eql car) (eql :car) null (eql p::car) (eql 1)",
        "TTTT-",
    ),
    ("keyword (eql :car) (eql car) null", "T--"),
    (
        "(member a nil 2) (eql a) (eql ()) (eql 4/2) (eql b) (eql p::a) (eql 1/2)",
        "TTT---",
    ),
    (
        "(cons (eql 1) (eql 2)) (cons (eql 1) (eql 2)) (cons (eql 1) (eql 1)) (cons (eql 2) (eql 2)) null",
        "T---",
    ),
    ("list null (cons (eql 1) null) (eql 1)", "TT-"),
    ("atom null single-float (cons (eql 1) null)", "TT-"),
    (
        "(not (or integer (cons t symbol))) (eql 1/2) (cons (eql 1) (eql 2)) (eql 1) (cons (eql 1) null)",
        "TT--",
    ),
    (
        "(and integer (not (eql 3))) (eql 2) (eql 3) (eql 1/2)",
        "T--",
    ),
    ("t (eql 1) null single-float (cons null null)", "TTTT"),
    ("nil (eql 1) null single-float (cons null null)", "----"),
    ("float single-float double-float (eql 1)", "TT-"),
    ("pathname logical-pathname stream", "T-"),
    ("structure-object random-state hash-table (eql 1)", "---"),
    ("array (eql 1) null (cons (eql 1) null)", "---"),
    ("simple-string (eql a) (eql #\\a)", "--"),
    ("(satisfies oddp) (eql 1)", "-"),
];

/// Lists of specifiers and their atoms.
const ATOMS: [(&str, &str); 4] = [
    ("symbol keyword symbol", "Any-symbols Keyword-symbols "),
    (
        "(or integer (not keyword)) (cons bit t) integer",
        "integer:*..* Keyword-symbols (cons integer:0..1 all) ",
    ),
    ("t nil (and)", ""),
    ("(not (not (eql 1/2))) (eql 2/4)", "1/2 "),
];

#[test]
fn objects_belong_and_atoms_are_found(rt: HostRuntime) {
    for (text, want) in MEMBERS {
        assert!(rt;
            is_told(rt.alloc(), Asked::Members, text, want),
            "at {text:?}"
        );
    }
    for (text, want) in ATOMS {
        assert!(rt;
            is_told(rt.alloc(), Asked::Atoms, text, want),
            "at {text:?}"
        );
    }
}
