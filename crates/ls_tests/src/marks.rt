//! Objects with marks.

use ls_object::{Boxed, Items, Object, Shape, Symbol, Text};
use std::alloc::Global;

/// The symbol of that name.
fn named(alloc: Global, name: &str) -> Option<Symbol> {
    let name = Text::of(alloc, name).ok()?;
    Symbol::of_common_lisp(alloc, name).ok()
}

/// The marks that the two lowest bits of a choice stand for, P and Q; these bits are taken away.
fn next_marks(alloc: Global, choice: &mut u32) -> Option<Items<Symbol>> {
    let mut marks = Items::new(alloc);
    if *choice % 2 == 1 {
        marks.push(named(alloc, "P")?).ok()?;
    }
    if *choice / 2 % 2 == 1 {
        marks.push(named(alloc, "Q")?).ok()?;
    }
    *choice /= 4;
    Some(marks)
}

/// The object with the marks of a choice in place of its own: two bits for each node, those of a car before those of
/// the cdr.
#[cycle(marked)]
pub(crate) fn marked(alloc: Global, object: &Object, choice: &mut u32) -> Option<Object> {
    let marks = next_marks(alloc, choice)?;
    let shape = match &object.shape {
        Shape::Pair(car, cdr) => {
            let car = boxed(alloc, car.get(), choice)?;
            let cdr = boxed(alloc, cdr.get(), choice)?;
            Shape::Pair(car, cdr)
        }
        shape => shape.copy(alloc).ok()?,
    };
    Some(Object { marks, shape })
}

/// The same in a box.
#[cycle(marked)]
fn boxed(alloc: Global, object: &Object, choice: &mut u32) -> Option<Boxed<Object>> {
    Boxed::new(alloc, marked(alloc, object, choice)?).ok()
}
