// The atoms, cars and cdrs of lists of specifiers by number.

use crate::asked::{Asked, is_told};
use ls_intern::Table;
use ls_sides::{Ids, branches, cons_sides, distinct_of, element, sides_of};
use ls_spec::Spec;
use std::alloc::Global;

/// Appends numbers, each with a space behind.
fn push_ids(out: &mut String, numbers: &[usize]) -> Option<()> {
    for number in numbers {
        write!(out, "{number} ").ok()?;
    }
    out.push_str("| ").ok()
}

/// Writes the numbers of a specifier, of its atoms, of their cars and of their cdrs.
fn push_sides_of(alloc: Global, out: &mut String, spec: &Spec) -> Option<()> {
    let mut table = Table::new(alloc);
    let id = table.add(spec).ok()?;
    let list = distinct_of(alloc, &table, id, &[id]).ok()?;
    let sides = sides_of(alloc, &table, list.as_slice()).ok()?;
    push_ids(out, list.as_slice())?;
    push_ids(out, sides.atoms.as_slice())?;
    push_ids(out, sides.cars.as_slice())?;
    push_ids(out, sides.cdrs.as_slice())
}

/// The same of the first of a list.
pub(crate) fn push_sides(alloc: Global, out: &mut String, list: &[Spec]) -> Option<()> {
    push_sides_of(alloc, out, list.first()?)
}

/// Writes what the level of a specifier is made of: its branches, its car and its cdr, and its elements.
fn push_level(alloc: Global, out: &mut String, spec: &Spec) -> Option<()> {
    let mut table = Table::new(alloc);
    let id = table.add(spec).ok()?;
    let node = table.node(id);
    match branches(node) {
        None => out.push_str("atom ").ok()?,
        Some(parts) => push_ids(out, parts)?,
    }
    if let Some((car, cdr)) = cons_sides(node) {
        write!(out, "cons {car} {cdr} ").ok()?;
    }
    match element(node) {
        None => Some(()),
        Some(part) => write!(out, "of {part} ").ok(),
    }
}

/// The same of each of a list.
pub(crate) fn push_levels(alloc: Global, out: &mut String, list: &[Spec]) -> Option<()> {
    for spec in list {
        push_level(alloc, out, spec)?;
    }
    Some(())
}

/// Texts; the number of their specifier, and those of its atoms, cars and cdrs.
const SIDES: [(&str, &str); 5] = [
    ("integer", "0 | 0 | | | "),
    ("(or t nil)", "2 | | | | "),
    ("(cons bit t)", "2 | 2 | 0 | 1 | "),
    (
        "(or (cons integer symbol) (and (cons keyword integer) bit) (not (cons integer symbol)))",
        "8 | 2 4 5 | 0 3 | 1 0 | ",
    ),
    ("(cons (cons bit t) (cons bit t))", "3 | 3 | 2 | 2 | "),
];

/// Texts and their levels.
const LEVELS: [(&str, &str); 3] = [
    ("t nil (or)", "| | | "),
    ("(and bit keyword bit) (not bit)", "0 1 0 | 0 | "),
    (
        "(cons t bit) (eql a) hash-table bit-vector vector string structure-object (satisfies oddp)",
        "atom cons 0 1 atom atom atom of 0 atom atom atom atom ",
    ),
];

/// The numbers below the count, each of them pushed and one of them again.
fn pushed(alloc: Global, count: usize) -> Option<Ids> {
    let mut ids = Ids::new(alloc);
    for n in 0..count {
        ids.push(n).ok()?;
        ids.push(n / 2).ok()?;
    }
    Some(ids)
}

/// Whether each of so many numbers has its place, and the next one has none.
fn have_places(alloc: Global, count: usize) -> Option<bool> {
    let ids = pushed(alloc, count)?;
    for n in 0..count {
        if ids.place(n) != Some(n) {
            return Some(false);
        }
    }
    Some(ids.as_slice().len() == count && ids.place(count).is_none())
}

#[test]
fn lists_have_atoms_cars_and_cdrs(rt: HostRuntime) {
    for (text, want) in SIDES {
        assert!(rt;
            is_told(rt.alloc(), Asked::Sides, text, want),
            "at {text:?}"
        );
    }
    for (text, want) in LEVELS {
        assert!(rt;
            is_told(rt.alloc(), Asked::Levels, text, want),
            "at {text:?}"
        );
    }
    assert_eq!(rt; have_places(rt.alloc(), 10_000), Some(true));
}
