// Specifiers by number: equal ones have one number, parts stand before wholes, and a number gives its specifier back.

use crate::asked::{Asked, is_told};
use crate::print::write_spec;
use ls_intern::Table;
use ls_object::Items;
use ls_spec::{Spec, atoms};
use std::alloc::Global;

/// Writes the numbers of the specifiers in one table, and how many specifiers that has then.
pub(crate) fn push_numbers(alloc: Global, out: &mut String, list: &[Spec]) -> Option<()> {
    let mut table = Table::new(alloc);
    for spec in list {
        let id = table.add(spec).ok()?;
        write!(out, "{id} ").ok()?;
    }
    write!(out, "of {}", table.len()).ok()
}

/// Writes how many distinct specifiers and how many distinct atoms there are.
pub(crate) fn push_counts(alloc: Global, out: &mut String, list: &Items<Spec>) -> Option<()> {
    let mut table = Table::new(alloc);
    for spec in list.as_slice() {
        table.add(spec).ok()?;
    }
    let found = atoms(alloc, list).ok()?;
    write!(out, "{} {}", table.len(), found.len()).ok()
}

/// Writes what a table gives back for a specifier.
fn push_tree(alloc: Global, out: &mut String, spec: &Spec) -> Option<()> {
    let mut table = Table::new(alloc);
    let id = table.add(spec).ok()?;
    let tree = table.tree(id).ok()?;
    write_spec(out, &tree).ok()
}

/// Writes what tables give back, each of one specifier.
pub(crate) fn push_trees(alloc: Global, out: &mut String, list: &[Spec]) -> Option<()> {
    for spec in list {
        push_tree(alloc, out, spec)?;
        out.push_str(" ").ok()?;
    }
    Some(())
}

/// Texts, and the numbers of their specifiers.
const NUMBERS: [(&str, &str); 6] = [
    ("integer integer rational (integer * *)", "0 0 1 0 of 2"),
    (
        "(or bit keyword) (or keyword bit) (or bit keyword)",
        "2 3 2 of 4",
    ),
    ("(cons bit bit) bit (cons bit (cons bit bit))", "1 0 2 of 3"),
    ("(not (not t)) t (and) (or) (member)", "2 0 3 4 4 of 5"),
    ("(member a b) (eql b) (eql a) (eql :a)", "2 1 0 3 of 4"),
    ("", "of 0"),
];

/// Specifiers of all variants, and what is given back.
const TREES: [(&str, &str); 3] = [
    (
        "t nil (and bit (or keyword symbol) (not base-char))",
        "all nothing (and integer:0..1 (or Keyword-symbols Any-symbols) not Base-chars) ",
    ),
    (
        "(member a :b #\\c -1/2) (rational (1/2) 3) hash-table structure-object (cons (cons bit t) null)",
        "(or A B char 99 -1/2) rational:<1/2..3 HashTable structures (cons (cons integer:0..1 all) NIL) ",
    ),
    (
        "array simple-vector bit-vector string simple-string (satisfies oddp) (vector (vector keyword))",
        "(array * any) (simple array all *) (array integer:0..1 *) (string *) (simple string *) satisfying ODDP \
        (array (array Keyword-symbols *) *) ",
    ),
];

/// EQL of each number below the count, and NOT of each.
fn many(alloc: Global, count: u32) -> Option<String> {
    let mut text = String::new(alloc);
    for n in 0..count {
        write!(text, "(eql {n}) (not (eql {n})) ").ok()?;
    }
    Some(text)
}

#[test]
fn equal_specifiers_have_one_number(rt: HostRuntime) {
    for (text, want) in NUMBERS {
        assert!(rt;
            is_told(rt.alloc(), Asked::Numbers, text, want),
            "at {text:?}"
        );
    }
    for (text, want) in TREES {
        assert!(rt;
            is_told(rt.alloc(), Asked::Trees, text, want),
            "at {text:?}"
        );
    }
    let text = many(rt.alloc(), 2000);
    assert!(rt; text.is_some());
    if let Some(text) = text {
        assert!(rt; is_told(rt.alloc(), Asked::Counts, &text, "4000 2000"));
    }
}
