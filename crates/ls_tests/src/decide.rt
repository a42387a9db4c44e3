// What decisions cost. The numbers are worked out by hand from the definition of the cost.

use crate::asked::{Asked, is_told};
use ls_decide::Session;
use ls_spec::Spec;
use ls_structs::Tree;
use std::alloc::Global;

/// Writes a cost that is told without a limit, and whether it is told under a budget of so much and of one less.
fn push_cost(out: &mut String, told: u64, same: Option<u64>, less: Option<u64>) -> Option<()> {
    write!(out, "{told}").ok()?;
    if same != Some(told) || less.is_some() {
        out.push_str(" not at its budget").ok()?;
    }
    Some(())
}

/// Writes what a session says that a pair costs.
fn push_cost_of_pair(session: &Session, out: &mut String, a: &Spec, b: &Spec) -> Option<()> {
    let told = session.cost(a, b, 1 << 30).ok()??;
    let less = told.checked_sub(1)?;
    if told > 1 << 30 {
        return None;
    }
    let same = session.cost(a, b, told).ok()?;
    let refused = session.cost(a, b, less).ok()?;
    push_cost(out, told, same, refused)
}

/// Writes what the pair of a list costs.
pub(crate) fn push_pair_cost(alloc: Global, out: &mut String, list: &[Spec]) -> Option<()> {
    let [a, b] = list else {
        return None;
    };
    let session = Session::new(alloc, Tree::new(alloc)).ok()?;
    push_cost_of_pair(&session, out, a, b)
}

/// Writes what a session says that a type costs where its members are asked for (TYPEP).
fn push_cost_of_type(session: &Session, out: &mut String, s: &Spec) -> Option<()> {
    let told = session.typep_cost(s, 1 << 30).ok()??;
    let less = told.checked_sub(1)?;
    if told > 1 << 30 {
        return None;
    }
    let same = session.typep_cost(s, told).ok()?;
    let refused = session.typep_cost(s, less).ok()?;
    push_cost(out, told, same, refused)
}

/// Writes what the first of a list costs where its members are asked for.
pub(crate) fn push_type_cost(alloc: Global, out: &mut String, list: &[Spec]) -> Option<()> {
    let s = list.first()?;
    let session = Session::new(alloc, Tree::new(alloc)).ok()?;
    push_cost_of_type(&session, out, s)
}

/// Pairs of types and what they cost.
const COSTS: [(&str, &str); 6] = [
    // 20, 6 for each of the two ranges, 2 for arrays and 1 for a cons
    ("integer rational", "35"),
    // the same, with one range
    ("integer integer", "29"),
    // 20, 3 for a point, 2 and 1
    ("(eql 1) nil", "26"),
    // 22 + 4 * 4 for the pair, and 29 for the one list of its cars and cdrs
    (
        "(cons (or integer symbol) (or integer symbol)) \
        (or (cons integer integer) (cons integer symbol) (cons symbol integer) (cons symbol symbol))",
        "67",
    ),
    // twice 29 for the types, and 29 for what surely and what perhaps belongs to them
    ("(and integer (satisfies evenp)) integer", "87"),
    // 33 for the pair (20, 12 for vectors of two element types, and 1), 109 for (MOD 100) beside the table, and 103 for
    // (SIGNED-BYTE 8), which stands in it
    ("(vector (mod 100)) (vector (signed-byte 8))", "245"),
];

/// Types and what it costs to ask for their members.
const TYPEP_COSTS: [(&str, &str); 5] = [
    ("(vector (mod 100))", "109"),
    ("(vector (signed-byte 8))", "103"),
    // an element type is compared with the table once
    ("(and (vector (mod 100)) (vector (mod 100)))", "109"),
    // 109 for (MOD 100); and for the vectors of it 20, 78 for 13 ranges, 2 for kinds, 8 for vectors and 1
    ("(vector (vector (mod 100)))", "218"),
    // twice 103 for BIT
    ("(vector (and bit (satisfies p)))", "206"),
];

/// The OR of so many conses of a keyword and, behind it, an integer, a symbol and NIL; then what it is included in.
pub(crate) fn tagged(alloc: Global, count: u32) -> Option<String> {
    let mut text = String::from_str(alloc, "(or").ok()?;
    for n in 0..count {
        write!(
            text,
            " (cons (eql :k{n}) (cons integer (cons symbol null)))"
        )
        .ok()?;
    }
    text.push_str(") (cons keyword list) ").ok()?;
    Some(text)
}

#[test]
fn decisions_cost_what_is_defined(rt: HostRuntime) {
    for (text, want) in COSTS {
        assert!(rt;
            is_told(rt.alloc(), Asked::PairCost, text, want),
            "at {text:?}"
        );
    }
    for (text, want) in TYPEP_COSTS {
        assert!(rt;
            is_told(rt.alloc(), Asked::TypeCost, text, want),
            "at {text:?}"
        );
    }
    // 2 * (22 + 212 * 8) for the types and 2 * 212 for their cars, each with 64 atoms; 29, 29, 26, 23 and 26
    let text = tagged(rt.alloc(), 63);
    assert!(rt; text.is_some());
    if let Some(text) = text {
        assert!(rt; is_told(rt.alloc(), Asked::PairCost, &text, "3993"));
    }
}
