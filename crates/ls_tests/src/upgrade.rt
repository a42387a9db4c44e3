// The upgraded codes of element types, within budgets. What is expected is worked out by hand from the upgrading table,
// the definition of the cost and the truth values that objects have in the atoms of an element type and the entries.

ghost use Rattle.std.specs.Prelude.{◌≡◌, ◌<◌, []};
ghost use Rattle.ls_cells.specs.Kept.{structures_in};

use crate::asked::{Asked, is_told};
use ls_decide::Session;
use ls_memo::Steps;
use ls_object::{Code, Parents};
use ls_spec::Spec;
use ls_structs::Tree;
use std::alloc::Global;
use std::marker::Brand;
use std::sync::ledger::{Blank, Ledger};

/// Asks for the upgraded code of an element type, within the budget; None where it is past the limits.
fn code_of<L: Ledger>(
    alloc: Global,
    session: &mut Session,
    steps: &mut Steps<L>,
    element: &Spec,
    budget: u16,
) -> Option<Option<Code>>
    requires { structures_in session.old ≡ [] }
    ensures { structures_in session.new ≡ [] }
{
    let parents = Parents::new(alloc);
    if element.fits(&parents) {
        session.upgrade(element, u64::from(budget), steps).ok()
    } else {
        None
    }
}

/// Asks for the upgraded code of an element type, within the budget, and writes behind it how many rows and lists are
/// kept.
fn ask<L: Ledger>(
    alloc: Global,
    session: &mut Session,
    steps: &mut Steps<L>,
    element: &Spec,
    budget: u16,
    out: &mut String,
) -> Option<()>
    requires { structures_in session.old ≡ [] }
    ensures { structures_in session.new ≡ [] }
{
    match code_of(alloc, session, steps, element, budget)? {
        None => out.push_str("none").ok()?,
        Some(code) => write!(out, "{}", code.index).ok()?,
    }
    write!(out, " {}/{}; ", session.rows(), session.kept()).ok()
}

/// Asks about an element type within a budget, within one more, and within that again.
fn ask_thrice<L: Ledger>(
    alloc: Global,
    session: &mut Session,
    steps: &mut Steps<L>,
    element: &Spec,
    budget: u16,
    out: &mut String,
) -> Option<()>
    requires { structures_in session.old ≡ [] }
    ensures { structures_in session.new ≡ [] }
{
    let more = budget.checked_add(1)?;
    ask(alloc, session, steps, element, budget, out)?;
    ask(alloc, session, steps, element, more, out)?;
    ask(alloc, session, steps, element, more, out)
}

/// The answers of one session about an element type. It does nothing else: a function that owns a session is dear to
/// prove.
fn answers_by<L: Ledger>(
    alloc: Global,
    element: &Spec,
    budget: u16,
    out: &mut String,
    blank: Blank,
) -> Option<()>
    requires name { blank.name ≡ L.name }
    requires parts { blank.parts ≡ L.parts }
    requires some { 0 < L.parts }
{
    let mut session = Session::new(alloc, Tree::new(alloc)).ok()?;
    let mut steps = Steps::<L>::new(blank);
    ask_thrice(alloc, &mut session, &mut steps, element, budget, out)
}

/// Writes the answers of a session for each of a list, within the budget and within one more.
pub(crate) fn push_codes(
    alloc: Global,
    out: &mut String,
    budget: u16,
    list: &[Spec],
) -> Option<()> {
    for element in list {
        answers_by::<Brand>(alloc, element, budget, out, Blank::new(1))?;
    }
    Some(())
}

/// Element types that stand in the upgrading table, or whose atoms count for nothing: 20, 78 for the 13 ranges of the
/// table, 2 for its kinds, 2 for arrays and 1. The table alone tells 18 rows apart: 9 of integers from 0, 4 of negative
/// ones, 2 of characters, 2 of floats, and one of all that is left.
const OF_THE_TABLE: [(&str, &str); 14] = [
    ("nil", "none 0/0; 0 18/1; 0 18/1; "),
    ("bit", "none 0/0; 1 18/1; 1 18/1; "),
    ("(unsigned-byte 7)", "none 0/0; 2 18/1; 2 18/1; "),
    ("(mod 256)", "none 0/0; 4 18/1; 4 18/1; "),
    ("(signed-byte 64)", "none 0/0; 12 18/1; 12 18/1; "),
    ("(unsigned-byte 64)", "none 0/0; 13 18/1; 13 18/1; "),
    ("character", "none 0/0; 15 18/1; 15 18/1; "),
    ("base-char", "none 0/0; 14 18/1; 14 18/1; "),
    // standard characters, others below 128, and others
    ("standard-char", "none 0/0; 14 19/1; 14 19/1; "),
    // symbols, and what else is left
    ("symbol", "none 0/0; 18 19/1; 18 19/1; "),
    ("(or bit character)", "none 0/0; 18 18/1; 18 18/1; "),
    ("float", "none 0/0; 18 18/1; 18 18/1; "),
    ("short-float", "none 0/0; 16 18/1; 16 18/1; "),
    ("long-float", "none 0/0; 17 18/1; 17 18/1; "),
];

/// Element types with one range that does not stand in the table, which counts for 6 more.
const OF_A_RANGE: [(&str, &str); 6] = [
    // from 100 to 127 is apart
    ("(mod 100)", "none 0/0; 2 19/1; 2 19/1; "),
    // -1 is apart, and so are the integers from 201 to 255
    ("(integer -1 200)", "none 0/0; 6 20/1; 6 20/1; "),
    ("(integer 0 256)", "none 0/0; 5 19/1; 5 19/1; "),
    // other integers and symbols are apart
    ("(and integer symbol)", "none 0/0; 0 20/1; 0 20/1; "),
    // integers and ratios are apart from what is left
    ("rational", "none 0/0; 18 19/1; 18 19/1; "),
    // nothing is in it
    ("(integer 5 3)", "none 0/0; 0 18/1; 0 18/1; "),
];

/// Nested element types: each inner one costs what it costs by itself.
const NESTED: [(u16, &str, &str); 4] = [
    // 103 for BIT; 20, 78, 2, 8 for the vectors of bits and others, and 1 for the vector
    (211, "(vector bit)", "none 0/0; 18 37/2; 18 37/2; "),
    // 109 for (MOD 100)
    (217, "(vector (mod 100))", "none 0/0; 18 38/2; 18 38/2; "),
    // 103 for BIT, and twice 109
    (320, "(vector (vector bit))", "none 0/0; 18 56/3; 18 56/3; "),
    // 20, 84 for 14 ranges, 2, 16 for the arrays of three codes and others, and 1. Other integers are apart, and so are
    // strings.
    (122, "(and integer string)", "none 0/0; 0 20/1; 0 20/1; "),
];

#[test]
fn element_types_are_upgraded(rt: HostRuntime) {
    for (text, want) in OF_THE_TABLE {
        assert!(rt;
            is_told(rt.alloc(), Asked::Codes(102), text, want),
            "at {text:?}"
        );
    }
    for (text, want) in OF_A_RANGE {
        assert!(rt;
            is_told(rt.alloc(), Asked::Codes(108), text, want),
            "at {text:?}"
        );
    }
    for (budget, text, want) in NESTED {
        assert!(rt;
            is_told(rt.alloc(), Asked::Codes(budget), text, want),
            "at {text:?}"
        );
    }
}

/// The OR of the vectors of so many element types, each of them the integers from 0 to another number.
fn many_vectors(alloc: Global, count: u32) -> Option<String> {
    let mut text = String::from_str(alloc, "(or").ok()?;
    for n in 0..count {
        write!(text, " (vector (mod {}))", n.checked_add(3)?).ok()?;
    }
    text.push_str(")").ok()?;
    Some(text)
}

/// 60 times 109; and for the type with the table 20, 78, 2, 80 for arrays of all codes, and 1, for 77 atoms twice. Each
/// (MOD n) keeps 19 rows; the type and the table 18, and one for the vectors, all of which are of one code.
#[test]
fn an_element_type_has_many_element_types(rt: HostRuntime) {
    let text = many_vectors(rt.alloc(), 60);
    assert!(rt; text.is_some());
    if let Some(text) = text {
        let want = "none 0/0; 18 1159/61; 18 1159/61; ";
        assert!(rt; is_told(rt.alloc(), Asked::Codes(6901), &text, want));
    }
}
