// Sessions: what is answered within a budget, and for how many lists how many rows are kept then. What is expected is
// worked out by hand: the rows of a list are the combinations of truth values that objects have in its atoms.

ghost use Rattle.std.specs.Prelude.{◌≡◌, ◌<◌, []};
ghost use Rattle.ls_cells.specs.Kept.{structures_in};

use crate::decide::tagged;
use crate::texts::list_of;
use ls_decide::{Answer, Session};
use ls_memo::Steps;
use ls_object::{Object, Parents, Text};
use ls_spec::Spec;
use ls_structs::Tree;
use std::alloc::Global;
use std::marker::Brand;
use std::sync::ledger::{Blank, Ledger};

/// Writes an object without marks.
pub(crate) fn push_object(alloc: Global, out: &mut String, object: &Object) -> Option<()> {
    let mut text = Text::of(alloc, "").ok()?;
    if !object.is_plain() {
        return None;
    }
    object.write_text(&mut text).ok()?;
    out.push_str(text.as_str()).ok()
}

/// Writes an answer.
fn push_answer(alloc: Global, out: &mut String, answer: &Answer) -> Option<()> {
    match answer {
        Answer::Yes => out.push_str("T").ok(),
        Answer::No(object) => {
            out.push_str("NIL ").ok()?;
            push_object(alloc, out, object)
        }
        Answer::Unsure(_) => out.push_str("UNSURE").ok(),
        Answer::TooLarge => out.push_str("TOO-LARGE").ok(),
    }
}

/// Asks whether the first type is included in the second, within the budget; None where one of them is past the limits.
fn answer_of<L: Ledger>(
    alloc: Global,
    session: &mut Session,
    steps: &mut Steps<L>,
    a: &Spec,
    b: &Spec,
    budget: u16,
) -> Option<Answer>
    requires { structures_in session.old ≡ [] }
    ensures { structures_in session.new ≡ [] }
{
    let parents = Parents::new(alloc);
    if a.fits(&parents) && b.fits(&parents) {
        session.subtypep(a, b, u64::from(budget), steps).ok()
    } else {
        None
    }
}

/// Asks about the pair at a place of a list of pairs, within the budget, and writes behind the answer how many rows and
/// lists are kept.
fn ask<L: Ledger>(
    alloc: Global,
    session: &mut Session,
    steps: &mut Steps<L>,
    list: &[Spec],
    place: usize,
    budget: u16,
    out: &mut String,
) -> Option<()>
    requires { structures_in session.old ≡ [] }
    ensures { structures_in session.new ≡ [] }
{
    let first = place.checked_mul(2)?;
    let a = list.get(first)?;
    let b = list.get(first.checked_add(1)?)?;
    let answer = answer_of(alloc, session, steps, a, b, budget)?;
    push_answer(alloc, out, &answer)?;
    write!(out, " {}/{}; ", session.rows(), session.kept()).ok()
}

/// Asks about the pairs of a list in order, each within its budget.
fn ask_all<L: Ledger>(
    alloc: Global,
    session: &mut Session,
    steps: &mut Steps<L>,
    list: &[Spec],
    budgets: &[u16],
    out: &mut String,
) -> Option<()>
    requires { structures_in session.old ≡ [] }
    ensures { structures_in session.new ≡ [] }
{
    for (place, budget) in budgets.iter().enumerate() {
        ask(alloc, session, steps, list, place, *budget, out)?;
    }
    Some(())
}

/// The answers of one session, whose steps a ledger of its own counts.
fn answers_by<L: Ledger>(
    alloc: Global,
    list: &[Spec],
    budgets: &[u16],
    out: &mut String,
    blank: Blank,
) -> Option<()>
    requires name { blank.name ≡ L.name }
    requires parts { blank.parts ≡ L.parts }
    requires some { 0 < L.parts }
{
    let mut session = Session::new(alloc, Tree::new(alloc)).ok()?;
    let mut steps = Steps::<L>::new(blank);
    ask_all(alloc, &mut session, &mut steps, list, budgets, out)
}

/// The answers of one session about the pairs of a text.
fn answers(alloc: Global, text: &str, budgets: &[u16]) -> Option<String> {
    let list = list_of(alloc, text)?;
    let mut out = String::new(alloc);
    answers_by::<Brand>(alloc, list.as_slice(), budgets, &mut out, Blank::new(1))?;
    Some(out)
}

/// Whether these are the answers.
fn is_answered(alloc: Global, text: &str, budgets: &[u16], want: &str) -> bool {
    match answers(alloc, text, budgets) {
        Some(out) => out.as_str() == want,
        None => false,
    }
}

/// Pairs that are asked of one session. The exchanged pair is another list, and so are the cars and the cdrs of conses.
const PAIRS: &str = "(integer 0 10) (integer (0) 10) (integer 0 10) (integer (0) 10) \
    (integer 0 10) (integer (0) 10) (integer (0) 10) (integer 0 10) (member 1 2) (eql 1) \
    (cons (eql 1) null) (cons (eql 1) (not null)) (cons (eql 1) null) (cons (eql 1) (not null)) \
    (integer 0 10) (integer (0) 10) (integer 0 10) (integer (0) 10)";

/// A budget one less than the cost is too small and makes no row, and a pair that was asked makes none again.
const ANSWERS: &str =
    "TOO-LARGE 0/0; NIL 0 3/1; NIL 0 3/1; T 6/2; NIL 2 9/3; TOO-LARGE 9/3; NIL (1) 16/6; \
    TOO-LARGE 16/6; NIL 0 16/6; ";

/// Pairs with arrays, the first three times. The witness is the only one.
const ARRAY_PAIRS: &str = "(simple-array (mod 100) (3)) (vector (signed-byte 8)) \
    (simple-array (mod 100) (3)) (vector (signed-byte 8)) (simple-array (mod 100) (3)) (vector (signed-byte 8)) \
    (vector (mod 100)) (vector (unsigned-byte 7)) (vector (vector bit)) (vector t) vector array \
    string (or base-string (array character) (array nil)) vector array";

/// The first pair costs 39 (two element types and three shapes), 109 for (MOD 100) and 103 for (SIGNED-BYTE 8): these
/// have 19 and 18 rows with the table, and the pair has 3. Then (UNSIGNED-BYTE 7) has 18, BIT 18, the vectors of bits 19
/// and T 18; BASE-CHAR, CHARACTER and NIL have 18 each. The other pairs have 2, 2, 3 and 6 rows.
const ARRAY_ANSWERS: &str = "TOO-LARGE 0/0; NIL #<ARRAY (UNSIGNED-BYTE 7) (3) SIMPLE> 40/3; \
    NIL #<ARRAY (UNSIGNED-BYTE 7) (3) SIMPLE> 40/3; T 60/5; T 117/9; T 120/10; T 180/14; T 180/14; ";

/// Pairs with predicates in element types, the first twice. Arrays can hold what any predicate is true of.
const PREDICATE_PAIRS: &str = "(vector (and bit (satisfies p))) bit-vector \
    (vector (and bit (satisfies p))) bit-vector (vector (satisfies p)) (vector t) \
    (vector (and integer (satisfies p))) (vector integer)";

/// 33 for each pair; twice 103 and 103 for BIT, the same for T, and twice 109 and 109 for INTEGER. A predicate doubles the
/// rows, which are 18 for BIT and T and 19 for INTEGER; each pair has 2.
const PREDICATE_ANSWERS: &str = "TOO-LARGE 0/0; T 56/3; T 112/6; T 171/9; ";

/// The OR of the vectors of so many element types, which are all of one code, and those of that code.
fn many_vectors(alloc: Global, count: u32) -> Option<String> {
    let mut text = String::from_str(alloc, "(or").ok()?;
    for n in 0..count {
        write!(text, " (vector (mod {}))", n.checked_add(3)?).ok()?;
    }
    text.push_str(") (vector (unsigned-byte 7)) ").ok()?;
    Some(text)
}

/// The arrays of so many dimensions, of which the last but one is 7, and all arrays of bits of one dimension more.
fn many_dimensions(alloc: Global, count: u32) -> Option<String> {
    let mut text = String::from_str(alloc, "(array bit (").ok()?;
    for _ in 0..count {
        text.push_str("* ").ok()?;
    }
    write!(text, "7 *)) (array bit {}) ", count.checked_add(2)?).ok()?;
    Some(text)
}

/// So many pairs of conses with 63 keywords, three times.
fn thrice(alloc: Global) -> Option<String> {
    let once = tagged(alloc, 63)?;
    let mut text = String::new(alloc);
    for _ in 0..3 {
        text.push_str(once.as_str()).ok()?;
    }
    Some(text)
}

#[test]
fn a_session_keeps_what_it_makes(rt: HostRuntime) {
    let budgets = [34, 35, 35, 35, 29, 77, 78, 34, 35];
    assert!(rt; is_answered(rt.alloc(), PAIRS, &budgets, ANSWERS));
    let budgets = [250, 251, 251, 245, 348, 25, 358, 25];
    assert!(rt; is_answered(rt.alloc(), ARRAY_PAIRS, &budgets, ARRAY_ANSWERS));
    let budgets = [341, 342, 342, 360];
    assert!(rt; is_answered(rt.alloc(), PREDICATE_PAIRS, &budgets, PREDICATE_ANSWERS));
    // 65 rows for the pair and as many for its cars, 4 for the cdrs, and 2 for each of four lists below
    let text = thrice(rt.alloc());
    assert!(rt; text.is_some());
    if let Some(text) = text {
        let want = "TOO-LARGE 0/0; T 142/7; T 142/7; ";
        assert!(rt; is_answered(rt.alloc(), &text, &[3992, 3993, 3993], want));
    }
}

/// A text twice.
fn twice(alloc: Global, once: Option<String>) -> Option<String> {
    let once = once?;
    let mut text = String::new(alloc);
    for _ in 0..2 {
        text.push_str(once.as_str()).ok()?;
    }
    Some(text)
}

#[test]
fn a_type_has_many_element_types_or_dimensions(rt: HostRuntime) {
    // 60 times 109 and 103; 20, 80 for arrays of all codes and 1 for the pair. 60 times 19 rows, 18, and 2 for the pair
    let text = twice(rt.alloc(), many_vectors(rt.alloc(), 60));
    assert!(rt; text.is_some());
    if let Some(text) = text {
        let want = "TOO-LARGE 0/0; T 1160/62; ";
        assert!(rt; is_answered(rt.alloc(), &text, &[6743, 6744], want));
    }
    // 20, 12 for arrays of one element type and two shapes, and 1; 103 for BIT. 18 rows, and 3 for the pair
    let text = twice(rt.alloc(), many_dimensions(rt.alloc(), 253));
    assert!(rt; text.is_some());
    if let Some(text) = text {
        let want = "TOO-LARGE 0/0; T 21/2; ";
        assert!(rt; is_answered(rt.alloc(), &text, &[135, 136], want));
    }
}
