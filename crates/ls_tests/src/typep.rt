// Whether objects belong to types: what a session answers within a budget, and for how many lists how many rows are kept
// then. What is expected is worked out by hand: rows are made for element types alone.

ghost use Rattle.std.specs.Prelude.{◌≡◌, ◌<◌, []};
ghost use Rattle.ls_cells.specs.Kept.{structures_in};

use crate::literal::object_in;
use crate::texts::list_of;
use ls_decide::{Belongs, Session};
use ls_memo::Steps;
use ls_object::{Object, Parents};
use ls_spec::Spec;
use ls_structs::Tree;
use std::alloc::Global;
use std::marker::Brand;
use std::sync::ledger::{Blank, Ledger};

/// Asks whether the object belongs to the type, within the budget; None where the type is past the limits.
fn answer_of<L: Ledger>(
    alloc: Global,
    session: &mut Session,
    steps: &mut Steps<L>,
    object: &Object,
    spec: &Spec,
    budget: u32,
) -> Option<Belongs>
    requires { structures_in session.old ≡ [] }
    ensures { structures_in session.new ≡ [] }
{
    let parents = Parents::new(alloc);
    if budget > 1 << 30 {
        return None;
    }
    if spec.fits(&parents) {
        session.typep(object, spec, u64::from(budget), steps).ok()
    } else {
        None
    }
}

/// Asks about the type at a place of a list, within the budget, and writes behind the answer how many rows and lists are
/// kept.
fn ask<L: Ledger>(
    alloc: Global,
    session: &mut Session,
    steps: &mut Steps<L>,
    object: &Object,
    types: &[Spec],
    place: usize,
    budget: u32,
    out: &mut String,
) -> Option<()>
    requires { structures_in session.old ≡ [] }
    ensures { structures_in session.new ≡ [] }
{
    let spec = types.get(place)?;
    let answer = answer_of(alloc, session, steps, object, spec, budget)?;
    write!(out, "{answer:?} {}/{}; ", session.rows(), session.kept()).ok()
}

/// Asks about the types of a list in order, each within its budget.
fn ask_all<L: Ledger>(
    alloc: Global,
    session: &mut Session,
    steps: &mut Steps<L>,
    object: &Object,
    types: &[Spec],
    budgets: &[u32],
    out: &mut String,
) -> Option<()>
    requires { structures_in session.old ≡ [] }
    ensures { structures_in session.new ≡ [] }
{
    for (place, budget) in budgets.iter().enumerate() {
        ask(alloc, session, steps, object, types, place, *budget, out)?;
    }
    Some(())
}

/// The answers of one session, whose steps a ledger of its own counts.
fn answers_by<L: Ledger>(
    alloc: Global,
    object: &Object,
    types: &[Spec],
    budgets: &[u32],
    out: &mut String,
    blank: Blank,
) -> Option<()>
    requires name { blank.name ≡ L.name }
    requires parts { blank.parts ≡ L.parts }
    requires some { 0 < L.parts }
{
    let mut session = Session::new(alloc, Tree::new(alloc)).ok()?;
    let mut steps = Steps::<L>::new(blank);
    ask_all(alloc, &mut session, &mut steps, object, types, budgets, out)
}

/// The answers of one session about an object and the types of a text.
fn answers(alloc: Global, object: &str, types: &str, budgets: &[u32]) -> Option<String> {
    let object = object_in(alloc, object)?;
    let list = list_of(alloc, types)?;
    let mut out = String::new(alloc);
    answers_by::<Brand>(
        alloc,
        &object,
        list.as_slice(),
        budgets,
        &mut out,
        Blank::new(1),
    )?;
    Some(out)
}

/// Whether these are the answers.
fn is_answered(alloc: Global, object: &str, types: &str, budgets: &[u32], want: &str) -> bool {
    match answers(alloc, object, types, budgets) {
        Some(out) => out.as_str() == want,
        None => false,
    }
}

/// Objects and types that ask for no element type.
const ANSWERS: [(&str, &str, &str); 37] = [
    ("5", "t", "Inside 0/0; "),
    ("'a", "nil", "Outside 0/0; "),
    ("10", "(integer 0 10)", "Inside 0/0; "),
    ("10", "(integer 0 (10))", "Outside 0/0; "),
    ("-4/6", "(rational -2/3 (0))", "Inside 0/0; "),
    ("1/2", "integer", "Outside 0/0; "),
    ("2", "(member a 4/2)", "Inside 0/0; "),
    ("1.5", "single-float", "Inside 0/0; "),
    ("1d0", "(or short-float rational)", "Outside 0/0; "),
    (
        "#\\Tab",
        "(and base-char (not standard-char))",
        "Inside 0/0; ",
    ),
    ("#\\U+80", "base-char", "Outside 0/0; "),
    ("'p::a", "symbol", "Inside 0/0; "),
    (":a", "(and keyword (not (eql a)))", "Inside 0/0; "),
    ("'a", "keyword", "Outside 0/0; "),
    ("nil", "(and list boolean)", "Inside 0/0; "),
    ("()", "cons", "Outside 0/0; "),
    ("'(1 . a)", "(cons bit symbol)", "Inside 0/0; "),
    ("'(1 a)", "(cons bit symbol)", "Outside 0/0; "),
    (
        "''a",
        "(cons (eql quote) (cons symbol null))",
        "Inside 0/0; ",
    ),
    ("'a", "structure-object", "Outside 0/0; "),
    ("5", "(or stream function)", "Outside 0/0; "),
    ("\"a\u{e9}\"", "(string 2)", "Inside 0/0; "),
    ("\"ab\"", "(simple-string 3)", "Outside 0/0; "),
    ("#(1 2)", "(simple-array * (2))", "Inside 0/0; "),
    ("#*01", "(array * 2)", "Outside 0/0; "),
    ("#*01", "string", "Outside 0/0; "),
    ("'a", "(satisfies p)", "Depends 0/0; "),
    ("'a", "(not (satisfies p))", "Depends 0/0; "),
    ("'a", "(or (satisfies p) symbol)", "Inside 0/0; "),
    ("'a", "(and (satisfies p) integer)", "Outside 0/0; "),
    ("5", "(not (and symbol (satisfies p)))", "Inside 0/0; "),
    ("5", "(not (or integer (satisfies p)))", "Outside 0/0; "),
    // each predicate stands for itself, so the excluded middle is not seen
    (
        "5",
        "(or (satisfies p) (not (satisfies p)))",
        "Depends 0/0; ",
    ),
    ("'(a . 1)", "(cons (satisfies p) symbol)", "Outside 0/0; "),
    ("'(a . 1)", "(cons (satisfies p) integer)", "Depends 0/0; "),
    (
        "'(a . 1)",
        "(or cons (cons (satisfies p) t))",
        "Inside 0/0; ",
    ),
    ("#()", "(and (satisfies p) array)", "Depends 0/0; "),
];

/// Objects and types with element types. A list of BIT and the table has 18 rows; other symbols, and the numbers from
/// 100 to 127, are apart, and so are other integers; a predicate doubles the rows.
const ELEMENT_ANSWERS: [(&str, &str, &str); 10] = [
    ("#*01", "(simple-bit-vector 2)", "Inside 18/1; "),
    ("\"ab\"", "base-string", "Outside 18/1; "),
    ("\"ab\"", "(simple-array character (2))", "Inside 18/1; "),
    ("#(1 2)", "(vector symbol)", "Inside 19/1; "),
    ("#(1 2)", "(vector (mod 100))", "Outside 19/1; "),
    ("5", "(or integer bit-vector)", "Inside 18/1; "),
    ("#*", "(vector (and bit (satisfies p)))", "Inside 36/1; "),
    (
        "#*",
        "(vector (and integer (satisfies p)))",
        "Outside 38/1; ",
    ),
    (
        "#()",
        "(and (satisfies q) (vector (satisfies p)))",
        "Depends 36/1; ",
    ),
    // 19 for the vectors of bits
    ("#()", "(vector (vector bit))", "Inside 37/2; "),
];

/// What the program takes where no budget is asked for.
const BUDGET: u32 = 4_194_304;

#[test]
fn objects_belong_to_types(rt: HostRuntime) {
    for (object, spec, want) in ANSWERS {
        assert!(rt;
            is_answered(rt.alloc(), object, spec, &[BUDGET], want),
            "at {object:?} {spec:?}"
        );
    }
    for (object, spec, want) in ELEMENT_ANSWERS {
        assert!(rt;
            is_answered(rt.alloc(), object, spec, &[BUDGET], want),
            "at {object:?} {spec:?}"
        );
    }
}

/// The vectors of what so many predicates are true of.
fn many_predicates(alloc: Global, count: u32) -> Option<String> {
    let mut text = String::from_str(alloc, "(vector (or").ok()?;
    for n in 0..count {
        write!(text, " (satisfies p{n})").ok()?;
    }
    text.push_str("))").ok()?;
    Some(text)
}

/// Types that are asked of one session.
const TYPES: &str = "(vector (mod 100)) (vector (mod 100)) (vector (mod 100)) integer \
    (vector (and bit (satisfies p))) (vector (and bit (satisfies p))) (vector (vector bit)) (vector (vector bit))";

/// 109 for (MOD 100), nothing for INTEGER, twice 103 with a predicate, and 212 for the vectors of bits.
#[test]
fn a_budget_is_the_cost_of_the_type(rt: HostRuntime) {
    let budgets = [108, 109, 109, 0, 205, 206, 211, 212];
    let want =
        "TooLarge 0/0; Outside 19/1; Outside 19/1; Outside 19/1; TooLarge 19/1; Inside 55/2; \
        TooLarge 55/2; Outside 92/4; ";
    assert!(rt; is_answered(rt.alloc(), "#*01", TYPES, &budgets, want));
    // 2^16 times 103
    let text = many_predicates(rt.alloc(), 16);
    assert!(rt; text.is_some());
    if let Some(text) = text {
        let budgets = [BUDGET];
        assert!(rt; is_answered(rt.alloc(), "5", &text, &budgets, "TooLarge 0/0; "));
    }
}
