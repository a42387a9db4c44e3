// Copies, approximations, keys and limits of specifiers, and the specifiers of element codes.

use crate::asked::{Asked, is_told};
use crate::print::write_spec;
use ls_object::{Boxed, Code, Parents, Rat};
use ls_spec::{Point, Spec, key_of, key_of_name, of_code};
use std::alloc::{AllocError, Global};

/// Writes a specifier, and whether predicates stand in it.
fn push_with_predicates(out: &mut String, spec: &Spec) -> Result<(), AllocError> {
    write_spec(out, spec)?;
    write!(out, " {}; ", spec.has_free_predicate())
}

/// Writes a copy.
fn push_copy(alloc: Global, out: &mut String, spec: &Spec) -> Result<(), AllocError> {
    write_spec(out, &spec.copy(alloc)?)
}

/// Writes the lower approximation or the upper one.
fn push_bound(alloc: Global, out: &mut String, spec: &Spec, upper: bool) -> Result<(), AllocError> {
    let bound = if upper {
        spec.high(alloc)?
    } else {
        spec.low(alloc)?
    };
    push_with_predicates(out, &bound)
}

/// Writes copies.
pub(crate) fn push_copies(alloc: Global, out: &mut String, list: &[Spec]) -> Option<()> {
    for spec in list {
        push_copy(alloc, out, spec).ok()?;
    }
    Some(())
}

/// Writes each specifier, its lower approximation and its upper one.
pub(crate) fn push_approximations(alloc: Global, out: &mut String, list: &[Spec]) -> Option<()> {
    for spec in list {
        push_with_predicates(out, spec).ok()?;
        push_bound(alloc, out, spec, false).ok()?;
        push_bound(alloc, out, spec, true).ok()?;
    }
    Some(())
}

/// Whether two specifiers have one key, and where both are predicates, whether their names have.
fn share_key(alloc: Global, first: &Spec, second: &Spec) -> Option<bool> {
    let one = key_of(alloc, first).ok()?;
    let other = key_of(alloc, second).ok()?;
    Some(one.as_slice() == other.as_slice())
}

/// Whether the names of two predicates have one key; None of other specifiers.
fn share_name(alloc: Global, first: &Spec, second: &Spec) -> Option<bool> {
    let (Spec::Satisfies(first), Spec::Satisfies(second)) = (first, second) else {
        return None;
    };
    let one = key_of_name(alloc, first).ok()?;
    let other = key_of_name(alloc, second).ok()?;
    Some(one.as_slice() == other.as_slice())
}

/// Writes whether two specifiers have one key.
pub(crate) fn push_keys(alloc: Global, out: &mut String, list: &[Spec]) -> Option<()> {
    let [first, second] = list else {
        return None;
    };
    let same = share_key(alloc, first, second)?;
    match share_name(alloc, first, second) {
        None => write!(out, "{same}").ok(),
        Some(name) => write!(out, "{same} {name}").ok(),
    }
}

/// Specifiers with their approximations.
const APPROXIMATIONS: [(&str, &str); 3] = [
    (
        "(cons bit t)",
        "(cons integer:0..1 all) false; (cons integer:0..1 all) false; (cons integer:0..1 all) false; ",
    ),
    (
        "(and integer (satisfies oddp))",
        "(and integer:*..* satisfying ODDP) true; (and integer:*..* nothing) false; (and integer:*..* all) false; ",
    ),
    // an element type is kept as it is
    (
        "(vector (satisfies oddp))",
        "(array satisfying ODDP *) false; (array satisfying ODDP *) false; (array satisfying ODDP *) false; ",
    ),
];

/// Pairs of specifiers, and whether they have one key.
const KEYS: [(&str, &str); 12] = [
    ("integer (integer * *)", "true"),
    ("(integer 0 1) bit", "true"),
    ("(integer 0 1) (integer 0 (1))", "false"),
    ("(or bit keyword) (or keyword bit)", "false"),
    ("(member a b) (or (eql a) (eql b))", "true"),
    ("(eql :a) (eql a)", "false"),
    ("(cons bit t) (cons t bit)", "false"),
    ("(and (or bit) character) (and (or bit character))", "false"),
    ("string simple-string", "false"),
    ("vector array", "false"),
    ("(satisfies oddp) (satisfies oddp)", "true true"),
    ("(satisfies oddp) (satisfies evenp)", "false false"),
];

#[test]
fn copies_approximations_and_keys(rt: HostRuntime) {
    for (text, want) in APPROXIMATIONS {
        assert!(rt;
            is_told(rt.alloc(), Asked::Approximations, text, want),
            "at {text:?}"
        );
    }
    for (text, want) in KEYS {
        assert!(rt; is_told(rt.alloc(), Asked::Keys, text, want), "at {text:?}");
    }
}

/// Whether so many NOT of EQL of the number fit.
fn fits(alloc: Global, number: i128, count: u32) -> Option<bool> {
    let mut spec = Spec::Eql(Point::Number(Rat::new(number, 1)?));
    for _ in 0..count {
        spec = Spec::Not(Boxed::new(alloc, spec).ok()?);
    }
    Some(spec.fits(&Parents::new(alloc)))
}

/// Writes what arrays of each element code can hold.
fn codes_text(alloc: Global) -> Option<String> {
    let mut out = String::new(alloc);
    for index in 0u8..19 {
        write_spec(&mut out, &of_code(alloc, Code { index }).ok()?).ok()?;
        out.push_str(" ").ok()?;
    }
    Some(out)
}

/// Whether that is what they can hold.
fn codes_hold(alloc: Global, want: &str) -> bool {
    match codes_text(alloc) {
        Some(out) => out.as_str() == want,
        None => false,
    }
}

#[test]
fn limits_and_codes(rt: HostRuntime) {
    assert_eq!(rt; fits(rt.alloc(), 1, 1023), Some(true));
    assert_eq!(rt; fits(rt.alloc(), 1, 1024), Some(false));
    assert_eq!(rt; fits(rt.alloc(), 1 << 65, 0), Some(false));
    assert!(rt;
        codes_hold(
            rt.alloc(),
            "nothing integer:0..1 integer:0..127 integer:-128..127 integer:0..255 \
        integer:0..32767 integer:-32768..32767 integer:0..65535 integer:0..2147483647 \
        integer:-2147483648..2147483647 integer:0..4294967295 integer:0..9223372036854775807 \
        integer:-9223372036854775808..9223372036854775807 integer:0..18446744073709551615 \
        Base-chars Any-chars SingleFloat DoubleFloat all "
        )
    );
}
