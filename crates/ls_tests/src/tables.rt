// The built-in names, each call on sets at the sizes that are used, and what the entries of the upgrading table hold.

use ls_object::{Code, Symbol, TABLE_LEN, Text};
use ls_tables::{Builtin, TagSet, builtin, code_meet, code_range, code_text};
use std::alloc::{AllocError, Global};
use std::test::Fail;

fn looked_up(alloc: Global, package: &str, name: &str) -> Result<Option<Builtin>, AllocError> {
    let package = Text::of(alloc, package)?;
    let name = Text::of(alloc, name)?;
    Ok(builtin(&Symbol { package, name }))
}

#[test]
fn built_in_names_are_found(rt: HostRuntime) -> Result<(), Fail> {
    let rows = [
        ("COMMON-LISP", "*", Some(Builtin::Star)),
        ("COMMON-LISP", "BIT", Some(Builtin::Bit)),
        ("COMMON-LISP", "BIT-VECTOR", Some(Builtin::BitVector)),
        ("COMMON-LISP", "T", Some(Builtin::T)),
        ("COMMON-LISP", "VECTOR", Some(Builtin::Vector)),
        ("COMMON-LISP", "BIT-", None),
        ("COMMON-LISP", "", None),
        ("COMMON-LISP", "bit", None),
        ("COMMON-LISP", "\u{c9}", None),
        ("KEYWORD", "BIT", None),
        ("common-lisp", "BIT", None),
    ];
    for (package, name, expected) in rows {
        assert_eq!(rt;
            looked_up(rt.alloc(), package, name)?,
            expected,
            "{package} {name}"
        );
    }
    Ok(())
}

#[test]
fn heads_of_lists_do_not_stand_alone(rt: HostRuntime) {
    assert!(rt; Builtin::Cons.stands_alone());
    assert!(rt; Builtin::Function.stands_alone());
    assert!(rt; !Builtin::Values.stands_alone());
    assert!(rt; !Builtin::Star.stands_alone());
}

#[test]
fn sets_have_their_numbers(rt: HostRuntime) {
    let ends = TagSet::<19>::empty().insert(0).insert(18);
    let rest = ends.complement();
    assert!(rt; ends.has(18) && !ends.has(17) && !ends.has(200));
    assert!(rt; rest.has(1) && !rest.has(18) && !rest.has(19));
    assert_eq!(rt; ends.union(rest), TagSet::empty().complement());
    assert_eq!(rt; ends.meet(rest), TagSet::empty());
    assert_eq!(rt; rest.least(), Some(1));
}

#[test]
fn sets_of_all_sizes(rt: HostRuntime) {
    assert_eq!(rt; TagSet::<0>::empty().complement().least(), None);
    assert_eq!(rt; TagSet::<16>::empty().insert(15).least(), Some(15));
    assert_eq!(rt; TagSet::<64>::empty().insert(63).least(), Some(63));
    assert!(rt; TagSet::<64>::empty().complement().has(63));
}

/// The code of the entry that is written so, if there is one.
fn code_of(text: &str) -> Option<Code> {
    for index in 0..TABLE_LEN {
        let code = Code { index: index as u8 };
        if code_text(code) == text {
            return Some(code);
        }
    }
    None
}

#[test]
fn entries_have_texts_and_ranges(rt: HostRuntime) {
    let rows = [
        ("NIL", None),
        ("BIT", Some((0, 1))),
        ("(UNSIGNED-BYTE 7)", Some((0, 127))),
        ("(SIGNED-BYTE 8)", Some((-128, 127))),
        ("(UNSIGNED-BYTE 63)", Some((0, 9223372036854775807))),
        (
            "(SIGNED-BYTE 64)",
            Some((-9223372036854775808, 9223372036854775807)),
        ),
        ("(UNSIGNED-BYTE 64)", Some((0, 18446744073709551615))),
        ("BASE-CHAR", None),
        ("SINGLE-FLOAT", None),
        ("T", None),
    ];
    for (text, range) in rows {
        let found = match code_of(text) {
            Some(code) => Some(code_range(code)),
            None => None,
        };
        assert_eq!(rt; found, Some(range), "{text}");
    }
    assert_eq!(rt; code_of("(SIGNED-BYTE 7)"), None);
}

#[test]
fn named_codes_have_their_texts(rt: HostRuntime) {
    assert_eq!(rt; code_text(Code::NIL), "NIL");
    assert_eq!(rt; code_text(Code::BIT), "BIT");
    assert_eq!(rt; code_text(Code::BASE_CHAR), "BASE-CHAR");
    assert_eq!(rt; code_text(Code::CHARACTER), "CHARACTER");
    assert_eq!(rt; code_text(Code::ALL), "T");
}

#[test]
fn two_entries_meet(rt: HostRuntime) {
    let rows = [
        (
            "(SIGNED-BYTE 16)",
            "(UNSIGNED-BYTE 16)",
            "(UNSIGNED-BYTE 15)",
        ),
        ("(SIGNED-BYTE 8)", "(UNSIGNED-BYTE 8)", "(UNSIGNED-BYTE 7)"),
        ("(SIGNED-BYTE 64)", "BIT", "BIT"),
        ("T", "CHARACTER", "CHARACTER"),
        ("BASE-CHAR", "CHARACTER", "BASE-CHAR"),
        ("SINGLE-FLOAT", "DOUBLE-FLOAT", "NIL"),
        ("SINGLE-FLOAT", "SINGLE-FLOAT", "SINGLE-FLOAT"),
        ("CHARACTER", "BIT", "NIL"),
    ];
    for (first, second, both) in rows {
        let met = match (code_of(first), code_of(second)) {
            (Some(a), Some(b)) => code_text(code_meet(a, b)),
            _ => "",
        };
        assert_eq!(rt; met, both, "{first} {second}");
    }
}
