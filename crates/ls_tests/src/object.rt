use ls_object::*;
use std::alloc::AllocError;
use std::cmp::Ordering;
use std::test::*;

// A symbol, by its package and its name.
fn symbol(rt: &HostRuntime, package: &str, name: &str) -> Result<Symbol, AllocError> {
    Ok(Symbol {
        package: Text::of(rt.alloc(), package)?,
        name: Text::of(rt.alloc(), name)?,
    })
}

// A plain object of this shape.
fn plain(rt: &HostRuntime, shape: Shape) -> Object {
    Object {
        marks: Items::new(rt.alloc()),
        shape,
    }
}

// A cons of two plain objects of these shapes.
fn cons(rt: &HostRuntime, car: Shape, cdr: Shape) -> Result<Shape, AllocError> {
    let car = Boxed::new(rt.alloc(), plain(rt, car))?;
    let cdr = Boxed::new(rt.alloc(), plain(rt, cdr))?;
    Ok(Shape::Pair(car, cdr))
}

// An array of these dimensions.
fn array(rt: &HostRuntime, elem: Code, simple: bool, sizes: &[u64]) -> Result<Shape, AllocError> {
    let mut dims = Dims::new(rt.alloc());
    for size in sizes {
        dims.push(*size)?;
    }
    Ok(Shape::Array { elem, simple, dims })
}

// The text of a plain object of this shape, by way of a copy.
fn text_of(rt: &HostRuntime, shape: Shape) -> Result<Text, AllocError> {
    let object = plain(rt, shape).copy(rt.alloc())?;
    let mut out = Text::of(rt.alloc(), "")?;
    if object.is_plain() {
        object.write_text(&mut out)?;
    }
    Ok(out)
}

#[test]
fn symbols_are_printed(rt: HostRuntime) -> Result<(), Fail> {
    let rows = [
        ("COMMON-LISP", "NIL", "NIL"),
        ("KEYWORD", "SALE", ":SALE"),
        ("KEYWORD", "a b", ":|a b|"),
        ("COMMON-LISP", "a b", "|a b|"),
        ("COMMON-LISP", "1+", "|1+|"),
        ("COMMON-LISP", "*", "*"),
        ("COMMON-LISP", "+", "|+|"),
        ("COMMON-LISP", "a|b\\", "|a\\|b\\\\|"),
        ("COMMON-LISP", "", "||"),
        ("COMMON-LISP", "\u{c9}\n", "|\u{c9}\n|"),
        ("PKG", "X", "PKG::X"),
        ("p", "A.B", "|p|::A.B"),
    ];
    for (package, name, text) in rows {
        let printed = text_of(&rt, Shape::Sym(symbol(&rt, package, name)?))?;
        assert_eq!(rt; printed.as_str(), text);
    }
    Ok(())
}

#[test]
fn numbers_are_printed(rt: HostRuntime) -> Result<(), Fail> {
    let rows = [
        (0, 1, "0"),
        (-5, 1, "-5"),
        (3, 4, "3/4"),
        (-1, 2305843009213693952, "-1/2305843009213693952"),
        (18446744073709551616, 1, "18446744073709551616"),
    ];
    for (num, den, text) in rows {
        let number = Rat::new(num, den).ok_or("the number is within the limits")?;
        let printed = text_of(&rt, Shape::Number(number))?;
        assert_eq!(rt; printed.as_str(), text);
    }
    Ok(())
}

#[test]
fn characters_are_printed(rt: HostRuntime) -> Result<(), Fail> {
    let rows = [
        ('A', "#\\A"),
        (')', "#\\)"),
        ('~', "#\\~"),
        (' ', "#\\Space"),
        ('\n', "#\\Newline"),
        ('\t', "#\\Tab"),
        ('\u{c}', "#\\Page"),
        ('\u{7f}', "#\\Rubout"),
        ('\r', "#\\Return"),
        ('\u{8}', "#\\Backspace"),
        ('\u{7}', "#\\U+0007"),
        ('\u{3bb}', "#\\U+03BB"),
        ('\u{1d11e}', "#\\U+1D11E"),
        ('\u{10ffff}', "#\\U+10FFFF"),
    ];
    for (c, text) in rows {
        let printed = text_of(&rt, Shape::Char(c))?;
        assert_eq!(rt; printed.as_str(), text);
    }
    Ok(())
}

#[test]
fn conses_are_printed(rt: HostRuntime) -> Result<(), Fail> {
    let one = || Shape::Number(Rat::integer(1));
    let nil = Shape::Sym(Symbol::nil(rt.alloc())?);
    let list = cons(&rt, one(), nil)?;
    let nested = cons(&rt, list, cons(&rt, one(), Shape::Char(')'))?)?;
    assert_eq!(rt; text_of(&rt, nested)?.as_str(), "((1) 1 . #\\))");
    let pair = cons(&rt, one(), one())?;
    assert_eq!(rt; text_of(&rt, pair)?.as_str(), "(1 . 1)");
    Ok(())
}

#[test]
fn arrays_are_printed(rt: HostRuntime) -> Result<(), Fail> {
    let rows = [
        (Code::ALL, false, [].as_slice(), "#<ARRAY T ()>"),
        (
            Code::CHARACTER,
            true,
            [1].as_slice(),
            "#<ARRAY CHARACTER (1) SIMPLE>",
        ),
        (
            Code { index: 2 },
            false,
            [2, 30, 4].as_slice(),
            "#<ARRAY (UNSIGNED-BYTE 7) (2 30 4)>",
        ),
        (
            Code { index: 17 },
            true,
            [0].as_slice(),
            "#<ARRAY DOUBLE-FLOAT (0) SIMPLE>",
        ),
    ];
    for (elem, simple, sizes, text) in rows {
        let printed = text_of(&rt, array(&rt, elem, simple, sizes)?)?;
        assert_eq!(rt; printed.as_str(), text);
    }
    Ok(())
}

#[test]
fn structures_are_printed(rt: HostRuntime) -> Result<(), Fail> {
    let rows = [
        ("COMMON-LISP", "P", "#<STRUCTURE P>"),
        ("COMMON-LISP", "P>", "#<STRUCTURE P>>"),
        ("SEA", "SHIP", "#<STRUCTURE SEA::SHIP>"),
        ("KEYWORD", "a>", "#<STRUCTURE :|a>|>"),
    ];
    for (package, name, text) in rows {
        let printed = text_of(&rt, Shape::Structure(symbol(&rt, package, name)?))?;
        assert_eq!(rt; printed.as_str(), text);
    }
    Ok(())
}

#[test]
fn kinds_are_printed(rt: HostRuntime) -> Result<(), Fail> {
    let rows = [
        (Kind::SingleFloat, "#<SINGLE-FLOAT>"),
        (Kind::DoubleFloat, "#<DOUBLE-FLOAT>"),
        (Kind::Complex, "#<COMPLEX>"),
        (Kind::Function, "#<FUNCTION>"),
        (Kind::CompiledFunction, "#<COMPILED-FUNCTION>"),
        (Kind::HashTable, "#<HASH-TABLE>"),
        (Kind::Readtable, "#<READTABLE>"),
        (Kind::Package, "#<PACKAGE>"),
        (Kind::Pathname, "#<PATHNAME>"),
        (Kind::LogicalPathname, "#<LOGICAL-PATHNAME>"),
        (Kind::Stream, "#<STREAM>"),
        (Kind::RandomState, "#<RANDOM-STATE>"),
        (Kind::Condition, "#<CONDITION>"),
        (Kind::Restart, "#<RESTART>"),
        (Kind::OtherStructure, "#<OTHER-STRUCTURE>"),
        (Kind::Other, "#<OTHER>"),
    ];
    for (kind, text) in rows {
        let printed = text_of(&rt, Shape::Opaque(kind))?;
        assert_eq!(rt; printed.as_str(), text);
    }
    Ok(())
}

// A list of two structure types, of which the second includes the first.
fn two_types(rt: &HostRuntime, first: &Symbol, second: Symbol) -> Result<Parents, AllocError> {
    let mut parents = Parents::new(rt.alloc());
    parents.push(first.copy()?, None)?;
    if parents.contains(first) && !parents.contains(&second) {
        parents.push(second, Some(first.copy()?))?;
    }
    Ok(parents)
}

#[test]
fn inclusion_goes_through_others(rt: HostRuntime) -> Result<(), Fail> {
    let point = symbol(&rt, "COMMON-LISP", "POINT")?;
    let pixel = symbol(&rt, "COMMON-LISP", "PIXEL")?;
    let parents = two_types(&rt, &point, pixel.copy()?)?.copy()?;
    assert!(rt; parents.is_under(&pixel, &point));
    assert!(rt; !parents.is_under(&point, &pixel));
    assert!(rt; parents.contains(&pixel));
    Ok(())
}

#[test]
fn ratios_are_found_between(rt: HostRuntime) {
    let zero = Rat::integer(0);
    let two = Rat::integer(2);
    let half = Rat::between(&zero, &two);
    assert!(rt; zero.cmp(&half) == Ordering::Less && half.cmp(&two) == Ordering::Less);
    assert_eq!(rt; (half.num, half.den), (1, 2));
}

#[test]
fn fractions_are_reduced(rt: HostRuntime) -> Result<(), Fail> {
    let size = 73786976294838206464;
    let den = 2305843009213693952;
    let rows = [
        (6, 4, Some((3, 2))),
        (-6, 4, Some((-3, 2))),
        (0, 5, Some((0, 1))),
        (1, 0, None),
        (0, 0, None),
        (size - 1, 1, Some((size - 1, 1))),
        (size, 1, None),
        (1 - size, 1, Some((1 - size, 1))),
        (-size, 1, None),
        (size * 2, 4, Some((size / 2, 1))),
        (1, 2305843009213693952, Some((1, den))),
        (1, 2305843009213693953, None),
        (3, 6917529027641081856, Some((1, den))),
    ];
    for (num, below, reduced) in rows {
        let answer = Rat::new(num, below).map(|r| (r.num, r.den));
        assert_eq!(rt; answer, reduced, "{num}/{below}");
    }
    Ok(())
}

#[test]
fn rationals_are_ordered(rt: HostRuntime) -> Result<(), Fail> {
    let half = Rat::new(1, 2).ok_or("a half")?;
    let third = Rat::new(1, 3).ok_or("a third")?;
    let below = Rat::new(-1, 2).ok_or("minus a half")?;
    assert_eq!(rt; third.cmp(&half), Ordering::Less);
    assert_eq!(rt; half.cmp(&below), Ordering::Greater);
    assert_eq!(rt; half.cmp(&half), Ordering::Equal);
    assert!(rt; Rat::integer(-7).is_integer() && !half.is_integer());
    Ok(())
}

#[test]
fn texts_and_dimensions_are_built_and_copied(rt: HostRuntime) -> Result<(), Fail> {
    let mut text = Text::of(rt.alloc(), "a")?;
    text.push_str("\u{e9}")?;
    text.push('z')?;
    text.push_ascii("!")?;
    let copy = text.copy()?;
    assert_eq!(rt; copy.as_str(), "a\u{e9}z!");
    assert_eq!(rt; copy.as_bytes(), "a\u{e9}z!".as_bytes());
    assert!(rt; copy == text && !text.is_ascii_text("az!"));
    let mut dims = Dims::new(rt.alloc());
    dims.push(2)?;
    dims.push(3)?;
    assert_eq!(rt; dims.copy()?.as_slice(), [2, 3].as_slice());
    let nil = Symbol::nil(rt.alloc())?;
    assert_eq!(rt; nil.package.as_str(), "COMMON-LISP");
    assert_eq!(rt; nil.name.as_str(), "NIL");
    assert!(rt; nil.is_nil() && nil.is(&nil.copy()?));
    Ok(())
}
