// What names of arrays, vectors and strings resolve to, and how their arguments are refused. What is expected is worked
// out by hand.

use crate::grammar::resolution;
use std::test::Fail;

const RESOLVED: [(&str, &str); 24] = [
    ("array", "(array * any)"),
    ("(array)", "(array * any)"),
    ("(array * *)", "(array * any)"),
    ("(simple-array bit)", "(simple array integer:0..1 any)"),
    ("(array t 0)", "(array all)"),
    ("(array t ())", "(array all)"),
    ("(array nil 2)", "(array nothing * *)"),
    ("(array * (2 * 0))", "(array * 2 * 0)"),
    (
        "(simple-array (mod 2) (4611686018427387903))",
        "(simple array integer:0..1 4611686018427387903)",
    ),
    ("vector", "(array * *)"),
    ("(vector * *)", "(array * *)"),
    ("(vector * 3)", "(array * 3)"),
    ("(vector (vector t) -0)", "(array (array all *) 0)"),
    ("(vector list 4/2)", "(array (or NIL (cons all all)) 2)"),
    ("simple-vector", "(simple array all *)"),
    ("(simple-vector 3)", "(simple array all 3)"),
    ("(bit-vector *)", "(array integer:0..1 *)"),
    ("(simple-bit-vector 8)", "(simple array integer:0..1 8)"),
    ("base-string", "(array Base-chars *)"),
    ("(simple-base-string 2)", "(simple array Base-chars 2)"),
    ("string", "(string *)"),
    ("(string 5)", "(string 5)"),
    ("(simple-string *)", "(simple string *)"),
    (
        "(cons string (not (array * 1)))",
        "(cons (string *) not (array * *))",
    ),
];

const REFUSED: [(&str, &str); 31] = [
    ("(array t 1 2)", "BadArgument 1"),
    ("(vector t 1 2)", "BadArgument 1"),
    ("(simple-vector 1 2)", "BadArgument 1"),
    ("(bit-vector 1 2)", "BadArgument 1"),
    ("(string 1 2)", "BadArgument 1"),
    ("(array t -1)", "BadArgument 10"),
    ("(array t 1/2)", "BadArgument 10"),
    ("(array t 2.0)", "BadArgument 10"),
    ("(array t a)", "BadArgument 10"),
    ("(array t 'a)", "BadArgument 10"),
    ("(array t (2 . 3))", "BadArgument 10"),
    ("(array t (2 -1))", "BadArgument 13"),
    ("(array t (2 (3)))", "BadArgument 13"),
    ("(array t (nil))", "BadArgument 11"),
    ("(vector t (3))", "BadArgument 11"),
    ("(vector t nil)", "BadArgument 11"),
    ("(string -1)", "BadArgument 9"),
    ("(bit-vector a)", "BadArgument 13"),
    ("(array t 256)", "NumberTooWide 10"),
    ("(array t -18446744073709551617)", "NumberTooWide 10"),
    ("(array t (1 4611686018427387904))", "NumberTooWide 13"),
    ("(array t (4611686018427387904 a))", "NumberTooWide 11"),
    ("(array t (a 4611686018427387904))", "BadArgument 11"),
    ("(vector t 4611686018427387904)", "NumberTooWide 11"),
    ("(simple-vector -1/1152921504606846977)", "NumberTooWide 16"),
    ("(simple-string 4611686018427387904)", "NumberTooWide 16"),
    ("(array (mod 0) (a))", "BadArgument 17"),
    ("(vector (mod 0) 1)", "BadBound 14"),
    ("(array (or *) 2)", "StarNotAllowed 12"),
    ("(vector foo a)", "BadArgument 13"),
    ("(vector foo 1)", "UnknownType 9"),
];

#[test]
fn arrays_resolve(rt: HostRuntime) -> Result<(), Fail> {
    for (text, want) in RESOLVED {
        let found = resolution(rt.alloc(), text).ok_or("the text is read")?;
        assert_eq!(rt; found.as_str(), want, "at {text:?}");
    }
    Ok(())
}

#[test]
fn arguments_of_arrays_are_refused(rt: HostRuntime) -> Result<(), Fail> {
    for (text, want) in REFUSED {
        let found = resolution(rt.alloc(), text).ok_or("the text is read")?;
        assert_eq!(rt; found.as_str(), want, "at {text:?}");
    }
    Ok(())
}
