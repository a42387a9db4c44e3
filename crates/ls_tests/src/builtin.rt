// What built-in names mean as atoms, written out. What is expected is worked out by hand from the standard's entries of
// the names.

use crate::asked::{Asked, is_told};

/// Built-in names, and what a copy of their meaning is; of a name that is no atom `none`.
const NAMES: [(&str, &str); 60] = [
    ("T", "all"),
    ("NIL", "nothing"),
    ("ATOM", "not (cons all all)"),
    ("LIST", "(or NIL (cons all all))"),
    ("NULL", "NIL"),
    ("BOOLEAN", "(or T NIL)"),
    ("SYMBOL", "Any-symbols"),
    ("KEYWORD", "Keyword-symbols"),
    ("CHARACTER", "Any-chars"),
    ("BASE-CHAR", "Base-chars"),
    ("STANDARD-CHAR", "Standard-chars"),
    ("EXTENDED-CHAR", "(and Any-chars not Base-chars)"),
    ("BIT", "integer:0..1"),
    (
        "FIXNUM",
        "integer:-2305843009213693952..2305843009213693951",
    ),
    (
        "BIGNUM",
        "(and integer:*..* not integer:-2305843009213693952..2305843009213693951)",
    ),
    ("RATIO", "(and rational:*..* not integer:*..*)"),
    (
        "NUMBER",
        "(or rational:*..* SingleFloat DoubleFloat Complex)",
    ),
    ("SEQUENCE", "(or (or NIL (cons all all)) (array * *))"),
    ("STRUCTURE-OBJECT", "structures"),
    ("HASH-TABLE", "HashTable"),
    ("READTABLE", "Readtable"),
    ("PACKAGE", "Package"),
    ("PATHNAME", "(or Pathname LogicalPathname)"),
    ("LOGICAL-PATHNAME", "LogicalPathname"),
    ("STREAM", "Stream"),
    ("RANDOM-STATE", "RandomState"),
    ("CONDITION", "Condition"),
    ("RESTART", "Restart"),
    ("COMPILED-FUNCTION", "CompiledFunction"),
    ("INTEGER", "integer:*..*"),
    ("RATIONAL", "rational:*..*"),
    ("SIGNED-BYTE", "integer:*..*"),
    ("UNSIGNED-BYTE", "integer:0..*"),
    ("CONS", "(cons all all)"),
    ("ARRAY", "(array * any)"),
    ("SIMPLE-ARRAY", "(simple array * any)"),
    ("VECTOR", "(array * *)"),
    ("SIMPLE-VECTOR", "(simple array all *)"),
    ("BIT-VECTOR", "(array integer:0..1 *)"),
    ("SIMPLE-BIT-VECTOR", "(simple array integer:0..1 *)"),
    ("BASE-STRING", "(array Base-chars *)"),
    ("SIMPLE-BASE-STRING", "(simple array Base-chars *)"),
    ("STRING", "(string *)"),
    ("SIMPLE-STRING", "(simple string *)"),
    ("FLOAT", "(or SingleFloat DoubleFloat)"),
    ("SHORT-FLOAT", "SingleFloat"),
    ("SINGLE-FLOAT", "SingleFloat"),
    ("LONG-FLOAT", "DoubleFloat"),
    ("DOUBLE-FLOAT", "DoubleFloat"),
    ("REAL", "(or rational:*..* (or SingleFloat DoubleFloat))"),
    ("COMPLEX", "Complex"),
    ("FUNCTION", "(or Function CompiledFunction)"),
    ("AND", "none"),
    ("NOT", "none"),
    ("MEMBER", "none"),
    ("SATISFIES", "none"),
    ("MOD", "none"),
    ("VALUES", "none"),
    ("*", "none"),
    ("|integer|", "none"),
];

#[test]
fn names_mean_their_types(rt: HostRuntime) {
    for (name, want) in NAMES {
        assert!(rt;
            is_told(rt.alloc(), Asked::Copies, name, want),
            "at {name:?}"
        );
    }
}
