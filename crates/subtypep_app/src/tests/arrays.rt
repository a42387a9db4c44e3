// Texts about arrays, vectors, strings and sequences. What is expected is worked out by hand.

use super::{Case, Row, outcome_of};
use crate::status::Status;
use std::alloc::{AllocError, Global};
use std::test::Fail;

/// Texts about arrays; where there is a witness, it is the only one.
const ARRAYS: [Row<'static>; 36] = [
    (b"(subtypep '(vector t) '(vector (vector bit)))", b"1:1 T\n"),
    (b"(subtypep '(array t (2 *)) '(array t 2))", b"1:1 T\n"),
    (
        b"(subtypep '(vector (and integer string)) '(vector nil))",
        b"1:1 T\n",
    ),
    (
        b"(subtypep '(vector (mod 100)) '(vector (unsigned-byte 7)))",
        b"1:1 T\n",
    ),
    (
        b"(subtypep '(simple-array (mod 100) (3)) '(vector (signed-byte 8)))",
        b"1:1 NIL WITNESS #<ARRAY (UNSIGNED-BYTE 7) (3) SIMPLE>\n",
    ),
    // Upgraded element types.
    (
        b"(subtypep '(vector (mod 10)) '(vector (unsigned-byte 7)))",
        b"1:1 T\n",
    ),
    (
        b"(subtypep '(vector fixnum) '(vector (signed-byte 64)))",
        b"1:1 T\n",
    ),
    (
        b"(subtypep '(vector (and fixnum (integer 0))) '(vector (unsigned-byte 61)))",
        b"1:1 T\n",
    ),
    (
        b"(subtypep '(simple-array (integer -1 200) (2 3)) nil)",
        b"1:1 NIL WITNESS #<ARRAY (SIGNED-BYTE 16) (2 3) SIMPLE>\n",
    ),
    (
        b"(subtypep '(vector (or bit character) 2) 'simple-vector)",
        b"1:1 NIL WITNESS #<ARRAY T (2)>\n",
    ),
    (
        b"(subtypep '(vector standard-char) 'base-string)",
        b"1:1 T\n",
    ),
    (b"(subtypep '(vector float) '(vector t))", b"1:1 T\n"),
    (
        b"(subtypep '(vector short-float) '(vector single-float))",
        b"1:1 T\n",
    ),
    (
        b"(subtypep '(and (vector bit) (vector character)) nil)",
        b"1:1 T\n",
    ),
    (
        b"(subtypep '(array (array (array bit 2) 3)) '(array (vector keyword)))",
        b"1:1 T\n",
    ),
    // Dimensions, and whether an array is simple.
    (b"(subtypep '(array * 0) '(not vector))", b"1:1 T\n"),
    (
        b"(subtypep '(and (array * (2 *)) (array * (* 3))) '(array * (2 3)))",
        b"1:1 T\n",
    ),
    (
        b"(subtypep '(and (array * (2 *)) (array * (3 *))) nil)",
        b"1:1 T\n",
    ),
    (
        b"(subtypep '(array bit 2) '(or (array bit (1 *)) (array bit (* *))))",
        b"1:1 T\n",
    ),
    (
        b"(subtypep '(simple-array single-float ()) 'vector)",
        b"1:1 NIL WITNESS #<ARRAY SINGLE-FLOAT () SIMPLE>\n",
    ),
    (
        b"(subtypep '(and (array double-float (4 0 2)) (not simple-array)) nil)",
        b"1:1 NIL WITNESS #<ARRAY DOUBLE-FLOAT (4 0 2)>\n",
    ),
    (
        b"(subtypep '(simple-array (unsigned-byte 64) (4611686018427387903)) '(not vector))",
        b"1:1 NIL WITNESS #<ARRAY (UNSIGNED-BYTE 64) (4611686018427387903) SIMPLE>\n",
    ),
    (
        b"(subtypep '(simple-bit-vector 8) '(simple-vector 8))",
        b"1:1 NIL WITNESS #<ARRAY BIT (8) SIMPLE>\n",
    ),
    (
        b"(subtypep '(simple-vector 3) '(vector t 4))",
        b"1:1 NIL WITNESS #<ARRAY T (3) SIMPLE>\n",
    ),
    (
        b"(subtypep '(and array (not simple-array) (not (array * 1))) '(not vector))",
        b"1:1 T\n",
    ),
    // Strings.
    (b"(subtypep '(vector nil) 'string)", b"1:1 T\n"),
    (
        b"(subtypep 'string '(or (vector nil) base-string (vector character)))",
        b"1:1 T\n",
    ),
    (
        b"(subtypep '(or (vector nil) base-string (vector character)) 'string)",
        b"1:1 T\n",
    ),
    (
        b"(subtypep '(simple-string 2) '(or (array nil) base-string))",
        b"1:1 NIL WITNESS #<ARRAY CHARACTER (2) SIMPLE>\n",
    ),
    (
        b"(subtypep '(and (string 0) (not simple-string) (not base-string)) '(array character))",
        b"1:1 NIL WITNESS #<ARRAY NIL (0)>\n",
    ),
    (
        b"(subtypep '(and (simple-base-string 2) (string 3)) nil)",
        b"1:1 T\n",
    ),
    (b"(subtypep '(and string (vector symbol)) nil)", b"1:1 T\n"),
    // Sequences, and arrays in conses.
    (b"(subtypep 'sequence '(or list vector))", b"1:1 T\n"),
    (b"(subtypep '(and sequence (not vector)) 'list)", b"1:1 T\n"),
    (
        b"(subtypep '(cons (simple-bit-vector 1) null) '(cons vector cons))",
        b"1:1 NIL WITNESS (#<ARRAY BIT (1) SIMPLE>)\n",
    ),
    (
        b"(subtypep '(cons (vector (mod 2)) sequence) '(cons bit-vector (not (array * 2))))",
        b"1:1 T\n",
    ),
];

#[test]
fn arrays_are_decided(rt: HostRuntime) -> Result<(), Fail> {
    for (text, report) in ARRAYS {
        let got = outcome_of(rt.alloc(), &Case::ask(text))?;
        assert_eq!(rt; got.bytes.as_slice(), report);
        assert_eq!(rt; got.status, Status::Clean);
    }
    Ok(())
}

/// An answer without its witness.
const NO: &[u8] = b"1:1 NIL WITNESS ";

const YES: &[u8] = b"1:1 T\n";

/// Texts whose witness is a vector of any length, and the two ways in which the report may begin.
const VECTORS: [(&[u8], [&[u8]; 2]); 3] = [
    (
        b"(subtypep 'string '(vector character))",
        [
            b"1:1 NIL WITNESS #<ARRAY NIL (",
            b"1:1 NIL WITNESS #<ARRAY BASE-CHAR (",
        ],
    ),
    (
        b"(subtypep '(vector (mod 100)) '(vector (signed-byte 8)))",
        [
            b"1:1 NIL WITNESS #<ARRAY (UNSIGNED-BYTE 7) (",
            b"1:1 NIL WITNESS #<ARRAY (UNSIGNED-BYTE 7) (",
        ],
    ),
    (b"(subtypep 'sequence 'list)", [NO, NO]),
];

/// Whether the report names an array of one dimension: in its last brackets stand digits and nothing else.
fn names_a_vector(report: &[u8]) -> bool {
    let mut inside = false;
    let mut digits = 0;
    for byte in report {
        match *byte {
            b'(' => {
                inside = true;
                digits = 0;
            }
            b')' => {
                inside = false;
            }
            b'0'..=b'9' => if inside && digits < 20 {
                digits += 1;
            },
            _ => if inside {
                digits = 20;
            },
        }
    }
    0 < digits && digits < 20
}

#[test]
fn a_vector_is_the_witness(rt: HostRuntime) -> Result<(), Fail> {
    for (text, starts) in VECTORS {
        let got = outcome_of(rt.alloc(), &Case::ask(text))?;
        let report = got.bytes.as_slice();
        assert!(rt; report.starts_with(starts[0]) || report.starts_with(starts[1]));
        assert!(rt; names_a_vector(report));
        assert_eq!(rt; got.status, Status::Clean);
    }
    Ok(())
}

/// The types that each name is compared with, beside itself.
const OTHERS: [&str; 5] = ["t", "nil", "vector", "sequence", "string"];

/// Names, and whether each is included in each of these types.
const NAMES: [(&str, [bool; 5]); 11] = [
    ("array", [true, false, false, false, false]),
    ("simple-array", [true, false, false, false, false]),
    ("vector", [true, false, true, true, false]),
    ("simple-vector", [true, false, true, true, false]),
    ("bit-vector", [true, false, true, true, false]),
    ("simple-bit-vector", [true, false, true, true, false]),
    ("string", [true, false, true, true, true]),
    ("simple-string", [true, false, true, true, true]),
    ("base-string", [true, false, true, true, true]),
    ("simple-base-string", [true, false, true, true, true]),
    ("sequence", [true, false, false, true, false]),
];

/// Whether every object of the one type is said to belong to the other; None where neither this nor a witness is told.
fn inclusion_of(alloc: Global, name: &str, other: &str) -> Result<Option<bool>, AllocError> {
    let mut text = String::from_str(alloc, "(subtypep '")?;
    write!(text, "{name} '{other})")?;
    let got = outcome_of(alloc, &Case::ask(text.as_bytes()))?;
    let report = got.bytes.as_slice();
    Ok(if report == YES {
        Some(true)
    } else if report.starts_with(NO) {
        Some(false)
    } else {
        None
    })
}

#[test]
fn names_of_arrays_are_compared(rt: HostRuntime) -> Result<(), Fail> {
    for (name, wanted) in NAMES {
        assert_eq!(rt;
            inclusion_of(rt.alloc(), name, name)?,
            Some(true),
            "{name} in itself"
        );
        for (other, want) in OTHERS.iter().zip(wanted) {
            let found = inclusion_of(rt.alloc(), name, other)?;
            assert_eq!(rt; found, Some(want), "{name} in {other}");
        }
    }
    Ok(())
}

/// What a query is answered within a budget: its cost is the greater budget of each two.
const BUDGETS: [(&str, &[u8], &[u8]); 18] = [
    // 33 for the two vectors, 109 for (MOD 100) and 103 for (SIGNED-BYTE 8), which stands in the upgrading table
    (
        "244",
        b"(subtypep '(vector (mod 100)) '(vector (signed-byte 8)))",
        TOO_LARGE,
    ),
    (
        "245",
        b"(subtypep '(vector (mod 100)) '(vector (signed-byte 8)))",
        NO,
    ),
    // the same with another entry of the table
    (
        "244",
        b"(subtypep '(vector (mod 100)) '(vector (unsigned-byte 7)))",
        TOO_LARGE,
    ),
    (
        "245",
        b"(subtypep '(vector (mod 100)) '(vector (unsigned-byte 7)))",
        YES,
    ),
    // 20, 4 for arrays of one rank and of others, and 1
    ("24", b"(subtypep 'array 'vector)", TOO_LARGE),
    ("25", b"(subtypep 'array 'vector)", NO),
    // 20, 16 for arrays: simple and others, of four element codes, of one rank and of others; and 1
    ("36", b"(subtypep 'string 'simple-string)", TOO_LARGE),
    ("37", b"(subtypep 'string 'simple-string)", NO),
    // 20, 20 for arrays of five element codes, and 1; 103 for CHARACTER
    ("143", b"(subtypep 'string '(vector character))", TOO_LARGE),
    ("144", b"(subtypep 'string '(vector character))", NO),
    // 20, 12 for arrays of two element codes and three shapes, and 1; 103 for T
    (
        "135",
        b"(subtypep '(array t (2 *)) '(array t 2))",
        TOO_LARGE,
    ),
    ("136", b"(subtypep '(array t (2 *)) '(array t 2))", YES),
    // 20, 3 for NIL, 4 for arrays and 1; 23 for the list of T, the car and the cdr
    ("50", b"(subtypep 'sequence 'vector)", TOO_LARGE),
    ("51", b"(subtypep 'sequence 'vector)", NO),
    // 33 for the two vectors; 103 for BIT, 109 for the vectors of bits and 103 for T
    (
        "347",
        b"(subtypep '(vector t) '(vector (vector bit)))",
        TOO_LARGE,
    ),
    ("348", b"(subtypep '(vector t) '(vector (vector bit)))", YES),
    // 33 for the two vectors; 103 for NIL, and for the empty element type 20, 84 for 14 ranges, 2 for kinds, 16 for
    // arrays and 1
    (
        "258",
        b"(subtypep '(vector (and integer string)) '(vector nil))",
        TOO_LARGE,
    ),
    (
        "259",
        b"(subtypep '(vector (and integer string)) '(vector nil))",
        YES,
    ),
];

const TOO_LARGE: &[u8] = b"1:1 TOO-LARGE\n";

#[test]
fn element_types_are_paid_for(rt: HostRuntime) -> Result<(), Fail> {
    for (budget, text, start) in BUDGETS {
        let words = ["ask", "--budget", budget];
        let got = outcome_of(rt.alloc(), &Case::new(&words, text))?;
        assert!(rt; got.bytes.starts_with(start), "within {budget}");
    }
    Ok(())
}
