use crate::text_of;
use std::test::*;

/// The text of one number.
const ONE: &[u8] = b"(deftype g0 () '(cons (integer 0 0) (or null (cons (eql 0) t))))
(subtypep 'g0 '(cons integer list))
(subtypep 'g0 'g0)
";

/// The text of three numbers. Their partners are 3 % 3, 10 % 3 and 17 % 3.
const THREE: &[u8] = b"(deftype g0 () '(cons (integer 0 0) (or null (cons (eql 0) t))))
(subtypep 'g0 '(cons integer list))
(subtypep 'g0 'g0)
(deftype g1 () '(cons (integer 0 1) (or null (cons (eql 1) t))))
(subtypep 'g1 '(cons integer list))
(subtypep 'g1 'g1)
(deftype g2 () '(cons (integer 0 2) (or null (cons (eql 2) t))))
(subtypep 'g2 '(cons integer list))
(subtypep 'g2 'g2)
";

#[test]
fn texts_of_few_numbers(rt: HostRuntime) -> Result<(), Fail> {
    assert_eq!(rt; text_of(rt.alloc(), 1)?.as_slice(), ONE);
    assert_eq!(rt; text_of(rt.alloc(), 3)?.as_slice(), THREE);
    Ok(())
}

#[test]
fn the_last_of_five_numbers_has_another_partner(rt: HostRuntime) -> Result<(), Fail> {
    assert!(rt;
        text_of(rt.alloc(), 5)?
            .as_slice()
            .ends_with(b"(subtypep 'g4 'g1)\n")
    );
    Ok(())
}

/// How many lines end in a text.
fn line_count(text: &[u8]) -> usize {
    text.iter().filter(|byte| **byte == b'\n').count()
}

#[test]
fn each_number_has_three_lines(rt: HostRuntime) -> Result<(), Fail> {
    assert_eq!(rt; line_count(text_of(rt.alloc(), 4096)?.as_slice()), 12288);
    Ok(())
}
