use super::*;
use ls_reader::{Datum, Form, read_text};
use std::test::*;

/// What the second form of a text becomes by the DEFTYPE that is the first, with room for 12 data: the size of the
/// result, or 100 to 103 where there is none; None where the text is not read or memory is wanting.
fn outcome(rt: &HostRuntime, text: &str) -> Option<u64> {
    if text.len() > 1000 {
        return None;
    }
    let forms = read_text(rt.alloc(), text.as_bytes()).ok()?;
    let [definition, place] = forms.as_slice() else {
        return None;
    };
    match Template::of(rt.alloc(), definition) {
        Ok(template) => used(rt, &template, place),
        Err(TemplateFault::CodeBody) => Some(100),
        Err(TemplateFault::BadLambdaList) => Some(101),
        Err(TemplateFault::Memory) => None,
    }
}

fn used(rt: &HostRuntime, template: &Template, place: &Datum) -> Option<u64> {
    let Form::List(items) = &place.form else {
        return None;
    };
    let [_, args @ ..] = items.as_slice() else {
        return None;
    };
    match template.substitute(rt.alloc(), place.span, args, 12) {
        Ok(datum) => Some(datum.size()),
        Err(SubstituteFault::ArgumentCount) => Some(102),
        Err(SubstituteFault::TooManyNodes) => Some(103),
        Err(SubstituteFault::Memory) => None,
    }
}

const OUTCOMES: [(&str, u64); 22] = [
    ("(deftype a () 'b) (a)", 1),
    ("(deftype a () (quote (b c))) (a)", 3),
    ("(deftype a () \"doc\" (declare) t) (a)", 1),
    ("(deftype a () (b)) (a)", 100),
    ("(deftype a x (b)) (a)", 100),
    ("(deftype a () 'b 'c) (a)", 100),
    ("(deftype a x 'b) (a)", 101),
    ("(deftype a (x x) 'b) (a)", 101),
    ("(deftype a (&key x) 'b) (a)", 101),
    ("(deftype a (&optional (x 1.5)) 'b) (a)", 101),
    ("(deftype a (x) '(b ,x)) (a 1)", 100),
    ("(deftype a (x) `(b ,@x)) (a 1)", 100),
    ("(deftype a (x) `#(,x)) (a 1)", 100),
    ("(deftype a (x) `(b `c)) (a 1)", 100),
    ("(deftype a (x) `(b . ,x)) (a 1)", 100),
    ("(deftype a (x) `(,x ,x)) (a (1 2))", 7),
    ("(deftype a (x) `(,x)) (a)", 102),
    ("(deftype a (x) `(,x)) (a 1 2)", 102),
    ("(deftype a (&optional (x '(1 2)) y) `(,x ,y)) (a)", 5),
    ("(deftype a (&rest xs) `(b ,@xs . ,xs)) (a 1 2)", 100),
    ("(deftype a (&rest xs) `(,@xs)) (a)", 1),
    ("(deftype a (&body xs) `(,xs ,xs . ,xs)) (a 1 (2 3))", 103),
];

#[test]
fn outcomes(rt: HostRuntime) -> Result<(), Fail> {
    for (text, want) in OUTCOMES {
        let found = outcome(&rt, text).ok_or("there is an outcome")?;
        assert_eq!(rt; found, want, "at {text:?}");
    }
    Ok(())
}
