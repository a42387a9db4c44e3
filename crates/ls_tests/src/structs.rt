// Structure definitions: what each form says, and what the forms of a text make of their names, one after another.

use crate::texts::data_of;
use ls_object::{Items, Symbol};
use ls_reader::{Datum, Form};
use ls_structs::*;
use std::alloc::Global;
use std::test::*;

#[test]
fn an_empty_tree_is_copied(rt: HostRuntime) -> Result<(), Fail> {
    let tree = Tree::new(rt.alloc());
    assert_eq!(rt; tree.parents().as_slice().len(), 0);
    assert_eq!(rt; tree.copy()?.parents().as_slice().len(), 0);
    Ok(())
}

/// Writes why a form is no definition.
fn push_form_fault(out: &mut String, fault: StructFault) -> Option<()> {
    let text = match fault {
        StructFault::NoName => "no-name ",
        StructFault::BadOption => "bad-option ",
        StructFault::Memory => return None,
    };
    out.push_str(text).ok()
}

/// Writes why a definition is refused.
fn push_tree_fault(out: &mut String, fault: TreeFault) -> Option<()> {
    let text = match fault {
        TreeFault::Reserved => "reserved ",
        TreeFault::Twice => "twice ",
        TreeFault::UnknownInclude => "unknown-include ",
        TreeFault::IncludeOfTyped => "include-of-typed ",
        TreeFault::Memory => return None,
    };
    out.push_str(text).ok()
}

/// Writes what a form says: `name`, `name<included` or either with `:type` behind it.
fn push_form(out: &mut String, form: &StructForm) -> Option<()> {
    out.push_str(form.name.name.as_str()).ok()?;
    if let Some(include) = &form.include {
        write!(out, "<{}", include.name.as_str()).ok()?;
    }
    out.push_str(if form.typed { ":type " } else { " " }).ok()
}

/// Adds what a form defines to the tree, and writes it, or why it isn't added.
fn add(alloc: Global, tree: &mut Tree, datum: &Datum, out: &mut String) -> Option<()> {
    match StructForm::of(alloc, datum) {
        Err(fault) => push_form_fault(out, fault),
        Ok(form) => match tree.add(&form) {
            Ok(()) => push_form(out, &form),
            Err(fault) => push_tree_fault(out, fault),
        },
    }
}

/// The tree of the forms of a text, with what each of them says, or why it is refused.
fn tree_of(alloc: Global, text: &str) -> Option<(Tree, String)> {
    let forms = data_of(alloc, text)?;
    let mut tree = Tree::new(alloc);
    let mut out = String::new(alloc);
    for form in forms.as_slice() {
        add(alloc, &mut tree, form, &mut out)?;
    }
    Some((tree, out))
}

/// What the forms of a text say, or why they are refused.
fn said(alloc: Global, text: &str) -> Option<String> {
    let (_, out) = tree_of(alloc, text)?;
    Some(out)
}

/// Forms, each alone, and what they say.
const FORMS: [(&str, &str); 29] = [
    ("(defstruct a)", "A "),
    ("(defstruct a \"text\" x (y 0))", "A "),
    ("(defstruct (a) x)", "A "),
    ("(defstruct p::a) (defstruct :a)", "A A "),
    ("(defstruct)", "no-name "),
    ("(defstruct \"a\")", "no-name "),
    ("(defstruct 1 a)", "no-name "),
    ("(defstruct (\"a\" :include))", "no-name "),
    ("(defstruct ((a)))", "no-name "),
    ("(defstruct (a . b))", "no-name "),
    (
        "(defstruct (a :conc-name :constructor :copier :predicate))",
        "A ",
    ),
    (
        "(defstruct (a :named :print-function :print-object :initial-offset))",
        "A ",
    ),
    (
        "(defstruct (a (:conc-name nil) (:constructor new (x)) (:constructor)))",
        "A ",
    ),
    (
        "(defstruct (a (:copier nil) (:predicate) (:print-function f)))",
        "A ",
    ),
    (
        "(defstruct (a (:print-object f) (:initial-offset 2) (:named)))",
        "A ",
    ),
    ("(defstruct (a (:type list)))", "A:type "),
    ("(defstruct (a :type))", "A:type "),
    (
        "(defstruct (a (:type vector) :named (:include b)))",
        "A<B:type ",
    ),
    ("(defstruct (a :colour))", "bad-option "),
    ("(defstruct (a (:colour red)))", "bad-option "),
    ("(defstruct (a conc-name))", "bad-option "),
    ("(defstruct (a (include b)))", "bad-option "),
    ("(defstruct (a (p::include b)))", "bad-option "),
    ("(defstruct (a \"text\"))", "bad-option "),
    ("(defstruct (a ()))", "bad-option "),
    ("(defstruct (a :include))", "bad-option "),
    ("(defstruct (a (:include)) x)", "bad-option "),
    ("(defstruct (a (:include (b))))", "bad-option "),
    (
        "(defstruct (a (:include b) (:conc-name c-) (:include b)))",
        "bad-option ",
    ),
];

#[test]
fn forms_of_each_kind(rt: HostRuntime) -> Result<(), Fail> {
    for (text, want) in FORMS {
        let found = said(rt.alloc(), text).ok_or("the text is read")?;
        assert_eq!(rt; found.as_str(), want, "at {text:?}");
    }
    Ok(())
}

/// Forms of a file, and what becomes of each.
const FILES: [(&str, &str); 10] = [
    (
        "(defstruct p) (defstruct (a (:include p x))) (defstruct (b (:include a)))",
        "P A<P B<A ",
    ),
    (
        "(defstruct p) (defstruct (a (:include p))) (defstruct (b (:include p)))",
        "P A<P B<P ",
    ),
    (
        "(defstruct (a (:include b))) (defstruct b)",
        "unknown-include B ",
    ),
    ("(defstruct (a (:include a)))", "unknown-include "),
    (
        "(defstruct (a (:include b))) (defstruct (b (:include a)))",
        "unknown-include unknown-include ",
    ),
    (
        "(defstruct (r (:type list))) (defstruct (a (:include r)))",
        "R:type include-of-typed ",
    ),
    (
        "(defstruct (r (:type list) (:include q))) (defstruct (s (:type list) (:include r)))",
        "R<Q:type S<R:type ",
    ),
    (
        "(defstruct a) (defstruct (a (:include a))) (defstruct (a (:include q)))",
        "A twice twice ",
    ),
    (
        "(defstruct (r (:type list))) (defstruct r) (defstruct p::r)",
        "R:type twice R ",
    ),
    (
        "(defstruct cons) (defstruct (t (:include q))) (defstruct p::cons) (defstruct (a (:include cons)))",
        "reserved reserved CONS unknown-include ",
    ),
];

#[test]
fn files_of_definitions(rt: HostRuntime) -> Result<(), Fail> {
    for (text, want) in FILES {
        let found = said(rt.alloc(), text).ok_or("the text is read")?;
        assert_eq!(rt; found.as_str(), want, "at {text:?}");
    }
    Ok(())
}

/// Writes the name of what the structure type of each name includes, or a dash.
fn push_parents(tree: &Tree, names: &Items<Datum>, out: &mut String) -> Option<()> {
    for name in names.as_slice() {
        let Form::Symbol(symbol) = &name.form else {
            return None;
        };
        match tree.parent(symbol) {
            Some(include) => write!(out, "{} ", include.name.as_str()).ok()?,
            None => out.push_str("- ").ok()?,
        }
    }
    Some(())
}

/// The structure types of a text's definitions, a bar, and what each of these names includes.
fn inclusions(alloc: Global, text: &str, names: &str) -> Option<String> {
    let (tree, _) = tree_of(alloc, text)?;
    let copied = tree.copy().ok()?;
    let mut out = String::new(alloc);
    for (name, _) in copied.parents().as_slice() {
        write!(out, "{} ", name.name.as_str()).ok()?;
    }
    out.push_str("| ").ok()?;
    push_parents(&copied, &data_of(alloc, names)?, &mut out)?;
    Some(out)
}

/// Structure types and typed structures; the last includes one of these, and is refused.
const MIXED: &str = "
    (defstruct p)
    (defstruct (r (:type list) (:include p)))
    (defstruct (a (:include p)))
    (defstruct (b (:include a) (:type vector)))
    (defstruct (c (:include a)))
    (defstruct (d (:include b)))
";

#[test]
fn inclusions_of_a_copied_tree(rt: HostRuntime) -> Result<(), Fail> {
    let found = inclusions(rt.alloc(), MIXED, "p r a b c d e p::a").ok_or("the text is read")?;
    assert_eq!(rt; found.as_str(), "P A C | - - P - A - - - ");
    Ok(())
}

/// A chain of so many definitions, and as many that include nothing.
fn many(alloc: Global, count: u32) -> Option<String> {
    let mut text = String::new(alloc);
    text.push_str("(defstruct c0)").ok()?;
    for i in 1..count {
        let before = i - 1;
        write!(text, "(defstruct (c{i} (:include c{before})))").ok()?;
    }
    for i in 0..count {
        write!(text, "(defstruct f{i})").ok()?;
    }
    Some(text)
}

#[test]
fn twenty_thousand_definitions(rt: HostRuntime) -> Result<(), Fail> {
    let alloc = rt.alloc();
    let text = many(alloc, 10_000).ok_or("there is memory")?;
    let (tree, _) = tree_of(alloc, text.as_str()).ok_or("the text is read")?;
    assert_eq!(rt; tree.parents().as_slice().len(), 20_000);
    let found = inclusions(
        alloc,
        "(defstruct c0)(defstruct (c1 (:include c0)))",
        "c1 c0",
    );
    assert_eq!(rt; found.ok_or("the text is read")?.as_str(), "C0 C1 | C0 - ");
    Ok(())
}
