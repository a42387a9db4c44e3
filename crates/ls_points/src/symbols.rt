// The symbols.

ghost use Rattle.std.specs.Prelude.{◌≡◌, ◌+◌, ◌++◌, [], ◌∷◌, map, length, max, encode_utf8_all, IfOk, OnOk};
ghost use Rattle.std.specs.List.{AllByRecursion};
ghost use Rattle.ls_object.specs.Universe.{node, symbol, IsName};
ghost use Rattle.ls_object.specs.Meaning.{lisp_object};
ghost use Rattle.ls_spec.specs.Meaning.{specifier};
ghost use Rattle.ls_points.specs.Classes.{IsSymbol};
ghost use Rattle.ls_points.specs.Members as members;
ghost use Rattle.ls_points.specs.steps.Symbols.{named_symbol, named_symbols, longest, name_past, keyword_past, symbol_past};

use crate::object::push_unmarked;
use ls_object::{Items, Object, Shape, Symbol, Text};
use ls_spec::{Point, Regions, Spec, belongs_unmarked};
use std::alloc::{AllocError, Global};

/// The symbols.
pub struct SymbolRegions;

impl Regions for SymbolRegions {
    type Atom = Spec;

    ghost IsOver = { λ _ structures. members.IsOverEvery structures };

    ghost IsOfClass = { λ _ o. IsSymbol o };

    ghost IsFit = { λ _ a. members.IsFit a };

    ghost IsIn = { members.IsIn };

    ghost limit = { members.symbol_limit };

    fn covers(&self, object: &Object) -> bool {
        match object.shape {
            Shape::Sym(_) => true,
            _ => false,
        }
    }

    fn holds(&self, atom: &Spec, object: &Object) -> bool {
        belongs_unmarked(atom, &object.shape)
    }

    /// The symbols that atoms name, and a keyword and another symbol with a name longer than all of theirs.
    fn reps(&self, alloc: Global, atoms: &Items<Spec>) -> Result<Items<Object>, AllocError> {
        let mut out = Items::new(alloc);
        push_named(alloc, atoms.as_slice(), &mut out)?;
        let longest = longest_name(atoms.as_slice());
        push_symbol(alloc, keyword_past(alloc, longest)?, &mut out)?;
        push_symbol(alloc, symbol_past(alloc, longest)?, &mut out)?;
        Ok(out)
    }
}

/// Appends the symbols that the atoms name, as objects.
fn push_named(alloc: Global, atoms: &[Spec], out: &mut Items<Object>) -> Result<(), AllocError>
    ensures objects { OnOk result (map lisp_object out.new ≡ map lisp_object out.old ++ map (λ s. node [] (symbol s)) (named_symbols atoms.now)) }
    ensures names { OnOk result (AllByRecursion IsName (named_symbols atoms.now)) }
{
    for atom in atoms {
        push_named_by(alloc, atom, out)?;
    }
    Ok(())
}

/// Appends the symbol that an atom names, if it names one.
fn push_named_by(alloc: Global, atom: &Spec, out: &mut Items<Object>) -> Result<(), AllocError>
    ensures objects { OnOk result (map lisp_object out.new ≡ map lisp_object out.old ++ map (λ s. node [] (symbol s)) (named_symbol (specifier atom.now))) }
    ensures names { OnOk result (AllByRecursion IsName (named_symbol (specifier atom.now))) }
{
    if let Spec::Eql(Point::Sym(s)) = atom {
        read_name(s);
        push_symbol(alloc, s.copy()?, out)?;
    }
    Ok(())
}

/// Appends the symbol, as an object.
fn push_symbol(alloc: Global, s: Symbol, out: &mut Items<Object>) -> Result<(), AllocError>
    ensures { OnOk result (map lisp_object out.new ≡ map lisp_object out.old ++ node [] (symbol s) ∷ []) }
{
    push_unmarked(alloc, Shape::Sym(s), out)
}

/// Reads a symbol, of which it is then known that its characters are Unicode scalar values.
pub(crate) fn read_name(s: &Symbol)
    ensures { IsName s.now }
{
    let _home = s.package.as_str();
    let _name = s.name.as_str();
}

/// The length in bytes of the longest name of a symbol that an atom names, or 0.
fn longest_name(atoms: &[Spec]) -> usize
    ensures { result ≡ longest (named_symbols atoms.now) }
{
    let mut longest = 0;
    for atom in atoms {
        longest = longer(longest, name_len(atom));
    }
    longest
}

/// The greater of the two.
fn longer(a: usize, b: usize) -> usize
    ensures { result ≡ max a b }
{
    if a < b { b } else { a }
}

/// The length in bytes of the name of the symbol that an atom names, or 0 where it names none.
fn name_len(atom: &Spec) -> usize
    ensures { result ≡ longest (named_symbol (specifier atom.now)) }
{
    match atom {
        Spec::Eql(Point::Sym(s)) => byte_len(&s.name),
        _ => 0,
    }
}

/// The length in bytes.
fn byte_len(text: &Text) -> usize
    ensures { result ≡ length (encode_utf8_all text.now) }
{
    text.as_bytes().len()
}

/// A name of that many letters, and one more.
fn name_past(alloc: Global, len: usize) -> Result<Text, AllocError>
    ensures { IfOk result (λ t. t ≡ name_past len) }
{
    let mut name = Text::of_ascii(alloc, "")?;
    for _ in 0..len {
        name.push('A')?;
    }
    name.push('A')?;
    Ok(name)
}

/// A keyword with such a name.
fn keyword_past(alloc: Global, len: usize) -> Result<Symbol, AllocError>
    ensures { IfOk result (λ s. s ≡ keyword_past len) }
{
    Ok(Symbol {
        package: Text::of_ascii(alloc, "KEYWORD")?,
        name: name_past(alloc, len)?,
    })
}

/// A symbol of the package COMMON-LISP with such a name.
fn symbol_past(alloc: Global, len: usize) -> Result<Symbol, AllocError>
    ensures { IfOk result (λ s. s ≡ symbol_past len) }
{
    let name = name_past(alloc, len)?;
    Symbol::of_common_lisp(alloc, name)
}
