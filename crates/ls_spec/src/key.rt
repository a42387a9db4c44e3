// The keys of specifiers, by which equal ones are found.

ghost use Rattle.std.specs.Prelude.{◌≡◌, ◌++◌, [], ◌∷◌, IfOk, OnOk};
ghost use Rattle.ls_spec.specs.Meaning.{specifier, specifiers};
ghost use Rattle.ls_spec.specs.Keys.{bool_number, rat_key, text_key, symbol_key, point_key, bound_key, range_kind_number, char_class_number, symbol_class_number, place_key, places_key, dimensions_key, key, keys};

use crate::membership::kind_number;
use crate::spec::{Bound, CharClass, DimPattern, Point, RangeKind, Spec, SymClass};
use ls_object::{Rat, Symbol, Text};
use std::alloc::{AllocError, Global};

/// The key of a specifier: numbers that no other specifier has, in time linear in its size.
pub fn key_of(alloc: Global, spec: &Spec) -> Result<Vec<u128>, AllocError>
    ensures { IfOk result (λ k. k.items ≡ key (specifier spec.now)) }
{
    let mut out = Vec::new(alloc);
    push_key(spec, &mut out)?;
    Ok(out)
}

/// The key of a symbol: numbers that no other symbol has.
pub fn key_of_name(alloc: Global, name: &Symbol) -> Result<Vec<u128>, AllocError>
    ensures { IfOk result (λ k. k.items ≡ symbol_key name.now) }
{
    let mut out = Vec::new(alloc);
    push_symbol(name, &mut out)?;
    Ok(out)
}

/// Appends the key of a specifier. Each variant begins with a number of its own.
#[cycle(keys)]
fn push_key(spec: &Spec, out: &mut Vec<u128>) -> Result<(), AllocError>
    ensures { OnOk result (out.new.items ≡ out.old.items ++ key (specifier spec.now)) }
{
    match spec {
        Spec::All => push_number(0, out),
        Spec::Nothing => push_number(1, out),
        Spec::And(parts) => {
            push_number(2, out)?;
            push_keys(parts.as_slice(), out)
        }
        Spec::Or(parts) => {
            push_number(3, out)?;
            push_keys(parts.as_slice(), out)
        }
        Spec::Not(part) => {
            push_number(4, out)?;
            push_key(part.get(), out)
        }
        Spec::Eql(point) => {
            push_number(5, out)?;
            push_point(point, out)
        }
        Spec::Range { kind, lo, hi } => {
            push_number(6, out)?;
            push_number(range_kind_number(*kind), out)?;
            push_bound(*lo, out)?;
            push_bound(*hi, out)
        }
        Spec::Chars(class) => {
            push_number(7, out)?;
            push_number(char_class_number(*class), out)
        }
        Spec::Symbols(class) => {
            push_number(8, out)?;
            push_number(symbol_class_number(*class), out)
        }
        Spec::Kind(kind) => {
            push_number(9, out)?;
            push_number(u128::from(kind_number(*kind)), out)
        }
        Spec::StructIs(name) => {
            push_number(10, out)?;
            push_symbol(name, out)
        }
        Spec::StructAny => push_number(11, out),
        Spec::ArrayOf { elem, simple, dims } => match elem {
            None => {
                push_number(12, out)?;
                push_bool(*simple, out)?;
                push_dimensions(dims, out)
            }
            Some(elem) => {
                push_number(13, out)?;
                push_bool(*simple, out)?;
                push_dimensions(dims, out)?;
                push_key(elem.get(), out)
            }
        },
        Spec::StringOf { simple, dim } => {
            push_number(14, out)?;
            push_bool(*simple, out)?;
            push_place(*dim, out)
        }
        Spec::ConsOf(car, cdr) => {
            push_number(15, out)?;
            push_key(car.get(), out)?;
            push_key(cdr.get(), out)
        }
        Spec::Satisfies(predicate) => {
            push_number(16, out)?;
            push_symbol(predicate, out)
        }
    }
}

/// Appends the keys of a list of specifiers, a 1 before each and a 0 behind the last.
#[cycle(keys)]
fn push_keys(specs: &[Spec], out: &mut Vec<u128>) -> Result<(), AllocError>
    ensures { OnOk result (out.new.items ≡ out.old.items ++ keys (specifiers specs.now)) }
{
    for spec in specs {
        push_number(1, out)?;
        push_key(spec, out)?;
    }
    push_number(0, out)
}

fn push_number(n: u128, out: &mut Vec<u128>) -> Result<(), AllocError>
    ensures { OnOk result (out.new.items ≡ out.old.items ++ n ∷ []) }
{
    out.push(n)?;
    Ok(())
}

fn push_bool(b: bool, out: &mut Vec<u128>) -> Result<(), AllocError>
    ensures { OnOk result (out.new.items ≡ out.old.items ++ bool_number b ∷ []) }
{
    push_number(if b { 1 } else { 0 }, out)
}

fn push_rat(r: &Rat, out: &mut Vec<u128>) -> Result<(), AllocError>
    ensures { OnOk result (out.new.items ≡ out.old.items ++ rat_key r.now) }
{
    push_bool(r.num < 0, out)?;
    push_number(r.num.unsigned_abs(), out)?;
    push_number(r.den, out)
}

/// Appends the length of a text in bytes, and its bytes.
fn push_text(text: &Text, out: &mut Vec<u128>) -> Result<(), AllocError>
    ensures { OnOk result (out.new.items ≡ out.old.items ++ text_key text.now) }
{
    let bytes = text.as_bytes();
    push_number(bytes.len() as u128, out)?;
    push_bytes(bytes, out)
}

fn push_bytes(bytes: &[u8], out: &mut Vec<u128>) -> Result<(), AllocError>
    ensures { OnOk result (out.new.items ≡ out.old.items ++ bytes.now) }
{
    for byte in bytes {
        push_number(u128::from(*byte), out)?;
    }
    Ok(())
}

fn push_symbol(s: &Symbol, out: &mut Vec<u128>) -> Result<(), AllocError>
    ensures { OnOk result (out.new.items ≡ out.old.items ++ symbol_key s.now) }
{
    push_text(&s.package, out)?;
    push_text(&s.name, out)
}

fn push_point(point: &Point, out: &mut Vec<u128>) -> Result<(), AllocError>
    ensures { OnOk result (out.new.items ≡ out.old.items ++ point_key point.now) }
{
    match point {
        Point::Number(r) => {
            push_number(0, out)?;
            push_rat(r, out)
        }
        Point::Char(c) => {
            push_number(1, out)?;
            push_number(u128::from(*c as u32), out)
        }
        Point::Sym(s) => {
            push_number(2, out)?;
            push_symbol(s, out)
        }
    }
}

fn push_bound(bound: Bound, out: &mut Vec<u128>) -> Result<(), AllocError>
    ensures { OnOk result (out.new.items ≡ out.old.items ++ bound_key bound) }
{
    match bound {
        Bound::Free => push_number(0, out),
        Bound::Incl(r) => {
            push_number(1, out)?;
            push_rat(&r, out)
        }
        Bound::Excl(r) => {
            push_number(2, out)?;
            push_rat(&r, out)
        }
    }
}

fn range_kind_number(kind: RangeKind) -> u128
    ensures { result ≡ range_kind_number kind }
{
    match kind {
        RangeKind::Integer => 0,
        RangeKind::Rational => 1,
    }
}

fn char_class_number(class: CharClass) -> u128
    ensures { result ≡ char_class_number class }
{
    match class {
        CharClass::Any => 0,
        CharClass::Base => 1,
        CharClass::Standard => 2,
    }
}

fn symbol_class_number(class: SymClass) -> u128
    ensures { result ≡ symbol_class_number class }
{
    match class {
        SymClass::Any => 0,
        SymClass::Keyword => 1,
    }
}

fn push_place(place: Option<u64>, out: &mut Vec<u128>) -> Result<(), AllocError>
    ensures { OnOk result (out.new.items ≡ out.old.items ++ place_key place) }
{
    match place {
        None => push_number(0, out),
        Some(n) => {
            push_number(1, out)?;
            push_number(u128::from(n), out)
        }
    }
}

/// Appends the places of a pattern, a 1 before each and a 0 behind the last.
fn push_places(places: &[Option<u64>], out: &mut Vec<u128>) -> Result<(), AllocError>
    ensures { OnOk result (out.new.items ≡ out.old.items ++ places_key places.now) }
{
    for place in places {
        push_number(1, out)?;
        push_place(*place, out)?;
    }
    push_number(0, out)
}

fn push_dimensions(dims: &DimPattern, out: &mut Vec<u128>) -> Result<(), AllocError>
    ensures { OnOk result (out.new.items ≡ out.old.items ++ dimensions_key dims.now) }
{
    match dims {
        DimPattern::Any => push_number(0, out),
        DimPattern::Places(places) => {
            push_number(1, out)?;
            push_places(places.as_slice(), out)
        }
    }
}
