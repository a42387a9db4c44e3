//! Specifiers as texts.

use ls_object::Rat;
use ls_spec::{Bound, DimPattern, Point, RangeKind, Spec};
use std::alloc::AllocError;

fn write_rat(out: &mut String, number: &Rat) -> Result<(), AllocError> {
    write!(out, "{}", number.num)?;
    if number.den != 1 {
        write!(out, "/{}", number.den)?;
    }
    Ok(())
}

fn write_bound(out: &mut String, bound: &Bound) -> Result<(), AllocError> {
    match bound {
        Bound::Free => out.push_str("*"),
        Bound::Incl(number) => write_rat(out, number),
        Bound::Excl(number) => {
            out.push_str("<")?;
            write_rat(out, number)
        }
    }
}

fn write_range(
    out: &mut String,
    kind: RangeKind,
    lo: &Bound,
    hi: &Bound,
) -> Result<(), AllocError> {
    out.push_str(match kind {
        RangeKind::Integer => "integer:",
        RangeKind::Rational => "rational:",
    })?;
    write_bound(out, lo)?;
    out.push_str("..")?;
    write_bound(out, hi)
}

fn write_point(out: &mut String, point: &Point) -> Result<(), AllocError> {
    match point {
        Point::Number(number) => write_rat(out, number),
        Point::Char(c) => write!(out, "char {}", *c as u32),
        Point::Sym(symbol) => out.push_str(symbol.name.as_str()),
    }
}

fn write_place(out: &mut String, place: Option<u64>) -> Result<(), AllocError> {
    match place {
        None => out.push_str(" *"),
        Some(n) => write!(out, " {n}"),
    }
}

fn write_dims(out: &mut String, dims: &DimPattern) -> Result<(), AllocError> {
    match dims {
        DimPattern::Any => out.push_str(" any"),
        DimPattern::Places(places) => {
            for place in places.as_slice() {
                write_place(out, *place)?;
            }
            Ok(())
        }
    }
}

/// `(array` and the like.
fn write_head(out: &mut String, simple: bool, name: &str) -> Result<(), AllocError> {
    out.push_str(if simple { "(simple " } else { "(" })?;
    out.push_str(name)
}

#[cycle(write)]
fn write_all(out: &mut String, parts: &[Spec]) -> Result<(), AllocError> {
    for part in parts {
        out.push_str(" ")?;
        write_spec(out, part)?;
    }
    out.push_str(")")
}

#[cycle(write)]
fn write_part(out: &mut String, part: &Spec) -> Result<(), AllocError> {
    out.push_str(" ")?;
    write_spec(out, part)
}

/// Writes a specifier: parts stand in brackets, and an exclusive bound behind `<`.
#[cycle(write)]
pub(crate) fn write_spec(out: &mut String, spec: &Spec) -> Result<(), AllocError> {
    match spec {
        Spec::All => out.push_str("all"),
        Spec::Nothing => out.push_str("nothing"),
        Spec::And(parts) => {
            out.push_str("(and")?;
            write_all(out, parts.as_slice())
        }
        Spec::Or(parts) => {
            out.push_str("(or")?;
            write_all(out, parts.as_slice())
        }
        Spec::Not(part) => {
            out.push_str("not ")?;
            write_spec(out, part.get())
        }
        Spec::Eql(point) => write_point(out, point),
        Spec::Range { kind, lo, hi } => write_range(out, *kind, lo, hi),
        Spec::Chars(class) => write!(out, "{class:?}-chars"),
        Spec::Symbols(class) => write!(out, "{class:?}-symbols"),
        Spec::Kind(kind) => write!(out, "{kind:?}"),
        Spec::StructIs(name) => out.push_str(name.name.as_str()),
        Spec::StructAny => out.push_str("structures"),
        Spec::ArrayOf { elem, simple, dims } => {
            write_head(out, *simple, "array")?;
            match elem {
                None => out.push_str(" *")?,
                Some(part) => write_part(out, part.get())?,
            }
            write_dims(out, dims)?;
            out.push_str(")")
        }
        Spec::StringOf { simple, dim } => {
            write_head(out, *simple, "string")?;
            write_place(out, *dim)?;
            out.push_str(")")
        }
        Spec::ConsOf(car, cdr) => {
            out.push_str("(cons")?;
            write_part(out, car.get())?;
            write_part(out, cdr.get())?;
            out.push_str(")")
        }
        Spec::Satisfies(name) => write!(out, "satisfying {}", name.name.as_str()),
    }
}
