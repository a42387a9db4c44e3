ghost use Rattle.std.specs.Prelude.{◌≡◌, IfOk};

use crate::spec::{DimPattern, Point, Spec};
use ls_object::{Boxed, Items};
use std::alloc::{AllocError, Global};

impl Spec {
    /// An equal specifier, in time linear in its size.
    #[cycle(copy)]
    pub fn copy(&self, alloc: Global) -> Result<Spec, AllocError>
        ensures { IfOk result (λ s. s ≡ self.now) }
    {
        match self {
            Spec::All => Ok(Spec::All),
            Spec::Nothing => Ok(Spec::Nothing),
            Spec::And(parts) => Ok(Spec::And(copy_all(parts.as_slice(), alloc)?)),
            Spec::Or(parts) => Ok(Spec::Or(copy_all(parts.as_slice(), alloc)?)),
            Spec::Not(part) => Ok(Spec::Not(Boxed::new(alloc, part.get().copy(alloc)?)?)),
            Spec::Eql(point) => Ok(Spec::Eql(point.copy()?)),
            Spec::Range { kind, lo, hi } => Ok(Spec::Range {
                kind: *kind,
                lo: *lo,
                hi: *hi,
            }),
            Spec::Chars(class) => Ok(Spec::Chars(*class)),
            Spec::Symbols(class) => Ok(Spec::Symbols(*class)),
            Spec::Kind(kind) => Ok(Spec::Kind(*kind)),
            Spec::StructIs(name) => Ok(Spec::StructIs(name.copy()?)),
            Spec::StructAny => Ok(Spec::StructAny),
            Spec::ArrayOf { elem, simple, dims } => Ok(Spec::ArrayOf {
                elem: match elem {
                    None => None,
                    Some(elem) => Some(Boxed::new(alloc, elem.get().copy(alloc)?)?),
                },
                simple: *simple,
                dims: dims.copy(alloc)?,
            }),
            Spec::StringOf { simple, dim } => Ok(Spec::StringOf {
                simple: *simple,
                dim: *dim,
            }),
            Spec::ConsOf(car, cdr) => {
                let car = car.get().copy(alloc)?;
                let cdr = cdr.get().copy(alloc)?;
                Ok(Spec::ConsOf(Boxed::new(alloc, car)?, Boxed::new(alloc, cdr)?))
            }
            Spec::Satisfies(predicate) => Ok(Spec::Satisfies(predicate.copy()?)),
        }
    }
}

/// An equal list of specifiers.
#[cycle(copy)]
fn copy_all(specs: &[Spec], alloc: Global) -> Result<Items<Spec>, AllocError>
    ensures { IfOk result (λ copied. copied ≡ specs.now) }
{
    let mut copied = Items::new(alloc);
    for spec in specs {
        copied.push(spec.copy(alloc)?)?;
    }
    Ok(copied)
}

impl Point {
    /// An equal point.
    pub fn copy(&self) -> Result<Point, AllocError>
        ensures { IfOk result (λ p. p ≡ self.now) }
    {
        match self {
            Point::Number(r) => Ok(Point::Number(*r)),
            Point::Char(c) => Ok(Point::Char(*c)),
            Point::Sym(s) => Ok(Point::Sym(s.copy()?)),
        }
    }
}

impl DimPattern {
    /// An equal pattern.
    pub fn copy(&self, alloc: Global) -> Result<DimPattern, AllocError>
        ensures { IfOk result (λ d. d ≡ self.now) }
    {
        match self {
            DimPattern::Any => Ok(DimPattern::Any),
            DimPattern::Places(places) => Ok(DimPattern::Places(Items::from_slice(
                alloc,
                places.as_slice(),
            )?)),
        }
    }
}
