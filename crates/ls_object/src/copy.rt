ghost use Rattle.std.specs.Prelude.{◌≡◌, IfOk};

use crate::object::{Object, Shape};
use crate::symbol::Symbol;
use sqlite_items::{Boxed, Items};
use std::alloc::{AllocError, Global};

impl Object {
    /// An equal object.
    #[cycle(copy)]
    pub fn copy(&self, alloc: Global) -> Result<Object, AllocError>
        ensures { IfOk result (λ o. o ≡ self.now) }
    {
        Ok(Object {
            marks: copy_marks(alloc, self.marks.as_slice())?,
            shape: self.shape.copy(alloc)?,
        })
    }
}

impl Shape {
    /// An equal shape.
    #[cycle(copy)]
    pub fn copy(&self, alloc: Global) -> Result<Shape, AllocError>
        ensures { IfOk result (λ s. s ≡ self.now) }
    {
        match self {
            Shape::Number(r) => Ok(Shape::Number(*r)),
            Shape::Char(c) => Ok(Shape::Char(*c)),
            Shape::Sym(s) => Ok(Shape::Sym(s.copy()?)),
            Shape::Pair(car, cdr) => {
                let car = car.get().copy(alloc)?;
                let cdr = cdr.get().copy(alloc)?;
                Ok(Shape::Pair(Boxed::new(alloc, car)?, Boxed::new(alloc, cdr)?))
            }
            Shape::Array { elem, simple, dims } => Ok(Shape::Array {
                elem: *elem,
                simple: *simple,
                dims: dims.copy()?,
            }),
            Shape::Structure(s) => Ok(Shape::Structure(s.copy()?)),
            Shape::Opaque(k) => Ok(Shape::Opaque(*k)),
        }
    }
}

/// An equal list of marks.
fn copy_marks(alloc: Global, marks: &[Symbol]) -> Result<Items<Symbol>, AllocError>
    ensures { IfOk result (λ copied. copied ≡ marks.now) }
{
    let mut copied = Items::new(alloc);
    for mark in marks {
        copied.push(mark.copy()?)?;
    }
    Ok(copied)
}
