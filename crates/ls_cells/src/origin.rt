ghost use Rattle.std.specs.Prelude.{◌≡◌, [], IfOk};
ghost use Rattle.ls_object.specs.Universe.{node, pair, IsPlain};
ghost use Rattle.ls_object.specs.Meaning.{lisp_object};
ghost use Rattle.ls_cells.specs.Rows.{origin_object};

use ls_object::{Boxed, Items, Object, Shape};
use std::alloc::{AllocError, Global};
use std::rc::Rc;

/// What an object is made of. Origins are shared, so that the rows of conses copy no object.
#[derive(Drop)]
pub enum Origin {
    /// The object itself.
    Plain(Object),
    /// A cons of what the car and the cdr are made of.
    Pair(Rc<Origin>, Rc<Origin>),
}

impl Origin {
    /// What is made of an object: the object itself. An error comes for want of memory.
    pub fn of_object(alloc: Global, object: Object) -> Result<Rc<Origin>, AllocError>
        ensures { IfOk result (λ r. origin_object r.value ≡ lisp_object object) }
    {
        Ok(Rc::new(alloc, Origin::Plain(object))?)
    }

    /// A cons of what is made of the two, which are shared; without marks where they are. An error comes for want of
    /// memory.
    pub fn of_pair(
        alloc: Global,
        car: &Rc<Origin>,
        cdr: &Rc<Origin>,
    ) -> Result<Rc<Origin>, AllocError>
        ensures cons { IfOk result
            (λ r. origin_object r.value ≡ node [] (pair (origin_object car.now.value) (origin_object cdr.now.value))) }
        ensures plain { IsPlain (origin_object car.now.value)
            → IsPlain (origin_object cdr.now.value)
            → IfOk result (λ r. IsPlain (origin_object r.value)) }
    {
        Ok(Rc::new(alloc, Origin::Pair(car.clone()?, cdr.clone()?))?)
    }

    /// The object that is made of this: a cons has no marks of its own. An error comes for want of memory.
    pub fn object(&self, alloc: Global) -> Result<Object, AllocError>
        ensures { IfOk result (λ o. lisp_object o ≡ origin_object self.now) }
    {
        match self {
            Origin::Plain(object) => object.copy(alloc),
            Origin::Pair(car, cdr) => {
                let car = car.object(alloc)?;
                let cdr = cdr.object(alloc)?;
                Ok(Object {
                    marks: Items::new(alloc),
                    shape: Shape::Pair(Boxed::new(alloc, car)?, Boxed::new(alloc, cdr)?),
                })
            }
        }
    }
}
