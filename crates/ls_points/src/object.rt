ghost use Rattle.std.specs.Prelude.{◌≡◌, [], ◌∷◌, ◌++◌, map, OnOk};
ghost use Rattle.ls_object.specs.Universe.{node};
ghost use Rattle.ls_object.specs.Meaning.{lisp_object, lisp_shape};

use ls_object::{Items, Object, Shape};
use std::alloc::{AllocError, Global};

/// The object of that shape that has no marks.
fn unmarked(alloc: Global, shape: Shape) -> Object
    ensures { lisp_object result ≡ node [] (lisp_shape shape) }
{
    Object {
        marks: Items::new(alloc),
        shape,
    }
}

/// Appends the object of that shape that has no marks.
pub(crate) fn push_unmarked(
    alloc: Global,
    shape: Shape,
    out: &mut Items<Object>,
) -> Result<(), AllocError>
    ensures { OnOk result (map lisp_object out.new ≡ map lisp_object out.old ++ node [] (lisp_shape shape) ∷ []) }
{
    out.push(unmarked(alloc, shape))
}
