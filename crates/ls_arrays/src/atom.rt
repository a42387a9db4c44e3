// What may be asked of an array.

ghost use Rattle.std.specs.Prelude.{◌≡◌};
ghost use Rattle.ls_object.specs.Meaning.{lisp_shape};
ghost use Rattle.ls_arrays.specs.steps.Alike.{is_array_in};

use ls_object::{Shape, TABLE_LEN};
use ls_spec::{DimPattern, are_dims_matched};
use ls_tables::TagSet;

/// What may be asked of an array: that its element code is one of a set, that it is simple, and that its dimensions
/// match a pattern. With `simple` only simple arrays are asked for.
#[derive(Drop)]
pub struct ArrayAtom {
    pub codes: TagSet<TABLE_LEN>,
    pub simple: bool,
    pub dims: DimPattern,
}

/// Whether an object of the shape is an array in the atom.
pub(crate) fn is_in(atom: &ArrayAtom, shape: &Shape) -> bool
    ensures { result ≡ is_array_in atom.now (lisp_shape shape.now) }
{
    let Shape::Array { elem, simple, dims } = shape else {
        return false;
    };
    atom.codes.has(usize::from(elem.index))
        && ((!atom.simple || *simple) && are_dims_matched(&atom.dims, dims))
}
