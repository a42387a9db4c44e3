// The keys of nodes, by which equal ones are found.

ghost use Rattle.std.specs.Prelude.{◌≡◌, ◌∷◌, IfOk};
ghost use Rattle.ls_spec.specs.Specifier.{array_any};
ghost use Rattle.ls_spec.specs.Keys.{key};

use crate::node::Id;
use ls_spec::{DimPattern, Spec, key_of};
use std::alloc::{AllocError, Global};

/// The key of a node of which the parts are all: the number of the variant, and those of the parts.
pub fn key_of_parts(alloc: Global, variant: u128, ids: &[Id]) -> Result<Vec<u128>, AllocError>
    ensures { IfOk result (λ key. key.items ≡ variant ∷ ids.now) }
{
    let mut key = Vec::new(alloc);
    key.push(variant)?;
    for id in ids {
        key.push(*id as u128)?;
    }
    Ok(key)
}

/// The key of an array type with an element type: that of the type without one, behind the number of the element type.
pub fn key_of_array(
    alloc: Global,
    elem: Id,
    simple: bool,
    dims: &DimPattern,
) -> Result<Vec<u128>, AllocError>
    ensures { IfOk result (λ k. k.items ≡ 13 ∷ elem ∷ key (array_any simple dims.now)) }
{
    let rest = key_of_any_array(alloc, simple, dims)?;
    let mut whole = key_of_parts(alloc, 13, &[elem])?;
    whole.extend_from_slice(rest.as_slice())?;
    Ok(whole)
}

/// The key of an array type without an element type.
fn key_of_any_array(alloc: Global, simple: bool, dims: &DimPattern) -> Result<Vec<u128>, AllocError>
    ensures { IfOk result (λ k. k.items ≡ key (array_any simple dims.now)) }
{
    let array = Spec::ArrayOf {
        elem: None,
        simple,
        dims: dims.copy(alloc)?,
    };
    key_of(alloc, &array)
}
