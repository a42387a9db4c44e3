// Dimensions against patterns.

ghost use Rattle.std.specs.Prelude.{◌≡◌};
ghost use Rattle.ls_spec.specs.Truth as truth;

use crate::spec::DimPattern;
use ls_object::Dims;

/// Whether a dimension is as asked at its place.
pub(crate) fn is_place_matched(place: Option<u64>, dim: u64) -> bool
    ensures { result ≡ truth.matches_place place dim }
{
    match place {
        None => true,
        Some(wanted) => dim == wanted,
    }
}

/// Whether the dimensions are as asked, place by place.
fn are_places_matched(places: &[Option<u64>], dims: &[u64]) -> bool
    ensures { result ≡ truth.matches_places places.now dims.now }
{
    let mut rest = dims;
    for place in places {
        let [dim, others @ ..] = rest else {
            return false;
        };
        if !is_place_matched(*place, *dim) {
            return false;
        }
        rest = others;
    }
    rest.is_empty()
}

/// Whether the dimensions of an array match the pattern (ARRAY). It takes no memory.
pub fn are_dims_matched(pattern: &DimPattern, dims: &Dims) -> bool
    ensures { result ≡ truth.matches_dimensions pattern.now dims.now }
{
    match pattern {
        DimPattern::Any => true,
        DimPattern::Places(places) => are_places_matched(places.as_slice(), dims.as_slice()),
    }
}
