ghost use Rattle.std.specs.Bool.{Decides};
ghost use Rattle.std.specs.List.{AllByRecursion};
ghost use Rattle.ls_spec.specs.Meaning.{specifier, specifiers};
ghost use Rattle.ls_spec.specs.steps.Fitting.{FitsIn, FitIn};
ghost use Rattle.ls_spec.specs.Fits.{Fits, IsSmall, IsSmallBound, IsSmallPoint, IsSmallPlace, AreSmallDimensions};

use crate::limits::{
    DIMENSION_LIMIT, LARGEST_DENOMINATOR, LARGEST_DEPTH, LARGEST_NUMERATOR, LARGEST_RANK,
};
use crate::spec::{Bound, DimPattern, Point, Spec};
use ls_object::{Parents, Rat};

impl Spec {
    /// Whether its numbers and its depth are within the limits, and its structure names are those of structure
    /// types in the list. It takes no memory, and goes no deeper than the limit on depth.
    pub fn fits(&self, parents: &Parents) -> bool
        ensures { Decides result (Fits parents.now (specifier self.now)) }
    {
        self.fits_in(parents, LARGEST_DEPTH)
    }

    /// The same, with a depth of at most `room`.
    #[cycle(fits)]
    fn fits_in(&self, parents: &Parents, room: u64) -> bool
        ensures { Decides result (FitsIn parents.now room (specifier self.now)) }
    {
        if room == 0 {
            return false;
        }
        match self {
            Spec::And(parts) => all_fit_in(parts.as_slice(), parents, room - 1),
            Spec::Or(parts) => all_fit_in(parts.as_slice(), parents, room - 1),
            Spec::Not(part) => part.get().fits_in(parents, room - 1),
            Spec::Eql(point) => is_small_point(point),
            Spec::Range { kind: _, lo, hi } => is_small_bound(*lo) && is_small_bound(*hi),
            Spec::StructIs(name) => parents.contains(name),
            Spec::ArrayOf {
                elem,
                simple: _,
                dims,
            } => match elem {
                None => are_small_dimensions(dims),
                Some(elem) => {
                    elem.get().fits_in(parents, room - 1) && are_small_dimensions(dims)
                }
            },
            Spec::StringOf { simple: _, dim } => is_small_place(*dim),
            Spec::ConsOf(car, cdr) => {
                car.get().fits_in(parents, room - 1) && cdr.get().fits_in(parents, room - 1)
            }
            Spec::All => true,
            Spec::Nothing => true,
            Spec::Chars(_) => true,
            Spec::Symbols(_) => true,
            Spec::Kind(_) => true,
            Spec::StructAny => true,
            Spec::Satisfies(_) => true,
        }
    }
}

/// Whether each of the specifiers fits, with a depth of at most `room`.
#[cycle(fits)]
fn all_fit_in(specs: &[Spec], parents: &Parents, room: u64) -> bool
    ensures { Decides result (FitIn parents.now room (specifiers specs.now)) }
{
    for spec in specs {
        if !spec.fits_in(parents, room) {
            return false;
        }
    }
    true
}

fn is_small(r: &Rat) -> bool
    ensures { Decides result (IsSmall r.now) }
{
    r.num.unsigned_abs() <= LARGEST_NUMERATOR && r.den <= LARGEST_DENOMINATOR
}

fn is_small_bound(bound: Bound) -> bool
    ensures { Decides result (IsSmallBound bound) }
{
    match bound {
        Bound::Free => true,
        Bound::Incl(r) => is_small(&r),
        Bound::Excl(r) => is_small(&r),
    }
}

fn is_small_point(point: &Point) -> bool
    ensures { Decides result (IsSmallPoint point.now) }
{
    match point {
        Point::Number(r) => is_small(r),
        _ => true,
    }
}

fn is_small_place(place: Option<u64>) -> bool
    ensures { Decides result (IsSmallPlace place) }
{
    match place {
        None => true,
        Some(n) => n < DIMENSION_LIMIT,
    }
}

fn are_small_places(places: &[Option<u64>]) -> bool
    ensures { Decides result (AllByRecursion IsSmallPlace places.now) }
{
    for place in places {
        if !is_small_place(*place) {
            return false;
        }
    }
    true
}

fn are_small_dimensions(dims: &DimPattern) -> bool
    ensures { Decides result (AreSmallDimensions dims.now) }
{
    match dims {
        DimPattern::Any => true,
        DimPattern::Places(places) => {
            places.len() <= LARGEST_RANK && are_small_places(places.as_slice())
        }
    }
}
