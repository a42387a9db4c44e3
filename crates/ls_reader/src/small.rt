ghost use Rattle.std.specs.Prelude.{◌≡◌, ◌≤◌, ◌^◌, unsigned_abs, IsNone, IfSome};

use ls_object::Rat;

/// The greatest numerator that is kept, in absolute value.
pub(crate) const MAX_NUMERATOR: u128 = 1 << 64;

/// The greatest denominator that is kept.
pub(crate) const MAX_DENOMINATOR: u128 = 1 << 60;

/// A number within the limits of what is kept of a text: the numerator is at most 2^64 in absolute value, and the
/// denominator at most 2^60.
#[derive(Clone, Copy, Debug, PartialEq, Eq)]
pub struct SmallRat {
    pub value: Rat,
    pub ghost num_is_small: { unsigned_abs value.num ≤ 2 ^ 64 },
    pub ghost den_is_small: { value.den ≤ 2 ^ 60 },
}

impl SmallRat {
    /// The number, or `None` where it is past the limits.
    pub fn new(value: Rat) -> Option<SmallRat>
        ensures none { IsNone result → (unsigned_abs value.num ≤ 2 ^ 64) × (value.den ≤ 2 ^ 60) → ⊥ }
        ensures some { IfSome result (λ small. small.value ≡ value) }
    {
        if value.num.unsigned_abs() <= MAX_NUMERATOR && value.den <= MAX_DENOMINATOR {
            Some(SmallRat { value })
        } else {
            None
        }
    }
}
