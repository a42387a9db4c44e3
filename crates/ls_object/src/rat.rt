ghost use Rattle.std.specs.Prelude.{ℕ, ℤ, pos, unsigned_abs, ◌≡◌, ◌*◌, ◌<◌, ◌≤◌, ◌^◌, ◌*ℤ◌, ◌↔◌, ◌⊎◌, IsTrue, IsNone, IfSome};
ghost use Rattle.std.specs.Int.{IsGcd};
ghost use Rattle.ls_object.specs.Ratio.{ratio_cmp, IsReduced, IsReducedSize, PassesLimits};
ghost use Rattle.ls_object.specs.Limits.{numerator_limit, greatest_denominator};

use std::cmp::Ordering;

/// What the absolute value of a numerator stays below.
pub const NUMERATOR_LIMIT: u128 = 1 << 66;

/// The largest denominator.
pub const DENOMINATOR_LIMIT: u128 = 1 << 61;

/// A rational in lowest terms (2.3.2.1). An integer has the denominator 1.
#[derive(Clone, Copy, Debug, PartialEq, Eq)]
pub struct Rat {
    pub num: i128,
    pub den: u128,
    pub ghost positive: { 0 < den },
    pub ghost lowest: { IsGcd (unsigned_abs num) den 1 },
    pub ghost num_fits: { unsigned_abs num < numerator_limit },
    pub ghost den_fits: { den ≤ greatest_denominator },
}

impl Rat {
    /// The number `num / den`, or `None` where `den` is 0 or the reduced fraction passes the limits.
    pub fn new(num: i128, den: u128) -> Option<Rat>
        ensures none { IsNone result ↔ ((den ≡ 0) ⊎ PassesLimits (unsigned_abs num) den) }
        ensures some { IfSome result (λ r. IsReduced num den r.num r.den) }
    {
        if den == 0 {
            return None;
        }
        let reduced = lowest_terms(num.unsigned_abs(), den)?;
        Some(Rat {
            num: with_sign_of(num, reduced.size),
            den: reduced.den,
        })
    }

    /// The integer of this value.
    pub fn integer(value: i128) -> Rat
        requires { unsigned_abs value < numerator_limit }
        ensures num { result.num ≡ value }
        ensures den { result.den ≡ 1 }
    {
        Rat { num: value, den: 1 }
    }

    /// Whether it is an integer.
    pub fn is_integer(&self) -> bool
        ensures { IsTrue result ↔ (self.now.den ≡ 1) }
    {
        self.den == 1
    }

    /// The order of the rationals.
    pub fn cmp(&self, other: &Rat) -> Ordering
        ensures { result ≡ ratio_cmp self.now.num self.now.den other.now.num other.now.den }
    {
        let left = self.num * other.den as i128;
        let right = other.num * self.den as i128;
        left.cmp(&right)
    }
}

/// A fraction without a sign, in lowest terms and within the limits.
#[derive(Clone, Copy)]
struct Reduced {
    size: u128,
    den: u128,
    ghost positive: { 0 < den },
    ghost lowest: { IsGcd size den 1 },
    ghost size_fits: { size < numerator_limit },
    ghost den_fits: { den ≤ greatest_denominator },
}

/// The fraction `size / den` in lowest terms, or `None` where that passes the limits.
fn lowest_terms(size: u128, den: u128) -> Option<Reduced>
    requires { 0 < den }
    ensures none { IsNone result ↔ PassesLimits size den }
    ensures some { IfSome result (λ r. IsReducedSize size den r.size r.den) }
{
    let common = gcd(size, den);
    let size = size / common;
    let den = den / common;
    if size >= NUMERATOR_LIMIT {
        return None;
    }
    if den > DENOMINATOR_LIMIT {
        return None;
    }
    Some(Reduced { size, den })
}

/// The number of this absolute value that has the sign of `num`.
fn with_sign_of(num: i128, size: u128) -> i128
    requires { size < numerator_limit }
    ensures size { unsigned_abs result ≡ size }
    ensures sign { (g : ℕ) → unsigned_abs num ≡ g * size → num ≡ (pos g *ℤ result) }
{
    if num < 0 {
        -(size as i128)
    } else {
        size as i128
    }
}

/// The greatest common divisor.
fn gcd(a: u128, b: u128) -> u128
    ensures { IsGcd a b result }
{
    let mut x = a;
    let mut y = b;
    while y != 0 {
        let rest = x % y;
        x = y;
        y = rest;
    }
    x
}
