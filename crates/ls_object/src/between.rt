ghost use Rattle.std.specs.Prelude.{ℕ, ℤ, pos, unsigned_abs, ◌≡◌, ◌≢◌, ◌+◌, ◌<◌, ◌≤◌, ◌^◌, ◌+ℤ◌, ◌*ℤ◌, ◌≤ℤ◌};
ghost use Rattle.ls_object.specs.Ratio.{IsLessRatio, HasNoIntegerBetween};

use crate::rat::Rat;
use std::cmp::Ordering;

impl Rat {
    /// A rational strictly between the two that is no integer.
    pub fn between(lo: &Rat, hi: &Rat) -> Rat
        requires less { IsLessRatio lo.now.num lo.now.den hi.now.num hi.now.den }
        requires lo_num { unsigned_abs lo.now.num ≤ 2 ^ 64 + 2 }
        requires lo_den { lo.now.den ≤ 2 ^ 60 }
        requires hi_num { unsigned_abs hi.now.num ≤ 2 ^ 64 + 2 }
        requires hi_den { hi.now.den ≤ 2 ^ 60 }
        ensures above { IsLessRatio lo.now.num lo.now.den result.num result.den }
        ensures below { IsLessRatio result.num result.den hi.now.num hi.now.den }
        ensures no_integer { result.den ≢ 1 }
    {
        let next = next_integer(lo);
        match next.cmp(hi) {
            Ordering::Less => mediant(lo, &next),
            _ => mediant(lo, hi),
        }
    }
}

/// The least integer above `r`.
fn next_integer(r: &Rat) -> Rat
    requires { unsigned_abs r.now.num ≤ 2 ^ 64 + 2 }
    ensures integer { result.den ≡ 1 }
    ensures above { IsLessRatio r.now.num r.now.den result.num 1 }
    ensures least { (result.num *ℤ pos r.now.den) ≤ℤ (r.now.num +ℤ pos r.now.den) }
    ensures size { unsigned_abs result.num ≤ 2 ^ 64 + 3 }
{
    Rat::integer(r.num.div_euclid(r.den as i128) + 1)
}

/// The mediant: the sum of the numerators over the sum of the denominators. It is no integer where none is
/// strictly between the two.
fn mediant(lo: &Rat, hi: &Rat) -> Rat
    requires less { IsLessRatio lo.now.num lo.now.den hi.now.num hi.now.den }
    requires none_between { HasNoIntegerBetween lo.now.num lo.now.den hi.now.num hi.now.den }
    requires lo_num { unsigned_abs lo.now.num ≤ 2 ^ 64 + 3 }
    requires lo_den { lo.now.den ≤ 2 ^ 60 }
    requires hi_num { unsigned_abs hi.now.num ≤ 2 ^ 64 + 3 }
    requires hi_den { hi.now.den ≤ 2 ^ 60 }
    ensures above { IsLessRatio lo.now.num lo.now.den result.num result.den }
    ensures below { IsLessRatio result.num result.den hi.now.num hi.now.den }
    ensures no_integer { result.den ≢ 1 }
{
    match Rat::new(lo.num + hi.num, lo.den + hi.den) {
        Some(r) => r,
        None => unreachable!(),
    }
}
