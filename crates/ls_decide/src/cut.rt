// Sums, products and powers of numbers cut at 2^31.

ghost use Rattle.std.specs.Prelude.{◌≡◌, ◌≤◌, ◌+◌, ◌*◌, ◌^◌, min};
ghost use Rattle.ls_decide.specs.steps.Cut.{cut};

const GREATEST: u64 = 1 << 31;

/// The number, or 2^31 where it is more.
pub fn cut_at(n: u64) -> u64
    ensures { result ≡ cut n }
{
    if n > GREATEST { GREATEST } else { n }
}

/// The cut sum.
pub fn plus(a: u64, b: u64) -> u64
    requires a { a ≤ 2 ^ 31 }
    requires b { b ≤ 2 ^ 31 }
    ensures { result ≡ cut (a + b) }
{
    cut_at(a + b)
}

/// The cut product.
pub fn times(a: u64, b: u64) -> u64
    requires a { a ≤ 2 ^ 31 }
    requires b { b ≤ 2 ^ 31 }
    ensures { result ≡ cut (a * b) }
{
    cut_at(a * b)
}

/// The cut power of two.
pub fn power(k: usize) -> u64
    ensures { result ≡ cut (2 ^ k) }
{
    let mut n = 1;
    let mut i = 0;
    while i < k {
        n = cut_at(n * 2);
        i += 1;
    }
    n
}

/// The smaller of two numbers.
pub fn least_of(a: u64, b: u64) -> u64
    ensures { result ≡ min a b }
{
    if a < b { a } else { b }
}
