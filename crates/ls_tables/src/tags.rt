// Sets of small numbers.

ghost use Rattle.std.specs.Prelude.{◌≡◌, ◌≤◌, ◌<◌, ◌^◌, ◌+◌, ◌||◌, ◌&&◌, ◌==◌, ℕ, not, false, nat_lt, MatchOption};
ghost use Rattle.ls_tables.specs.Sets.{is_in, IsEmpty, IsLeast, HaveSameMembers};

/// A set of numbers below N, where N is at most 64. Each bit tells whether the number of its place is in the set.
/// No call takes memory.
#[derive(Clone, Copy, Debug, PartialEq, Eq)]
pub struct TagSet<const N: usize> {
    pub bits: u64,
    pub ghost size: { N ≤ 64 },
    pub ghost below: { bits < 2 ^ N },
}

impl<const N: usize> TagSet<N> {
    /// The set without a number.
    pub fn empty() -> Self
        requires { N ≤ 64 }
        ensures { IsEmpty result.bits }
    {
        TagSet { bits: 0 }
    }

    /// The set with this number besides.
    pub fn insert(self, i: usize) -> Self
        requires { i < N }
        ensures { (k : ℕ) → is_in result.bits k ≡ (is_in self.entry.bits k || k == i) }
    {
        TagSet {
            bits: self.bits | (1 << i),
        }
    }

    /// The numbers of either set.
    pub fn union(self, other: Self) -> Self
        ensures { (k : ℕ) → is_in result.bits k ≡ (is_in self.entry.bits k || is_in other.entry.bits k) }
    {
        TagSet {
            bits: self.bits | other.bits,
        }
    }

    /// The numbers of both sets.
    pub fn meet(self, other: Self) -> Self
        ensures { (k : ℕ) → is_in result.bits k ≡ (is_in self.entry.bits k && is_in other.entry.bits k) }
    {
        TagSet {
            bits: self.bits & other.bits,
        }
    }

    /// The bits of the set of all numbers below N.
    fn whole() -> u64
        requires { N ≤ 64 }
        ensures { result + 1 ≡ 2 ^ N }
    {
        if N < 64 { (1 << N) - 1 } else { u64::MAX }
    }

    /// The numbers below N that are not in the set.
    pub fn complement(self) -> Self
        ensures { (k : ℕ) → is_in result.bits k ≡ (nat_lt k N && not (is_in self.entry.bits k)) }
    {
        TagSet {
            bits: self.bits ^ TagSet::<N>::whole(),
        }
    }

    /// Whether the number is in the set.
    pub fn has(self, i: usize) -> bool
        ensures { result ≡ is_in self.entry.bits i }
    {
        i < 64 && (self.bits >> i) & 1 == 1
    }

    /// The least number in the set; `None` exactly where the set is empty.
    pub fn least(self) -> Option<usize>
        ensures { MatchOption result (IsEmpty self.entry.bits) (IsLeast N self.entry.bits) }
    {
        if self.bits == 0 {
            None
        } else {
            Some(self.bits.trailing_zeros() as usize)
        }
    }
}

/// Two sets with the same members are equal. The body is empty, since this is a law about sets.
pub fn one_set_for_its_members<const N: usize>(a: TagSet<N>, b: TagSet<N>)
    ensures { HaveSameMembers N a.entry.bits b.entry.bits → a.entry ≡ b.entry }
{}
