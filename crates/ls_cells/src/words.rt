// Lists of truth values as the bits of words.

ghost use Rattle.std.specs.Prelude.{◌≡◌, ◌<◌, ◌+◌, ◌*◌, ◌==◌, ◌^◌, ℕ, length, slice_index, bit_and, bit_or, bit_xor, nat_lt, IfOk, MatchOption, MatchBool};
ghost use Rattle.std.specs.Int.{bit_at};
ghost use Rattle.ls_cells.specs.steps.Words.{Zipped, Apart, Met, IsIntervalWord, IsNegatedWord, Negated, IsClear, IsSetIn, IsWithin, IsOutside};

use smallvec::SmallVec;
use std::alloc::{AllocError, Global};

// The bits that are set in both.
pub(crate) fn and_words(words: &mut [u64], other: &[u64])
    requires { length words.old ≡ length other.now }
    ensures { Zipped bit_and words.old other.now words.new }
{
    'words: for k in 0..words.len() {
        words[k] &= other[k];
    }
}

// The bits that are set in one of the two, or in both.
pub(crate) fn or_words(words: &mut [u64], other: &[u64])
    requires { length words.old ≡ length other.now }
    ensures { Zipped bit_or words.old other.now words.new }
{
    'words: for k in 0..words.len() {
        words[k] |= other[k];
    }
}

// The bits that are set in one of the two alone.
pub(crate) fn xor_words(words: &mut [u64], other: &[u64])
    requires { length words.old ≡ length other.now }
    ensures { Zipped bit_xor words.old other.now words.new }
{
    'words: for k in 0..words.len() {
        words[k] ^= other[k];
    }
}

// Whether some bit is set in both.
pub(crate) fn words_meet(a: &[u64], b: &[u64]) -> bool
    requires { length a.now ≡ length b.now }
    ensures { MatchBool result (Met a.now b.now) (Apart a.now b.now) }
{
    'words: for k in 0..a.len() {
        if a[k] & b[k] != 0 {
            return true;
        }
    }
    false
}

// The word at place k of those whose first `len` bits are set.
fn full_word(len: usize, k: usize) -> u64
    ensures { (j : ℕ) → j < 64 → (bit_at result j == 1) ≡ nat_lt (k * 64 + j) len }
{
    let full = len / 64;
    if k < full {
        return u64::MAX;
    }
    if full < k {
        return 0;
    }
    (1 << (len % 64)) - 1
}

// The word at place k of those whose bits from `from` up to `to` are set.
fn interval_word(from: usize, to: usize, k: usize) -> u64
    ensures small { result < 2 ^ 64 }
    ensures bits { IsIntervalWord from to k result }
{
    full_word(to, k) & !full_word(from, k)
}

// Words whose bits from `from` up to `to` are set.
pub(crate) fn interval_words(
    alloc: Global,
    count: usize,
    from: usize,
    to: usize,
) -> Result<SmallVec<u64, 1>, AllocError>
    ensures as_long { IfOk result (λ ws. length ws.items ≡ count) }
    ensures small { IfOk result (λ ws. (k : ℕ) → slice_index ws.items k < 2 ^ 64) }
    ensures bits { IfOk result (λ ws. (k : ℕ) → k < count → IsIntervalWord from to k (slice_index ws.items k)) }
{
    let mut words = SmallVec::new(alloc);
    words.reserve(count)?;
    'words: for k in 0..count {
        words.push(interval_word(from, to, k))?;
    }
    Ok(words)
}

// The word at place k with the bits negated whose places in the list are below `len`; the others are clear.
fn negated_word(word: u64, len: usize, k: usize) -> u64
    ensures small { result < 2 ^ 64 }
    ensures bits { IsNegatedWord len k word result }
{
    !word & full_word(len, k)
}

// Negates the bits whose places are below `len`, and clears the others.
pub(crate) fn negate_words(words: &mut [u64], len: usize)
    ensures { Negated len words.old words.new }
{
    'words: for k in 0..words.len() {
        words[k] = negated_word(words[k], len, k);
    }
}

// The place of a word with a set bit, and of that bit in it.
pub(crate) fn find_set_bit(words: &[u64]) -> Option<(usize, usize)>
    ensures { MatchOption result (IsClear words.now) (IsSetIn words.now) }
{
    'words: for k in 0..words.len() {
        if words[k] != 0 {
            return Some((k, words[k].trailing_zeros() as usize));
        }
    }
    None
}

// The place of a word with a bit that is set there and not in the other word, and of that bit in it.
pub(crate) fn find_bit_outside(words: &[u64], other: &[u64]) -> Option<(usize, usize)>
    requires { length words.now ≡ length other.now }
    ensures { MatchOption result (IsWithin words.now other.now) (IsOutside words.now other.now) }
{
    'words: for k in 0..words.len() {
        let outside = words[k] & !other[k];
        if outside != 0 {
            return Some((k, outside.trailing_zeros() as usize));
        }
    }
    None
}
