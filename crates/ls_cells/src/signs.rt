ghost use Rattle.std.specs.Prelude.{ℕ, ◌≡◌, ◌<◌, ◌≤◌, ◌/◌, ◌++◌, [], ◌∷◌, length, map, slice_set, IfOk, OnOk, OnErr, MatchOption, true, false, not, ◌&&◌, ◌||◌, nat_le, nat_lt};
ghost use Rattle.std.specs.Bool.{beq};
ghost use Rattle.std.specs.Hash as fed;
ghost use Rattle.std.specs.Cmp.{bool_eq_equiv, booleans_Decides, partial_equiv_from_equiv};
ghost use Rattle.std.specs.Cmp.Lexicographic.{pointwise, lists_equiv, pointwise_decides};
ghost use Rattle.ls_cells.specs.Signs.{at, tabulate, zip_with, differ, meet, Packed, words_of};
ghost use Rattle.ls_cells.specs.steps.Words.{Pushed, flipped};

use crate::words::{
    and_words, find_bit_outside, find_set_bit, interval_words, negate_words, or_words, words_meet,
    xor_words,
};
use smallvec::SmallVec;
use std::alloc::{AllocError, Global};
use std::hash::{Hash, Hasher};
use std::marker::Model;

/// A list of truth values: of each atom at one object, or of one atom at each row. Up to 64 values are kept in
/// place, more in an allocation. A contract sees the list.
#[derive(Drop)]
pub struct Signs {
    len: usize,
    words: SmallVec<u64, 1>,
}

impl Model for Signs {
    ghost use Rattle.std.specs.Prelude.{List, Bool};
    ghost use Rattle.ls_cells.specs.Signs.{tabulate, is_set, Packed};

    ghost Value = { List Bool };

    ghost view = { λ s. tabulate s.len (is_set s.words.items) };

    ghost invariant = { λ s. Packed s.len s.words.items };
}

impl Signs {
    /// No values.
    pub fn new(alloc: Global) -> Signs
        ensures { result ≡ [] }
    {
        Signs {
            len: 0,
            words: SmallVec::new(alloc),
        }
    }

    /// A list of `len` values: true at the places from `from` up to, and without, `to`, and false at the others.
    pub fn interval(alloc: Global, len: usize, from: usize, to: usize) -> Result<Signs, AllocError>
        requires { to ≤ len }
        ensures { IfOk result (λ s. s ≡ tabulate len (λ i. nat_le from i && nat_lt i to)) }
    {
        Ok(Signs {
            len,
            words: interval_words(alloc, len.div_ceil(64), from, to)?,
        })
    }

    /// An equal list.
    pub fn copy(&self) -> Result<Signs, AllocError>
        ensures { IfOk result (λ s. s ≡ self.now) }
    {
        Ok(Signs {
            len: self.len,
            words: SmallVec::from_slice(*self.words.allocator(), self.words.as_slice())?,
        })
    }

    /// How many values there are.
    pub fn len(&self) -> usize
        ensures { result ≡ length self.now }
    {
        self.len
    }

    /// The value at a place.
    pub fn get(&self, i: usize) -> bool
        requires { i < length self.now }
        ensures { result ≡ at self.now i }
    {
        let words = self.words.as_slice();
        (words[i / 64] >> (i % 64)) & 1 == 1
    }

    /// Whether it can be told at once that of the 64 values of a block none is true.
    pub(crate) fn is_clear_block(&self, block: usize) -> bool
        ensures { result ≡ true → (i : ℕ) → i / 64 ≡ block → at self.now i ≡ false }
    {
        let words = self.words.as_slice();
        if block < words.len() {
            return words[block] == 0;
        }
        true
    }

    /// Adds a value at the end. An error comes for want of memory, and leaves the list as it was.
    pub fn push(&mut self, value: bool) -> Result<(), AllocError>
        ensures ok { OnOk result (self.new ≡ self.old ++ value ∷ []) }
        ensures err { OnErr result (self.new ≡ self.old) }
    {
        let Some(len) = self.len.checked_add(1) else {
            return Err(AllocError);
        };
        push_bit(&mut self.words, self.len, value)?;
        self.len = len;
        Ok(())
    }

    /// Negates the value at a place.
    pub fn flip(&mut self, i: usize)
        requires { i < length self.old }
        ensures { self.new ≡ slice_set self.old i (not (at self.old i)) }
    {
        flip_bit(&mut self.words, i);
    }

    /// Makes the value at a place this one.
    pub fn set(&mut self, i: usize, value: bool)
        requires { i < length self.old }
        ensures { self.new ≡ slice_set self.old i value }
    {
        if self.get(i) != value {
            self.flip(i);
        }
    }

    /// Negates each value.
    pub fn negate(&mut self)
        ensures { self.new ≡ map not self.old }
    {
        negate_words(self.words.as_mut_slice(), self.len);
    }

    /// At each place, whether both values are true.
    pub fn and_with(&mut self, other: &Signs)
        requires { length self.old ≡ length other.now }
        ensures { self.new ≡ zip_with (λ a b. a && b) self.old other.now }
    {
        and_words(self.words.as_mut_slice(), other.words.as_slice());
    }

    /// At each place, whether one of the two values is true, or both.
    pub fn or_with(&mut self, other: &Signs)
        requires { length self.old ≡ length other.now }
        ensures { self.new ≡ zip_with (λ a b. a || b) self.old other.now }
    {
        or_words(self.words.as_mut_slice(), other.words.as_slice());
    }

    /// At each place, whether the two values differ.
    pub fn xor_with(&mut self, other: &Signs)
        requires { length self.old ≡ length other.now }
        ensures { self.new ≡ zip_with differ self.old other.now }
    {
        xor_words(self.words.as_mut_slice(), other.words.as_slice());
    }

    /// Whether both values are true at some place. At a row and the mask of some atoms: whether one of these
    /// atoms holds.
    pub fn meets(&self, other: &Signs) -> bool
        requires { length self.now ≡ length other.now }
        ensures { result ≡ meet self.now other.now }
    {
        words_meet(self.words.as_slice(), other.words.as_slice())
    }

    /// A place at which the value is true. None exactly where there is none.
    pub fn true_place(&self) -> Option<usize>
        ensures { MatchOption result
            ((i : ℕ) → at self.now i ≡ false)
            (λ i. (i < length self.now) × (at self.now i ≡ true)) }
    {
        // The length is read for its range: a place below it does not overflow.
        let _len = self.len();
        match find_set_bit(self.words.as_slice()) {
            None => None,
            Some((word, bit)) => Some(word * 64 + bit),
        }
    }

    /// A place at which this value is true and the other is not. None exactly where the other is true wherever
    /// this is. At the mask of some atoms and a row: one of these atoms that does not hold.
    pub fn place_outside(&self, other: &Signs) -> Option<usize>
        requires { length self.now ≡ length other.now }
        ensures { MatchOption result
            ((i : ℕ) → at self.now i ≡ true → at other.now i ≡ true)
            (λ i. (i < length self.now) × (at self.now i ≡ true) × (at other.now i ≡ false)) }
    {
        let _len = self.len();
        match find_bit_outside(self.words.as_slice(), other.words.as_slice()) {
            None => None,
            Some((word, bit)) => Some(word * 64 + bit),
        }
    }
}

impl PartialEq for Signs {
    ghost eq = { pointwise beq };

    ghost laws = { partial_equiv_from_equiv (lists_equiv bool_eq_equiv) };

    fn eq(&self, other: &Signs) -> bool {
        self.len == other.len && self.words.as_slice() == other.words.as_slice()
    }
}

impl Eq for Signs {
    ghost laws = { lists_equiv bool_eq_equiv };
}

impl Hash for Signs {
    ghost hash_input = { λ s. fed.slice fed.u64 (words_of s) };

    ghost respects_eq = { (fed.same_Alike (λ s. fed.slice fed.u64 (words_of s)) (pointwise_decides booleans_Decides)).fed };

    fn hash<H: Hasher>(&self, state: &mut H) {
        self.words.as_slice().hash(state);
    }
}

// Adds a value to the `len` values that the words hold. An error leaves the words as they were.
fn push_bit(words: &mut SmallVec<u64, 1>, len: usize, value: bool) -> Result<(), AllocError>
    requires { Packed len words.old.items }
    ensures ok { OnOk result (Pushed len value words.old.items words.new.items) }
    ensures err { OnErr result (words.new.items ≡ words.old.items) }
{
    if len % 64 == 0 {
        words.push(u64::from(value))?;
        return Ok(());
    }
    // The bits past the length are clear.
    if !value {
        return Ok(());
    }
    flip_bit(words, len);
    Ok(())
}

// Negates the bit of a place.
fn flip_bit(words: &mut SmallVec<u64, 1>, i: usize)
    requires { i / 64 < length words.old.items }
    ensures { words.new.items ≡ flipped words.old.items i }
{
    let all = words.as_mut_slice();
    all[i / 64] ^= 1 << (i % 64);
}
