// Numbers without repeats.

ghost use Rattle.std.specs.Prelude.{◌≡◌, [], OnOk, MatchOption, Contains, slice_get, Some};
ghost use Rattle.ls_lists.specs.Candidates.{with_number};

use indexmap::IndexSet;
use std::alloc::{AllocError, Global};
use std::marker::Model;

/// Numbers in the order in which they were first pushed, each once. Repeats are found by a look-up.
#[derive(Drop)]
pub struct Ids {
    seen: IndexSet<usize>,
    list: Vec<usize>,
}

impl Model for Ids {
    ghost use Rattle.std.specs.Prelude.{◌≡◌, List, ℕ};

    ghost Value = { List ℕ };

    ghost view = { λ s. s.list.items };

    ghost invariant = { λ s. s.seen.keys ≡ s.list.items };
}

impl Ids {
    /// No number.
    pub fn new(alloc: Global) -> Ids
        ensures { result ≡ [] }
    {
        Ids {
            seen: IndexSet::new(alloc),
            list: Vec::new(alloc),
        }
    }

    /// The numbers.
    pub fn as_slice(&self) -> &[usize]
        ensures { result.now ≡ self.now }
    {
        self.list.as_slice()
    }

    /// The place of a number, counted from 0; None exactly where it isn't there. It is found by a look-up.
    pub fn place(&self, number: usize) -> Option<usize>
        ensures { MatchOption result (¬ Contains self.now number) (λ i. slice_get self.now i ≡ Some number) }
    {
        self.seen.get_index_of(&number)
    }

    /// Puts a number at the end, if it isn't there.
    pub fn push(&mut self, number: usize) -> Result<(), AllocError>
        ensures { OnOk result (self.new ≡ with_number self.old number) }
    {
        self.list.reserve(1)?;
        if self.seen.insert(number)? {
            self.list.push_reserved(number);
        }
        Ok(())
    }
}
