// Numbers by keys.

ghost use Rattle.std.specs.Prelude.{◌≡◌, [], ◌∷◌, ◌++◌, OnOk, OnErr, None};
ghost use Rattle.ls_memo.specs.Kept.{kept_for};

use indexmap::IndexMap;
use std::alloc::{AllocError, Global};
use std::marker::Model;

/// Numbers by keys, which are lists of numbers. Contracts see the list of the keys with their numbers, in the order in
/// which they were put.
#[derive(Drop)]
pub(crate) struct Names {
    kept: IndexMap<Vec<u128>, usize>,
}

impl Model for Names {
    ghost use Rattle.std.specs.Prelude.{List, ℕ};
    ghost use Rattle.ls_memo.specs.Kept.{with_lists};

    ghost Value = { List (List ℕ × ℕ) };

    ghost view = { λ names. with_lists (λ k. k.items) names.kept.entries };
}

impl Names {
    /// No entry.
    pub(crate) fn new(alloc: Global) -> Names
        ensures { result ≡ [] }
    {
        Names {
            kept: IndexMap::new(alloc),
        }
    }

    /// The number of the entry with that key, or None exactly where no entry has it. It takes no memory.
    pub(crate) fn get(&self, key: &[u128]) -> Option<usize>
        ensures { result ≡ kept_for key.now self.now }
    {
        self.kept.get(key).copied()
    }

    /// Adds an entry with a key that no other has. After a refusal for memory all is as before.
    pub(crate) fn put(&mut self, key: Vec<u128>, number: usize) -> Result<(), AllocError>
        requires absent { kept_for key.items self.old ≡ None }
        ensures ok { OnOk result (self.new ≡ self.old ++ (key.items, number) ∷ []) }
        ensures err { OnErr result (self.new ≡ self.old) }
    {
        self.kept.insert(key, number)?;
        Ok(())
    }
}
