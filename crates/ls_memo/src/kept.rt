// Kept results.

ghost use Rattle.std.specs.Prelude.{◌≡◌, [], ◌∷◌, ◌++◌, length, IfOk, OnOk, OnErr, None};
ghost use Rattle.std.specs.Option.{option_copied};
ghost use Rattle.ls_memo.specs.Kept.{kept_for};

use indexmap::IndexMap;
use sqlite_items::Items;
use std::alloc::{AllocError, Global};
use std::marker::Model;

/// Values by keys, which are lists of numbers. Contracts see the list of the keys with their values, in the order in
/// which they were put. What a value means is its user's affair.
#[derive(Drop)]
pub struct Memo<V> {
    alloc: Global,
    kept: IndexMap<Vec<usize>, V>,
}

impl<V> Model for Memo<V> {
    ghost use Rattle.std.specs.Prelude.{List, ℕ};
    ghost use Rattle.std.specs.Coded.{coded_list, coded×, coded_ℕ};

    ghost Value = { List (List ℕ × V) };

    ghost coded = { coded_list (coded× (coded_list coded_ℕ) V.code) };

    ghost use Rattle.ls_memo.specs.Kept.{with_lists};

    ghost view = { λ m. with_lists (λ k. k.items) m.kept.entries };
}

impl<V: Drop> Memo<V> {
    /// A memo of no entry.
    pub fn new(alloc: Global) -> Memo<V>
        ensures { result ≡ [] }
    {
        Memo {
            alloc,
            kept: IndexMap::new(alloc),
        }
    }

    /// How many entries there are.
    pub fn len(&self) -> usize
        ensures { result ≡ length self.now }
    {
        self.kept.len()
    }

    /// The value of the entry with that key, or None exactly where no entry has it. It takes no memory.
    pub fn get(&self, key: &[usize]) -> Option<&V>
        ensures { option_copied result ≡ kept_for key.now self.now }
    {
        self.kept.get(key)
    }

    /// Adds an entry with a key that no other has, and changes no other. After a refusal for memory all is as before.
    pub fn put(&mut self, key: Items<usize>, value: V) -> Result<(), AllocError>
        requires absent { kept_for key self.old ≡ None }
        ensures ok { OnOk result (self.new ≡ self.old ++ (key, value) ∷ []) }
        ensures err { OnErr result (self.new ≡ self.old) }
    {
        let list = Vec::from_slice(self.alloc, key.as_slice())?;
        self.kept.insert(list, value)?;
        Ok(())
    }
}
