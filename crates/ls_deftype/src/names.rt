// The names of parameters, each found by a look-up.

ghost use Rattle.std.specs.Prelude.{◌≡◌, [], ◌∷◌, ◌++◌, not, IfOk, if◌then◌else◌};
ghost use Rattle.std.specs.List.{list_any};
ghost use Rattle.ls_object.specs.Symbols.{same_symbol};
ghost use Rattle.ls_deftype.specs.Names.{place_of};

use indexmap::IndexSet;
use ls_object::Symbol;
use std::alloc::{AllocError, Global};
use std::marker::Model;

/// Different symbols. A contract sees the list of them, in the order of their coming.
#[derive(Drop)]
pub(crate) struct Names {
    symbols: IndexSet<Symbol>,
}

impl Model for Names {
    ghost use Rattle.std.specs.Prelude.{List};
    ghost use Rattle.std.specs.Coded.{codes};
    ghost use Rattle.ls_object.specs.declared.symbol.Symbol.{Symbol};
    ghost use Rattle.ls_object.specs.contracts.symbol.Symbol as symbol;

    ghost Value = { List Symbol };

    ghost coded = { Prim.hlevel (codes, symbol.the_row.coded) };

    ghost view = { λ n. n.symbols.keys };
}

impl Names {
    /// No symbol.
    pub fn new(alloc: Global) -> Names
        ensures { result ≡ [] }
    {
        Names {
            symbols: IndexSet::new(alloc),
        }
    }

    /// The place of a symbol, or `None` where it is not there.
    pub fn find(&self, symbol: &Symbol) -> Option<usize>
        ensures { result ≡ place_of self.now symbol.now }
    {
        self.symbols.get_index_of(symbol)
    }

    /// Adds a symbol at the end, unless it is there; whether it was added.
    pub fn add(&mut self, symbol: &Symbol) -> Result<bool, AllocError>
        ensures fresh { IfOk result (λ fresh. list_any (same_symbol symbol.now) self.old ≡ not fresh) }
        ensures names { IfOk result (λ fresh. self.new ≡ (if fresh then self.old ++ symbol.now ∷ [] else self.old)) }
    {
        Ok(self.symbols.insert(symbol.copy()?)?)
    }
}
