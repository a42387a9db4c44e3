ghost use Rattle.std.specs.Prelude.{◌≡◌, [], ◌∷◌, ◌++◌, ◌↔◌, ◌<◌, length, MatchOption, IfOk, OnOk, OnErr, IsTrue};
ghost use Rattle.std.specs.Bool.{Decides};
ghost use Rattle.std.specs.Option.{ForSome};
ghost use Rattle.ls_object.specs.declared.symbol.Symbol.{Symbol};
ghost use Rattle.ls_object.specs.Universe.{IsStructureOf};
ghost use Rattle.ls_object.specs.Inclusion.{Under, under_in, IsInclusionOrder};
ghost use Rattle.ls_object.specs.steps.Places.{IsAt, IsRoot, IsBelow};

use crate::symbol::Symbol;
use indexmap::IndexSet;
use sqlite_items::Items;
use std::alloc::{AllocError, Global};
use std::marker::Model;

/// The structure types of a file, each with the one that it includes, if it does (DEFSTRUCT, `:INCLUDE`).
/// Their names are different, and an included structure type stands before the one that includes it.
#[derive(Drop)]
pub struct Parents {
    alloc: Global,
    pairs: Items<(Symbol, Option<Symbol>)>,
    /// The names of the structure types, by which their places are found.
    names: IndexSet<Symbol>,
}

impl Model for Parents {
    ghost use Rattle.std.specs.Prelude.{◌≡◌, map};
    ghost use Rattle.ls_object.specs.Universe.{Structures};
    ghost use Rattle.ls_object.specs.Inclusion.{IsInclusionOrder};
    ghost use Rattle.ls_object.specs.steps.Places.{IsIndexed};

    ghost Value = { Structures };

    ghost view = { λ p. p.pairs };

    ghost invariant = { λ p. IsIndexed p.names.keys p.pairs };
}

impl Parents {
    /// No structure types.
    pub fn new(alloc: Global) -> Parents
        ensures { result ≡ [] }
    {
        Parents {
            alloc,
            pairs: Items::new(alloc),
            names: IndexSet::new(alloc),
        }
    }

    /// Adds a structure type behind the others. On an error the list is as it was.
    pub fn push(&mut self, name: Symbol, include: Option<Symbol>) -> Result<(), AllocError>
        requires is_new { IsStructureOf self.old name → ⊥ }
        requires is_before { ForSome include (IsStructureOf self.old) }
        ensures ok { OnOk result (self.new ≡ self.old ++ (name, include) ∷ []) }
        ensures err { OnErr result (self.new ≡ self.old) }
    {
        let key = name.copy()?;
        self.names.reserve(1)?;
        self.pairs.push((name, include))?;
        self.names.insert(key)?;
        Ok(())
    }

    /// The structure types, each with the name that it includes.
    pub fn as_slice(&self) -> &[(Symbol, Option<Symbol>)]
        ensures pairs { result.now ≡ self.now }
        ensures order { IsInclusionOrder self.now }
    {
        self.pairs.as_slice()
    }

    /// Whether the name is that of one of the structure types: a look-up.
    pub fn contains(&self, name: &Symbol) -> bool
        ensures { IsTrue result ↔ IsStructureOf self.now name.now }
    {
        self.names.contains(name)
    }

    /// Whether `x` is `y`, or includes it directly or through others. A name that is none of the structure
    /// types is under itself alone. It takes as many look-ups as there are steps from the one to the other.
    pub fn is_under(&self, x: &Symbol, y: &Symbol) -> bool
        ensures value { result ≡ under_in self.now x.now y.now }
        ensures under { IsTrue result ↔ Under self.now x.now y.now }
    {
        let Some(from) = self.place(x) else {
            return x.is(y);
        };
        let Some(to) = self.place(y) else {
            return false;
        };
        self.leads(from, to)
    }

    /// An equal list.
    pub fn copy(&self) -> Result<Parents, AllocError>
        ensures { IfOk result (λ p. p ≡ self.now) }
    {
        let mut copied = Parents::new(self.alloc);
        for (name, include) in self.pairs.as_slice() {
            copied.push(name.copy()?, copy_name(include)?)?;
        }
        Ok(copied)
    }

    /// The place of a name, if it is one of a structure type.
    fn place(&self, name: &Symbol) -> Option<usize>
        ensures order { IsInclusionOrder self.now }
        ensures found { MatchOption result (IsStructureOf self.now name.now → ⊥) (λ at. IsAt self.now at name.now) }
    {
        self.names.get_index_of(name)
    }

    /// The place of the structure type that the one at a place includes.
    fn above(&self, at: usize) -> Option<usize>
        requires { at < length self.now }
        ensures { (x : Symbol) → IsAt self.now at x → MatchOption result (IsRoot self.now x) (IsBelow self.now at x) }
    {
        let (_, include) = &self.pairs.as_slice()[at];
        match include {
            Some(included) => self.place(included),
            None => None,
        }
    }

    /// Whether the structure type at the first place is that at the second, or includes it directly or through others.
    /// Places fall on the way, since each stands behind the one that it includes.
    fn leads(&self, from: usize, to: usize) -> bool
        requires order { IsInclusionOrder self.now }
        requires from { from < length self.now }
        ensures { (x y : Symbol) → IsAt self.now from x → IsAt self.now to y → Decides result (Under self.now x y) }
    {
        let mut at = from;
        while to < at {
            match self.above(at) {
                Some(up) => at = up,
                None => return false,
            }
        }
        at == to
    }
}

/// An equal name, where there is one.
fn copy_name(name: &Option<Symbol>) -> Result<Option<Symbol>, AllocError>
    ensures { IfOk result (λ copied. copied ≡ name.now) }
{
    match name {
        Some(name) => Ok(Some(name.copy()?)),
        None => Ok(None),
    }
}
