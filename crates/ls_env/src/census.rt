// The defined names, each once, with what defines it.

ghost use Rattle.std.specs.Prelude.{◌≡◌, List, [], ◌∷◌, ◌++◌, map, IfOk, OnOk};
ghost use Rattle.ls_env.specs.Definitions.{Definition};
ghost use Rattle.ls_env.specs.steps.Gathered.{lent_definition, IsCensus};

use crate::definition::Defining;
use indexmap::IndexSet;
use ls_object::{Items, Symbol};
use std::alloc::{AllocError, Global};

/// What defines a name: one form, or more.
#[derive(Clone, Copy, Drop)]
pub(crate) enum Defined<'a> {
    Once(Defining<'a>),
    Twice,
}

/// The defined names, and beside each what defines it.
#[derive(Drop)]
pub(crate) struct Census<'a> {
    pub names: IndexSet<Symbol>,
    pub defined: Items<Defined<'a>>,
}

impl<'a> Census<'a> {
    fn new(alloc: Global) -> Census<'a>
        ensures { IsCensus [] result }
    {
        Census {
            names: IndexSet::new(alloc),
            defined: Items::new(alloc),
        }
    }

    /// One more definition.
    fn add(&mut self, definition: Defining<'a>) -> Result<(), AllocError>
        ensures { OnOk result ((ds : List Definition) → IsCensus ds self.old
            → IsCensus (ds ++ lent_definition definition.entry ∷ []) self.new) }
    {
        let name = definition.name.copy()?;
        let (at, fresh) = self.names.insert_full(name)?;
        if fresh {
            self.defined.push(Defined::Once(definition))?;
        } else if at < self.defined.len() {
            self.defined.set(at, Defined::Twice);
        }
        Ok(())
    }
}

/// The names that the definitions define.
pub(crate) fn census_of<'a>(
    alloc: Global,
    definitions: &[Defining<'a>],
) -> Result<Census<'a>, AllocError>
    ensures { IfOk result (IsCensus (map lent_definition definitions.entry.now)) }
{
    let mut census = Census::new(alloc);
    for definition in definitions {
        census.add(*definition)?;
    }
    Ok(census)
}
