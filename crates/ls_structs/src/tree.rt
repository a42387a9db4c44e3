ghost use Rattle.std.specs.Prelude.{◌≡◌, [], ◌∷◌, ◌++◌, IfOk, IfErr, OnOk, OnErr, None};
ghost use Rattle.std.specs.Option.{option_copied};
ghost use Rattle.ls_structs.specs.Trees as spec;
ghost use Rattle.ls_structs.specs.declared.tree.Defined.TheVariants as defined;

use crate::fault::TreeFault;
use crate::form::{StructForm, copy_name};
use indexmap::IndexMap;
use ls_object::{Parents, Symbol};
use ls_tables::builtin;
use std::alloc::{AllocError, Global};
use std::marker::Model;

/// What a name is by its structure definition.
#[derive(Drop)]
pub enum Defined {
    /// Structures of this name are vectors or lists, and it is no type (DEFSTRUCT, `:TYPE`).
    Typed,
    /// A structure type, with the name of the one that it includes, if it does (DEFSTRUCT, `:INCLUDE`).
    Structure(Option<Symbol>),
}

impl Defined {
    /// The same, of an equal name.
    fn copy(&self) -> Result<Defined, AllocError>
        ensures { IfOk result (λ made. made ≡ self.now) }
    {
        match self {
            Defined::Typed => Ok(Defined::Typed),
            Defined::Structure(include) => Ok(Defined::Structure(copy_name(include.as_ref())?)),
        }
    }
}

/// An equal map.
fn copy_names(names: &IndexMap<Symbol, Defined>) -> Result<IndexMap<Symbol, Defined>, AllocError>
    ensures { IfOk result (λ copied. copied.entries ≡ names.now.entries) }
{
    let mut copied = IndexMap::new(*names.allocator());
    for (name, made) in names.iter() {
        copied.insert(name.copy()?, made.copy()?)?;
    }
    Ok(copied)
}

/// What the structure definitions of a file make of their names. Contracts see the list of the names, in the order of
/// their definitions, each with what it is.
#[derive(Drop)]
pub struct Tree {
    parents: Parents,
    names: IndexMap<Symbol, Defined>,
}

impl Model for Tree {
    ghost use Rattle.std.specs.Prelude.{◌≡◌};
    ghost use Rattle.std.specs.Coded.{codes};
    ghost use Rattle.ls_structs.specs.contracts.tree.Defined as defined;
    ghost use Rattle.ls_structs.specs.Trees.{Definitions, types};

    ghost Value = { Definitions };

    ghost coded = { Prim.hlevel (codes, defined.the_row.coded) };

    ghost view = { λ t. t.names.entries };

    ghost invariant = { λ t. t.parents ≡ types t.names.entries };
}

impl Tree {
    /// No definitions.
    pub fn new(alloc: Global) -> Tree
        ensures { result ≡ [] }
    {
        Tree {
            parents: Parents::new(alloc),
            names: IndexMap::new(alloc),
        }
    }

    /// The structure types, an included one before those that include it.
    pub fn parents(&self) -> &Parents
        ensures { result.now ≡ spec.types self.now }
    {
        &self.parents
    }

    /// What the name is, if it is defined. It takes no memory.
    pub fn find(&self, name: &Symbol) -> Option<&Defined>
        ensures { option_copied result ≡ spec.look_up name.now self.now }
    {
        self.names.get(name)
    }

    /// The name of the structure type that the one of this name includes; `None` exactly where that is no structure
    /// type or includes none. It takes no memory.
    pub fn parent(&self, name: &Symbol) -> Option<&Symbol>
        ensures { option_copied result ≡ spec.parent name.now self.now }
    {
        match self.find(name)? {
            Defined::Structure(Some(include)) => Some(include),
            Defined::Structure(None) | Defined::Typed => None,
        }
    }

    /// An equal tree.
    pub fn copy(&self) -> Result<Tree, AllocError>
        ensures { IfOk result (λ t. t ≡ self.now) }
    {
        Ok(Tree {
            parents: self.parents.copy()?,
            names: copy_names(&self.names)?,
        })
    }

    /// Why the definition is refused, but for want of memory.
    fn fault(&self, form: &StructForm) -> Option<TreeFault>
        ensures { result ≡ spec.fault self.now form.now }
    {
        if builtin(&form.name).is_some() {
            Some(TreeFault::Reserved)
        } else if self.find(&form.name).is_some() {
            Some(TreeFault::Twice)
        } else if form.typed {
            None
        } else {
            self.include_fault(&form.include)
        }
    }

    /// Why a definition that includes this name, or none, is refused.
    fn include_fault(&self, include: &Option<Symbol>) -> Option<TreeFault>
        ensures { result ≡ spec.include_fault self.now include.now }
    {
        let Some(name) = include else {
            return None;
        };
        match self.find(name) {
            Some(Defined::Structure(_)) => None,
            Some(Defined::Typed) => Some(TreeFault::IncludeOfTyped),
            None => Some(TreeFault::UnknownInclude),
        }
    }

    /// Adds a name that is no type.
    fn put_typed(&mut self, name: &Symbol) -> Result<(), AllocError>
        requires { spec.look_up name.now self.old ≡ None }
        ensures ok { OnOk result (self.new ≡ self.old ++ (name.now, defined.Typed) ∷ []) }
        ensures err { OnErr result (self.new ≡ self.old) }
    {
        let key = name.copy()?;
        self.names.insert(key, Defined::Typed)?;
        Ok(())
    }

    /// Adds a structure type.
    fn put_type(&mut self, name: &Symbol, include: &Option<Symbol>) -> Result<(), AllocError>
        requires is_new { spec.look_up name.now self.old ≡ None }
        requires is_before { spec.include_fault self.old include.now ≡ None }
        ensures ok { OnOk result (self.new ≡ self.old ++ (name.now, defined.Structure include.now) ∷ []) }
        ensures err { OnErr result (self.new ≡ self.old) }
    {
        let key = name.copy()?;
        let made = Defined::Structure(copy_name(include.as_ref())?);
        let listed = name.copy()?;
        let included = copy_name(include.as_ref())?;
        self.names.reserve(1)?;
        self.parents.push(listed, included)?;
        self.names.insert(key, made)?;
        Ok(())
    }

    /// Adds a definition behind the others. A typed one keeps its name and makes no type. After a refusal the tree is
    /// as before.
    pub fn add(&mut self, form: &StructForm) -> Result<(), TreeFault>
        ensures ok { OnOk result (self.new ≡ spec.with_form self.old form.now) }
        ensures accepted { OnOk result (spec.fault self.old form.now ≡ None) }
        ensures fault { IfErr result (spec.IsFaultOf (spec.fault self.old form.now)) }
        ensures err { OnErr result (self.new ≡ self.old) }
    {
        if let Some(fault) = self.fault(form) {
            return Err(fault);
        }
        if form.typed {
            self.put_typed(&form.name)?;
        } else {
            self.put_type(&form.name, &form.include)?;
        }
        Ok(())
    }
}
