// The structure types that a file defines.

ghost use Rattle.std.specs.Prelude.{◌≡◌, [], map, IfOk, OnOk};
ghost use Rattle.std.specs.Option.{option_copied};
ghost use Rattle.ls_structs.specs.Forms.{definition};
ghost use Rattle.ls_structs.specs.Trees.{fault, unless_refused};
ghost use Rattle.ls_env.specs.StructureTypes as spec;
ghost use Rattle.ls_env.specs.steps.Gathered.{shown};
ghost use Rattle.ls_env.specs.steps.Joining.{form_of, with_found, joined};

use crate::census::Defined;
use crate::definition::DefiningKind;
use crate::status::NameStatus;
use ls_object::Symbol;
use ls_reader::Datum;
use ls_structs::{StructFault, StructForm, Tree, TreeFault};
use std::alloc::{AllocError, Global};

/// Adds a definition to the tree, unless the tree refuses it.
fn add_form(tree: &mut Tree, form: &StructForm) -> Result<(), AllocError>
    ensures { OnOk result (tree.new ≡ unless_refused tree.old form.now (fault tree.old form.now)) }
{
    match tree.add(form) {
        Ok(()) => Ok(()),
        Err(TreeFault::Reserved) => Ok(()),
        Err(TreeFault::Twice) => Ok(()),
        Err(TreeFault::UnknownInclude) => Ok(()),
        Err(TreeFault::IncludeOfTyped) => Ok(()),
        Err(TreeFault::Memory) => Err(AllocError),
    }
}

/// Adds what a DEFSTRUCT says, if it is in form.
fn add_structure(alloc: Global, tree: &mut Tree, form: &Datum) -> Result<(), AllocError>
    ensures { OnOk result (tree.new ≡ with_found tree.old (spec.form_in (definition form.now))) }
{
    match StructForm::of(alloc, form) {
        Ok(form) => add_form(tree, &form),
        Err(StructFault::NoName) => Ok(()),
        Err(StructFault::BadOption) => Ok(()),
        Err(StructFault::Memory) => Err(AllocError),
    }
}

/// Adds the structure type of a name that one DEFSTRUCT alone defines.
fn add_defined(alloc: Global, tree: &mut Tree, defined: &Defined<'_>) -> Result<(), AllocError>
    ensures { OnOk result (tree.new ≡ with_found tree.old (form_of (shown defined.now))) }
{
    let Defined::Once(definition) = defined else {
        return Ok(());
    };
    match definition.kind {
        DefiningKind::Structure => add_structure(alloc, tree, definition.form),
        DefiningKind::Type => Ok(()),
        DefiningKind::Class => Ok(()),
    }
}

/// What the structure definitions make, one after another.
pub(crate) fn tree_of(alloc: Global, defined: &[Defined<'_>]) -> Result<Tree, AllocError>
    ensures { IfOk result (λ tree. tree ≡ joined [] (map shown defined.now)) }
{
    let mut tree = Tree::new(alloc);
    for one in defined {
        add_defined(alloc, &mut tree, one)?;
    }
    Ok(tree)
}

/// What a name is that one DEFSTRUCT alone defines.
fn structure_status(found: Option<&ls_structs::Defined>) -> NameStatus
    ensures { result ≡ spec.structure_status (option_copied found.entry) }
{
    match found {
        Some(ls_structs::Defined::Structure(_)) => NameStatus::Structure,
        Some(ls_structs::Defined::Typed) => NameStatus::Typed,
        None => NameStatus::BadDefinition,
    }
}

/// The status of a name, where this is that of the forms which define it: what a DEFSTRUCT makes is told by the tree.
pub(crate) fn by_tree(tree: &Tree, name: &Symbol, status: NameStatus) -> NameStatus
    ensures { result ≡ spec.by_tree tree.now name.now status }
{
    match status {
        NameStatus::Structure => structure_status(tree.find(name)),
        other => other,
    }
}
