// Templates with their numbers, and the statuses of names.

ghost use Rattle.std.specs.Prelude.{◌≡◌, [], ◌∷◌, ◌++◌, map, List, IfOk, OnOk};
ghost use Rattle.ls_deftype.specs.Templates.{definition_of, template_of};
ghost use Rattle.ls_env.specs.Statuses.{Standing, template, settled, by_template};
ghost use Rattle.ls_env.specs.steps.Gathered.{shown, standing_of, IsTableOf};

use crate::census::Defined;
use crate::definition::DefiningKind;
use crate::status::NameStatus;
use ls_deftype::{Template, TemplateFault};
use ls_object::Items;
use ls_reader::Datum;
use std::alloc::{AllocError, Global};

/// The templates by their numbers, and the statuses of the names so far.
#[derive(Drop)]
pub(crate) struct Table {
    pub statuses: Items<NameStatus>,
    pub templates: Items<Template>,
}

impl Table {
    fn new(alloc: Global) -> Table
        ensures { IsTableOf [] result }
    {
        Table {
            statuses: Items::new(alloc),
            templates: Items::new(alloc),
        }
    }

    fn add_template(&mut self, made: Template) -> Result<(), AllocError>
        ensures { OnOk result ((ss : List Standing) → IsTableOf ss self.old
            → IsTableOf (ss ++ template (definition_of made) ∷ []) self.new) }
    {
        let number = self.templates.len();
        self.statuses.push(NameStatus::Deftype(number))?;
        self.templates.push(made)
    }

    fn add_settled(&mut self, status: NameStatus) -> Result<(), AllocError>
        ensures { OnOk result ((ss : List Standing) → IsTableOf ss self.old
            → IsTableOf (ss ++ settled status ∷ []) self.new) }
    {
        self.statuses.push(status)
    }

    /// What a DEFTYPE says.
    fn add_type(&mut self, alloc: Global, form: &Datum) -> Result<(), AllocError>
        ensures { OnOk result ((ss : List Standing) → IsTableOf ss self.old
            → IsTableOf (ss ++ by_template (template_of form.now) ∷ []) self.new) }
    {
        match Template::of(alloc, form) {
            Ok(template) => self.add_template(template),
            Err(TemplateFault::CodeBody) => self.add_settled(NameStatus::CodeBody),
            Err(TemplateFault::BadLambdaList) => self.add_settled(NameStatus::BadDefinition),
            Err(TemplateFault::Memory) => Err(AllocError),
        }
    }

    /// What defines one more name.
    fn add(&mut self, alloc: Global, defined: &Defined<'_>) -> Result<(), AllocError>
        ensures { OnOk result ((ss : List Standing) → IsTableOf ss self.old
            → IsTableOf (ss ++ standing_of (shown defined.now) ∷ []) self.new) }
    {
        let Defined::Once(definition) = defined else {
            return self.add_settled(NameStatus::Twice);
        };
        match definition.kind {
            DefiningKind::Type => self.add_type(alloc, definition.form),
            DefiningKind::Structure => self.add_settled(NameStatus::Structure),
            DefiningKind::Class => self.add_settled(NameStatus::Class),
        }
    }
}

/// What defines names, one after the other.
pub(crate) fn table_of(alloc: Global, defined: &[Defined<'_>]) -> Result<Table, AllocError>
    ensures { IfOk result (IsTableOf (map standing_of (map shown defined.now))) }
{
    let mut table = Table::new(alloc);
    for one in defined {
        table.add(alloc, one)?;
    }
    Ok(table)
}
