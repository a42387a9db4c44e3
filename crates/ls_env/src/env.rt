ghost use Rattle.std.specs.Prelude.{◌≡◌, List, Some, length, slice_get, IfOk};
ghost use Rattle.ls_deftype.specs.Templates.{definition_of};
ghost use Rattle.ls_env.specs.Statuses.{Standing, statuses_in};
ghost use Rattle.ls_env.specs.Environments.{environment};
ghost use Rattle.ls_env.specs.Naming.{quote_symbol, status_of, IsNumber};
ghost use Rattle.ls_env.specs.Reaching.{TellsReaching};
ghost use Rattle.ls_env.specs.steps.Gathered.{IsTableOf, IsEnvOf};
ghost use Rattle.ls_env.specs.steps.Marking.{AreNumbered};

use crate::census::{Census, census_of};
use crate::definition::definitions_among;
use crate::finishing::{all_finished, looked_up};
use crate::marking::marks_of;
use crate::mention::{Finder, graph_of};
use crate::query::{Query, queries_among};
use crate::status::NameStatus;
use crate::structure::{by_tree, tree_of};
use crate::table::{Table, table_of};
use crate::top::top_forms;
use indexmap::IndexSet;
use ls_deftype::Template;
use ls_object::{Items, Symbol, Text};
use ls_reader::Datum;
use ls_structs::Tree;
use std::alloc::{AllocError, Global};
use std::marker::Model;

/// What the forms of a file say together.
#[derive(Drop)]
pub struct Env {
    queries: Items<Query>,
    tree: Tree,
    names: IndexSet<Symbol>,
    statuses: Items<NameStatus>,
    templates: Items<Template>,
    /// The status of QUOTE.
    quoted: NameStatus,
}

impl Model for Env {
    ghost use Rattle.std.specs.Prelude.{length, map};
    ghost use Rattle.std.specs.Coded.{codes};
    ghost use Rattle.ls_object.specs.contracts.symbol.Symbol as symbol;
    ghost use Rattle.ls_reader.specs.contracts.datum.Form as form;
    ghost use Rattle.ls_deftype.specs.Templates.{definition_of};
    ghost use Rattle.ls_env.specs.Environments.{Environment};
    ghost use Rattle.ls_env.specs.Naming.{IsTable};

    ghost Value = { Environment };

    ghost coded = { Prim.hlevel (codes, form.the_row.coded, symbol.the_row.coded) };

    ghost view = { λ e. record {
      queries = e.queries;
      tree = e.tree;
      names = e.names.keys;
      statuses = e.statuses;
      templates = map definition_of e.templates;
    } };

    ghost invariant = { λ e. IsTable e.tree e.names.keys e.statuses (length e.templates) e.quoted };
}

/// The statuses of the names of a table, where it is known which templates lead back to themselves.
fn statuses_of(
    alloc: Global,
    names: &IndexSet<Symbol>,
    table: &Table,
) -> Result<Items<NameStatus>, AllocError>
    requires { AreNumbered (length table.now.templates) table.now.statuses }
    ensures statuses { IfOk result (λ statuses. (ss : List Standing) → IsTableOf ss table.now
        → statuses ≡ statuses_in names.now.keys ss) }
    ensures numbered { IfOk result (AreNumbered (length table.now.templates)) }
{
    let finder = Finder {
        names,
        statuses: table.statuses.as_slice(),
    };
    let graph = graph_of(alloc, finder, table.templates.as_slice())?;
    let marks = marks_of(alloc, graph.as_slice())?;
    all_finished(alloc, marks.as_slice(), table.statuses.as_slice())
}

fn quote_symbol(alloc: Global) -> Result<Symbol, AllocError>
    ensures { IfOk result (λ s. s ≡ quote_symbol) }
{
    let name = Text::of_ascii(alloc, "QUOTE")?;
    Symbol::of_common_lisp(alloc, name)
}

impl Env {
    /// What the forms of a file say. It takes time and memory by their size.
    pub fn of_file(alloc: Global, forms: &Items<Datum>) -> Result<Env, AllocError>
        ensures { IfOk result (λ env. env ≡ environment forms.now) }
    {
        let top = top_forms(alloc, forms.as_slice())?;
        let queries = queries_among(alloc, top.as_slice())?;
        let definitions = definitions_among(alloc, top.as_slice())?;
        let Census { names, defined } = census_of(alloc, definitions.as_slice())?;
        let tree = tree_of(alloc, defined.as_slice())?;
        let table = table_of(alloc, defined.as_slice())?;
        Env::of_table(alloc, queries, tree, names, table)
    }

    fn of_table(
        alloc: Global,
        queries: Items<Query>,
        tree: Tree,
        names: IndexSet<Symbol>,
        table: Table,
    ) -> Result<Env, AllocError>
        requires { AreNumbered (length table.templates) table.statuses }
        ensures { IfOk result (λ env. (ss : List Standing) → IsTableOf ss table
            → IsEnvOf queries tree names.keys ss env) }
    {
        let statuses = statuses_of(alloc, &names, &table)?;
        let quote = quote_symbol(alloc)?;
        let listed = looked_up(&names, statuses.as_slice(), &quote);
        let quoted = by_tree(&tree, &quote, listed);
        let Table {
            statuses: _,
            templates,
        } = table;
        Ok(Env {
            queries,
            tree,
            names,
            statuses,
            templates,
            quoted,
        })
    }

    /// The queries of the file, in order.
    pub fn queries(&self) -> &Items<Query>
        ensures { result.now ≡ self.now.queries }
    {
        &self.queries
    }

    /// The structure types of the file.
    pub fn tree(&self) -> &Tree
        ensures { result.now ≡ self.now.tree }
    {
        &self.tree
    }

    /// What the file says of a name that is not built in, by look-ups, which take no memory.
    pub fn status(&self, name: &Symbol) -> NameStatus
        ensures { result ≡ status_of self.now name.now }
    {
        let listed = looked_up(&self.names, self.statuses.as_slice(), name);
        by_tree(&self.tree, name, listed)
    }

    /// What the file says of the name QUOTE, the head of the list that `'x` stands for.
    pub fn status_of_quote(&self) -> NameStatus
        ensures { result ≡ status_of self.now quote_symbol }
    {
        self.quoted
    }

    /// The template of a DEFTYPE, by the number in its name's status.
    pub fn template(&self, number: usize) -> &Template
        requires { IsNumber self.now number }
        ensures { slice_get self.now.templates number ≡ Some (definition_of result.now) }
    {
        &self.templates.as_slice()[number]
    }
}

/// A name has the status Recursive exactly where its template reaches itself: a walk from a template sees it again
/// exactly where there is a way from it to itself. The body is empty, since this is a law.
pub fn a_walk_comes_back_where_a_template_reaches_itself()
    ensures { TellsReaching }
{}
