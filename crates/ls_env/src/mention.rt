// Which templates the body of a template mentions, by their numbers.

ghost use Rattle.std.specs.Prelude.{◌≡◌, ◌++◌, map, IfOk, OnOk};
ghost use Rattle.ls_reader.specs.declared.datum.Form.{out-Form};
ghost use Rattle.ls_deftype.specs.Templates.{definition_of};
ghost use Rattle.ls_env.specs.Mentions.{takes_objects, mentions};
ghost use Rattle.ls_env.specs.Statuses.{mentioned, graph_of};
ghost use Rattle.ls_env.specs.steps.Mentioned.{is_of_objects, mentioned_by, mentioned_by_all};

use crate::finishing::looked_up;
use crate::status::NameStatus;
use indexmap::IndexSet;
use ls_deftype::Template;
use ls_object::{Items, Symbol};
use ls_reader::{Datum, Form};
use std::alloc::{AllocError, Global};

/// The names of templates, by which mentions are found.
#[derive(Clone, Copy, Drop)]
pub(crate) struct Finder<'a> {
    pub names: &'a IndexSet<Symbol>,
    pub statuses: &'a [NameStatus],
}

/// Whether it is MEMBER, EQL or SATISFIES, whose arguments are no specifiers.
fn takes_objects(symbol: &Symbol) -> bool
    ensures { result ≡ takes_objects symbol.now }
{
    symbol.package.is_ascii_text("COMMON-LISP")
        && (symbol.name.is_ascii_text("MEMBER")
            || symbol.name.is_ascii_text("EQL")
            || symbol.name.is_ascii_text("SATISFIES"))
}

/// Whether the list has one of these three names in front.
fn is_of_objects(items: &[Datum]) -> bool
    ensures { result ≡ is_of_objects items.now }
{
    match items {
        [head, ..] => match &head.form {
            Form::Symbol(symbol) => takes_objects(symbol),
            _ => false,
        },
        [] => false,
    }
}

impl Finder<'_> {
    /// Appends the number of the template of that name, if there is one.
    fn push_number(&self, symbol: &Symbol, out: &mut Items<usize>) -> Result<(), AllocError>
        ensures { OnOk result
            (out.new ≡ out.old ++ mentioned_by self.now.names.now.keys self.now.statuses.now symbol.now) }
    {
        if let NameStatus::Deftype(number) = looked_up(self.names, self.statuses, symbol) {
            out.push(number)?;
        }
        Ok(())
    }

    /// Appends what the data mention.
    #[cycle(mention)]
    fn push_all(&self, data: &[Datum], out: &mut Items<usize>) -> Result<(), AllocError>
        ensures { OnOk result
            (out.new ≡ out.old ++ mentioned_by_all self.now.names.now.keys self.now.statuses.now data.now) }
    {
        for datum in data {
            self.push_from(datum, out)?;
        }
        Ok(())
    }

    /// Appends what a datum of a body mentions.
    #[cycle(mention)]
    fn push_from(&self, datum: &Datum, out: &mut Items<usize>) -> Result<(), AllocError>
        ensures { OnOk result
            (out.new ≡ out.old ++ mentioned self.now.names.now.keys self.now.statuses.now datum.now) }
    {
        match &datum.form {
            Form::Symbol(symbol) => self.push_number(symbol, out),
            Form::List(items) => if is_of_objects(items.as_slice()) {
                Ok(())
            } else {
                self.push_all(items.as_slice(), out)
            },
            Form::Vector(items) => self.push_all(items.as_slice(), out),
            Form::Dotted(items, last) => {
                self.push_all(items.as_slice(), out)?;
                self.push_from(last.get(), out)
            }
            Form::Quote(of) | Form::Back(of) | Form::FunctionOf(of) => self.push_from(
                of.get(),
                out,
            ),
            Form::Number(_)
            | Form::Float(_)
            | Form::Char(_)
            | Form::Str(_)
            | Form::Bits(_)
            | Form::Odd
            | Form::Splice(_)
            | Form::Comma(_) => Ok(()),
        }
    }
}

/// For each template, the numbers of those that its body mentions.
pub(crate) fn graph_of(
    alloc: Global,
    finder: Finder<'_>,
    templates: &[Template],
) -> Result<Items<Items<usize>>, AllocError>
    ensures { IfOk result (λ graph. graph
        ≡ graph_of finder.entry.names.now.keys finder.entry.statuses.now (map definition_of templates.now)) }
{
    let mut graph = Items::new(alloc);
    for template in templates {
        let mut numbers = Items::new(alloc);
        finder.push_from(&template.body, &mut numbers)?;
        graph.push(numbers)?;
    }
    Ok(graph)
}
