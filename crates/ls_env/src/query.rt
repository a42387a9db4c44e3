// Queries among top-level forms.

ghost use Rattle.std.specs.Prelude.{◌≡◌, [], ◌∷◌, ◌++◌, map, IfOk, OnOk};
ghost use Rattle.ls_env.specs.TopLevel.{asked, query_with, queries_of};

use crate::operator::{Operator, operator_of_list};
use ls_object::Items;
use ls_reader::{Datum, Form};
use std::alloc::{AllocError, Global};

/// What a query asks for.
#[derive(Clone, Copy, Debug, PartialEq, Eq)]
pub enum QueryKind {
    /// Whether one type is included in another (SUBTYPEP).
    Subtypep,
    /// Whether an object belongs to a type (TYPEP).
    Typep,
}

/// A top-level form that asks something.
#[derive(Drop)]
pub struct Query {
    pub kind: QueryKind,
    /// The whole form, its operator included.
    pub form: Datum,
}

/// What a form asks for, if it is a query.
fn asked(form: &Datum) -> Option<QueryKind>
    ensures { result ≡ asked form.now }
{
    let Form::List(items) = &form.form else {
        return None;
    };
    match operator_of_list(items.as_slice()) {
        Operator::Subtypep => Some(QueryKind::Subtypep),
        Operator::Typep => Some(QueryKind::Typep),
        Operator::Progn
        | Operator::EvalWhen
        | Operator::Deftype
        | Operator::Defstruct
        | Operator::Defclass
        | Operator::Other => None,
    }
}

/// Appends a form that is a query.
fn push_query(alloc: Global, form: &Datum, out: &mut Items<Query>) -> Result<(), AllocError>
    ensures { OnOk result (out.new ≡ out.old ++ query_with form.now (asked form.now)) }
{
    let Some(kind) = asked(form) else {
        return Ok(());
    };
    let form = form.copy(alloc)?;
    out.push(Query { kind, form })?;
    Ok(())
}

/// The queries among top-level forms, in order.
pub(crate) fn queries_among(alloc: Global, top: &[&Datum]) -> Result<Items<Query>, AllocError>
    ensures { IfOk result (λ qs. qs ≡ queries_of (map (λ d. d.now) top.now)) }
{
    let mut queries = Items::new(alloc);
    for form in top {
        push_query(alloc, *form, &mut queries)?;
    }
    Ok(queries)
}
