// The top-level forms of a file.

ghost use Rattle.std.specs.Prelude.{◌≡◌, ◌++◌, map, drop, IfOk, OnOk};
ghost use Rattle.ls_env.specs.TopLevel.{top_in};
ghost use Rattle.ls_env.specs.steps.Gathered.{tops};

use crate::operator::{Operator, operator_of_list};
use ls_object::Items;
use ls_reader::{Datum, Form};
use std::alloc::{AllocError, Global};

/// The top-level forms that a file's forms give, lent.
pub(crate) fn top_forms<'a>(
    alloc: Global,
    forms: &'a [Datum],
) -> Result<Items<&'a Datum>, AllocError>
    ensures { IfOk result (λ top. map (λ d. d.now) top ≡ top_in forms.entry.now) }
{
    let mut top = Items::new(alloc);
    push_from(forms, 0, &mut top)?;
    Ok(top)
}

/// Appends the top-level forms that the forms from this place on give.
#[cycle(top)]
fn push_from<'a>(
    forms: &'a [Datum],
    from: usize,
    out: &mut Items<&'a Datum>,
) -> Result<(), AllocError>
    ensures { OnOk result
        (map (λ d. d.now) out.new ≡ map (λ d. d.now) out.old ++ top_in (drop from forms.entry.now)) }
{
    for i in from..forms.len() {
        push_top(&forms[i], out)?;
    }
    Ok(())
}

/// Appends a form in a top-level place, and the top-level forms inside it.
#[cycle(top)]
fn push_top<'a>(form: &'a Datum, out: &mut Items<&'a Datum>) -> Result<(), AllocError>
    ensures { OnOk result (map (λ d. d.now) out.new ≡ map (λ d. d.now) out.old ++ tops form.entry.now) }
{
    out.push(form)?;
    let Form::List(items) = &form.form else {
        return Ok(());
    };
    let items = items.as_slice();
    match operator_of_list(items) {
        Operator::Progn => push_from(items, 1, out),
        Operator::EvalWhen => push_from(items, 2, out),
        Operator::Subtypep
        | Operator::Typep
        | Operator::Deftype
        | Operator::Defstruct
        | Operator::Defclass
        | Operator::Other => Ok(()),
    }
}
