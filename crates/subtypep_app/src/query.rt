// What a query asks.

ghost use Rattle.std.specs.Prelude.{◌≡◌};
ghost use Rattle.ls_reader.specs.declared.datum.Form.{out-Form};
ghost use Rattle.ls_env.specs.Arguments.{value_of};
ghost use Rattle.ls_env.specs.declared.query.QueryKind.TheVariants as query_kind;
ghost use Rattle.subtypep_app.specs.Queries as spec;
ghost use Rattle.subtypep_app.specs.steps.Asking.{posed};

use ls_env::{Argument, Query, QueryKind, value_of};
use ls_grammar::{Refusal, RefusalKind};
use ls_reader::{Datum, Form};

/// What a query asks, with its data lent.
#[derive(Drop)]
pub(crate) enum Question<'a> {
    /// Whether the type of the first datum is included in that of the second.
    Inclusion(&'a Datum, &'a Datum),
    /// Whether the object of the first datum belongs to the type of the second.
    Membership(&'a Datum, &'a Datum),
    /// Nothing: this is wrong with it.
    Refused(Refusal),
}

fn bad_argument(datum: &Datum) -> Question<'static>
    ensures { posed result ≡ spec.bad_argument datum.now }
{
    Question::Refused(Refusal {
        kind: RefusalKind::BadArgument,
        place: datum.span,
    })
}

/// The question about the values of two arguments.
fn inclusion_question<'a>(first: &'a Datum, second: &'a Datum) -> Question<'a>
    ensures { posed result ≡ spec.inclusion_question first.now second.now (value_of first.now) (value_of second.now) }
{
    match value_of(first) {
        Argument::Evaluated => bad_argument(first),
        Argument::Known(a) => match value_of(second) {
            Argument::Evaluated => bad_argument(second),
            Argument::Known(b) => Question::Inclusion(a, b),
        },
    }
}

/// What a SUBTYPEP form with these arguments asks.
fn subtypep_question<'a>(form: &'a Datum, args: &'a [Datum]) -> Question<'a>
    ensures { posed result ≡ spec.subtypep_question form.now args.now }
{
    match args {
        [first, second] => inclusion_question(first, second),
        [first, second, _] => inclusion_question(first, second),
        _ => bad_argument(form),
    }
}

/// The question about an object and the value of a type argument.
fn membership_question<'a>(object: &'a Datum, of: &'a Datum) -> Question<'a>
    ensures { posed result ≡ spec.membership_question object.now of.now (value_of of.now) }
{
    match value_of(of) {
        Argument::Evaluated => bad_argument(of),
        Argument::Known(a) => Question::Membership(object, a),
    }
}

/// What a TYPEP form with these arguments asks.
fn typep_question<'a>(form: &'a Datum, args: &'a [Datum]) -> Question<'a>
    ensures { posed result ≡ spec.typep_question form.now args.now }
{
    match args {
        [object, of] => membership_question(object, of),
        [object, of, _] => membership_question(object, of),
        _ => bad_argument(form),
    }
}

/// What stands behind the operator of a form.
fn arguments_in(form: &Datum) -> &[Datum]
    ensures { result.now ≡ spec.arguments_in (out-Form form.now.form) }
{
    match &form.form {
        Form::List(items) => match items.as_slice() {
            [_, args @ ..] => args,
            [] => &[],
        },
        _ => &[],
    }
}

/// What a query asks.
pub(crate) fn question_of(query: &Query) -> Question<'_>
    ensures { posed result ≡ spec.question_of query.now }
{
    let args = arguments_in(&query.form);
    match query.kind {
        QueryKind::Subtypep => subtypep_question(&query.form, args),
        QueryKind::Typep => typep_question(&query.form, args),
    }
}
