// The line that answers a query.

ghost use Rattle.ls_env.specs.Environments.{structures_of};
ghost use Rattle.std.specs.Prelude.{◌≡◌, IfOk};
ghost use Rattle.ls_cells.specs.Kept.{structures_in, entries_in, Grows};
ghost use Rattle.subtypep_app.specs.Queries.{inclusion, membership};
ghost use Rattle.subtypep_app.specs.Report.{IsRightLine, IsLineOf, is_finding};
ghost use Rattle.subtypep_app.specs.steps.Asking.{line_of_stop, line_of_no_object};
ghost use Rattle.subtypep_app.specs.steps.Lines.{IsPlainLine};
ghost use Rattle.subtypep_app.specs.steps.Charging.{SpendsOn, HasSpent};

use crate::decider::Decider;
use crate::query::{Question, question_of};
use ls_decide::{Answer, Belongs};
use ls_env::{Env, Query};
use ls_grammar::{ObjectRefusal, Refusal, Stop, object_of, resolve};
use ls_memo::Steps;
use ls_reader::Datum;
use std::alloc::{AllocError, Global};
use std::sync::ledger::Ledger;

/// What is written for a query.
#[derive(Drop)]
pub(crate) enum Line {
    /// Whether a type is included in another.
    Answered(Answer),
    /// Whether an object belongs to a type.
    Placed(Belongs),
    /// This is wrong with the query, or with a type in it.
    Refused(Refusal),
    /// This is wrong with the object in it.
    NoObject(ObjectRefusal),
}

impl Line {
    /// Whether the line leaves the query open: by a refusal, or since it costs too much.
    pub(crate) fn is_finding(&self) -> bool
        ensures { result ≡ is_finding self.now }
    {
        match self {
            Line::Answered(Answer::Yes | Answer::No(_) | Answer::Unsure(_)) => false,
            Line::Answered(Answer::TooLarge) => true,
            Line::Placed(Belongs::Inside | Belongs::Outside | Belongs::Depends) => false,
            Line::Placed(Belongs::TooLarge) => true,
            Line::Refused(_) => true,
            Line::NoObject(_) => true,
        }
    }
}

/// The line of a type that was not resolved.
fn stopped_line(stop: Stop) -> Result<Line, AllocError>
    ensures told { line_of_stop stop result }
    ensures plain { IfOk result IsPlainLine }
{
    match stop {
        Stop::Memory => Err(AllocError),
        Stop::Refused(refusal) => Ok(Line::Refused(refusal)),
    }
}

/// The line of an object that was not read.
fn no_object_line(refusal: ObjectRefusal) -> Result<Line, AllocError>
    ensures told { line_of_no_object refusal result }
    ensures plain { IfOk result IsPlainLine }
{
    match refusal {
        ObjectRefusal::Memory => Err(AllocError),
        ObjectRefusal::NoLiteral(at) => Ok(Line::NoObject(ObjectRefusal::NoLiteral(at))),
        ObjectRefusal::NumberTooWide(at) => Ok(Line::NoObject(ObjectRefusal::NumberTooWide(at))),
        ObjectRefusal::TooDeep(at) => Ok(Line::NoObject(ObjectRefusal::TooDeep(at))),
    }
}

/// The line on whether the type of the first datum is included in that of the second.
fn inclusion_line<L: Ledger>(
    alloc: Global,
    env: &Env,
    decider: &mut Decider,
    steps: &mut Steps<L>,
    first: &Datum,
    second: &Datum,
) -> Result<Line, AllocError>
    requires structures { structures_in decider.old.session ≡ structures_of env.now }
    ensures budget { decider.new.budget ≡ decider.old.budget }
    ensures structures { structures_in decider.new.session ≡ structures_in decider.old.session }
    ensures keeps { Grows (entries_in decider.old.session) (entries_in decider.new.session) }
    ensures right { IfOk result (IsRightLine decider.old.budget env.now (inclusion first.now second.now)) }
    ensures spends { IfOk result (λ line. SpendsOn decider.old.budget env.now (inclusion first.now second.now)
        (entries_in decider.old.session) (entries_in decider.new.session) steps.old steps.new) }
    ensures plain { IfOk result IsPlainLine }
{
    let a = match resolve(alloc, env, first) {
        Ok(spec) => spec,
        Err(stop) => return stopped_line(stop),
    };
    let b = match resolve(alloc, env, second) {
        Ok(spec) => spec,
        Err(stop) => return stopped_line(stop),
    };
    Ok(Line::Answered(decider.answer(&a, &b, steps)?))
}

/// The line on whether the object of the first datum belongs to the type of the second.
fn membership_line<L: Ledger>(
    alloc: Global,
    env: &Env,
    decider: &mut Decider,
    steps: &mut Steps<L>,
    object: &Datum,
    of: &Datum,
) -> Result<Line, AllocError>
    requires structures { structures_in decider.old.session ≡ structures_of env.now }
    ensures budget { decider.new.budget ≡ decider.old.budget }
    ensures structures { structures_in decider.new.session ≡ structures_in decider.old.session }
    ensures keeps { Grows (entries_in decider.old.session) (entries_in decider.new.session) }
    ensures right { IfOk result (IsRightLine decider.old.budget env.now (membership object.now of.now)) }
    ensures spends { IfOk result (λ line. SpendsOn decider.old.budget env.now (membership object.now of.now)
        (entries_in decider.old.session) (entries_in decider.new.session) steps.old steps.new) }
    ensures plain { IfOk result IsPlainLine }
{
    let object = match object_of(alloc, object) {
        Ok(object) => object,
        Err(refusal) => return no_object_line(refusal),
    };
    let s = match resolve(alloc, env, of) {
        Ok(spec) => spec,
        Err(stop) => return stopped_line(stop),
    };
    Ok(Line::Placed(decider.place(&object, &s, steps)?))
}

/// A right line for a query.
pub(crate) fn line_of<L: Ledger>(
    alloc: Global,
    env: &Env,
    decider: &mut Decider,
    steps: &mut Steps<L>,
    query: &Query,
) -> Result<Line, AllocError>
    requires structures { structures_in decider.old.session ≡ structures_of env.now }
    ensures budget { decider.new.budget ≡ decider.old.budget }
    ensures structures { structures_in decider.new.session ≡ structures_in decider.old.session }
    ensures keeps { Grows (entries_in decider.old.session) (entries_in decider.new.session) }
    ensures right { IfOk result (IsLineOf decider.old.budget env.now query.now) }
    ensures spends { IfOk result (λ line. HasSpent decider.old.budget env.now query.now
        (entries_in decider.old.session) (entries_in decider.new.session) steps.old steps.new) }
    ensures plain { IfOk result IsPlainLine }
{
    match question_of(query) {
        Question::Inclusion(first, second) => {
            inclusion_line(alloc, env, decider, steps, first, second)
        }
        Question::Membership(object, of) => {
            membership_line(alloc, env, decider, steps, object, of)
        }
        Question::Refused(refusal) => Ok(Line::Refused(refusal)),
    }
}
