// The report on a text.

ghost use Rattle.ls_env.specs.Environments.{environment, structures_of};
ghost use Rattle.std.specs.Prelude.{◌≡◌, ◌≤◌, ◌++◌, ◌^◌, [], length, IfOk, OnOk};
ghost use Rattle.ls_io.specs.Moves.{limit};
ghost use Rattle.ls_cells.specs.Kept.{structures_in, entries_in, Grows};
ghost use Rattle.subtypep_app.specs.Replies.{IsAnswered};
ghost use Rattle.subtypep_app.specs.Report.{AreReported, IsLineOf, IsReport, fault_body, fault_text, is_finding, line_text};
ghost use Rattle.subtypep_app.specs.Charges.{AreCharged};
ghost use Rattle.subtypep_app.specs.steps.Charging.{HasSpent, HaveSpent};
ghost use Rattle.subtypep_app.specs.steps.Reporting.{LineAppended, status_for};

use crate::decider::Decider;
use crate::line::line_of;
use crate::status::Status;
use crate::text::{push_at, push_line};
use ls_env::{Env, Query};
use ls_memo::Steps;
use ls_object::{Items, Text};
use ls_reader::{Datum, ReadError, Span, read_text};
use std::alloc::{AllocError, Global};
use std::sync::ledger::Ledger;

/// A whole report, and the status that stands for it.
#[derive(Drop)]
pub(crate) struct Report {
    pub text: Text,
    pub status: Status,
}

/// Appends the line of a query, and says whether the line is a finding.
fn push_query<L: Ledger>(
    alloc: Global,
    env: &Env,
    decider: &mut Decider,
    steps: &mut Steps<L>,
    query: &Query,
    out: &mut Text,
) -> Result<bool, AllocError>
    requires structures { structures_in decider.old.session ≡ structures_of env.now }
    ensures budget { decider.new.budget ≡ decider.old.budget }
    ensures structures { structures_in decider.new.session ≡ structures_in decider.old.session }
    ensures keeps { Grows (entries_in decider.old.session) (entries_in decider.new.session) }
    ensures line { IfOk result (LineAppended decider.old.budget env.now query.now out.old out.new) }
    ensures spent { IfOk result (λ found. HasSpent decider.old.budget env.now query.now
        (entries_in decider.old.session) (entries_in decider.new.session) steps.old steps.new) }
{
    let line = line_of(alloc, env, decider, steps, query)?;
    push_line(out, query.form.span, &line)?;
    Ok(line.is_finding())
}

/// Appends a line for each of the queries, and says whether one of them is a finding.
fn push_queries<L: Ledger>(
    alloc: Global,
    env: &Env,
    decider: &mut Decider,
    steps: &mut Steps<L>,
    queries: &[Query],
    out: &mut Text,
) -> Result<bool, AllocError>
    requires empty { out.old ≡ [] }
    requires structures { structures_in decider.old.session ≡ structures_of env.now }
    ensures budget { decider.new.budget ≡ decider.old.budget }
    ensures structures { structures_in decider.new.session ≡ structures_in decider.old.session }
    ensures keeps { Grows (entries_in decider.old.session) (entries_in decider.new.session) }
    ensures lines { IfOk result
        (λ found. AreReported (IsLineOf decider.old.budget env.now) line_text is_finding queries.now found out.new) }
    ensures spent { IfOk result (λ found. HaveSpent decider.old.budget env.now queries.now
        (entries_in decider.old.session) (entries_in decider.new.session) steps.old steps.new) }
{
    let mut found = false;
    for query in queries {
        let finding = push_query(alloc, env, decider, steps, query, out)?;
        found = found || finding;
    }
    Ok(found)
}

/// Appends a line for each query of a file, and says whether one of them is a finding. All are asked of one session.
fn push_report<L: Ledger>(
    alloc: Global,
    env: &Env,
    budget: u64,
    steps: &mut Steps<L>,
    out: &mut Text,
) -> Result<bool, AllocError>
    requires budget { budget ≤ 2 ^ 30 }
    requires empty { out.old ≡ [] }
    ensures lines { IfOk result
        (λ found. AreReported (IsLineOf budget env.now) line_text is_finding env.now.queries found out.new) }
    ensures charged { IfOk result (λ found. AreCharged budget env.now steps.old steps.new) }
{
    let mut decider = Decider::new(alloc, env, budget)?;
    push_queries(
        alloc,
        env,
        &mut decider,
        steps,
        env.queries().as_slice(),
        out,
    )
}

/// The report on the queries of a file, and whether one of its lines is a finding.
fn report_on<L: Ledger>(
    alloc: Global,
    budget: u64,
    forms: &Items<Datum>,
    steps: &mut Steps<L>,
) -> Result<(Text, bool), AllocError>
    requires { budget ≤ 2 ^ 30 }
    ensures report { IfOk result (λ made. IsReport budget forms.now made.1 made.0) }
    ensures charged { IfOk result (λ made. AreCharged budget (environment forms.now) steps.old steps.new) }
{
    let env = Env::of_file(alloc, forms)?;
    let mut text = Text::of_ascii(alloc, "")?;
    let found = push_report(alloc, &env, budget, steps, &mut text)?;
    Ok((text, found))
}

/// The status of a report with a finding, or without one.
pub(crate) fn status_for(found: bool) -> Status
    ensures { result ≡ status_for found }
{
    if found { Status::Found } else { Status::Clean }
}

fn push_fault_body(out: &mut Text, error: &ReadError) -> Result<(), AllocError>
    ensures { OnOk result (out.new ≡ out.old ++ fault_body error.now) }
{
    match error {
        ReadError::NotUtf8(span) => push_at(out, "NOT-UTF8 ", *span),
        ReadError::BadToken(span) => push_at(out, "BAD-TOKEN ", *span),
        ReadError::StrayClose(span) => push_at(out, "STRAY-CLOSE ", *span),
        ReadError::Unclosed(span) => push_at(out, "UNCLOSED ", *span),
        ReadError::BadDot(span) => push_at(out, "BAD-DOT ", *span),
        ReadError::TooDeep(span) => push_at(out, "TOO-DEEP ", *span),
        ReadError::ZeroDenominator(span) => push_at(out, "ZERO-DENOMINATOR ", *span),
        ReadError::Label(span) => push_at(out, "LABEL ", *span),
        ReadError::Memory => Ok(()),
    }
}

/// The one line of a text that has a fault.
fn fault_line(alloc: Global, error: &ReadError) -> Result<Text, AllocError>
    ensures { IfOk result (λ text. text ≡ fault_text error.now) }
{
    let mut text = Text::of_ascii(alloc, "FAULT ")?;
    push_fault_body(&mut text, error)?;
    text.push_ascii("\n")?;
    Ok(text)
}

/// The report that answers a text, with this budget for each query.
pub(crate) fn report_of<L: Ledger>(
    alloc: Global,
    budget: u64,
    text: &[u8],
    steps: &mut Steps<L>,
) -> Result<Report, AllocError>
    requires short { length text.now ≤ limit }
    requires budget { budget ≤ 2 ^ 30 }
    ensures { IfOk result (λ report. IsAnswered budget text.now report.status report.text steps.old steps.new) }
{
    match read_text(alloc, text) {
        Ok(forms) => {
            let (text, found) = report_on(alloc, budget, &forms, steps)?;
            let status = status_for(found);
            Ok(Report { text, status })
        }
        Err(ReadError::Memory) => Err(AllocError),
        Err(error) => {
            let text = fault_line(alloc, &error)?;
            let status = Status::Unreadable;
            Ok(Report { text, status })
        }
    }
}
