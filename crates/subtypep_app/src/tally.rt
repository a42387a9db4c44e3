// The report on the generated text: how many queries there are, and how many of each answer.

ghost use Rattle.std.specs.Prelude.{◌≡◌, ◌≤◌, ◌++◌, ◌^◌, [], IfOk, OnOk};
ghost use Rattle.std.specs.List.{AllZip};
ghost use Rattle.std.specs.Str.{IsAscii};
ghost use Rattle.ls_env.specs.Environments.{environment, structures_of};
ghost use Rattle.ls_cells.specs.Kept.{structures_in, entries_in, Grows};
ghost use Rattle.ls_reader.specs.Forms.{Forms};
ghost use Rattle.ls_gen.specs.Generated.{generated_text};
ghost use Rattle.subtypep_app.specs.Replies.{AreTold};
ghost use Rattle.subtypep_app.specs.Tallies.{verdict_of, IsVerdictOn, same_verdict, count_of, count_line, IsTally};
ghost use Rattle.subtypep_app.specs.steps.Charging.{HasSpent, HaveSpent};
ghost use Rattle.subtypep_app.specs.steps.Counting.{AreTallied, text_of_tally};
ghost use Rattle.subtypep_app.specs.steps.Reporting.{status_for};

use crate::decider::Decider;
use crate::line::{Line, line_of};
use crate::report::{Report, status_for};
use itoa::Buffer;
use ls_decide::Answer;
use ls_env::{Env, Query};
use ls_gen::text_of;
use ls_memo::Steps;
use ls_object::{Items, Text};
use ls_reader::{Datum, read_text};
use std::alloc::{AllocError, Global};
use std::sync::ledger::Ledger;

/// What the line of a query is counted as.
#[derive(Clone, Copy, Debug, PartialEq, Eq)]
pub(crate) enum Verdict {
    /// The first type is included in the second: `T`.
    Included,
    /// It is not: `NIL`, with a witness.
    NotIncluded,
    /// The answer costs more than the budget.
    TooLarge,
    /// Any other line.
    Other,
}

/// How many queries there are, how many of each answer, and how many rows were made for them.
#[derive(Clone, Copy, Debug, PartialEq, Eq)]
pub(crate) struct Tally {
    pub queries: usize,
    pub yes: usize,
    pub no: usize,
    pub too_large: usize,
    pub rows: u64,
}

/// What a line is counted as.
fn verdict_of(line: &Line) -> Verdict
    ensures { result ≡ verdict_of line.now }
{
    match line {
        Line::Answered(Answer::Yes) => Verdict::Included,
        Line::Answered(Answer::No(_)) => Verdict::NotIncluded,
        Line::Answered(Answer::TooLarge) => Verdict::TooLarge,
        Line::Answered(Answer::Unsure(_)) => Verdict::Other,
        Line::Placed(_) | Line::Refused(_) | Line::NoObject(_) => Verdict::Other,
    }
}

/// What the line of a query is counted as.
fn verdict_on<L: Ledger>(
    alloc: Global,
    env: &Env,
    decider: &mut Decider,
    steps: &mut Steps<L>,
    query: &Query,
) -> Result<Verdict, AllocError>
    requires structures { structures_in decider.old.session ≡ structures_of env.now }
    ensures budget { decider.new.budget ≡ decider.old.budget }
    ensures structures { structures_in decider.new.session ≡ structures_in decider.old.session }
    ensures right { IfOk result (IsVerdictOn decider.old.budget env.now query.now) }
    ensures spent { IfOk result (λ v. HasSpent decider.old.budget env.now query.now
        (entries_in decider.old.session) (entries_in decider.new.session) steps.old steps.new) }
{
    let line = line_of(alloc, env, decider, steps, query)?;
    Ok(verdict_of(&line))
}

/// What the line of each query is counted as, in order.
fn verdicts_on<L: Ledger>(
    alloc: Global,
    env: &Env,
    decider: &mut Decider,
    steps: &mut Steps<L>,
    queries: &[Query],
) -> Result<Vec<Verdict>, AllocError>
    requires structures { structures_in decider.old.session ≡ structures_of env.now }
    ensures right { IfOk result (λ verdicts. AllZip (IsVerdictOn decider.old.budget env.now) queries.now verdicts.items) }
    ensures spent { IfOk result (λ verdicts. HaveSpent decider.old.budget env.now queries.now
        (entries_in decider.old.session) (entries_in decider.new.session) steps.old steps.new) }
{
    let mut verdicts = Vec::new(alloc);
    for query in queries {
        verdicts.push(verdict_on(alloc, env, decider, steps, query)?)?;
    }
    Ok(verdicts)
}

/// Whether the two are the same.
fn is_same(verdict: Verdict, other: Verdict) -> bool
    ensures { result ≡ same_verdict verdict other }
{
    match (verdict, other) {
        (Verdict::Included, Verdict::Included) => true,
        (Verdict::NotIncluded, Verdict::NotIncluded) => true,
        (Verdict::TooLarge, Verdict::TooLarge) => true,
        (Verdict::Other, Verdict::Other) => true,
        _ => false,
    }
}

/// How many of the verdicts are this one.
fn count_of(verdict: Verdict, verdicts: &[Verdict]) -> usize
    ensures { result ≡ count_of verdict verdicts.now }
{
    verdicts
        .iter()
        .filter(|other| is_same(verdict, **other))
        .count()
}

/// The tally of the queries of a file, asked of one session.
fn tally_with<L: Ledger>(
    alloc: Global,
    env: &Env,
    decider: &mut Decider,
    steps: &mut Steps<L>,
) -> Result<Tally, AllocError>
    requires structures { structures_in decider.old.session ≡ structures_of env.now }
    requires empty { entries_in decider.old.session ≡ [] }
    ensures { IfOk result (λ tally. AreTallied decider.old.budget env.now tally steps.old steps.new) }
{
    let verdicts = verdicts_on(alloc, env, decider, steps, env.queries().as_slice())?;
    let verdicts = verdicts.as_slice();
    Ok(Tally {
        queries: verdicts.len(),
        yes: count_of(Verdict::Included, verdicts),
        no: count_of(Verdict::NotIncluded, verdicts),
        too_large: count_of(Verdict::TooLarge, verdicts),
        rows: decider.session.rows(),
    })
}

/// The tally of the queries of a file, asked of one new session.
fn tally_of<L: Ledger>(
    alloc: Global,
    env: &Env,
    budget: u64,
    steps: &mut Steps<L>,
) -> Result<Tally, AllocError>
    requires { budget ≤ 2 ^ 30 }
    ensures { IfOk result (λ tally. AreTallied budget env.now tally steps.old steps.new) }
{
    let mut decider = Decider::new(alloc, env, budget)?;
    tally_with(alloc, env, &mut decider, steps)
}

/// Appends a line of a word and a number.
fn push_count(out: &mut Text, word: &str, number: u64) -> Result<(), AllocError>
    requires { IsAscii word.now }
    ensures { OnOk result (out.new ≡ out.old ++ count_line word.now number) }
{
    let mut buffer = Buffer::new();
    out.push_ascii(word)?;
    out.push_ascii(" ")?;
    out.push_ascii(buffer.format(number))?;
    out.push_ascii("\n")
}

/// The text of a tally.
fn tally_text(alloc: Global, tally: &Tally) -> Result<Text, AllocError>
    ensures { IfOk result (λ text. text ≡ text_of_tally tally.now) }
{
    let mut out = Text::of_ascii(alloc, "")?;
    push_count(&mut out, "QUERIES", tally.queries as u64)?;
    push_count(&mut out, "T", tally.yes as u64)?;
    push_count(&mut out, "NIL", tally.no as u64)?;
    push_count(&mut out, "TOO-LARGE", tally.too_large as u64)?;
    push_count(&mut out, "ROWS", tally.rows)?;
    Ok(out)
}

/// The report on the queries of a file: the numbers of its tally.
fn report_on<L: Ledger>(
    alloc: Global,
    budget: u64,
    forms: &Items<Datum>,
    steps: &mut Steps<L>,
) -> Result<(Text, bool), AllocError>
    requires { budget ≤ 2 ^ 30 }
    ensures { IfOk result (λ made. IsTally budget (environment forms.now) made.1 made.0 steps.old steps.new) }
{
    let env = Env::of_file(alloc, forms)?;
    let tally = tally_of(alloc, &env, budget, steps)?;
    let text = tally_text(alloc, &tally)?;
    Ok((text, 0 < tally.too_large))
}

/// The forms of the text that is generated for the count.
fn generated_forms(alloc: Global, count: u64) -> Result<Items<Datum>, AllocError>
    requires { count ≤ 4096 }
    ensures { IfOk result (Forms (generated_text count)) }
{
    let text = text_of(alloc, count)?;
    // The text has no fault: the one error is want of memory.
    let Ok(forms) = read_text(alloc, &text) else {
        return Err(AllocError);
    };
    Ok(forms)
}

/// The report on the text that is generated for the count, with this budget for each query.
pub(crate) fn generated_report<L: Ledger>(
    alloc: Global,
    count: u64,
    budget: u64,
    steps: &mut Steps<L>,
) -> Result<Report, AllocError>
    requires count { count ≤ 4096 }
    requires budget { budget ≤ 2 ^ 30 }
    ensures { IfOk result (λ report. AreTold count budget report.status report.text steps.old steps.new) }
{
    let forms = generated_forms(alloc, count)?;
    let (text, found) = report_on(alloc, budget, &forms, steps)?;
    let status = status_for(found);
    Ok(Report { text, status })
}
