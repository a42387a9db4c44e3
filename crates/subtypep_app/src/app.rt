// One run of the program, over any source and any sink.

ghost use Rattle.std.specs.Prelude.{◌≡◌, ◌<◌, ◌≤◌, ◌^◌, ℕ, List, Option, ⊤};
ghost use Rattle.subtypep_app.specs.Words.{texts, Means, MeanNothing};
ghost use Rattle.subtypep_app.specs.Runs.{outside, HasReplied, IsUsage};
ghost use Rattle.subtypep_app.specs.Calm.{HasRun};
ghost use Rattle.subtypep_app.specs.steps.Finishing.{IsFinished};
ghost use Rattle.subtypep_app.specs.declared.words.Command.TheVariants.{Ask, Gen};

use crate::report::report_of;
use crate::status::Status;
use crate::tally::generated_report;
use crate::words::{Command, command_of};
use ls_io::{ReadFault, Sink, Source, read_all, write_all};
use ls_memo::Steps;
use std::alloc::Global;
use std::sync::ledger::{Blank, Ledger};

const USAGE: &[u8] = b"usage: subtypep_app ask|check|gen N [--budget N]\n";

const TOO_LONG: &[u8] = b"FAULT TOO-LONG\n";

/// Writes all the bytes of a report, and gives the status that stands for it.
fn finish<K: Sink>(sink: &mut K, bytes: &[u8], status: Status) -> Status
    ensures ends { IsFinished (K.has_room sink.old) (K.written sink.old) (K.written sink.new)
        (K.failures sink.old) (K.failures sink.new) bytes.now status result }
    ensures later { K.failures sink.old ≤ K.failures sink.new }
{
    match write_all(sink, bytes) {
        Ok(()) => status,
        Err(_) => Status::SinkFault,
    }
}

/// Reads the text to its end, and answers its queries, each within the budget.
fn ask<S: Source, K: Sink, L: Ledger>(
    alloc: Global,
    budget: u64,
    source: &mut S,
    sink: &mut K,
    steps: &mut Steps<L>,
) -> Status
    requires { budget ≤ 2 ^ 30 }
    ensures { (words : List (List ℕ)) → Means words (Ask budget)
        → HasReplied words (S.is_sound source.old) (K.has_room sink.old)
        (outside (S.left source.old) (K.written sink.old) (S.failures source.old) (K.failures sink.old) steps.old)
        (outside (S.left source.new) (K.written sink.new) (S.failures source.new) (K.failures sink.new) steps.new)
        result }
{
    match read_all(alloc, source) {
        Ok(text) => match report_of(alloc, budget, &text, steps) {
            Ok(report) => finish(sink, report.text.as_bytes(), report.status),
            Err(_) => Status::Memory,
        },
        Err(ReadFault::TooLong) => finish(sink, TOO_LONG, Status::Unreadable),
        Err(ReadFault::Fault) => Status::SourceFault,
        Err(ReadFault::Memory) => Status::Memory,
    }
}

/// Answers the queries of the text that is generated for the count, each within the budget. Nothing is read: what a
/// source shows stays as it is.
fn generate<K: Sink, L: Ledger>(
    alloc: Global,
    count: u64,
    budget: u64,
    sink: &mut K,
    steps: &mut Steps<L>,
) -> Status
    requires count { count ≤ 4096 }
    requires budget { budget ≤ 2 ^ 30 }
    ensures { (words : List (List ℕ)) (left : Option (List ℕ)) (faults : ℕ) → Means words (Gen count budget)
        → HasReplied words ⊤ (K.has_room sink.old)
        (outside left (K.written sink.old) faults (K.failures sink.old) steps.old)
        (outside left (K.written sink.new) faults (K.failures sink.new) steps.new)
        result }
{
    match generated_report(alloc, count, budget, steps) {
        Ok(report) => finish(sink, report.text.as_bytes(), report.status),
        Err(_) => Status::Memory,
    }
}

/// Replies to the words, and to the text if they mean a command that reads one.
fn reply<S: Source, K: Sink, L: Ledger>(
    alloc: Global,
    words: &[String],
    source: &mut S,
    sink: &mut K,
    steps: &mut Steps<L>,
) -> Status
    ensures replied { HasReplied (texts words.now) (S.is_sound source.old) (K.has_room sink.old)
        (outside (S.left source.old) (K.written sink.old) (S.failures source.old) (K.failures sink.old) steps.old)
        (outside (S.left source.new) (K.written sink.new) (S.failures source.new) (K.failures sink.new) steps.new)
        result }
    ensures usage { MeanNothing (texts words.now) → IsUsage result × (source.new ≡ source.old) }
    ensures unread { (count budget : ℕ) → Means (texts words.now) (Gen count budget) → source.new ≡ source.old }
{
    match command_of(words) {
        Some(Command::Ask { budget }) => ask(alloc, budget, source, sink, steps),
        Some(Command::Gen { count, budget }) => generate(alloc, count, budget, sink, steps),
        None => finish(sink, USAGE, Status::Usage),
    }
}

/// Does what the words ask for, with a counter of steps of its own, from the blank of its ledger.
pub(crate) fn run_counted<S: Source, K: Sink, L: Ledger>(
    alloc: Global,
    words: &[String],
    source: &mut S,
    sink: &mut K,
    blank: Blank,
) -> Status
    requires name { blank.name ≡ L.name }
    requires parts { blank.parts ≡ L.parts }
    requires some { 0 < L.parts }
{
    let mut steps = Steps::<L>::new(blank);
    run(alloc, words, source, sink, &mut steps)
}

/// Does what the words ask for: answers the text of a source, or a generated one, to a sink. The whole report is there
/// before the first byte is written. Each row that is made for an answer is a step. The status tells how the run ended.
pub fn run<S: Source, K: Sink, L: Ledger>(
    alloc: Global,
    words: &[String],
    source: &mut S,
    sink: &mut K,
    steps: &mut Steps<L>,
) -> Status
    // The outside before and after, the words and the status fit together: `HasRun` says how, fact by fact.
    ensures run { HasRun (texts words.now) (S.is_sound source.old) (K.has_room sink.old)
        (outside (S.left source.old) (K.written sink.old) (S.failures source.old) (K.failures sink.old) steps.old)
        (outside (S.left source.new) (K.written sink.new) (S.failures source.new) (K.failures sink.new) steps.new)
        result }
    // Words without a meaning are told from the words alone: nothing is read, and no memory is taken.
    ensures usage { MeanNothing (texts words.now) → IsUsage result × (source.new ≡ source.old) }
    // `gen` reads nothing.
    ensures unread { (count budget : ℕ) → Means (texts words.now) (Gen count budget) → source.new ≡ source.old }
{
    reply(alloc, words, source, sink, steps)
}
