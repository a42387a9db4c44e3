// Runs over memory, and what they leave.

mod answers;
mod arrays;
mod budgets;
mod conses;
mod deftype;
mod generated;
mod members;
mod predicates;
mod refusals;
mod streams;
mod structures;

use crate::app::run_counted;
use crate::status::Status;
use ls_io::{MemSink, MemSource};
use std::alloc::{AllocError, Global};
use std::marker::Brand;
use std::sync::ledger::Blank;

/// A query of two ranges of integers, and its report.
pub(crate) const RANGES: &[u8] = b"(subtypep '(integer 0 10) '(integer (0) 10))";

pub(crate) const RANGES_REPORT: &[u8] = b"1:1 NIL WITNESS 0\n";

pub(crate) const USAGE: &[u8] = b"usage: subtypep_app ask|check|gen N [--budget N]\n";

/// A call of `run` over memory: its words, its source and its sink. A piece is what one call moves at most.
#[derive(Drop)]
pub(crate) struct Case<'a> {
    pub words: &'a [&'a str],
    pub text: &'a [u8],
    pub read_piece: usize,
    pub failing_reads: &'a [u64],
    pub room: usize,
    pub write_piece: usize,
    pub failing_writes: &'a [u64],
}

impl<'a> Case<'a> {
    /// The words and the text, with no call that fails.
    pub(crate) fn new(words: &'a [&'a str], text: &'a [u8]) -> Case<'a> {
        Case {
            words,
            text,
            read_piece: 4096,
            failing_reads: &[],
            room: 1000,
            write_piece: 7,
            failing_writes: &[],
        }
    }

    /// The text, asked about with no call that fails.
    pub(crate) fn ask(text: &'a [u8]) -> Case<'a> {
        Case::new(&["ask"], text)
    }
}

/// What came of a case: the status, how many bytes the source has left, and what the sink took.
#[derive(Drop)]
pub(crate) struct Outcome {
    pub status: Status,
    pub left: usize,
    pub bytes: Vec<u8>,
}

pub(crate) fn outcome_of(alloc: Global, case: &Case) -> Result<Outcome, AllocError> {
    let mut words = Vec::new(alloc);
    for word in case.words {
        words.push(String::from_str(alloc, word)?)?;
    }
    let mut source = MemSource::new(alloc, case.text, case.read_piece.max(1), case.failing_reads)?;
    let mut sink = MemSink::new(
        alloc,
        case.room,
        case.write_piece.max(1),
        case.failing_writes,
    )?;
    let status = run_counted::<_, _, Brand>(alloc, &words, &mut source, &mut sink, Blank::new(1));
    Ok(Outcome {
        status,
        left: source.left().len(),
        bytes: Vec::from_slice(alloc, sink.bytes())?,
    })
}

/// A text, and its report.
pub(crate) type Row<'a> = (&'a [u8], &'a [u8]);

/// The place of the first text whose report is not the one beside it, or whose run does not end with the status; None
/// where there is none.
pub(crate) fn first_wrong(
    alloc: Global,
    rows: &[Row<'_>],
    status: Status,
) -> Result<Option<usize>, AllocError> {
    for (place, (text, report)) in rows.iter().enumerate() {
        let got = outcome_of(alloc, &Case::ask(*text))?;
        if got.bytes.as_slice() != *report || got.status != status {
            return Ok(Some(place));
        }
    }
    Ok(None)
}
