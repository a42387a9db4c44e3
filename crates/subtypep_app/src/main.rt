//! Answers SUBTYPEP queries in the text of a Lisp file, from standard input to standard output.
#![tactic(auto)]

// How a run ends, what the words of the command line ask for, and the run.
mod app;
mod status;
mod words;

// What a query asks.
mod query;

// The answer to a query.
mod decider;

// The line of a query and its text, the report of a text, and that of the generated one.
mod line;
mod report;
mod tally;
#[cfg(test)]
mod tests;
mod text;

use app::run_counted;
use ls_io::{StdSink, StdSource};
use status::Status;
use std::marker::Brand;
use std::process::ExitCode;
use std::sync::ledger::Blank;
use std::{env, io};

/// The exit status where the words can't be had for another cause.
const NO_WORDS: u8 = 7;

/// The words after the program's name.
fn words_of(rt: &HostRuntime) -> io::Result<Vec<String>> {
    let mut words = Vec::new(rt.alloc());
    for word in env::args(rt)?.skip(1) {
        words.push(word)?;
    }
    Ok(words)
}

fn main(rt: HostRuntime) -> ExitCode {
    match words_of(&rt) {
        Ok(words) => {
            let mut source = StdSource::new(rt.stdin());
            let mut sink = StdSink::new(rt.stdout());
            let status = run_counted::<_, _, Brand>(
                rt.alloc(),
                &words,
                &mut source,
                &mut sink,
                Blank::new(1),
            );
            ExitCode::from(status.number())
        }
        Err(error) if error.kind() == io::ErrorKind::OutOfMemory => ExitCode::from(
            Status::Memory.number(),
        ),
        Err(_) => ExitCode::from(NO_WORDS),
    }
}
