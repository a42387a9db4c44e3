// What `gen` prints: the counts of the answers to the queries of the generated text, and the rows made for them.

ghost use Rattle.std.specs.Prelude.{◌≡◌, ◌<◌};
ghost use Rattle.ls_env.specs.Environments.{structures_of};
ghost use Rattle.ls_cells.specs.Kept.{structures_in};

use super::{Case, outcome_of};
use crate::status::Status;
use ls_decide::Session;
use ls_env::Env;
use ls_gen::text_of;
use ls_grammar::resolve;
use ls_memo::Steps;
use ls_reader::{Datum, Form, read_text};
use std::alloc::{AllocError, Global};
use std::marker::Brand;
use std::sync::ledger::{Blank, Ledger};
use std::test::Fail;

/// The words, the lines before that of the rows, what all queries cost together, and the status.
const COUNTS: [(&[&str], &[u8], u64, Status); 5] = [
    (
        &["gen", "4"],
        b"QUERIES 8\nT 4\nNIL 4\nTOO-LARGE 0\nROWS ",
        1340,
        Status::Clean,
    ),
    (
        &["gen", "3"],
        b"QUERIES 6\nT 6\nNIL 0\nTOO-LARGE 0\nROWS ",
        900,
        Status::Clean,
    ),
    (
        &["gen", "4", "--budget", "165"],
        b"QUERIES 8\nT 4\nNIL 0\nTOO-LARGE 4\nROWS ",
        1340,
        Status::Found,
    ),
    (
        &["gen", "4", "--budget", "34"],
        b"QUERIES 8\nT 0\nNIL 0\nTOO-LARGE 8\nROWS ",
        0,
        Status::Found,
    ),
    (
        &["gen", "1000"],
        b"QUERIES 2000\nT 1000\nNIL 1000\nTOO-LARGE 0\nROWS ",
        335_000,
        Status::Clean,
    ),
];

/// The number in the line of the rows, behind the lines before it.
fn rows_in(report: &[u8], before: &[u8]) -> Option<u64> {
    let rest = report.strip_prefix(before)?;
    let digits = rest.strip_suffix(b"\n")?;
    str::from_utf8(digits).ok()?.parse().ok()
}

#[test]
fn the_answers_are_counted(rt: HostRuntime) -> Result<(), Fail> {
    for (words, before, cost, status) in COUNTS {
        let got = outcome_of(rt.alloc(), &Case::new(words, b"(unread"))?;
        assert_eq!(rt; got.status, status);
        assert_eq!(rt; got.left, 7);
        let rows = rows_in(got.bytes.as_slice(), before);
        assert!(rt; rows.is_some_and(|rows| rows <= cost));
    }
    Ok(())
}

/// What is quoted in the argument of a query.
fn quoted(query: &Datum, place: usize) -> Option<&Datum> {
    let Form::List(items) = &query.form else {
        return None;
    };
    let Form::Quote(datum) = &items.as_slice().get(place)?.form else {
        return None;
    };
    Some(datum.get())
}

/// Asks a session whether the one type is included in the other; None where one of them does not resolve.
fn ask<L: Ledger>(
    alloc: Global,
    env: &Env,
    session: &mut Session,
    steps: &mut Steps<L>,
    query: &Datum,
) -> Option<()>
    requires structures { structures_in session.old ≡ structures_of env.now }
    ensures structures { structures_in session.new ≡ structures_in session.old }
{
    let a = resolve(alloc, env, quoted(query, 1)?).ok()?;
    let b = resolve(alloc, env, quoted(query, 2)?).ok()?;
    session.subtypep(&a, &b, 4_194_304, steps).ok()?;
    Some(())
}

/// Asks a session all queries of a file, one after another.
fn ask_each<L: Ledger>(
    alloc: Global,
    env: &Env,
    session: &mut Session,
    steps: &mut Steps<L>,
) -> Option<u64>
    requires structures { structures_in session.old ≡ structures_of env.now }
{
    for query in env.queries().as_slice() {
        ask(alloc, env, session, steps, &query.form)?;
    }
    Some(session.rows())
}

/// The rows of one new session that is asked all queries of a file.
fn rows_by<L: Ledger>(alloc: Global, env: &Env, blank: Blank) -> Result<Option<u64>, AllocError>
    requires name { blank.name ≡ L.name }
    requires parts { blank.parts ≡ L.parts }
    requires some { 0 < L.parts }
{
    let mut steps = Steps::<L>::new(blank);
    let mut session = Session::new(alloc, env.tree().copy()?)?;
    Ok(ask_each(alloc, env, &mut session, &mut steps))
}

/// The rows of a session that is asked the queries of the generated text; None where one is no query of two types.
fn rows_of_session(alloc: Global, count: u64) -> Option<u64> {
    if count > 4096 {
        return None;
    }
    let text = text_of(alloc, count).ok()?;
    if text.len() > 16_777_216 {
        return None;
    }
    let forms = read_text(alloc, text.as_slice()).ok()?;
    let env = Env::of_file(alloc, &forms).ok()?;
    rows_by::<Brand>(alloc, &env, Blank::new(1)).ok()?
}

#[test]
fn the_rows_are_those_of_a_session(rt: HostRuntime) -> Result<(), Fail> {
    let got = outcome_of(rt.alloc(), &Case::new(&["gen", "4"], b""))?;
    let rows = rows_in(got.bytes.as_slice(), COUNTS[0].1);
    assert!(rt; rows.is_some());
    assert_eq!(rt; rows, rows_of_session(rt.alloc(), 4));
    Ok(())
}

/// Words that are none of `gen`.
const USAGES: [&[&str]; 8] = [
    &["gen"],
    &["gen", "0"],
    &["gen", "04"],
    &["gen", "4097"],
    &["gen", "four"],
    &["gen", "4", "--budget"],
    &["gen", "4", "--budget", "0"],
    &["gen", "--budget", "4"],
];

#[test]
fn other_words_are_refused(rt: HostRuntime) -> Result<(), Fail> {
    for words in USAGES {
        let got = outcome_of(rt.alloc(), &Case::new(words, b""))?;
        assert_eq!(rt; got.status, Status::Usage);
        assert_eq!(rt; got.bytes.as_slice(), super::USAGE);
    }
    Ok(())
}

/// The greatest count.
#[test]
fn the_greatest_count_is_answered(rt: HostRuntime) -> Result<(), Fail> {
    let got = outcome_of(rt.alloc(), &Case::new(&["gen", "4096"], b""))?;
    assert_eq!(rt; got.status, Status::Clean);
    let rows = rows_in(
        got.bytes.as_slice(),
        b"QUERIES 8192\nT 4096\nNIL 4096\nTOO-LARGE 0\nROWS ",
    );
    assert!(rt; rows.is_some());
    Ok(())
}
