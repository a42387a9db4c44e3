// The statuses of names: look-ups, and what is known of templates that lead back to themselves.

ghost use Rattle.std.specs.Prelude.{◌≡◌, ℕ, List, map, length, slice_get, IfOk};
ghost use Rattle.ls_env.specs.Reaching.{or_false};
ghost use Rattle.ls_env.specs.Statuses.{looked_up, finished};
ghost use Rattle.ls_env.specs.steps.Marking.{all_that_come_back, IsNumbered, AreNumbered};

use crate::status::NameStatus;
use indexmap::IndexSet;
use ls_object::{Items, Symbol};
use std::alloc::{AllocError, Global};

/// The status of a name by a table of names and their statuses.
pub(crate) fn looked_up(
    names: &IndexSet<Symbol>,
    statuses: &[NameStatus],
    name: &Symbol,
) -> NameStatus
    ensures { result ≡ looked_up names.now.keys statuses.now name.now }
{
    let Some(at) = names.get_index_of(name) else {
        return NameStatus::Unknown;
    };
    match statuses.get(at) {
        Some(status) => *status,
        None => NameStatus::Unknown,
    }
}

/// Whether a template has the mark.
fn is_marked(marks: &[bool], number: usize) -> bool
    ensures { result ≡ or_false (slice_get marks.now number) }
{
    match marks.get(number) {
        Some(mark) => *mark,
        None => false,
    }
}

/// A status, where it is known which templates lead back to themselves.
fn finished(marks: &[bool], status: NameStatus) -> NameStatus
    ensures { (graph : List (List ℕ)) → marks.now ≡ all_that_come_back graph → IsNumbered (length graph) status
        → result ≡ finished graph status }
{
    let NameStatus::Deftype(number) = status else {
        return status;
    };
    if is_marked(marks, number) {
        NameStatus::Recursive
    } else {
        status
    }
}

/// The statuses of names.
pub(crate) fn all_finished(
    alloc: Global,
    marks: &[bool],
    statuses: &[NameStatus],
) -> Result<Items<NameStatus>, AllocError>
    ensures { IfOk result (λ ss. (graph : List (List ℕ)) → marks.now ≡ all_that_come_back graph
        → AreNumbered (length graph) statuses.now → ss ≡ map (finished graph) statuses.now) }
{
    let mut all = Items::new(alloc);
    for status in statuses {
        all.push(finished(marks, *status))?;
    }
    Ok(all)
}
