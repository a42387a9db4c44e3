// Which templates lead back to themselves, all at once.

ghost use Rattle.std.specs.Prelude.{◌≡◌, IsTrue, IfOk};
ghost use Rattle.ls_env.specs.Reaching.{InRange, body};
ghost use Rattle.ls_env.specs.steps.Marking as spec;

use crate::parts::{NO_WAY, Parts, Way, parts_of};
use crate::walk::comes_back;
use ls_object::Items;
use std::alloc::{AllocError, Global};

/// The place of a template in its part.
fn way_of(parts: &Parts, at: usize) -> Way
    ensures { result ≡ spec.way_of parts.now at }
{
    match parts.ways.get(at) {
        Some(way) => *way,
        None => NO_WAY,
    }
}

/// The root of a part.
fn root_of(parts: &Parts, part: usize) -> usize
    ensures { result ≡ spec.root_of parts.now part }
{
    match parts.roots.get(part) {
        Some(root) => *root,
        None => 0,
    }
}

/// What the body of a template mentions.
fn body_of(graph: &[Items<usize>], at: usize) -> &[usize]
    ensures { result.now ≡ body graph.now at }
{
    match graph.get(at) {
        Some(numbers) => numbers.as_slice(),
        None => &[],
    }
}

/// Whether nothing in the list stands in a later part.
fn none_is_later(parts: &Parts, part: usize, numbers: &[usize]) -> bool
    ensures { result ≡ spec.none_is_later parts.now part numbers.now }
{
    numbers
        .iter()
        .all(|number| way_of(parts, *number).part <= part)
}

/// Whether the mention at the place `up` leads towards the root.
fn climbs(graph: &[Items<usize>], parts: &Parts, at: usize) -> bool
    ensures { result ≡ spec.climbs graph.now parts.now at }
{
    let way = way_of(parts, at);
    match body_of(graph, at).get(way.up) {
        Some(to) => {
            let next = way_of(parts, *to);
            next.part == way.part && next.far < way.far
        }
        None => false,
    }
}

/// Whether the template is mentioned by one that is nearer to the root.
fn descends(graph: &[Items<usize>], parts: &Parts, at: usize) -> bool
    ensures { result ≡ spec.descends graph.now parts.now at }
{
    let way = way_of(parts, at);
    let before = way_of(parts, way.down);
    match body_of(graph, way.down).get(way.down_at) {
        Some(to) => *to == at && before.part == way.part && before.near < way.near,
        None => false,
    }
}

/// Whether a template stands in its part as it should.
fn is_held(graph: &[Items<usize>], parts: &Parts, at: usize) -> bool
    ensures { result ≡ spec.is_held graph.now parts.now at }
{
    let part = way_of(parts, at).part;
    none_is_later(parts, part, body_of(graph, at))
        && (root_of(parts, part) == at || climbs(graph, parts, at) && descends(graph, parts, at))
}

/// Whether the parts are right, so that they tell what reaches itself.
fn are_parts(graph: &[Items<usize>], parts: &Parts) -> bool
    ensures { result ≡ spec.are_held graph.now parts.now }
{
    for at in 0..graph.len() {
        if !is_held(graph, parts, at) {
            return false;
        }
    }
    true
}

/// Whether a template mentions one of its own part.
fn stays(graph: &[Items<usize>], parts: &Parts, at: usize) -> bool
    ensures { result ≡ spec.stays graph.now parts.now at }
{
    let part = way_of(parts, at).part;
    body_of(graph, at)
        .iter()
        .any(|number| way_of(parts, *number).part == part)
}

/// For each template, whether it comes back to itself, by right parts.
fn marks_by_parts(
    alloc: Global,
    graph: &[Items<usize>],
    parts: &Parts,
) -> Result<Items<bool>, AllocError>
    requires range { InRange graph.now }
    requires parts { IsTrue (spec.are_held graph.now parts.now) }
    ensures { IfOk result (λ ms. ms ≡ spec.all_that_come_back graph.now) }
{
    let mut marks = Items::new(alloc);
    for at in 0..graph.len() {
        marks.push(stays(graph, parts, at))?;
    }
    Ok(marks)
}

/// For each template, whether it comes back to itself, by a walk from each.
fn marks_by_walks(alloc: Global, graph: &[Items<usize>]) -> Result<Items<bool>, AllocError>
    ensures { IfOk result (λ ms. ms ≡ spec.all_that_come_back graph.now) }
{
    let mut marks = Items::new(alloc);
    for at in 0..graph.len() {
        marks.push(comes_back(alloc, graph, at)?)?;
    }
    Ok(marks)
}

/// For each template, whether it comes back to itself. The parts are found in linear time and tested. The walks are
/// never taken as long as the parts are right.
pub(crate) fn marks_of(alloc: Global, graph: &[Items<usize>]) -> Result<Items<bool>, AllocError>
    requires { InRange graph.now }
    ensures { IfOk result (λ ms. ms ≡ spec.all_that_come_back graph.now) }
{
    let parts = parts_of(alloc, graph)?;
    if are_parts(graph, &parts) {
        marks_by_parts(alloc, graph, &parts)
    } else {
        marks_by_walks(alloc, graph)
    }
}
