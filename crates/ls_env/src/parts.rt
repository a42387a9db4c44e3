// Parts of templates that reach one another. Nothing is proved of what is found here: it is tested where it is used.

use ls_object::Items;
use std::alloc::{AllocError, Global};

/// The place of a template in its part. `far` falls along the mention at the place `up` of its body, which leads
/// towards the root of its part, and `near` falls along the way from `down`, whose body mentions it at the place
/// `down_at`.
#[derive(Clone, Copy, Debug, PartialEq, Eq)]
pub(crate) struct Way {
    pub part: usize,
    pub far: usize,
    pub near: usize,
    pub up: usize,
    pub down: usize,
    pub down_at: usize,
}

/// The ways of all templates, and the roots of the parts.
#[derive(Drop)]
pub(crate) struct Parts {
    pub ways: Items<Way>,
    pub roots: Items<usize>,
}

/// What a search in depth knows of a template: when it was entered, counted from 1, the earliest template that it leads
/// to, where to go on in its body, and whether its part is found.
#[derive(Clone, Copy, Debug, PartialEq, Eq)]
struct Node {
    index: usize,
    low: usize,
    next: usize,
    is_closed: bool,
    way: Way,
}

/// A search in depth for parts (Tarjan's). `calls` are the templates that are entered and not left, `open` those whose
/// part is not found.
#[derive(Drop)]
struct Search {
    nodes: Items<Node>,
    open: Items<usize>,
    calls: Items<usize>,
    roots: Items<usize>,
    count: usize,
}

/// The way of no template.
pub(crate) const NO_WAY: Way = Way {
    part: 0,
    far: 0,
    near: 0,
    up: 0,
    down: 0,
    down_at: 0,
};

const NO_NODE: Node = Node {
    index: 0,
    low: 0,
    next: 0,
    is_closed: false,
    way: NO_WAY,
};

/// The last of the items.
fn last_of(items: &[usize]) -> Option<usize> {
    match items {
        [.., last] => Some(*last),
        [] => None,
    }
}

impl Search {
    fn new(alloc: Global, count: usize) -> Result<Search, AllocError> {
        let mut nodes = Items::new(alloc);
        for _ in 0..count {
            nodes.push(NO_NODE)?;
        }
        Ok(Search {
            nodes,
            open: Items::new(alloc),
            calls: Items::new(alloc),
            roots: Items::new(alloc),
            count: 0,
        })
    }

    fn node(&self, at: usize) -> Node {
        match self.nodes.get(at) {
            Some(node) => *node,
            None => NO_NODE,
        }
    }

    fn keep(&mut self, at: usize, node: Node) {
        if at < self.nodes.len() {
            self.nodes.set(at, node);
        }
    }

    /// Enters a template, from one that mentions it at a place of its body.
    fn enter(&mut self, at: usize, from: usize, place: usize) -> Result<(), AllocError> {
        self.count = self.count.wrapping_add(1);
        let mut node = NO_NODE;
        node.index = self.count;
        node.low = self.count;
        node.way.near = self.count;
        node.way.down = from;
        node.way.down_at = place;
        self.keep(at, node);
        self.open.push(at)?;
        self.calls.push(at)
    }

    /// The template leads to one that was entered early, by a place of its body.
    fn lower(&mut self, at: usize, low: usize, place: usize) {
        let mut node = self.node(at);
        if low < node.low {
            node.low = low;
            node.way.up = place;
            self.keep(at, node);
        }
    }

    /// Looks at a template that is mentioned at a place of the body of the innermost one.
    fn look(&mut self, from: usize, place: usize, at: usize) -> Result<(), AllocError> {
        let node = self.node(at);
        if node.index == 0 {
            return self.enter(at, from, place);
        }
        if !node.is_closed {
            self.lower(from, node.index, place);
        }
        Ok(())
    }

    /// Takes the next template of the part whose root is this; whether it was the root.
    fn close_one(&mut self, root: usize) -> bool {
        let Some(at) = self.open.pop() else {
            return true;
        };
        let mut node = self.node(at);
        let count = self.nodes.len();
        node.is_closed = true;
        node.way.part = self.roots.len();
        if at != root {
            let above = node.low.wrapping_mul(count.wrapping_add(1));
            node.way.far = above
                .wrapping_add(count.wrapping_sub(node.index))
                .wrapping_add(1);
        }
        self.keep(at, node);
        at == root
    }

    /// Closes the part of a root.
    fn close(&mut self, root: usize) -> Result<(), AllocError> {
        for _ in 0..self.open.len() {
            if self.close_one(root) {
                break;
            }
        }
        self.roots.push(root)
    }

    /// Leaves the innermost template.
    fn leave(&mut self, at: usize) -> Result<(), AllocError> {
        self.calls.pop();
        let node = self.node(at);
        if node.low == node.index {
            self.close(at)?;
        }
        if let Some(from) = last_of(self.calls.as_slice()) {
            self.lower(from, node.low, node.way.down_at);
        }
        Ok(())
    }

    /// One step: on to what the innermost template mentions next, or out of it. Whether there was one.
    fn step(&mut self, graph: &[Items<usize>]) -> Result<bool, AllocError> {
        let Some(at) = last_of(self.calls.as_slice()) else {
            return Ok(false);
        };
        let mut node = self.node(at);
        let place = node.next;
        match mentioned_at(graph, at, place) {
            Some(to) => {
                node.next = place.wrapping_add(1);
                self.keep(at, node);
                self.look(at, place, to)?;
            }
            None => self.leave(at)?,
        }
        Ok(true)
    }

    /// All that can be reached from a template.
    fn search_from(&mut self, graph: &[Items<usize>], at: usize) -> Result<(), AllocError> {
        if self.node(at).index != 0 {
            return Ok(());
        }
        self.enter(at, at, 0)?;
        for _ in 0..usize::MAX {
            if !self.step(graph)? {
                break;
            }
        }
        Ok(())
    }

    fn into_parts(self, alloc: Global) -> Result<Parts, AllocError> {
        let mut ways = Items::new(alloc);
        for node in self.nodes.as_slice() {
            ways.push(node.way)?;
        }
        let Search {
            nodes: _,
            open: _,
            calls: _,
            roots,
            count: _,
        } = self;
        Ok(Parts { ways, roots })
    }
}

/// What a template mentions at a place of its body.
fn mentioned_at(graph: &[Items<usize>], at: usize, place: usize) -> Option<usize> {
    let numbers = graph.get(at)?;
    Some(*numbers.get(place)?)
}

/// The parts of the templates, each of which mentions those of its list.
pub(crate) fn parts_of(alloc: Global, graph: &[Items<usize>]) -> Result<Parts, AllocError> {
    let mut search = Search::new(alloc, graph.len())?;
    for at in 0..graph.len() {
        search.search_from(graph, at)?;
    }
    search.into_parts(alloc)
}
