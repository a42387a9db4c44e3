// What one node of a table is made of.

ghost use Rattle.std.specs.Prelude.{◌≡◌};
ghost use Rattle.std.specs.Option.{option_copied};
ghost use Rattle.ls_sides.specs.Nodes.{node_branches, node_sides, node_element};

use ls_intern::{Id, Node};
use std::slice;

/// What T, NIL, AND, OR or NOT is made of; None for an atom.
pub fn branches(node: &Node) -> Option<&[Id]>
    ensures { option_copied result ≡ node_branches node.now }
{
    match node {
        Node::All => Some(&[]),
        Node::Nothing => Some(&[]),
        Node::And(parts) => Some(parts.as_slice()),
        Node::Or(parts) => Some(parts.as_slice()),
        Node::Not(part) => Some(slice::from_ref(part)),
        Node::Eql(_) => None,
        Node::Range {
            kind: _,
            lo: _,
            hi: _,
        } => None,
        Node::Chars(_) => None,
        Node::Symbols(_) => None,
        Node::Kind(_) => None,
        Node::StructIs(_) => None,
        Node::StructAny => None,
        Node::ArrayOf {
            elem: _,
            simple: _,
            dims: _,
        } => None,
        Node::StringOf { simple: _, dim: _ } => None,
        Node::ConsOf(_, _) => None,
        Node::Satisfies(_) => None,
    }
}

/// The car and the cdr of a CONS.
pub fn cons_sides(node: &Node) -> Option<(Id, Id)>
    ensures { result ≡ node_sides node.now }
{
    match node {
        Node::ConsOf(car, cdr) => Some((*car, *cdr)),
        _ => None,
    }
}

/// The element specifier that an array names.
pub fn element(node: &Node) -> Option<Id>
    ensures { result ≡ node_element node.now }
{
    match node {
        Node::ArrayOf {
            elem,
            simple: _,
            dims: _,
        } => *elem,
        _ => None,
    }
}
