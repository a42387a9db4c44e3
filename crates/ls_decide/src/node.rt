// What one node of a table counts for.

ghost use Rattle.std.specs.Prelude.{◌≡◌, ◌≤◌, Some, ◌∷◌, []};
ghost use Rattle.ls_decide.specs.steps.Nodes.{node_is_predicate, node_is_string, node_weight, node_pattern, dims_pattern, pattern_rank, pattern_number};

use ls_intern::Node;
use ls_spec::DimPattern;

/// Whether it is a predicate (SATISFIES).
pub fn is_predicate(node: &Node) -> bool
    ensures { result ≡ node_is_predicate node.now }
{
    matches!(node, Node::Satisfies(_))
}

/// Whether it is a string type.
pub fn is_string(node: &Node) -> bool
    ensures { result ≡ node_is_string node.now }
{
    matches!(node, Node::StringOf { simple: _, dim: _ })
}

/// What an atom counts for among the candidates, other than an array.
pub fn weight(node: &Node) -> u64
    ensures is { result ≡ node_weight node.now }
    ensures small { result ≤ 6 }
{
    match node {
        Node::Range {
            kind: _,
            lo: _,
            hi: _,
        } => 6,
        Node::Eql(_) => 3,
        Node::StructIs(_) => 1,
        Node::StructAny => 1,
        Node::Kind(_) => 1,
        _ => 0,
    }
}

/// How many dimensions are asked for, if that is.
fn rank_in(dims: &DimPattern) -> Option<usize>
    ensures { result ≡ pattern_rank (dims_pattern dims.now) }
{
    match dims {
        DimPattern::Any => None,
        DimPattern::Places(places) => Some(places.len()),
    }
}

/// The number that is asked for at a place, if there is one.
fn number_in(dims: &DimPattern, place: usize) -> Option<u64>
    ensures { result ≡ pattern_number place (dims_pattern dims.now) }
{
    match dims {
        DimPattern::Any => None,
        DimPattern::Places(places) => match places.get(place) {
            None => None,
            Some(number) => *number,
        },
    }
}

/// The number that is asked for at a place of a list with one place.
fn number_alone(dim: Option<u64>, place: usize) -> Option<u64>
    ensures { result ≡ pattern_number place (Some (dim ∷ [])) }
{
    if place == 0 { dim } else { None }
}

/// The rank that an array or a string type names.
pub fn rank(node: &Node) -> Option<usize>
    ensures { result ≡ pattern_rank (node_pattern node.now) }
{
    match node {
        Node::ArrayOf {
            elem: _,
            simple: _,
            dims,
        } => rank_in(dims),
        Node::StringOf { simple: _, dim: _ } => Some(1),
        _ => None,
    }
}

/// The number that it names at a place.
pub fn number_at(node: &Node, place: usize) -> Option<u64>
    ensures { result ≡ pattern_number place (node_pattern node.now) }
{
    match node {
        Node::ArrayOf {
            elem: _,
            simple: _,
            dims,
        } => number_in(dims, place),
        Node::StringOf { simple: _, dim } => number_alone(*dim, place),
        _ => None,
    }
}
