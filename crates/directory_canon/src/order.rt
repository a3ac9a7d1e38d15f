//! The canonical order of nodes: by list, and in a list by the bytes of the names.

ghost use Rattle.std.specs.Prelude.{◌≡◌};
ghost use Rattle.std.specs.Ordering.{nat_cmp, on, ordering_then, then_cmp};
ghost use Rattle.std.specs.List.Sorted.{IsPermutation, IsSorted};
ghost use Rattle.std.specs.Cmp.Lexicographic.{slice_cmp};
ghost use Rattle.directory_canon.specs.Node.{number_of, name_of};

use crate::node::Node;
use std::cmp::Ordering;

// The number of the list that the node stands in.
fn number(node: &Node) -> u8
    ensures { result ≡ number_of node.now }
{
    match node {
        Node::File { .. } => 1,
        Node::Dir { .. } => 2,
        Node::Link { .. } => 3,
    }
}

// The name of a node.
pub(crate) fn name(node: &Node) -> &str
    ensures { result.now ≡ name_of node.now }
{
    match node {
        Node::File { name, .. } => name.as_str(),
        Node::Dir { name, .. } => name.as_str(),
        Node::Link { name, .. } => name.as_str(),
    }
}

// Which of two nodes stands first.
fn order(a: &Node, b: &Node) -> Ordering
    ensures { result ≡ ordering_then (nat_cmp (number_of a.now) (number_of b.now)) (slice_cmp nat_cmp (name_of a.now) (name_of b.now)) }
{
    number(a).cmp(&number(b)).then(name(a).cmp(name(b)))
}

// Puts nodes into the canonical order.
pub(crate) fn sort(nodes: &mut Vec<Node>)
    ensures permutation { IsPermutation nodes.old.items nodes.new.items }
    ensures sorted { IsSorted (then_cmp (on number_of nat_cmp) (on name_of (slice_cmp nat_cmp))) nodes.new.items }
{
    nodes.sort_unstable_by(order);
}
