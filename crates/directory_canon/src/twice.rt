//! Names that stand in two lists of a Directory.

ghost use Rattle.std.specs.Prelude.{◌≡◌, map, find};
ghost use Rattle.std.specs.List.{list_any};
ghost use Rattle.directory_canon.specs.Reading.{Gives, is_twice, unless_twice};
ghost use Rattle.directory_canon.specs.Views.{node_of, entry_view, place_of, place_cmp, has_name, AreInOrder};

use crate::borrowed::{NodeRef, Placed};
use crate::error::DirError;
use std::cmp::Ordering;

// How a node's place in the order compares with that of this name in this list.
fn compare(placed: &Placed<'_>, number: u32, name: &str) -> Ordering
    ensures { result ≡ place_cmp (place_of placed.now) (number, name.now) }
{
    match placed.node.number().cmp(&number) {
        Ordering::Less => Ordering::Less,
        Ordering::Equal => placed.node.name().as_bytes().cmp(name.as_bytes()),
        Ordering::Greater => Ordering::Greater,
    }
}

// Whether this name stands in this list.
fn has_name(all: &[Placed<'_>], number: u32, name: &str) -> bool
    requires { AreInOrder all.now }
    ensures { result ≡ list_any (has_name number name.now) all.now }
{
    all.binary_search_by(|placed| compare(placed, number, name))
        .is_ok()
}

// Whether the name of this node stands in an earlier list.
fn is_twice(all: &[Placed<'_>], placed: &Placed<'_>) -> bool
    requires { AreInOrder all.now }
    ensures { result ≡ is_twice (map entry_view all.now) (entry_view placed.now) }
{
    match placed.node {
        NodeRef::File { .. } => false,
        NodeRef::Dir { name, .. } => has_name(all, 1, name),
        NodeRef::Link { name, .. } => has_name(all, 1, name) || has_name(all, 2, name),
    }
}

/// Refuses the first node whose name stands in an earlier list.
pub(crate) fn unless_twice(all: &[Placed<'_>]) -> Result<(), DirError>
    requires { AreInOrder all.now }
    ensures { Gives (λ _. map node_of all.now) result (unless_twice (find (is_twice (map entry_view all.now)) (map entry_view all.now)) (map entry_view all.now)) }
{
    'all: for placed in all {
        if is_twice(all, placed) {
            return Err(DirError::Twice { at: placed.at });
        }
    }
    Ok(())
}
