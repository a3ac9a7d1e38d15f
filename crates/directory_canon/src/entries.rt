//! Reading the nodes of a Directory, one after the other.

ghost use Rattle.std.specs.Prelude.{◌≡◌, map, None};
ghost use Rattle.proto_wire.specs.Field.{field_view};
ghost use Rattle.directory_canon.specs.Reading.{Gives, after, entries_in};
ghost use Rattle.directory_canon.specs.Views.{node_view, entry_view, before_view, entry_after};

use crate::borrowed::{NodeRef, Placed};
use crate::entry::spelled_in;
use crate::error::DirError;
use proto_wire::Field;
use std::alloc::Global;
use std::cmp::Ordering;

// Refuses a node that may not follow the one before it, if there is one.
fn after(before: Option<&Placed<'_>>, at: usize, node: &NodeRef<'_>) -> Result<(), DirError>
    ensures { Gives (λ _. node_view node.now) result (after (before_view before.entry) at (node_view node.now)) }
{
    let Some(before) = before else {
        return Ok(());
    };
    let last = before.node.number();
    let number = node.number();
    if number < last {
        return Err(DirError::NotCanonical { at });
    }
    if number != last {
        return Ok(());
    }
    match before.node.name().as_bytes().cmp(node.name().as_bytes()) {
        Ordering::Less => Ok(()),
        Ordering::Equal => Err(DirError::Twice { at }),
        Ordering::Greater => Err(DirError::Unsorted { at }),
    }
}

fn entry_after<'a>(
    alloc: Global,
    whole: &[u8],
    before: Option<&Placed<'a>>,
    field: &Field<'a>,
) -> Result<Placed<'a>, DirError>
    ensures { Gives entry_view result (entry_after whole.now (before_view before.entry) (field_view field.now)) }
{
    let at = field.at;
    // `?` gets no proof if the value holds a reference beside a digest.
    let node = match spelled_in(alloc, whole, field) {
        Ok(node) => node,
        Err(e) => return Err(e),
    };
    after(before, at, &node)?;
    Ok(Placed { at, node })
}

/// The nodes that the fields of the whole spell, in canonical order.
pub(crate) fn entries_in<'a>(
    alloc: Global,
    whole: &[u8],
    fields: &[Field<'a>],
) -> Result<Vec<Placed<'a>>, DirError>
    ensures { Gives (λ v. map entry_view v.items) result (entries_in whole.now None (map field_view fields.now)) }
{
    let mut found = Vec::new(alloc);
    'fields: for field in fields {
        // Nor does it here, or for `push`, whose error gives the value back.
        let next = match entry_after(alloc, whole, found.last(), field) {
            Ok(next) => next,
            Err(e) => return Err(e),
        };
        found.extend_from_slice(&[next])?;
    }
    Ok(found)
}
