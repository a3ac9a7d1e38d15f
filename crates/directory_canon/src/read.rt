//! Reading Directories from their canonical bytes.

ghost use Rattle.std.specs.Prelude.{◌≡◌, IfOk, List, Ok, map};
ghost use Rattle.std.specs.List.{filter_map};
ghost use Rattle.directory_canon.specs.declared.node.Node.{Node};
ghost use Rattle.directory_canon.specs.Node.{edge_of};
ghost use Rattle.directory_canon.specs.Canon.{Canon};
ghost use Rattle.directory_canon.specs.Reading.{Gives, canon_of};
ghost use Rattle.directory_canon.specs.Views.{node_of};
ghost use Rattle.directory_canon.specs.Links.{links};

use crate::borrowed::Placed;
use crate::directory::{Directory, MAX_LEN};
use crate::entries::entries_in;
use crate::error::DirError;
use crate::node::{Edge, Edges, Node};
use crate::twice::unless_twice;
use proto_wire::{OutOfMemory, fields};
use std::alloc::Global;

// The nodes of a Directory, which borrow their texts from its bytes.
#[tactic(auto, using(crate::proofs::TwiceOrder::in_order), unfolding(crate::specs::Reading::canon_of))]
fn entries(alloc: Global, bytes: &[u8]) -> Result<Vec<Placed<'_>>, DirError>
    ensures { Gives (λ v. map node_of v.items) result (canon_of bytes.now) }
{
    if bytes.len() > MAX_LEN {
        return Err(DirError::TooLong);
    }
    let fields = fields(alloc, bytes)?;
    let found = entries_in(alloc, bytes, fields.as_slice())?;
    unless_twice(&found)?;
    Ok(found)
}

// Copies the texts.
fn nodes_of(alloc: Global, entries: &[Placed<'_>]) -> Result<Vec<Node>, OutOfMemory>
    ensures { IfOk result (λ v. v.items ≡ map node_of entries.now) }
{
    let mut nodes = Vec::new(alloc);
    'entries: for entry in entries {
        nodes.push(entry.node.to_node(alloc)?)?;
    }
    Ok(nodes)
}

fn edges_of(alloc: Global, entries: &[Placed<'_>]) -> Result<Vec<Edge>, OutOfMemory>
    ensures { IfOk result (λ v. v.items ≡ filter_map edge_of (map node_of entries.now)) }
{
    let mut edges = Vec::new(alloc);
    'entries: for entry in entries {
        if let Some(edge) = entry.node.edge() {
            edges.push(edge)?;
        }
    }
    Ok(edges)
}

// The nodes of a Directory, with copies of their texts.
fn nodes_in(alloc: Global, bytes: &[u8]) -> Result<Vec<Node>, DirError>
    ensures { Gives (λ v. v.items) result (canon_of bytes.now) }
{
    let entries = entries(alloc, bytes)?;
    Ok(nodes_of(alloc, &entries)?)
}

/// The Directory whose canonical form the bytes are.
pub fn read_canon(alloc: Global, bytes: &[u8]) -> Result<Directory, DirError>
    // What is read is canonical.
    ensures canon { IfOk result (λ dir. Canon dir bytes.now) }
    // What is canonical is read, unless memory runs out.
    ensures only { (dir : List Node) → Canon dir bytes.now → Gives (λ d. d) result (Ok dir) }
    // Other bytes are refused with the first fault.
    ensures exact { Gives (λ d. d) result (canon_of bytes.now) }
{
    let nodes = nodes_in(alloc, bytes)?;
    Ok(Directory::of_canonical(nodes))
}

/// The links of the Directory whose canonical form the bytes are, files first; None if there is no such Directory.
/// No name is copied.
pub fn links_of(alloc: Global, bytes: &[u8]) -> Result<Option<Edges>, OutOfMemory>
    ensures { IfOk result (λ o. o ≡ links bytes.now) }
{
    match entries(alloc, bytes) {
        Ok(entries) => Ok(Some(Edges::from_vec(edges_of(alloc, &entries)?))),
        Err(e) => match e {
            DirError::OutOfMemory => Err(OutOfMemory),
            _ => Ok(None),
        },
    }
}
