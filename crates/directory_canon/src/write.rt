//! Writing Directories in their canonical form.

ghost use Rattle.std.specs.Prelude.{◌≡◌, ◌++◌, IfOk, Ok, OnOk};
ghost use Rattle.directory_canon.specs.Canon.{Canon, content_of, node_spelled, spelled};
ghost use Rattle.directory_canon.specs.Reading.{canon_of};
ghost use Rattle.directory_canon.specs.Views.{node_view};

use crate::borrowed::NodeRef;
use crate::directory::Directory;
use crate::node::Node;
use proto_wire::{Bytes, OutOfMemory, Writer};
use std::alloc::Global;

fn write_content(alloc: Global, node: &NodeRef<'_>) -> Result<Bytes, OutOfMemory>
    ensures { IfOk result (λ b. b ≡ content_of (node_view node.now)) }
{
    let mut out = Writer::new(alloc);
    match node {
        NodeRef::File { name, digest, exec } => {
            out.bytes(1, name.as_bytes())?;
            out.bytes(2, digest.write(alloc)?.as_slice())?;
            if *exec {
                out.int(4, 1)?;
            }
        }
        NodeRef::Dir { name, digest } => {
            out.bytes(1, name.as_bytes())?;
            out.bytes(2, digest.write(alloc)?.as_slice())?;
        }
        NodeRef::Link { name, target } => {
            out.bytes(1, name.as_bytes())?;
            out.bytes(2, target.as_bytes())?;
        }
    }
    Ok(out.finish())
}

// Adds a node in its list.
fn push_node(alloc: Global, out: &mut Writer, node: &NodeRef<'_>) -> Result<(), OutOfMemory>
    ensures { OnOk result (out.new ≡ out.old ++ node_spelled (node_view node.now)) }
{
    let content = write_content(alloc, node)?;
    out.bytes(node.number(), content.as_slice())
}

/// The canonical bytes of a node in its list.
pub(crate) fn write_node(alloc: Global, node: &NodeRef<'_>) -> Result<Bytes, OutOfMemory>
    ensures { IfOk result (λ b. b ≡ node_spelled (node_view node.now)) }
{
    let mut out = Writer::new(alloc);
    push_node(alloc, &mut out, node)?;
    Ok(out.finish())
}

/// The canonical bytes of nodes, one after the other.
pub(crate) fn write_nodes(alloc: Global, nodes: &[Node]) -> Result<Bytes, OutOfMemory>
    ensures { IfOk result (λ b. b ≡ spelled nodes.now) }
{
    let mut out = Writer::new(alloc);
    'nodes: for node in nodes {
        push_node(alloc, &mut out, &NodeRef::of(node))?;
    }
    Ok(out.finish())
}

/// The canonical bytes of a Directory.
pub fn write_canon(alloc: Global, dir: &Directory) -> Result<Bytes, OutOfMemory>
    ensures canon { IfOk result (λ b. Canon dir.now b) }
    // The written bytes are read as this Directory.
    ensures again { IfOk result (λ b. canon_of b ≡ Ok dir.now) }
{
    write_nodes(alloc, dir.nodes())
}
