//! Nodes that borrow their texts.

ghost use Rattle.std.specs.Prelude.{◌≡◌, IfOk};
ghost use Rattle.directory_canon.specs.Node.{number_of, name_of, edge_of};
ghost use Rattle.directory_canon.specs.Views.{node_view};

use crate::node::{Edge, Kind, Node};
use digest_types::Digest;
use proto_wire::{Name, OutOfMemory, Text};
use std::alloc::Global;

/// A node whose name and target are borrowed from the bytes that were read, or from another node.
#[derive(Clone, Copy, Debug)]
pub(crate) enum NodeRef<'a> {
    File {
        name: &'a str,
        digest: Digest,
        exec: bool,
    },
    Dir {
        name: &'a str,
        digest: Digest,
    },
    Link {
        name: &'a str,
        target: &'a str,
    },
}

/// A node, and the place of its first byte.
#[derive(Clone, Copy, Debug)]
pub(crate) struct Placed<'a> {
    pub(crate) at: usize,
    pub(crate) node: NodeRef<'a>,
}

impl<'a> NodeRef<'a> {
    pub(crate) fn of(node: &'a Node) -> NodeRef<'a>
        ensures { node_view result ≡ node.now }
    {
        match node {
            Node::File { name, digest, exec } => NodeRef::File {
                name: name.as_str(),
                digest: *digest,
                exec: *exec,
            },
            Node::Dir { name, digest } => NodeRef::Dir {
                name: name.as_str(),
                digest: *digest,
            },
            Node::Link { name, target } => NodeRef::Link {
                name: name.as_str(),
                target: target.as_str(),
            },
        }
    }

    /// The number of the list that it stands in: files 1, directories 2, symlinks 3.
    pub(crate) fn number(&self) -> u32
        ensures { result ≡ number_of (node_view self.now) }
    {
        match self {
            NodeRef::File { .. } => 1,
            NodeRef::Dir { .. } => 2,
            NodeRef::Link { .. } => 3,
        }
    }

    pub(crate) fn name(&self) -> &'a str
        ensures { result.now ≡ name_of (node_view self.now) }
    {
        match self {
            NodeRef::File { name, .. } | NodeRef::Dir { name, .. } | NodeRef::Link { name, .. } => {
                name
            }
        }
    }

    /// What it links to; None for a symlink.
    pub(crate) fn edge(&self) -> Option<Edge>
        ensures { result ≡ edge_of (node_view self.now) }
    {
        match self {
            NodeRef::File { digest, .. } => Some(Edge {
                kind: Kind::File,
                digest: *digest,
            }),
            NodeRef::Dir { digest, .. } => Some(Edge {
                kind: Kind::Dir,
                digest: *digest,
            }),
            NodeRef::Link { .. } => None,
        }
    }

    /// A node with copies of the texts.
    pub(crate) fn to_node(&self, alloc: Global) -> Result<Node, OutOfMemory>
        ensures { IfOk result (λ n. n ≡ node_view self.now) }
    {
        match self {
            NodeRef::File { name, digest, exec } => Ok(Node::File {
                name: Name::new(alloc, name)?,
                digest: *digest,
                exec: *exec,
            }),
            NodeRef::Dir { name, digest } => Ok(Node::Dir {
                name: Name::new(alloc, name)?,
                digest: *digest,
            }),
            NodeRef::Link { name, target } => Ok(Node::Link {
                name: Name::new(alloc, name)?,
                target: Text::new(alloc, target)?,
            }),
        }
    }
}
