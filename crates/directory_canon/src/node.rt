//! The nodes of a Directory.

use digest_types::Digest;
use proto_wire::{Listed, Name, Text};

/// A file, a directory or a symlink.
#[derive(Debug, Drop)]
pub enum Node {
    /// A file with the digest of its bytes, and whether it is executable.
    File {
        name: Name,
        digest: Digest,
        exec: bool,
    },
    /// A directory with the digest of its canonical bytes.
    Dir {
        name: Name,
        digest: Digest,
    },
    /// A symlink with the path that it points to.
    Link {
        name: Name,
        target: Text,
    },
}

/// What a link leads to.
#[derive(Clone, Copy, Debug, PartialEq, Eq, PartialOrd, Ord)]
pub enum Kind {
    File,
    Dir,
}

/// A link from a Directory to a blob.
#[derive(Clone, Copy, Debug, PartialEq, Eq)]
pub struct Edge {
    pub kind: Kind,
    pub digest: Digest,
}

/// A list of links.
pub type Edges = Listed<Edge>;
