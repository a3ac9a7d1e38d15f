//! Directories with the digests of their canonical bytes, by which they are ordered.

ghost use Rattle.std.specs.Prelude.{◌≡◌, IfOk};
ghost use Rattle.directory_canon.specs.Canon.{IsDirectory};
ghost use Rattle.directory_canon.specs.Tree.{tree_cmp};

use crate::directory::Directory;
use crate::write::write_canon;
use digest_types::Digest;
use proto_wire::{Bytes, OutOfMemory};
use std::alloc::Global;
use std::cmp::Ordering;
use std::marker::Model;

/// A Directory with its canonical bytes and their digest. Contracts see the Directory.
#[derive(Drop)]
pub(crate) struct Keyed {
    digest: Digest,
    bytes: Bytes,
    dir: Directory,
}

impl Model for Keyed {
    ghost use Rattle.std.specs.Prelude.{◌≡◌, List};
    ghost use Rattle.digest_types.specs.Digest.{digest_of};
    ghost use Rattle.directory_canon.specs.declared.node.Node.{Node};
    ghost use Rattle.directory_canon.specs.Canon.{spelled};

    ghost Value = { List Node };

    ghost view = { λ k. k.dir };

    ghost invariant = { λ k. (k.bytes ≡ spelled k.dir) × (k.digest ≡ digest_of (spelled k.dir)) };
}

impl Keyed {
    /// Writes the Directory and hashes it, once.
    pub(crate) fn new(alloc: Global, dir: Directory) -> Result<Keyed, OutOfMemory>
        ensures same { IfOk result (λ keyed. keyed ≡ dir) }
        ensures is { IfOk result IsDirectory }
    {
        let bytes = write_canon(alloc, &dir)?;
        let digest = Digest::of(bytes.as_slice());
        Ok(Keyed { digest, bytes, dir })
    }

    /// Compares by digest, and then by the bytes.
    pub(crate) fn order(&self, other: &Keyed) -> Ordering
        ensures { result ≡ tree_cmp self.now other.now }
    {
        let bytes = self.bytes.as_slice().cmp(other.bytes.as_slice());
        self.digest.cmp(&other.digest).then(bytes)
    }

    /// The Directory. It takes no memory.
    pub(crate) fn into_dir(self) -> Directory
        ensures { result ≡ self }
    {
        let Keyed { dir, .. } = self;
        dir
    }
}
