//! `Digest`.

ghost use Rattle.std.specs.Prelude.{◌≡◌, ◌≤◌, ◌^◌, ◌<◌, [], length, IfOk};
ghost use Rattle.digest_types.specs.Digest.{digest_of, IsDigest, printed};

use proto_wire::{Listed, OutOfMemory, Text};
use sha2::Sha256;
use std::alloc::Global;
use std::marker::Model;

/// The name of a blob: the SHA-256 hash of its bytes, and their number, at most 2^63 - 1.
/// Digests are ordered by hash, then by size.
#[derive(Clone, Copy, Debug, PartialEq, Eq, PartialOrd, Ord, Hash)]
pub struct Digest {
    pub hash: [u8; 32],
    pub size: u64,
}

/// A list of digests.
pub type Digests = Listed<Digest>;

impl Model for Digest {
    ghost use Rattle.std.specs.Prelude.{◌<◌, ◌^◌};
    ghost use Rattle.digest_types.specs.Name.{HashAndSize};

    ghost Value = { HashAndSize };

    ghost view = { λ d. record { hash = d.hash; size = d.size } };

    ghost invariant = { λ d. d.size < 2 ^ 63 };

    ghost inverse = { λ v. record { hash = v.hash; size = v.size } };
}

impl Digest {
    /// The digest of the bytes. It takes no memory.
    #[tactic(auto, unfolding(crate::specs::Digest::digest_of))]
    pub fn of(bytes: &[u8]) -> Digest
        requires { length bytes.now ≤ 2 ^ 60 }
        ensures value { result ≡ digest_of bytes.now }
        ensures is { IsDigest result }
    {
        Digest {
            hash: <Sha256 as sha2::Digest>::digest(bytes),
            size: bytes.len() as u64,
        }
    }

    /// The digest of the empty blob. It takes no memory.
    pub fn empty() -> Digest
        ensures value { result ≡ digest_of [] }
        ensures is { IsDigest result }
    {
        Digest::of(&[])
    }

    /// The hash in lower-case hex, a slash, and the size in decimal.
    pub fn print(&self, alloc: Global) -> Result<Text, OutOfMemory>
        ensures { IfOk result (λ t. t ≡ printed self.now) }
    {
        let hash = hex::encode(alloc, &self.hash)?;
        let size = self.size;
        let text = format!(in alloc; "{hash}/{size}")?;
        Ok(Text::from_string(text))
    }
}
