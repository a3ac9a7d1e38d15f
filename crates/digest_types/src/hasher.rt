//! `Hasher`. No call takes memory.

ghost use Rattle.std.specs.Prelude.{◌≤◌, ◌^◌};

use crate::digest::Digest;
use sha2::{Digest as _, Sha256};

/// Makes a digest of bytes that come piece by piece, at most 2^60 bytes in all.
#[derive(Drop)]
pub struct Hasher {
    inner: Sha256,
    size: u64,
    ghost bounded: { size ≤ 2 ^ 60 },
}

impl Hasher {
    ghost use Rattle.std.specs.Prelude.{◌≡◌, ◌≤◌, ◌+◌, ◌^◌, ◌++◌, ℕ, List, [], length};
    ghost use Rattle.digest_types.specs.Digest.{digest_of, IsDigest};
    ghost use Rattle.digest_types.specs.Hasher.{Holds, added_len};

    /// A hasher of no bytes.
    pub fn new() -> Hasher
        ensures { Holds result [] }
    {
        Hasher {
            inner: Sha256::new(),
            size: 0,
        }
    }

    /// Adds the next piece.
    pub fn update(&mut self, bytes: &[u8])
        requires { added_len self.old + length bytes.now ≤ 2 ^ 60 }
        ensures { (before : List ℕ) → Holds self.old before → Holds self.new (before ++ bytes.now) }
    {
        self.inner.update(bytes);
        self.size += bytes.len() as u64;
    }

    /// The digest of what was added so far.
    #[tactic(auto, unfolding(crate::specs::Digest::digest_of))]
    pub fn so_far(&self) -> Digest
        ensures value { (bytes : List ℕ) → Holds self.now bytes → result ≡ digest_of bytes }
        ensures is { IsDigest result }
    {
        let inner = self.inner.clone().unwrap();
        Digest {
            hash: inner.finalize(),
            size: self.size,
        }
    }

    /// The digest of all that was added.
    #[tactic(auto, unfolding(crate::specs::Digest::digest_of))]
    pub fn finish(self) -> Digest
        ensures value { (bytes : List ℕ) → Holds self bytes → result ≡ digest_of bytes }
        ensures is { IsDigest result }
    {
        let Hasher { inner, size } = self;
        Digest {
            hash: inner.finalize(),
            size,
        }
    }
}
