//! The message of a digest.

ghost use Rattle.std.specs.Prelude.{◌≡◌, IfOk, Ok};
ghost use Rattle.hex.specs.Hex.{IsBytes, encode_lower};
ghost use Rattle.digest_types.specs.Digest.{IsDigest, spelled};
ghost use Rattle.digest_types.specs.Reading.{digest_in, Gives};

use crate::digest::Digest;
use crate::error::DigestError;
use crate::lower_hex::hash_in;
use proto_wire::{Bytes, OutOfMemory, Writer, fields, last_bytes, last_int};
use std::alloc::Global;

/// The text of a hash in lower-case hex.
fn hash_text(hash: &[u8; 32]) -> [u8; 64]
    ensures value { result ≡ encode_lower hash.now }
    ensures bytes { IsBytes hash.now }
{
    let mut text = [0u8; 64];
    let _ = hex::encode_to_slice(hash, &mut text);
    text
}

impl Digest {
    /// The digest that the content of a Digest message spells: field 1 is the hash in lower-case hex,
    /// field 2 the size.
    #[tactic(auto, unfolding(crate::specs::Reading::digest_in))]
    pub fn read(alloc: Global, bytes: &[u8]) -> Result<Digest, DigestError>
        ensures value { Gives (λ d. d) result (digest_in bytes.now) }
        ensures is { IfOk result IsDigest }
    {
        let fields = fields(alloc, bytes)?;
        let Some(hash) = hash_in(last_bytes(&fields, 1).unwrap_or(&[])) else {
            return Err(DigestError::BadHash);
        };
        let size = last_int(&fields, 2).unwrap_or(0);
        if size >= 1 << 63 {
            return Err(DigestError::NegativeSize);
        }
        Ok(Digest { hash, size })
    }

    /// The canonical content of its Digest message.
    pub fn write(&self, alloc: Global) -> Result<Bytes, OutOfMemory>
        ensures value { IfOk result (λ b. b ≡ spelled self.now) }
        ensures is { IsDigest self.now }
        // The written message is read as this digest.
        ensures again { IfOk result (λ b. digest_in b ≡ Ok self.now) }
    {
        let mut out = Writer::new(alloc);
        out.bytes(1, &hash_text(&self.hash))?;
        if self.size != 0 {
            out.int(2, self.size)?;
        }
        Ok(out.finish())
    }
}
