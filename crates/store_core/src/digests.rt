//! Lists of digests.

ghost use Rattle.std.specs.Prelude.{◌≡◌};
ghost use Rattle.store_core.specs.State.{is_empty, is_among};

use digest_types::Digest;

/// Whether this is the digest of no bytes.
#[tactic(auto, using(crate::proofs::Same::filled_from_size))]
pub fn is_empty_blob(digest: &Digest) -> bool
    ensures { result ≡ is_empty digest.now }
{
    digest.size == 0 && *digest == Digest::empty()
}

/// Whether a digest is among these.
pub(crate) fn is_among(digests: &[Digest], digest: &Digest) -> bool
    ensures { result ≡ is_among digests.now digest.now }
{
    digests.iter().any(|other| digest == other)
}
