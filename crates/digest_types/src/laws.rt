//! What holds of the definitions, and of the order of digests.

ghost use Rattle.std.specs.Prelude.{◌≡◌, Ok};
ghost use Rattle.digest_types.specs.Name.{HashAndSize};
ghost use Rattle.digest_types.specs.Digest.{IsDigest, digest_cmp, spelled, printed};
ghost use Rattle.digest_types.specs.Parsing.{parsed};
ghost use Rattle.digest_types.specs.Reading.{digest_in};

use crate::digest::Digest;

/// The canonical message of a digest is read as that digest.
pub fn written_is_read()
    ensures { (d : HashAndSize) → IsDigest d → digest_in (spelled d) ≡ Ok d }
{}

/// The printed text of a digest is parsed as that digest.
pub fn printed_is_parsed()
    ensures { (d : HashAndSize) → IsDigest d → parsed (printed d) ≡ Ok d }
{}

/// Digests are ordered by hash, and digests of one hash by size.
pub fn hash_compares_before_size()
    ensures { (a b : HashAndSize) → ⟦<Digest as Ord>⟧.cmp a b ≡ digest_cmp a b }
{}
