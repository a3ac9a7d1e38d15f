//! Whether a blob is there.

ghost use Rattle.std.specs.Prelude.{◌≡◌, ◌<◌, ◌∷◌, [], IfOk, OnErr};
ghost use Rattle.blob_store.specs.View.{Waits};
ghost use Rattle.cas_calls.specs.Plays.{IsIn};
ghost use Rattle.byte_stream.specs.Here.{FindsOne, IsAbsent};

use crate::status::not_here;
use blob_store::{Door, Shelf};
use cas_calls::out_of_memory;
use casd_base::Status;
use digest_types::{Digest, Digests};
use proto_wire::OutOfMemory;
use std::alloc::Global;

fn only(alloc: Global, digest: &Digest) -> Result<Digests, OutOfMemory>
    ensures { IfOk result (λ ds. ds ≡ digest.now ∷ []) }
{
    let mut digests = Digests::new(alloc);
    digests.push(*digest)?;
    Ok(digests)
}

/// Whether the store has a sound blob of a digest. It makes one Find entry.
#[tactic(auto, using(crate::proofs::HereLaws::waits_in, crate::proofs::HereLaws::finds_one))]
pub(crate) fn is_here<K: Shelf, D: Door<K>>(
    alloc: Global,
    door: &mut D,
    digest: &Digest,
) -> Result<bool, OutOfMemory>
    requires is_in { IsIn (D.view door.old) }
    requires turn { 0 < (D.view door.old).left }
    ensures ok { IfOk result (λ here. FindsOne digest.now here (D.view door.old) (D.view door.new)) }
    ensures err { OnErr result (Waits (D.view door.old) (D.view door.new)) }
{
    let digests = only(alloc, digest)?;
    let missing = door.find(&digests)?;
    Ok(missing.is_empty())
}

/// The status of a digest without a sound blob, or of want of memory for its text.
pub(crate) fn absent(alloc: Global, digest: &Digest) -> Status
    ensures { IsAbsent digest.now result }
{
    match not_here(alloc, digest) {
        Ok(status) => status,
        Err(OutOfMemory) => out_of_memory(),
    }
}
