//! One digest of BatchReadBlobs.

ghost use Rattle.std.specs.Prelude.{◌≡◌, ◌≢◌, ◌≤◌, ◌<◌, ◌^◌, [], length, IfOk, OnErr, None};
ghost use Rattle.digest_types.specs.Digest.{digest_of};
ghost use Rattle.blob_store.specs.Bodies.{HasRead};
ghost use Rattle.blob_store.specs.Calls.{Begins};
ghost use Rattle.cas_messages.specs.declared.blobs.BatchReadBlobsResponseItem1.{BatchReadBlobsResponseItem1 as Answer};
ghost use Rattle.cas_calls.specs.Script.{Script};
ghost use Rattle.cas_calls.specs.Plays.{IsIn, Took, Leaves};
ghost use Rattle.store_core.specs.declared.event.Reply.TheVariants as replies;
ghost use Rattle.cas_calls.specs.BatchRead.{Answered, wanting, blob_script, entry_script, unread_answer};
ghost use Rattle.cas_calls.specs.Served.{answer_of, told_by, HasTold};

use crate::status::{damaged, fine, not_here, rpc_status, store_fault};
use blob_store::{Door, Reading, ReadingEnd, Shelf, ShelfEnd};
use cas_messages::BatchReadBlobsResponseItem1;
use casd_base::Status;
use digest_types::Digest;
use proto_wire::{Bytes, OutOfMemory};
use std::alloc::Global;

/// What became of a digest.
#[derive(Debug, Drop)]
pub(crate) enum Served {
    /// The bytes of its blob.
    Blob(Bytes),
    /// It has no sound blob.
    Absent,
    /// The bytes of its body have this other one.
    Damaged(Digest),
    /// The shelf failed.
    Failed,
}

/// Why a body isn't served.
fn unread_body(end: ReadingEnd) -> Served
    ensures { result ≡ told_by end }
{
    match end {
        ReadingEnd::Failed => Served::Failed,
        ReadingEnd::Damaged { want: _, got } => Served::Damaged(got),
    }
}

/// How many bytes are read at once at most.
const MAX_PIECE: u64 = 65_536;

/// Reads a whole body, piece by piece.
fn read_body<K: Shelf>(
    alloc: Global,
    shelf: &mut K,
    reading: Reading<K>,
    size: u64,
) -> Result<Served, OutOfMemory>
    requires size { reading.want.size ≡ size }
    requires small { size ≤ 3_670_016 }
    requires begins { (reading.end ≡ None) × HasRead reading [] }
    ensures told { IfOk result (HasTold reading.want (K.shelved shelf.old) (K.shelved shelf.new)) }
    ensures leaves { Leaves (K.shelved shelf.old) (K.shelved shelf.new) }
{
    let mut reading = reading;
    let mut piece = vec![in alloc; 0; MAX_PIECE.min(size + 1) as usize]?;
    let mut bytes = Vec::new(alloc);
    'pieces: loop {
        match reading.next(shelf, piece.as_mut_slice()) {
            Ok(0) => return Ok(Served::Blob(Bytes::from_vec(bytes))),
            Ok(n) => bytes.extend_from_slice(&piece[..n])?,
            Err(end) => return Ok(unread_body(end)),
        }
    }
}

/// Reads the body of a sound row, and notes the damage if it has another digest.
fn serve_body<K: Shelf, D: Door<K>>(
    alloc: Global,
    door: &mut D,
    shelf: &mut K,
    digest: &Digest,
    reading: Reading<K>,
) -> Result<Served, OutOfMemory>
    requires is_in { IsIn (D.view door.old) }
    requires turn { 0 < (D.view door.old).left }
    requires small { digest.now.size ≤ 3_670_016 }
    requires begins { Begins digest.now reading }
    ensures ok { IfOk result (λ s. (next : Answer → Script Answered) → Took (entry_script digest.now next replies.Found) (D.view door.old) (D.view door.new) (K.shelved shelf.old) (K.shelved shelf.new) 1 (next (answer_of digest.now s))) }
    ensures err { OnErr result ((next : Answer → Script Answered) → Took (entry_script digest.now next replies.Found) (D.view door.old) (D.view door.new) (K.shelved shelf.old) (K.shelved shelf.new) 1 wanting) }
{
    match read_body(alloc, shelf, reading, digest.size)? {
        Served::Damaged(got) => {
            door.damage(digest);
            Ok(Served::Damaged(got))
        }
        served => Ok(served),
    }
}

/// Reads the blob of a digest, if it has a sound one.
pub(crate) fn serve<K: Shelf, D: Door<K>>(
    alloc: Global,
    door: &mut D,
    shelf: &mut K,
    digest: &Digest,
) -> Result<Served, OutOfMemory>
    requires is_in { IsIn (D.view door.old) }
    requires turns { 1 < (D.view door.old).left }
    requires small { digest.now.size ≤ 3_670_016 }
    ensures ok { IfOk result (λ s. (next : Answer → Script Answered) → Took (blob_script digest.now next) (D.view door.old) (D.view door.new) (K.shelved shelf.old) (K.shelved shelf.new) 2 (next (answer_of digest.now s))) }
    ensures err { OnErr result ((next : Answer → Script Answered) → Took (blob_script digest.now next) (D.view door.old) (D.view door.new) (K.shelved shelf.old) (K.shelved shelf.new) 2 wanting) }
{
    match door.read(shelf, digest) {
        Ok(Some(reading)) => serve_body(alloc, door, shelf, digest, reading),
        Ok(None) => Ok(Served::Absent),
        Err(ShelfEnd::Failed) => Ok(Served::Failed),
        Err(ShelfEnd::OutOfMemory) => Err(OutOfMemory),
    }
}

fn unread(digest: &Digest, alloc: Global, status: Status) -> BatchReadBlobsResponseItem1
    ensures { result ≡ unread_answer digest.now status }
{
    BatchReadBlobsResponseItem1 {
        digest: *digest,
        bytes: Bytes::new(alloc),
        status: rpc_status(status),
        compressor: 0,
    }
}

/// The answer to a digest.
pub(crate) fn answer(
    alloc: Global,
    digest: &Digest,
    served: Served,
) -> Result<BatchReadBlobsResponseItem1, OutOfMemory>
    ensures { IfOk result (λ a. a ≡ answer_of digest.now served) }
{
    match served {
        Served::Blob(bytes) => Ok(BatchReadBlobsResponseItem1 {
            digest: *digest,
            bytes,
            status: rpc_status(fine()),
            compressor: 0,
        }),
        Served::Absent => Ok(unread(digest, alloc, not_here(alloc, digest)?)),
        Served::Damaged(got) => Ok(unread(digest, alloc, damaged(alloc, digest, &got)?)),
        Served::Failed => Ok(unread(digest, alloc, store_fault())),
    }
}
