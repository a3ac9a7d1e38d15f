//! One item of BatchUpdateBlobs.

ghost use Rattle.std.specs.Prelude.{◌≡◌, ◌≤◌, ◌<◌, ◌^◌, length, IfOk, OnErr};
ghost use Rattle.directory_canon.specs.Links.{links};
ghost use Rattle.casd_base.specs.declared.status.Status.{Status as AStatus};
ghost use Rattle.blob_store.specs.Bodies.{IsSealed};
ghost use Rattle.blob_store.specs.Calls.{put_reply};
ghost use Rattle.cas_calls.specs.Script.{Script, Did};
ghost use Rattle.cas_calls.specs.Judged.{status_of};
ghost use Rattle.cas_calls.specs.Plays.{IsIn, Took};
ghost use Rattle.cas_calls.specs.Statuses.{put_status as put_status_of};
ghost use Rattle.cas_calls.specs.Update.{Answered, wanting, put_script, kept_script, plain_script, item_script};

use crate::keep::keep;
use crate::limits::is_plain;
use crate::status::{compressed, mismatch, put_status, store_fault};
use blob_store::{Checked, Door, PutReply, Shelf, ShelfEnd};
use cas_messages::BatchUpdateBlobsRequestItem2;
use casd_base::Status;
use digest_types::Digest;
use proto_wire::OutOfMemory;
use std::alloc::Global;

/// What became of an item.
#[derive(Clone, Copy, Debug, PartialEq, Eq)]
pub(crate) enum Judged {
    /// Its bytes have the declared digest, and were put.
    Put(PutReply),
    /// They have this other one.
    Other(Digest),
    /// The shelf failed.
    Failed,
    /// They come with a compressor.
    Compressed,
}

/// Puts a body under the digest that its item declares.
fn put_body<K: Shelf, D: Door<K>>(
    door: &mut D,
    shelf: &mut K,
    blob: Checked<K>,
    item: &BatchUpdateBlobsRequestItem2,
) -> Result<Judged, OutOfMemory>
    requires is_in { IsIn (D.view door.old) }
    requires turn { 0 < (D.view door.old).left }
    requires sealed { IsSealed item.now.bytes blob }
    requires same { blob.digest ≡ item.now.digest }
    ensures ok { IfOk result (λ j. (next : AStatus → Script Answered) → Took (put_script item.now next) (D.view door.old) (D.view door.new) (K.shelved shelf.old) (K.shelved shelf.new) 1 (next (status_of item.now j))) }
    ensures err { OnErr result ((next : AStatus → Script Answered) → Took (put_script item.now next) (D.view door.old) (D.view door.new) (K.shelved shelf.old) (K.shelved shelf.new) 1 wanting) }
{
    let reply = door.put(shelf, blob)?;
    Ok(Judged::Put(reply))
}

/// Puts a body if it has the digest that its item declares, and gives it up if not.
fn judge<K: Shelf, D: Door<K>>(
    door: &mut D,
    shelf: &mut K,
    blob: Checked<K>,
    item: &BatchUpdateBlobsRequestItem2,
) -> Result<Judged, OutOfMemory>
    requires is_in { IsIn (D.view door.old) }
    requires turn { 0 < (D.view door.old).left }
    requires sealed { IsSealed item.now.bytes blob }
    ensures ok { IfOk result (λ j. (next : AStatus → Script Answered) → Took (kept_script item.now next Did) (D.view door.old) (D.view door.new) (K.shelved shelf.old) (K.shelved shelf.new) 1 (next (status_of item.now j))) }
    ensures err { OnErr result ((next : AStatus → Script Answered) → Took (kept_script item.now next Did) (D.view door.old) (D.view door.new) (K.shelved shelf.old) (K.shelved shelf.new) 1 wanting) }
{
    let got = blob.digest();
    if got != item.digest {
        blob.give_up(shelf);
        return Ok(Judged::Other(got));
    }
    put_body(door, shelf, blob, item)
}

/// Brings the bytes of an item to the shelf, and puts them if they have the declared digest.
fn put_plain<K: Shelf, D: Door<K>>(
    alloc: Global,
    door: &mut D,
    shelf: &mut K,
    item: &BatchUpdateBlobsRequestItem2,
) -> Result<Judged, OutOfMemory>
    requires is_in { IsIn (D.view door.old) }
    requires turn { 0 < (D.view door.old).left }
    requires small { length item.now.bytes ≤ 2 ^ 60 }
    ensures ok { IfOk result (λ j. (next : AStatus → Script Answered) → Took (plain_script item.now next) (D.view door.old) (D.view door.new) (K.shelved shelf.old) (K.shelved shelf.new) 1 (next (status_of item.now j))) }
    ensures err { OnErr result ((next : AStatus → Script Answered) → Took (plain_script item.now next) (D.view door.old) (D.view door.new) (K.shelved shelf.old) (K.shelved shelf.new) 1 wanting) }
{
    match keep(alloc, shelf, item.bytes.as_slice()) {
        Ok(blob) => judge(door, shelf, blob, item),
        Err(ShelfEnd::Failed) => Ok(Judged::Failed),
        Err(ShelfEnd::OutOfMemory) => Err(OutOfMemory),
    }
}

/// Puts the bytes of an item that have the declared digest and no compressor.
pub(crate) fn put_item<K: Shelf, D: Door<K>>(
    alloc: Global,
    door: &mut D,
    shelf: &mut K,
    item: &BatchUpdateBlobsRequestItem2,
) -> Result<Judged, OutOfMemory>
    requires is_in { IsIn (D.view door.old) }
    requires turn { 0 < (D.view door.old).left }
    requires small { length item.now.bytes ≤ 2 ^ 60 }
    ensures ok { IfOk result (λ j. (next : AStatus → Script Answered) → Took (item_script item.now next) (D.view door.old) (D.view door.new) (K.shelved shelf.old) (K.shelved shelf.new) 1 (next (status_of item.now j))) }
    ensures err { OnErr result ((next : AStatus → Script Answered) → Took (item_script item.now next) (D.view door.old) (D.view door.new) (K.shelved shelf.old) (K.shelved shelf.new) 1 wanting) }
{
    if !is_plain(&item.compressor) {
        return Ok(Judged::Compressed);
    }
    put_plain(alloc, door, shelf, item)
}

/// The status of an item.
pub(crate) fn status_of(
    alloc: Global,
    item: &BatchUpdateBlobsRequestItem2,
    judged: &Judged,
) -> Result<Status, OutOfMemory>
    ensures { IfOk result (λ s. s ≡ status_of item.now judged.now) }
{
    match judged {
        Judged::Put(reply) => put_status(alloc, reply),
        Judged::Other(got) => mismatch(alloc, &item.digest, got),
        Judged::Failed => Ok(store_fault()),
        Judged::Compressed => Ok(compressed()),
    }
}
