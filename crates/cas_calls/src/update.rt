//! BatchUpdateBlobs.

ghost use Rattle.std.specs.Prelude.{◌≡◌, ◌≤◌, ◌<◌, ◌+◌, ◌*◌, ◌^◌, true, [], length, Ok, IfOk, IfErr, OnErr};
ghost use Rattle.std.specs.List.{AllByRecursion};
ghost use Rattle.cas_calls.specs.Plays.{IsIn, Took, Plays};
ghost use Rattle.cas_calls.specs.Script.{End};
ghost use Rattle.cas_calls.specs.Update.{fits, update_view, update_script, items_script, wanting, answered};

use crate::limits::{MAX_BATCH, is_sha256};
use crate::put::{put_item, status_of};
use crate::status::{batch_too_large, other_function, out_of_memory, rpc_status};
use blob_store::{Door, Shelf};
use cas_messages::{
    BatchUpdateBlobsRequest, BatchUpdateBlobsRequestItem2, BatchUpdateBlobsResponse,
    BatchUpdateBlobsResponseItem1,
};
use casd_base::Status;
use proto_wire::{Listed, OutOfMemory};
use std::alloc::Global;

/// Whether the data of a request is within the limit.
fn fits(items: &[BatchUpdateBlobsRequestItem2]) -> bool
    ensures { result ≡ fits items.now }
{
    let mut size = 0;
    for item in items {
        let len = item.bytes.len() as u64;
        if len > MAX_BATCH - size {
            return false;
        }
        size += len;
    }
    true
}

fn put_items<K: Shelf, D: Door<K>>(
    alloc: Global,
    door: &mut D,
    shelf: &mut K,
    items: &[BatchUpdateBlobsRequestItem2],
) -> Result<Vec<BatchUpdateBlobsResponseItem1>, OutOfMemory>
    requires is_in { IsIn (D.view door.old) }
    requires turns { length items.now < (D.view door.old).left }
    requires small { AllByRecursion (λ item. length item.bytes ≤ 2 ^ 60) items.now }
    ensures ok { IfOk result (λ answers. Took (items_script items.now []) (D.view door.old) (D.view door.new) (K.shelved shelf.old) (K.shelved shelf.new) (length items.now) (End (Ok answers.items))) }
    ensures err { OnErr result (Took (items_script items.now []) (D.view door.old) (D.view door.new) (K.shelved shelf.old) (K.shelved shelf.new) (length items.now) wanting) }
{
    let mut answers = Vec::new(alloc);
    'items: for item in items {
        let judged = put_item(alloc, door, shelf, item)?;
        let status = status_of(alloc, item, &judged)?;
        answers.push(BatchUpdateBlobsResponseItem1 {
            digest: item.digest,
            status: rpc_status(status),
        })?;
    }
    Ok(answers)
}

/// Puts each blob of a request whose bytes have its digest. Every blob has a status of its own in the response, in the order of
/// the request: OK; INVALID_ARGUMENT with both digests where they differ; RESOURCE_EXHAUSTED with the guarded bytes, its size
/// and the high mark where there is no space; UNIMPLEMENTED where it comes with a compressor; INTERNAL where the shelf failed.
/// The call is refused, before any entry, with UNIMPLEMENTED for another digest function than SHA-256, and with
/// INVALID_ARGUMENT for more than 3,670,016 bytes of data; and with ABORTED where memory is wanting: some of the blobs may have
/// been put then.
///
/// The door is entered, and may take 2^22 turns and four for each blob.
pub fn batch_update<K: Shelf, D: Door<K>>(
    alloc: Global,
    door: &mut D,
    shelf: &mut K,
    request: &BatchUpdateBlobsRequest,
) -> Result<BatchUpdateBlobsResponse, Status>
    requires is_in { (D.view door.old).entered ≡ true }
    requires turns { 2 ^ 22 + 4 * length request.now.requests ≤ (D.view door.old).left }
    ensures plays { Plays (update_script (update_view request.now)) (D.view door.old) (D.view door.new) (K.shelved shelf.old) (K.shelved shelf.new) (length request.now.requests) (answered result) }
    ensures short { IfErr result (λ status. length status.text ≤ 32) }
{
    let _turns = door.left();
    if !is_sha256(&request.digest_function) {
        return Err(other_function());
    }
    if !fits(request.requests.as_slice()) {
        return Err(batch_too_large());
    }
    match put_items(alloc, door, shelf, request.requests.as_slice()) {
        Ok(answers) => Ok(BatchUpdateBlobsResponse {
            responses: Listed::from_vec(answers),
        }),
        Err(OutOfMemory) => Err(out_of_memory()),
    }
}
