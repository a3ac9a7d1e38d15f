//! BatchReadBlobs.

ghost use Rattle.std.specs.Prelude.{◌≡◌, ◌≤◌, ◌<◌, ◌+◌, ◌*◌, ◌^◌, true, [], length, Ok, IfOk, IfErr, OnErr};
ghost use Rattle.std.specs.List.{AllByRecursion};
ghost use Rattle.cas_calls.specs.Plays.{IsIn, Took, Plays};
ghost use Rattle.cas_calls.specs.Script.{End};
ghost use Rattle.cas_calls.specs.BatchRead.{fits, batch_read_view, batch_read_script, blobs_script, wanting, answered};

use crate::limits::{MAX_BATCH, is_sha256};
use crate::served::{answer, serve};
use crate::status::{batch_too_large, other_function, out_of_memory};
use blob_store::{Door, Shelf};
use cas_messages::{BatchReadBlobsRequest, BatchReadBlobsResponse, BatchReadBlobsResponseItem1};
use casd_base::Status;
use digest_types::Digest;
use proto_wire::{Listed, OutOfMemory};
use std::alloc::Global;

/// Whether the blobs fit into one response.
fn fits(digests: &[Digest]) -> bool
    ensures { result ≡ fits digests.now }
{
    let mut size = 0;
    for digest in digests {
        if digest.size > MAX_BATCH - size {
            return false;
        }
        size += digest.size;
    }
    true
}

fn read_blobs<K: Shelf, D: Door<K>>(
    alloc: Global,
    door: &mut D,
    shelf: &mut K,
    digests: &[Digest],
) -> Result<Vec<BatchReadBlobsResponseItem1>, OutOfMemory>
    requires is_in { IsIn (D.view door.old) }
    requires turns { 2 * length digests.now < (D.view door.old).left }
    requires small { AllByRecursion (λ d. d.size ≤ 3_670_016) digests.now }
    ensures ok { IfOk result (λ answers. Took (blobs_script digests.now []) (D.view door.old) (D.view door.new) (K.shelved shelf.old) (K.shelved shelf.new) (2 * length digests.now) (End (Ok answers.items))) }
    ensures err { OnErr result (Took (blobs_script digests.now []) (D.view door.old) (D.view door.new) (K.shelved shelf.old) (K.shelved shelf.new) (2 * length digests.now) wanting) }
{
    let mut answers = Vec::new(alloc);
    'digests: for digest in digests {
        let served = serve(alloc, door, shelf, digest)?;
        let answer = answer(alloc, digest, served)?;
        answers.push(answer)?;
    }
    Ok(answers)
}

/// The blob of each digest of a request. Every digest has a status of its own in the response, in the order of the request: OK
/// with the bytes, which have the digest; NOT_FOUND where it has no sound blob; DATA_LOSS with both digests where the bytes of
/// its body have another one, which is noted; INTERNAL where the shelf failed. The call is refused, before any entry, with
/// UNIMPLEMENTED for another digest function than SHA-256, and with INVALID_ARGUMENT where the blobs have more than 3,670,016
/// bytes in all; and with ABORTED where memory is wanting.
///
/// The door is entered, and may take 2^22 turns and four for each digest.
pub fn batch_read<K: Shelf, D: Door<K>>(
    alloc: Global,
    door: &mut D,
    shelf: &mut K,
    request: &BatchReadBlobsRequest,
) -> Result<BatchReadBlobsResponse, Status>
    requires is_in { (D.view door.old).entered ≡ true }
    requires turns { 2 ^ 22 + 4 * length request.now.digests ≤ (D.view door.old).left }
    ensures plays { Plays (batch_read_script (batch_read_view request.now)) (D.view door.old) (D.view door.new) (K.shelved shelf.old) (K.shelved shelf.new) (2 * length request.now.digests) (answered result) }
    ensures short { IfErr result (λ status. length status.text ≤ 32) }
{
    let _turns = door.left();
    if !is_sha256(&request.digest_function) {
        return Err(other_function());
    }
    if !fits(request.digests.as_slice()) {
        return Err(batch_too_large());
    }
    match read_blobs(alloc, door, shelf, request.digests.as_slice()) {
        Ok(answers) => Ok(BatchReadBlobsResponse {
            responses: Listed::from_vec(answers),
        }),
        Err(OutOfMemory) => Err(out_of_memory()),
    }
}
