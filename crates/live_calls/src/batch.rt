//! BatchUpdateBlobs.

ghost use Rattle.std.specs.Prelude.{◌≡◌, ◌≤◌, ◌^◌, IfOk, Ok, true};
ghost use Rattle.cas_messages.specs.Fault.{Gives};
ghost use Rattle.cas_calls.specs.Plays.{Plays};
ghost use Rattle.cas_calls.specs.Script.{Room};
ghost use Rattle.cas_calls.specs.Update.{update_view, update_in, answered as answered_by, response_spelled};
ghost use Rattle.live_calls.specs.Turns.{wanting, update_by, update_turn};

use crate::outcome::{Outcome, refuse, reply};
use crate::place::Place;
use blob_store::{Door, Shelf};
use cas_calls::{batch_update, fault_status, out_of_memory};
use cas_messages::{BatchUpdateBlobsRequest, BatchUpdateBlobsResponse, Message, MessageError};
use std::alloc::Global;

/// A message of 8 MiB has no more blobs.
const MAX_BLOBS: usize = 1 << 22;

/// The request that a message spells.
#[tactic(auto, using(crate::proofs::Requests::viewed))]
fn read(alloc: Global, message: &[u8]) -> Result<BatchUpdateBlobsRequest, MessageError>
    ensures { Gives update_view result (update_in message.now) }
{
    BatchUpdateBlobsRequest::read(alloc, message)
}

fn update<K: Shelf, D: Door<K>>(
    alloc: Global,
    door: &mut D,
    shelf: &mut K,
    request: &BatchUpdateBlobsRequest,
) -> Outcome<Place<K>>
    requires is_in { (D.view door.old).entered ≡ true }
    requires turns { 2 ^ 30 ≤ (D.view door.old).left }
    ensures { Plays (Room wanting (update_by (Ok (update_view request.now)))) (D.view door.old) (D.view door.new) (K.shelved shelf.old) (K.shelved shelf.new) (2 ^ 22) result }
{
    let _turns = door.left();
    if request.requests.len() > MAX_BLOBS {
        return refuse(out_of_memory());
    }
    match batch_update(alloc, door, shelf, request) {
        Ok(response) => reply(response.write(alloc)),
        Err(status) => refuse(status),
    }
}

/// Answers the message of a call.
pub(crate) fn answer<K: Shelf, D: Door<K>>(
    alloc: Global,
    door: &mut D,
    shelf: &mut K,
    message: &[u8],
) -> Outcome<Place<K>>
    requires is_in { (D.view door.old).entered ≡ true }
    requires turns { 2 ^ 30 ≤ (D.view door.old).left }
    ensures { Plays (update_turn message.now) (D.view door.old) (D.view door.new) (K.shelved shelf.old) (K.shelved shelf.new) (2 ^ 22) result }
{
    match read(alloc, message) {
        Ok(request) => update(alloc, door, shelf, &request),
        Err(fault) => {
            let _turns = door.left();
            refuse(fault_status(&fault))
        }
    }
}
