//! BatchReadBlobs.

ghost use Rattle.std.specs.Prelude.{◌≡◌, ◌≤◌, ◌^◌, Ok, true};
ghost use Rattle.cas_messages.specs.Fault.{Gives};
ghost use Rattle.cas_calls.specs.Plays.{Plays};
ghost use Rattle.cas_calls.specs.Script.{Room};
ghost use Rattle.cas_calls.specs.BatchRead.{batch_read_view, batch_read_in};
ghost use Rattle.live_calls.specs.Turns.{wanting, read_by, read_turn};

use crate::outcome::{Outcome, refuse, reply};
use crate::place::Place;
use blob_store::{Door, Shelf};
use cas_calls::{batch_read, fault_status, out_of_memory};
use cas_messages::{BatchReadBlobsRequest, BatchReadBlobsResponse, Message, MessageError};
use std::alloc::Global;

/// A message of 8 MiB has no more digests.
const MAX_DIGESTS: usize = 1 << 20;

/// The request that a message spells.
#[tactic(auto, using(crate::proofs::Requests::batch_read_viewed))]
fn read(alloc: Global, message: &[u8]) -> Result<BatchReadBlobsRequest, MessageError>
    ensures { Gives batch_read_view result (batch_read_in message.now) }
{
    BatchReadBlobsRequest::read(alloc, message)
}

fn serve<K: Shelf, D: Door<K>>(
    alloc: Global,
    door: &mut D,
    shelf: &mut K,
    request: &BatchReadBlobsRequest,
) -> Outcome<Place<K>>
    requires is_in { (D.view door.old).entered ≡ true }
    requires turns { 2 ^ 30 ≤ (D.view door.old).left }
    ensures { Plays (Room wanting (read_by (Ok (batch_read_view request.now)))) (D.view door.old) (D.view door.new) (K.shelved shelf.old) (K.shelved shelf.new) (2 ^ 22) result }
{
    let _turns = door.left();
    if request.digests.len() > MAX_DIGESTS {
        return refuse(out_of_memory());
    }
    match batch_read(alloc, door, shelf, request) {
        Ok(response) => reply(response.write(alloc)),
        Err(status) => refuse(status),
    }
}

/// Answers the message of a call.
pub(crate) fn answer<K: Shelf, D: Door<K>>(
    alloc: Global,
    door: &mut D,
    shelf: &mut K,
    message: &[u8],
) -> Outcome<Place<K>>
    requires is_in { (D.view door.old).entered ≡ true }
    requires turns { 2 ^ 30 ≤ (D.view door.old).left }
    ensures { Plays (read_turn message.now) (D.view door.old) (D.view door.new) (K.shelved shelf.old) (K.shelved shelf.new) (2 ^ 22) result }
{
    match read(alloc, message) {
        Ok(request) => serve(alloc, door, shelf, &request),
        Err(fault) => {
            let _turns = door.left();
            refuse(fault_status(&fault))
        }
    }
}
