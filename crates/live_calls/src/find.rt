//! FindMissingBlobs.

ghost use Rattle.std.specs.Prelude.{◌≡◌, ◌≤◌, ◌^◌, Ok, true};
ghost use Rattle.blob_store.specs.Shelves.{Shelved};
ghost use Rattle.cas_messages.specs.Fault.{Gives};
ghost use Rattle.cas_calls.specs.Plays.{Plays};
ghost use Rattle.cas_calls.specs.Script.{Room};
ghost use Rattle.cas_calls.specs.Find.{find_view, find_in};
ghost use Rattle.live_calls.specs.Turns.{wanting, find_by, find_turn};

use crate::outcome::{Outcome, refuse, reply};
use crate::place::Place;
use blob_store::{Door, Shelf};
use cas_calls::{fault_status, find_missing, out_of_memory};
use cas_messages::{FindMissingBlobsRequest, FindMissingBlobsResponse, Message, MessageError};
use std::alloc::Global;

/// A message of 8 MiB has no more digests.
const MAX_DIGESTS: usize = 1 << 20;

/// The request that a message spells.
#[tactic(auto, using(crate::proofs::Requests::find_viewed))]
fn read(alloc: Global, message: &[u8]) -> Result<FindMissingBlobsRequest, MessageError>
    ensures { Gives find_view result (find_in message.now) }
{
    FindMissingBlobsRequest::read(alloc, message)
}

fn find<K: Shelf, D: Door<K>>(
    alloc: Global,
    door: &mut D,
    request: &FindMissingBlobsRequest,
) -> Outcome<Place<K>>
    requires is_in { (D.view door.old).entered ≡ true }
    requires turns { 2 ^ 30 ≤ (D.view door.old).left }
    ensures { (x : Shelved) → Plays (Room wanting (find_by (Ok (find_view request.now)))) (D.view door.old) (D.view door.new) x x (2 ^ 22) result }
{
    let _turns = door.left();
    if request.blob_digests.len() > MAX_DIGESTS {
        return refuse(out_of_memory());
    }
    match find_missing::<K, D>(door, request) {
        Ok(response) => reply(response.write(alloc)),
        Err(status) => refuse(status),
    }
}

/// Answers the message of a call.
pub(crate) fn answer<K: Shelf, D: Door<K>>(
    alloc: Global,
    door: &mut D,
    message: &[u8],
) -> Outcome<Place<K>>
    requires is_in { (D.view door.old).entered ≡ true }
    requires turns { 2 ^ 30 ≤ (D.view door.old).left }
    ensures { (x : Shelved) → Plays (find_turn message.now) (D.view door.old) (D.view door.new) x x (2 ^ 22) result }
{
    match read(alloc, message) {
        Ok(request) => find::<K, D>(alloc, door, &request),
        Err(fault) => {
            let _turns = door.left();
            refuse(fault_status(&fault))
        }
    }
}
