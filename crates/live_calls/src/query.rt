//! QueryWriteStatus.

ghost use Rattle.std.specs.Prelude.{◌≡◌, ◌≤◌, ◌^◌, true};
ghost use Rattle.blob_store.specs.Shelves.{Shelved};
ghost use Rattle.cas_messages.specs.Fault.{Gives};
ghost use Rattle.cas_calls.specs.Plays.{Plays};
ghost use Rattle.byte_stream.specs.Query.{query_request_in};
ghost use Rattle.live_calls.specs.Turns.{query_turn};

use crate::outcome::{Outcome, refuse, reply};
use crate::place::Place;
use blob_store::{Door, Shelf};
use byte_stream::query;
use cas_calls::fault_status;
use cas_messages::{Message, MessageError, QueryWriteStatusRequest, QueryWriteStatusResponse};
use std::alloc::Global;

/// The request that a message spells.
#[tactic(auto, using(crate::proofs::Requests::query_viewed))]
fn read(alloc: Global, message: &[u8]) -> Result<QueryWriteStatusRequest, MessageError>
    ensures { Gives (λ r. r) result (query_request_in message.now) }
{
    QueryWriteStatusRequest::read(alloc, message)
}

/// Answers the message of a call.
pub(crate) fn answer<K: Shelf, D: Door<K>>(
    alloc: Global,
    door: &mut D,
    message: &[u8],
) -> Outcome<Place<K>>
    requires is_in { (D.view door.old).entered ≡ true }
    requires turns { 2 ^ 30 ≤ (D.view door.old).left }
    ensures { (x : Shelved) → Plays (query_turn message.now) (D.view door.old) (D.view door.new) x x (2 ^ 22) result }
{
    let _turns = door.left();
    match read(alloc, message) {
        Ok(request) => match query::<K, D>(alloc, door, &request) {
            Ok(response) => reply(response.write(alloc)),
            Err(status) => refuse(status),
        },
        Err(fault) => refuse(fault_status(&fault)),
    }
}
