//! Read.

ghost use Rattle.std.specs.Prelude.{◌≡◌, ◌≤◌, ◌<◌, ◌^◌, true};
ghost use Rattle.cas_messages.specs.Fault.{Gives};
ghost use Rattle.cas_calls.specs.Plays.{Plays};
ghost use Rattle.byte_stream.specs.Read.{read_request_in};
ghost use Rattle.live_calls.specs.Places.{Reading, turns_due};
ghost use Rattle.live_calls.specs.Turns.{open_turn, reading_turn};
ghost use Rattle.live_calls.specs.Afterwards.{due_after};
ghost use Rattle.live_calls.specs.declared.happening.Happening.TheVariants as happenings;

use crate::outcome::{Outcome, end, refuse};
use crate::place::Place;
use blob_store::{Door, Shelf};
use byte_stream::ReadCall;
use cas_calls::{fault_status, out_of_memory};
use cas_messages::{Message, MessageError, ReadRequest};
use proto_wire::OutOfMemory;
use std::alloc::Global;

/// The request that a message spells.
#[tactic(auto, using(crate::proofs::Requests::read_request_viewed))]
fn read(alloc: Global, message: &[u8]) -> Result<ReadRequest, MessageError>
    ensures { Gives (λ r. r) result (read_request_in message.now) }
{
    ReadRequest::read(alloc, message)
}

/// Begins the call that a message asks for.
pub(crate) fn open<K: Shelf, D: Door<K>>(
    alloc: Global,
    door: &mut D,
    shelf: &mut K,
    message: &[u8],
) -> Outcome<Place<K>>
    requires is_in { (D.view door.old).entered ≡ true }
    requires turns { 2 ^ 30 ≤ (D.view door.old).left }
    ensures { Plays (open_turn message.now) (D.view door.old) (D.view door.new) (K.shelved shelf.old) (K.shelved shelf.new) (2 ^ 22) result }
{
    let _turns = door.left();
    match read(alloc, message) {
        Ok(request) => match ReadCall::begin(alloc, door, shelf, &request) {
            Ok(call) => Outcome::Rests(Place::reading(call)),
            Err(status) => refuse(status),
        },
        Err(fault) => refuse(fault_status(&fault)),
    }
}

/// Gives the next response, or ends the call.
pub(crate) fn go_on<K: Shelf, D: Door<K>>(
    alloc: Global,
    door: &mut D,
    shelf: &mut K,
    call: ReadCall<K>,
) -> Outcome<Place<K>>
    requires is_in { (D.view door.old).entered ≡ true }
    requires turns { 2 ^ 30 ≤ (D.view door.old).left }
    ensures plays { Plays (reading_turn call happenings.Woken) (D.view door.old) (D.view door.new) (K.shelved shelf.old) (K.shelved shelf.new) (2 ^ 22) result }
    ensures less { due_after result < turns_due (Reading call) }
{
    let mut call = call;
    match call.next(door, shelf) {
        Ok(Some(response)) => match response.write(alloc) {
            Ok(message) => Outcome::Gives {
                message,
                place: Place::reading(call),
            },
            Err(OutOfMemory) => refuse(out_of_memory()),
        },
        Ok(None) => end(),
        Err(status) => refuse(status),
    }
}
