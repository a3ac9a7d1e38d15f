//! GetCapabilities.

ghost use Rattle.std.specs.Prelude.{◌≡◌, IfOk};
ghost use Rattle.cas_calls.specs.Capable.{capabilities_spelled};
ghost use Rattle.live_calls.specs.Turns.{capable_turn, Ends};

use crate::outcome::{Outcome, refuse, reply};
use crate::place::Place;
use blob_store::Shelf;
use cas_calls::{capabilities, fault_status};
use cas_messages::{GetCapabilitiesRequest, Message};
use proto_wire::{Bytes, OutOfMemory};
use std::alloc::Global;

/// The message of the answer.
fn spell(alloc: Global, request: &GetCapabilitiesRequest) -> Result<Bytes, OutOfMemory>
    ensures { IfOk result (λ message. message ≡ capabilities_spelled) }
{
    match capabilities(alloc, request) {
        Ok(answer) => answer.write(alloc),
        Err(_) => Err(OutOfMemory),
    }
}

/// Answers the message of a call.
pub(crate) fn answer<K: Shelf>(alloc: Global, message: &[u8]) -> Outcome<Place<K>>
    ensures { Ends (capable_turn message.now) result }
{
    match GetCapabilitiesRequest::read(alloc, message) {
        Ok(request) => reply(spell(alloc, &request)),
        Err(fault) => refuse(fault_status(&fault)),
    }
}
