//! The messages in the DATA of a stream.

ghost use Rattle.std.specs.Prelude.{◌≡◌, ◌++◌, ◌≤◌, length, IfOk};
ghost use Rattle.grpc_calls.specs.declared.call.Reading.TheVariants as readings;
ghost use Rattle.grpc_calls.specs.Framing.{taken};
ghost use Rattle.grpc_calls.specs.Reading.{Gives};

use crate::call::Reading;
use crate::event::CallEvent;
use crate::unfinished::{Step, Unfinished};
use proto_wire::OutOfMemory;
use std::collections::VecDeque;

/// Takes bytes of a stream behind those that have come of its next message.
pub(crate) fn take_in(
    stream: u32,
    text: Unfinished,
    bytes: &[u8],
    events: &mut VecDeque<CallEvent>,
) -> Result<Reading, OutOfMemory>
    ensures { IfOk result (λ r. Gives (taken stream (readings.Body text) bytes.now) r events.old.items events.new.items) }
{
    let mut text = text;
    let mut at = 0;
    'steps: while at < bytes.len() {
        match text.take(&bytes[at..])? {
            Step::Part(count) => at += count,
            Step::Whole(count, bytes) => {
                events.push_back(CallEvent::Message { stream, bytes })?;
                at += count;
            }
            Step::Fault(fault) => {
                let status = fault.status();
                events.push_back(CallEvent::Broken { stream, status })?;
                return Ok(Reading::Over);
            }
        }
    }
    Ok(Reading::Body(text))
}
