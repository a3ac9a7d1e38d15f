//! What is handed in for an answer.

ghost use Rattle.std.specs.Prelude.{◌≡◌, ◌<◌, ◌≤◌, ◌^◌, ◌∷◌, [], length, OnOk};
ghost use Rattle.casd_connection.specs.Exchange.{Reply, Finish, sendable as sendable_of, answer as answer_of};
ghost use Rattle.casd_connection.specs.Steps.{IsServing, Speaks};

use casd_base::Status;
use grpc_calls::Calls;
use proto_wire::{Bytes, OutOfMemory, Text};

/// The most bytes of a status text that is sent.
const MAX_TEXT: usize = 4096;

/// A status whose text is too long to be sent goes without it.
fn sendable(status: Status) -> Status
    ensures value { result ≡ sendable_of status }
    ensures short { length result.text ≤ 4096 }
{
    let Status { code, text } = status;
    if text.as_str().len() <= MAX_TEXT {
        return Status { code, text };
    }
    Status {
        code,
        text: Text::empty(),
    }
}

/// Hands in a message, if its stream is live.
fn reply(calls: &mut Calls, stream: u32, message: &[u8]) -> Result<(), OutOfMemory>
    requires serving { IsServing calls.old }
    requires small { length message.now < 2 ^ 32 }
    ensures { OnOk result (Speaks calls.old calls.new (Reply stream message.now ∷ [])) }
{
    if !calls.is_live(stream) {
        return Ok(());
    }
    calls.reply(stream, message)
}

/// Hands in the status of a call, if its stream is live.
fn finish(calls: &mut Calls, stream: u32, status: &Status) -> Result<(), OutOfMemory>
    requires serving { IsServing calls.old }
    requires short { length status.now.text ≤ 4096 }
    ensures { OnOk result (Speaks calls.old calls.new (Finish stream status.now ∷ [])) }
{
    if !calls.is_live(stream) {
        return Ok(());
    }
    calls.finish(stream, status)
}

/// Hands in a message and then the status.
fn reply_and_finish(
    calls: &mut Calls,
    stream: u32,
    message: &[u8],
    status: &Status,
) -> Result<(), OutOfMemory>
    requires serving { IsServing calls.old }
    requires short { length status.now.text ≤ 4096 }
    ensures { OnOk result (Speaks calls.old calls.new (Reply stream message.now ∷ (Finish stream status.now ∷ []))) }
{
    if u32::try_from(message.len()).is_err() {
        return Err(OutOfMemory);
    }
    reply(calls, stream, message)?;
    finish(calls, stream, status)
}

/// Hands in a message that isn't the last.
pub(crate) fn give(calls: &mut Calls, stream: u32, message: &[u8]) -> Result<(), OutOfMemory>
    requires serving { IsServing calls.old }
    ensures { OnOk result (Speaks calls.old calls.new (Reply stream message.now ∷ [])) }
{
    if u32::try_from(message.len()).is_err() {
        return Err(OutOfMemory);
    }
    reply(calls, stream, message)
}

/// Hands in an answer: a message, if there is one, and the status.
pub(crate) fn answer(
    calls: &mut Calls,
    stream: u32,
    message: &Option<Bytes>,
    status: Status,
) -> Result<(), OutOfMemory>
    requires serving { IsServing calls.old }
    ensures { OnOk result (Speaks calls.old calls.new (answer_of stream message.now status)) }
{
    let status = sendable(status);
    match message {
        Some(message) => reply_and_finish(calls, stream, message.as_slice(), &status),
        None => finish(calls, stream, &status),
    }
}
