//! What the events of one stream do to its reading.

ghost use Rattle.std.specs.Prelude.{◌≡◌, ◌++◌, ◌∷◌, [], true, IfOk};
ghost use Rattle.grpc_calls.specs.declared.call.Reading.TheVariants as readings;
ghost use Rattle.grpc_calls.specs.Framing.{broken, keeps};
ghost use Rattle.grpc_calls.specs.Headers.{bad_answer, status_in};
ghost use Rattle.grpc_calls.specs.Streams.{half_closed, then_end, pieced, answered_by, answer_begun, headed};
ghost use Rattle.grpc_calls.specs.Reading.{Gives};

use crate::body::take_in;
use crate::call::Reading;
use crate::event::CallEvent;
use crate::fault::MessageFault;
use crate::headers::{is_ok, status_in};
use crate::unfinished::Unfinished;
use casd_base::{Code, Status};
use hpack_tables::Header;
use proto_wire::{OutOfMemory, Text};
use std::alloc::Global;
use std::collections::VecDeque;

/// What a client tells of an answer that is none.
fn bad_answer() -> Status
    ensures { result ≡ bad_answer }
{
    Status {
        code: Code::Internal,
        text: Text::short("bad answer"),
    }
}

fn break_off(
    stream: u32,
    status: Status,
    events: &mut VecDeque<CallEvent>,
) -> Result<Reading, OutOfMemory>
    ensures { IfOk result (λ r. Gives (broken stream status) r events.old.items events.new.items) }
{
    events.push_back(CallEvent::Broken { stream, status })?;
    Ok(Reading::Over)
}

/// The peer ends a stream between two messages.
fn end_between(
    client: bool,
    stream: u32,
    events: &mut VecDeque<CallEvent>,
) -> Result<Reading, OutOfMemory>
    ensures { IfOk result (λ r. Gives (half_closed client stream (readings.Body [])) r events.old.items events.new.items) }
{
    if client {
        return break_off(stream, bad_answer(), events);
    }
    events.push_back(CallEvent::HalfClosed { stream })?;
    Ok(Reading::Over)
}

/// The peer ends a stream without trailers.
fn end(
    client: bool,
    stream: u32,
    reading: Reading,
    events: &mut VecDeque<CallEvent>,
) -> Result<Reading, OutOfMemory>
    ensures { IfOk result (λ r. Gives (half_closed client stream reading) r events.old.items events.new.items) }
{
    match reading {
        Reading::Body(text) => {
            if text.is_empty() {
                end_between(client, stream, events)
            } else {
                break_off(stream, MessageFault::Truncated.status(), events)
            }
        }
        Reading::Headers => {
            if client {
                break_off(stream, bad_answer(), events)
            } else {
                Ok(Reading::Headers)
            }
        }
        Reading::Over => Ok(Reading::Over),
    }
}

fn end_if(
    end_stream: bool,
    client: bool,
    stream: u32,
    reading: Reading,
    events: &mut VecDeque<CallEvent>,
) -> Result<Reading, OutOfMemory>
    ensures { IfOk result (λ r. Gives (then_end end_stream client stream (keeps reading)) r events.old.items events.new.items) }
{
    if end_stream {
        end(client, stream, reading, events)
    } else {
        Ok(reading)
    }
}

/// DATA of a stream on which messages are read.
fn take_piece(
    client: bool,
    stream: u32,
    bytes: &[u8],
    end_stream: bool,
    text: Unfinished,
    events: &mut VecDeque<CallEvent>,
) -> Result<Reading, OutOfMemory>
    ensures { IfOk result (λ r. Gives (pieced client stream bytes.now end_stream (readings.Body text)) r events.old.items events.new.items) }
{
    let reading = take_in(stream, text, bytes, events)?;
    end_if(end_stream, client, stream, reading, events)
}

/// DATA of a stream.
pub(crate) fn on_piece(
    client: bool,
    stream: u32,
    bytes: &[u8],
    end_stream: bool,
    reading: Reading,
    events: &mut VecDeque<CallEvent>,
) -> Result<Reading, OutOfMemory>
    ensures { IfOk result (λ r. Gives (pieced client stream bytes.now end_stream reading) r events.old.items events.new.items) }
{
    match reading {
        Reading::Body(text) => take_piece(client, stream, bytes, end_stream, text, events),
        Reading::Headers => {
            if client {
                break_off(stream, bad_answer(), events)
            } else {
                Ok(Reading::Headers)
            }
        }
        Reading::Over => Ok(Reading::Over),
    }
}

/// The last headers of an answer.
fn on_status(
    alloc: Global,
    stream: u32,
    headers: &[Header],
    events: &mut VecDeque<CallEvent>,
) -> Result<Reading, OutOfMemory>
    ensures { IfOk result (λ r. Gives (answered_by stream (status_in headers.now)) r events.old.items events.new.items) }
{
    match status_in(alloc, headers)? {
        Some(status) => {
            events.push_back(CallEvent::Ended { stream, status })?;
            Ok(Reading::Over)
        }
        None => break_off(stream, bad_answer(), events),
    }
}

/// The first headers of an answer.
fn on_answer(
    alloc: Global,
    stream: u32,
    headers: &[Header],
    end_stream: bool,
    events: &mut VecDeque<CallEvent>,
) -> Result<Reading, OutOfMemory>
    ensures { IfOk result (λ r. Gives (answer_begun stream headers.now end_stream) r events.old.items events.new.items) }
{
    if !is_ok(headers) {
        return break_off(stream, bad_answer(), events);
    }
    if end_stream {
        return on_status(alloc, stream, headers, events);
    }
    Ok(Reading::Body(Unfinished::new(alloc)))
}

/// Headers behind the first ones of an answer.
fn on_trailers(
    alloc: Global,
    stream: u32,
    headers: &[Header],
    end_stream: bool,
    text: Unfinished,
    events: &mut VecDeque<CallEvent>,
) -> Result<Reading, OutOfMemory>
    ensures { IfOk result (λ r. Gives (headed true stream headers.now end_stream (readings.Body text)) r events.old.items events.new.items) }
{
    if !end_stream {
        return Ok(Reading::Body(text));
    }
    if text.is_empty() {
        return on_status(alloc, stream, headers, events);
    }
    break_off(stream, MessageFault::Truncated.status(), events)
}

/// Further headers of a stream.
pub(crate) fn on_headers(
    alloc: Global,
    client: bool,
    stream: u32,
    headers: &[Header],
    end_stream: bool,
    reading: Reading,
    events: &mut VecDeque<CallEvent>,
) -> Result<Reading, OutOfMemory>
    ensures { IfOk result (λ r. Gives (headed client stream headers.now end_stream reading) r events.old.items events.new.items) }
{
    if !client {
        return end_if(end_stream, false, stream, reading, events);
    }
    match reading {
        Reading::Headers => on_answer(alloc, stream, headers, end_stream, events),
        Reading::Body(text) => on_trailers(alloc, stream, headers, end_stream, text, events),
        Reading::Over => Ok(Reading::Over),
    }
}
