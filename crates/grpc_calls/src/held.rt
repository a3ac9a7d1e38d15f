//! How many bytes are kept of what came on a stream.

ghost use Rattle.std.specs.Prelude.{◌≡◌, ◌≤◌, ◌+◌, [], ◌^◌, ◌-◌, min, sum_by};
ghost use Rattle.grpc_calls.specs.Streams.{call_in};
ghost use Rattle.grpc_calls.specs.Held.{held_reading, held_call, held_event};

use crate::call::{Call, Reading};
use crate::event::CallEvent;
use crate::table::place;
use std::collections::VecDeque;

fn held_reading(reading: &Reading) -> u64
    ensures value { result ≡ held_reading reading.now }
    ensures bound { result ≤ 8388612 }
{
    match reading {
        Reading::Body(text) => text.len(),
        Reading::Headers | Reading::Over => 0,
    }
}

/// Of the message that isn't whole.
pub(crate) fn held_call(calls: &[Call], stream: u32) -> u64
    ensures value { result ≡ held_call (call_in stream calls.now) }
    ensures bound { result ≤ 8388612 }
{
    match place(calls, stream) {
        Some(i) => held_reading(&calls[i].reading),
        None => 0,
    }
}

fn held_event(event: &CallEvent, number: u32) -> u64
    ensures { result ≡ held_event number event.now }
{
    match event {
        CallEvent::Message { stream, bytes } if *stream == number => bytes.len() as u64,
        _ => 0,
    }
}

/// Of the messages that weren't given yet.
pub(crate) fn held_events(events: &VecDeque<CallEvent>, stream: u32) -> u64
    ensures { result ≡ min (sum_by (held_event stream) events.now.items) (2 ^ 64 - 1) }
{
    let mut sum = 0u64;
    'events: for i in 0..events.len() {
        sum = sum.saturating_add(held_event(&events[i], stream));
    }
    sum
}
