//! The table of calls.

ghost use Rattle.std.specs.Prelude.{◌≡◌, ◌<◌, ◌++◌, ◌∷◌, [], ℕ, length, slice_get, slice_set, IfOk, IfSome, Some, None, OnOk};
ghost use Rattle.grpc_calls.specs.declared.call.Reading.TheVariants as readings;
ghost use Rattle.grpc_calls.specs.Streams.{place_in, call_in, without_call, is_over, reading_at, tells_taken, pieced, headed, requested_by, told_piece, told_headers, told_reset};
ghost use Rattle.grpc_calls.specs.Headers.{path_of, refusal_of};
ghost use Rattle.grpc_calls.specs.Table.{IsCall, GivesTold};

use crate::call::{Call, Reading};
use crate::event::CallEvent;
use crate::headers::{path_of, refusal_of};
use crate::reading::{on_headers, on_piece};
use crate::refusal::Refusal;
use crate::unfinished::Unfinished;
use hpack_tables::Header;
use proto_wire::OutOfMemory;
use std::alloc::Global;
use std::collections::VecDeque;
use std::mem;

fn find(calls: &[Call], stream: u32) -> Option<usize>
    ensures value { result ≡ place_in stream calls.now }
    ensures bound { IfSome result (λ i. i < length calls.now) }
{
    calls.iter().position(|c| c.stream == stream)
}

/// Where the call of a stream stands. It takes no memory.
pub(crate) fn place(calls: &[Call], stream: u32) -> Option<usize>
    ensures value { result ≡ place_in stream calls.now }
    ensures call { IfSome result (λ i. IsCall stream calls.now i) }
{
    find(calls, stream)
}

/// A call is over. It takes no memory.
pub(crate) fn drop_call(calls: &mut Vec<Call>, stream: u32)
    ensures { calls.new.items ≡ without_call stream calls.old.items }
{
    if let Some(i) = place(calls, stream) {
        let _gone = calls.remove(i);
    }
}

/// Takes the reading of a call out of its place.
fn take_reading(calls: &mut Vec<Call>, i: usize) -> Reading
    requires { i < length calls.old.items }
    ensures reading { IfSome (slice_get calls.old.items i) (λ c. result ≡ c.reading) }
    ensures calls { IfSome (slice_get calls.old.items i) (λ c. calls.new.items ≡ slice_set calls.old.items i (record c { reading = readings.Over })) }
{
    mem::replace(&mut calls[i].reading, Reading::Over)
}

fn is_over(reading: &Reading) -> bool
    ensures { result ≡ is_over reading.now }
{
    match reading {
        Reading::Over => true,
        _ => false,
    }
}

/// Puts a reading into the place of a call. A client's call of which nothing more is read is over.
fn put_reading(client: bool, calls: &mut Vec<Call>, i: usize, stream: u32, reading: Reading)
    requires { i < length calls.old.items }
    ensures { calls.new.items ≡ reading_at client i stream reading calls.old.items }
{
    if client && is_over(&reading) {
        let _gone = calls.remove(i);
    } else {
        calls[i] = Call { stream, reading };
    }
}

/// DATA of a call.
fn piece_at(
    client: bool,
    calls: &mut Vec<Call>,
    i: usize,
    stream: u32,
    bytes: &[u8],
    end: bool,
    events: &mut VecDeque<CallEvent>,
) -> Result<(), OutOfMemory>
    requires { IsCall stream calls.old.items i }
    ensures { OnOk result (IfSome (slice_get calls.old.items i) (λ c. GivesTold (tells_taken client stream (pieced client stream bytes.now end c.reading) calls.old.items) calls.new.items events.old.items events.new.items)) }
{
    let reading = take_reading(calls, i);
    let reading = on_piece(client, stream, bytes, end, reading, events)?;
    put_reading(client, calls, i, stream, reading);
    Ok(())
}

/// DATA of a stream. That of a call that is over is dropped.
pub(crate) fn tell_piece(
    client: bool,
    calls: &mut Vec<Call>,
    stream: u32,
    bytes: &[u8],
    end: bool,
    events: &mut VecDeque<CallEvent>,
) -> Result<(), OutOfMemory>
    ensures { OnOk result (GivesTold (told_piece client stream bytes.now end (call_in stream calls.old.items) calls.old.items) calls.new.items events.old.items events.new.items) }
{
    match place(calls, stream) {
        Some(i) => piece_at(client, calls, i, stream, bytes, end, events),
        None => Ok(()),
    }
}

/// Further headers of a call.
fn headers_at(
    alloc: Global,
    client: bool,
    calls: &mut Vec<Call>,
    i: usize,
    stream: u32,
    headers: &[Header],
    end: bool,
    events: &mut VecDeque<CallEvent>,
) -> Result<(), OutOfMemory>
    requires { IsCall stream calls.old.items i }
    ensures { OnOk result (IfSome (slice_get calls.old.items i) (λ c. GivesTold (tells_taken client stream (headed client stream headers.now end c.reading) calls.old.items) calls.new.items events.old.items events.new.items)) }
{
    let reading = take_reading(calls, i);
    let reading = on_headers(alloc, client, stream, headers, end, reading, events)?;
    put_reading(client, calls, i, stream, reading);
    Ok(())
}

/// A call begins.
fn begin(
    alloc: Global,
    calls: &mut Vec<Call>,
    stream: u32,
    headers: &[Header],
    end: bool,
    events: &mut VecDeque<CallEvent>,
) -> Result<(), OutOfMemory>
    ensures { OnOk result (GivesTold (requested_by None stream headers.now end calls.old.items) calls.new.items events.old.items events.new.items) }
{
    let path = path_of(alloc, headers)?;
    events.push_back(CallEvent::Begun { stream, path })?;
    let reading = if end {
        events.push_back(CallEvent::HalfClosed { stream })?;
        Reading::Over
    } else {
        Reading::Body(Unfinished::new(alloc))
    };
    calls.push(Call { stream, reading })?;
    Ok(())
}

/// The headers of a request, which may be refused.
fn request(
    alloc: Global,
    calls: &mut Vec<Call>,
    stream: u32,
    headers: &[Header],
    end: bool,
    events: &mut VecDeque<CallEvent>,
) -> Result<Option<(u32, Refusal)>, OutOfMemory>
    ensures told { OnOk result (GivesTold (requested_by (refusal_of headers.now) stream headers.now end calls.old.items) calls.new.items events.old.items events.new.items) }
    ensures refused { IfOk result (λ r. r ≡ (requested_by (refusal_of headers.now) stream headers.now end calls.old.items).refused) }
{
    match refusal_of(headers) {
        Some(refusal) => Ok(Some((stream, refusal))),
        None => {
            begin(alloc, calls, stream, headers, end, events)?;
            Ok(None)
        }
    }
}

/// Headers of a stream: at a server those of a request, if the stream is a new one, which is still to be answered.
pub(crate) fn tell_headers(
    alloc: Global,
    client: bool,
    fresh: bool,
    calls: &mut Vec<Call>,
    stream: u32,
    headers: &[Header],
    end: bool,
    events: &mut VecDeque<CallEvent>,
) -> Result<Option<(u32, Refusal)>, OutOfMemory>
    ensures told { OnOk result (GivesTold (told_headers client fresh stream headers.now end (call_in stream calls.old.items) calls.old.items) calls.new.items events.old.items events.new.items) }
    ensures refused { IfOk result (λ r. r ≡ (told_headers client fresh stream headers.now end (call_in stream calls.old.items) calls.old.items).refused) }
{
    match place(calls, stream) {
        Some(i) => {
            headers_at(alloc, client, calls, i, stream, headers, end, events)?;
            Ok(None)
        }
        None => {
            if fresh {
                request(alloc, calls, stream, headers, end, events)
            } else {
                Ok(None)
            }
        }
    }
}

/// A stream was reset. Of a call that is over that is not told.
pub(crate) fn tell_reset(
    calls: &mut Vec<Call>,
    stream: u32,
    code: u32,
    events: &mut VecDeque<CallEvent>,
) -> Result<(), OutOfMemory>
    ensures { OnOk result (GivesTold (told_reset stream code (call_in stream calls.old.items) calls.old.items) calls.new.items events.old.items events.new.items) }
{
    if let Some(i) = place(calls, stream) {
        events.push_back(CallEvent::Cancelled { stream, code })?;
        let _gone = calls.remove(i);
    }
    Ok(())
}
