//! The table of live streams. No call but `add` and `add_piece` takes memory.

ghost use Rattle.std.specs.Prelude.{◌≡◌, ◌+◌, ◌-◌, ◌<◌, ◌≤◌, ◌∷◌, ◌++◌, ℕ, Some, [], length, slice_get, slice_set, remove, OnOk, OnErr, IfSome, if◌then◌else◌, ◌==◌};
ghost use Rattle.hpack_tables.specs.Table.{list_size};
ghost use Rattle.h2_session.specs.Codes.{max_list};
ghost use Rattle.h2_session.specs.declared.stream.Sending.TheVariants as sending;
ghost use Rattle.h2_session.specs.Part.{place_of};
ghost use Rattle.h2_session.specs.Rows.{Rises, rows_ended, rows_after, rows_answered, rows_said, is_done, ends_left, busy_of, busy_in};
ghost use Rattle.h2_session.specs.Windows.{window_of};

use crate::flow::Flow;
use crate::small::SmallHeaders;
use crate::stream::{Sending, Stream};
use hpack_tables::Headers;
use proto_wire::{Bytes, OutOfMemory};
use std::alloc::Global;
use std::marker::Model;

fn is_done(sending: &Sending) -> bool
    ensures { result ≡ is_done sending.now }
{
    match sending {
        Sending::Ended => true,
        _ => false,
    }
}

/// How many ends of a stream are left to write.
fn ends_left(sending: &Sending) -> usize
    ensures { result ≡ ends_left sending.now }
{
    match sending {
        Sending::Trailers(_) | Sending::HalfClose => 1,
        _ => 0,
    }
}

/// 1 if the stream has bytes or an end left to write, and 0 if not.
fn busy_of(stream: &Stream) -> usize
    ensures { result ≡ busy_of stream.now }
{
    if stream.waits.len() == 0 {
        ends_left(&stream.sending)
    } else {
        1
    }
}

/// How many streams are busy, of so many, after the part of one in it has changed.
fn recount(len: usize, busy: usize, was: usize, is: usize) -> usize
    requires { (was ≤ busy) × ((busy - was) + is ≤ len) }
    ensures { result ≡ (busy - was) + is }
{
    busy - was + is
}

fn set_sending(streams: &mut Vec<Stream>, i: usize, next: Sending)
    requires { i < length streams.old.items }
    ensures { IfSome (slice_get streams.old.items i) (λ s. streams.new.items ≡ slice_set streams.old.items i (record s { sending = next })) }
{
    streams[i].sending = next;
}

/// More bytes of a stream, with which it may half-close.
fn add_piece(
    streams: &mut Vec<Stream>,
    i: usize,
    bytes: Bytes,
    end: bool,
) -> Result<(), OutOfMemory>
    requires { i < length streams.old.items }
    ensures ok { OnOk result (IfSome (slice_get streams.old.items i) (λ s. streams.new.items ≡ rows_said i bytes end s streams.old.items)) }
    ensures err { OnErr result (streams.new.items ≡ streams.old.items) }
{
    let stream = &mut streams[i];
    stream.waits.add(bytes)?;
    if end {
        stream.sending = Sending::HalfClose;
    }
    Ok(())
}

/// Where the stream of this number stands, by halves.
pub(crate) fn find(streams: &[Stream], number: u32) -> Option<usize>
    requires { (high : ℕ) × Rises 0 streams.now high }
    ensures value { result ≡ place_of number streams.now }
    ensures bound { IfSome result (λ i. i < length streams.now) }
{
    let mut low = 0;
    let mut high = streams.len();
    'halves: while low < high {
        let middle = low + (high - low) / 2;
        let here = streams[middle].number.get();
        if here == number {
            return Some(middle);
        }
        if here < number {
            low = middle + 1;
        } else {
            high = middle;
        }
    }
    None
}

/// The live streams, in the order of their numbers.
#[derive(Debug, Drop)]
pub(crate) struct LiveStreams {
    rows: Vec<Stream>,
    /// How many have bytes or an end left to write.
    busy: usize,
}

impl Model for LiveStreams {
    ghost use Rattle.std.specs.Prelude.{◌≡◌, List};
    ghost use Rattle.h2_session.specs.declared.stream.Stream.{Stream as AStream};
    ghost use Rattle.h2_session.specs.Rows.{busy_in};

    ghost Value = { List AStream };

    ghost view = { λ l. l.rows.items };

    ghost invariant = { λ l. l.busy ≡ busy_in l.rows.items };
}

impl LiveStreams {
    /// None.
    pub(crate) fn new(alloc: Global) -> LiveStreams
        ensures { result ≡ [] }
    {
        LiveStreams {
            rows: Vec::new(alloc),
            busy: 0,
        }
    }

    pub(crate) fn len(&self) -> usize
        ensures { result ≡ length self.now }
    {
        self.rows.len()
    }

    pub(crate) fn as_slice(&self) -> &[Stream]
        ensures { result.now ≡ self.now }
    {
        &self.rows
    }

    pub(crate) fn get(&self, i: usize) -> &Stream
        requires { i < length self.now }
        ensures { slice_get self.now i ≡ Some result.now }
    {
        &self.rows[i]
    }

    /// Whether no stream has bytes or an end left to write.
    pub(crate) fn is_idle(&self) -> bool
        ensures { result ≡ (busy_in self.now == 0) }
    {
        self.busy == 0
    }

    /// Adds a stream behind the others, with nothing to write.
    pub(crate) fn add(&mut self, stream: Stream) -> Result<(), OutOfMemory>
        requires { busy_of stream ≡ 0 }
        ensures ok { OnOk result (self.new ≡ self.old ++ stream ∷ []) }
        ensures err { OnErr result (self.new ≡ self.old) }
    {
        self.rows.push(stream)?;
        Ok(())
    }

    /// Takes a stream out.
    pub(crate) fn remove(&mut self, i: usize)
        requires { i < length self.old }
        ensures { self.new ≡ remove self.old i }
    {
        let stream = self.rows.remove(i);
        self.busy -= busy_of(&stream);
    }

    /// The peer has half-closed a stream.
    pub(crate) fn end_by_peer(&mut self, i: usize)
        requires { i < length self.old }
        ensures { IfSome (slice_get self.old i) (λ s. self.new ≡ rows_ended i s self.old) }
    {
        if is_done(&self.rows[i].sending) {
            self.remove(i);
        } else {
            self.rows[i].ended = true;
        }
    }

    /// The peer has half-closed a stream, if this is set.
    pub(crate) fn end_if(&mut self, i: usize, end: bool)
        requires { i < length self.old }
        ensures { IfSome (slice_get self.old i) (λ s. self.new ≡ (if end then rows_ended i s self.old else self.old)) }
    {
        if end {
            self.end_by_peer(i);
        }
    }

    /// Another window of a stream.
    pub(crate) fn set_flow(&mut self, i: usize, flow: Flow)
        requires { i < length self.old }
        ensures { IfSome (slice_get self.old i) (λ s. self.new ≡ slice_set self.old i (record s { flow = flow })) }
    {
        self.rows[i].flow = flow;
    }

    /// What is left after the headers of an answer, which may be all of it.
    pub(crate) fn set_answered(&mut self, i: usize, end: bool)
        requires { i < length self.old }
        ensures { IfSome (slice_get self.old i) (λ s. self.new ≡ rows_answered i end s self.old) }
    {
        if end {
            self.remove(i);
        } else {
            self.set_sending(i, Sending::Open);
        }
    }

    /// Trailers, which wait until all bytes are written.
    pub(crate) fn set_trailers(&mut self, i: usize, headers: Headers)
        requires place { i < length self.old }
        requires small { list_size headers ≤ max_list }
        ensures { IfSome (slice_get self.old i) (λ s. self.new ≡ slice_set self.old i (record s { sending = sending.Trailers headers })) }
    {
        self.set_sending(i, Sending::Trailers(SmallHeaders::new(headers)));
    }

    fn set_sending(&mut self, i: usize, next: Sending)
        requires { i < length self.old }
        ensures { IfSome (slice_get self.old i) (λ s. self.new ≡ slice_set self.old i (record s { sending = next })) }
    {
        let was = busy_of(&self.rows[i]);
        set_sending(&mut self.rows, i, next);
        let is = busy_of(&self.rows[i]);
        self.busy = recount(self.rows.len(), self.busy, was, is);
    }

    /// More bytes of a stream, with which it may half-close.
    pub(crate) fn add_piece(&mut self, i: usize, bytes: Bytes, end: bool) -> Result<(), OutOfMemory>
        requires { i < length self.old }
        ensures ok { OnOk result (IfSome (slice_get self.old i) (λ s. self.new ≡ rows_said i bytes end s self.old)) }
        ensures err { OnErr result (self.new ≡ self.old) }
    {
        let was = busy_of(&self.rows[i]);
        add_piece(&mut self.rows, i, bytes, end)?;
        let is = busy_of(&self.rows[i]);
        self.busy = recount(self.rows.len(), self.busy, was, is);
        Ok(())
    }

    /// What is left after DATA of a stream.
    pub(crate) fn advance(&mut self, i: usize, initial: u32, size: usize, end: bool)
        requires place { i < length self.old }
        requires size { IfSome (slice_get self.old i) (λ s. (size ≤ window_of initial s.flow) × (size ≤ length s.waits) × (size ≤ 16384)) }
        ensures { IfSome (slice_get self.old i) (λ s. self.new ≡ rows_after size end i s self.old) }
    {
        if end && self.rows[i].ended {
            return self.remove(i);
        }
        let was = busy_of(&self.rows[i]);
        let stream = &mut self.rows[i];
        stream.flow = stream.flow.used(initial, size as u32);
        stream.waits.advance(size);
        if end {
            stream.sending = Sending::Ended;
        }
        self.busy = self.busy - was + busy_of(&self.rows[i]);
    }
}
