//! The calls of a connection, and the turn of one of them.

ghost use Rattle.std.specs.Prelude.{◌≡◌, ◌≤◌, ◌<◌, ◌^◌, [], true, length, position, slice_get, vec_len, vec_capacity, IfSome, OnOk, OnErr, Some, None};
ghost use Rattle.live_calls.specs.Places.{Away, turns_due};
ghost use Rattle.live_calls.specs.Turns.{begun};
ghost use Rattle.live_calls.specs.Afterwards.{due_after};
ghost use Rattle.live_calls.specs.declared.happening.Happening.TheVariants as happenings;
ghost use Rattle.casd_connection.specs.Exchange.{placed, gone, ended, go, given, resumed, resumed_at, place_in, IsDue, NoneDue};
ghost use Rattle.casd_connection.specs.Steps.{at, IsServing, Keeps, Moves, Turned, Broken, RunsOut, Wakened, ComesNearer, is_due_in};

use crate::answer::{answer, give};
use crate::live::{Live, place_in};
use blob_store::{Door, Shelf};
use grpc_calls::{CallEvent, Calls};
use live_calls::{Happening, Outcome, Place, begin, resume};
use proto_wire::OutOfMemory;
use std::alloc::Global;
use std::mem;

#[derive(Drop)]
pub(crate) struct Connection<K: Shelf> {
    pub(crate) alloc: Global,
    pub(crate) calls: Calls,
    pub(crate) live: Vec<Live<Place<K>>>,
    /// A GOAWAY of the peer came.
    pub(crate) over: bool,
    /// The row behind that of the call which gave the last response: the next one that is due is looked for from there.
    pub(crate) turn: usize,
}

/// Whether a call is due: it gives responses of its own accord, and none of them waits for a window.
fn is_due<K: Shelf>(calls: &Calls, call: &Live<Place<K>>) -> bool
    ensures { result ≡ is_due_in calls.now call.now }
{
    call.place.is_giving() && calls.is_live(call.stream) && calls.waiting(call.stream) == 0
}

/// The first of these calls that is due, if one is.
fn due_in<K: Shelf>(calls: &Calls, live: &[Live<Place<K>>]) -> Option<usize>
    ensures { result ≡ position (λ l. is_due_in calls.now l) live.now }
{
    live.iter().position(|call| is_due(calls, call))
}

impl<K: Shelf> Connection<K> {
    /// Takes the call of a row out, for its turn.
    fn take_row(&mut self, row: usize) -> Live<Place<K>>
        requires { row < length self.old.live.items }
        ensures call { slice_get self.old.live.items row ≡ Some result }
        ensures live { self.new.live.items ≡ placed result.stream (Some row) Away self.old.live.items }
        ensures rest { (self.new.calls ≡ self.old.calls) × (self.new.over ≡ self.old.over) }
    {
        let call = &mut self.live[row];
        let stream = call.stream;
        mem::replace(
            call,
            Live {
                stream,
                place: Place::away(),
            },
        )
    }

    /// Puts a call where it waits: in its row, or in a new one.
    fn put_row(&mut self, row: Option<usize>, call: Live<Place<K>>)
        requires room { row ≡ None → vec_len self.old.live < vec_capacity self.old.live }
        requires within { IfSome row (λ i. i < length self.old.live.items) }
        ensures live { self.new.live.items ≡ placed call.stream row call.place self.old.live.items }
        ensures rest { (self.new.calls ≡ self.old.calls) × (self.new.over ≡ self.old.over) }
    {
        match row {
            None => self.live.push_reserved(call),
            Some(i) => {
                let place = &mut self.live[i];
                *place = call;
            }
        }
    }

    fn remove_row(&mut self, row: Option<usize>)
        requires within { IfSome row (λ i. i < length self.old.live.items) }
        ensures live { self.new.live.items ≡ gone row self.old.live.items }
        ensures rest { (self.new.calls ≡ self.old.calls) × (self.new.over ≡ self.old.over) }
    {
        if let Some(i) = row {
            let _ended = self.live.remove(i);
        }
    }

    /// Does what the end of a turn asks for.
    fn apply(
        &mut self,
        stream: u32,
        row: Option<usize>,
        outcome: Outcome<Place<K>>,
    ) -> Result<(), OutOfMemory>
        requires serving { IsServing self.old.calls }
        requires room { row ≡ None → vec_len self.old.live < vec_capacity self.old.live }
        requires within { IfSome row (λ i. i < length self.old.live.items) }
        ensures ok { OnOk result (Moves (ended outcome stream row (at self.old.calls self.old.live.items self.old.over [])) (at self.new.calls self.new.live.items self.new.over []) [] [] self.old.calls.session.output self.new.calls.session.output) }
        ensures kept { OnOk result (Keeps self.old.calls self.new.calls) }
        ensures table { self.new.live.items ≡ (ended outcome stream row (at self.old.calls self.old.live.items self.old.over [])).live }
    {
        match outcome {
            Outcome::Rests(place) => {
                self.put_row(row, Live { stream, place });
                Ok(())
            }
            Outcome::Gives { message, place } => {
                self.put_row(row, Live { stream, place });
                give(&mut self.calls, stream, message.as_slice())
            }
            Outcome::Finishes { message, status } => {
                self.remove_row(row);
                answer(&mut self.calls, stream, &message, status)
            }
            Outcome::Vanishes => {
                self.remove_row(row);
                Ok(())
            }
        }
    }

    /// A request begins.
    fn begin(&mut self, stream: u32, path: &[u8]) -> Result<(), OutOfMemory>
        requires serving { IsServing self.old.calls }
        ensures ok { OnOk result (Moves (go (begun path.now) stream None (at self.old.calls self.old.live.items self.old.over [])) (at self.new.calls self.new.live.items self.new.over []) [] [] self.old.calls.session.output self.new.calls.session.output) }
        ensures kept { OnOk result (Keeps self.old.calls self.new.calls) }
    {
        // The room for the call comes before its turn.
        self.live.reserve(1)?;
        self.apply(stream, None, begin::<K>(path))
    }

    /// Something happens to the call of a row.
    fn resume_row<D: Door<K>>(
        &mut self,
        door: &mut D,
        shelf: &mut K,
        row: usize,
        happening: Happening,
    ) -> Result<(), OutOfMemory>
        requires serving { IsServing self.old.calls }
        requires within { row < length self.old.live.items }
        requires is_in { (D.view door.old).entered ≡ true }
        requires turns { 2 ^ 30 ≤ (D.view door.old).left }
        ensures ok { OnOk result (Turned (D.view door.old) (D.view door.new) (K.shelved shelf.old) (K.shelved shelf.new) (2 ^ 22) (resumed_at happening row (slice_get self.old.live.items row) (at self.old.calls self.old.live.items self.old.over [])) (at self.new.calls self.new.live.items self.new.over []) self.old.calls.session.output self.new.calls.session.output) }
        ensures kept { OnOk result (Keeps self.old.calls self.new.calls) }
        ensures err { OnErr result (Broken (D.view door.old) (D.view door.new) (K.shelved shelf.old) (K.shelved shelf.new) (2 ^ 22) (resumed_at happening row (slice_get self.old.live.items row) (at self.old.calls self.old.live.items self.old.over [])) []) }
        ensures less { OnOk result (happening ≡ happenings.Woken → ComesNearer row self.old.live.items self.new.live.items) }
    {
        let Live { stream, place } = self.take_row(row);
        let outcome = resume(self.alloc, door, shelf, place, happening);
        self.apply(stream, Some(row), outcome)
    }

    /// The call of a row is given a turn of its own.
    pub(crate) fn wake<D: Door<K>>(
        &mut self,
        door: &mut D,
        shelf: &mut K,
        row: usize,
    ) -> Result<(), OutOfMemory>
        requires serving { IsServing self.old.calls }
        requires empty { self.old.calls.pending ≡ [] }
        requires due { IsDue (at self.old.calls self.old.live.items self.old.over []) row }
        requires is_in { (D.view door.old).entered ≡ true }
        requires turns { 2 ^ 30 ≤ (D.view door.old).left }
        ensures ok { OnOk result (Wakened (D.view door.old) (D.view door.new) (K.shelved shelf.old) (K.shelved shelf.new) self.old.calls self.new.calls self.old.live.items self.new.live.items self.old.over self.new.over) }
        ensures err { OnErr result (RunsOut (D.view door.old) (D.view door.new) (K.shelved shelf.old) (K.shelved shelf.new) self.old.calls self.old.live.items self.old.over) }
        ensures is_in { (D.view door.new).entered ≡ true }
        ensures turns { 2 ^ 29 ≤ (D.view door.new).left }
    {
        self.turn = row + 1;
        self.resume_row(door, shelf, row, Happening::Woken)
    }

    /// The row of a call that is due, if one is: the next one from the last response on.
    pub(crate) fn next_due(&self) -> Option<usize>
        requires serving { IsServing self.now.calls }
        ensures due { IfSome result (IsDue (at self.now.calls self.now.live.items self.now.over [])) }
        ensures within { IfSome result (λ i. i < length self.now.live.items) }
        ensures none { result ≡ None → NoneDue self.now.calls.session.part self.now.live.items }
    {
        let from = self.turn.min(self.live.len());
        match due_in(&self.calls, &self.live[from..]) {
            Some(i) => Some(from + i),
            None => due_in(&self.calls, &self.live),
        }
    }

    /// Something happens to the call of a stream, if it waits.
    fn resume<D: Door<K>>(
        &mut self,
        door: &mut D,
        shelf: &mut K,
        stream: u32,
        happening: Happening,
    ) -> Result<(), OutOfMemory>
        requires serving { IsServing self.old.calls }
        requires is_in { (D.view door.old).entered ≡ true }
        requires turns { 2 ^ 30 ≤ (D.view door.old).left }
        ensures ok { OnOk result (Turned (D.view door.old) (D.view door.new) (K.shelved shelf.old) (K.shelved shelf.new) (2 ^ 22) (resumed happening (place_in stream self.old.live.items) (at self.old.calls self.old.live.items self.old.over [])) (at self.new.calls self.new.live.items self.new.over []) self.old.calls.session.output self.new.calls.session.output) }
        ensures kept { OnOk result (Keeps self.old.calls self.new.calls) }
        ensures err { OnErr result (Broken (D.view door.old) (D.view door.new) (K.shelved shelf.old) (K.shelved shelf.new) (2 ^ 22) (resumed happening (place_in stream self.old.live.items) (at self.old.calls self.old.live.items self.old.over [])) []) }
    {
        match place_in(&self.live, stream) {
            Some(row) => self.resume_row(door, shelf, row, happening),
            None => {
                let _turns = door.left();
                Ok(())
            }
        }
    }

    /// Hands an event to its call.
    pub(crate) fn on_event<D: Door<K>>(
        &mut self,
        door: &mut D,
        shelf: &mut K,
        event: CallEvent,
    ) -> Result<(), OutOfMemory>
        requires serving { IsServing self.old.calls }
        requires is_in { (D.view door.old).entered ≡ true }
        requires turns { 2 ^ 30 ≤ (D.view door.old).left }
        ensures ok { OnOk result (Turned (D.view door.old) (D.view door.new) (K.shelved shelf.old) (K.shelved shelf.new) (2 ^ 22) (given event (at self.old.calls self.old.live.items self.old.over [])) (at self.new.calls self.new.live.items self.new.over []) self.old.calls.session.output self.new.calls.session.output) }
        ensures kept { OnOk result (Keeps self.old.calls self.new.calls) }
        ensures err { OnErr result (Broken (D.view door.old) (D.view door.new) (K.shelved shelf.old) (K.shelved shelf.new) (2 ^ 22) (given event (at self.old.calls self.old.live.items self.old.over [])) []) }
    {
        let _turns = door.left();
        match event {
            CallEvent::Begun { stream, path } => self.begin(stream, path.as_str().as_bytes()),
            CallEvent::Message { stream, bytes } => {
                self.resume(door, shelf, stream, Happening::Message(bytes))
            }
            CallEvent::HalfClosed { stream } => {
                self.resume(door, shelf, stream, Happening::HalfClosed)
            }
            CallEvent::Cancelled { stream, code: _ } => {
                self.resume(door, shelf, stream, Happening::Cancelled)
            }
            CallEvent::Broken { stream, status } => {
                self.resume(door, shelf, stream, Happening::Broken(status))
            }
            // A client's event.
            CallEvent::Ended {
                stream: _,
                status: _,
            } => Ok(()),
            CallEvent::GoAway => {
                self.over = true;
                Ok(())
            }
        }
    }
}
