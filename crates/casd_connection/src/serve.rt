//! The loop of a connection: what is due is settled and written, and then more is read.

ghost use Rattle.std.specs.Prelude.{◌≡◌, ◌≤◌, ◌<◌, ◌+◌, ◌^◌, ◌-◌, min, true, false, [], ℕ, length, take, IfOk, OnErr, IfSome, None, Some};
ghost use Rattle.blob_store.specs.View.{View, Leaves, own_now};
ghost use Rattle.blob_store.specs.Shelves.{Shelved};
ghost use Rattle.casd_connection.specs.Linked.{Linked, linked};
ghost use Rattle.h2_frames.specs.Stream.{rest_place};
ghost use Rattle.casd_connection.specs.Exchange.{IsDue};
ghost use Rattle.casd_connection.specs.Steps.{at, due_in, IsServing};
ghost use Rattle.casd_connection.specs.Stands.{state, fresh_state, IsReady, Stands, IsSettledAt, Ran, TakesAll, IsTakenAt, Settles, ReadsOn, Flushes, TakesIn, write_end, end_of as end_of_taken, is_out as is_out_of, end_at};
ghost use Rattle.casd_connection.specs.Writes.{ReadsBytes, MeetsEnd, FailsToRead};
ghost use Rattle.proto_wire.specs.Reading.{IsBytes};
ghost use Rattle.casd_connection.specs.Written.{Serves};
ghost use Rattle.casd_connection.specs.declared.end.ConnEnd.TheVariants as ends;

use crate::connection::Connection;
use crate::end::ConnEnd;
use crate::frames::{MANY_TURNS, Taken};
use crate::report::ConnReport;
use crate::write::write_all;
use blob_store::{Door, Shelf};
use casd_base::{Failed, Link, SinkEnd};
use grpc_calls::Calls;
use proto_wire::OutOfMemory;
use std::alloc::Global;

/// How many bytes are read at once at most.
const BLOCK: usize = 65_536;

/// How many bytes a connection may read.
const MAX_READ: u64 = 1 << 50;

/// What a connection keeps: its calls, its buffer, and how many bytes it has read and written.
#[derive(Drop)]
struct Serving<K: Shelf> {
    connection: Connection<K>,
    buffer: Vec<u8>,
    read: u64,
    written: u64,
}

/// A connection that has read nothing yet.
fn begin<K: Shelf>(alloc: Global) -> Result<Serving<K>, OutOfMemory>
    ensures state { IfOk result (λ s. state s.connection.calls s.connection.live.items s.connection.over s.read s.written ≡ fresh_state) }
    ensures buffer { IfOk result (λ s. length s.buffer.items ≡ 65_536) }
{
    let buffer = vec![in alloc; 0; BLOCK]?;
    Ok(Serving {
        connection: Connection {
            alloc,
            calls: Calls::server(alloc)?,
            live: Vec::new(alloc),
            over: false,
            turn: 0,
        },
        buffer,
        read: 0,
        written: 0,
    })
}

/// Writes the output that is due, and answers the end if that can't be done.
fn flush<K: Shelf, L: Link>(serving: &mut Serving<K>, link: &mut L) -> Option<ConnEnd>
    ensures flushes { Flushes result (linked (L.left link.old) (L.written link.old) (L.read_faults link.old) (L.write_faults link.old) (L.sent link.old) (L.at_end link.old)) (linked (L.left link.new) (L.written link.new) (L.read_faults link.new) (L.write_faults link.new) (L.sent link.new) (L.at_end link.new)) (state serving.old.connection.calls serving.old.connection.live.items serving.old.connection.over serving.old.read serving.old.written) (state serving.new.connection.calls serving.new.connection.live.items serving.new.connection.over serving.new.read serving.new.written) }
    ensures live { serving.new.connection.live.items ≡ serving.old.connection.live.items }
    ensures buffer { serving.new.buffer.items ≡ serving.old.buffer.items }
{
    let output = serving.connection.calls.take_output();
    let (len, wrote) = write_all(link, output.as_slice());
    serving.written = serving.written.saturating_add(len as u64);
    end_of_write(wrote)
}

/// The end that a write brings, if it was refused.
fn end_of_write(wrote: Result<(), SinkEnd>) -> Option<ConnEnd>
    ensures { result ≡ write_end wrote }
{
    match wrote {
        Ok(()) => None,
        Err(SinkEnd::Failed) => Some(ConnEnd::WriteFault),
        Err(SinkEnd::OutOfMemory) => Some(ConnEnd::OutOfMemory),
    }
}

/// The end that a piece of input brings, if it brings one.
fn end_of(taken: Taken) -> Option<ConnEnd>
    ensures { result ≡ end_of_taken taken }
{
    match taken {
        Taken::All => None,
        Taken::Over => Some(ConnEnd::Done),
        Taken::Offence { code, at } => Some(ConnEnd::Protocol { code, at }),
        Taken::Spent => Some(ConnEnd::Spent),
        Taken::OutOfMemory => Some(ConnEnd::OutOfMemory),
    }
}

/// Whether memory ran out.
fn is_out(taken: Taken) -> bool
    ensures { result ≡ is_out_of taken }
{
    match taken {
        Taken::OutOfMemory => true,
        _ => false,
    }
}

/// Does and writes all that the frames so far call for, and answers the end if they bring one.
fn take_all<K: Shelf, D: Door<K>, L: Link>(
    serving: &mut Serving<K>,
    door: &mut D,
    shelf: &mut K,
    link: &mut L,
) -> Option<ConnEnd>
    requires ready { IsReady (state serving.old.connection.calls serving.old.connection.live.items serving.old.connection.over serving.old.read serving.old.written) (D.view door.old) }
    ensures takes { (v : View) (x : Shelved) (a : Linked) → Stands v (D.view door.old) x (K.shelved shelf.old) a (linked (L.left link.old) (L.written link.old) (L.read_faults link.old) (L.write_faults link.old) (L.sent link.old) (L.at_end link.old)) (state serving.old.connection.calls serving.old.connection.live.items serving.old.connection.over serving.old.read serving.old.written) → TakesAll result v (D.view door.new) x (K.shelved shelf.new) a (linked (L.left link.new) (L.written link.new) (L.read_faults link.new) (L.write_faults link.new) (L.sent link.new) (L.at_end link.new)) (state serving.new.connection.calls serving.new.connection.live.items serving.new.connection.over serving.new.read serving.new.written) }
    ensures ready { result ≡ None → IsReady (state serving.new.connection.calls serving.new.connection.live.items serving.new.connection.over serving.new.read serving.new.written) (D.view door.new) }
    ensures is_in { (D.view door.new).entered ≡ true }
    ensures turns { 2 ^ 29 ≤ (D.view door.new).left }
    ensures buffer { serving.new.buffer.items ≡ serving.old.buffer.items }
    ensures read { serving.new.read ≡ serving.old.read }
{
    let taken = serving.connection.take_frames(door, shelf);
    if is_out(taken) {
        return Some(ConnEnd::OutOfMemory);
    }
    match flush(serving, link) {
        None => end_of(taken),
        Some(end) => Some(end),
    }
}

/// Has the call of a row give its next response, and writes it, unless the door has too few turns left. It answers the end if it
/// can't be done.
fn give<K: Shelf, D: Door<K>, L: Link>(
    serving: &mut Serving<K>,
    door: &mut D,
    shelf: &mut K,
    link: &mut L,
    row: usize,
) -> Option<ConnEnd>
    requires ready { IsReady (state serving.old.connection.calls serving.old.connection.live.items serving.old.connection.over serving.old.read serving.old.written) (D.view door.old) }
    requires due { IsDue (at serving.old.connection.calls serving.old.connection.live.items serving.old.connection.over []) row }
    ensures takes { (v : View) (x : Shelved) (a : Linked) → IsTakenAt v (D.view door.old) x (K.shelved shelf.old) a (linked (L.left link.old) (L.written link.old) (L.read_faults link.old) (L.write_faults link.old) (L.sent link.old) (L.at_end link.old)) (state serving.old.connection.calls serving.old.connection.live.items serving.old.connection.over serving.old.read serving.old.written) → TakesAll result v (D.view door.new) x (K.shelved shelf.new) a (linked (L.left link.new) (L.written link.new) (L.read_faults link.new) (L.write_faults link.new) (L.sent link.new) (L.at_end link.new)) (state serving.new.connection.calls serving.new.connection.live.items serving.new.connection.over serving.new.read serving.new.written) }
    ensures ready { result ≡ None → IsReady (state serving.new.connection.calls serving.new.connection.live.items serving.new.connection.over serving.new.read serving.new.written) (D.view door.new) }
    ensures less { result ≡ None → due_in serving.new.connection.live.items < due_in serving.old.connection.live.items }
    ensures is_in { (D.view door.new).entered ≡ true }
    ensures turns { 2 ^ 29 ≤ (D.view door.new).left }
    ensures buffer { serving.new.buffer.items ≡ serving.old.buffer.items }
    ensures read { serving.new.read ≡ serving.old.read }
{
    if door.left() < MANY_TURNS {
        return Some(ConnEnd::Spent);
    }
    match serving.connection.wake(door, shelf, row) {
        Ok(()) => flush(serving, link),
        Err(OutOfMemory) => Some(ConnEnd::OutOfMemory),
    }
}

/// Has the calls that give responses of their own accord give them, in turns, as the windows allow, and answers the end if that
/// brings one.
fn give_all<K: Shelf, D: Door<K>, L: Link>(
    serving: &mut Serving<K>,
    door: &mut D,
    shelf: &mut K,
    link: &mut L,
) -> Option<ConnEnd>
    requires ready { IsReady (state serving.old.connection.calls serving.old.connection.live.items serving.old.connection.over serving.old.read serving.old.written) (D.view door.old) }
    ensures settles { (v : View) (x : Shelved) (a : Linked) → IsTakenAt v (D.view door.old) x (K.shelved shelf.old) a (linked (L.left link.old) (L.written link.old) (L.read_faults link.old) (L.write_faults link.old) (L.sent link.old) (L.at_end link.old)) (state serving.old.connection.calls serving.old.connection.live.items serving.old.connection.over serving.old.read serving.old.written) → Settles result v (D.view door.new) x (K.shelved shelf.new) a (linked (L.left link.new) (L.written link.new) (L.read_faults link.new) (L.write_faults link.new) (L.sent link.new) (L.at_end link.new)) (state serving.new.connection.calls serving.new.connection.live.items serving.new.connection.over serving.new.read serving.new.written) }
    ensures ready { result ≡ None → IsReady (state serving.new.connection.calls serving.new.connection.live.items serving.new.connection.over serving.new.read serving.new.written) (D.view door.new) }
    ensures is_in { (D.view door.new).entered ≡ true }
    ensures turns { 2 ^ 29 ≤ (D.view door.new).left }
    ensures buffer { serving.new.buffer.items ≡ serving.old.buffer.items }
    ensures read { serving.new.read ≡ serving.old.read }
{
    'turns: loop {
        match serving.connection.next_due() {
            Some(row) => match give(serving, door, shelf, link, row) {
                Some(end) => return Some(end),
                None => {}
            },
            None => return None,
        }
    }
}

/// Does and writes all that the input so far calls for, and answers the end if it brings one.
fn settle<K: Shelf, D: Door<K>, L: Link>(
    serving: &mut Serving<K>,
    door: &mut D,
    shelf: &mut K,
    link: &mut L,
) -> Option<ConnEnd>
    requires ready { IsReady (state serving.old.connection.calls serving.old.connection.live.items serving.old.connection.over serving.old.read serving.old.written) (D.view door.old) }
    ensures settles { (v : View) (x : Shelved) (a : Linked) → Stands v (D.view door.old) x (K.shelved shelf.old) a (linked (L.left link.old) (L.written link.old) (L.read_faults link.old) (L.write_faults link.old) (L.sent link.old) (L.at_end link.old)) (state serving.old.connection.calls serving.old.connection.live.items serving.old.connection.over serving.old.read serving.old.written) → Settles result v (D.view door.new) x (K.shelved shelf.new) a (linked (L.left link.new) (L.written link.new) (L.read_faults link.new) (L.write_faults link.new) (L.sent link.new) (L.at_end link.new)) (state serving.new.connection.calls serving.new.connection.live.items serving.new.connection.over serving.new.read serving.new.written) }
    ensures ready { result ≡ None → IsReady (state serving.new.connection.calls serving.new.connection.live.items serving.new.connection.over serving.new.read serving.new.written) (D.view door.new) }
    ensures is_in { (D.view door.new).entered ≡ true }
    ensures turns { 2 ^ 29 ≤ (D.view door.new).left }
    ensures buffer { serving.new.buffer.items ≡ serving.old.buffer.items }
    ensures read { serving.new.read ≡ serving.old.read }
{
    match take_all(serving, door, shelf, link) {
        Some(end) => Some(end),
        None => give_all(serving, door, shelf, link),
    }
}

/// The end at which nothing more is left to read.
fn end_of_input(calls: &Calls) -> ConnEnd
    ensures { result ≡ end_at (rest_place calls.now.reader) }
{
    match calls.rest_at() {
        None => ConnEnd::Done,
        Some(at) => ConnEnd::Truncated { at },
    }
}

/// Reads into the front of the buffer, at most so many bytes.
fn read_front<L: Link>(link: &mut L, buffer: &mut [u8], most: usize) -> Result<usize, Failed>
    requires some { 0 < most }
    requires room { most ≤ length buffer.old }
    ensures within { IfOk result (λ n. n ≤ most) }
    ensures ok { IfOk result (λ n. ReadsBytes (linked (L.left link.old) (L.written link.old) (L.read_faults link.old) (L.write_faults link.old) (L.sent link.old) (L.at_end link.old)) (linked (L.left link.new) (L.written link.new) (L.read_faults link.new) (L.write_faults link.new) (L.sent link.new) (L.at_end link.new)) (take n buffer.new)) }
    ensures met { IfOk result (λ n. n ≡ 0 → MeetsEnd (linked (L.left link.old) (L.written link.old) (L.read_faults link.old) (L.write_faults link.old) (L.sent link.old) (L.at_end link.old)) (linked (L.left link.new) (L.written link.new) (L.read_faults link.new) (L.write_faults link.new) (L.sent link.new) (L.at_end link.new))) }
    ensures err { OnErr result (FailsToRead (linked (L.left link.old) (L.written link.old) (L.read_faults link.old) (L.write_faults link.old) (L.sent link.old) (L.at_end link.old)) (linked (L.left link.new) (L.written link.new) (L.read_faults link.new) (L.write_faults link.new) (L.sent link.new) (L.at_end link.new))) }
    ensures len { length buffer.new ≡ length buffer.old }
{
    link.read(&mut buffer[..most])
}

/// Feeds bytes that were read, and answers the end if there is no memory for them.
fn take_in<K: Shelf>(serving: &mut Serving<K>, len: usize) -> Option<ConnEnd>
    requires within { len ≤ length serving.old.buffer.items }
    requires small { len ≤ 65_536 }
    requires fed { serving.old.connection.calls.reader.at + length serving.old.connection.calls.reader.rest ≡ serving.old.read }
    requires few { serving.old.read ≤ 2 ^ 50 }
    requires sound { serving.old.connection.calls.session.fault ≡ None }
    ensures takes { TakesIn result (state serving.old.connection.calls serving.old.connection.live.items serving.old.connection.over serving.old.read serving.old.written) (state serving.new.connection.calls serving.new.connection.live.items serving.new.connection.over serving.new.read serving.new.written) (take len serving.old.buffer.items) }
    ensures bytes { IsBytes (take len serving.old.buffer.items) }
    ensures sound { serving.old.connection.calls.reader.fault ≡ None }
    ensures buffer { serving.new.buffer.items ≡ serving.old.buffer.items }
{
    serving.read += len as u64;
    match serving.connection.calls.feed(&serving.buffer[..len]) {
        Ok(()) => None,
        Err(OutOfMemory) => Some(ConnEnd::OutOfMemory),
    }
}

/// Reads the next bytes, and answers the end if there are none.
fn read<K: Shelf, L: Link>(serving: &mut Serving<K>, link: &mut L) -> Option<ConnEnd>
    requires buffer { length serving.old.buffer.items ≡ 65_536 }
    requires fed { serving.old.connection.calls.reader.at + length serving.old.connection.calls.reader.rest ≡ serving.old.read }
    requires few { serving.old.read ≤ 2 ^ 50 }
    requires serving { IsServing serving.old.connection.calls }
    requires empty { serving.old.connection.calls.pending ≡ [] }
    ensures reads { (v w : View) (x y : Shelved) (a : Linked) → IsSettledAt v w x y a (linked (L.left link.old) (L.written link.old) (L.read_faults link.old) (L.write_faults link.old) (L.sent link.old) (L.at_end link.old)) (state serving.old.connection.calls serving.old.connection.live.items serving.old.connection.over serving.old.read serving.old.written) → ReadsOn result v w x y a (linked (L.left link.new) (L.written link.new) (L.read_faults link.new) (L.write_faults link.new) (L.sent link.new) (L.at_end link.new)) (state serving.new.connection.calls serving.new.connection.live.items serving.new.connection.over serving.new.read serving.new.written) }
    ensures ready { (w : View) → IsReady (state serving.old.connection.calls serving.old.connection.live.items serving.old.connection.over serving.old.read serving.old.written) w → result ≡ None → IsReady (state serving.new.connection.calls serving.new.connection.live.items serving.new.connection.over serving.new.read serving.new.written) w }
    ensures buffer { length serving.new.buffer.items ≡ 65_536 }
    ensures more { result ≡ None → serving.old.read < serving.new.read }
{
    let room = MAX_READ - serving.read;
    if room == 0 {
        return Some(ConnEnd::Spent);
    }
    let most = room.min(BLOCK as u64) as usize;
    match read_front(link, &mut serving.buffer, most) {
        Err(_) => Some(ConnEnd::ReadFault),
        Ok(0) => Some(end_of_input(&serving.connection.calls)),
        Ok(len) => take_in(serving, len),
    }
}

/// Settles what is due and reads on, until the connection ends.
fn run<K: Shelf, D: Door<K>, L: Link>(
    serving: &mut Serving<K>,
    door: &mut D,
    shelf: &mut K,
    link: &mut L,
) -> ConnEnd
    requires ready { IsReady (state serving.old.connection.calls serving.old.connection.live.items serving.old.connection.over serving.old.read serving.old.written) (D.view door.old) }
    requires buffer { length serving.old.buffer.items ≡ 65_536 }
    ensures ran { (v : View) (x : Shelved) (a : Linked) → Stands v (D.view door.old) x (K.shelved shelf.old) a (linked (L.left link.old) (L.written link.old) (L.read_faults link.old) (L.write_faults link.old) (L.sent link.old) (L.at_end link.old)) (state serving.old.connection.calls serving.old.connection.live.items serving.old.connection.over serving.old.read serving.old.written) → Ran result v (D.view door.new) x (K.shelved shelf.new) a (linked (L.left link.new) (L.written link.new) (L.read_faults link.new) (L.write_faults link.new) (L.sent link.new) (L.at_end link.new)) serving.new.read serving.new.written }
    ensures is_in { (D.view door.new).entered ≡ true }
    ensures turns { 2 ^ 29 ≤ (D.view door.new).left }
{
    'reads: loop {
        match settle(serving, door, shelf, link) {
            Some(end) => return end,
            None => {}
        }
        match read(serving, link) {
            Some(end) => return end,
            None => {}
        }
    }
}

/// Serves the calls of an owner who has come, who then goes.
fn serve_owner<K: Shelf, D: Door<K>, L: Link>(
    serving: &mut Serving<K>,
    door: &mut D,
    shelf: &mut K,
    link: &mut L,
) -> ConnEnd
    requires fresh { (state serving.old.connection.calls serving.old.connection.live.items serving.old.connection.over serving.old.read serving.old.written) ≡ fresh_state }
    requires buffer { length serving.old.buffer.items ≡ 65_536 }
    requires is_in { (D.view door.old).entered ≡ true }
    requires turns { 2 ^ 30 ≤ (D.view door.old).left }
    requires bare { own_now (D.view door.old) ≡ [] }
    ensures ran { (b : View) × Ran result (D.view door.old) b (K.shelved shelf.old) (K.shelved shelf.new) (linked (L.left link.old) (L.written link.old) (L.read_faults link.old) (L.write_faults link.old) (L.sent link.old) (L.at_end link.old)) (linked (L.left link.new) (L.written link.new) (L.read_faults link.new) (L.write_faults link.new) (L.sent link.new) (L.at_end link.new)) serving.new.read serving.new.written × Leaves b (D.view door.new) }
{
    let _turns = door.left();
    let end = run(serving, door, shelf, link);
    door.leave();
    end
}

/// Serves one connection over its link: a new owner comes to the door, the calls of the peer are answered, and the owner goes.
/// The door hasn't been entered, and may take 2^41 turns.
pub fn serve_connection<K: Shelf, D: Door<K>, L: Link>(
    alloc: Global,
    door: &mut D,
    shelf: &mut K,
    link: &mut L,
) -> ConnReport
    requires out { (D.view door.old).entered ≡ false }
    requires turns { 2 ^ 41 ≤ (D.view door.old).left }
    ensures { Serves result (D.view door.old) (D.view door.new) (K.shelved shelf.old) (K.shelved shelf.new) (linked (L.left link.old) (L.written link.old) (L.read_faults link.old) (L.write_faults link.old) (L.sent link.old) (L.at_end link.old)) (linked (L.left link.new) (L.written link.new) (L.read_faults link.new) (L.write_faults link.new) (L.sent link.new) (L.at_end link.new)) }
{
    let Ok(mut serving) = begin::<K>(alloc) else {
        return unserved();
    };
    let before = door.made();
    match door.enter() {
        Ok(()) => {}
        Err(OutOfMemory) => return unserved(),
    }
    let end = serve_owner(&mut serving, door, shelf, link);
    let _turns = door.left();
    ConnReport {
        end,
        turns: door.made() - before,
        read: serving.read,
        written: serving.written,
    }
}

/// Memory was wanting before the owner came.
fn unserved() -> ConnReport
    ensures { result ≡ record { end = ends.OutOfMemory; turns = 0; read = 0; written = 0 } }
{
    ConnReport {
        end: ConnEnd::OutOfMemory,
        turns: 0,
        read: 0,
        written: 0,
    }
}
