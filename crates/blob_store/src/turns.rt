//! What is done to the store in one turn of the lock.

ghost use Rattle.std.specs.Prelude.{◌≡◌, ◌+◌, ◌<◌, ◌-◌, ◌^◌, ℕ, false, true, [], is_ok, IfOk, OnOk, OnErr, IsOk, IfSome};
ghost use Rattle.store_core.specs.declared.event.Event.TheVariants as events;
ghost use Rattle.store_core.specs.declared.event.Reply.TheVariants as replies;
ghost use Rattle.blob_store.specs.Applied.{gives_up_in, passed_gives_up};
ghost use Rattle.blob_store.specs.Calls.{IsPutReply, read_reply, Begins};
ghost use Rattle.blob_store.specs.Shelves.{Stays, HasShelfCause, discarding};
ghost use Rattle.store_core.specs.Memory.{takes_memory};
ghost use Rattle.store_core.specs.declared.state.Guard.TheVariants as guards;
ghost use Rattle.turn_lock.specs.Views.{IsOwn};
ghost use Rattle.store_core.specs.State.{State};
ghost use Rattle.store_core.specs.Step.{step};
ghost use Rattle.turn_lock.specs.Seats.{IsIdle};
ghost use Rattle.blob_store.specs.Asked.{MayAsk, IsAnswer};
ghost use Rattle.blob_store.specs.Doors.{door_view, IsDoor};
ghost use Rattle.blob_store.specs.Rings.{ring_mark};
ghost use Rattle.blob_store.specs.View.{Makes, Waits, Enters, StaysOut, Leaves, own_now};

use crate::checked::Checked;
use crate::reading::Reading;
use crate::shelf::{Shelf, ShelfEnd};
use crate::store::Store;
use digest_types::Digest;
use proto_wire::OutOfMemory;
use std::sync::Wait;
use store_core::{Event, Reply};
use turn_lock::{Seat, TurnLock};

/// Does an event that the seat's owner, which is in the store, asks of it alone.
pub(crate) fn ask_in_turn<K: Shelf, R: Wait>(
    rt: &R,
    lock: &TurnLock<Store<K>>,
    seat: &mut Seat<Store<K>>,
    event: &Event,
) -> Result<Reply, OutOfMemory>
    requires lock { seat.old.lock ≡ lock.now }
    requires idle { IsIdle seat.old }
    requires left { 0 < seat.old.view.left }
    requires door { IsDoor seat.old.view true }
    requires may { MayAsk (door_view seat.old true) event.now }
    ensures lock { seat.new.lock ≡ seat.old.lock }
    ensures idle { IsIdle seat.new }
    ensures own { IsOwn seat.new.view }
    ensures used { seat.new.view.left + 1 ≡ seat.old.view.left }
    ensures door { IsDoor seat.new.view true }
    ensures made { IfOk result (λ r. Makes (door_view seat.old true) (door_view seat.new true) event.now r) }
    ensures answer { IfOk result (λ r. (s : State) × IsAnswer s event.now r) }
    ensures err { OnErr result (Waits (door_view seat.old true) (door_view seat.new true)) }
    ensures free { takes_memory guards.Session event.now ≡ false → IsOk result }
{
    let mut turn = lock.take(rt, seat);
    let owner = seat.owner().unwrap();
    match turn.value().step(owner, event) {
        Ok(reply) => {
            lock.give(seat, turn, event, &reply);
            Ok(reply)
        }
        Err(e) => {
            lock.give_back(seat, turn);
            Err(e)
        }
    }
}

/// A new owner comes.
pub(crate) fn enter_in_turn<K: Shelf, R: Wait>(
    rt: &R,
    lock: &TurnLock<Store<K>>,
    seat: &mut Seat<Store<K>>,
) -> Result<(), OutOfMemory>
    requires lock { seat.old.lock ≡ lock.now }
    requires idle { IsIdle seat.old }
    requires left { 0 < seat.old.view.left }
    requires door { IsDoor seat.old.view false }
    ensures lock { seat.new.lock ≡ seat.old.lock }
    ensures idle { IsIdle seat.new }
    ensures own { IsOwn seat.new.view }
    ensures used { seat.new.view.left + 1 ≡ seat.old.view.left }
    ensures ok { OnOk result (Enters (door_view seat.old false) (door_view seat.new true)) }
    ensures err { OnErr result (StaysOut (door_view seat.old false) (door_view seat.new false)) }
    ensures door { IsDoor seat.new.view (is_ok result) }
{
    let event = Event::Open;
    let mut turn = lock.take(rt, seat);
    let owner = turn.value().next_owner();
    match turn.value().step(owner, &event) {
        Ok(reply) => {
            lock.give(seat, turn, &event, &reply);
            Ok(())
        }
        Err(e) => {
            lock.give_back(seat, turn);
            Err(e)
        }
    }
}

/// The owner goes. It holds no lease. It takes no memory.
pub(crate) fn leave_in_turn<K: Shelf, R: Wait>(
    rt: &R,
    lock: &TurnLock<Store<K>>,
    seat: &mut Seat<Store<K>>,
)
    requires lock { seat.old.lock ≡ lock.now }
    requires idle { IsIdle seat.old }
    requires left { 0 < seat.old.view.left }
    requires door { IsDoor seat.old.view true }
    requires none { own_now (door_view seat.old true) ≡ [] }
    ensures lock { seat.new.lock ≡ seat.old.lock }
    ensures idle { IsIdle seat.new }
    ensures own { IsOwn seat.new.view }
    ensures used { seat.new.view.left + 1 ≡ seat.old.view.left }
    ensures left { Leaves (door_view seat.old true) (door_view seat.new false) }
    ensures door { IsDoor seat.new.view false }
{
    let event = Event::Close;
    let mut turn = lock.take(rt, seat);
    let owner = seat.owner().unwrap();
    match turn.value().step(owner, &event) {
        Ok(reply) => lock.give(seat, turn, &event, &reply),
        Err(_) => unreachable!(),
    }
}

/// Puts a blob, with the event of it. The answer has the reply, and the ring mark of the store in bytes.
pub(crate) fn put_in_turn<K: Shelf, R: Wait>(
    rt: &R,
    lock: &TurnLock<Store<K>>,
    seat: &mut Seat<Store<K>>,
    shelf: &mut K,
    blob: Checked<K>,
    event: &Event,
) -> Result<(Reply, u64), OutOfMemory>
    requires lock { seat.old.lock ≡ lock.now }
    requires idle { IsIdle seat.old }
    requires left { 0 < seat.old.view.left }
    requires door { IsDoor seat.old.view true }
    requires event { event.now ≡ events.Put blob.digest blob.edges }
    ensures lock { seat.new.lock ≡ seat.old.lock }
    ensures idle { IsIdle seat.new }
    ensures own { IsOwn seat.new.view }
    ensures used { seat.new.view.left + 1 ≡ seat.old.view.left }
    ensures door { IsDoor seat.new.view true }
    ensures made { IfOk result (λ r. Makes (door_view seat.old true) (door_view seat.new true) (events.Put blob.digest blob.edges) r.0) }
    ensures answer { IfOk result (λ r. IsPutReply r.0) }
    ensures mark { IfOk result (λ r. r.1 ≡ ring_mark seat.old.view.start) }
    ensures err { OnErr result (Waits (door_view seat.old true) (door_view seat.new true)) }
    ensures shelf { K.shelved shelf.new ≡ discarding (gives_up_in result) (K.shelved shelf.old) }
{
    let mut turn = lock.take(rt, seat);
    let owner = seat.owner().unwrap();
    let store = turn.value();
    let mark = store.ring_mark();
    match store.put(shelf, owner, blob) {
        Ok(reply) => {
            lock.give(seat, turn, event, &reply);
            Ok((reply, mark))
        }
        Err(e) => {
            lock.give_back(seat, turn);
            Err(e)
        }
    }
}

/// A pass to the low mark. It takes no memory.
pub(crate) fn pass_in_turn<K: Shelf, R: Wait>(
    rt: &R,
    lock: &TurnLock<Store<K>>,
    seat: &mut Seat<Store<K>>,
    shelf: &mut K,
) -> Reply
    requires lock { seat.old.lock ≡ lock.now }
    requires idle { IsIdle seat.old }
    requires left { 0 < seat.old.view.left }
    requires door { IsDoor seat.old.view true }
    ensures lock { seat.new.lock ≡ seat.old.lock }
    ensures idle { IsIdle seat.new }
    ensures own { IsOwn seat.new.view }
    ensures used { seat.new.view.left + 1 ≡ seat.old.view.left }
    ensures door { IsDoor seat.new.view true }
    ensures made { Makes (door_view seat.old true) (door_view seat.new true) events.Pass result }
    ensures answer { (removed : ℕ) × (used : ℕ) × (result ≡ replies.Passed removed used) }
    ensures shelf { K.shelved shelf.new ≡ discarding (passed_gives_up result) (K.shelved shelf.old) }
{
    let event = Event::Pass;
    let mut turn = lock.take(rt, seat);
    let owner = seat.owner().unwrap();
    let reply = turn.value().pass(shelf, owner);
    lock.give(seat, turn, &event, &reply);
    reply
}

/// Opens a blob for reading. It is opened in the turn, before the entry is made, since a call that fails makes none.
pub(crate) fn read_in_turn<K: Shelf, R: Wait>(
    rt: &R,
    lock: &TurnLock<Store<K>>,
    seat: &mut Seat<Store<K>>,
    shelf: &mut K,
    digest: &Digest,
) -> Result<Option<Reading<K>>, ShelfEnd>
    requires lock { seat.old.lock ≡ lock.now }
    requires idle { IsIdle seat.old }
    requires left { 0 < seat.old.view.left }
    requires door { IsDoor seat.old.view true }
    ensures lock { seat.new.lock ≡ seat.old.lock }
    ensures idle { IsIdle seat.new }
    ensures own { IsOwn seat.new.view }
    ensures used { seat.new.view.left + 1 ≡ seat.old.view.left }
    ensures door { IsDoor seat.new.view true }
    ensures made { IfOk result (λ o. Makes (door_view seat.old true) (door_view seat.new true) (events.Read digest.now) (read_reply o)) }
    ensures begun { IfOk result (λ o. IfSome o (Begins digest.now)) }
    ensures err { OnErr result (Waits (door_view seat.old true) (door_view seat.new true)) }
    ensures stays { Stays (K.shelved shelf.old) (K.shelved shelf.new) }
    ensures cause { HasShelfCause (K.shelved shelf.old) (K.shelved shelf.new) result }
{
    let event = Event::Read { digest: *digest };
    let mut turn = lock.take(rt, seat);
    let owner = seat.owner().unwrap();
    let reading = match turn.value().reading(shelf, digest) {
        Ok(reading) => reading,
        Err(e) => {
            lock.give_back(seat, turn);
            return Err(e);
        }
    };
    match turn.value().step(owner, &event) {
        Ok(reply) => {
            lock.give(seat, turn, &event, &reply);
            Ok(reading)
        }
        Err(OutOfMemory) => {
            lock.give_back(seat, turn);
            Err(ShelfEnd::OutOfMemory)
        }
    }
}
