//! `LockDoor`.

ghost use Rattle.std.specs.Prelude.{◌≡◌, ◌+◌, ◌<◌, ◌≤◌, ◌^◌, false, true, [], IfOk, OnOk, OnErr, IfSome, IsSome, IsOk, None};
ghost use Rattle.store_core.specs.State.{State, Valid};
ghost use Rattle.store_core.specs.declared.event.Event.TheVariants as events;
ghost use Rattle.store_core.specs.declared.event.Reply.TheVariants as replies;
ghost use Rattle.turn_lock.specs.Seats.{IsIdle};
ghost use Rattle.blob_store.specs.Asked.{MayAsk, IsAnswer};
ghost use Rattle.blob_store.specs.Doors.{door_view, IsDoor};
ghost use Rattle.blob_store.specs.Rings.{ring_mark, is_over, rings_for, rings_by};
ghost use Rattle.blob_store.specs.View.{IsSeated, IsSound, Makes, Waits, Enters, StaysOut, Leaves, MayCall, own_now, holds};
ghost use Rattle.blob_store.specs.Shelves.{Stays, HasShelfCause, discarding};
ghost use Rattle.blob_store.specs.Calls.{put_reply, put_discards, read_reply, Begins, IsPutReply};
ghost use Rattle.store_core.specs.Memory.{takes_memory};
ghost use Rattle.store_core.specs.declared.state.Guard.TheVariants as guards;

use crate::bench::{put_answer, put_event};
use crate::checked::Checked;
use crate::door::{Door, Passed, PutReply};
use crate::gate::Gate;
use crate::reading::Reading;
use crate::shelf::{Shelf, ShelfEnd};
use crate::store::Store;
use crate::turns::{
    ask_in_turn, enter_in_turn, leave_in_turn, pass_in_turn, put_in_turn, read_in_turn,
};
use digest_types::{Digest, Digests};
use directory_canon::Kind;
use proto_wire::OutOfMemory;
use std::alloc::Global;
use std::marker::Model;
use std::sync::Wait;
use store_core::{Event, Reply, Standing, Usage};
use turn_lock::{Seat, TurnLock};

/// A door at a lock round the store, with a gate that is rung when a put fills the store above its ring mark. Its calls may
/// wait, for their turns and for the gate.
#[derive(Drop)]
pub struct LockDoor<'a, K: Shelf, R: Wait, G: Gate> {
    alloc: Global,
    rt: &'a R,
    lock: &'a TurnLock<Store<K>>,
    seat: Seat<Store<K>>,
    entered: bool,
    gate: G,
}

impl<'a, K: Shelf, R: Wait, G: Gate> Model for LockDoor<'a, K, R, G> {
    ghost use Rattle.blob_store.specs.Doors.{Gated, door_view, IsGated};

    ghost Value = { Gated };

    ghost view = { λ d. record { view = door_view d.seat d.entered; rings = G.rings d.gate } };

    ghost invariant = { λ d. IsGated d.lock.now d.seat d.entered (G.rings d.gate) };
}

impl<'a, K: Shelf, R: Wait, G: Gate> LockDoor<'a, K, R, G> {
    /// The door of a seat that has had no owner. The history began at a valid state with small numbers, and the gate has not
    /// rung. It takes no memory and never waits.
    pub fn new(
        alloc: Global,
        rt: &'a R,
        lock: &'a TurnLock<Store<K>>,
        seat: Seat<Store<K>>,
        gate: G,
    ) -> LockDoor<'a, K, R, G>
        requires lock { seat.lock ≡ lock.now }
        requires idle { IsIdle seat }
        requires none { seat.view.owner ≡ None }
        requires valid { Valid seat.view.start }
        requires owners { seat.view.start.next_owner ≤ 2 ^ 62 }
        requires leases { seat.view.start.next_lease ≤ 2 ^ 62 }
        requires unrung { G.rings gate ≡ 0 }
        ensures view { result.view ≡ door_view seat false }
        ensures rings { result.rings ≡ 0 }
    {
        LockDoor {
            alloc,
            rt,
            lock,
            seat,
            entered: false,
            gate,
        }
    }

    /// Its seat. It takes no memory and never waits.
    pub fn seat(&self) -> &Seat<Store<K>>
        ensures { self.now.view ≡ door_view result.now self.now.view.entered }
    {
        &self.seat
    }

    /// Its gate. It takes no memory and never waits.
    pub fn gate(&self) -> &G
        ensures { G.rings result.now ≡ self.now.rings }
    {
        &self.gate
    }

    /// Puts a blob, as any door does, and rings once exactly where it is stored with more bytes in the store than the ring
    /// mark.
    pub fn put(&mut self, shelf: &mut K, blob: Checked<K>) -> Result<PutReply, OutOfMemory>
        requires { MayCall self.old.view }
        ensures ok { IfOk result (λ r. Makes self.old.view self.new.view (events.Put blob.digest blob.edges) (put_reply r)) }
        ensures err { OnErr result (Waits self.old.view self.new.view) }
        ensures shelf { K.shelved shelf.new ≡ discarding (put_discards result) (K.shelved shelf.old) }
        ensures rings { self.new.rings ≡ self.old.rings + rings_by (ring_mark self.old.view.start) result }
    {
        let event = match put_event(self.alloc, &blob) {
            Ok(event) => event,
            Err(e) => {
                blob.give_up(shelf);
                return Err(e);
            }
        };
        let (reply, mark) = put_in_turn(self.rt, self.lock, &mut self.seat, shelf, blob, &event)?;
        let answer = put_answer(&reply);
        ring_if_over(&mut self.gate, mark, &answer);
        Ok(answer)
    }

    // One event that the owner asks of the store alone.
    fn ask(&mut self, event: &Event) -> Result<Reply, OutOfMemory>
        requires call { MayCall self.old.view }
        requires may { MayAsk self.old.view event.now }
        ensures made { IfOk result (λ r. Makes self.old.view self.new.view event.now r) }
        ensures answer { IfOk result (λ r. (s : State) × IsAnswer s event.now r) }
        ensures err { OnErr result (Waits self.old.view self.new.view) }
        ensures free { takes_memory guards.Session event.now ≡ false → IsOk result }
        ensures rings { self.new.rings ≡ self.old.rings }
    {
        ask_in_turn(self.rt, self.lock, &mut self.seat, event)
    }

    // One that takes no memory.
    fn ask_freely(&mut self, event: &Event) -> Reply
        requires call { MayCall self.old.view }
        requires may { MayAsk self.old.view event.now }
        requires free { takes_memory guards.Session event.now ≡ false }
        ensures made { Makes self.old.view self.new.view event.now result }
        ensures answer { (s : State) × IsAnswer s event.now result }
        ensures rings { self.new.rings ≡ self.old.rings }
    {
        match self.ask(event) {
            Ok(reply) => reply,
            Err(_) => unreachable!(),
        }
    }
}

impl<'a, K: Shelf, R: Wait, G: Gate + Drop> LockDoor<'a, K, R, G> {
    /// The seat, which holds no turn. It takes no memory and never waits.
    pub fn into_seat(self) -> Seat<Store<K>>
        ensures seat { self.entry.view ≡ door_view result self.entry.view.entered }
        ensures idle { IsIdle result }
    {
        let LockDoor {
            alloc: _,
            rt: _,
            lock: _,
            seat,
            entered: _,
            gate: _,
        } = self;
        seat
    }
}

// Rings once if a put stored a blob and more bytes than the mark are in the store then.
fn ring_if_over<G: Gate>(gate: &mut G, mark: u64, answer: &PutReply)
    requires { G.rings gate.old < 2 ^ 63 }
    ensures { G.rings gate.new ≡ G.rings gate.old + rings_for mark answer.now }
{
    if is_over(mark, answer) {
        gate.ring();
    }
}

fn is_over(mark: u64, answer: &PutReply) -> bool
    ensures { result ≡ is_over mark answer.now }
{
    match answer {
        PutReply::Stored { used, .. } => *used > mark,
        _ => false,
    }
}

impl<'a, K: Shelf, R: Wait, G: Gate> Door<K> for LockDoor<'a, K, R, G> {
    ghost view = { λ d. d.view };

    fn left(&self) -> u64
        ensures left { result ≡ self.now.view.left }
        ensures sound { IsSound self.now.view }
        ensures seated { self.now.view.entered ≡ true → IsSeated self.now.view }
    {
        self.seat.left()
    }

    fn made(&self) -> u64
        ensures made { result ≡ self.now.view.made }
    {
        self.seat.made()
    }

    fn enter(&mut self) -> Result<(), OutOfMemory>
        requires out { self.old.view.entered ≡ false }
        requires turn { 0 < self.old.view.left }
        ensures ok { OnOk result (Enters self.old.view self.new.view) }
        ensures err { OnErr result (StaysOut self.old.view self.new.view) }
        ensures rings { self.new.rings ≡ self.old.rings }
    {
        enter_in_turn(self.rt, self.lock, &mut self.seat)?;
        self.entered = true;
        Ok(())
    }

    fn put_from(
        &mut self,
        shelf: &mut K,
        blob: &mut Option<Checked<K>>,
    ) -> Result<PutReply, OutOfMemory>
        requires call { MayCall self.old.view }
        requires there { IsSome blob.old }
        ensures taken { blob.new ≡ None }
        ensures ok { IfOk result (λ r. IfSome blob.old (λ b. Makes self.old.view self.new.view (events.Put b.digest b.edges) (put_reply r))) }
        ensures err { OnErr result (Waits self.old.view self.new.view) }
        ensures shelf { K.shelved shelf.new ≡ discarding (put_discards result) (K.shelved shelf.old) }
        ensures rings { self.new.rings ≡ self.old.rings + rings_by (ring_mark self.old.view.start) result }
    {
        match blob.take() {
            Some(blob) => self.put(shelf, blob),
            None => unreachable!(),
        }
    }

    fn find(&mut self, digests: &Digests) -> Result<Digests, OutOfMemory>
        requires { MayCall self.old.view }
        ensures ok { IfOk result (λ ds. Makes self.old.view self.new.view (events.Find digests.now) (replies.Missing ds)) }
        ensures err { OnErr result (Waits self.old.view self.new.view) }
        ensures rings { self.new.rings ≡ self.old.rings }
    {
        let digests = Digests::from_vec(Vec::from_slice(self.alloc, digests.as_slice())?);
        match self.ask(&Event::Find { digests })? {
            Reply::Missing { digests } => Ok(digests),
            _ => unreachable!(),
        }
    }

    fn read(&mut self, shelf: &mut K, digest: &Digest) -> Result<Option<Reading<K>>, ShelfEnd>
        requires { MayCall self.old.view }
        ensures ok { IfOk result (λ o. Makes self.old.view self.new.view (events.Read digest.now) (read_reply o)) }
        ensures begun { IfOk result (λ o. IfSome o (Begins digest.now)) }
        ensures err { OnErr result (Waits self.old.view self.new.view) }
        ensures stays { Stays (K.shelved shelf.old) (K.shelved shelf.new) }
        ensures cause { HasShelfCause (K.shelved shelf.old) (K.shelved shelf.new) result }
        ensures rings { self.new.rings ≡ self.old.rings }
    {
        read_in_turn(self.rt, self.lock, &mut self.seat, shelf, digest)
    }

    fn lease(&mut self, root: &Digest, kind: Kind) -> Result<u64, OutOfMemory>
        requires { MayCall self.old.view }
        ensures ok { IfOk result (λ id. Makes self.old.view self.new.view (events.Lease root.now kind) (replies.Leased id)) }
        ensures err { OnErr result (Waits self.old.view self.new.view) }
        ensures rings { self.new.rings ≡ self.old.rings }
    {
        match self.ask(&Event::Lease { root: *root, kind })? {
            Reply::Leased { lease } => Ok(lease),
            _ => unreachable!(),
        }
    }

    fn confirm(&mut self, lease: u64, files: bool) -> Result<Standing, OutOfMemory>
        requires call { MayCall self.old.view }
        requires own { holds self.old.view lease ≡ true }
        ensures ok { IfOk result (λ standing. Makes self.old.view self.new.view (events.Confirm lease files) (replies.Stands standing)) }
        ensures err { OnErr result (Waits self.old.view self.new.view) }
        ensures rings { self.new.rings ≡ self.old.rings }
    {
        match self.ask(&Event::Confirm { lease, files })? {
            Reply::Stands { standing } => Ok(standing),
            _ => unreachable!(),
        }
    }

    fn release(&mut self, lease: u64)
        requires call { MayCall self.old.view }
        requires own { holds self.old.view lease ≡ true }
        ensures made { Makes self.old.view self.new.view (events.Release lease) replies.Released }
        ensures rings { self.new.rings ≡ self.old.rings }
    {
        self.ask_freely(&Event::Release { lease });
    }

    fn damage(&mut self, digest: &Digest)
        requires { MayCall self.old.view }
        ensures made { Makes self.old.view self.new.view (events.Damage digest.now) replies.Marked }
        ensures rings { self.new.rings ≡ self.old.rings }
    {
        self.ask_freely(&Event::Damage { digest: *digest });
    }

    fn pass(&mut self, shelf: &mut K) -> Passed
        requires { MayCall self.old.view }
        ensures made { Makes self.old.view self.new.view events.Pass (replies.Passed result.removed result.used) }
        ensures shelf { K.shelved shelf.new ≡ discarding result.removed (K.shelved shelf.old) }
        ensures rings { self.new.rings ≡ self.old.rings }
    {
        match pass_in_turn(self.rt, self.lock, &mut self.seat, shelf) {
            Reply::Passed { removed, used } => Passed { removed, used },
            _ => unreachable!(),
        }
    }

    fn usage(&mut self) -> Usage
        requires { MayCall self.old.view }
        ensures made { Makes self.old.view self.new.view events.Usage (replies.Used result) }
        ensures rings { self.new.rings ≡ self.old.rings }
    {
        match self.ask_freely(&Event::Usage) {
            Reply::Used { usage } => usage,
            _ => unreachable!(),
        }
    }

    fn leave(&mut self)
        requires call { MayCall self.old.view }
        requires none { own_now self.old.view ≡ [] }
        ensures left { Leaves self.old.view self.new.view }
        ensures rings { self.new.rings ≡ self.old.rings }
    {
        leave_in_turn(self.rt, self.lock, &mut self.seat);
        self.entered = false;
    }
}
