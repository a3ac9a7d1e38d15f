//! `Bench`.

ghost use Rattle.std.specs.Prelude.{◌≡◌, ◌<◌, ◌≤◌, ◌^◌, true, false, length, ℕ, Some, IfOk, OnErr, IsOk};
ghost use Rattle.store_core.specs.State.{Valid};
ghost use Rattle.store_core.specs.History.{leases_of};
ghost use Rattle.store_core.specs.Step.{usage as usage_of};
ghost use Rattle.store_core.specs.declared.event.Event.TheVariants as events;
ghost use Rattle.store_core.specs.declared.event.Reply.TheVariants as replies;
ghost use Rattle.store_core.specs.Memory.{takes_memory};
ghost use Rattle.blob_store.specs.Asked.{MayAsk, IsAnswer};
ghost use Rattle.blob_store.specs.Benched.{new_bench, seat_of, store_of, view_of};
ghost use Rattle.blob_store.specs.View.{Makes, Waits, MayCall, own_now};
ghost use Rattle.blob_store.specs.Shelves.{discarding};
ghost use Rattle.blob_store.specs.Calls.{put_reply, put_discards, IsPutReply};

use crate::checked::Checked;
use crate::door::{Door, Passed, PutReply};
use crate::noting::{note, note_freely, note_pass, note_put};
use crate::reading::Reading;
use crate::seat::Seat;
use crate::shelf::{Shelf, ShelfEnd};
use crate::store::Store;
use digest_types::{Digest, Digests};
use directory_canon::{Edges, Kind};
use proto_wire::OutOfMemory;
use std::alloc::Global;
use std::marker::Model;
use store_core::{Event, Reply, Standing, Usage};
use turn_lock::Diary;

/// How many entries a diary takes.
const MOST_ENTRIES: u64 = 1 << 63;

/// A store with its history and the seats at it, without a lock. It is the door of the seat that was chosen, and its calls
/// never wait.
#[derive(Drop)]
pub struct Bench<K: Shelf> {
    alloc: Global,
    store: Store<K>,
    diary: Diary,
    seats: Vec<Seat>,
    chosen: usize,
}

impl<K: Shelf> Model for Bench<K> {
    ghost use Rattle.blob_store.specs.Benched.{Benched, IsBench};

    ghost Value = { Benched };

    ghost view = { λ b. record { start = b.diary.start; seen = b.diary.seen; seats = b.seats.items; chosen = b.chosen } };

    ghost invariant = { λ b. IsBench b.store.state (record { start = b.diary.start; seen = b.diary.seen; seats = b.seats.items; chosen = b.chosen }) };
}

impl<K: Shelf> Bench<K> {
    /// A bench of 1 to 100 seats, of which the first is chosen. The history begins at the store as it is.
    pub fn new(alloc: Global, store: Store<K>, seats: usize) -> Result<Bench<K>, OutOfMemory>
        requires some { 1 ≤ seats }
        requires few { seats ≤ 100 }
        requires valid { Valid store.state }
        requires owners { store.state.next_owner ≤ 2 ^ 62 }
        requires leases { store.state.next_lease ≤ 2 ^ 62 }
        ensures { IfOk result (λ b. b ≡ new_bench store.state seats) }
    {
        let diary = Diary::new(alloc, &store)?;
        let seats = vec![in alloc; Seat::empty(); seats]?;
        Ok(Bench {
            alloc,
            store,
            diary,
            seats,
            chosen: 0,
        })
    }

    /// Chooses a seat, from 0. It takes no memory.
    pub fn choose(&mut self, seat: usize)
        requires { seat < length self.old.seats }
        ensures { self.new ≡ record self.old { chosen = seat } }
    {
        self.chosen = seat;
    }

    /// Whether the chosen seat's owner is in the store. It takes no memory.
    pub fn is_entered(&self) -> bool
        ensures value { result ≡ (seat_of self.now).entered }
        ensures owner { (seat_of self.now).entered ≡ true → (owner : ℕ) × ((seat_of self.now).owner ≡ Some owner) }
        ensures chosen { self.now.chosen < length self.now.seats }
        // The leases that the store holds for it are those of its own entries.
        ensures leases { (owner : ℕ) → (seat_of self.now).entered ≡ true → (seat_of self.now).owner ≡ Some owner → leases_of owner (store_of self.now) ≡ own_now (view_of self.now) }
    {
        self.seats[self.chosen].entered
    }

    /// The numbers of the store. It takes no memory and is no event.
    pub fn store_usage(&self) -> Usage
        ensures { usage_of (store_of self.now) ≡ (replies.Used result, store_of self.now) }
    {
        self.store.usage()
    }

    // The owner of the chosen seat.
    fn owner(&self) -> u64
        requires { (seat_of self.now).entered ≡ true }
        ensures { (seat_of self.now).owner ≡ Some result }
    {
        self.seats[self.chosen].owner.unwrap()
    }

    // One event that the chosen seat's owner asks of the store alone.
    fn ask(&mut self, event: &Event) -> Result<Reply, OutOfMemory>
        requires call { MayCall (view_of self.old) }
        requires may { MayAsk (view_of self.old) event.now }
        ensures made { IfOk result (λ r. Makes (view_of self.old) (view_of self.new) event.now r) }
        ensures answer { IfOk result (λ r. IsAnswer (store_of self.old) event.now r) }
        ensures err { OnErr result (Waits (view_of self.old) (view_of self.new)) }
        ensures free { takes_memory (store_of self.old).guard event.now ≡ false → IsOk result }
    {
        let owner = self.owner();
        note(&mut self.store, &mut self.diary, owner, event)
    }

    // One that takes no memory.
    fn ask_freely(&mut self, event: &Event) -> Reply
        requires call { MayCall (view_of self.old) }
        requires may { MayAsk (view_of self.old) event.now }
        requires free { takes_memory (store_of self.old).guard event.now ≡ false }
        ensures made { Makes (view_of self.old) (view_of self.new) event.now result }
        ensures answer { IsAnswer (store_of self.old) event.now result }
    {
        match self.ask(event) {
            Ok(reply) => reply,
            Err(_) => unreachable!(),
        }
    }

    // One put of the chosen seat's owner.
    fn put_blob(&mut self, shelf: &mut K, blob: Checked<K>) -> Result<PutReply, OutOfMemory>
        requires { MayCall (view_of self.old) }
        ensures ok { IfOk result (λ r. Makes (view_of self.old) (view_of self.new) (events.Put blob.digest blob.edges) (put_reply r)) }
        ensures err { OnErr result (Waits (view_of self.old) (view_of self.new)) }
        ensures shelf { K.shelved shelf.new ≡ discarding (put_discards result) (K.shelved shelf.old) }
    {
        let owner = self.owner();
        let event = match put_event(self.alloc, &blob) {
            Ok(event) => event,
            Err(e) => {
                blob.give_up(shelf);
                return Err(e);
            }
        };
        let reply = note_put(&mut self.store, &mut self.diary, shelf, owner, blob, &event)?;
        Ok(put_answer(&reply))
    }
}

impl<K: Shelf> Door<K> for Bench<K> {
    ghost view = { λ b. view_of b };

    fn left(&self) -> u64 {
        self.diary.left()
    }

    fn made(&self) -> u64 {
        MOST_ENTRIES - self.diary.left()
    }

    fn enter(&mut self) -> Result<(), OutOfMemory> {
        let owner = self.store.next_owner();
        note(&mut self.store, &mut self.diary, owner, &Event::Open)?;
        self.seats[self.chosen] = Seat {
            owner: Some(owner),
            entered: true,
        };
        Ok(())
    }

    fn put_from(
        &mut self,
        shelf: &mut K,
        blob: &mut Option<Checked<K>>,
    ) -> Result<PutReply, OutOfMemory> {
        match blob.take() {
            Some(blob) => self.put_blob(shelf, blob),
            None => unreachable!(),
        }
    }

    fn find(&mut self, digests: &Digests) -> Result<Digests, OutOfMemory> {
        let digests = Digests::from_vec(Vec::from_slice(self.alloc, digests.as_slice())?);
        match self.ask(&Event::Find { digests })? {
            Reply::Missing { digests } => Ok(digests),
            _ => unreachable!(),
        }
    }

    fn read(&mut self, shelf: &mut K, digest: &Digest) -> Result<Option<Reading<K>>, ShelfEnd> {
        // It is opened before the entry is made, since a call that fails makes none.
        let reading = self.store.reading(shelf, digest)?;
        self.ask(&Event::Read { digest: *digest })?;
        Ok(reading)
    }

    fn lease(&mut self, root: &Digest, kind: Kind) -> Result<u64, OutOfMemory> {
        match self.ask(&Event::Lease { root: *root, kind })? {
            Reply::Leased { lease } => Ok(lease),
            _ => unreachable!(),
        }
    }

    fn confirm(&mut self, lease: u64, files: bool) -> Result<Standing, OutOfMemory> {
        match self.ask(&Event::Confirm { lease, files })? {
            Reply::Stands { standing } => Ok(standing),
            _ => unreachable!(),
        }
    }

    fn release(&mut self, lease: u64) {
        self.ask_freely(&Event::Release { lease });
    }

    fn damage(&mut self, digest: &Digest) {
        self.ask_freely(&Event::Damage { digest: *digest });
    }

    fn pass(&mut self, shelf: &mut K) -> Passed {
        let owner = self.owner();
        match note_pass(&mut self.store, &mut self.diary, shelf, owner) {
            Reply::Passed { removed, used } => Passed { removed, used },
            _ => unreachable!(),
        }
    }

    fn usage(&mut self) -> Usage {
        match self.ask_freely(&Event::Usage) {
            Reply::Used { usage } => usage,
            _ => unreachable!(),
        }
    }

    fn leave(&mut self) {
        let owner = self.owner();
        note_freely(&mut self.store, &mut self.diary, owner, &Event::Close);
        self.seats[self.chosen] = Seat {
            owner: Some(owner),
            entered: false,
        };
    }
}

// The event of a put of a blob.
pub(crate) fn put_event<K: Shelf>(alloc: Global, blob: &Checked<K>) -> Result<Event, OutOfMemory>
    ensures { IfOk result (λ event. event ≡ events.Put blob.now.digest blob.now.edges) }
{
    let edges = match blob.edges() {
        Some(edges) => Some(Edges::from_vec(Vec::from_slice(alloc, edges.as_slice())?)),
        None => None,
    };
    Ok(Event::Put {
        digest: blob.digest(),
        edges,
    })
}

// What a put answers by its reply.
pub(crate) fn put_answer(reply: &Reply) -> PutReply
    requires { IsPutReply reply.now }
    ensures { put_reply result ≡ reply.now }
{
    match reply {
        Reply::Stored { removed, used } => PutReply::Stored {
            removed: *removed,
            used: *used,
        },
        Reply::Present => PutReply::Present,
        Reply::Repaired => PutReply::Repaired,
        Reply::NoSpace {
            guarded,
            size,
            high,
        } => PutReply::NoSpace {
            guarded: *guarded,
            size: *size,
            high: *high,
        },
        _ => unreachable!(),
    }
}
