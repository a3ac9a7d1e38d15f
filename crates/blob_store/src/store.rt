//! `Store`.

ghost use Rattle.std.specs.Prelude.{◌≡◌, ◌<◌, ◌+◌, ◌-◌, ◌^◌, ◌&&◌, ℕ, [], length, false, true, is_some, unwrap_or, Some, None, IfOk, IfErr, IfSome, OnErr, IsOk, if◌then◌else◌};
ghost use Rattle.store_core.specs.State.{State, Distinct, new_state, digests, has_row, same};
ghost use Rattle.store_core.specs.Pass.{unguarded};
ghost use Rattle.store_core.specs.Step.{step, is_here, is_open, usage};
ghost use Rattle.store_core.specs.declared.event.Event.TheVariants as events;
ghost use Rattle.store_core.specs.declared.event.Reply.TheVariants as replies;
ghost use Rattle.digest_types.specs.Name.{HashAndSize};
ghost use Rattle.digest_types.specs.Digest.{digest_of};
ghost use Rattle.indexed_core.specs.Events.{moves_bodies};
ghost use Rattle.store_core.specs.Memory.{takes_memory};
ghost use Rattle.indexed_core.specs.Removal.{removed, IsPassed, adds_row};
ghost use Rattle.blob_store.specs.Applied.{HasBody, gives_up, put_gives_up, passed_gives_up, gives_up_beside};
ghost use Rattle.blob_store.specs.Calls.{Begins};
ghost use Rattle.blob_store.specs.Kept.{AreBodiesOf, told_in, keeps_body, KeepsBodies, PutsBody, MovesBody};
ghost use Rattle.blob_store.specs.Rings.{ring_mark};
ghost use Rattle.blob_store.specs.Shelves.{Stays, HasShelfCause, discarding};
ghost use Rattle.blob_store.specs.declared.shelf.ShelfEnd.TheVariants.{OutOfMemory as NoMemory};

use crate::bodies::Bodies;
use crate::checked::Checked;
use crate::reading::Reading;
use crate::shelf::{Shelf, ShelfEnd};
use digest_types::{Digest, Digests};
use indexed_core::IndexedCore;
use proto_wire::OutOfMemory;
use std::alloc::Global;
use std::marker::Model;
use store_core::{Event, Marks, Reply, Usage};
use turn_lock::Stands;

/// The store: its rows and leases over hashed indexes, and a body on the shelf for each row.
#[derive(Drop)]
pub struct Store<K: Shelf> {
    // They are on the heap, so that a turn of a lock moves no more than where they are.
    core: Box<IndexedCore>,
    bodies: Box<Bodies<K>>,
}

impl<K: Shelf> Model for Store<K> {
    ghost use Rattle.blob_store.specs.Kept.{Stocked, AreBodiesOf};

    ghost Value = { Stocked };

    ghost view = { λ s. record { state = s.core.value; bodies = s.bodies.value.bodies } };

    ghost invariant = { λ s. AreBodiesOf s.core.value.rows s.bodies.value.bodies };
}

impl<K: Shelf> Stands for Store<K> {
    ghost state = { λ s. s.state };
}

impl<K: Shelf> Store<K> {
    /// An empty store with these marks.
    pub fn new(alloc: Global, marks: Marks) -> Result<Store<K>, OutOfMemory>
        ensures { IfOk result (λ s. s ≡ record { state = new_state marks.low marks.high marks.guard; bodies = [] }) }
    {
        Ok(Store {
            core: Box::new(alloc, IndexedCore::new(alloc, marks))?,
            bodies: Box::new(alloc, Bodies::new(alloc))?,
        })
    }

    /// A store with these rows and their bodies.
    pub(crate) fn of_parts(
        alloc: Global,
        core: IndexedCore,
        bodies: Bodies<K>,
    ) -> Result<Store<K>, OutOfMemory>
        requires { AreBodiesOf core.rows bodies.bodies }
        ensures { IfOk result (λ s. s ≡ record { state = core; bodies = bodies.bodies }) }
    {
        Ok(Store {
            core: Box::new(alloc, core)?,
            bodies: Box::new(alloc, bodies)?,
        })
    }

    /// The numbers of the store. It takes no memory and is no event.
    pub fn usage(&self) -> Usage
        ensures { usage self.now.state ≡ (replies.Used result, self.now.state) }
    {
        self.core.usage()
    }

    /// The ring mark, in bytes: halfway from the low mark to the high mark. It takes no memory.
    pub(crate) fn ring_mark(&self) -> u64
        ensures { result ≡ ring_mark self.now.state }
    {
        let usage = self.usage();
        usage.low + usage.high.saturating_sub(usage.low) / 2
    }

    /// The number that the next owner gets. It takes no memory.
    pub fn next_owner(&self) -> u64
        ensures { result ≡ self.now.state.next_owner }
    {
        self.core.next_owner()
    }

    /// The number that the next lease gets. It takes no memory.
    pub fn next_lease(&self) -> u64
        ensures { result ≡ self.now.state.next_lease }
    {
        self.core.next_lease()
    }

    /// The digests of the rows in the order of their use, the least recent first.
    pub fn use_list(&self) -> Result<Digests, OutOfMemory>
        ensures { IfOk result (λ ds. ds ≡ digests self.now.state.rows) }
    {
        self.core.use_list()
    }

    /// One event of an owner, with the body of a put, and the reply. A body that isn't kept, and those of rows that go, are
    /// given up. After want of memory the store is as before; nothing else is refused.
    pub fn apply(
        &mut self,
        shelf: &mut K,
        owner: u64,
        event: &Event,
        body: Option<Checked<K>>,
    ) -> Result<Reply, ShelfEnd>
        requires body { HasBody event.now body }
        requires owners { self.old.state.next_owner < 2 ^ 64 - 1 }
        requires leases { self.old.state.next_lease < 2 ^ 64 - 1 }
        ensures ok { IfOk result (λ reply. (reply, self.new.state) ≡ step self.old.state owner event.now) }
        ensures bodies { IfOk result (λ reply. MovesBody body reply self.old self.new) }
        ensures err { OnErr result (self.new ≡ self.old) }
        ensures end { IfErr result (λ e. e ≡ NoMemory) }
        ensures free { takes_memory self.old.state.guard event.now ≡ false → IsOk result }
        ensures shelf { K.shelved shelf.new ≡ discarding (gives_up event.now result) (K.shelved shelf.old) }
    {
        match body {
            Some(blob) => Ok(self.put(shelf, owner, blob)?),
            None => match event {
                Event::Pass => Ok(self.pass(shelf, owner)),
                _ => Ok(self.step(owner, event)?),
            },
        }
    }

    /// One event of an owner that moves no body.
    pub(crate) fn step(&mut self, owner: u64, event: &Event) -> Result<Reply, OutOfMemory>
        requires quiet { moves_bodies event.now ≡ false }
        requires owners { self.old.state.next_owner < 2 ^ 64 - 1 }
        requires leases { self.old.state.next_lease < 2 ^ 64 - 1 }
        ensures ok { IfOk result (λ reply. (reply, self.new.state) ≡ step self.old.state owner event.now) }
        ensures bodies { KeepsBodies self.old self.new }
        ensures err { OnErr result (self.new ≡ self.old) }
        ensures free { takes_memory self.old.state.guard event.now ≡ false → IsOk result }
    {
        self.core.step(owner, event)
    }

    /// A put of a blob.
    pub(crate) fn put(
        &mut self,
        shelf: &mut K,
        owner: u64,
        blob: Checked<K>,
    ) -> Result<Reply, OutOfMemory>
        ensures ok { IfOk result (λ reply. (reply, self.new.state) ≡ step self.old.state owner (events.Put blob.digest blob.edges)) }
        ensures bodies { IfOk result (λ reply. PutsBody blob reply self.old self.new) }
        ensures err { OnErr result (self.new ≡ self.old) }
        ensures shelf { K.shelved shelf.new ≡ discarding (put_gives_up result) (K.shelved shelf.old) }
    {
        let (body, digest, edges) = blob.into_parts();
        // The room for its body comes first: after the step nothing may want memory.
        if let Err(e) = self.bodies.reserve() {
            shelf.discard(body);
            return Err(e);
        }
        match self.core.put(owner, &digest, &edges) {
            Ok((reply, gone)) => {
                self.bodies.give_up_all(shelf, gone.as_slice());
                keep(&mut self.bodies, shelf, &reply, digest, body);
                Ok(reply)
            }
            Err(e) => {
                shelf.discard(body);
                Err(e)
            }
        }
    }

    /// An expiry pass to the low mark. It takes no memory.
    #[tactic(auto, unfolding(store_core::specs::Step::step, store_core::specs::Step::served, crate::specs::Applied::passed_gives_up))]
    pub(crate) fn pass(&mut self, shelf: &mut K, owner: u64) -> Reply
        ensures step { (result, self.new.state) ≡ step self.old.state owner events.Pass }
        ensures bodies { KeepsBodies self.old self.new }
        ensures shelf { K.shelved shelf.new ≡ discarding (passed_gives_up result) (K.shelved shelf.old) }
    {
        if !self.core.is_open(owner) {
            return Reply::Refused;
        }
        let removed = self.core.to_go();
        let mut from = None;
        'rows: for _ in 0..removed {
            self.remove_next(shelf, &mut from);
        }
        Reply::Passed {
            removed,
            used: self.core.used(),
        }
    }

    // Removes the least recently used row that isn't guarded, and gives up its body. A pass goes on at `from`, so that it
    // walks once over what it passes. It takes no memory.
    fn remove_next(&mut self, shelf: &mut K, from: &mut Option<Digest>)
        requires passed { IsPassed self.old.state from.old }
        requires there { (s : State) × (count : ℕ) × Distinct s.rows × (self.old.state ≡ removed s count) × (count < length (unguarded s)) }
        ensures next { (s : State) (count : ℕ) → Distinct s.rows → self.old.state ≡ removed s count → count < length (unguarded s) → self.new.state ≡ removed s (count + 1) }
        ensures fewer { (d : HashAndSize) → has_row self.new.state.rows d ≡ true → has_row self.old.state.rows d ≡ true }
        ensures bodies { KeepsBodies self.old self.new }
        ensures shelf { K.shelved shelf.new ≡ discarding 1 (K.shelved shelf.old) }
        ensures passed { IsPassed self.new.state from.new }
    {
        match self.core.remove_next(from) {
            Some(digest) => self.bodies.give_up(shelf, &digest),
            None => unreachable!(),
        }
    }

    /// A reading of a blob that is there, or None. It reads the body of the digest; without one it is the empty blob. It is no
    /// event.
    pub fn reading(&self, shelf: &mut K, digest: &Digest) -> Result<Option<Reading<K>>, ShelfEnd>
        ensures there { IfOk result (λ o. is_some o ≡ is_here self.now.state.rows digest.now) }
        ensures begun { IfOk result (λ o. IfSome o (Begins digest.now)) }
        ensures body { IfOk result (λ o. IfSome o (λ reading. reading.told ≡ unwrap_or (told_in self.now.bodies digest.now) (Some []))) }
        ensures stays { Stays (K.shelved shelf.old) (K.shelved shelf.new) }
        ensures cause { HasShelfCause (K.shelved shelf.old) (K.shelved shelf.new) result }
    {
        if !self.core.is_here(digest) {
            return Ok(None);
        }
        match self.bodies.get(digest) {
            Some(body) => Ok(Some(Reading::new(shelf, body, *digest)?)),
            // What is there without a row is the empty blob.
            None => Ok(Some(Reading::empty())),
        }
    }
}

// Keeps the body of a put with this reply, or gives it up. It takes no memory.
#[tactic(auto, using(crate::proofs::KeptRows::other_reply), unfolding(crate::specs::Applied::gives_up_beside))]
fn keep<K: Shelf>(
    bodies: &mut Bodies<K>,
    shelf: &mut K,
    reply: &Reply,
    digest: Digest,
    body: K::Body,
)
    requires room { 0 < bodies.old.room }
    requires told { IfSome (K.kept body) (λ bytes. digest ≡ digest_of bytes) }
    requires new { adds_row reply.now ≡ true → told_in bodies.old.bodies digest ≡ None }
    requires there { reply.now ≡ replies.Repaired → is_some (told_in bodies.old.bodies digest) ≡ true }
    ensures bodies { (d : HashAndSize) → told_in bodies.new.bodies d ≡ (if keeps_body reply.now && same digest d then Some (K.kept body) else told_in bodies.old.bodies d) }
    ensures shelf { K.shelved shelf.new ≡ discarding (gives_up_beside reply.now) (K.shelved shelf.old) }
{
    match reply {
        Reply::Stored { .. } => bodies.add(digest, body),
        Reply::Repaired => bodies.replace(shelf, digest, body),
        _ => shelf.discard(body),
    }
}
