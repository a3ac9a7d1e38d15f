//! `IndexedCore`.

ghost use Rattle.std.specs.Prelude.{◌≡◌, ◌≢◌, ◌<◌, ◌≤◌, ◌+◌, ◌-◌, ◌^◌, ◌||◌, ◌∷◌, [], true, false, min, nat_lt, length, slice_get, ℕ, List, Option, Some, None, IfOk, IfSome, OnOk, OnErr, IfNone, IsOk, if◌then◌else◌};
ghost use Rattle.directory_canon.specs.declared.node.Edge.{Edge};
ghost use Rattle.std.specs.List.{AllByRecursion};
ghost use Rattle.digest_types.specs.Digest.{digest_of};
ghost use Rattle.store_core.specs.State.{State, Distinct, digests, sizes, new_state, is_empty, is_session, row_of, has_row, others, used};
ghost use Rattle.store_core.specs.Step.{touched_all, is_opening, is_open, is_here, step, served, opened, put, put_over, holds_after, holding, found, read, leased, confirmed, released, own_lease, noted, passed, usage, closed};
ghost use Rattle.store_core.specs.Pass.{gone, unguarded};
ghost use Rattle.store_core.specs.Memory.{takes_memory};
ghost use Rattle.store_core.specs.declared.event.Event.TheVariants as events;
ghost use Rattle.store_core.specs.declared.event.Reply.TheVariants as replies;
ghost use Rattle.indexed_core.specs.Removal.{removed, IsPassed, PutsRow};
ghost use Rattle.indexed_core.specs.Events.{moves_bodies};

use crate::asking::{add_all, is_here, missing, touch_all};
use crate::index::Index;
use crate::standing::standing;
use digest_types::{Digest, Digests};
use directory_canon::{Edge, Edges};
use proto_wire::OutOfMemory;
use std::alloc::Global;
use std::marker::Model;
use store_core::leases::{has_lease, own_lease, release};
use store_core::owners::{is_among, leave};
use store_core::{Event, Guard, Lease, Marks, Reply, Row, Usage, is_empty_blob};

/// The store's rules over hashed indexes.
#[derive(Debug, Drop)]
pub struct IndexedCore {
    alloc: Global,
    index: Index,
    leases: Vec<Lease>,
    marks: Marks,
    next_owner: u64,
    next_lease: u64,
    owners: Vec<u64>,
}

impl Model for IndexedCore {
    ghost use Rattle.std.specs.Prelude.{◌≡◌};
    ghost use Rattle.store_core.specs.State.{State, IsKept};
    ghost use Rattle.indexed_core.specs.Parts.{table_leases};

    ghost Value = { State };

    ghost view = { λ c. record {
      rows = c.index.rows;
      leases = c.leases.items;
      holds = c.index.guards.holds;
      low = c.marks.low;
      high = c.marks.high;
      guard = c.marks.guard;
      next_owner = c.next_owner;
      next_lease = c.next_lease;
      owners = c.owners.items;
    } };

    ghost invariant = { λ c. (c.index.guards.leases ≡ table_leases c.leases.items) × IsKept (record {
      rows = c.index.rows;
      leases = c.leases.items;
      holds = c.index.guards.holds;
      low = c.marks.low;
      high = c.marks.high;
      guard = c.marks.guard;
      next_owner = c.next_owner;
      next_lease = c.next_lease;
      owners = c.owners.items;
    }) };
}

impl IndexedCore {
    /// An empty store with these marks. It takes no memory.
    pub fn new(alloc: Global, marks: Marks) -> IndexedCore
        ensures { result ≡ new_state marks.low marks.high marks.guard }
    {
        IndexedCore {
            alloc,
            index: Index::new(alloc),
            leases: Vec::new(alloc),
            marks,
            next_owner: 1,
            next_lease: 1,
            owners: Vec::new(alloc),
        }
    }

    /// A store with these rows, in the order of their use, of which those of the digests of `saved` become the most recent
    /// ones, one after the other.
    pub fn of_rows(
        alloc: Global,
        marks: Marks,
        rows: &[Row],
        saved: &[Digest],
    ) -> Result<IndexedCore, OutOfMemory>
        requires distinct { Distinct rows.now }
        requires filled { AllByRecursion (λ row. row.digest ≢ digest_of []) rows.now }
        requires sound { AllByRecursion (λ row. row.sound ≡ true) rows.now }
        requires small { sizes rows.now ≤ 2 ^ 60 }
        ensures { IfOk result (λ c. c ≡ record (new_state marks.low marks.high marks.guard) { rows = touched_all saved.now rows.now }) }
    {
        let mut index = Index::new(alloc);
        add_all(alloc, &mut index, rows)?;
        touch_all(&mut index, saved);
        Ok(IndexedCore {
            alloc,
            index,
            leases: Vec::new(alloc),
            marks,
            next_owner: 1,
            next_lease: 1,
            owners: Vec::new(alloc),
        })
    }

    /// The numbers of the store. It takes no memory.
    pub fn usage(&self) -> Usage
        ensures { usage self.now ≡ (replies.Used result, self.now) }
    {
        Usage {
            used: self.index.used(),
            guarded: self.index.guarded_bytes(),
            rows: self.index.len(),
            low: self.marks.low,
            high: self.marks.high,
        }
    }

    /// The number that the next owner gets. It takes no memory.
    pub fn next_owner(&self) -> u64
        ensures { result ≡ self.now.next_owner }
    {
        self.next_owner
    }

    /// The number that the next lease gets. It takes no memory.
    pub fn next_lease(&self) -> u64
        ensures { result ≡ self.now.next_lease }
    {
        self.next_lease
    }

    /// Whether an owner is open. It takes no memory.
    pub fn is_open(&self, owner: u64) -> bool
        ensures { result ≡ is_open self.now owner }
    {
        is_among(&self.owners, owner)
    }

    /// Whether a blob is there: it has a sound row, or is the empty one. A look-up, which takes no memory.
    pub fn is_here(&self, digest: &Digest) -> bool
        ensures { result ≡ is_here self.now.rows digest.now }
    {
        is_here(&self.index, digest)
    }

    /// The digests of the rows, the least recently used first.
    pub fn use_list(&self) -> Result<Digests, OutOfMemory>
        ensures { IfOk result (λ ds. ds ≡ digests self.now.rows) }
    {
        self.index.use_list()
    }

    /// One event of an owner that moves no body, and the reply. After want of memory all is as before.
    #[tactic(auto, unfolding(store_core::specs::Step::step))]
    pub fn step(&mut self, owner: u64, event: &Event) -> Result<Reply, OutOfMemory>
        requires quiet { moves_bodies event.now ≡ false }
        requires owners { self.old.next_owner < 2 ^ 64 - 1 }
        requires leases { self.old.next_lease < 2 ^ 64 - 1 }
        ensures ok { IfOk result (λ reply. (reply, self.new) ≡ step self.old owner event.now) }
        ensures err { OnErr result (self.new ≡ self.old) }
        ensures free { takes_memory self.old.guard event.now ≡ false → IsOk result }
    {
        if !matches!(event, Event::Open) && !self.is_open(owner) {
            return Ok(Reply::Refused);
        }
        self.serve(owner, event)
    }

    // An event that is served: Open, or one of an owner that is open.
    #[tactic(auto, unfolding(store_core::specs::Step::served))]
    fn serve(&mut self, owner: u64, event: &Event) -> Result<Reply, OutOfMemory>
        requires open { (is_opening event.now || is_open self.old owner) ≡ true }
        requires quiet { moves_bodies event.now ≡ false }
        requires owners { self.old.next_owner < 2 ^ 64 - 1 }
        requires leases { self.old.next_lease < 2 ^ 64 - 1 }
        ensures ok { IfOk result (λ reply. (reply, self.new) ≡ served self.old owner event.now) }
        ensures err { OnErr result (self.new ≡ self.old) }
        ensures free { takes_memory self.old.guard event.now ≡ false → IsOk result }
    {
        match event {
            Event::Open => self.open(),
            Event::Find { digests } => self.find(digests.as_slice()),
            Event::Read { digest } => self.read(owner, digest),
            Event::Lease { root, kind } => self.lease(
                owner,
                Edge {
                    kind: *kind,
                    digest: *root,
                },
            ),
            Event::Confirm { lease, files } => self.confirm(owner, *lease, *files),
            Event::Release { lease } => Ok(self.release(owner, *lease)),
            Event::Damage { digest } => Ok(self.damage(digest)),
            Event::Usage => Ok(Reply::Used {
                usage: self.usage(),
            }),
            Event::Close => Ok(self.close(owner)),
            Event::Put { .. } | Event::Pass => unreachable!(),
        }
    }

    // A new owner comes, and has the next number.
    fn open(&mut self) -> Result<Reply, OutOfMemory>
        requires { self.old.next_owner < 2 ^ 64 - 1 }
        ensures ok { IfOk result (λ reply. (reply, self.new) ≡ opened self.old) }
        ensures err { OnErr result (self.new ≡ self.old) }
    {
        let owner = self.next_owner;
        self.owners.push(owner)?;
        self.next_owner = owner + 1;
        Ok(Reply::Opened { owner })
    }

    // An owner goes, and its holds, unless it has leases. Its blobs stay.
    fn close(&mut self, owner: u64) -> Reply
        ensures { (result, self.new) ≡ closed self.old owner }
    {
        if has_lease(&self.leases, owner) {
            return Reply::Refused;
        }
        self.index.drop_holds(owner);
        leave(&mut self.owners, owner);
        Reply::Closed
    }

    // Which blobs aren't there.
    fn find(&mut self, digests: &[Digest]) -> Result<Reply, OutOfMemory>
        ensures ok { IfOk result (λ reply. (reply, self.new) ≡ found self.old digests.now) }
        ensures err { OnErr result (self.new ≡ self.old) }
    {
        let missing = missing(self.alloc, &self.index, digests)?;
        touch_all(&mut self.index, digests);
        Ok(Reply::Missing {
            digests: Digests::from_vec(missing),
        })
    }

    // Whether the bytes of a blob can be read.
    fn read(&mut self, owner: u64, digest: &Digest) -> Result<Reply, OutOfMemory>
        requires open { is_open self.old owner ≡ true }
        ensures ok { IfOk result (λ reply. (reply, self.new) ≡ holding owner digest.now (read self.old digest.now)) }
        ensures err { OnErr result (self.new ≡ self.old) }
        ensures free { is_session self.old.guard ≡ false → IsOk result }
    {
        if !self.is_here(digest) {
            return Ok(Reply::Absent);
        }
        self.hold_used(owner, digest)?;
        self.index.touch(digest);
        Ok(Reply::Found)
    }

    // Under the session guard an owner holds what it put or read and is there, unless it is the empty blob.
    fn hold_used(&mut self, owner: u64, digest: &Digest) -> Result<(), OutOfMemory>
        requires open { is_open self.old owner ≡ true }
        requires there { is_empty digest.now ≡ false → has_row self.old.rows digest.now ≡ true }
        ensures ok { OnOk result (self.new ≡ record self.old { holds = holds_after self.old.guard owner digest.now self.old.holds }) }
        ensures err { OnErr result (self.new ≡ self.old) }
        ensures free { is_session self.old.guard ≡ false → IsOk result }
    {
        if self.marks.guard == Guard::Session && !is_empty_blob(digest) {
            self.index.hold(owner, digest)?;
        }
        Ok(())
    }

    // An owner that is open takes a lease.
    fn lease(&mut self, owner: u64, root: Edge) -> Result<Reply, OutOfMemory>
        requires open { is_open self.old owner ≡ true }
        requires leases { self.old.next_lease < 2 ^ 64 - 1 }
        ensures ok { IfOk result (λ reply. (reply, self.new) ≡ leased self.old owner root) }
        ensures err { OnErr result (self.new ≡ self.old) }
    {
        let id = self.next_lease;
        self.leases.reserve(1)?;
        self.index.lease(id, &root)?;
        self.leases.push_reserved(Lease { id, owner, root });
        self.next_lease = id + 1;
        Ok(Reply::Leased { lease: id })
    }

    // How a lease stands.
    fn confirm(&mut self, owner: u64, id: u64, files: bool) -> Result<Reply, OutOfMemory>
        ensures ok { IfOk result (λ reply. (reply, self.new) ≡ confirmed self.old files (own_lease self.old owner id)) }
        ensures err { OnErr result (self.new ≡ self.old) }
    {
        if own_lease(&self.leases, owner, id).is_none() {
            return Ok(Reply::Refused);
        }
        let standing = standing(self.alloc, &self.index, id, files)?;
        Ok(Reply::Stands { standing })
    }

    // A lease goes.
    fn release(&mut self, owner: u64, id: u64) -> Reply
        ensures { (result, self.new) ≡ released self.old id (own_lease self.old owner id) }
    {
        if own_lease(&self.leases, owner, id).is_none() {
            return Reply::Refused;
        }
        release(&mut self.leases, id);
        self.index.release(id);
        Reply::Released
    }

    // A blob was found damaged.
    fn damage(&mut self, digest: &Digest) -> Reply
        ensures { (result, self.new) ≡ noted self.old digest.now }
    {
        self.index.damage(digest);
        Reply::Marked
    }

    // ---- put

    /// A put of a blob, with the digests of the rows that went. After want of memory all is as before.
    #[tactic(auto, unfolding(store_core::specs::Step::step, store_core::specs::Step::served, store_core::specs::Step::put))]
    pub fn put(
        &mut self,
        owner: u64,
        digest: &Digest,
        edges: &Option<Edges>,
    ) -> Result<(Reply, Digests), OutOfMemory>
        ensures ok { IfOk result (λ r. (r.0, self.new) ≡ step self.old owner (events.Put digest.now edges.now)) }
        ensures rows { IfOk result (λ r. PutsRow digest.now r.0 r.1 self.old.rows self.new.rows) }
        ensures err { OnErr result (self.new ≡ self.old) }
    {
        if !self.is_open(owner) {
            return Ok((Reply::Refused, Digests::new(self.alloc)));
        }
        if is_empty_blob(digest) {
            return Ok((Reply::Present, Digests::new(self.alloc)));
        }
        if self.index.has_row(digest) {
            let reply = self.put_again(owner, digest)?;
            return Ok((reply, Digests::new(self.alloc)));
        }
        self.put_new(owner, digest, edges)
    }

    // The blob has a row.
    fn put_again(&mut self, owner: u64, digest: &Digest) -> Result<Reply, OutOfMemory>
        requires open { is_open self.old owner ≡ true }
        requires there { has_row self.old.rows digest.now ≡ true }
        ensures ok { IfOk result (λ reply. (edges : Option (List Edge)) → (reply, self.new) ≡ holding owner digest.now (put_over self.old digest.now edges (row_of digest.now self.old.rows))) }
        ensures err { OnErr result (self.new ≡ self.old) }
    {
        self.hold_used(owner, digest)?;
        Ok(if self.index.renew(digest) {
            Reply::Present
        } else {
            Reply::Repaired
        })
    }

    // The blob has no row.
    fn put_new(
        &mut self,
        owner: u64,
        digest: &Digest,
        edges: &Option<Edges>,
    ) -> Result<(Reply, Digests), OutOfMemory>
        requires open { is_open self.old owner ≡ true }
        requires new { has_row self.old.rows digest.now ≡ false }
        requires filled { is_empty digest.now ≡ false }
        ensures ok { IfOk result (λ r. (r.0, self.new) ≡ holding owner digest.now (put_over self.old digest.now edges.now None)) }
        ensures rows { IfOk result (λ r. PutsRow digest.now r.0 r.1 self.old.rows self.new.rows) }
        ensures err { OnErr result (self.new ≡ self.old) }
    {
        let size = digest.size;
        let high = self.marks.high;
        let guarded = self.index.guarded_bytes();
        if guarded + size > high {
            let reply = Reply::NoSpace {
                guarded,
                size,
                high,
            };
            return Ok((reply, Digests::new(self.alloc)));
        }
        let gone = self.room(size)?;
        let holder = self.holder(owner);
        self.index.add(digest, edges.as_ref(), &gone, holder)?;
        let reply = Reply::Stored {
            removed: gone.len() as u64,
            used: self.index.used(),
        };
        Ok((reply, gone))
    }

    // The owner that holds what this one puts: under the session guard itself.
    fn holder(&self, owner: u64) -> Option<u64>
        ensures { result ≡ (if is_session self.now.guard then Some owner else None) }
    {
        match self.marks.guard {
            Guard::Session => Some(owner),
            Guard::Leases => None,
        }
    }

    // The digests that go so that `size` more bytes fit: none where they fit, else those of a pass to the lesser of
    // the low mark and what these bytes leave of the high one.
    fn room(&self, size: u64) -> Result<Digests, OutOfMemory>
        requires fits { size ≤ self.now.high }
        ensures { IfOk result (λ ds. ds ≡ (if nat_lt self.now.high (used self.now + size) then gone self.now (min self.now.low (self.now.high - size)) else [])) }
    {
        let room = self.marks.high - size;
        if self.index.used() <= room {
            return Ok(Digests::new(self.alloc));
        }
        let count = self.index.victims(self.marks.low.min(room));
        self.index.first_free(count)
    }

    // ---- a pass

    /// How many rows a pass to the low mark removes: so many calls of `remove_next` are the pass. It takes no memory.
    pub fn to_go(&self) -> u64
        ensures pass { passed self.now ≡ (replies.Passed result (used (removed self.now result)), removed self.now result) }
        ensures within { result ≤ length (unguarded self.now) }
        ensures distinct { Distinct self.now.rows }
    {
        self.index.victims(self.marks.low)
    }

    /// Removes the least recently used row that isn't guarded, if there is one. A pass goes on at `from`, which is None at
    /// its start and moves on to the row behind the one that goes, so that it walks once over what it passes. It takes no
    /// memory.
    pub fn remove_next(&mut self, from: &mut Option<Digest>) -> Option<Digest>
        requires { IsPassed self.old from.old }
        ensures first { result ≡ slice_get (unguarded self.old) 0 }
        ensures row { IfSome result (λ d. has_row self.old.rows d ≡ true) }
        ensures some { IfSome result (λ d. self.new ≡ record self.old { rows = others d self.old.rows }) }
        ensures none { IfNone result (self.new ≡ self.old) }
        // It goes on from the first ones of a state to the next one.
        ensures next { (s : State) (count : ℕ) → Distinct s.rows → self.old ≡ removed s count → count < length (unguarded s) → (result ≡ slice_get (unguarded s) count) × (self.new ≡ removed s (count + 1)) }
        ensures passed { IsPassed self.new from.new }
    {
        self.index.remove_next(from)
    }

    /// How many bytes are used. It takes no memory.
    pub fn used(&self) -> u64
        ensures { result ≡ used self.now }
    {
        self.index.used()
    }
}
