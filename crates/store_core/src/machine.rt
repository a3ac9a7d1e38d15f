//! `Core`.

ghost use Rattle.std.specs.Prelude.{◌≡◌, ◌<◌, ◌≤◌, ◌+◌, ◌-◌, ◌^◌, ◌||◌, [], true, false, min, nat_lt, List, Option, Some, None, position, IfOk, OnOk, OnErr, IsOk, if◌then◌else◌};
ghost use Rattle.directory_canon.specs.declared.node.Edge.{Edge};
ghost use Rattle.store_core.specs.State.{new_state, is_empty, is_of, is_session, has_row, row_of, used};
ghost use Rattle.store_core.specs.Step.{is_opening, is_open, step, served, opened, put, put_over, holds_after, holding, found, read, leased, confirmed, released, own_lease, noted, passed, usage, closed};
ghost use Rattle.store_core.specs.Pass.{gone};
ghost use Rattle.store_core.specs.Marks.{guard_marks};
ghost use Rattle.store_core.specs.Memory.{takes_memory, walks};

use crate::digests::is_empty_blob;
use crate::event::{Event, Reply, Usage};
use crate::finding::{damage, is_here, missing, touch, touch_all};
use crate::holds::{Holder, drop_holds, hold_used};
use crate::leases::{has_lease, own_lease, release, roots};
use crate::owners::{is_among, leave};
use crate::passing::{gone, guarded_by, remove};
use crate::reach::guarded_rows;
use crate::rows::{place_of, renew, sound_row, used_by};
use crate::standing::standing;
use crate::state::{Lease, Marks, Row};
use digest_types::{Digest, Digests};
use directory_canon::{Edge, Edges};
use proto_wire::OutOfMemory;
use std::alloc::Global;
use std::marker::Model;

/// The store's rules over plain lists.
#[derive(Debug, Drop)]
pub struct Core {
    alloc: Global,
    rows: Vec<Row>,
    leases: Vec<Lease>,
    holds: Vec<Holder>,
    marks: Marks,
    next_owner: u64,
    next_lease: u64,
    owners: Vec<u64>,
}

impl Model for Core {
    ghost use Rattle.store_core.specs.State.{State, IsKept};

    ghost Value = { State };

    ghost view = { λ c. record {
      rows = c.rows.items;
      leases = c.leases.items;
      holds = c.holds.items;
      low = c.marks.low;
      high = c.marks.high;
      guard = c.marks.guard;
      next_owner = c.next_owner;
      next_lease = c.next_lease;
      owners = c.owners.items;
    } };

    ghost invariant = { λ c. IsKept (record {
      rows = c.rows.items;
      leases = c.leases.items;
      holds = c.holds.items;
      low = c.marks.low;
      high = c.marks.high;
      guard = c.marks.guard;
      next_owner = c.next_owner;
      next_lease = c.next_lease;
      owners = c.owners.items;
    }) };
}

impl Core {
    /// An empty store with these marks. It takes no memory.
    pub fn new(alloc: Global, marks: Marks) -> Core
        ensures { result ≡ new_state marks.low marks.high marks.guard }
    {
        Core {
            alloc,
            rows: Vec::new(alloc),
            leases: Vec::new(alloc),
            holds: Vec::new(alloc),
            marks,
            next_owner: 1,
            next_lease: 1,
            owners: Vec::new(alloc),
        }
    }

    /// The rows, the least recently used first. It takes no memory.
    pub fn rows(&self) -> &[Row]
        ensures { result.now ≡ self.now.rows }
    {
        self.rows.as_slice()
    }

    /// The leases that stand, in the order in which they were taken. It takes no memory.
    pub fn leases(&self) -> &[Lease]
        ensures { result.now ≡ self.now.leases }
    {
        self.leases.as_slice()
    }

    /// The number that the next owner gets. It takes no memory.
    pub fn next_owner(&self) -> u64
        ensures { result ≡ self.now.next_owner }
    {
        self.next_owner
    }

    /// The number that the next lease gets. It takes no memory.
    pub fn next_lease(&self) -> u64
        ensures { result ≡ self.now.next_lease }
    {
        self.next_lease
    }

    /// One event of an owner, and the reply. After want of memory all is as before.
    #[tactic(auto, unfolding(crate::specs::Step::step))]
    pub fn step(&mut self, owner: u64, event: &Event) -> Result<Reply, OutOfMemory>
        requires owners { self.old.next_owner < 2 ^ 64 - 1 }
        requires leases { self.old.next_lease < 2 ^ 64 - 1 }
        ensures ok { IfOk result (λ reply. (reply, self.new) ≡ step self.old owner event.now) }
        ensures err { OnErr result (self.new ≡ self.old) }
        ensures free { takes_memory self.old.guard event.now ≡ false → walks event.now ≡ false → IsOk result }
    {
        if !event.is_opening() && !is_among(&self.owners, owner) {
            return Ok(Reply::Refused);
        }
        self.serve(owner, event)
    }

    // An event that is served: Open, or one of an owner that is open.
    #[tactic(auto, unfolding(crate::specs::Step::served))]
    fn serve(&mut self, owner: u64, event: &Event) -> Result<Reply, OutOfMemory>
        requires open { (is_opening event.now || is_open self.old owner) ≡ true }
        requires owners { self.old.next_owner < 2 ^ 64 - 1 }
        requires leases { self.old.next_lease < 2 ^ 64 - 1 }
        ensures ok { IfOk result (λ reply. (reply, self.new) ≡ served self.old owner event.now) }
        ensures err { OnErr result (self.new ≡ self.old) }
        ensures free { takes_memory self.old.guard event.now ≡ false → walks event.now ≡ false → IsOk result }
    {
        match event {
            Event::Open => self.open(),
            Event::Put { digest, edges } => self.put(owner, digest, edges),
            Event::Find { digests } => self.find(digests.as_slice()),
            Event::Read { digest } => self.read(owner, digest),
            Event::Lease { root, kind } => self.lease(
                owner,
                Edge {
                    kind: *kind,
                    digest: *root,
                },
            ),
            Event::Confirm { lease, files } => self.confirm(owner, *lease, *files),
            Event::Release { lease } => Ok(self.release(owner, *lease)),
            Event::Damage { digest } => Ok(self.damage(digest)),
            Event::Pass => self.pass(),
            Event::Usage => self.usage(),
            Event::Close => Ok(self.close(owner)),
        }
    }

    // A new owner comes, and has the next number.
    fn open(&mut self) -> Result<Reply, OutOfMemory>
        requires { self.old.next_owner < 2 ^ 64 - 1 }
        ensures ok { IfOk result (λ reply. (reply, self.new) ≡ opened self.old) }
        ensures err { OnErr result (self.new ≡ self.old) }
    {
        let owner = self.next_owner;
        self.owners.push(owner)?;
        self.next_owner = owner + 1;
        Ok(Reply::Opened { owner })
    }

    // An owner goes, and its holds, unless it has leases. Its blobs stay.
    fn close(&mut self, owner: u64) -> Reply
        ensures { (result, self.new) ≡ closed self.old owner }
    {
        if has_lease(&self.leases, owner) {
            return Reply::Refused;
        }
        drop_holds(&mut self.holds, owner);
        leave(&mut self.owners, owner);
        Reply::Closed
    }

    // A blob is put.
    #[tactic(auto, unfolding(crate::specs::Step::put))]
    fn put(
        &mut self,
        owner: u64,
        digest: &Digest,
        edges: &Option<Edges>,
    ) -> Result<Reply, OutOfMemory>
        requires open { is_open self.old owner ≡ true }
        ensures ok { IfOk result (λ reply. (reply, self.new) ≡ holding owner digest.now (put self.old digest.now edges.now)) }
        ensures err { OnErr result (self.new ≡ self.old) }
    {
        if is_empty_blob(digest) {
            return Ok(Reply::Present);
        }
        match place_of(&self.rows, digest) {
            Some(place) => self.put_again(owner, digest, place),
            None => self.put_new(owner, digest, edges),
        }
    }

    // The blob has a row, at this place.
    fn put_again(&mut self, owner: u64, digest: &Digest, place: usize) -> Result<Reply, OutOfMemory>
        requires open { is_open self.old owner ≡ true }
        requires filled { is_empty digest.now ≡ false }
        requires there { position (is_of digest.now) self.old.rows ≡ Some place }
        ensures ok { IfOk result (λ reply. (edges : Option (List Edge)) → (reply, self.new) ≡ holding owner digest.now (put_over self.old digest.now edges (row_of digest.now self.old.rows))) }
        ensures err { OnErr result (self.new ≡ self.old) }
    {
        self.hold_used(owner, digest)?;
        let sound = self.rows[place].sound;
        renew(&mut self.rows, digest, place);
        Ok(if sound {
            Reply::Present
        } else {
            Reply::Repaired
        })
    }

    // The blob has no row.
    fn put_new(
        &mut self,
        owner: u64,
        digest: &Digest,
        edges: &Option<Edges>,
    ) -> Result<Reply, OutOfMemory>
        requires open { is_open self.old owner ≡ true }
        requires new { row_of digest.now self.old.rows ≡ None }
        requires filled { is_empty digest.now ≡ false }
        ensures ok { IfOk result (λ reply. (reply, self.new) ≡ holding owner digest.now (put_over self.old digest.now edges.now None)) }
        ensures err { OnErr result (self.new ≡ self.old) }
    {
        let size = digest.size;
        let high = self.marks.high;
        let guards = self.guards()?;
        let guarded = guarded_by(&self.rows, &guards);
        if guarded + size > high {
            return Ok(Reply::NoSpace {
                guarded,
                size,
                high,
            });
        }
        // All that may fail for memory comes before any row goes.
        let room = self.room(&guards, size)?;
        let row = sound_row(self.alloc, digest, edges)?;
        self.rows.reserve(1)?;
        hold_used(self.alloc, self.marks.guard, &mut self.holds, owner, digest)?;
        self.rows.push_reserved(row);
        let removed = remove(&mut self.rows, &room);
        Ok(Reply::Stored {
            removed,
            used: used_by(&self.rows),
        })
    }

    // For each row whether it is guarded.
    fn guards(&self) -> Result<Vec<bool>, OutOfMemory>
        ensures { IfOk result (λ guards. guards.items ≡ guard_marks self.now) }
    {
        let starts = roots(self.alloc, &self.leases)?;
        guarded_rows(self.alloc, &self.rows, &starts, &self.holds)
    }

    // The digests that go so that `size` more bytes fit: none where they fit, else those of a pass to the lesser of
    // the low mark and what these bytes leave of the high one.
    fn room(&self, guards: &[bool], size: u64) -> Result<Vec<Digest>, OutOfMemory>
        requires guards { guards.now ≡ guard_marks self.now }
        requires fits { size ≤ self.now.high }
        ensures { IfOk result (λ ds. ds.items ≡ (if nat_lt self.now.high (used self.now + size) then gone self.now (min self.now.low (self.now.high - size)) else [])) }
    {
        let used = used_by(&self.rows);
        let room = self.marks.high - size;
        if used <= room {
            return Ok(Vec::new(self.alloc));
        }
        gone(
            self.alloc,
            &self.rows,
            guards,
            used,
            self.marks.low.min(room),
        )
    }

    // Which blobs aren't there.
    fn find(&mut self, digests: &[Digest]) -> Result<Reply, OutOfMemory>
        ensures ok { IfOk result (λ reply. (reply, self.new) ≡ found self.old digests.now) }
        ensures err { OnErr result (self.new ≡ self.old) }
    {
        let missing = missing(self.alloc, &self.rows, digests)?;
        touch_all(&mut self.rows, digests);
        Ok(Reply::Missing {
            digests: Digests::from_vec(missing),
        })
    }

    // Whether the bytes of a blob can be read.
    fn read(&mut self, owner: u64, digest: &Digest) -> Result<Reply, OutOfMemory>
        requires open { is_open self.old owner ≡ true }
        ensures ok { IfOk result (λ reply. (reply, self.new) ≡ holding owner digest.now (read self.old digest.now)) }
        ensures err { OnErr result (self.new ≡ self.old) }
        ensures free { is_session self.old.guard ≡ false → IsOk result }
    {
        if !is_here(&self.rows, digest) {
            return Ok(Reply::Absent);
        }
        self.hold_used(owner, digest)?;
        touch(&mut self.rows, digest);
        Ok(Reply::Found)
    }

    // Under the session guard an owner holds what it put or read and is there, unless it is the empty blob.
    fn hold_used(&mut self, owner: u64, digest: &Digest) -> Result<(), OutOfMemory>
        requires open { is_open self.old owner ≡ true }
        requires there { is_empty digest.now ≡ false → has_row self.old.rows digest.now ≡ true }
        ensures ok { OnOk result (self.new ≡ record self.old { holds = holds_after self.old.guard owner digest.now self.old.holds }) }
        ensures err { OnErr result (self.new ≡ self.old) }
        ensures free { is_session self.old.guard ≡ false → IsOk result }
    {
        hold_used(self.alloc, self.marks.guard, &mut self.holds, owner, digest)
    }

    // An owner that is open takes a lease.
    fn lease(&mut self, owner: u64, root: Edge) -> Result<Reply, OutOfMemory>
        requires open { is_open self.old owner ≡ true }
        requires leases { self.old.next_lease < 2 ^ 64 - 1 }
        ensures ok { IfOk result (λ reply. (reply, self.new) ≡ leased self.old owner root) }
        ensures err { OnErr result (self.new ≡ self.old) }
    {
        let id = self.next_lease;
        self.leases.push(Lease { id, owner, root })?;
        self.next_lease = id + 1;
        Ok(Reply::Leased { lease: id })
    }

    // How a lease stands.
    fn confirm(&mut self, owner: u64, id: u64, files: bool) -> Result<Reply, OutOfMemory>
        ensures ok { IfOk result (λ reply. (reply, self.new) ≡ confirmed self.old files (own_lease self.old owner id)) }
        ensures err { OnErr result (self.new ≡ self.old) }
    {
        let Some(lease) = own_lease(&self.leases, owner, id) else {
            return Ok(Reply::Refused);
        };
        let standing = standing(self.alloc, &self.rows, &lease.root, files)?;
        Ok(Reply::Stands { standing })
    }

    // A lease goes.
    fn release(&mut self, owner: u64, id: u64) -> Reply
        ensures { (result, self.new) ≡ released self.old id (own_lease self.old owner id) }
    {
        if own_lease(&self.leases, owner, id).is_none() {
            return Reply::Refused;
        }
        release(&mut self.leases, id);
        Reply::Released
    }

    // A blob was found damaged.
    fn damage(&mut self, digest: &Digest) -> Reply
        ensures { (result, self.new) ≡ noted self.old digest.now }
    {
        damage(&mut self.rows, digest);
        Reply::Marked
    }

    // A pass to the low mark.
    fn pass(&mut self) -> Result<Reply, OutOfMemory>
        ensures ok { IfOk result (λ reply. (reply, self.new) ≡ passed self.old) }
        ensures err { OnErr result (self.new ≡ self.old) }
    {
        let guards = self.guards()?;
        let used = used_by(&self.rows);
        let victims = gone(self.alloc, &self.rows, &guards, used, self.marks.low)?;
        let removed = remove(&mut self.rows, &victims);
        Ok(Reply::Passed {
            removed,
            used: used_by(&self.rows),
        })
    }

    // The numbers of the store.
    fn usage(&self) -> Result<Reply, OutOfMemory>
        ensures { IfOk result (λ reply. (reply, self.now) ≡ usage self.now) }
    {
        let guards = self.guards()?;
        Ok(Reply::Used {
            usage: Usage {
                used: used_by(&self.rows),
                guarded: guarded_by(&self.rows, &guards),
                rows: self.rows.len() as u64,
                low: self.marks.low,
                high: self.marks.high,
            },
        })
    }
}
