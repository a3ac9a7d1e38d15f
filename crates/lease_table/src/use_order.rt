//! `UseOrder`.

ghost use Rattle.std.specs.Prelude.{◌≡◌, ◌∷◌, ◌++◌, [], not, length, take, slice_get, true, false, IfOk, IfSome, IfNone, OnOk, OnErr};
ghost use Rattle.store_core.specs.State.{is_among};
ghost use Rattle.store_core.specs.Pass.{victims};
ghost use Rattle.lease_table.specs.Table.{is_guarded, other_digests, unguarded, behind, IsPassed};
ghost use Rattle.lease_table.specs.Slots.{live};

use crate::slots::Slots;
use crate::table::LeaseTable;
use digest_types::{Digest, Digests};
use proto_wire::OutOfMemory;
use std::alloc::Global;
use std::marker::Model;

/// The digests of the rows in the order of their use, the least recent first. A use costs constant time, taken over
/// many; a pass walks over what it passes.
#[derive(Debug, Drop)]
pub struct UseOrder {
    alloc: Global,
    slots: Slots,
}

impl Model for UseOrder {
    ghost use Rattle.std.specs.Prelude.{List};
    ghost use Rattle.digest_types.specs.Name.{HashAndSize};

    ghost Value = { List HashAndSize };

    ghost view = { λ a. a.slots };
}

impl UseOrder {
    /// No digests. It takes no memory.
    pub fn new(alloc: Global) -> UseOrder
        ensures { result ≡ [] }
    {
        UseOrder {
            alloc,
            slots: Slots::new(alloc),
        }
    }

    /// The digest becomes the most recent one. It takes no memory.
    pub fn touch(&mut self, digest: &Digest)
        requires { is_among self.old digest.now ≡ true }
        ensures { self.new ≡ other_digests digest.now self.old ++ digest.now ∷ [] }
    {
        self.slots.touch(digest);
    }

    /// Takes a digest out. It takes no memory.
    pub fn remove(&mut self, digest: &Digest)
        ensures { self.new ≡ other_digests digest.now self.old }
    {
        self.slots.remove(digest);
    }

    /// Adds a digest as the most recent one. After want of memory all is as before.
    pub fn add(&mut self, digest: Digest) -> Result<(), OutOfMemory>
        requires { is_among self.old digest ≡ false }
        ensures ok { OnOk result (self.new ≡ self.old ++ digest ∷ []) }
        ensures err { OnErr result (self.new ≡ self.old) }
    {
        self.slots.add(digest)
    }

    /// How many digests there are. It takes no memory.
    pub fn len(&self) -> usize
        ensures { result ≡ length self.now }
    {
        self.slots.len()
    }

    /// Whether a digest is among them: a look-up. It takes no memory.
    pub fn has(&self, digest: &Digest) -> bool
        ensures { result ≡ is_among self.now digest.now }
    {
        self.slots.has(digest)
    }

    /// How many unguarded digests a pass removes, so that at most `target` of the `used` bytes are left: the least such
    /// number, or all. It takes no memory.
    pub fn victims(&self, leases: &LeaseTable, used: u64, target: u64) -> u64
        ensures { result ≡ victims (unguarded leases.now self.now) used target }
    {
        victims(self.slots.from_on(None), leases, used, target)
    }

    /// The least recently used digest that isn't guarded. It takes no memory.
    pub fn first_unguarded(&self, leases: &LeaseTable) -> Option<Digest>
        ensures { result ≡ slice_get (unguarded leases.now self.now) 0 }
    {
        first_unguarded(self.slots.from_on(None), leases)
    }

    /// Takes out the least recently used digest that isn't guarded. A pass goes on at `from`, which is None at its start and
    /// moves on to the digest behind the one that goes, so that it walks once over what it passes. It takes no memory.
    pub fn take_next(&mut self, leases: &LeaseTable, from: &mut Option<Digest>) -> Option<Digest>
        requires { IsPassed leases.now self.old from.old }
        ensures first { result ≡ slice_get (unguarded leases.now self.old) 0 }
        ensures some { IfSome result (λ d. self.new ≡ other_digests d self.old) }
        ensures next { IfSome result (λ d. from.new ≡ behind d self.old) }
        ensures none { IfNone result ((self.new ≡ self.old) × (from.new ≡ from.old)) }
        ensures passed { IsPassed leases.now self.new from.new }
    {
        let digest = first_unguarded(self.slots.from_on(*from), leases)?;
        *from = self.slots.behind(&digest);
        self.slots.remove(&digest);
        Some(digest)
    }

    /// The digests, the least recent first.
    pub fn list(&self) -> Result<Digests, OutOfMemory>
        ensures { IfOk result (λ ds. ds ≡ self.now) }
    {
        let digests = listed(self.alloc, self.slots.from_on(None))?;
        Ok(Digests::from_vec(digests))
    }

    /// The first `count` unguarded digests in the order of use, or all where there are fewer.
    pub fn gone(&self, leases: &LeaseTable, count: u64) -> Result<Digests, OutOfMemory>
        ensures { IfOk result (λ ds. ds ≡ take count (unguarded leases.now self.now)) }
    {
        let digests = gone(self.alloc, self.slots.from_on(None), leases, count)?;
        Ok(Digests::from_vec(digests))
    }
}

/// Whether a pass may remove a digest.
fn may_go(leases: &LeaseTable, digest: &Digest) -> bool
    ensures { result ≡ not (is_guarded leases.now digest.now) }
{
    !leases.is_guarded(digest)
}

/// The digest of a slot, if a pass may remove it.
fn loose(slot: Option<Digest>, leases: &LeaseTable) -> Option<Digest>
    ensures { result ≡ slice_get (unguarded leases.now (live (slot ∷ []))) 0 }
{
    let digest = slot?;
    if may_go(leases, &digest) {
        Some(digest)
    } else {
        None
    }
}

fn victims(slots: &[Option<Digest>], leases: &LeaseTable, used: u64, target: u64) -> u64
    ensures { result ≡ victims (unguarded leases.now (live slots.now)) used target }
{
    let mut left = used;
    let mut count = 0;
    'slots: for slot in slots {
        if left <= target {
            return count;
        }
        if let Some(digest) = loose(*slot, leases) {
            left = left.saturating_sub(digest.size);
            count += 1;
        }
    }
    count
}

fn first_unguarded(slots: &[Option<Digest>], leases: &LeaseTable) -> Option<Digest>
    ensures { result ≡ slice_get (unguarded leases.now (live slots.now)) 0 }
{
    'slots: for slot in slots {
        if let Some(digest) = loose(*slot, leases) {
            return Some(digest);
        }
    }
    None
}

fn gone(
    alloc: Global,
    slots: &[Option<Digest>],
    leases: &LeaseTable,
    count: u64,
) -> Result<Vec<Digest>, OutOfMemory>
    ensures { IfOk result (λ ds. ds.items ≡ take count (unguarded leases.now (live slots.now))) }
{
    let mut digests = Vec::new(alloc);
    let mut left = count;
    'slots: for slot in slots {
        if left == 0 {
            return Ok(digests);
        }
        if let Some(digest) = loose(*slot, leases) {
            digests.push(digest)?;
            left -= 1;
        }
    }
    Ok(digests)
}

fn listed(alloc: Global, slots: &[Option<Digest>]) -> Result<Vec<Digest>, OutOfMemory>
    ensures { IfOk result (λ ds. ds.items ≡ live slots.now) }
{
    let mut digests = Vec::new(alloc);
    'slots: for slot in slots {
        if let Some(digest) = slot {
            digests.push(*digest)?;
        }
    }
    Ok(digests)
}
