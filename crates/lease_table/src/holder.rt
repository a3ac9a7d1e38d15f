//! What owners hold.

ghost use Rattle.std.specs.Prelude.{◌≡◌, ◌+◌, ◌-◌, ◌<◌, ◌≤◌, ◌^◌, ◌∷◌, ℕ, [], not, length, slice_get, position, if◌then◌else◌, IfOk, OnOk, OnErr};
ghost use Rattle.indexmap.specs.IndexMap.{spare};
ghost use Rattle.digest_types.specs.Name.{HashAndSize};
ghost use Rattle.store_core.specs.State.{is_among, is_holder, with_digest, other_holds, DistinctDigests};
ghost use Rattle.lease_table.specs.Table.{sizes};
ghost use Rattle.lease_table.specs.Tallies.{one_at, IsTallied};
ghost use Rattle.lease_table.specs.Holds.{held_by, holders, with_holder};

use crate::index::Index;
use crate::tally::Tally;
use digest_types::Digest;
use indexmap::IndexSet;
use proto_wire::OutOfMemory;
use std::alloc::Global;
use std::marker::Model;

/// What an owner holds: digests in the order in which they came, each once and found by a look-up.
#[derive(Debug, Drop)]
pub(crate) struct Holder {
    owner: u64,
    digests: IndexSet<Digest>,
}

impl Model for Holder {
    ghost use Rattle.store_core.specs.State.{Holds, DistinctDigests};

    ghost Value = { Holds };

    ghost view = { λ h. record { owner = h.owner; digests = h.digests.keys } };

    ghost invariant = { λ h. DistinctDigests h.digests.keys };
}

impl Holder {
    /// An owner that holds nothing. It takes no memory.
    fn new(alloc: Global, owner: u64) -> Holder
        ensures { result ≡ record { owner = owner; digests = [] } }
    {
        Holder {
            owner,
            digests: IndexSet::new(alloc),
        }
    }

    /// Whether it is this owner.
    fn is_owner(&self, owner: u64) -> bool
        ensures { result ≡ is_holder owner self.now }
    {
        self.owner == owner
    }

    fn len(&self) -> usize
        ensures len { result ≡ length self.now.digests }
        ensures distinct { DistinctDigests self.now.digests }
    {
        self.digests.len()
    }

    /// The digest at a place.
    fn get(&self, place: usize) -> Option<Digest>
        ensures { result ≡ slice_get self.now.digests place }
    {
        self.digests.get_index(place).copied()
    }

    /// Adds a digest unless it is there, and answers whether it wasn't. After want of memory all is as before.
    fn add(&mut self, digest: &Digest) -> Result<bool, OutOfMemory>
        ensures new { IfOk result (λ new. new ≡ not (is_among self.old.digests digest.now)) }
        ensures ok { OnOk result (self.new ≡ record self.old { digests = with_digest digest.now self.old.digests }) }
        ensures err { OnErr result (self.new ≡ self.old) }
    {
        Ok(self.digests.insert(*digest)?)
    }

    /// Drops all digests. It takes no memory.
    fn clear(&mut self)
        ensures { self.new ≡ record self.old { digests = [] } }
    {
        self.digests.clear();
    }
}

/// Where an owner's holds stand, if it has any.
fn place_of(holds: &[Holder], owner: u64) -> Option<usize>
    ensures { result ≡ position (is_holder owner) holds.now }
{
    holds.iter().position(|holder| holder.is_owner(owner))
}

/// Adds a hold of an owner unless it is there, and answers whether it wasn't. After want of memory all is as before.
fn hold(
    alloc: Global,
    holds: &mut Vec<Holder>,
    owner: u64,
    digest: &Digest,
) -> Result<bool, OutOfMemory>
    ensures ok { OnOk result (holds.new.items ≡ with_holder (Some owner) digest.now holds.old.items) }
    ensures new { IfOk result (λ new. (d : HashAndSize) → holders holds.new.items d ≡ holders holds.old.items d + (if new then one_at digest.now d else 0)) }
    ensures err { OnErr result (holds.new.items ≡ holds.old.items) }
{
    match place_of(holds, owner) {
        Some(place) => Ok(holds[place].add(digest)?),
        None => {
            let mut holder = Holder::new(alloc, owner);
            let new = holder.add(digest)?;
            holds.push(holder)?;
            Ok(new)
        }
    }
}

/// Adds a hold where an owner is named, and answers whether there is one more. After want of memory all is as before.
pub(crate) fn hold_if(
    alloc: Global,
    holds: &mut Vec<Holder>,
    owner: Option<u64>,
    digest: &Digest,
) -> Result<bool, OutOfMemory>
    ensures ok { OnOk result (holds.new.items ≡ with_holder owner digest.now holds.old.items) }
    ensures new { IfOk result (λ new. (d : HashAndSize) → holders holds.new.items d ≡ holders holds.old.items d + (if new then one_at digest.now d else 0)) }
    ensures err { OnErr result (holds.new.items ≡ holds.old.items) }
{
    match owner {
        Some(owner) => hold(alloc, holds, owner, digest),
        None => Ok(false),
    }
}

/// Counts a hold, if there is one more. It takes no memory.
pub(crate) fn count_hold(rows: &Index, tally: &mut Tally, digest: &Digest, new: bool)
    requires { 0 < spare tally.old.counts }
    ensures tallied { (f : HashAndSize → ℕ) → f digest.now < 2 ^ 64 - 1 → sizes rows.now ≤ 2 ^ 62 → IsTallied rows.now f tally.old.counts.entries tally.old.bytes → IsTallied rows.now (λ d. f d + (if new then one_at digest.now d else 0)) tally.new.counts.entries tally.new.bytes }
{
    if new {
        tally.add(rows, digest);
    }
}

/// Takes all that an owner holds, and counts none of it.
fn uncount(rows: &Index, tally: &mut Tally, holder: &mut Holder)
    ensures holder { holder.new ≡ record holder.old { digests = [] } }
    ensures tallied { (f : HashAndSize → ℕ) → sizes rows.now ≤ 2 ^ 62 → IsTallied rows.now (λ d. f d + held_by holder.old d) tally.old.counts.entries tally.old.bytes → IsTallied rows.now f tally.new.counts.entries tally.new.bytes }
{
    let len = holder.len();
    'digests: for at in 0..len {
        if let Some(digest) = holder.get(at) {
            tally.take(rows, &digest);
        }
    }
    holder.clear();
}

/// Takes all holds of an owner, and counts none of them. It takes no memory.
pub(crate) fn drop_holds(rows: &Index, tally: &mut Tally, holds: &mut Vec<Holder>, owner: u64)
    requires small { sizes rows.now ≤ 2 ^ 62 }
    ensures left { holds.new.items ≡ other_holds owner holds.old.items }
    ensures tallied { (f : HashAndSize → ℕ) → IsTallied rows.now (λ d. f d + holders holds.old.items d) tally.old.counts.entries tally.old.bytes → IsTallied rows.now (λ d. f d + holders holds.new.items d) tally.new.counts.entries tally.new.bytes }
{
    'holds: for i in 0..holds.len() {
        if holds[i].is_owner(owner) {
            uncount(rows, tally, &mut holds[i]);
        }
    }
    holds.retain(|holder| !holder.is_owner(owner));
}
