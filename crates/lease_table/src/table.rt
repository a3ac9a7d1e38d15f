//! `LeaseTable`.

ghost use Rattle.std.specs.Prelude.{◌≡◌, ◌≤◌, ◌+◌, ◌^◌, ◌∷◌, ◌++◌, not, filter, [], true, false, IfOk, OnOk, OnErr};
ghost use Rattle.std.specs.Option.{option_copied};
ghost use Rattle.store_core.specs.Reach.{reached, is_deep};
ghost use Rattle.store_core.specs.State.{is_among, with_hold, other_holds};
ghost use Rattle.digest_types.specs.Name.{HashAndSize};
ghost use Rattle.lease_table.specs.Holds.{with_holder};
ghost use Rattle.lease_table.specs.Table.{has_row, has_id, root_of, is_guarded, guarded, sizes, without, others, is_dir_row};

use crate::depth::is_deep;
use crate::holder::{Holder, count_hold, drop_holds, hold_if};
use crate::index::Index;
use crate::lease_reach::LeaseReach;
use crate::lease_reaches::{
    count_grown, cut, pairs_of, prepare, reach_of, release, roots_of, take_up,
};
use crate::table_lease::TableLease;
use crate::tally::Tally;
use digest_types::{Digest, Digests};
use directory_canon::{Edge, Edges, Kind};
use proto_wire::OutOfMemory;
use std::alloc::Global;
use std::marker::Model;
use store_core::sort_pairs;

/// The leases, what owners hold, and what is guarded by them. For each lease the pairs that it reaches are kept, for each
/// digest how many leases reach it and how many owners hold it, and how many bytes the guarded rows have.
#[derive(Debug, Drop)]
pub struct LeaseTable {
    alloc: Global,
    rows: Index,
    kept: Vec<LeaseReach>,
    holds: Vec<Holder>,
    tally: Tally,
}

impl Model for LeaseTable {
    ghost use Rattle.lease_table.specs.Table.{Table};
    ghost use Rattle.lease_table.specs.LeaseReaches.{leases_of, IsKept};

    ghost Value = { Table };

    ghost view = { λ a. record { blobs = a.rows; leases = leases_of a.kept.items; holds = a.holds.items } };

    ghost invariant = { λ a. IsKept a.rows a.kept.items a.holds.items a.tally.counts.entries a.tally.bytes };
}

impl LeaseTable {
    /// No rows, no leases and no holds. It takes no memory.
    pub fn new(alloc: Global) -> LeaseTable
        ensures { result ≡ record { blobs = []; leases = []; holds = [] } }
    {
        LeaseTable {
            alloc,
            rows: Index::new(alloc),
            kept: Vec::new(alloc),
            holds: Vec::new(alloc),
            tally: Tally::new(alloc),
        }
    }

    /// Takes a lease on a root, which needn't be there. After want of memory all is as before.
    pub fn lease(&mut self, id: u64, root: Digest, kind: Kind) -> Result<(), OutOfMemory>
        ensures ok { OnOk result (self.new ≡ record self.old { leases = self.old.leases ++ record { id = id; root = record { kind = kind; digest = root } } ∷ [] }) }
        ensures err { OnErr result (self.new ≡ self.old) }
    {
        let lease = TableLease {
            id,
            root: Edge { kind, digest: root },
        };
        let reach = reach_of(self.alloc, &self.rows, lease)?;
        self.tally.reserve(reach.pairs.len())?;
        self.kept.reserve(1)?;
        take_up(&self.rows, &mut self.tally, &mut self.kept, reach);
        Ok(())
    }

    /// Gives a lease up. It takes no memory.
    pub fn release(&mut self, id: u64)
        ensures { self.new ≡ record self.old { leases = filter (λ lease. not (has_id id lease)) self.old.leases } }
    {
        release(&self.rows, &mut self.tally, &mut self.kept, id);
    }

    /// An owner holds a digest from now on. Where it does so already, nothing changes. After want of memory all is as before.
    pub fn hold(&mut self, owner: u64, digest: &Digest) -> Result<(), OutOfMemory>
        requires { has_row self.old digest.now ≡ true }
        ensures ok { OnOk result (self.new ≡ record self.old { holds = with_hold owner digest.now self.old.holds }) }
        ensures err { OnErr result (self.new ≡ self.old) }
    {
        self.tally.reserve(1)?;
        let new = hold_if(self.alloc, &mut self.holds, Some(owner), digest)?;
        count_hold(&self.rows, &mut self.tally, digest, new);
        Ok(())
    }

    /// Gives up all that an owner holds. It takes no memory.
    pub fn drop_holds(&mut self, owner: u64)
        ensures { self.new ≡ record self.old { holds = other_holds owner self.old.holds } }
    {
        drop_holds(&self.rows, &mut self.tally, &mut self.holds, owner);
    }

    /// Removes the rows of `gone`, and adds one with these edges, which an owner holds where one is named. After want of
    /// memory all is as before.
    pub fn on_put(
        &mut self,
        digest: &Digest,
        edges: Option<&Edges>,
        gone: &Digests,
        holder: Option<u64>,
    ) -> Result<(), OutOfMemory>
        requires new { has_row self.old digest.now ≡ false }
        requires others { is_among gone.now digest.now ≡ false }
        requires unguarded { (d : HashAndSize) → is_among gone.now d ≡ true → is_guarded self.old d ≡ false }
        requires small { sizes (without gone.now self.old.blobs) + digest.now.size ≤ 2 ^ 62 }
        ensures ok { OnOk result (self.new ≡ record self.old {
          blobs = without gone.now self.old.blobs ++ record { digest = digest.now; edges = option_copied edges.entry } ∷ [];
          holds = with_holder holder digest.now self.old.holds;
        }) }
        ensures err { OnErr result (self.new ≡ self.old) }
    {
        // All that may fail for memory comes before any row goes.
        let copy = copied(self.alloc, edges)?;
        self.rows.push(*digest, copy)?;
        match prepare(
            &self.rows,
            gone.as_slice(),
            &mut self.tally,
            &mut self.kept,
            digest,
            edges,
        ) {
            Ok(grown) => match hold_if(self.alloc, &mut self.holds, holder, digest) {
                Ok(new) => {
                    self.rows.remove(gone.as_slice());
                    self.tally.add_row(digest);
                    count_grown(&self.rows, &mut self.tally, &mut self.kept, grown);
                    count_hold(&self.rows, &mut self.tally, digest, new);
                    Ok(())
                }
                Err(e) => {
                    cut(&mut self.kept);
                    self.rows.remove_one(digest);
                    Err(e)
                }
            },
            Err(e) => {
                self.rows.remove_one(digest);
                Err(e)
            }
        }
    }

    /// Removes a row. It takes no memory.
    pub fn on_remove(&mut self, digest: &Digest)
        requires { is_guarded self.old digest.now ≡ false }
        ensures rows { self.new ≡ record self.old { blobs = others digest.now self.old.blobs } }
        ensures guards { (d : HashAndSize) → is_guarded self.new d ≡ is_guarded self.old d }
    {
        self.rows.remove_one(digest);
    }

    /// Whether the digest has a row that a lease reaches or an owner holds: a look-up. It takes no memory.
    pub fn is_guarded(&self, digest: &Digest) -> bool
        ensures { result ≡ is_guarded self.now digest.now }
    {
        self.tally.count(digest) > 0 && self.rows.has(digest)
    }

    /// How many bytes the guarded rows have: a number that is kept. It takes no memory.
    pub fn guarded_bytes(&self) -> u64
        ensures { result ≡ guarded self.now }
    {
        self.tally.bytes()
    }

    /// The pairs that a lease reaches, each once, ascending by digest with a file before a Directory.
    pub fn reached(&self, id: u64) -> Result<Edges, OutOfMemory>
        ensures { IfOk result (λ pairs. pairs ≡ reached self.now.blobs (root_of self.now id)) }
    {
        let mut pairs = pairs_of(self.alloc, &self.kept, id)?;
        sort_pairs(&mut pairs);
        Ok(Edges::from_vec(pairs))
    }

    /// Whether a lease reaches a pair of kind Dir that is at least so many steps from its root.
    pub fn is_deep(&self, id: u64, steps: u64) -> Result<bool, OutOfMemory>
        ensures { IfOk result (λ deep. deep ≡ is_deep self.now.blobs (root_of self.now id) steps) }
    {
        let starts = roots_of(self.alloc, &self.kept, id)?;
        let pairs = pairs_of(self.alloc, &self.kept, id)?;
        is_deep(self.alloc, &self.rows, &starts, &pairs, steps)
    }

    /// Whether the digest has a row: a look-up. It takes no memory.
    pub fn has_row(&self, digest: &Digest) -> bool
        ensures { result ≡ has_row self.now digest.now }
    {
        self.rows.has(digest)
    }

    /// Whether the digest has a row with edges: a look-up. It takes no memory.
    pub fn is_dir(&self, digest: &Digest) -> bool
        ensures { result ≡ is_dir_row self.now digest.now }
    {
        self.rows.is_dir(digest)
    }
}

/// A copy of the edges.
fn copied(alloc: Global, edges: Option<&Edges>) -> Result<Option<Edges>, OutOfMemory>
    ensures { IfOk result (λ copy. copy ≡ option_copied edges.entry) }
{
    match edges {
        Some(edges) => Ok(Some(Edges::from_vec(Vec::from_slice(alloc, edges.as_slice())?))),
        None => Ok(None),
    }
}
