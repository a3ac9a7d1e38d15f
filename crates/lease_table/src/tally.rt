//! `Tally`.

ghost use Rattle.std.specs.Prelude.{◌≡◌, ◌+◌, ◌-◌, ◌<◌, ◌≤◌, ◌^◌, ◌&&◌, ℕ, [], nat_lt, true, false, if◌then◌else◌, OnOk};
ghost use Rattle.indexmap.specs.IndexMap.{spare};
ghost use Rattle.digest_types.specs.Name.{HashAndSize};
ghost use Rattle.std.specs.List.{list_any};
ghost use Rattle.store_core.specs.State.{same};
ghost use Rattle.lease_table.specs.Table.{sizes, is_blob, Distinct};
ghost use Rattle.lease_table.specs.Tallies.{one_at, count_in, IsTallied};

use crate::index::Index;
use digest_types::Digest;
use indexmap::IndexMap;
use proto_wire::OutOfMemory;
use std::alloc::Global;

/// For each digest how many leases reach it and how many owners hold it, and how many bytes the rows have that are guarded so.
#[derive(Debug, Drop)]
pub(crate) struct Tally {
    counts: IndexMap<Digest, u64>,
    bytes: u64,
}

impl Tally {
    /// No counts. It takes no memory.
    pub(crate) fn new(alloc: Global) -> Tally
        ensures counts { result.counts.entries ≡ [] }
        ensures bytes { result.bytes ≡ 0 }
    {
        Tally {
            counts: IndexMap::new(alloc),
            bytes: 0,
        }
    }

    /// How many leases and owners guard a digest: a look-up.
    pub(crate) fn count(&self, digest: &Digest) -> u64
        ensures { result ≡ count_in self.now.counts.entries digest.now }
    {
        self.counts.get(digest).copied().unwrap_or(0)
    }

    /// How many bytes the guarded rows have.
    pub(crate) fn bytes(&self) -> u64
        ensures { result ≡ self.now.bytes }
    {
        self.bytes
    }

    /// Makes room for so many more digests.
    pub(crate) fn reserve(&mut self, additional: usize) -> Result<(), OutOfMemory>
        ensures counts { self.new.counts.entries ≡ self.old.counts.entries }
        ensures bytes { self.new.bytes ≡ self.old.bytes }
        ensures ok { OnOk result (additional ≤ spare self.new.counts) }
    {
        self.counts.reserve(additional)?;
        Ok(())
    }

    /// Counts the bytes of a new row, if it is guarded.
    pub(crate) fn add_row(&mut self, digest: &Digest)
        ensures counts { self.new.counts ≡ self.old.counts }
        ensures bytes { self.old.bytes ≤ 2 ^ 62 → self.new.bytes ≡ self.old.bytes + (if nat_lt 0 (count_in self.old.counts.entries digest.now) then digest.now.size else 0) }
    {
        if self.count(digest) > 0 {
            self.bytes = self.bytes.saturating_add(digest.size);
        }
    }

    /// Counts one more for a digest. It takes no memory.
    pub(crate) fn add(&mut self, rows: &Index, digest: &Digest)
        requires { 0 < spare self.old.counts }
        ensures spare { spare self.old.counts ≤ spare self.new.counts + 1 }
        ensures tallied { (f : HashAndSize → ℕ) → f digest.now < 2 ^ 64 - 1 → sizes rows.now ≤ 2 ^ 62 → IsTallied rows.now f self.old.counts.entries self.old.bytes → IsTallied rows.now (λ d. f d + one_at digest.now d) self.new.counts.entries self.new.bytes }
    {
        let count = self.count(digest);
        let gained = bytes_where(rows, digest, count == 0);
        self.bytes = self.bytes.saturating_add(gained);
        match self.counts.insert(*digest, count.saturating_add(1)) {
            Ok(_) => {}
            Err(_) => {}
        }
    }

    /// Counts one less for a digest. It takes no memory.
    pub(crate) fn take(&mut self, rows: &Index, digest: &Digest)
        ensures tallied { (f : HashAndSize → ℕ) → sizes rows.now ≤ 2 ^ 62 → IsTallied rows.now (λ d. f d + one_at digest.now d) self.old.counts.entries self.old.bytes → IsTallied rows.now f self.new.counts.entries self.new.bytes }
    {
        let left = self.count(digest).saturating_sub(1);
        let lost = bytes_where(rows, digest, left == 0);
        self.bytes = self.bytes.saturating_sub(lost);
        set_count(&mut self.counts, digest, left);
    }
}

/// How many bytes the row of a digest has, if it has one, and if the test passes.
fn bytes_where(rows: &Index, digest: &Digest, test: bool) -> u64
    ensures distinct { Distinct rows.now }
    ensures small { result < 2 ^ 63 }
    ensures bytes { result ≡ (if test && list_any (is_blob digest.now) rows.now then digest.now.size else 0) }
{
    let has = rows.has(digest);
    if test && has { digest.size } else { 0 }
}

/// Sets the number of a digest that has one, or removes it.
fn set_count(counts: &mut IndexMap<Digest, u64>, digest: &Digest, count: u64)
    ensures { 0 < count_in counts.old.entries digest.now → (d : HashAndSize) → count_in counts.new.entries d ≡ (if same digest.now d then count else count_in counts.old.entries d) }
{
    if count == 0 {
        counts.swap_remove(digest);
    } else {
        match counts.insert(*digest, count) {
            Ok(_) => {}
            Err(_) => {}
        }
    }
}
