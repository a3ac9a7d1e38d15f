//! Two callers of any door, proved by the clauses of `Door` alone.

ghost use Rattle.std.specs.Prelude.{◌≡◌, ◌≤◌, ◌⊎◌, ◌↔◌, ℕ, List, [], true, false, IsTrue, IfOk, OnErr};
ghost use Rattle.digest_types.specs.Name.{HashAndSize};
ghost use Rattle.store_core.specs.declared.event.Event.{Event};
ghost use Rattle.store_core.specs.declared.event.Reply.{Reply};
ghost use Rattle.blob_store.specs.View.{Turns, StaysOut, MayCall, own_now};
ghost use Rattle.store_tests.specs.Visits.{PutsAndFinds, PutsAtMost, Visits, read_under, IsHeldAtMost};

use blob_store::{Checked, Door, Shelf, ShelfEnd};
use digest_types::{Digest, Digests};
use directory_canon::Kind;
use proto_wire::OutOfMemory;
use std::alloc::Global;

/// Puts a blob and finds its digest: whether nothing is missing then.
pub fn put_then_find<K: Shelf, D: Door<K>>(
    door: &mut D,
    shelf: &mut K,
    blob: Checked<K>,
    alloc: Global,
) -> Result<bool, OutOfMemory>
    requires call { MayCall (D.view door.old) }
    requires turns { 2 ≤ (D.view door.old).left }
    ensures ok { IfOk result (λ all. (missing : List HashAndSize) × PutsAndFinds (D.view door.old) (D.view door.new) blob missing × (IsTrue all ↔ (missing ≡ []))) }
    ensures err { OnErr result (PutsAtMost (D.view door.old) (D.view door.new) blob) }
{
    let digest = blob.digest();
    door.put(shelf, blob)?;
    let digests = Digests::from_vec(Vec::from_slice(alloc, &[digest])?);
    let missing = door.find(&digests)?;
    Ok(missing.is_empty())
}

/// Comes, reads a root under a lease on it, and goes: whether the root is there.
pub fn leased_read<K: Shelf, D: Door<K>>(
    door: &mut D,
    shelf: &mut K,
    root: &Digest,
) -> Result<bool, ShelfEnd>
    requires out { (D.view door.old).entered ≡ false }
    requires turns { 5 ≤ (D.view door.old).left }
    ensures ok { IfOk result (λ found. (id : ℕ) × Visits (D.view door.old) (D.view door.new) 5 (read_under root.now id found)) }
    ensures err { OnErr result (StaysOut (D.view door.old) (D.view door.new) ⊎ ((made : List (Event × Reply)) × IsHeldAtMost root.now made × Visits (D.view door.old) (D.view door.new) 5 made)) }
{
    door.enter()?;
    let found = read_held(door, shelf, root);
    door.leave();
    found
}

// Reads a root under a lease on it.
fn read_held<K: Shelf, D: Door<K>>(
    door: &mut D,
    shelf: &mut K,
    root: &Digest,
) -> Result<bool, ShelfEnd>
    requires is_in { (D.view door.old).entered ≡ true }
    requires turns { 3 ≤ (D.view door.old).left }
    requires none { own_now (D.view door.old) ≡ [] }
    ensures ok { IfOk result (λ found. (id : ℕ) × Turns (D.view door.old) (D.view door.new) 3 (read_under root.now id found)) }
    ensures err { OnErr result ((made : List (Event × Reply)) × IsHeldAtMost root.now made × Turns (D.view door.old) (D.view door.new) 3 made) }
    ensures none { own_now (D.view door.new) ≡ [] }
{
    let id = door.lease(root, Kind::Dir)?;
    let reading = door.read(shelf, root);
    door.release(id);
    Ok(reading?.is_some())
}
