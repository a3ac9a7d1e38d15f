//! The leases with what they reach, taken together.

ghost use Rattle.std.specs.Prelude.{◌≡◌, ◌+◌, ◌-◌, ◌<◌, ◌≤◌, ◌^◌, ◌∷◌, ◌++◌, ℕ, [], Some, length, take, not, filter, true, false, if◌then◌else◌, IfSome, IfOk, OnOk, OnErr};
ghost use Rattle.std.specs.Vec.{vec_len, vec_capacity};
ghost use Rattle.std.specs.Option.{option_copied};
ghost use Rattle.indexmap.specs.IndexMap.{spare};
ghost use Rattle.digest_types.specs.Name.{HashAndSize};
ghost use Rattle.lease_table.specs.Table.{sizes, has_id, roots, without, others};
ghost use Rattle.store_core.specs.Reach.{as_dir};
ghost use Rattle.lease_table.specs.Tallies.{count_in, IsTallied};
ghost use Rattle.lease_table.specs.Pairs.{has, IsReach};
ghost use Rattle.lease_table.specs.LeaseReaches.{leases_of, pairs_of, share, shares, wholes, total_in, uncounted, AreReached, AreFull};

use crate::index::Index;
use crate::lease_reach::{LeaseReach, count_pairs, uncount_pairs};
use crate::pairs::Pairs;
use crate::table_lease::TableLease;
use crate::tally::Tally;
use crate::walk::{add_all, walk};
use digest_types::Digest;
use directory_canon::{Edge, Edges, Kind};
use proto_wire::OutOfMemory;
use std::alloc::{AllocError, Global};

/// Adds to a lease that reaches the last row, as a Directory, what it reaches by that, among the rows but those that go.
fn extend(
    rows: &Index,
    gone: &[Digest],
    reach: &mut LeaseReach,
    digest: &Digest,
    edges: &[Edge],
) -> Result<(), OutOfMemory>
    requires last { without gone.now rows.now ≡ others digest.now (without gone.now rows.now) ++ record { digest = digest.now; edges = Some edges.now } ∷ [] }
    requires there { has reach.old.pairs (as_dir digest.now) ≡ true }
    requires full { reach.old.len ≡ length reach.old.pairs }
    requires reach { IsReach (others digest.now (without gone.now rows.now)) reach.old.lease.root reach.old.pairs }
    ensures same { share reach.new ≡ share reach.old }
    ensures ok { OnOk result (IsReach (without gone.now rows.now) reach.new.lease.root reach.new.pairs) }
{
    let from = reach.pairs.len();
    let root = reach.lease.root;
    add_all(&mut reach.pairs, edges)?;
    walk(rows, gone, &mut reach.pairs, &root, from)
}

/// Adds to the leases what they reach by the last row, among the rows but those that go. After want of memory some may be done.
fn grow(
    rows: &Index,
    gone: &[Digest],
    kept: &mut Vec<LeaseReach>,
    digest: &Digest,
    edges: &[Edge],
) -> Result<(), OutOfMemory>
    requires last { without gone.now rows.now ≡ others digest.now (without gone.now rows.now) ++ record { digest = digest.now; edges = Some edges.now } ∷ [] }
    requires full { AreFull kept.old.items }
    requires reached { AreReached (others digest.now (without gone.now rows.now)) (shares kept.old.items) }
    ensures same { shares kept.new.items ≡ shares kept.old.items }
    ensures ok { OnOk result (AreReached (without gone.now rows.now) (wholes kept.new.items)) }
{
    let pair = Edge {
        kind: Kind::Dir,
        digest: *digest,
    };
    'kept: for i in 0..kept.len() {
        if kept[i].pairs.contains(&pair) {
            extend(rows, gone, &mut kept[i], digest, edges)?;
        }
    }
    Ok(())
}

/// Takes back what isn't counted. It takes no memory.
pub(crate) fn cut(kept: &mut Vec<LeaseReach>)
    ensures same { shares kept.new.items ≡ shares kept.old.items }
    ensures full { AreFull kept.new.items }
{
    'kept: for i in 0..kept.len() {
        let reach = &mut kept[i];
        reach.pairs.truncate(reach.len);
        reach.len = reach.pairs.len();
    }
}

/// How many pairs aren't counted.
fn uncounted(kept: &[LeaseReach]) -> Option<usize>
    ensures { IfSome result (λ n. n ≡ uncounted kept.now) }
{
    let mut sum: usize = 0;
    'kept: for reach in kept {
        sum = sum.checked_add(reach.pairs.len().saturating_sub(reach.len))?;
    }
    Some(sum)
}

/// Counts all pairs. It takes no memory.
fn count_all(rows: &Index, tally: &mut Tally, kept: &mut Vec<LeaseReach>)
    requires room { uncounted kept.old.items ≤ spare tally.old.counts }
    requires small { sizes rows.now ≤ 2 ^ 62 }
    ensures wholes { shares kept.new.items ≡ wholes kept.old.items }
    ensures full { AreFull kept.new.items }
    ensures spare { spare tally.old.counts ≤ spare tally.new.counts + uncounted kept.old.items }
    ensures tallied { (others : HashAndSize → ℕ) → ((d : HashAndSize) → others d < 2 ^ 63) → IsTallied rows.now (λ d. total_in (shares kept.old.items) d + others d) tally.old.counts.entries tally.old.bytes → IsTallied rows.now (λ d. total_in (shares kept.new.items) d + others d) tally.new.counts.entries tally.new.bytes }
{
    'kept: for i in 0..kept.len() {
        count_pairs(rows, tally, &mut kept[i]);
    }
}

/// Counts all pairs, where there may be some that aren't counted. It takes no memory.
pub(crate) fn count_grown(rows: &Index, tally: &mut Tally, kept: &mut Vec<LeaseReach>, grown: bool)
    requires still { grown ≡ false → AreFull kept.old.items }
    requires room { uncounted kept.old.items ≤ spare tally.old.counts }
    requires small { sizes rows.now ≤ 2 ^ 62 }
    ensures wholes { shares kept.new.items ≡ wholes kept.old.items }
    ensures full { AreFull kept.new.items }
    ensures spare { spare tally.old.counts ≤ spare tally.new.counts + uncounted kept.old.items }
    ensures tallied { (others : HashAndSize → ℕ) → ((d : HashAndSize) → others d < 2 ^ 63) → IsTallied rows.now (λ d. total_in (shares kept.old.items) d + others d) tally.old.counts.entries tally.old.bytes → IsTallied rows.now (λ d. total_in (shares kept.new.items) d + others d) tally.new.counts.entries tally.new.bytes }
{
    if grown {
        count_all(rows, tally, kept);
    }
}

/// Gives up the leases with this number. It takes no memory.
pub(crate) fn release(rows: &Index, tally: &mut Tally, kept: &mut Vec<LeaseReach>, id: u64)
    requires small { sizes rows.now ≤ 2 ^ 62 }
    ensures left { kept.new.items ≡ filter (λ reach. not (has_id id reach.lease)) kept.old.items }
    ensures tallied { (others : HashAndSize → ℕ) → IsTallied rows.now (λ d. total_in (shares kept.old.items) d + others d) tally.old.counts.entries tally.old.bytes → IsTallied rows.now (λ d. total_in (shares kept.new.items) d + others d) tally.new.counts.entries tally.new.bytes }
{
    'kept: for i in 0..kept.len() {
        if kept[i].lease.id == id {
            uncount_pairs(rows, tally, &mut kept[i]);
        }
    }
    kept.retain(|reach| reach.lease.id != id);
}

/// Adds to the leases what they reach by the last row, and answers whether that may be something: a row that has no
/// edges, or that no lease counts, changes nothing. After want of memory some may be done.
fn grow_by(
    rows: &Index,
    gone: &[Digest],
    tally: &Tally,
    kept: &mut Vec<LeaseReach>,
    digest: &Digest,
    edges: Option<&Edges>,
) -> Result<bool, OutOfMemory>
    requires last { without gone.now rows.now ≡ others digest.now (without gone.now rows.now) ++ record { digest = digest.now; edges = option_copied edges } ∷ [] }
    requires full { AreFull kept.old.items }
    requires reached { AreReached (others digest.now (without gone.now rows.now)) (shares kept.old.items) }
    requires counted { count_in tally.now.counts.entries digest.now ≡ total_in (shares kept.old.items) digest.now }
    ensures same { shares kept.new.items ≡ shares kept.old.items }
    ensures ok { OnOk result (AreReached (without gone.now rows.now) (wholes kept.new.items)) }
    ensures still { IfOk result (λ grown. grown ≡ false → AreFull kept.new.items) }
{
    if tally.count(digest) == 0 {
        return Ok(false);
    }
    match edges {
        Some(edges) => {
            grow(rows, gone, kept, digest, edges.as_slice())?;
            Ok(true)
        }
        None => Ok(false),
    }
}

/// How many counts may be new: one for each pair that isn't counted, and one for a hold.
fn more_counts(kept: &[LeaseReach], grown: bool) -> Option<usize>
    requires still { grown ≡ false → AreFull kept.now }
    ensures { IfSome result (λ n. n ≡ uncounted kept.now + 1) }
{
    if grown {
        uncounted(kept)?.checked_add(1)
    } else {
        Some(1)
    }
}

/// Makes room for the counts of all pairs that aren't counted, and for that of a hold.
fn reserve(tally: &mut Tally, kept: &[LeaseReach], grown: bool) -> Result<(), OutOfMemory>
    requires still { grown ≡ false → AreFull kept.now }
    ensures counts { tally.new.counts.entries ≡ tally.old.counts.entries }
    ensures bytes { tally.new.bytes ≡ tally.old.bytes }
    ensures ok { OnOk result (uncounted kept.now < spare tally.new.counts) }
{
    match more_counts(kept, grown) {
        Some(more) => tally.reserve(more),
        None => Err(OutOfMemory::from(AllocError)),
    }
}

/// Adds a lease, with what it reaches, none of which is counted yet. It takes no memory.
pub(crate) fn take_up(
    rows: &Index,
    tally: &mut Tally,
    kept: &mut Vec<LeaseReach>,
    reach: LeaseReach,
)
    requires none { reach.len ≡ 0 }
    requires room { length reach.pairs ≤ spare tally.old.counts }
    requires place { vec_len kept.old < vec_capacity kept.old }
    requires small { sizes rows.now ≤ 2 ^ 62 }
    ensures kept { kept.new.items ≡ kept.old.items ++ record reach { len = length reach.pairs } ∷ [] }
    ensures tallied { (others : HashAndSize → ℕ) → ((d : HashAndSize) → others d < 2 ^ 63) → IsTallied rows.now (λ d. total_in (shares kept.old.items) d + others d) tally.old.counts.entries tally.old.bytes → IsTallied rows.now (λ d. total_in (shares kept.new.items) d + others d) tally.new.counts.entries tally.new.bytes }
{
    let mut reach = reach;
    count_pairs(rows, tally, &mut reach);
    kept.push_reserved(reach);
}

/// Adds to the leases what they reach by the last row, among the rows but those that go, makes room for its counts and
/// for that of a hold, and answers whether that may be something. After want of memory all is as before.
pub(crate) fn prepare(
    rows: &Index,
    gone: &[Digest],
    tally: &mut Tally,
    kept: &mut Vec<LeaseReach>,
    digest: &Digest,
    edges: Option<&Edges>,
) -> Result<bool, OutOfMemory>
    requires last { without gone.now rows.now ≡ others digest.now (without gone.now rows.now) ++ record { digest = digest.now; edges = option_copied edges } ∷ [] }
    requires full { AreFull kept.old.items }
    requires reached { AreReached (others digest.now (without gone.now rows.now)) (shares kept.old.items) }
    requires counted { count_in tally.old.counts.entries digest.now ≡ total_in (shares kept.old.items) digest.now }
    ensures counts { tally.new.counts.entries ≡ tally.old.counts.entries }
    ensures bytes { tally.new.bytes ≡ tally.old.bytes }
    ensures same { shares kept.new.items ≡ shares kept.old.items }
    ensures reached { OnOk result (AreReached (without gone.now rows.now) (wholes kept.new.items)) }
    ensures room { OnOk result (uncounted kept.new.items < spare tally.new.counts) }
    ensures still { IfOk result (λ grown. grown ≡ false → AreFull kept.new.items) }
    ensures full { OnErr result (AreFull kept.new.items) }
{
    match grow_by(rows, gone, tally, kept, digest, edges) {
        Ok(grown) => match reserve(tally, kept, grown) {
            Ok(()) => Ok(grown),
            Err(e) => {
                cut(kept);
                Err(e)
            }
        },
        Err(e) => {
            cut(kept);
            Err(e)
        }
    }
}

/// A lease with what it reaches, none of which is counted.
pub(crate) fn reach_of(
    alloc: Global,
    rows: &Index,
    lease: TableLease,
) -> Result<LeaseReach, OutOfMemory>
    ensures lease { IfOk result (λ reach. reach.lease ≡ lease) }
    ensures none { IfOk result (λ reach. reach.len ≡ 0) }
    ensures reach { IfOk result (λ reach. IsReach rows.now lease.root reach.pairs) }
{
    let mut pairs = Pairs::new(alloc);
    pairs.insert(&lease.root)?;
    walk(rows, &[], &mut pairs, &lease.root, 0)?;
    Ok(LeaseReach {
        lease,
        pairs,
        len: 0,
    })
}

/// Adds pairs to a list.
fn append(pairs: &Pairs, all: &mut Vec<Edge>) -> Result<(), OutOfMemory>
    ensures { OnOk result (all.new.items ≡ all.old.items ++ pairs.now) }
{
    'pairs: for at in 0..pairs.len() {
        match pairs.get(at) {
            Some(pair) => all.push(pair)?,
            None => return Ok(()),
        }
    }
    Ok(())
}

/// Adds the pairs of a lease to a list, if it has this number.
fn append_if(reach: &LeaseReach, id: u64, all: &mut Vec<Edge>) -> Result<(), OutOfMemory>
    ensures { OnOk result (all.new.items ≡ all.old.items ++ (if has_id id reach.now.lease then reach.now.pairs else [])) }
{
    if reach.lease.id == id {
        append(&reach.pairs, all)
    } else {
        Ok(())
    }
}

/// The pairs that the leases with this number reach.
pub(crate) fn pairs_of(
    alloc: Global,
    kept: &[LeaseReach],
    id: u64,
) -> Result<Vec<Edge>, OutOfMemory>
    ensures { IfOk result (λ all. all.items ≡ pairs_of id kept.now) }
{
    let mut all = Vec::new(alloc);
    'kept: for reach in kept {
        append_if(reach, id, &mut all)?;
    }
    Ok(all)
}

/// The roots of the leases with this number.
pub(crate) fn roots_of(
    alloc: Global,
    kept: &[LeaseReach],
    id: u64,
) -> Result<Vec<Edge>, OutOfMemory>
    ensures { IfOk result (λ all. all.items ≡ roots (filter (has_id id) (leases_of kept.now))) }
{
    let mut all = Vec::new(alloc);
    'kept: for reach in kept {
        if reach.lease.id == id {
            all.push(reach.lease.root)?;
        }
    }
    Ok(all)
}
