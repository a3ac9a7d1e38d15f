//! The program `lease_bench`: a lease table of so many rows, with 100 leases on trees of 1,000 rows, is changed so many
//! times. `bench/leases` times it.
#![tactic(auto)]

ghost use Rattle.std.specs.Prelude.{◌≡◌, ◌≤◌, []};
ghost use Rattle.lease_table.specs.Table.{sizes, IsPassed};

use digest_types::{Digest, Digests};
use directory_canon::{Edge, Edges, Kind};
use lease_table::{LeaseTable, UseOrder};
use std::alloc::Global;
use std::env;
use std::process::ExitCode;

/// How many trees there are.
const TREES: u32 = 9;

/// How many rows a tree has: its root, its folders and their files.
const ROWS: u32 = 1_000;

/// How many folders a tree has.
const FOLDERS: u32 = 30;

const LEASES: u32 = 100;

/// How many rows a pass removes.
const VICTIMS: u64 = 10_000;

/// How many bytes are put at most.
const MOST: u64 = 1 << 32;

/// The digest of a blob of one byte, by its number.
fn digest(number: u32) -> Digest {
    let mut hash = [0; 32];
    for (byte, part) in hash.iter_mut().zip(number.to_be_bytes()) {
        *byte = part;
    }
    Digest { hash, size: 1 }
}

fn edge(kind: Kind, number: u32) -> Edge {
    Edge {
        kind,
        digest: digest(number),
    }
}

/// What a row of a tree links to, by its number in the tree: the root to the folders, and a folder to its files.
fn edges(alloc: Global, first: u32, row: u32) -> Option<Edges> {
    let mut edges = Edges::new(alloc);
    if row > FOLDERS {
        return None;
    }
    for other in 1..ROWS {
        let number = first.saturating_add(other);
        if row == 0 && other <= FOLDERS {
            edges.push(edge(Kind::Dir, number)).ok()?;
        }
        if row > 0 && other > FOLDERS && other % FOLDERS == row % FOLDERS {
            edges.push(edge(Kind::File, number)).ok()?;
        }
    }
    Some(edges)
}

/// The table, the order of use, and how many bytes were put in all.
#[derive(Drop)]
struct Kept {
    table: LeaseTable,
    order: UseOrder,
    bytes: u64,
    ghost total: { sizes table.blobs ≤ bytes },
}

/// Puts a row into the table.
#[tactic(auto, using(lease_table::proofs::TableLaws::smaller))]
fn add_row(kept: &mut Kept, digest: &Digest, edges: Option<&Edges>, none: &Digests) -> Option<()>
    requires { none.now ≡ [] }
{
    let size = digest.size;
    if kept.bytes >= MOST || size >= MOST || kept.table.has_row(digest) {
        return None;
    }
    match kept.table.on_put(digest, edges, none, None) {
        Ok(()) => {
            kept.bytes += size;
            Some(())
        }
        Err(_) => None,
    }
}

/// Puts a row into the table and the order of use.
fn put(alloc: Global, kept: &mut Kept, digest: &Digest, edges: Option<&Edges>) -> Option<()> {
    add_row(kept, digest, edges, &Digests::new(alloc))?;
    if kept.order.has(digest) {
        return None;
    }
    kept.order.add(*digest).ok()
}

/// Takes a lease on a tree, by the number of its root.
fn take_lease(kept: &mut Kept, id: u64, root: u32) -> Option<()> {
    kept.table.lease(id, digest(root), Kind::Dir).ok()
}

/// A table of all trees with their leases, and of rows in no tree, so many in all.
fn filled(alloc: Global, rows: u32) -> Option<Kept> {
    let mut kept = Kept {
        table: LeaseTable::new(alloc),
        order: UseOrder::new(alloc),
        bytes: 0,
    };
    for tree in 0..TREES {
        let first = tree.saturating_mul(ROWS);
        for row in 0..ROWS {
            let edges = edges(alloc, first, row);
            let number = first.saturating_add(row);
            put(alloc, &mut kept, &digest(number), edges.as_ref())?;
        }
    }
    for number in TREES.saturating_mul(ROWS)..rows {
        put(alloc, &mut kept, &digest(number), None)?;
    }
    for lease in 0..LEASES {
        let root = (lease % TREES).saturating_mul(ROWS);
        take_lease(&mut kept, u64::from(lease), root)?;
    }
    Some(kept)
}

/// A row is removed, if it isn't guarded.
fn remove_one(kept: &mut Kept, digest: &Digest) -> Option<()> {
    if kept.table.is_guarded(digest) {
        return None;
    }
    kept.table.on_remove(digest);
    kept.order.remove(digest);
    Some(())
}

/// A row is put, and removed.
fn put_and_remove(alloc: Global, kept: &mut Kept, number: u32) -> Option<()> {
    put(alloc, kept, &digest(number), None)?;
    remove_one(kept, &digest(number))
}

/// A lease on a tree is taken and released.
fn lease_one(kept: &mut Kept, number: u32) -> Option<()> {
    let id = u64::from(LEASES).saturating_add(u64::from(number));
    take_lease(kept, id, 0)?;
    kept.table.release(id);
    Some(())
}

/// A row is used, if it is there.
fn touch_one(kept: &mut Kept, digest: &Digest) -> Option<()> {
    if !kept.order.has(digest) {
        return None;
    }
    kept.order.touch(digest);
    Some(())
}

/// The rows of a tree are looked up, and then used.
fn find_all(kept: &mut Kept, first: u32) -> Option<()> {
    for row in 0..ROWS {
        if !kept.table.has_row(&digest(first.saturating_add(row))) {
            return None;
        }
    }
    for row in 0..ROWS {
        touch_one(kept, &digest(first.saturating_add(row)))?;
    }
    Some(())
}

/// Removes the least recently used row that isn't guarded, where a pass goes on.
#[tactic(auto, using(lease_table::proofs::PassLaws::passed_alike))]
fn remove_next(kept: &mut Kept, from: &mut Option<Digest>) -> Option<()>
    requires { IsPassed kept.old.table kept.old.order from.old }
    ensures { IsPassed kept.new.table kept.new.order from.new }
{
    let digest = kept.order.take_next(&kept.table, from)?;
    if kept.table.is_guarded(&digest) {
        return None;
    }
    kept.table.on_remove(&digest);
    Some(())
}

/// A pass that removes so many rows, each of one byte, or all that it may where there are fewer.
fn pass(kept: &mut Kept) -> Option<()> {
    let used = kept.order.len() as u64;
    let count = kept
        .order
        .victims(&kept.table, used, used.saturating_sub(VICTIMS));
    let mut from = None;
    'victims: for _ in 0..count {
        remove_next(kept, &mut from)?;
    }
    Some(())
}

/// Changes the table by a word: put, remove, lease, touch, find or pass.
fn change(alloc: Global, kept: &mut Kept, kind: &str, number: u32) -> Option<()> {
    match kind {
        "put" => put(alloc, kept, &digest(number), None),
        "remove" => put_and_remove(alloc, kept, number),
        "lease" => lease_one(kept, number),
        "touch" => touch_one(kept, &digest(number % ROWS)),
        "find" => find_all(kept, (number % TREES).saturating_mul(ROWS)),
        "pass" => pass(kept),
        _ => None,
    }
}

/// How many rows there are in the end, by the words: a change, how many times it is made, and how many rows there are
/// before.
fn run(rt: &HostRuntime) -> Option<u64> {
    let alloc = rt.alloc();
    let mut words = env::args(rt).ok()?;
    let _ = words.next();
    let kind = words.next()?;
    let times = words.next()?.parse::<u32>().ok()?;
    let rows = words.next()?.parse::<u32>().ok()?;
    let mut kept = filled(alloc, rows)?;
    for time in 0..times {
        change(alloc, &mut kept, kind.as_str(), rows.saturating_add(time))?;
    }
    Some(kept.order.len() as u64)
}

fn main(rt: HostRuntime) -> ExitCode {
    match run(&rt) {
        Some(count) => {
            let _ = println!(rt; "{count}");
            ExitCode::SUCCESS
        }
        None => ExitCode::FAILURE,
    }
}
