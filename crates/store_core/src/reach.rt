//! What roots lead to.

ghost use Rattle.std.specs.Prelude.{◌≡◌, ◌≤◌, ◌++◌, ◌||◌, [], map, unwrap_or, IfOk};
ghost use Rattle.std.specs.List.{list_any};
ghost use Rattle.store_core.specs.Reach.{as_dir, as_file, blobs, is_dir, is_pair, links_to, is_reached, reached, is_deep};
ghost use Rattle.store_core.specs.Marks.{near};
ghost use Rattle.store_core.specs.State.{is_held};
ghost use Rattle.store_core.specs.Walk.{has_link, leads, first_marks, next_marks, found_marks, marked_edges, some_further};

use crate::holds::{Holder, is_held};
use crate::order::sort_pairs;
use crate::state::Row;
use digest_types::Digest;
use directory_canon::{Edge, Edges, Kind};
use proto_wire::OutOfMemory;
use std::alloc::Global;

/// A digest, taken as a file's.
fn as_file(digest: &Digest) -> Edge
    ensures { result ≡ as_file digest.now }
{
    Edge {
        kind: Kind::File,
        digest: *digest,
    }
}

/// A digest, taken as a Directory's.
fn as_dir(digest: &Digest) -> Edge
    ensures { result ≡ as_dir digest.now }
{
    Edge {
        kind: Kind::Dir,
        digest: *digest,
    }
}

pub fn is_dir(pair: &Edge) -> bool
    ensures { result ≡ is_dir pair.now }
{
    pair.kind == Kind::Dir
}

/// Whether the pair is among these.
fn is_one_of(pairs: &[Edge], pair: &Edge) -> bool
    ensures { result ≡ list_any (is_pair pair.now) pairs.now }
{
    pairs.iter().any(|other| pair == other)
}

/// Whether a blob with these edges links to the pair.
fn links_to(edges: &Option<Edges>, pair: &Edge) -> bool
    ensures { result ≡ links_to edges.now pair.now }
{
    match edges {
        Some(edges) => is_one_of(edges.as_slice(), pair),
        None => false,
    }
}

/// Whether a row that is marked links to the pair.
fn has_link(rows: &[Row], marks: &[bool], pair: &Edge) -> bool
    ensures { result ≡ has_link rows.now marks.now pair.now }
{
    rows.iter()
        .zip(marks)
        .any(|(row, mark)| *mark && links_to(&row.edges, pair))
}

/// Whether the pair is a root, or a row that is marked links to it: within one step more than the marks.
fn leads(rows: &[Row], starts: &[Edge], marks: &[bool], pair: &Edge) -> bool
    ensures { result ≡ leads rows.now starts.now marks.now pair.now }
{
    is_one_of(starts, pair) || has_link(rows, marks, pair)
}

/// For each row whether it is a root as a Directory.
fn first_marks(alloc: Global, rows: &[Row], starts: &[Edge]) -> Result<Vec<bool>, OutOfMemory>
    ensures { IfOk result (λ marks. marks.items ≡ first_marks rows.now starts.now) }
{
    let marks = rows
        .iter()
        .map(|row| is_one_of(starts, &as_dir(&row.digest)))
        .collect(alloc)?;
    Ok(marks)
}

/// For each row whether it is reached as a Directory within one step more than the marks.
fn next_marks(
    alloc: Global,
    rows: &[Row],
    starts: &[Edge],
    marks: &[bool],
) -> Result<Vec<bool>, OutOfMemory>
    ensures { IfOk result (λ next. next.items ≡ next_marks rows.now starts.now marks.now) }
{
    let next = rows
        .iter()
        .map(|row| leads(rows, starts, marks, &as_dir(&row.digest)))
        .collect(alloc)?;
    Ok(next)
}

/// For each row whether its digest is reached within one step more than the marks, or some owner holds it.
fn found_marks(
    alloc: Global,
    rows: &[Row],
    starts: &[Edge],
    marks: &[bool],
    holds: &[Holder],
) -> Result<Vec<bool>, OutOfMemory>
    ensures { IfOk result (λ found. found.items ≡ found_marks rows.now starts.now marks.now holds.now) }
{
    let found = rows
        .iter()
        .map(|row| {
            leads(rows, starts, marks, &as_file(&row.digest))
                || leads(rows, starts, marks, &as_dir(&row.digest))
                || is_held(holds, &row.digest)
        })
        .collect(alloc)?;
    Ok(found)
}

/// For each row whether it is reached as a Directory within so many steps. It ends at the first step that adds none.
fn near(alloc: Global, rows: &[Row], starts: &[Edge], steps: u64) -> Result<Vec<bool>, OutOfMemory>
    ensures { IfOk result (λ marks. marks.items ≡ near (blobs rows.now) starts.now steps) }
{
    let mut marks = first_marks(alloc, rows, starts)?;
    'steps: for _ in 0..steps {
        let next = next_marks(alloc, rows, starts, &marks)?;
        if next == marks {
            return Ok(marks);
        }
        marks = next;
    }
    Ok(marks)
}

/// For each row whether some owner holds its digest.
fn held_marks(alloc: Global, rows: &[Row], holds: &[Holder]) -> Result<Vec<bool>, OutOfMemory>
    ensures { IfOk result (λ marks. marks.items ≡ map (λ row. is_held holds.now row.digest) rows.now) }
{
    let marks = rows
        .iter()
        .map(|row| is_held(holds, &row.digest))
        .collect(alloc)?;
    Ok(marks)
}

/// For each row whether it is guarded: a root reaches its digest, as a file or as a Directory, or some owner holds it.
pub(crate) fn guarded_rows(
    alloc: Global,
    rows: &[Row],
    starts: &[Edge],
    holds: &[Holder],
) -> Result<Vec<bool>, OutOfMemory>
    ensures { IfOk result (λ marks. marks.items ≡ map (λ row. is_reached (blobs rows.now) starts.now row.digest || is_held holds.now row.digest) rows.now) }
{
    // Without roots there is nothing to walk from.
    if starts.is_empty() {
        return held_marks(alloc, rows, holds);
    }
    let marks = near(alloc, rows, starts, rows.len() as u64)?;
    found_marks(alloc, rows, starts, &marks, holds)
}

/// Adds the edges of a blob.
fn add_edges(pairs: &mut Vec<Edge>, edges: &Option<Edges>) -> Result<(), OutOfMemory>
    ensures { IfOk result (λ _. pairs.new.items ≡ pairs.old.items ++ unwrap_or edges.now []) }
{
    if let Some(edges) = edges {
        pairs.extend_from_slice(edges.as_slice())?;
    }
    Ok(())
}

/// Adds the edges of the rows that are marked.
fn add_marked(pairs: &mut Vec<Edge>, rows: &[Row], marks: &[bool]) -> Result<(), OutOfMemory>
    ensures { IfOk result (λ _. pairs.new.items ≡ pairs.old.items ++ marked_edges rows.now marks.now) }
{
    for (row, mark) in rows.iter().zip(marks) {
        if *mark {
            add_edges(pairs, &row.edges)?;
        }
    }
    Ok(())
}

/// The pairs that are reached, each once, ascending.
pub(crate) fn reached(
    alloc: Global,
    rows: &[Row],
    starts: &[Edge],
) -> Result<Vec<Edge>, OutOfMemory>
    ensures { IfOk result (λ pairs. pairs.items ≡ reached (blobs rows.now) starts.now) }
{
    let marks = near(alloc, rows, starts, rows.len() as u64)?;
    let mut pairs = Vec::from_slice(alloc, starts)?;
    add_marked(&mut pairs, rows, &marks)?;
    sort_pairs(&mut pairs);
    Ok(pairs)
}

/// Whether some pair of kind Dir is no root, and no row that is marked links to it.
fn some_further(rows: &[Row], starts: &[Edge], marks: &[bool], pairs: &[Edge]) -> bool
    ensures { result ≡ some_further rows.now starts.now marks.now pairs.now }
{
    pairs
        .iter()
        .any(|pair| is_dir(pair) && !leads(rows, starts, marks, pair))
}

/// Whether some pair of kind Dir, of those that are reached, is at least so many steps from the roots.
pub(crate) fn is_deep(
    alloc: Global,
    rows: &[Row],
    starts: &[Edge],
    pairs: &[Edge],
    steps: u64,
) -> Result<bool, OutOfMemory>
    requires steps { 2 ≤ steps }
    requires pairs { pairs.now ≡ reached (blobs rows.now) starts.now }
    ensures { IfOk result (λ deep. deep ≡ is_deep (blobs rows.now) starts.now steps) }
{
    // What is nearer is within one step less, to which the marks within two steps less lead.
    let marks = near(alloc, rows, starts, steps - 2)?;
    Ok(some_further(rows, starts, &marks, pairs))
}
