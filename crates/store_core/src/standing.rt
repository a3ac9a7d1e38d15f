//! How a lease stands.

ghost use Rattle.std.specs.Prelude.{◌≡◌, ◌&&◌, find, IfOk};
ghost use Rattle.std.specs.Option.{option_map};
ghost use Rattle.store_core.specs.Reach.{blobs, is_dir, reached};
ghost use Rattle.store_core.specs.Standing.{counted, digests_of, is_plain, not_directories, standing, standing_by, wanted};

use crate::event::Standing;
use crate::finding::is_sound;
use crate::order::digests_of;
use crate::reach::{is_deep, is_dir, reached};
use crate::state::Row;
use digest_types::{Digest, Digests};
use directory_canon::Edge;
use proto_wire::OutOfMemory;
use std::alloc::Global;

/// How many pairs besides the root are at most reached.
pub const MAX_PAIRS: usize = 1_000_000;

/// At how many steps from the root a Directory is too deep.
pub const MAX_STEPS: u64 = 128;

/// Whether the digest is that of a sound row without edges.
fn is_plain(rows: &[Row], digest: &Digest) -> bool
    ensures { result ≡ is_plain rows.now digest.now }
{
    rows.iter().any(|row| row.digest == *digest && row.sound && row.edges.is_none())
}

/// The first of ascending pairs that is of kind Dir and not that of a Directory.
fn not_directory(rows: &[Row], pairs: &[Edge]) -> Option<Digest>
    ensures { result ≡ option_map (λ pair. pair.digest) (find (λ pair. is_dir pair && is_plain rows.now pair.digest) pairs.now) }
{
    pairs
        .iter()
        .find(|pair| is_dir(pair) && is_plain(rows, &pair.digest))
        .map(|pair| pair.digest)
}

/// The pairs that count: all of them, or without `files` those of kind Dir.
pub fn counted(alloc: Global, pairs: &[Edge], files: bool) -> Result<Vec<Edge>, OutOfMemory>
    ensures { IfOk result (λ v. v.items ≡ counted files pairs.now) }
{
    let mut counted = Vec::from_slice(alloc, pairs)?;
    counted.retain(|pair| files || is_dir(pair));
    Ok(counted)
}

/// Those of the pairs that count that have no sound row.
fn wanted(
    alloc: Global,
    rows: &[Row],
    pairs: &[Edge],
    files: bool,
) -> Result<Vec<Digest>, OutOfMemory>
    ensures { IfOk result (λ wants. wants.items ≡ wanted rows.now (digests_of (counted files pairs.now))) }
{
    let mut wants = digests_of(alloc, &counted(alloc, pairs, files)?)?;
    wants.retain(|digest| !is_sound(rows, digest));
    Ok(wants)
}

/// How a lease stands that reaches these pairs, and not too many or too deep.
fn standing_by(
    alloc: Global,
    rows: &[Row],
    pairs: &[Edge],
    files: bool,
) -> Result<Standing, OutOfMemory>
    ensures { IfOk result (λ s. s ≡ standing_by (not_directories rows.now pairs.now) (wanted rows.now (digests_of (counted files pairs.now))) (digests_of pairs.now)) }
{
    if let Some(digest) = not_directory(rows, pairs) {
        return Ok(Standing::NotDirectory { digest });
    }
    let wants = wanted(alloc, rows, pairs, files)?;
    if !wants.is_empty() {
        return Ok(Standing::Wants {
            digests: Digests::from_vec(wants),
        });
    }
    Ok(Standing::Complete {
        digests: Digests::from_vec(digests_of(alloc, pairs)?),
    })
}

/// How a lease on this root stands.
pub(crate) fn standing(
    alloc: Global,
    rows: &[Row],
    root: &Edge,
    files: bool,
) -> Result<Standing, OutOfMemory>
    ensures { IfOk result (λ s. s ≡ standing rows.now root.now files) }
{
    let starts = [*root];
    let pairs = reached(alloc, rows, &starts)?;
    if pairs.len() > MAX_PAIRS + 1 {
        return Ok(Standing::TooMany);
    }
    if is_deep(alloc, rows, &starts, &pairs, MAX_STEPS)? {
        return Ok(Standing::TooDeep);
    }
    standing_by(alloc, rows, &pairs, files)
}
