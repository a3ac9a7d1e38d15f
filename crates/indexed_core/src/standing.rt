//! How a lease stands.

ghost use Rattle.std.specs.Prelude.{◌≡◌, ◌&&◌, ◌∷◌, [], find, filter, IfOk};
ghost use Rattle.std.specs.Option.{option_map};
ghost use Rattle.directory_canon.specs.declared.node.Edge.{Edge};
ghost use Rattle.store_core.specs.Reach.{is_dir};
ghost use Rattle.store_core.specs.Standing.{counted, digests_of, is_plain, not_directories, standing, standing_by, wanted};
ghost use Rattle.lease_table.specs.Table.{has_id, roots};

use crate::index::Index;
use digest_types::{Digest, Digests};
use directory_canon::Edge;
use proto_wire::OutOfMemory;
use std::alloc::Global;
use store_core::{MAX_PAIRS, MAX_STEPS, Standing, counted, digests_of, is_dir};

/// The first of ascending pairs that is of kind Dir and not that of a Directory.
fn not_directory(index: &Index, pairs: &[Edge]) -> Option<Digest>
    ensures { result ≡ option_map (λ pair. pair.digest) (find (λ pair. is_dir pair && is_plain index.now.rows pair.digest) pairs.now) }
{
    pairs
        .iter()
        .find(|pair| is_dir(pair) && index.is_plain(&pair.digest))
        .map(|pair| pair.digest)
}

/// Those of the pairs that count that have no sound row.
fn wanted(
    alloc: Global,
    index: &Index,
    pairs: &[Edge],
    files: bool,
) -> Result<Vec<Digest>, OutOfMemory>
    ensures { IfOk result (λ wants. wants.items ≡ wanted index.now.rows (digests_of (counted files pairs.now))) }
{
    let mut wants = digests_of(alloc, &counted(alloc, pairs, files)?)?;
    wants.retain(|digest| !index.is_sound(digest));
    Ok(wants)
}

/// How a lease stands that reaches these pairs, and not too many or too deep.
fn standing_by(
    alloc: Global,
    index: &Index,
    pairs: &[Edge],
    files: bool,
) -> Result<Standing, OutOfMemory>
    ensures { IfOk result (λ s. s ≡ standing_by (not_directories index.now.rows pairs.now) (wanted index.now.rows (digests_of (counted files pairs.now))) (digests_of pairs.now)) }
{
    if let Some(digest) = not_directory(index, pairs) {
        return Ok(Standing::NotDirectory { digest });
    }
    let wants = wanted(alloc, index, pairs, files)?;
    if !wants.is_empty() {
        return Ok(Standing::Wants {
            digests: Digests::from_vec(wants),
        });
    }
    Ok(Standing::Complete {
        digests: Digests::from_vec(digests_of(alloc, pairs)?),
    })
}

/// How the lease with this number stands.
pub(crate) fn standing(
    alloc: Global,
    index: &Index,
    id: u64,
    files: bool,
) -> Result<Standing, OutOfMemory>
    ensures { IfOk result (λ s. (root : Edge) → roots (filter (has_id id) index.now.guards.leases) ≡ root ∷ [] → s ≡ standing index.now.rows root files) }
{
    let pairs = index.reached(id)?;
    if pairs.len() > MAX_PAIRS + 1 {
        return Ok(Standing::TooMany);
    }
    if index.is_deep(id, MAX_STEPS)? {
        return Ok(Standing::TooDeep);
    }
    standing_by(alloc, index, pairs.as_slice(), files)
}
