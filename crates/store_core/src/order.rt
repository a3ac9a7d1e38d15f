//! Pairs and digests in order.

ghost use Rattle.std.specs.Prelude.{◌≡◌, map, IfOk};
ghost use Rattle.directory_canon.specs.Tree.{digest_cmp};
ghost use Rattle.store_core.specs.Ascending.{ascending};
ghost use Rattle.store_core.specs.Reach.{pair_cmp};
ghost use Rattle.store_core.specs.Standing.{digests_of};

use crate::digests::is_empty_blob;
use digest_types::Digest;
use directory_canon::Edge;
use proto_wire::OutOfMemory;
use std::alloc::Global;
use std::cmp::Ordering;

/// How two pairs compare: by digest, and at one digest a file comes before a Directory.
fn order(a: &Edge, b: &Edge) -> Ordering
    ensures { result ≡ pair_cmp a.now b.now }
{
    a.digest.cmp(&b.digest).then(a.kind.cmp(&b.kind))
}

/// Brings pairs into ascending order, and keeps one of each. It takes no memory.
pub fn sort_pairs(pairs: &mut Vec<Edge>)
    ensures { pairs.new.items ≡ ascending pair_cmp pairs.old.items }
{
    pairs.sort_unstable_by(|a, b| order(a, b));
    pairs.dedup();
}

/// Brings digests into ascending order, and keeps one of each. It takes no memory.
fn sort_digests(digests: &mut Vec<Digest>)
    ensures { digests.new.items ≡ ascending digest_cmp digests.old.items }
{
    digests.sort_unstable();
    digests.dedup();
}

/// The digest of each pair.
fn all_digests(alloc: Global, pairs: &[Edge]) -> Result<Vec<Digest>, OutOfMemory>
    ensures { IfOk result (λ digests. digests.items ≡ map (λ pair. pair.digest) pairs.now) }
{
    Ok(pairs.iter().map(|pair| pair.digest).collect(alloc)?)
}

/// The distinct digests of the pairs but the empty blob's, ascending.
pub fn digests_of(alloc: Global, pairs: &[Edge]) -> Result<Vec<Digest>, OutOfMemory>
    ensures { IfOk result (λ digests. digests.items ≡ digests_of pairs.now) }
{
    let mut digests = all_digests(alloc, pairs)?;
    sort_digests(&mut digests);
    digests.retain(|digest| !is_empty_blob(digest));
    Ok(digests)
}
