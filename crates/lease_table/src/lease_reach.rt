//! `LeaseReach`.

ghost use Rattle.std.specs.Prelude.{◌≡◌, ◌+◌, ◌-◌, ◌<◌, ◌≤◌, ◌^◌, ℕ, length, take, true, false};
ghost use Rattle.indexmap.specs.IndexMap.{spare};
ghost use Rattle.digest_types.specs.Name.{HashAndSize};
ghost use Rattle.lease_table.specs.Table.{sizes};
ghost use Rattle.lease_table.specs.Tallies.{touch, other_kind, IsTallied};
ghost use Rattle.lease_table.specs.Pairs.{has};

use crate::index::Index;
use crate::pairs::Pairs;
use crate::table_lease::TableLease;
use crate::tally::Tally;
use directory_canon::{Edge, Kind};

/// A lease with the pairs that it reaches, of which the first `len` are in the tally.
#[derive(Debug, Drop)]
pub(crate) struct LeaseReach {
    pub(crate) lease: TableLease,
    pub(crate) pairs: Pairs,
    pub(crate) len: usize,
}

/// The pair of the same digest and the other kind.
fn other_kind(pair: &Edge) -> Edge
    ensures { result ≡ other_kind pair.now }
{
    let kind = match pair.kind {
        Kind::File => Kind::Dir,
        Kind::Dir => Kind::File,
    };
    Edge {
        kind,
        digest: pair.digest,
    }
}

/// Whether the digest of the pair at a place stands before it, in the other kind.
fn is_before(pairs: &Pairs, place: usize, pair: &Edge) -> bool
    ensures { result ≡ has (take place pairs.now) (other_kind pair.now) }
{
    match pairs.place_of(&other_kind(pair)) {
        Some(other) => other < place,
        None => false,
    }
}

/// Counts the pairs that aren't counted yet.
pub(crate) fn count_pairs(rows: &Index, tally: &mut Tally, reach: &mut LeaseReach)
    requires { length reach.old.pairs - reach.old.len ≤ spare tally.old.counts }
    ensures reach { reach.new ≡ record reach.old { len = length reach.old.pairs } }
    ensures spare { spare tally.old.counts ≤ spare tally.new.counts + (length reach.old.pairs - reach.old.len) }
    ensures tallied { (f : HashAndSize → ℕ) → ((d : HashAndSize) → f d < 2 ^ 64 - 1) → sizes rows.now ≤ 2 ^ 62 → IsTallied rows.now (λ d. f d + touch (take reach.old.len reach.old.pairs) d) tally.old.counts.entries tally.old.bytes → IsTallied rows.now (λ d. f d + touch reach.old.pairs d) tally.new.counts.entries tally.new.bytes }
{
    let len = reach.pairs.len();
    'pairs: for at in reach.len..len {
        if let Some(pair) = reach.pairs.get(at) {
            if !is_before(&reach.pairs, at, &pair) {
                tally.add(rows, &pair.digest);
            }
        }
    }
    reach.len = len;
}

/// Counts none of the pairs.
pub(crate) fn uncount_pairs(rows: &Index, tally: &mut Tally, reach: &mut LeaseReach)
    ensures reach { reach.new ≡ record reach.old { len = 0 } }
    ensures tallied { (f : HashAndSize → ℕ) → sizes rows.now ≤ 2 ^ 62 → IsTallied rows.now (λ d. f d + touch (take reach.old.len reach.old.pairs) d) tally.old.counts.entries tally.old.bytes → IsTallied rows.now f tally.new.counts.entries tally.new.bytes }
{
    let len = reach.pairs.len().min(reach.len);
    'pairs: for done in 0..len {
        let at = len - 1 - done;
        if let Some(pair) = reach.pairs.get(at) {
            if !is_before(&reach.pairs, at, &pair) {
                tally.take(rows, &pair.digest);
            }
        }
    }
    reach.len = 0;
}
