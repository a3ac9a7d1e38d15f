//! What leads from pair to pair.

ghost use Rattle.std.specs.Prelude.{◌≡◌, ◌||◌, ◌≤◌, length, take, true, OnOk};
ghost use Rattle.directory_canon.specs.declared.node.Edge.{Edge as Pair};
ghost use Rattle.lease_table.specs.Table.{without};
ghost use Rattle.lease_table.specs.Pairs.{has, leads, IsReach, IsWalked};

use crate::index::{Index, is_among};
use crate::pairs::Pairs;
use digest_types::Digest;
use directory_canon::{Edge, Kind};
use proto_wire::OutOfMemory;

/// What the row of a pair links to, where it is a Directory and isn't among those that go.
pub(crate) fn links<'a>(rows: &'a Index, gone: &[Digest], pair: &Edge) -> &'a [Edge]
    ensures { (other : Pair) → has result.now other ≡ leads (without gone.now rows.now) pair.now other }
{
    match pair.kind {
        Kind::File => &[],
        Kind::Dir => {
            if is_among(gone, &pair.digest) {
                return &[];
            }
            rows.edges_of(&pair.digest)
        }
    }
}

/// Adds pairs, each where it isn't there yet. After want of memory some may be added.
pub(crate) fn add_all(pairs: &mut Pairs, edges: &[Edge]) -> Result<(), OutOfMemory>
    ensures begins { take (length pairs.old) pairs.new ≡ pairs.old }
    ensures adds { OnOk result ((pair : Pair) → has pairs.new pair ≡ (has pairs.old pair || has edges.now pair)) }
{
    'edges: for edge in edges {
        pairs.insert(edge)?;
    }
    Ok(())
}

/// Adds all that the pairs from a place on lead to, where those before it were followed, among the rows but those that
/// go. After want of memory some may be added.
pub(crate) fn walk(
    rows: &Index,
    gone: &[Digest],
    pairs: &mut Pairs,
    root: &Edge,
    from: usize,
) -> Result<(), OutOfMemory>
    requires { IsWalked (without gone.now rows.now) root.now pairs.old from }
    ensures begins { take (length pairs.old) pairs.new ≡ pairs.old }
    ensures exact { OnOk result (IsReach (without gone.now rows.now) root.now pairs.new) }
{
    'at: for at in from..usize::MAX {
        match pairs.get(at) {
            Some(pair) => add_all(pairs, links(rows, gone, &pair))?,
            None => return Ok(()),
        }
    }
    // No set has so many pairs.
    let _ = pairs.len();
    Ok(())
}
