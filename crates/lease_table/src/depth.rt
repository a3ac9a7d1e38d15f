//! How far a lease reaches.

ghost use Rattle.std.specs.Prelude.{◌≡◌, ◌≤◌, ◌-◌, ◌||◌, ◌&&◌, length, take, drop, not, IfOk, OnOk};
ghost use Rattle.std.specs.List.{list_any};
ghost use Rattle.directory_canon.specs.declared.node.Edge.{Edge as Pair};
ghost use Rattle.store_core.specs.Reach.{is_dir, is_deep, reaches, within};
ghost use Rattle.lease_table.specs.Pairs.{has, lead};

use crate::index::Index;
use crate::pairs::Pairs;
use crate::walk::{add_all, links};
use directory_canon::{Edge, Kind};
use proto_wire::OutOfMemory;
use std::alloc::Global;

/// Adds what the pairs from one place up to another lead to. After want of memory some may be added.
fn follow(rows: &Index, pairs: &mut Pairs, from: usize, to: usize) -> Result<(), OutOfMemory>
    requires order { from ≤ to }
    requires end { to ≤ length pairs.old }
    ensures begins { take (length pairs.old) pairs.new ≡ pairs.old }
    ensures adds { OnOk result ((pair : Pair) → has pairs.new pair ≡ (has pairs.old pair || lead rows.now (take (to - from) (drop from pairs.old)) pair)) }
{
    'at: for at in from..to {
        match pairs.get(at) {
            Some(pair) => add_all(pairs, links(rows, &[], &pair))?,
            None => return Ok(()),
        }
    }
    Ok(())
}

/// The pairs to which at most so many steps lead. It ends at the first step that adds none.
fn near(alloc: Global, rows: &Index, starts: &[Edge], steps: u64) -> Result<Pairs, OutOfMemory>
    ensures { IfOk result (λ pairs. (pair : Pair) → has pairs pair ≡ within rows.now starts.now steps pair) }
{
    let mut pairs = Pairs::new(alloc);
    add_all(&mut pairs, starts)?;
    let mut from: usize = 0;
    'steps: for _ in 0..steps {
        let to = pairs.len();
        if from >= to {
            return Ok(pairs);
        }
        follow(rows, &mut pairs, from, to)?;
        from = to;
    }
    Ok(pairs)
}

/// Whether one of the pairs is of kind Dir and not among others.
fn is_further(pairs: &[Edge], near: &Pairs) -> bool
    ensures { result ≡ list_any (λ pair. is_dir pair && not (has near.now pair)) pairs.now }
{
    pairs
        .iter()
        .any(|pair| pair.kind == Kind::Dir && !near.contains(pair))
}

/// Whether some pair of kind Dir, of those that are reached, is at least so many steps from the roots.
pub(crate) fn is_deep(
    alloc: Global,
    rows: &Index,
    starts: &[Edge],
    reached: &[Edge],
    steps: u64,
) -> Result<bool, OutOfMemory>
    requires { (pair : Pair) → has reached.now pair ≡ reaches rows.now starts.now pair }
    ensures { IfOk result (λ deep. deep ≡ is_deep rows.now starts.now steps) }
{
    if steps == 0 {
        let none = Pairs::new(alloc);
        let deep = is_further(reached, &none);
        return Ok(deep);
    }
    let near = near(alloc, rows, starts, steps - 1)?;
    let further = is_further(reached, &near);
    Ok(further)
}
