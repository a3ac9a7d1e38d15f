//! The leases that stand.

ghost use Rattle.std.specs.Prelude.{◌≡◌, not, filter, find, ◌&&◌, IfOk};
ghost use Rattle.std.specs.List.{list_any};
ghost use Rattle.store_core.specs.State.{has_id, is_of_owner, roots};

use crate::state::Lease;
use directory_canon::Edge;
use proto_wire::OutOfMemory;
use std::alloc::Global;

/// Whether an owner has a lease.
pub fn has_lease(leases: &[Lease], owner: u64) -> bool
    ensures { result ≡ list_any (is_of_owner owner) leases.now }
{
    leases.iter().any(|lease| lease.owner == owner)
}

/// The lease with this number, where it is the owner's.
pub fn own_lease(leases: &[Lease], owner: u64, id: u64) -> Option<Lease>
    ensures { result ≡ find (λ lease. has_id id lease && is_of_owner owner lease) leases.now }
{
    leases
        .iter()
        .find(|lease| lease.id == id && lease.owner == owner)
        .copied()
}

/// Takes the lease with this number away. It takes no memory.
pub fn release(leases: &mut Vec<Lease>, id: u64)
    ensures { leases.new.items ≡ filter (λ other. not (has_id id other)) leases.old.items }
{
    leases.retain(|lease| lease.id != id);
}

/// The roots of the leases.
pub(crate) fn roots(alloc: Global, leases: &[Lease]) -> Result<Vec<Edge>, OutOfMemory>
    ensures { IfOk result (λ edges. edges.items ≡ roots leases.now) }
{
    let mut edges = Vec::new(alloc);
    for lease in leases {
        edges.push(lease.root)?;
    }
    Ok(edges)
}
