//! The owners that are open.

ghost use Rattle.std.specs.Prelude.{◌≡◌, nat_eq, not, filter};
ghost use Rattle.std.specs.List.{list_any};

/// Whether an owner is among them.
pub fn is_among(owners: &[u64], owner: u64) -> bool
    ensures { result ≡ list_any (nat_eq owner) owners.now }
{
    owners.iter().any(|o| owner == *o)
}

/// Takes an owner out. It takes no memory.
pub fn leave(owners: &mut Vec<u64>, owner: u64)
    ensures { owners.new.items ≡ filter (λ o. not (nat_eq o owner)) owners.old.items }
{
    owners.retain(|o| *o != owner);
}
