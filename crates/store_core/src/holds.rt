//! What owners hold under the session guard.

ghost use Rattle.std.specs.Prelude.{◌≡◌, false, position, OnOk, OnErr, IsOk};
ghost use Rattle.store_core.specs.State.{is_among, is_holder, is_held, is_session, with_digest, with_hold, other_holds};
ghost use Rattle.store_core.specs.Step.{holds_after};

use crate::digests::{is_among, is_empty_blob};
use crate::state::Guard;
use digest_types::Digest;
use proto_wire::OutOfMemory;
use std::alloc::Global;
use std::marker::Model;

/// What an owner holds: the digests of the blobs that it put or read, in the order in which it first did so.
#[derive(Debug, Drop)]
pub(crate) struct Holder {
    owner: u64,
    digests: Vec<Digest>,
}

impl Model for Holder {
    ghost use Rattle.store_core.specs.State.{Holds};

    ghost Value = { Holds };

    ghost view = { λ h. record { owner = h.owner; digests = h.digests.items } };
}

impl Holder {
    /// Whether it is this owner.
    fn is_owner(&self, owner: u64) -> bool
        ensures { result ≡ is_holder owner self.now }
    {
        self.owner == owner
    }

    /// Whether it holds a digest.
    fn has(&self, digest: &Digest) -> bool
        ensures { result ≡ is_among self.now.digests digest.now }
    {
        is_among(&self.digests, digest)
    }

    /// Adds a digest, unless it is there. After want of memory all is as before.
    fn add(&mut self, digest: &Digest) -> Result<(), OutOfMemory>
        ensures ok { OnOk result (self.new ≡ record self.old { digests = with_digest digest.now self.old.digests }) }
        ensures err { OnErr result (self.new ≡ self.old) }
    {
        if !self.has(digest) {
            self.digests.push(*digest)?;
        }
        Ok(())
    }
}

/// Whether some owner holds the digest.
pub(crate) fn is_held(holds: &[Holder], digest: &Digest) -> bool
    ensures { result ≡ is_held holds.now digest.now }
{
    holds.iter().any(|held| held.has(digest))
}

/// Where the holds of an owner stand.
fn place_of(holds: &[Holder], owner: u64) -> Option<usize>
    ensures { result ≡ position (is_holder owner) holds.now }
{
    holds.iter().position(|held| held.is_owner(owner))
}

/// Adds a hold of an owner, unless it is there. After want of memory all is as before.
fn hold(
    alloc: Global,
    holds: &mut Vec<Holder>,
    owner: u64,
    digest: &Digest,
) -> Result<(), OutOfMemory>
    ensures ok { OnOk result (holds.new.items ≡ with_hold owner digest.now holds.old.items) }
    ensures err { OnErr result (holds.new.items ≡ holds.old.items) }
{
    if let Some(place) = place_of(holds, owner) {
        holds[place].add(digest)?;
        return Ok(());
    }
    let digests = Vec::from_slice(alloc, &[*digest])?;
    holds.push(Holder { owner, digests })?;
    Ok(())
}

/// Under the session guard adds the hold of an owner that put or read a blob that is there. Nobody holds the empty one.
/// After want of memory all is as before.
pub(crate) fn hold_used(
    alloc: Global,
    guard: Guard,
    holds: &mut Vec<Holder>,
    owner: u64,
    digest: &Digest,
) -> Result<(), OutOfMemory>
    ensures ok { OnOk result (holds.new.items ≡ holds_after guard owner digest.now holds.old.items) }
    ensures err { OnErr result (holds.new.items ≡ holds.old.items) }
    ensures free { is_session guard ≡ false → IsOk result }
{
    if guard == Guard::Session && !is_empty_blob(digest) {
        return hold(alloc, holds, owner, digest);
    }
    Ok(())
}

/// Takes the holds of an owner away. It takes no memory.
pub(crate) fn drop_holds(holds: &mut Vec<Holder>, owner: u64)
    ensures { holds.new.items ≡ other_holds owner holds.old.items }
{
    holds.retain(|held| !held.is_owner(owner));
}
