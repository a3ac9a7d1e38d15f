//! `Bodies`.

ghost use Rattle.std.specs.Prelude.{◌≡◌, ◌<◌, ◌≤◌, [], length, List, true, is_some, Some, None, IfSome, OnOk, option_map, if◌then◌else◌};
ghost use Rattle.digest_types.specs.Name.{HashAndSize};
ghost use Rattle.digest_types.specs.Digest.{digest_of};
ghost use Rattle.store_core.specs.State.{same, is_among};
ghost use Rattle.store_core.specs.declared.state.Row.{Row};
ghost use Rattle.indexed_core.specs.Removal.{AreRows};
ghost use Rattle.blob_store.specs.Kept.{AreBodiesOf, told_in};
ghost use Rattle.blob_store.specs.Shelves.{discarding};

use crate::shelf::Shelf;
use digest_types::Digest;
use indexmap::IndexMap;
use proto_wire::OutOfMemory;
use std::alloc::Global;
use std::marker::Model;

/// The bodies of blobs by their digests: a look-up.
#[derive(Drop)]
pub(crate) struct Bodies<K: Shelf> {
    bodies: IndexMap<Digest, K::Body>,
}

impl<K: Shelf> Model for Bodies<K> {
    ghost use Rattle.std.specs.Prelude.{◌≡◌, map, IfSome};
    ghost use Rattle.std.specs.List.{AllByRecursion, IsDistinct};
    ghost use Rattle.std.specs.Map.{keys_of};
    ghost use Rattle.digest_types.specs.Digest.{digest_of};
    ghost use Rattle.store_core.specs.State.{same};
    ghost use Rattle.indexmap.specs.IndexMap.{spare};
    ghost use Rattle.blob_store.specs.Kept.{Kept};

    ghost Value = { Kept };

    ghost view = { λ b. record {
      bodies = map (λ entry. (entry.0, K.kept entry.1)) b.bodies.entries;
      room = spare b.bodies;
    } };

    // no digest has two bodies, and a body that tells its bytes stands under their digest
    ghost invariant = { λ b. IsDistinct same (keys_of b.bodies.entries) × AllByRecursion (λ entry. IfSome (K.kept entry.1) (λ bytes. entry.0 ≡ digest_of bytes)) b.bodies.entries };
}

impl<K: Shelf> Bodies<K> {
    /// No bodies. It takes no memory.
    pub(crate) fn new(alloc: Global) -> Bodies<K>
        ensures { result.bodies ≡ [] }
    {
        Bodies {
            bodies: IndexMap::new(alloc),
        }
    }

    /// The body of a digest.
    pub(crate) fn get(&self, digest: &Digest) -> Option<&K::Body>
        ensures body { option_map (λ body. K.kept body.now) result ≡ told_in self.now.bodies digest.now }
        ensures told { IfSome result (λ body. IfSome (K.kept body.now) (λ bytes. digest.now ≡ digest_of bytes)) }
    {
        self.bodies.get(digest)
    }

    /// Makes room for one more.
    pub(crate) fn reserve(&mut self) -> Result<(), OutOfMemory>
        ensures same { self.new.bodies ≡ self.old.bodies }
        ensures room { OnOk result (0 < self.new.room) }
    {
        self.bodies.reserve(1)?;
        Ok(())
    }

    /// Keeps the body of a digest that has none. It takes no memory.
    pub(crate) fn add(&mut self, digest: Digest, body: K::Body)
        requires room { 0 < self.old.room }
        requires new { told_in self.old.bodies digest ≡ None }
        requires told { IfSome (K.kept body) (λ bytes. digest ≡ digest_of bytes) }
        ensures { (d : HashAndSize) → told_in self.new.bodies d ≡ (if same digest d then Some (K.kept body) else told_in self.old.bodies d) }
    {
        match self.bodies.insert(digest, body) {
            Ok(_) => {}
            Err(_) => unreachable!(),
        }
    }

    /// Keeps another body for a digest, and gives up the one that it had. It takes no memory.
    pub(crate) fn replace(&mut self, shelf: &mut K, digest: Digest, body: K::Body)
        requires there { is_some (told_in self.old.bodies digest) ≡ true }
        requires told { IfSome (K.kept body) (λ bytes. digest ≡ digest_of bytes) }
        ensures bodies { (d : HashAndSize) → told_in self.new.bodies d ≡ (if same digest d then Some (K.kept body) else told_in self.old.bodies d) }
        ensures shelf { K.shelved shelf.new ≡ discarding 1 (K.shelved shelf.old) }
    {
        match self.bodies.insert(digest, body) {
            Ok(Some(old)) => shelf.discard(old),
            Ok(None) => unreachable!(),
            Err(_) => unreachable!(),
        }
    }

    /// Gives up the body of a digest. It takes no memory.
    pub(crate) fn give_up(&mut self, shelf: &mut K, digest: &Digest)
        requires { is_some (told_in self.old.bodies digest.now) ≡ true }
        ensures bodies { (d : HashAndSize) → told_in self.new.bodies d ≡ (if same digest.now d then None else told_in self.old.bodies d) }
        ensures room { self.old.room ≤ self.new.room }
        ensures shelf { K.shelved shelf.new ≡ discarding 1 (K.shelved shelf.old) }
    {
        match self.bodies.shift_remove(digest) {
            Some(body) => shelf.discard(body),
            None => unreachable!(),
        }
    }

    /// Gives up the bodies of these rows. It takes no memory.
    pub(crate) fn give_up_all(&mut self, shelf: &mut K, gone: &[Digest])
        requires { (rows : List Row) × AreBodiesOf rows self.old.bodies × AreRows rows gone.now }
        ensures bodies { (d : HashAndSize) → told_in self.new.bodies d ≡ (if is_among gone.now d then None else told_in self.old.bodies d) }
        ensures room { 0 < self.old.room → 0 < self.new.room }
        ensures shelf { K.shelved shelf.new ≡ discarding (length gone.now) (K.shelved shelf.old) }
    {
        'gone: for digest in gone {
            self.give_up(shelf, digest);
        }
    }
}
