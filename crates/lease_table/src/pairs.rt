//! `Pairs`.

ghost use Rattle.std.specs.Prelude.{◌≡◌, ◌<◌, ◌^◌, [], length, take, position, slice_get, OnOk, OnErr};
ghost use Rattle.std.specs.List.{IsDistinct};
ghost use Rattle.indexmap.specs.IndexSet.{insert_key};
ghost use Rattle.store_core.specs.Reach.{is_pair};
ghost use Rattle.lease_table.specs.Pairs.{has};
ghost use Rattle.lease_table.specs.PairKeys.{key_of, pair_of};

use digest_types::Digest;
use directory_canon::{Edge, Kind};
use indexmap::IndexSet;
use proto_wire::OutOfMemory;
use std::alloc::Global;
use std::marker::Model;

/// A pair as a key: whether it is a Directory's, and its digest.
#[derive(Clone, Copy, Debug, PartialEq, Eq, Hash)]
pub(crate) struct Key {
    is_dir: bool,
    digest: Digest,
}

/// Pairs in the order in which they were inserted, each once and found by a look-up.
#[derive(Debug, Drop)]
pub(crate) struct Pairs {
    keys: IndexSet<Key>,
}

impl Model for Pairs {
    ghost use Rattle.std.specs.Prelude.{List};
    ghost use Rattle.std.specs.List.{IsDistinct};
    ghost use Rattle.directory_canon.specs.declared.node.Edge.{Edge};
    ghost use Rattle.store_core.specs.Reach.{is_pair};
    ghost use Rattle.lease_table.specs.PairKeys.{pairs_of};

    ghost Value = { List Edge };

    ghost view = { λ a. pairs_of a.keys.keys };

    ghost invariant = { λ a. IsDistinct is_pair (pairs_of a.keys.keys) };
}

impl Pairs {
    /// No pairs. It takes no memory.
    pub(crate) fn new(alloc: Global) -> Pairs
        ensures { result ≡ [] }
    {
        Pairs {
            keys: IndexSet::new(alloc),
        }
    }

    pub(crate) fn len(&self) -> usize
        ensures len { result ≡ length self.now }
        ensures small { result < 2 ^ 63 }
        ensures distinct { IsDistinct is_pair self.now }
    {
        self.keys.len()
    }

    /// The pair at a place.
    pub(crate) fn get(&self, place: usize) -> Option<Edge>
        ensures { result ≡ slice_get self.now place }
    {
        match self.keys.get_index(place).copied() {
            Some(key) => Some(pair_of(&key)),
            None => None,
        }
    }

    /// Where a pair stands.
    pub(crate) fn place_of(&self, pair: &Edge) -> Option<usize>
        ensures { result ≡ position (is_pair pair.now) self.now }
    {
        self.keys.get_index_of(&key_of(pair))
    }

    pub(crate) fn contains(&self, pair: &Edge) -> bool
        ensures { result ≡ has self.now pair.now }
    {
        self.keys.contains(&key_of(pair))
    }

    /// Inserts a pair as the last one, unless it is there. After want of memory all is as before.
    pub(crate) fn insert(&mut self, pair: &Edge) -> Result<(), OutOfMemory>
        ensures ok { OnOk result (self.new ≡ insert_key is_pair self.old pair.now) }
        ensures err { OnErr result (self.new ≡ self.old) }
    {
        self.keys.insert(key_of(pair))?;
        Ok(())
    }

    /// Keeps the first so many. It takes no memory.
    pub(crate) fn truncate(&mut self, len: usize)
        ensures { self.new ≡ take len self.old }
    {
        self.keys.truncate(len);
    }
}

fn key_of(pair: &Edge) -> Key
    ensures { result ≡ key_of pair.now }
{
    Key {
        is_dir: pair.kind == Kind::Dir,
        digest: pair.digest,
    }
}

fn pair_of(key: &Key) -> Edge
    ensures { result ≡ pair_of key.now }
{
    let kind = if key.is_dir { Kind::Dir } else { Kind::File };
    Edge {
        kind,
        digest: key.digest,
    }
}
