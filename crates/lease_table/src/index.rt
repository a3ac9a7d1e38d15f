//! `Index`.

ghost use Rattle.std.specs.Prelude.{◌≡◌, ◌<◌, ◌&&◌, ◌∷◌, ◌++◌, [], false, is_some, unwrap_or, if◌then◌else◌, Some, OnOk, OnErr};
ghost use Rattle.std.specs.List.{list_any};
ghost use Rattle.std.specs.Map.{lookup};
ghost use Rattle.indexmap.specs.IndexMap.{spare};
ghost use Rattle.digest_types.specs.Name.{HashAndSize};
ghost use Rattle.directory_canon.specs.declared.node.Edge.{Edge as Pair};
ghost use Rattle.store_core.specs.Reach.{is_pair, links_to};
ghost use Rattle.store_core.specs.State.{same, is_among};
ghost use Rattle.lease_table.specs.Table.{is_blob, without, others, Distinct};

use crate::slots::Slots;
use digest_types::Digest;
use directory_canon::{Edge, Edges};
use indexmap::IndexMap;
use proto_wire::OutOfMemory;
use std::alloc::Global;
use std::marker::Model;

/// The rows in the order in which they came, each found by a look-up. Only `push` takes memory.
#[derive(Debug, Drop)]
pub(crate) struct Index {
    order: Slots,
    edges: IndexMap<Digest, Option<Edges>>,
}

impl Model for Index {
    ghost use Rattle.std.specs.Prelude.{List};
    ghost use Rattle.store_core.specs.Reach.{Linked};
    ghost use Rattle.lease_table.specs.Rows.{rows_in, IsIndexed};

    ghost Value = { List Linked };

    ghost view = { λ a. rows_in a.order a.edges.entries };

    ghost invariant = { λ a. IsIndexed a.order a.edges.entries };
}

/// Whether a digest is among these.
pub(crate) fn is_among(digests: &[Digest], digest: &Digest) -> bool
    ensures { result ≡ is_among digests.now digest.now }
{
    digests.iter().any(|other| digest == other)
}

impl Index {
    /// No rows. It takes no memory.
    pub(crate) fn new(alloc: Global) -> Index
        ensures { result ≡ [] }
    {
        Index {
            order: Slots::new(alloc),
            edges: IndexMap::new(alloc),
        }
    }

    /// Whether a digest has a row.
    pub(crate) fn has(&self, digest: &Digest) -> bool
        ensures has { result ≡ list_any (is_blob digest.now) self.now }
        ensures distinct { Distinct self.now }
    {
        self.edges.contains_key(digest)
    }

    /// What the row of a digest links to: nothing where there is none.
    pub(crate) fn edges_of(&self, digest: &Digest) -> &[Edge]
        ensures { (pair : Pair) → list_any (is_pair pair) result.now ≡ list_any (λ row. is_blob digest.now row && links_to row.edges pair) self.now }
    {
        match self.edges.get(digest) {
            Some(edges) => listed(edges),
            None => &[],
        }
    }

    /// Whether a digest has a row with edges.
    pub(crate) fn is_dir(&self, digest: &Digest) -> bool
        ensures { result ≡ list_any (λ row. is_blob digest.now row && is_some row.edges) self.now }
    {
        match self.edges.get(digest) {
            Some(edges) => edges.is_some(),
            None => false,
        }
    }

    /// Adds a row as the last one. After want of memory all is as before.
    pub(crate) fn push(&mut self, digest: Digest, edges: Option<Edges>) -> Result<(), OutOfMemory>
        requires { list_any (is_blob digest) self.old ≡ false }
        ensures ok { OnOk result (self.new ≡ self.old ++ record { digest = digest; edges = edges } ∷ []) }
        ensures err { OnErr result (self.new ≡ self.old) }
    {
        self.edges.reserve(1)?;
        self.order.add(digest)?;
        insert(&mut self.edges, digest, edges);
        Ok(())
    }

    /// Removes the row of a digest, if it has one.
    pub(crate) fn remove_one(&mut self, digest: &Digest)
        ensures { self.new ≡ others digest.now self.old }
    {
        self.order.remove(digest);
        self.edges.swap_remove(digest);
    }

    /// Removes the rows of these digests.
    pub(crate) fn remove(&mut self, gone: &[Digest])
        ensures { self.new ≡ without gone.now self.old }
    {
        'gone: for digest in gone {
            self.remove_one(digest);
        }
    }
}

/// The edges, if there are any.
fn listed(edges: &Option<Edges>) -> &[Edge]
    ensures { result.now ≡ unwrap_or edges.now [] }
{
    match edges {
        Some(edges) => edges.as_slice(),
        None => &[],
    }
}

/// Inserts the edges of a digest within the room that there is.
fn insert(entries: &mut IndexMap<Digest, Option<Edges>>, digest: Digest, edges: Option<Edges>)
    requires { 0 < spare entries.old }
    ensures { (d : HashAndSize) → lookup (same d) entries.new.entries ≡ (if same digest d then Some edges else lookup (same d) entries.old.entries) }
{
    match entries.insert(digest, edges) {
        Ok(_) => {}
        Err(_) => {}
    }
}
