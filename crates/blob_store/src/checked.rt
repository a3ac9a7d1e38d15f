//! `Checked`.

ghost use Rattle.std.specs.Prelude.{◌≡◌, IfSome, option_map};
ghost use Rattle.digest_types.specs.Digest.{digest_of};
ghost use Rattle.directory_canon.specs.Links.{links};
ghost use Rattle.blob_store.specs.Shelves.{discarding};

use crate::shelf::Shelf;
use digest_types::Digest;
use directory_canon::Edges;
use std::marker::Model;

/// A body with the digest and the links of its bytes. `Filling::finish` alone makes one.
#[derive(Drop)]
pub struct Checked<K: Shelf> {
    body: K::Body,
    digest: Digest,
    edges: Option<Edges>,
}

impl<K: Shelf> Model for Checked<K> {
    ghost use Rattle.std.specs.Prelude.{◌≡◌, IfSome};
    ghost use Rattle.digest_types.specs.Digest.{digest_of};
    ghost use Rattle.directory_canon.specs.Links.{links};
    ghost use Rattle.blob_store.specs.Bodies.{Sealed};

    ghost Value = { Sealed };

    ghost view = { λ c. record { digest = c.digest; edges = c.edges; told = K.kept c.body } };

    ghost invariant = { λ c. IfSome (K.kept c.body) (λ bytes. (c.digest ≡ digest_of bytes) × (c.edges ≡ links bytes)) };
}

impl<K: Shelf> Checked<K> {
    /// The digest of the body's bytes. It takes no memory.
    pub fn digest(&self) -> Digest
        ensures value { result ≡ self.now.digest }
        ensures told { IfSome self.now.told (λ all. result ≡ digest_of all) }
    {
        self.digest
    }

    /// What the bytes link to, where they are a Directory. It takes no memory.
    pub fn edges(&self) -> Option<&Edges>
        ensures value { option_map (λ edges. edges.now) result ≡ self.now.edges }
        ensures told { IfSome self.now.told (λ all. option_map (λ edges. edges.now) result ≡ links all) }
    {
        self.edges.as_ref()
    }

    /// Gives the body up. It takes no memory.
    pub fn give_up(self, shelf: &mut K)
        ensures { K.shelved shelf.new ≡ discarding 1 (K.shelved shelf.old) }
    {
        let Checked { body, .. } = self;
        shelf.discard(body);
    }

    // The body with its digest and its links.
    pub(crate) fn of_parts(body: K::Body, digest: Digest, edges: Option<Edges>) -> Checked<K>
        requires { IfSome (K.kept body) (λ bytes. (digest ≡ digest_of bytes) × (edges ≡ links bytes)) }
        ensures { result ≡ record { digest = digest; edges = edges; told = K.kept body } }
    {
        Checked {
            body,
            digest,
            edges,
        }
    }

    /// The body, its digest and its links. It takes no memory.
    pub fn into_parts(self) -> (K::Body, Digest, Option<Edges>)
        ensures parts { self ≡ record { digest = result.1; edges = result.2; told = K.kept result.0 } }
        ensures told { IfSome (K.kept result.0) (λ bytes. (result.1 ≡ digest_of bytes) × (result.2 ≡ links bytes)) }
    {
        let Checked {
            body,
            digest,
            edges,
        } = self;
        (body, digest, edges)
    }
}
