//! `Filling`.

ghost use Rattle.std.specs.Prelude.{◌≡◌, ◌+◌, ◌^◌, ◌≤◌, ◌++◌, ℕ, List, [], false, true, length, IfOk, OnOk, OnErr};
ghost use Rattle.digest_types.specs.Hasher.{added_len};
ghost use Rattle.directory_canon.specs.Links.{links};
ghost use Rattle.blob_store.specs.Shelves.{Stays, HasShelfCause, HasPart, appended, dropping};
ghost use Rattle.blob_store.specs.Bodies.{HasAdded, AddsOn, IsSealed, copy_of, copied, held_in, held_of};

use crate::checked::Checked;
use crate::shelf::{Shelf, ShelfEnd};
use digest_types::Hasher;
use directory_canon::{Edges, links_of};
use proto_wire::{Bytes, OutOfMemory};
use std::alloc::Global;
use std::marker::Model;

/// The most bytes that the canonical form of a Directory has.
const MAX_DIRECTORY: usize = 4_194_304;

/// A blob on its way to the shelf, of at most 2^60 bytes: each piece is appended to its draft and hashed as it comes.
#[derive(Drop)]
pub struct Filling<K: Shelf> {
    alloc: Global,
    draft: K::Draft,
    hasher: Hasher,
    // The links are read from it. More bytes than a Directory has link to nothing, and no copy of them is kept.
    copy: Option<Bytes>,
    refused: bool,
}

impl<K: Shelf> Model for Filling<K> {
    ghost use Rattle.std.specs.Prelude.{◌≡◌, ℕ, List, false};
    ghost use Rattle.blob_store.specs.Bodies.{Filled, HasAdded};

    ghost Value = { Filled };

    ghost view = { λ f. record { hasher = f.hasher; told = K.drafted f.draft; copy = f.copy; refused = f.refused } };

    ghost invariant = { λ f. f.refused ≡ false → (bytes : List ℕ) × HasAdded (record { hasher = f.hasher; told = K.drafted f.draft; copy = f.copy; refused = f.refused }) bytes };
}

impl<K: Shelf> Filling<K> {
    /// A blob without bytes yet.
    pub fn new(alloc: Global, shelf: &mut K) -> Result<Filling<K>, ShelfEnd>
        ensures empty { IfOk result (λ f. HasAdded f []) }
        ensures size { IfOk result (λ f. added_len f.hasher ≡ 0) }
        ensures going { IfOk result (λ f. f.refused ≡ false) }
        ensures stays { Stays (K.shelved shelf.old) (K.shelved shelf.new) }
        ensures cause { HasShelfCause (K.shelved shelf.old) (K.shelved shelf.new) result }
    {
        let draft = shelf.draft()?;
        Ok(Filling {
            alloc,
            draft,
            hasher: Hasher::new(),
            copy: Some(Bytes::new(alloc)),
            refused: false,
        })
    }

    /// Adds the next piece. After a refusal it is only given up.
    #[tactic(auto, using(crate::proofs::FillingLemmas::adds_on, crate::proofs::FillingLemmas::adds_size))]
    pub fn add(&mut self, shelf: &mut K, bytes: &[u8]) -> Result<(), ShelfEnd>
        requires room { added_len self.old.hasher + length bytes.now ≤ 2 ^ 60 }
        requires sound { self.old.refused ≡ false }
        ensures ok { OnOk result (AddsOn self.old self.new bytes.now) }
        ensures size { OnOk result (added_len self.new.hasher ≡ added_len self.old.hasher + length bytes.now) }
        ensures told { OnOk result (self.new.told ≡ appended self.old.told bytes.now) }
        ensures going { OnOk result (self.new.refused ≡ false) }
        ensures err { OnErr result (self.new ≡ record self.old { told = self.new.told; refused = true }) }
        ensures partial { OnErr result (HasPart self.old.told self.new.told bytes.now) }
        ensures stays { Stays (K.shelved shelf.old) (K.shelved shelf.new) }
        ensures cause { HasShelfCause (K.shelved shelf.old) (K.shelved shelf.new) result }
    {
        let added = add_to(shelf, &mut self.draft, &mut self.copy, bytes);
        match added {
            Ok(()) => self.hasher.update(bytes),
            Err(_) => self.refused = true,
        }
        added
    }

    /// How many bytes are held beside the draft: those that were added while they are at most 4,194,304, and none of more.
    /// It takes no memory.
    pub fn held(&self) -> u64
        ensures copy { result ≡ held_in self.now.copy }
        ensures added { (bytes : List ℕ) → HasAdded self.now bytes → result ≡ held_of (length bytes) }
    {
        match &self.copy {
            Some(bytes) => bytes.len() as u64,
            None => 0,
        }
    }

    /// The body of all bytes that were added, with their digest and links. Where it is refused the draft is given up.
    pub fn finish(self, shelf: &mut K) -> Result<Checked<K>, ShelfEnd>
        requires { self.refused ≡ false }
        ensures sealed { IfOk result (λ blob. (bytes : List ℕ) → HasAdded self bytes → IsSealed bytes blob) }
        ensures ok { OnOk result (Stays (K.shelved shelf.old) (K.shelved shelf.new)) }
        ensures err { OnErr result (Stays (dropping (K.shelved shelf.old)) (K.shelved shelf.new)) }
        ensures cause { HasShelfCause (K.shelved shelf.old) (K.shelved shelf.new) result }
    {
        let Filling {
            alloc,
            draft,
            hasher,
            copy,
            ..
        } = self;
        let edges = match edges_of(alloc, &copy) {
            Ok(edges) => edges,
            Err(OutOfMemory) => {
                shelf.drop_draft(draft);
                return Err(ShelfEnd::OutOfMemory);
            }
        };
        let body = shelf.seal(draft)?;
        Ok(Checked::of_parts(body, hasher.finish(), edges))
    }

    /// Gives the draft up. It takes no memory.
    pub fn give_up(self, shelf: &mut K)
        ensures { K.shelved shelf.new ≡ dropping (K.shelved shelf.old) }
    {
        let Filling { draft, .. } = self;
        shelf.drop_draft(draft);
    }
}

// Appends bytes to a draft and to the copy of its bytes.
fn add_to<K: Shelf>(
    shelf: &mut K,
    draft: &mut K::Draft,
    copy: &mut Option<Bytes>,
    bytes: &[u8],
) -> Result<(), ShelfEnd>
    ensures draft { OnOk result (K.drafted draft.new ≡ appended (K.drafted draft.old) bytes.now) }
    ensures copy { OnOk result (copy.new ≡ copied copy.old bytes.now) }
    ensures err { OnErr result (copy.new ≡ copy.old) }
    ensures partial { OnErr result (HasPart (K.drafted draft.old) (K.drafted draft.new) bytes.now) }
    ensures stays { Stays (K.shelved shelf.old) (K.shelved shelf.new) }
    ensures cause { HasShelfCause (K.shelved shelf.old) (K.shelved shelf.new) result }
{
    shelf.append(draft, bytes)?;
    add_copy(copy, bytes)?;
    Ok(())
}

// Appends bytes to a copy, which is given up where it would be too long for a Directory.
pub(crate) fn add_copy(copy: &mut Option<Bytes>, bytes: &[u8]) -> Result<(), OutOfMemory>
    ensures ok { OnOk result (copy.new ≡ copied copy.old bytes.now) }
    ensures err { OnErr result (copy.new ≡ copy.old) }
{
    let Some(held) = copy else {
        return Ok(());
    };
    if held.len().saturating_add(bytes.len()) > MAX_DIRECTORY {
        *copy = None;
        return Ok(());
    }
    held.push_slice(bytes)
}

// The links of the bytes that have this copy.
#[tactic(auto, using(crate::proofs::FillingLemmas::none_links, crate::proofs::FillingLemmas::some_links))]
pub(crate) fn edges_of(alloc: Global, copy: &Option<Bytes>) -> Result<Option<Edges>, OutOfMemory>
    ensures { IfOk result (λ edges. (bytes : List ℕ) → copy.now ≡ copy_of bytes → edges ≡ links bytes) }
{
    match copy {
        Some(bytes) => links_of(alloc, bytes.as_slice()),
        None => Ok(None),
    }
}
