//! A store that is loaded from its shelf.

ghost use Rattle.std.specs.Prelude.{◌≡◌, ◌<◌, ◌≤◌, ◌+◌, ◌^◌, ◌++◌, ◌∷◌, ℕ, List, Option, [], length, map, Some, IfOk, IfSome, IfNone, OnOk, OnErr};
ghost use Rattle.digest_types.specs.Name.{HashAndSize};
ghost use Rattle.digest_types.specs.Digest.{digest_of};
ghost use Rattle.digest_types.specs.Hasher.{Holds, added_len};
ghost use Rattle.directory_canon.specs.Links.{links};
ghost use Rattle.store_core.specs.State.{Distinct};
ghost use Rattle.blob_store.specs.Bodies.{copied};
ghost use Rattle.blob_store.specs.Kept.{AreBodiesOf};
ghost use Rattle.blob_store.specs.Loading.{IsScan, is_new_row, with_found, AreTheirOwn, IsGathered, Sifts, Lasts, Sifted, Loads, IsLoaded};
ghost use Rattle.blob_store.specs.Restored.{taken, restored};
ghost use Rattle.blob_store.specs.Shelves.{Stays, HasShelfCause, discarding};

use crate::bodies::Bodies;
use crate::checked::Checked;
use crate::filling::{add_copy, edges_of};
use crate::shelf::{Shelf, ShelfEnd};
use crate::store::Store;
use digest_types::{Digest, Hasher};
use indexed_core::IndexedCore;
use proto_wire::{Bytes, OutOfMemory};
use std::alloc::Global;
use std::marker::Model;
use store_core::{Marks, Row};

/// The most bytes that the rows of a loaded store have.
const MOST_LOADED: u64 = 1 << 60;

/// The most bytes of a body that are read at once.
const PIECE: usize = 65_536;

/// The first bytes of a body: their hasher, the copy that is kept of them, and how many they are.
#[derive(Drop)]
struct Scan {
    hasher: Hasher,
    copy: Option<Bytes>,
    size: u64,
}

impl Scan {
    /// No bytes yet. It takes no memory.
    fn new(alloc: Global) -> Scan
        ensures scan { (told : Option (List ℕ)) → IsScan result.hasher result.copy result.size told }
        ensures size { result.size ≡ 0 }
    {
        Scan {
            hasher: Hasher::new(),
            copy: Some(Bytes::new(alloc)),
            size: 0,
        }
    }

    /// One piece more.
    fn add(&mut self, piece: &[u8]) -> Result<(), OutOfMemory>
        requires room { added_len self.old.hasher + length piece.now ≤ 2 ^ 60 }
        requires size { self.old.size ≡ added_len self.old.hasher }
        ensures hash { OnOk result ((bytes : List ℕ) → Holds self.old.hasher bytes → Holds self.new.hasher (bytes ++ piece.now)) }
        ensures copy { OnOk result (self.new.copy ≡ copied self.old.copy piece.now) }
        ensures size { OnOk result (self.new.size ≡ self.old.size + length piece.now) }
    {
        add_copy(&mut self.copy, piece)?;
        self.hasher.update(piece);
        self.size += piece.len() as u64;
        Ok(())
    }
}

/// Reads all bytes of a body, or answers None where there are more than `room`.
fn read_whole<K: Shelf>(
    alloc: Global,
    shelf: &mut K,
    reader: &mut K::Reader,
    room: u64,
    buf: &mut [u8],
) -> Result<Option<Scan>, ShelfEnd>
    requires room { room ≤ 2 ^ 60 }
    requires buf { 0 < length buf.old }
    ensures scan { IfOk result (λ o. IfSome o (λ scan. IsScan scan.hasher scan.copy scan.size (K.lent reader.old))) }
    ensures all { IfOk result (λ o. IfSome o (λ scan. IfSome (K.lent reader.old) (λ all. length all ≤ scan.size))) }
    ensures long { IfOk result (λ o. IfNone o (IfSome (K.lent reader.old) (λ all. room < length all))) }
    ensures stays { Stays (K.shelved shelf.old) (K.shelved shelf.new) }
    ensures cause { HasShelfCause (K.shelved shelf.old) (K.shelved shelf.new) result }
{
    let mut scan = Scan::new(alloc);
    'pieces: loop {
        let count = shelf.read_at(reader, scan.size, buf)?;
        if count == 0 {
            return Ok(Some(scan));
        }
        if count as u64 > room - scan.size {
            return Ok(None);
        }
        scan.add(&buf[..count])?;
    }
}

/// The digest and the links of a body that was found, with the body. One with more than `room` bytes is discarded. A body
/// that can't be read stays where it is.
fn check_found<K: Shelf>(
    alloc: Global,
    shelf: &mut K,
    body: K::Body,
    room: u64,
    buf: &mut [u8],
) -> Result<Option<Checked<K>>, ShelfEnd>
    requires room { room ≤ 2 ^ 60 }
    requires buf { 0 < length buf.old }
    ensures own { IfOk result (λ o. IfSome o (λ blob. IfSome (K.kept body) (λ bytes. (blob.digest ≡ digest_of bytes) × (blob.edges ≡ links bytes)))) }
    ensures long { IfOk result (λ o. IfNone o (IfSome (K.kept body) (λ all. room < length all))) }
    ensures stays { IfOk result (λ o. IfSome o (λ blob. Stays (K.shelved shelf.old) (K.shelved shelf.new))) }
    ensures gone { IfOk result (λ o. IfNone o (Stays (discarding 1 (K.shelved shelf.old)) (K.shelved shelf.new))) }
    ensures err { OnErr result (Stays (K.shelved shelf.old) (K.shelved shelf.new)) }
    ensures cause { HasShelfCause (K.shelved shelf.old) (K.shelved shelf.new) result }
{
    let mut reader = shelf.reader(&body)?;
    let Some(scan) = read_whole(alloc, shelf, &mut reader, room, buf)? else {
        shelf.discard(body);
        return Ok(None);
    };
    let edges = edges_of(alloc, &scan.copy)?;
    Ok(Some(Checked::of_parts(body, scan.hasher.finish(), edges)))
}

/// The rows of the bodies that were found so far, in the order found, the sum of their sizes, and their bodies.
#[derive(Drop)]
struct Found<K: Shelf> {
    rows: Vec<Row>,
    used: u64,
    bodies: Bodies<K>,
}

impl<K: Shelf> Model for Found<K> {
    ghost use Rattle.blob_store.specs.Loading.{Gathered, IsGathered};

    ghost Value = { Gathered };

    ghost view = { λ f. record { rows = f.rows.items; bodies = f.bodies.bodies } };

    ghost invariant = { λ f. IsGathered f.rows.items f.used f.bodies.bodies };
}

impl<K: Shelf> Found<K> {
    /// None was found yet. It takes no memory.
    fn new(alloc: Global) -> Found<K>
        ensures { result ≡ record { rows = []; bodies = [] } }
    {
        Found {
            rows: Vec::new(alloc),
            used: 0,
            bodies: Bodies::new(alloc),
        }
    }

    /// Whether a blob becomes a row. It takes no memory.
    fn takes(&self, digest: &Digest) -> bool
        ensures { result ≡ is_new_row self.now.rows digest.now }
    {
        digest.size > 0
            && self.bodies.get(digest).is_none()
            && self.used + digest.size <= MOST_LOADED
    }

    /// Keeps a body with its row, or discards it where the blob becomes none.
    fn keep(&mut self, shelf: &mut K, blob: Checked<K>) -> Result<(), OutOfMemory>
        ensures rows { OnOk result (self.new.rows ≡ with_found self.old.rows blob.digest blob.edges) }
        ensures shelf { OnOk result (Sifts (K.shelved shelf.old) (K.shelved shelf.new) (length self.old.rows) (length self.new.rows)) }
        ensures err { OnErr result (K.shelved shelf.new ≡ K.shelved shelf.old) }
    {
        let (body, digest, edges) = blob.into_parts();
        if !self.takes(&digest) {
            shelf.discard(body);
            return Ok(());
        }
        self.bodies.reserve()?;
        self.rows.push(Row {
            digest,
            edges,
            sound: true,
        })?;
        self.bodies.add(digest, body);
        self.used += digest.size;
        Ok(())
    }

    /// Reads a body that was found, and keeps it with its row or discards it. One that is refused stays where it is.
    fn take(
        &mut self,
        alloc: Global,
        shelf: &mut K,
        body: K::Body,
        buf: &mut [u8],
    ) -> Result<(), ShelfEnd>
        requires { 0 < length buf.old }
        ensures rows { OnOk result ((bytes : List ℕ) → K.kept body ≡ Some bytes → self.new.rows ≡ taken self.old.rows (bytes ∷ [])) }
        ensures shelf { OnOk result (Sifts (K.shelved shelf.old) (K.shelved shelf.new) (length self.old.rows) (length self.new.rows)) }
        ensures err { OnErr result (Stays (K.shelved shelf.old) (K.shelved shelf.new)) }
        ensures cause { HasShelfCause (K.shelved shelf.old) (K.shelved shelf.new) result }
    {
        let room = MOST_LOADED - self.used;
        match check_found(alloc, shelf, body, room, buf)? {
            Some(blob) => self.keep(shelf, blob)?,
            None => {}
        }
        Ok(())
    }
}

/// A buffer for the pieces of bodies.
fn new_buf(alloc: Global) -> Result<Vec<u8>, OutOfMemory>
    ensures { IfOk result (λ buf. 0 < length buf.items) }
{
    Ok(vec![in alloc; 0u8; PIECE]?)
}

/// Finds all bodies of a shelf.
fn find_all<K: Shelf>(alloc: Global, shelf: &mut K) -> Result<Found<K>, ShelfEnd>
    ensures sifted { IfOk result (λ found. Sifted (K.shelved shelf.old) (K.shelved shelf.new) found.rows) }
    ensures none { OnOk result (IfSome (K.shelved shelf.new).found (λ bodies. bodies ≡ [])) }
    ensures err { OnErr result (Lasts (K.shelved shelf.old) (K.shelved shelf.new)) }
    ensures cause { HasShelfCause (K.shelved shelf.old) (K.shelved shelf.new) result }
{
    let mut found = Found::new(alloc);
    let mut buf = new_buf(alloc)?;
    'bodies: loop {
        match shelf.next_found()? {
            Some(body) => found.take(alloc, shelf, body, &mut buf)?,
            None => return Ok(found),
        }
    }
}

impl<K: Shelf> Store<K> {
    /// The store of the bodies that are found on a shelf, without owners. A body that is empty, whose digest has a row
    /// already, or with which the rows would have more than 2^60 bytes is discarded; each of the others gets a sound row.
    /// The rows that the shelf's saved list doesn't name are the least recently used ones, in the order found; the others
    /// follow in the saved order. Where it is refused, the bodies that it hasn't discarded stay where they are.
    pub fn load(alloc: Global, shelf: &mut K, marks: Marks) -> Result<Store<K>, ShelfEnd>
        // A shelf that tells the saved list and its bodies determines the store.
        ensures restored { IfOk result (λ s. (saved : List HashAndSize) (found : List (List ℕ)) → (K.shelved shelf.old).saved ≡ Some saved → (K.shelved shelf.old).found ≡ Some (map Some found) → s.state ≡ restored saved found marks.low marks.high marks.guard) }
        ensures loaded { IfOk result (λ s. IsLoaded marks.low marks.high marks.guard s.state) }
        ensures bodies { IfOk result (λ s. AreTheirOwn s.bodies) }
        ensures shelf { IfOk result (λ s. Loads (K.shelved shelf.old) (K.shelved shelf.new) (length s.state.rows)) }
        ensures err { OnErr result (Lasts (K.shelved shelf.old) (K.shelved shelf.new)) }
        ensures cause { HasShelfCause (K.shelved shelf.old) (K.shelved shelf.new) result }
    {
        let saved = shelf.saved()?;
        let Found {
            rows,
            used: _,
            bodies,
        } = find_all(alloc, shelf)?;
        let core = IndexedCore::of_rows(alloc, marks, &rows, saved.as_slice())?;
        Ok(Store::of_parts(alloc, core, bodies)?)
    }
}
