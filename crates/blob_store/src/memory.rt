//! `MemShelf`, the double in memory.

ghost use Rattle.std.specs.Prelude.{◌≡◌, ◌≤◌, ◌^◌, ◌↔◌, ◌++◌, if◌then◌else◌, [], length, take, drop, Some, Contains, IsTrue, IsErr, IsErrOf, IfOk, IfErr, IfSome, OnOk, OnErr};
ghost use Rattle.std.proofs.Common.{arith, refl};
ghost use Rattle.store_core.specs.State.{DistinctDigests};
ghost use Rattle.blob_store.specs.Shelves.{Stays, Finds, dropping};
ghost use Rattle.blob_store.specs.Memory.{MemState, shelved_of, after_call, after_fault, after_lost, after_draft, after_drop, after_discard, after_found, raised_first, body_of, reader_of, first_body, told_if, given_at};
ghost use Rattle.blob_store.specs.declared.shelf.ShelfEnd.TheVariants.{Failed as Fault, OutOfMemory as NoMemory};

use crate::shelf::{Shelf, ShelfEnd};
use casd_base::Failed;
use digest_types::Digests;
use proto_wire::Bytes;
use std::alloc::Global;
use std::marker::Model;

/// A shelf in memory. It tells its content, but for the bodies that it spoils as it is told, and fails at the calls that
/// it is told.
#[derive(Debug, Drop)]
pub struct MemShelf {
    alloc: Global,
    found: Vec<Bytes>,
    failing: Vec<u64>,
    spoilt: Vec<u64>,
    calls: u64,
    drafts: u64,
    faults: u64,
    discarded: u64,
    dropped: u64,
    saved: Digests,
}

/// A draft in memory, and whether its body is going to be spoilt.
#[derive(Debug, Drop)]
pub struct MemDraft {
    bytes: Bytes,
    spoilt: bool,
}

/// A body in memory, and whether it tells its bytes.
#[derive(Debug, Drop)]
pub struct MemBody {
    bytes: Bytes,
    told: bool,
}

/// A reader in memory with a copy of its body's bytes, and whether it tells them.
#[derive(Debug, Drop)]
pub struct MemReader {
    bytes: Bytes,
    told: bool,
}

impl Model for MemShelf {
    ghost use Rattle.store_core.specs.State.{DistinctDigests};
    ghost use Rattle.blob_store.specs.Memory.{MemState};

    ghost Value = { MemState };

    ghost view = { λ s. record {
      found = s.found.items;
      failing = s.failing.items;
      spoilt = s.spoilt.items;
      calls = s.calls;
      drafts = s.drafts;
      faults = s.faults;
      discarded = s.discarded;
      dropped = s.dropped;
      saved = s.saved;
    } };

    ghost invariant = { λ s. DistinctDigests s.saved };
}

impl MemShelf {
    /// A shelf on which the bodies of these bytes are found, in this order. `failing` names the calls that fail, by their
    /// common number from 0, and `spoilt` the drafts, by theirs, whose bodies read another first byte and tell nothing.
    /// It takes no memory.
    pub fn new(alloc: Global, found: Vec<Bytes>, failing: Vec<u64>, spoilt: Vec<u64>) -> MemShelf
        ensures { result ≡ record {
          found = found.items;
          failing = failing.items;
          spoilt = spoilt.items;
          calls = 0;
          drafts = 0;
          faults = 0;
          discarded = 0;
          dropped = 0;
          saved = [];
        } }
    {
        MemShelf {
            alloc,
            found,
            failing,
            spoilt,
            calls: 0,
            drafts: 0,
            faults: 0,
            discarded: 0,
            dropped: 0,
            saved: Digests::new(alloc),
        }
    }

    /// The same shelf, with the list of use that an earlier run left. It takes no memory.
    pub fn with_saved(mut self, saved: Digests) -> MemShelf
        requires { DistinctDigests saved }
        ensures { result ≡ record self { saved = saved } }
    {
        self.saved = saved;
        self
    }

    /// How many bodies were given up. It takes no memory.
    pub fn discarded(&self) -> u64
        ensures { result ≡ self.now.discarded }
    {
        self.discarded
    }

    /// How many drafts were given up. It takes no memory.
    pub fn dropped(&self) -> u64
        ensures { result ≡ self.now.dropped }
    {
        self.dropped
    }

    /// How many calls failed. It takes no memory.
    pub fn faults(&self) -> u64
        ensures { result ≡ self.now.faults }
    {
        self.faults
    }

    /// The next draft: it fails exactly where it is told to. It takes no memory.
    pub fn next_draft(&mut self) -> Result<MemDraft, ShelfEnd>
        ensures fails { IsErr result ↔ Contains self.old.failing self.old.calls }
        ensures empty { IfOk result (λ d. d.bytes ≡ []) }
        ensures spoilt { IfOk result (λ d. IsTrue d.spoilt ↔ Contains self.old.spoilt self.old.drafts) }
        ensures ok { OnOk result (self.new ≡ after_draft self.old) }
        ensures fault { IfErr result (λ e. e ≡ Fault) }
        ensures err { OnErr result (self.new ≡ after_fault self.old) }
        ensures later { self.old.faults ≤ self.new.faults }
    {
        self.call()?;
        let number = self.drafts;
        self.drafts = number.saturating_add(1);
        Ok(MemDraft {
            bytes: Bytes::new(self.alloc),
            spoilt: is_named(&self.spoilt, number),
        })
    }

    /// The next addition to a draft: it fails exactly where it is told to, and else adds all of the bytes, unless memory
    /// runs out.
    pub fn next_append(&mut self, draft: &mut MemDraft, bytes: &[u8]) -> Result<(), ShelfEnd>
        ensures fails { IsErrOf result Fault ↔ Contains self.old.failing self.old.calls }
        ensures ok { OnOk result (draft.new ≡ record draft.old { bytes = draft.old.bytes ++ bytes.now }) }
        ensures err { OnErr result (draft.new ≡ draft.old) }
        ensures done { OnOk result (self.new ≡ after_call self.old) }
        ensures fault { IsErrOf result Fault → self.new ≡ after_fault self.old }
        ensures memory { IsErrOf result NoMemory → self.new ≡ after_call self.old }
        ensures later { self.old.faults ≤ self.new.faults }
    {
        self.call()?;
        draft.bytes.push_slice(bytes)?;
        Ok(())
    }

    /// The next draft that is made a body: it fails exactly where it is told to, and then gives
    /// the draft up. It takes no memory.
    pub fn next_seal(&mut self, draft: MemDraft) -> Result<MemBody, ShelfEnd>
        ensures fails { IsErr result ↔ Contains self.old.failing self.old.calls }
        ensures body { IfOk result (λ b. b ≡ body_of draft) }
        ensures ok { OnOk result (self.new ≡ after_call self.old) }
        ensures fault { IfErr result (λ e. e ≡ Fault) }
        ensures err { OnErr result (self.new ≡ after_lost self.old) }
        ensures later { self.old.faults ≤ self.new.faults }
    {
        if let Err(e) = self.call() {
            self.drop_one(draft);
            return Err(e.into());
        }
        let MemDraft { bytes, spoilt } = draft;
        Ok(MemBody {
            bytes: spoilt_if(spoilt, bytes),
            told: !spoilt,
        })
    }

    /// The next reader: it fails exactly where it is told to, and else copies the body's bytes, unless memory runs out.
    pub fn next_reader(&mut self, body: &MemBody) -> Result<MemReader, ShelfEnd>
        ensures fails { IsErrOf result Fault ↔ Contains self.old.failing self.old.calls }
        ensures reader { IfOk result (λ r. r ≡ reader_of body.now) }
        ensures ok { OnOk result (self.new ≡ after_call self.old) }
        ensures fault { IsErrOf result Fault → self.new ≡ after_fault self.old }
        ensures memory { IsErrOf result NoMemory → self.new ≡ after_call self.old }
        ensures later { self.old.faults ≤ self.new.faults }
    {
        self.call()?;
        let bytes = Bytes::copy_of(self.alloc, body.bytes.as_slice())?;
        Ok(MemReader {
            bytes,
            told: body.told,
        })
    }

    /// The next read: it fails exactly where it is told to, and else gives all that fits. It takes no memory.
    pub fn next_read(
        &mut self,
        reader: &MemReader,
        at: u64,
        buf: &mut [u8],
    ) -> Result<usize, Failed>
        ensures fails { IsErr result ↔ Contains self.old.failing self.old.calls }
        ensures count { IfOk result (λ n. n ≡ given_at reader.now.bytes at (length buf.new)) }
        ensures bytes { IfOk result (λ n. take n buf.new ≡ take n (drop at reader.now.bytes)) }
        ensures ok { OnOk result (self.new ≡ after_call self.old) }
        ensures err { OnErr result (self.new ≡ after_fault self.old) }
        ensures later { self.old.faults ≤ self.new.faults }
    {
        self.call()?;
        Ok(copy_from(reader.bytes.as_slice(), at, buf))
    }

    /// The next body that is found: it fails exactly where it is told to. It takes no memory.
    pub fn next_body(&mut self) -> Result<Option<MemBody>, ShelfEnd>
        ensures fails { IsErr result ↔ Contains self.old.failing self.old.calls }
        ensures found { IfOk result (λ o. o ≡ first_body self.old.found) }
        ensures few { OnOk result (length self.old.found ≤ 2 ^ 63) }
        ensures ok { OnOk result (self.new ≡ after_found self.old) }
        ensures fault { IfErr result (λ e. e ≡ Fault) }
        ensures err { OnErr result (self.new ≡ after_fault self.old) }
        ensures later { self.old.faults ≤ self.new.faults }
    {
        self.call()?;
        Ok(first_of(&mut self.found))
    }

    /// The next look at the saved list: it fails exactly where it is told to, and else copies the list, unless memory runs
    /// out.
    pub fn next_saved(&mut self) -> Result<Digests, ShelfEnd>
        ensures fails { IsErrOf result Fault ↔ Contains self.old.failing self.old.calls }
        ensures list { IfOk result (λ ds. ds ≡ self.old.saved) }
        ensures distinct { IfOk result (λ ds. DistinctDigests ds) }
        ensures ok { OnOk result (self.new ≡ after_call self.old) }
        ensures fault { IsErrOf result Fault → self.new ≡ after_fault self.old }
        ensures memory { IsErrOf result NoMemory → self.new ≡ after_call self.old }
        ensures later { self.old.faults ≤ self.new.faults }
    {
        self.call()?;
        let digests = Digests::copy_of(self.alloc, self.saved.as_slice())?;
        Ok(digests)
    }

    // Gives a draft up, and counts it.
    fn drop_one(&mut self, draft: MemDraft)
        ensures { self.new ≡ after_drop self.old }
    {
        drop(draft);
        self.dropped = self.dropped.saturating_add(1);
    }

    // Counts a call, and refuses it where it is told to.
    fn call(&mut self) -> Result<(), Failed>
        ensures fails { IsErr result ↔ Contains self.old.failing self.old.calls }
        ensures ok { OnOk result (self.new ≡ after_call self.old) }
        ensures err { OnErr result (self.new ≡ after_fault self.old) }
        ensures later { self.old.faults ≤ self.new.faults }
    {
        let number = self.calls;
        self.calls = number.saturating_add(1);
        if self.failing.contains(&number) {
            self.faults = self.faults.saturating_add(1);
            return Err(Failed);
        }
        Ok(())
    }
}

fn is_named(numbers: &[u64], number: u64) -> bool
    ensures { IsTrue result ↔ Contains numbers.now number }
{
    numbers.contains(&number)
}

// The bytes of a body, whose first one reads one higher where they are to be spoilt.
fn spoilt_if(spoilt: bool, bytes: Bytes) -> Bytes
    ensures { result ≡ if spoilt then raised_first bytes else bytes }
{
    if !spoilt {
        return bytes;
    }
    let mut vec = bytes.into_vec();
    if !vec.is_empty() {
        vec[0] = vec[0].wrapping_add(1);
    }
    Bytes::from_vec(vec)
}

// Copies what stands from a place on into the front of the buffer, and answers how many bytes.
fn copy_from(bytes: &[u8], at: u64, buf: &mut [u8]) -> usize
    ensures count { result ≡ given_at bytes.now at (length buf.new) }
    ensures bytes { take result buf.new ≡ take result (drop at bytes.now) }
{
    let at = bytes.len().min(at as usize);
    let rest = &bytes[at..];
    let count = buf.len().min(rest.len());
    buf[..count].copy_from_slice(&rest[..count]);
    count
}

// Takes the first of the bodies out.
fn first_of(bodies: &mut Vec<Bytes>) -> Option<MemBody>
    ensures first { result ≡ first_body bodies.old.items }
    ensures rest { bodies.new.items ≡ drop 1 bodies.old.items }
{
    if bodies.is_empty() {
        return None;
    }
    Some(MemBody {
        bytes: bodies.remove(0),
        told: true,
    })
}

impl Shelf for MemShelf {
    type Draft = MemDraft;

    type Body = MemBody;

    type Reader = MemReader;

    ghost shelved = { λ s. shelved_of s };

    ghost drafted = { λ d. Some d.bytes };

    ghost kept = { λ b. told_if b.told b.bytes };

    ghost lent = { λ r. told_if r.told r.bytes };

    #[tactic(auto, using(crate::proofs::MemoryLemmas::stays_draft, crate::proofs::MemoryLemmas::some_fails))]
    fn draft(&mut self) -> Result<MemDraft, ShelfEnd>
        ensures fails { IsErr result ↔ Contains self.old.failing self.old.calls }
        ensures made { IfOk result (λ d. d.bytes ≡ []) }
        ensures spoilt { IfOk result (λ d. IsTrue d.spoilt ↔ Contains self.old.spoilt self.old.drafts) }
        ensures ok { OnOk result (self.new ≡ after_draft self.old) }
        ensures fault { IfErr result (λ e. e ≡ Fault) }
        ensures err { OnErr result (self.new ≡ after_fault self.old) }
        ensures stays { Stays (shelved_of self.old) (shelved_of self.new) }
    {
        self.next_draft()
    }

    #[tactic(auto, using(crate::proofs::MemoryLemmas::stays_memory, crate::proofs::MemoryLemmas::some_fails))]
    fn append(&mut self, draft: &mut MemDraft, bytes: &[u8]) -> Result<(), ShelfEnd>
        ensures fails { IsErrOf result Fault ↔ Contains self.old.failing self.old.calls }
        ensures added { OnOk result (draft.new ≡ record draft.old { bytes = draft.old.bytes ++ bytes.now }) }
        ensures same { OnErr result (draft.new ≡ draft.old) }
        ensures done { OnOk result (self.new ≡ after_call self.old) }
        ensures fault { IsErrOf result Fault → self.new ≡ after_fault self.old }
        ensures memory { IsErrOf result NoMemory → self.new ≡ after_call self.old }
        ensures stays { Stays (shelved_of self.old) (shelved_of self.new) }
    {
        self.next_append(draft, bytes)
    }

    #[tactic(auto, using(crate::proofs::MemoryLemmas::stays_seal, crate::proofs::MemoryLemmas::loses_seal, crate::proofs::MemoryLemmas::some_fails))]
    fn seal(&mut self, draft: MemDraft) -> Result<MemBody, ShelfEnd>
        ensures fails { IsErr result ↔ Contains self.old.failing self.old.calls }
        ensures sealed { IfOk result (λ b. b ≡ body_of draft) }
        ensures done { OnOk result (self.new ≡ after_call self.old) }
        ensures fault { IfErr result (λ e. e ≡ Fault) }
        ensures lost { OnErr result (self.new ≡ after_lost self.old) }
        ensures err { OnErr result (Stays (dropping (shelved_of self.old)) (shelved_of self.new)) }
    {
        self.next_seal(draft)
    }

    #[tactic(auto, using(crate::proofs::MemoryLemmas::stays_memory, crate::proofs::MemoryLemmas::some_fails))]
    fn reader(&mut self, body: &MemBody) -> Result<MemReader, ShelfEnd>
        ensures fails { IsErrOf result Fault ↔ Contains self.old.failing self.old.calls }
        ensures made { IfOk result (λ r. r ≡ reader_of body.now) }
        ensures done { OnOk result (self.new ≡ after_call self.old) }
        ensures fault { IsErrOf result Fault → self.new ≡ after_fault self.old }
        ensures memory { IsErrOf result NoMemory → self.new ≡ after_call self.old }
        ensures stays { Stays (shelved_of self.old) (shelved_of self.new) }
    {
        self.next_reader(body)
    }

    #[tactic(auto, using(crate::proofs::MemoryLemmas::stays_call, crate::proofs::MemoryLemmas::some_fails))]
    fn read_at(&mut self, reader: &mut MemReader, at: u64, buf: &mut [u8]) -> Result<usize, Failed>
        ensures fails { IsErr result ↔ Contains self.old.failing self.old.calls }
        ensures count { IfOk result (λ n. n ≡ given_at reader.old.bytes at (length buf.new)) }
        ensures given { IfOk result (λ n. take n buf.new ≡ take n (drop at reader.old.bytes)) }
        ensures same { reader.new ≡ reader.old }
        ensures done { OnOk result (self.new ≡ after_call self.old) }
        ensures err { OnErr result (self.new ≡ after_fault self.old) }
        ensures stays { Stays (shelved_of self.old) (shelved_of self.new) }
    {
        self.next_read(reader, at, buf)
    }

    fn discard(&mut self, body: MemBody)
        ensures { self.new ≡ after_discard self.old }
    {
        drop(body);
        self.discarded = self.discarded.saturating_add(1);
    }

    fn drop_draft(&mut self, draft: MemDraft)
        ensures { self.new ≡ after_drop self.old }
    {
        self.drop_one(draft);
    }

    #[tactic(auto, using(crate::proofs::MemoryLemmas::finds_first, crate::proofs::MemoryLemmas::some_fails))]
    fn next_found(&mut self) -> Result<Option<MemBody>, ShelfEnd>
        ensures fails { IsErr result ↔ Contains self.old.failing self.old.calls }
        ensures first { IfOk result (λ o. o ≡ first_body self.old.found) }
        ensures ok { OnOk result (self.new ≡ after_found self.old) }
        ensures fault { IfErr result (λ e. e ≡ Fault) }
        ensures lost { OnErr result (self.new ≡ after_fault self.old) }
        ensures found { IfOk result (λ o. IfSome o (λ b. Finds (shelved_of self.old) (shelved_of self.new) (told_if b.told b.bytes))) }
        ensures later { self.old.faults ≤ self.new.faults }
    {
        self.next_body()
    }

    #[tactic(auto, using(crate::proofs::MemoryLemmas::stays_memory, crate::proofs::MemoryLemmas::some_fails))]
    fn saved(&mut self) -> Result<Digests, ShelfEnd>
        ensures fails { IsErrOf result Fault ↔ Contains self.old.failing self.old.calls }
        ensures copied { IfOk result (λ ds. ds ≡ self.old.saved) }
        ensures distinct { IfOk result (λ ds. DistinctDigests ds) }
        ensures done { OnOk result (self.new ≡ after_call self.old) }
        ensures fault { IsErrOf result Fault → self.new ≡ after_fault self.old }
        ensures memory { IsErrOf result NoMemory → self.new ≡ after_call self.old }
        ensures stays { Stays (shelved_of self.old) (shelved_of self.new) }
    {
        self.next_saved()
    }

    ghost few = { λ s. omega arith };

    ghost told = { λ s is. refl };
}
