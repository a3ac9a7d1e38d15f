//! `HostShelf`, the shelf over a folder. It tells no content, and is trusted: that the folder keeps and gives the bytes is
//! not proved.

ghost use Rattle.std.specs.Prelude.{◌≡◌, ◌≤◌, length, None, IsTrue, IfOk, OnOk};
ghost use Rattle.casd_base.specs.Memory.{counted};
ghost use Rattle.blob_store.specs.Shelves.{HasShelfCause};
ghost use Rattle.cache_folder.specs.Told.{told, left, few_left, IsFirst, IsRefusal};

use crate::body_name::BodyName;
use crate::draft::{HostBody, HostDraft, HostReader};
use crate::folder::bodies_before;
use crate::keep::saved_use;
use blob_store::{Shelf, ShelfEnd};
use casd_base::Failed;
use digest_types::Digests;
use proto_wire::OutOfMemory;
use std::alloc::Global;
use std::io;
use std::io::ErrorKind;

/// A shelf whose bodies are the files of a folder. It finds the bodies of earlier runs, by the run, the shelf and the draft
/// that wrote them, and reads the list of use that the last of them kept. Several shelves of one run share a folder, each
/// under a number of its own.
#[derive(Drop)]
pub struct HostShelf {
    rt: HostRuntime,
    alloc: Global,
    folder: String,
    run: u64,
    seat: u64,
    drafts: u64,
    faults: u64,
    discarded: u64,
    dropped: u64,
    listed: bool,
    found: Vec<BodyName>,
}

impl HostShelf {
    /// A shelf of a run under a number that no other shelf of the run has. It looks at the folder at its first call.
    pub fn new(
        rt: HostRuntime,
        alloc: Global,
        folder: &str,
        run: u64,
        seat: u64,
    ) -> Result<HostShelf, OutOfMemory>
        ensures { IfOk result (λ s. IsFirst s run seat) }
    {
        Ok(HostShelf {
            rt,
            alloc,
            folder: String::from_str(alloc, folder)?,
            run,
            seat,
            drafts: 0,
            faults: 0,
            discarded: 0,
            dropped: 0,
            listed: false,
            found: Vec::new(alloc),
        })
    }

    /// How many calls failed. It takes no memory.
    pub fn faults(&self) -> u64
        ensures { result ≡ (told self.now).faults }
    {
        self.faults
    }

    // The name of the next draft.
    fn next_name(&mut self) -> BodyName
        ensures name { result ≡ record { run = self.old.run; seat = self.old.seat; draft = self.old.drafts } }
        ensures next { self.new ≡ record self.old { drafts = counted self.old.drafts } }
    {
        let draft = self.drafts;
        self.drafts = draft.saturating_add(1);
        BodyName {
            run: self.run,
            seat: self.seat,
            draft,
        }
    }

    // Looks for the bodies of earlier runs, once.
    fn list(&mut self) -> Result<(), ShelfEnd>
        ensures ok { OnOk result (IsTrue self.new.listed) }
        ensures to_find { left self.new ≤ left self.old }
        ensures rest { told self.new ≡ record (told self.old) { faults = self.new.faults; to_find = left self.new } }
        ensures later { self.old.faults ≤ self.new.faults }
        ensures cause { HasShelfCause (told self.old) (told self.new) result }
    {
        if self.listed {
            return Ok(());
        }
        match bodies_before(self.rt, self.alloc, self.folder.as_str(), self.run) {
            Ok(found) => {
                self.found = found;
                self.listed = true;
                Ok(())
            }
            Err(e) => Err(self.refuse(e)),
        }
    }

    // Why a call is refused: for want of memory, or for a fault, which is counted.
    fn refuse(&mut self, e: io::Error) -> ShelfEnd
        ensures why { IsRefusal self.old self.new result }
        ensures later { self.old.faults ≤ self.new.faults }
    {
        if e.kind() == ErrorKind::OutOfMemory {
            return ShelfEnd::OutOfMemory;
        }
        let Failed = self.fail();
        ShelfEnd::Failed
    }

    // Counts a fault.
    fn fail(&mut self) -> Failed
        ensures count { self.new ≡ record self.old { faults = counted self.old.faults } }
        ensures later { self.old.faults ≤ self.new.faults }
    {
        self.faults = self.faults.saturating_add(1);
        Failed
    }
}

impl Shelf for HostShelf {
    type Draft = HostDraft;

    type Body = HostBody;

    type Reader = HostReader;

    ghost shelved = { λ s. told s };

    ghost drafted = { λ _. None };

    ghost kept = { λ _. None };

    ghost lent = { λ _. None };

    #[tactic(auto, using(crate::proofs::ToldLemmas::stays_refused))]
    fn draft(&mut self) -> Result<HostDraft, ShelfEnd> {
        let name = self.next_name();
        match HostDraft::new(self.rt, self.alloc, self.folder.as_str(), name) {
            Ok(draft) => Ok(draft),
            Err(e) => Err(self.refuse(e)),
        }
    }

    #[tactic(auto, using(crate::proofs::ToldLemmas::stays_refused))]
    fn append(&mut self, draft: &mut HostDraft, bytes: &[u8]) -> Result<(), ShelfEnd> {
        match draft.append(bytes) {
            Ok(()) => Ok(()),
            Err(e) => Err(self.refuse(e)),
        }
    }

    fn seal(&mut self, draft: HostDraft) -> Result<HostBody, ShelfEnd> {
        Ok(draft.into_body())
    }

    #[tactic(auto, using(crate::proofs::ToldLemmas::stays_refused))]
    fn reader(&mut self, body: &HostBody) -> Result<HostReader, ShelfEnd> {
        match body.open(self.rt, self.alloc, self.folder.as_str()) {
            Ok(reader) => Ok(reader),
            Err(e) => Err(self.refuse(e)),
        }
    }

    fn read_at(
        &mut self,
        reader: &mut HostReader,
        at: u64,
        buf: &mut [u8],
    ) -> Result<usize, Failed> {
        match reader.read_at(at, buf) {
            Ok(count) => Ok(count),
            Err(_) => Err(self.fail()),
        }
    }

    fn discard(&mut self, body: HostBody) {
        let _ = body.remove(self.rt, self.alloc, self.folder.as_str());
        self.discarded = self.discarded.saturating_add(1);
    }

    fn drop_draft(&mut self, draft: HostDraft) {
        drop(draft);
        self.dropped = self.dropped.saturating_add(1);
    }

    fn next_found(&mut self) -> Result<Option<HostBody>, ShelfEnd> {
        self.list()?;
        Ok(self.found.pop().map(HostBody::found))
    }

    #[tactic(auto, using(crate::proofs::ToldLemmas::stays_refused))]
    fn saved(&mut self) -> Result<Digests, ShelfEnd> {
        match saved_use(self.rt, self.alloc, self.folder.as_str()) {
            Ok(order) => Ok(order),
            Err(e) => Err(self.refuse(e)),
        }
    }

    ghost few = { λ s. few_left s.listed (length s.found.items) };

    ghost told = { λ s is. absurd cc };
}
