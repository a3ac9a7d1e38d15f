//! `Shelf`.

ghost use Rattle.std.specs.Prelude.{◌≡◌, ◌+◌, ◌<◌, ◌≤◌, ◌^◌, ◌⊎◌, ℕ, [], List, Option, length, take, drop, IfOk, OnOk, OnErr, IfSome, IfNone, IsSome};
ghost use Rattle.store_core.specs.State.{DistinctDigests};
ghost use Rattle.blob_store.specs.Shelves.{Shelved, Stays, Fails, HasShelfCause, discarding, dropping, appended, HasPart, Finds, FindsNone};
ghost use Rattle.blob_store.specs.declared.shelf.ShelfEnd.TheVariants.{Failed as Fault, OutOfMemory as NoMemory};

use casd_base::Failed;
use digest_types::Digests;
use proto_wire::OutOfMemory;

/// Why a shelf refuses.
#[derive(Clone, Copy, Debug, PartialEq, Eq)]
pub enum ShelfEnd {
    /// The outside failed, and it was counted.
    Failed,
    OutOfMemory,
}

impl From<Failed> for ShelfEnd {
    ghost from_gives = { λ _ e. e ≡ Fault };

    fn from(_e: Failed) -> ShelfEnd {
        ShelfEnd::Failed
    }
}

impl From<OutOfMemory> for ShelfEnd {
    ghost from_gives = { λ _ e. e ≡ NoMemory };

    fn from(_e: OutOfMemory) -> ShelfEnd {
        ShelfEnd::OutOfMemory
    }
}

/// Where bodies of blobs are kept. A draft takes bytes until it is sealed and is a body then; a reader reads a body, also
/// one that was discarded since. A draft, a body and a reader may each tell its bytes, as the double in memory does. A
/// draft or body that is dropped and not given back stays where it is.
pub trait Shelf {
    type Draft: Drop;

    type Body: Drop;

    type Reader: Drop;

    // the counts of faults and of bodies and drafts that were given up, the bodies to be found, and the saved list
    ghost shelved: { Self → Shelved };

    // the bytes of a draft, of a body and of a reader's body, where they are told
    ghost drafted: { Self.Draft → Option (List ℕ) };

    ghost kept: { Self.Body → Option (List ℕ) };

    ghost lent: { Self.Reader → Option (List ℕ) };

    /// A draft without bytes.
    fn draft(&mut self) -> Result<Self::Draft, ShelfEnd>
        ensures empty { IfOk result (λ d. IfSome (drafted d) (λ bytes. bytes ≡ [])) }
        ensures stays { Stays (shelved self.old) (shelved self.new) }
        ensures cause { HasShelfCause (shelved self.old) (shelved self.new) result };

    /// Appends bytes. A draft whose call was refused may hold a part of them.
    fn append(&mut self, draft: &mut Self::Draft, bytes: &[u8]) -> Result<(), ShelfEnd>
        ensures ok { OnOk result (drafted draft.new ≡ appended (drafted draft.old) bytes.now) }
        ensures err { OnErr result (HasPart (drafted draft.old) (drafted draft.new) bytes.now) }
        ensures stays { Stays (shelved self.old) (shelved self.new) }
        ensures cause { HasShelfCause (shelved self.old) (shelved self.new) result };

    /// Makes a draft a body. Where it is refused the draft is given up.
    fn seal(&mut self, draft: Self::Draft) -> Result<Self::Body, ShelfEnd>
        ensures body { IfOk result (λ b. IfSome (kept b) (λ bytes. drafted draft ≡ Some bytes)) }
        ensures ok { OnOk result (Stays (shelved self.old) (shelved self.new)) }
        ensures err { OnErr result (Stays (dropping (shelved self.old)) (shelved self.new)) }
        ensures cause { HasShelfCause (shelved self.old) (shelved self.new) result };

    /// A reader of a body.
    fn reader(&mut self, body: &Self::Body) -> Result<Self::Reader, ShelfEnd>
        ensures body { IfOk result (λ r. lent r ≡ kept body.now) }
        ensures stays { Stays (shelved self.old) (shelved self.new) }
        ensures cause { HasShelfCause (shelved self.old) (shelved self.new) result };

    /// Reads from a place on into the front of the buffer, and answers how many bytes. For a buffer that isn't empty, 0
    /// is the body's end.
    fn read_at(
        &mut self,
        reader: &mut Self::Reader,
        at: u64,
        buf: &mut [u8],
    ) -> Result<usize, Failed>
        ensures bound { IfOk result (λ n. n ≤ length buf.new) }
        ensures bytes { IfOk result (λ n. IfSome (lent reader.old) (λ all. take n buf.new ≡ take n (drop at all))) }
        ensures some { IfOk result (λ n. IfSome (lent reader.old) (λ all. at + n ≤ length all ⊎ (n ≡ 0))) }
        ensures ended { IfOk result (λ n. n ≡ 0 → 0 < length buf.new → IfSome (lent reader.old) (λ all. length all ≤ at)) }
        ensures reader { lent reader.new ≡ lent reader.old }
        ensures stays { Stays (shelved self.old) (shelved self.new) }
        ensures cause { OnErr result (Fails (shelved self.old) (shelved self.new)) };

    /// Gives a body up.
    fn discard(&mut self, body: Self::Body)
        ensures { shelved self.new ≡ discarding 1 (shelved self.old) };

    /// Gives a draft up.
    fn drop_draft(&mut self, draft: Self::Draft)
        ensures { shelved self.new ≡ dropping (shelved self.old) };

    /// The next of the bodies that stood there when the shelf was made, each once, or `None` when no more are left.
    fn next_found(&mut self) -> Result<Option<Self::Body>, ShelfEnd>
        ensures found { IfOk result (λ o. IfSome o (λ b. Finds (shelved self.old) (shelved self.new) (kept b))) }
        ensures none { IfOk result (λ o. IfNone o (FindsNone (shelved self.old) (shelved self.new))) }
        ensures err { OnErr result ((shelved self.new).found ≡ (shelved self.old).found) }
        ensures to_find { (shelved self.new).to_find ≤ (shelved self.old).to_find }
        ensures later { (shelved self.old).faults ≤ (shelved self.new).faults }
        ensures discarded { (shelved self.new).discarded ≡ (shelved self.old).discarded }
        ensures dropped { (shelved self.new).dropped ≡ (shelved self.old).dropped }
        ensures may_fail { (shelved self.new).may_fail ≡ (shelved self.old).may_fail }
        ensures saved { (shelved self.new).saved ≡ (shelved self.old).saved }
        ensures cause { HasShelfCause (shelved self.old) (shelved self.new) result };

    /// The digests in the order of their use that an earlier run left, the least recent first and each once, or the empty
    /// list where none is left. No call changes it.
    fn saved(&mut self) -> Result<Digests, ShelfEnd>
        ensures list { IfOk result (λ ds. IfSome (shelved self.old).saved (λ saved. ds ≡ saved)) }
        ensures distinct { IfOk result (λ ds. DistinctDigests ds) }
        ensures stays { Stays (shelved self.old) (shelved self.new) }
        ensures cause { HasShelfCause (shelved self.old) (shelved self.new) result };

    // a shelf has at most 2^63 bodies to find
    ghost few: { (s : Self) → (shelved s).to_find ≤ 2 ^ 63 };

    // a shelf that tells the bodies to be found tells the saved list too
    ghost told: { (s : Self) → IsSome (shelved s).found → IsSome (shelved s).saved };
}
