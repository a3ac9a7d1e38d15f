//! `Door`.

ghost use Rattle.std.specs.Prelude.{◌≡◌, ◌<◌, false, true, [], IfOk, OnOk, OnErr, IfSome, IsSome, None};
ghost use Rattle.store_core.specs.declared.event.Event.TheVariants as events;
ghost use Rattle.store_core.specs.declared.event.Reply.TheVariants as replies;
ghost use Rattle.blob_store.specs.View.{View, IsSeated, IsSound, Makes, Waits, Enters, StaysOut, Leaves, MayCall, own_now, holds};
ghost use Rattle.blob_store.specs.Calls.{put_reply, put_discards, read_reply, Begins};
ghost use Rattle.blob_store.specs.Shelves.{Stays, HasShelfCause, discarding};

use crate::checked::Checked;
use crate::reading::Reading;
use crate::shelf::{Shelf, ShelfEnd};
use digest_types::{Digest, Digests};
use directory_canon::Kind;
use proto_wire::OutOfMemory;
use store_core::{Standing, Usage};

/// What a put answers.
#[derive(Clone, Copy, Debug, PartialEq, Eq)]
pub enum PutReply {
    Stored { removed: u64, used: u64 },
    Present,
    Repaired,
    NoSpace { guarded: u64, size: u64, high: u64 },
}

/// What a pass answers: how many rows it removed, and how many bytes are used then.
#[derive(Clone, Copy, Debug, PartialEq, Eq)]
pub struct Passed {
    pub removed: u64,
    pub used: u64,
}

/// A seat at the store: each call is one turn and one entry of its owner, whose reply is the answer. Only a call that is
/// refused makes no entry, and leaves the store as it was.
///
/// The view of every door has an identity: the lock at which the door stands, or the place of its seat on a bench and the
/// other seats there. Every call keeps it, so that a caller that is generic over doors knows after a call that the door is
/// at the same lock and has the same seat.
pub trait Door<K: Shelf> {
    // what it has seen and may still do, and its identity, which every implementer fills and every call keeps
    ghost view: { Self → View };

    /// How many turns it may still take. It takes no memory and makes no entry.
    fn left(&self) -> u64
        ensures left { result ≡ (view self.now).left }
        // What it has seen is a legal history from a valid state.
        ensures sound { IsSound (view self.now) }
        // A seat that has entered has an owner, whose entries are its own.
        ensures seated { (view self.now).entered ≡ true → IsSeated (view self.now) };

    /// How many entries its seat has made. It takes no memory and makes no entry.
    fn made(&self) -> u64
        ensures { result ≡ (view self.now).made };

    /// A new owner comes.
    fn enter(&mut self) -> Result<(), OutOfMemory>
        requires out { (view self.old).entered ≡ false }
        requires turn { 0 < (view self.old).left }
        ensures ok { OnOk result (Enters (view self.old) (view self.new)) }
        ensures err { OnErr result (StaysOut (view self.old) (view self.new)) };

    /// What `put` does, with a blob that is taken out.
    fn put_from(
        &mut self,
        shelf: &mut K,
        blob: &mut Option<Checked<K>>,
    ) -> Result<PutReply, OutOfMemory>
        requires call { MayCall (view self.old) }
        requires there { IsSome blob.old }
        ensures taken { blob.new ≡ None }
        ensures ok { IfOk result (λ r. IfSome blob.old (λ b. Makes (view self.old) (view self.new) (events.Put b.digest b.edges) (put_reply r))) }
        ensures err { OnErr result (Waits (view self.old) (view self.new)) }
        ensures shelf { K.shelved shelf.new ≡ discarding (put_discards result) (K.shelved shelf.old) };

    /// The blobs that aren't there, each once, in the order of their first mention.
    fn find(&mut self, digests: &Digests) -> Result<Digests, OutOfMemory>
        requires { MayCall (view self.old) }
        ensures ok { IfOk result (λ ds. Makes (view self.old) (view self.new) (events.Find digests.now) (replies.Missing ds)) }
        ensures err { OnErr result (Waits (view self.old) (view self.new)) };

    /// Begins to read a blob, or None where it isn't there or is unsound.
    fn read(&mut self, shelf: &mut K, digest: &Digest) -> Result<Option<Reading<K>>, ShelfEnd>
        requires { MayCall (view self.old) }
        ensures ok { IfOk result (λ o. Makes (view self.old) (view self.new) (events.Read digest.now) (read_reply o)) }
        ensures begun { IfOk result (λ o. IfSome o (Begins digest.now)) }
        ensures err { OnErr result (Waits (view self.old) (view self.new)) }
        ensures stays { Stays (K.shelved shelf.old) (K.shelved shelf.new) }
        ensures cause { HasShelfCause (K.shelved shelf.old) (K.shelved shelf.new) result };

    /// Takes a lease on a root, which needn't be there, and answers its number.
    fn lease(&mut self, root: &Digest, kind: Kind) -> Result<u64, OutOfMemory>
        requires { MayCall (view self.old) }
        ensures ok { IfOk result (λ id. Makes (view self.old) (view self.new) (events.Lease root.now kind) (replies.Leased id)) }
        ensures err { OnErr result (Waits (view self.old) (view self.new)) };

    /// How a lease stands.
    fn confirm(&mut self, lease: u64, files: bool) -> Result<Standing, OutOfMemory>
        requires call { MayCall (view self.old) }
        requires own { holds (view self.old) lease ≡ true }
        ensures ok { IfOk result (λ standing. Makes (view self.old) (view self.new) (events.Confirm lease files) (replies.Stands standing)) }
        ensures err { OnErr result (Waits (view self.old) (view self.new)) };

    /// Gives a lease up. It takes no memory.
    fn release(&mut self, lease: u64)
        requires call { MayCall (view self.old) }
        requires own { holds (view self.old) lease ≡ true }
        ensures { Makes (view self.old) (view self.new) (events.Release lease) replies.Released };

    /// Notes that a blob's bytes were found to have another digest. It takes no memory.
    fn damage(&mut self, digest: &Digest)
        requires { MayCall (view self.old) }
        ensures { Makes (view self.old) (view self.new) (events.Damage digest.now) replies.Marked };

    /// A pass to the low mark. It takes no memory.
    fn pass(&mut self, shelf: &mut K) -> Passed
        requires { MayCall (view self.old) }
        ensures made { Makes (view self.old) (view self.new) events.Pass (replies.Passed result.removed result.used) }
        ensures shelf { K.shelved shelf.new ≡ discarding result.removed (K.shelved shelf.old) };

    /// The numbers of the store. It takes no memory.
    fn usage(&mut self) -> Usage
        requires { MayCall (view self.old) }
        ensures { Makes (view self.old) (view self.new) events.Usage (replies.Used result) };

    /// The owner goes. It holds no lease. It takes no memory.
    fn leave(&mut self)
        requires call { MayCall (view self.old) }
        requires none { own_now (view self.old) ≡ [] }
        ensures { Leaves (view self.old) (view self.new) };

    /// Puts a blob. A body that isn't kept is discarded, also where memory runs out.
    final fn put(&mut self, shelf: &mut K, blob: Checked<K>) -> Result<PutReply, OutOfMemory>
        requires { MayCall (view self.old) }
        ensures ok { IfOk result (λ r. Makes (view self.old) (view self.new) (events.Put blob.digest blob.edges) (put_reply r)) }
        ensures err { OnErr result (Waits (view self.old) (view self.new)) }
        ensures shelf { K.shelved shelf.new ≡ discarding (put_discards result) (K.shelved shelf.old) }
    {
        self.put_from(shelf, &mut Some(blob))
    }
}
