//! `Taking`.

ghost use Rattle.std.specs.Prelude.{◌≡◌, ◌+◌, ◌<◌, ◌≤◌, ◌++◌, ◌⊎◌, ℕ, List, [], length, take, drop, Some, IfOk, IfErr, IfSome, OnOk, OnErr, IsErrOf};
ghost use Rattle.digest_types.specs.Digest.{digest_of};
ghost use Rattle.digest_types.specs.Hasher.{Holds};
ghost use Rattle.blob_store.specs.Shelves.{Stays, Fails, HasShelfCause};
ghost use Rattle.blob_store.specs.Bodies.{HasTaken, IsWhole, Ends, lent_by, limit_of, max_piece};
ghost use Rattle.blob_store.specs.declared.reading.ReadingEnd.TheVariants.{Failed as Fault};
ghost use Rattle.blob_store.specs.Taking.{IsPlace, IsOther, TakesPiece, TakesPart};

use crate::reading::ReadingEnd;
use crate::shelf::{Shelf, ShelfEnd};
use casd_base::Failed;
use digest_types::{Digest, Hasher};

/// The most bytes that a hasher takes.
const MAX_SIZE: u64 = 1 << 60;

/// The most bytes that are read at once.
const MAX_PIECE: usize = 1_048_576;

/// Takes a body's bytes in their order into a hasher, up to one more than a digest says.
#[derive(Drop)]
pub(crate) struct Taking<K: Shelf> {
    /// The empty blob has no body, and is read without a reader.
    reader: Option<K::Reader>,
    want: Digest,
    hasher: Hasher,
    at: u64,
}

impl<K: Shelf> Taking<K> {
    /// Nothing was taken yet.
    pub(crate) fn new(shelf: &mut K, body: &K::Body, want: Digest) -> Result<Taking<K>, ShelfEnd>
        ensures want { IfOk result (λ t. t.want ≡ want) }
        ensures told { IfOk result (λ t. lent_by K.lent t.reader ≡ K.kept body.now) }
        ensures begun { IfOk result (λ t. HasTaken t.hasher (lent_by K.lent t.reader) []) }
        ensures place { IfOk result (λ t. IsPlace t.want t.hasher (lent_by K.lent t.reader) t.at) }
        ensures stays { Stays (K.shelved shelf.old) (K.shelved shelf.new) }
        ensures cause { HasShelfCause (K.shelved shelf.old) (K.shelved shelf.new) result }
    {
        let reader = shelf.reader(body)?;
        Ok(Taking {
            reader: Some(reader),
            want,
            hasher: Hasher::new(),
            at: 0,
        })
    }

    /// The empty blob, which has no body.
    pub(crate) fn empty() -> Taking<K>
        ensures want { result.want ≡ digest_of [] }
        ensures told { lent_by K.lent result.reader ≡ Some [] }
        ensures begun { HasTaken result.hasher (lent_by K.lent result.reader) [] }
        ensures place { IsPlace result.want result.hasher (lent_by K.lent result.reader) result.at }
    {
        Taking {
            reader: None,
            want: Digest::empty(),
            hasher: Hasher::new(),
            at: 0,
        }
    }

    // How many bytes may still be taken.
    fn left(&self) -> u64
        requires { self.now.at ≤ limit_of self.now.want }
        ensures { self.now.at + result ≡ limit_of self.now.want }
    {
        MAX_SIZE.min(self.want.size + 1) - self.at
    }

    // Refuses where the digest of what was taken isn't the one that is wanted.
    fn judge(&self) -> Result<(), ReadingEnd>
        requires { IsPlace self.now.want self.now.hasher (lent_by K.lent self.now.reader) self.now.at }
        ensures fits { OnOk result (self.now.at ≤ self.now.want.size) }
        ensures ok { OnOk result ((read : List ℕ) → Holds self.now.hasher read → digest_of read ≡ self.now.want) }
        ensures err { IfErr result (IsOther self.now.want self.now.hasher) }
    {
        let want = self.want;
        let got = self.hasher.so_far();
        if got == want {
            return Ok(());
        }
        Err(ReadingEnd::Damaged { want, got })
    }

    // Takes the next bytes into the front of the buffer, and answers how many.
    fn take(&mut self, shelf: &mut K, buf: &mut [u8]) -> Result<usize, Failed>
        requires place { IsPlace self.old.want self.old.hasher (lent_by K.lent self.old.reader) self.old.at }
        requires room { self.old.at + length buf.old ≤ limit_of self.old.want }
        ensures bound { IfOk result (λ n. n ≤ length buf.new) }
        ensures bytes { IfOk result (λ n. TakesPiece self.old.hasher self.new.hasher (lent_by K.lent self.old.reader) (take n buf.new)) }
        ensures at { IfOk result (λ n. self.new.at ≡ self.old.at + n) }
        ensures ended { IfOk result (λ n. n ≡ 0 → 0 < length buf.new → IfSome (lent_by K.lent self.old.reader) (λ all. length all ≤ self.old.at)) }
        ensures err { OnErr result ((self.new.hasher ≡ self.old.hasher) × (self.new.at ≡ self.old.at)) }
        ensures want { self.new.want ≡ self.old.want }
        ensures told { lent_by K.lent self.new.reader ≡ lent_by K.lent self.old.reader }
        ensures stays { Stays (K.shelved shelf.old) (K.shelved shelf.new) }
        ensures cause { OnErr result (Fails (K.shelved shelf.old) (K.shelved shelf.new)) }
    {
        if buf.is_empty() {
            return Ok(0);
        }
        let count = read_at(shelf, &mut self.reader, self.at, buf)?;
        self.hasher.update(&buf[..count]);
        self.at += count as u64;
        Ok(count)
    }

    // Reads on, and judges the digest at the body's end and at the limit.
    pub(crate) fn read_on(&mut self, shelf: &mut K, buf: &mut [u8]) -> Result<usize, ReadingEnd>
        requires { IsPlace self.old.want self.old.hasher (lent_by K.lent self.old.reader) self.old.at }
        ensures bound { IfOk result (λ n. n ≤ length buf.new) }
        ensures piece { IfOk result (λ n. n ≤ max_piece) }
        ensures bytes { IfOk result (λ n. TakesPiece self.old.hasher self.new.hasher (lent_by K.lent self.old.reader) (take n buf.new)) }
        ensures ended { IfOk result (λ n. n ≡ 0 → 0 < length buf.new → IsWhole self.new.want self.new.hasher (lent_by K.lent self.new.reader)) }
        ensures fits { OnOk result (self.new.at ≤ self.new.want.size) }
        ensures err { IfErr result (Ends self.new.want self.new.hasher (lent_by K.lent self.new.reader)) }
        ensures partial { OnErr result (TakesPart self.old.hasher self.new.hasher (lent_by K.lent self.old.reader) buf.new) }
        ensures place { IsPlace self.new.want self.new.hasher (lent_by K.lent self.new.reader) self.new.at }
        ensures want { self.new.want ≡ self.old.want }
        ensures told { lent_by K.lent self.new.reader ≡ lent_by K.lent self.old.reader }
        ensures stays { Stays (K.shelved shelf.old) (K.shelved shelf.new) }
        ensures cause { IsErrOf result Fault → Fails (K.shelved shelf.old) (K.shelved shelf.new) }
    {
        let room = buf.len().min(MAX_PIECE).min(self.left() as usize);
        let count = self.take(shelf, &mut buf[..room])?;
        if self.left() == 0 || count == 0 && !buf.is_empty() {
            self.judge()?;
        }
        Ok(count)
    }
}

// Reads from a place on. Without a reader there is nothing.
fn read_at<K: Shelf>(
    shelf: &mut K,
    reader: &mut Option<K::Reader>,
    at: u64,
    buf: &mut [u8],
) -> Result<usize, Failed>
    ensures bound { IfOk result (λ n. n ≤ length buf.new) }
    ensures bytes { IfOk result (λ n. IfSome (lent_by K.lent reader.old) (λ all. take n buf.new ≡ take n (drop at all))) }
    ensures some { IfOk result (λ n. IfSome (lent_by K.lent reader.old) (λ all. at + n ≤ length all ⊎ (n ≡ 0))) }
    ensures ended { IfOk result (λ n. n ≡ 0 → 0 < length buf.new → IfSome (lent_by K.lent reader.old) (λ all. length all ≤ at)) }
    ensures reader { lent_by K.lent reader.new ≡ lent_by K.lent reader.old }
    ensures stays { Stays (K.shelved shelf.old) (K.shelved shelf.new) }
    ensures cause { OnErr result (Fails (K.shelved shelf.old) (K.shelved shelf.new)) }
{
    match reader {
        Some(reader) => shelf.read_at(reader, at, buf),
        None => Ok(0),
    }
}
