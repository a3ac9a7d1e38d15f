//! `Reading`.

ghost use Rattle.std.specs.Prelude.{◌≡◌, ◌<◌, ◌≤◌, ℕ, List, [], length, take, Some, None, Err, IfOk, IfErr, IfSome, OnOk, OnErr, IsErrOf, IfNone};
ghost use Rattle.digest_types.specs.Digest.{digest_of};
ghost use Rattle.blob_store.specs.Shelves.{Stays, Fails, HasShelfCause};
ghost use Rattle.blob_store.specs.Bodies.{HasRead, ReadsOn, ReadsPart, IsRead, Explains, limit_of, max_piece};
ghost use Rattle.blob_store.specs.declared.reading.ReadingEnd.TheVariants.{Failed as Fault};

use crate::shelf::{Shelf, ShelfEnd};
use crate::taking::Taking;
use casd_base::Failed;
use digest_types::Digest;
use std::marker::Model;

/// Why a body isn't read on.
#[derive(Clone, Copy, Debug, PartialEq, Eq)]
pub enum ReadingEnd {
    /// The outside failed, and it was counted.
    Failed,
    /// The bytes, up to one more than the digest says, have another digest.
    Damaged { want: Digest, got: Digest },
}

impl From<Failed> for ReadingEnd {
    ghost from_gives = { λ _ e. e ≡ Fault };

    fn from(_e: Failed) -> ReadingEnd {
        ReadingEnd::Failed
    }
}

/// A body that is read from its first byte on, and tested against a digest. It reads at most one byte more than the
/// digest says, and never more than 2^60. A refusal stays.
#[derive(Drop)]
pub struct Reading<K: Shelf> {
    taking: Taking<K>,
    end: Option<ReadingEnd>,
}

impl<K: Shelf> Model for Reading<K> {
    ghost use Rattle.std.specs.Prelude.{IfSome};
    ghost use Rattle.blob_store.specs.Bodies.{ReadingState, Ends, lent_by};
    ghost use Rattle.blob_store.specs.Taking.{IsPlace};

    ghost Value = { ReadingState };

    ghost view = { λ r. record {
      want = r.taking.want;
      hasher = r.taking.hasher;
      told = lent_by K.lent r.taking.reader;
      end = r.end;
    } };

    ghost invariant = { λ r.
        IsPlace r.taking.want r.taking.hasher (lent_by K.lent r.taking.reader) r.taking.at
        × IfSome r.end (Ends r.taking.want r.taking.hasher (lent_by K.lent r.taking.reader)) };
}

impl<K: Shelf> Reading<K> {
    /// Begins to read a body as that of a digest. It takes no memory beside the shelf's.
    pub fn new(shelf: &mut K, body: &K::Body, want: Digest) -> Result<Reading<K>, ShelfEnd>
        ensures want { IfOk result (λ r. r.want ≡ want) }
        ensures told { IfOk result (λ r. r.told ≡ K.kept body.now) }
        ensures begun { IfOk result (λ r. (r.end ≡ None) × HasRead r []) }
        ensures stays { Stays (K.shelved shelf.old) (K.shelved shelf.new) }
        ensures cause { HasShelfCause (K.shelved shelf.old) (K.shelved shelf.new) result }
    {
        Ok(Reading {
            taking: Taking::new(shelf, body, want)?,
            end: None,
        })
    }

    /// Begins to read the empty blob, which has no body. It takes no memory.
    pub fn empty() -> Reading<K>
        ensures want { result.want ≡ digest_of [] }
        ensures told { result.told ≡ Some [] }
        ensures begun { (result.end ≡ None) × HasRead result [] }
    {
        Reading {
            taking: Taking::empty(),
            end: None,
        }
    }

    /// The next bytes, into the front of the buffer, and how many: at most 1,048,576. For a buffer that isn't empty, 0
    /// comes only after all bytes, which have the digest then. It takes no memory.
    pub fn next(&mut self, shelf: &mut K, buf: &mut [u8]) -> Result<usize, ReadingEnd>
        ensures bound { IfOk result (λ n. n ≤ length buf.new) }
        ensures piece { IfOk result (λ n. n ≤ max_piece) }
        ensures bytes { IfOk result (λ n. ReadsOn self.old self.new (take n buf.new)) }
        ensures ended { IfOk result (λ n. n ≡ 0 → 0 < length buf.new → IsRead self.new) }
        // No more bytes are given than the digest says.
        ensures fits { OnOk result ((read : List ℕ) → HasRead self.new read → length read ≤ self.new.want.size) }
        ensures damaged { IfErr result (Explains self.new) }
        // A refused call may have read a piece too.
        ensures partial { OnErr result (ReadsPart self.old self.new buf.new) }
        ensures limit { (read : List ℕ) → HasRead self.new read → length read ≤ limit_of self.new.want }
        ensures want { self.new.want ≡ self.old.want }
        ensures told { self.new.told ≡ self.old.told }
        ensures latched { IfSome self.old.end (λ e. (result ≡ Err e) × (self.new ≡ self.old) × (K.shelved shelf.new ≡ K.shelved shelf.old)) }
        ensures ok { OnOk result (self.new.end ≡ None) }
        ensures err { IfErr result (λ e. self.new.end ≡ Some e) }
        ensures stays { Stays (K.shelved shelf.old) (K.shelved shelf.new) }
        ensures cause { IfNone self.old.end (IsErrOf result Fault → Fails (K.shelved shelf.old) (K.shelved shelf.new)) }
    {
        if let Some(end) = self.end {
            return Err(end);
        }
        let read = self.taking.read_on(shelf, buf);
        self.end = read.as_ref().err().copied();
        read
    }
}
