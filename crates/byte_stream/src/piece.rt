//! Reading a body on, piece by piece.

ghost use Rattle.std.specs.Prelude.{◌≡◌, ◌<◌, ◌≤◌, ◌+◌, ◌-◌, ℕ, List, [], length, drop, None, IfOk, IfErr, OnOk};
ghost use Rattle.blob_store.specs.Bodies.{ReadsOn};
ghost use Rattle.cas_calls.specs.Bodies.{IsLater};
ghost use Rattle.cas_calls.specs.Plays.{Leaves};
ghost use Rattle.byte_stream.specs.Places.{IsRange, piece_end};
ghost use Rattle.byte_stream.specs.Pieces.{HasCount, HasRoom, GivesPiece, ReadsMore, IsCut, IsHalted, IsFinished};

use crate::place::Place;
use crate::read_stop::ReadStop;
use blob_store::{Reading, ReadingEnd, Shelf};
use proto_wire::Bytes;
use std::alloc::Global;

/// How many bytes are read at once at most, where they aren't kept.
const MAX_SCRATCH: u64 = 65_536;

/// How many bytes a response has at most.
pub(crate) const MAX_PIECE: u64 = 1_048_576;

/// Reads on until the buffer is full.
fn fill<K: Shelf>(shelf: &mut K, reading: &mut Reading<K>, buf: &mut [u8]) -> Result<(), ReadingEnd>
    requires room { HasRoom reading.old (length buf.old) }
    ensures ok { OnOk result (ReadsMore reading.old reading.new buf.new) }
    ensures err { IfErr result (IsCut reading.new (K.shelved shelf.old) (K.shelved shelf.new)) }
    ensures later { IsLater reading.old reading.new }
    ensures leaves { Leaves (K.shelved shelf.old) (K.shelved shelf.new) }
{
    let mut at = 0;
    'bytes: while at < buf.len() {
        match reading.next(shelf, &mut buf[at..]) {
            Ok(count) => at += count,
            Err(end) => return Err(end),
        }
    }
    Ok(())
}

/// Reads on over so many bytes, which aren't kept.
fn skip_with<K: Shelf>(
    shelf: &mut K,
    reading: &mut Reading<K>,
    scratch: &mut [u8],
    count: u64,
) -> Result<(), ReadingEnd>
    requires room { HasRoom reading.old count }
    requires some { 0 < length scratch.old }
    ensures ok { OnOk result ((more : List ℕ) × (length more ≡ count) × ReadsMore reading.old reading.new more) }
    ensures err { IfErr result (IsCut reading.new (K.shelved shelf.old) (K.shelved shelf.new)) }
    ensures later { IsLater reading.old reading.new }
    ensures leaves { Leaves (K.shelved shelf.old) (K.shelved shelf.new) }
{
    let mut left = count;
    'bytes: while left > 0 {
        let size = left.min(scratch.len() as u64) as usize;
        fill(shelf, reading, &mut scratch[..size])?;
        left -= size as u64;
    }
    Ok(())
}

/// The same, with a buffer of its own.
fn skip<K: Shelf>(
    alloc: Global,
    shelf: &mut K,
    reading: &mut Reading<K>,
    count: u64,
) -> Result<(), ReadStop>
    requires room { HasRoom reading.old count }
    ensures ok { OnOk result ((more : List ℕ) × (length more ≡ count) × ReadsMore reading.old reading.new more) }
    ensures err { IfErr result (IsHalted reading.new (K.shelved shelf.old) (K.shelved shelf.new)) }
    ensures later { IsLater reading.old reading.new }
    ensures leaves { Leaves (K.shelved shelf.old) (K.shelved shelf.new) }
{
    if count == 0 {
        return Ok(());
    }
    let mut scratch = vec![in alloc; 0; MAX_SCRATCH.min(count) as usize]?;
    skip_with(shelf, reading, scratch.as_mut_slice(), count)?;
    Ok(())
}

/// The next piece of the range, after what lies before it in the blob.
pub(crate) fn read_piece<K: Shelf>(
    alloc: Global,
    shelf: &mut K,
    reading: &mut Reading<K>,
    place: &Place,
) -> Result<Bytes, ReadStop>
    requires begun { HasCount reading.old place.now.read }
    requires ahead { place.now.read ≤ place.now.next }
    requires range { IsRange place.now }
    requires want { reading.old.want ≡ place.now.digest }
    ensures ok { IfOk result (GivesPiece place.now reading.old reading.new) }
    ensures err { IfErr result (IsHalted reading.new (K.shelved shelf.old) (K.shelved shelf.new)) }
    ensures later { IsLater reading.old reading.new }
    ensures leaves { Leaves (K.shelved shelf.old) (K.shelved shelf.new) }
{
    let size = (place.stop - place.next).min(MAX_PIECE) as usize;
    let mut piece = vec![in alloc; 0; size]?;
    skip(alloc, shelf, reading, place.next - place.read)?;
    fill(shelf, reading, piece.as_mut_slice())?;
    Ok(Bytes::from_vec(piece))
}

/// Reads on to the end of the body, into a buffer that isn't kept.
fn read_out<K: Shelf>(
    shelf: &mut K,
    reading: &mut Reading<K>,
    scratch: &mut [u8],
    place: &Place,
) -> ReadStop
    requires begun { HasCount reading.old place.now.read }
    requires want { reading.old.want ≡ place.now.digest }
    requires some { 0 < length scratch.old }
    ensures stop { IsFinished reading.old reading.new (K.shelved shelf.old) (K.shelved shelf.new) result }
    ensures later { IsLater reading.old reading.new }
    ensures leaves { Leaves (K.shelved shelf.old) (K.shelved shelf.new) }
{
    let mut read = place.read;
    'pieces: loop {
        match reading.next(shelf, scratch) {
            Ok(0) => return ReadStop::Done,
            Ok(count) => read += count as u64,
            Err(end) => return end.into(),
        }
    }
}

/// Reads the rest of the body, of which nothing is given.
pub(crate) fn read_rest<K: Shelf>(
    alloc: Global,
    shelf: &mut K,
    reading: &mut Reading<K>,
    place: &Place,
) -> ReadStop
    requires begun { HasCount reading.old place.now.read }
    requires want { reading.old.want ≡ place.now.digest }
    ensures stop { IsFinished reading.old reading.new (K.shelved shelf.old) (K.shelved shelf.new) result }
    ensures later { IsLater reading.old reading.new }
    ensures leaves { Leaves (K.shelved shelf.old) (K.shelved shelf.new) }
{
    match vec![in alloc; 0; MAX_SCRATCH as usize] {
        Ok(scratch) => {
            let mut scratch = scratch;
            read_out(shelf, reading, scratch.as_mut_slice(), place)
        }
        Err(_) => ReadStop::OutOfMemory,
    }
}
