//! The turns of a Read.

ghost use Rattle.std.specs.Prelude.{◌≡◌, ◌<◌, IfOk, IfErr, OnOk};
ghost use Rattle.cas_calls.specs.Plays.{IsIn, Took};
ghost use Rattle.byte_stream.specs.Places.{IsRange, piece_end};
ghost use Rattle.byte_stream.specs.Pieces.{GivesPiece};
ghost use Rattle.byte_stream.specs.Read.{begun_at, IsGoing, IsEnd, Keeps, Notes, is_damage, piece_script, rest_script, going_script, turn_script, stop_answer, answered, place_after, ended_after};

use crate::piece::{MAX_PIECE, read_piece, read_rest};
use crate::place::Place;
use crate::read_stop::ReadStop;
use crate::status::{damaged, store_fault};
use blob_store::{Door, Reading, Shelf};
use cas_calls::out_of_memory;
use cas_messages::ReadResponse;
use casd_base::Status;
use digest_types::Digest;
use proto_wire::{Bytes, OutOfMemory};
use std::alloc::Global;

/// Notes the damage of a body, if it was found.
fn note<K: Shelf, D: Door<K>>(door: &mut D, digest: &Digest, served: &Result<Bytes, ReadStop>)
    requires is_in { IsIn (D.view door.old) }
    requires turn { 0 < (D.view door.old).left }
    ensures { Notes (is_damage served.now) digest.now (D.view door.old) (D.view door.new) }
{
    if let Err(ReadStop::Damaged(_)) = served {
        door.damage(digest);
    }
}

/// Reads the next piece.
fn serve_piece<K: Shelf, D: Door<K>>(
    alloc: Global,
    door: &mut D,
    shelf: &mut K,
    reading: &mut Reading<K>,
    place: &Place,
) -> Result<Bytes, ReadStop>
    requires is_in { IsIn (D.view door.old) }
    requires turn { 0 < (D.view door.old).left }
    requires going { IsGoing reading.old place.now }
    requires range { IsRange place.now }
    requires more { place.now.next < place.now.stop }
    requires want { reading.old.want ≡ place.now.digest }
    ensures took { Took (piece_script (begun_at place.now reading.old)) (D.view door.old) (D.view door.new) (K.shelved shelf.old) (K.shelved shelf.new) 1 (turn_script (begun_at place.now reading.old) reading.new result) }
    ensures ok { IfOk result (GivesPiece place.now reading.old reading.new) }
    ensures more { OnOk result (place.now.next < place.now.stop) }
    ensures end { IfErr result (IsEnd place.now reading.old reading.new) }
    ensures want { reading.new.want ≡ reading.old.want }
{
    let served = read_piece(alloc, shelf, reading, place);
    note::<K, D>(door, &place.digest, &served);
    served
}

/// Reads the rest of the body behind the range.
fn serve_rest<K: Shelf, D: Door<K>>(
    alloc: Global,
    door: &mut D,
    shelf: &mut K,
    reading: &mut Reading<K>,
    place: &Place,
) -> Result<Bytes, ReadStop>
    requires is_in { IsIn (D.view door.old) }
    requires turn { 0 < (D.view door.old).left }
    requires going { IsGoing reading.old place.now }
    requires all { place.now.next ≡ place.now.stop }
    requires want { reading.old.want ≡ place.now.digest }
    ensures took { Took (rest_script (begun_at place.now reading.old)) (D.view door.old) (D.view door.new) (K.shelved shelf.old) (K.shelved shelf.new) 1 (turn_script (begun_at place.now reading.old) reading.new result) }
    ensures ok { IfOk result (GivesPiece place.now reading.old reading.new) }
    ensures more { OnOk result (place.now.next < place.now.stop) }
    ensures end { IfErr result (IsEnd place.now reading.old reading.new) }
    ensures want { reading.new.want ≡ reading.old.want }
{
    let served = Err(read_rest(alloc, shelf, reading, place));
    note::<K, D>(door, &place.digest, &served);
    served
}

/// Reads the next piece, or behind the range the rest of the body.
pub(crate) fn serve<K: Shelf, D: Door<K>>(
    alloc: Global,
    door: &mut D,
    shelf: &mut K,
    reading: &mut Reading<K>,
    place: &Place,
) -> Result<Bytes, ReadStop>
    requires is_in { IsIn (D.view door.old) }
    requires turn { 0 < (D.view door.old).left }
    requires going { IsGoing reading.old place.now }
    requires range { IsRange place.now }
    requires want { reading.old.want ≡ place.now.digest }
    ensures took { Took (going_script (begun_at place.now reading.old)) (D.view door.old) (D.view door.new) (K.shelved shelf.old) (K.shelved shelf.new) 1 (turn_script (begun_at place.now reading.old) reading.new result) }
    ensures ok { IfOk result (GivesPiece place.now reading.old reading.new) }
    ensures more { OnOk result (place.now.next < place.now.stop) }
    ensures end { IfErr result (IsEnd place.now reading.old reading.new) }
    ensures want { reading.new.want ≡ reading.old.want }
{
    if place.next < place.stop {
        return serve_piece(alloc, door, shelf, reading, place);
    }
    serve_rest(alloc, door, shelf, reading, place)
}

/// The place after a turn.
pub(crate) fn place_after(place: &Place, served: &Result<Bytes, ReadStop>) -> Place
    requires range { IsRange place.now }
    ensures value { result ≡ place_after place.now served.now }
    ensures range { IsRange result }
{
    if served.is_err() {
        return *place;
    }
    let end = place.next + (place.stop - place.next).min(MAX_PIECE);
    Place {
        digest: place.digest,
        read: end,
        next: end,
        stop: place.stop,
    }
}

/// Why there is no further turn.
pub(crate) fn ended_after(served: &Result<Bytes, ReadStop>) -> Option<ReadStop>
    ensures { result ≡ ended_after served.now }
{
    match served {
        Ok(_) => None,
        Err(stop) => Some(*stop),
    }
}

/// What is answered where no further bytes are given, and the end that is kept: want of memory for the text is one too.
pub(crate) fn settle(
    alloc: Global,
    digest: &Digest,
    stop: &ReadStop,
) -> (ReadStop, Result<Option<ReadResponse>, Status>)
    ensures answer { answered result.1 ≡ stop_answer digest.now result.0 }
    ensures kept { Keeps stop.now result.0 }
{
    match stop {
        ReadStop::Done => (ReadStop::Done, Ok(None)),
        ReadStop::Failed => (ReadStop::Failed, Err(store_fault())),
        ReadStop::OutOfMemory => (ReadStop::OutOfMemory, Err(out_of_memory())),
        ReadStop::Damaged(got) => match damaged(alloc, digest, got) {
            Ok(status) => (ReadStop::Damaged(*got), Err(status)),
            Err(OutOfMemory) => (ReadStop::OutOfMemory, Err(out_of_memory())),
        },
    }
}
