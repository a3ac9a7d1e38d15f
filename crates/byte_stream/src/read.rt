//! Read.

ghost use Rattle.std.specs.Prelude.{◌≡◌, ◌<◌, true, Some, None, Ok, Err, IsNone, IfOk, IfErr, IfSome, IfNone};
ghost use Rattle.cas_calls.specs.Plays.{IsIn, Took, Plays};
ghost use Rattle.byte_stream.specs.Places.{place_of, IsRange};
ghost use Rattle.byte_stream.specs.Read.{Opened, opening_script, begin_script, next_script, turn_script, standing, answered, stop_answer, place_after, ended_after, IsBegun, IsEnd, Keeps, Sends, Finishes};
ghost use Rattle.byte_stream.specs.Pieces.{GivesPiece};
ghost use Rattle.byte_stream.specs.declared.read_stop.ReadStop.{ReadStop as ReadStopped};

use crate::here::absent;
use crate::place::{Place, place_of};
use crate::read_stop::ReadStop;
use crate::served::{ended_after, place_after, serve, settle};
use crate::status::store_fault;
use blob_store::{Door, Reading, Shelf, ShelfEnd};
use cas_calls::out_of_memory;
use cas_messages::{ReadRequest, ReadResponse};
use casd_base::Status;
use proto_wire::Bytes;
use std::alloc::Global;
use std::marker::Model;

/// A Read that has begun: it gives the bytes of a range of a blob, piece by piece, and ends with OK only if the whole body has
/// the digest.
#[derive(Drop)]
pub struct ReadCall<K: Shelf> {
    alloc: Global,
    reading: Reading<K>,
    place: Place,
    ended: Option<ReadStop>,
}

impl<K: Shelf> Model for ReadCall<K> {
    ghost use Rattle.byte_stream.specs.Read.{ReadState, IsReadState};

    ghost Value = { ReadState };

    ghost view = { λ r. record { reading = r.reading; place = r.place; ended = r.ended } };

    ghost invariant = { λ r. IsReadState r.reading r.place r.ended };
}

/// Begins to read from a place.
fn open<K: Shelf, D: Door<K>>(
    alloc: Global,
    door: &mut D,
    shelf: &mut K,
    place: &Place,
) -> Result<ReadCall<K>, Status>
    requires is_in { IsIn (D.view door.old) }
    requires turn { 0 < (D.view door.old).left }
    requires range { IsRange place.now }
    requires fresh { place.now.read ≡ 0 }
    ensures plays { Plays (opening_script (Ok place.now)) (D.view door.old) (D.view door.new) (K.shelved shelf.old) (K.shelved shelf.new) 1 result }
    ensures begun { IfOk result IsBegun }
{
    match door.read(shelf, &place.digest) {
        Ok(Some(reading)) => Ok(ReadCall {
            alloc,
            reading,
            place: *place,
            ended: None,
        }),
        Ok(None) => Err(absent(alloc, &place.digest)),
        Err(ShelfEnd::Failed) => Err(store_fault()),
        Err(ShelfEnd::OutOfMemory) => Err(out_of_memory()),
    }
}

impl<K: Shelf> ReadCall<K> {
    /// Begins to read the blob that the request names. It makes one Read entry. It is refused, before the entry, as `read_name`
    /// refuses, with INVALID_ARGUMENT for a negative limit, with OUT_OF_RANGE for an offset below 0 or above the blob's size,
    /// and with INTERNAL where the shelf fails; and with NOT_FOUND where the store has no sound blob of the digest, and with
    /// ABORTED where memory is wanting.
    ///
    /// The door is entered, and may take a turn.
    pub fn begin<D: Door<K>>(
        alloc: Global,
        door: &mut D,
        shelf: &mut K,
        request: &ReadRequest,
    ) -> Result<ReadCall<K>, Status>
        requires is_in { (D.view door.old).entered ≡ true }
        requires turn { 0 < (D.view door.old).left }
        ensures plays { Plays (begin_script request.now) (D.view door.old) (D.view door.new) (K.shelved shelf.old) (K.shelved shelf.new) 1 result }
        ensures begun { IfOk result IsBegun }
    {
        let _turns = door.left();
        match place_of(request) {
            Ok(place) => open(alloc, door, shelf, &place),
            Err(status) => Err(status),
        }
    }

    // The next piece, or why there is none.
    fn turn<D: Door<K>>(&mut self, door: &mut D, shelf: &mut K) -> Result<Bytes, ReadStop>
        requires is_in { IsIn (D.view door.old) }
        requires turn { 0 < (D.view door.old).left }
        ensures took { Took (next_script self.old) (D.view door.old) (D.view door.new) (K.shelved shelf.old) (K.shelved shelf.new) 1 (turn_script self.old self.new.reading result) }
        ensures piece { IfOk result (Sends self.old self.new) }
        ensures end { IfErr result (λ stop. IfNone self.old.ended (IsEnd self.old.place self.old.reading self.new.reading stop)) }
        ensures ended { IfErr result (λ stop. self.new.ended ≡ Some stop) }
        ensures place { IfErr result (λ stop. self.new.place ≡ self.old.place) }
        ensures stopped { IfSome self.old.ended (λ stop. (result ≡ Err stop) × (self.new ≡ self.old)) }
    {
        if let Some(stop) = self.ended {
            return Err(stop);
        }
        let served = serve(self.alloc, door, shelf, &mut self.reading, &self.place);
        self.place = place_after(&self.place, &served);
        self.ended = ended_after(&served);
        served
    }

    // What is answered where there is no further piece.
    fn stop(&mut self, stop: &ReadStop) -> Result<Option<ReadResponse>, Status>
        requires ended { self.old.ended ≡ Some stop.now }
        ensures { (kept : ReadStopped) × Keeps stop.now kept × (self.new ≡ record self.old { ended = Some kept }) × (answered result ≡ stop_answer self.old.place.digest kept) }
    {
        let (kept, answer) = settle(self.alloc, &self.place.digest, stop);
        self.ended = Some(kept);
        answer
    }

    /// The next response, or `None` at the end, which is OK. A response has 1,048,576 bytes, and only the last one fewer. The
    /// end comes only after the whole body was read, which has the digest. Where it has another one, that is noted by a Damage
    /// entry and the call is refused with DATA_LOSS and both digests; with INTERNAL where the shelf fails, and with ABORTED
    /// where memory is wanting. A refusal and the end stay.
    ///
    /// The door is entered, and may take a turn.
    pub fn next<D: Door<K>>(
        &mut self,
        door: &mut D,
        shelf: &mut K,
    ) -> Result<Option<ReadResponse>, Status>
        requires is_in { (D.view door.old).entered ≡ true }
        requires turn { 0 < (D.view door.old).left }
        ensures plays { Plays (next_script self.old) (D.view door.old) (D.view door.new) (K.shelved shelf.old) (K.shelved shelf.new) 1 (standing self.new (answered result)) }
        // A piece is the next bytes of the range.
        ensures piece { IfOk result (λ o. IfSome o (λ response. Sends self.old self.new response.bytes)) }
        // At the end all of the range was given, and all of the body was read, which has the digest.
        ensures whole { IfOk result (λ o. IfNone o (IfNone self.old.ended (Finishes self.old self.new))) }
        // After a refusal and at the end the same is answered, but for want of memory.
        ensures ended { IfSome self.new.ended (λ stop. answered result ≡ stop_answer self.old.place.digest stop) }
        ensures goes_on { IfOk result (λ o. IfSome o (λ response. IsNone self.new.ended)) }
        ensures place { IfSome self.new.ended (λ stop. self.new.place ≡ self.old.place) }
        ensures stays { IfSome self.old.ended (λ stop. (kept : ReadStopped) × Keeps stop kept × (self.new ≡ record self.old { ended = Some kept })) }
    {
        let _turns = door.left();
        match self.turn(door, shelf) {
            Ok(bytes) => Ok(Some(ReadResponse { bytes })),
            Err(stop) => self.stop(&stop),
        }
    }
}
