//! The frames that are whole, one after the other, and all that they call for.

ghost use Rattle.std.specs.Prelude.{◌≡◌, ◌≤◌, ◌<◌, ◌+◌, ◌^◌, [], ℕ, true, false, length, Ok, OnOk, OnErr};
ghost use Rattle.casd_connection.specs.declared.frames.Taken.TheVariants as takens;
ghost use Rattle.casd_connection.specs.Steps.{at, IsServing, Turned, Broken, Framed, Unframed, Takes, Stops};

use crate::connection::Connection;
use blob_store::{Door, Shelf};
use h2_session::ConnFault;
use proto_wire::OutOfMemory;

/// How many turns of the door a call may need.
const TURNS: u64 = 1 << 30;

/// How many turns of the door a frame may need.
pub(crate) const MANY_TURNS: u64 = 1 << 40;

/// How the frames of a piece of input were taken.
#[derive(Clone, Copy, Debug, PartialEq, Eq)]
pub(crate) enum Taken {
    /// All that are whole.
    All,
    /// Up to the first place behind a GOAWAY at which no stream is live.
    Over,
    /// Up to one that the peer may not send.
    Offence { code: u32, at: u64 },
    /// Up to where the door has too few turns left.
    Spent,
    OutOfMemory,
}

/// Why a frame wasn't taken.
#[derive(Clone, Copy, Debug, PartialEq, Eq)]
pub(crate) enum Stop {
    Offence { code: u32, at: u64 },
    OutOfMemory,
}

impl<K: Shelf> Connection<K> {
    /// Hands the events of the last frame to their calls, one after the other.
    fn on_events<D: Door<K>>(&mut self, door: &mut D, shelf: &mut K) -> Result<(), OutOfMemory>
        requires serving { IsServing self.old.calls }
        requires is_in { (D.view door.old).entered ≡ true }
        requires turns { 2 ^ 29 ≤ (D.view door.old).left }
        ensures ok { OnOk result ((n : ℕ) × Turned (D.view door.old) (D.view door.new) (K.shelved shelf.old) (K.shelved shelf.new) n (at self.old.calls self.old.live.items self.old.over []) (at self.new.calls self.new.live.items self.new.over []) self.old.calls.session.output self.new.calls.session.output) }
        ensures empty { OnOk result (self.new.calls.pending ≡ []) }
        ensures serving { OnOk result (IsServing self.new.calls) }
        ensures reader { OnOk result (self.new.calls.reader ≡ self.old.calls.reader) }
        ensures err { OnErr result ((n : ℕ) × Broken (D.view door.old) (D.view door.new) (K.shelved shelf.old) (K.shelved shelf.new) n (at self.old.calls self.old.live.items self.old.over []) []) }
        ensures is_in { (D.view door.new).entered ≡ true }
        ensures turns { 2 ^ 29 ≤ (D.view door.new).left }
    {
        let _turns = door.left();
        'events: while let Some(event) = self.calls.take_event() {
            if door.left() < TURNS {
                return Err(OutOfMemory);
            }
            self.on_event(door, shelf, event)?;
        }
        Ok(())
    }

    /// Reads the next frame, if it is there whole, and does all that it calls for.
    fn on_frame<D: Door<K>>(&mut self, door: &mut D, shelf: &mut K) -> Result<bool, Stop>
        requires serving { IsServing self.old.calls }
        requires empty { self.old.calls.pending ≡ [] }
        requires is_in { (D.view door.old).entered ≡ true }
        requires turns { 2 ^ 29 ≤ (D.view door.old).left }
        ensures stops { Stops result (D.view door.old) (D.view door.new) (K.shelved shelf.old) (K.shelved shelf.new) self.old.calls self.new.calls self.old.live.items self.new.live.items self.old.over self.new.over }
        ensures less { result ≡ Ok true → length self.new.calls.reader.rest < length self.old.calls.reader.rest }
        ensures fed { OnOk result (self.new.calls.reader.at + length self.new.calls.reader.rest ≡ self.old.calls.reader.at + length self.old.calls.reader.rest) }
        ensures is_in { (D.view door.new).entered ≡ true }
        ensures turns { 2 ^ 29 ≤ (D.view door.new).left }
    {
        let _turns = door.left();
        match self.calls.read_frame() {
            Ok(false) => Ok(false),
            Ok(true) => match self.on_events(door, shelf) {
                Ok(()) => Ok(true),
                Err(OutOfMemory) => Err(Stop::OutOfMemory),
            },
            Err(ConnFault::Offence { code, at }) => Err(Stop::Offence { code, at }),
            Err(ConnFault::OutOfMemory) => Err(Stop::OutOfMemory),
        }
    }

    /// Whether a GOAWAY of the peer came, and no stream is live.
    fn is_over(&self) -> bool
        ensures { result ≡ true → (self.now.over ≡ true) × (self.now.calls.session.part.streams ≡ []) }
    {
        self.over && self.calls.live() == 0
    }

    /// Takes all frames that are whole.
    pub(crate) fn take_frames<D: Door<K>>(&mut self, door: &mut D, shelf: &mut K) -> Taken
        requires serving { IsServing self.old.calls }
        requires empty { self.old.calls.pending ≡ [] }
        requires is_in { (D.view door.old).entered ≡ true }
        requires turns { 2 ^ 29 ≤ (D.view door.old).left }
        ensures fed { result ≡ takens.All → self.new.calls.reader.at + length self.new.calls.reader.rest ≡ self.old.calls.reader.at + length self.old.calls.reader.rest }
        ensures takes { Takes result (D.view door.old) (D.view door.new) (K.shelved shelf.old) (K.shelved shelf.new) self.old.calls self.new.calls self.old.live.items self.new.live.items self.old.over self.new.over }
        ensures is_in { (D.view door.new).entered ≡ true }
        ensures turns { 2 ^ 29 ≤ (D.view door.new).left }
    {
        let _turns = door.left();
        'frames: loop {
            if self.is_over() {
                return Taken::Over;
            }
            if door.left() < MANY_TURNS {
                return Taken::Spent;
            }
            match self.on_frame(door, shelf) {
                Ok(true) => {}
                Ok(false) => return Taken::All,
                Err(Stop::Offence { code, at }) => return Taken::Offence { code, at },
                Err(Stop::OutOfMemory) => return Taken::OutOfMemory,
            }
        }
    }
}
