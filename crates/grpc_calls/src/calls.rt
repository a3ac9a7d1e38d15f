//! `Calls`.

ghost use Rattle.std.specs.Prelude.{◌≡◌, ◌≤◌, ◌<◌, ◌+◌, ◌-◌, ◌^◌, ◌↔◌, min, ◌∷◌, ◌++◌, [], ℕ, List, None, Some, Err, Ok, true, false, length, is_none, IfOk, IfErr, IfSome, IsNone, IsErr, OnOk, OnErr};
ghost use Rattle.h2_frames.specs.Spelling.{IsSpelling};
ghost use Rattle.h2_frames.specs.Stream.{fresh, fed, rest_place};
ghost use Rattle.proto_wire.specs.Reading.{IsBytes};
ghost use Rattle.h2_session.specs.declared.fault.ConnFault.TheVariants.{Offence as Offends, OutOfMemory as NoMemory};
ghost use Rattle.grpc_calls.specs.declared.event.CallEvent.{CallEvent as ACallEvent};
ghost use Rattle.h2_session.specs.declared.event.Out.TheVariants as outs;
ghost use Rattle.h2_session.specs.declared.role.Role.TheVariants.{Server as AServer, Client as AClient};
ghost use Rattle.h2_session.specs.Part.{new_part, stream_of};
ghost use Rattle.h2_session.specs.Faults.{is_client};
ghost use Rattle.h2_session.specs.Said.{waiting, may_begin, may_say, IsSayable};
ghost use Rattle.h2_session.specs.Session.{first_output, offended, exhausted};
ghost use Rattle.h2_session.specs.Codes.{max_list};
ghost use Rattle.hpack_tables.specs.Table.{list_size};
ghost use Rattle.grpc_calls.specs.declared.call.Reading.TheVariants as readings;
ghost use Rattle.grpc_calls.specs.Headers.{refusal_headers, trailers};
ghost use Rattle.grpc_calls.specs.Streams.{told_by, is_fresh};
ghost use Rattle.grpc_calls.specs.Calls.{refusal_at, Hears, Heeds, GivesFrame, GivesHeard, OffendsOr, Answers, GivesUp, GivesUpFeeding, Says, IsOpen, Opened, may_reply, Begins, BeginsWith, Replies, Finishes, HalfCloses, Cancels, over_with};
ghost use Rattle.grpc_calls.specs.Held.{held};

use crate::answer::{answer_headers, framed, refusal_headers, request_headers, trailers};
use crate::call::{Call, Reading};
use crate::event::CallEvent;
use crate::frames::next_frame;
use crate::held::{held_call, held_events};
use crate::refusal::Refusal;
use crate::table::{drop_call, tell_headers, tell_piece, tell_reset};
use casd_base::Status;
use h2_frames::{Frame, FrameFault, FrameReader};
use h2_session::{ConnFault, Out, Session, SessionEvent};
use hpack_tables::Headers;
use proto_wire::{Bytes, OutOfMemory};
use std::alloc::Global;
use std::collections::VecDeque;
use std::marker::Model;

/// CANCEL (RFC 9113, section 7).
const CANCEL: u32 = 8;

/// The code that tells a malformed frame or preface, and its place. There is none for want of memory.
fn refusal_at(fault: FrameFault) -> Option<(u32, u64)>
    ensures { result ≡ refusal_at fault }
{
    match fault {
        FrameFault::BadPreface { at }
        | FrameFault::BadPadding { at }
        | FrameFault::BadStream { at } => Some((1, at)),
        FrameFault::TooLong { at } | FrameFault::BadLength { at } => Some((6, at)),
        FrameFault::OutOfMemory => None,
    }
}

/// Ends a connection for what the reader of its frames has found.
fn refuse(session: &mut Session, fault: FrameFault) -> ConnFault
    requires { session.old.fault ≡ None }
    ensures offence { (code at : ℕ) → result ≡ Offends code at → (refusal_at fault ≡ Some (code, at)) × (session.new ≡ offended session.old.part code at session.old) }
    ensures memory { result ≡ NoMemory → session.new ≡ exhausted session.old }
    ensures fault { session.new.fault ≡ Some result }
{
    let Some((code, at)) = refusal_at(fault) else {
        session.give_up();
        return ConnFault::OutOfMemory;
    };
    match session.refuse(code, at) {
        Ok(()) => ConnFault::Offence { code, at },
        Err(OutOfMemory) => ConnFault::OutOfMemory,
    }
}

fn is_client(session: &Session) -> bool
    ensures { result ≡ is_client session.now.part.role }
{
    session.is_client()
}

/// Whether a stream of a server hasn't been answered.
fn is_fresh(alloc: Global, session: &Session, stream: u32) -> bool
    ensures { result ≡ is_fresh stream session.now.part }
{
    let what = Out::Headers {
        headers: Headers::new(alloc),
        end: false,
    };
    session.may_send(stream, &what)
}

/// The calls of one connection, at either end. After a refusal it is answered for good.
#[derive(Drop)]
pub struct Calls {
    alloc: Global,
    reader: FrameReader,
    session: Session,
    calls: Vec<Call>,
    pending: VecDeque<CallEvent>,
}

impl Model for Calls {
    ghost use Rattle.std.specs.Prelude.{◌≡◌, None};
    ghost use Rattle.proto_wire.specs.Reading.{IsBytes};
    ghost use Rattle.grpc_calls.specs.Calls.{Calls as CallsValue};

    ghost Value = { CallsValue };

    ghost view = { λ c. record { reader = c.reader; session = c.session; calls = c.calls.items; pending = c.pending.items } };

    ghost invariant = { λ c. IsBytes c.reader.rest × (c.session.fault ≡ None → c.reader.fault ≡ None) };
}

impl Calls {
    /// A server's end.
    pub fn server(alloc: Global) -> Result<Calls, OutOfMemory>
        ensures { IfOk result (λ c. c ≡ record { reader = fresh true; session = record { part = new_part AServer; output = first_output AServer; fault = None }; calls = []; pending = [] }) }
    {
        Ok(Calls {
            alloc,
            reader: FrameReader::new(alloc, true),
            session: Session::server(alloc)?,
            calls: Vec::new(alloc),
            pending: VecDeque::new(alloc),
        })
    }

    /// A client's end.
    pub fn client(alloc: Global) -> Result<Calls, OutOfMemory>
        ensures { IfOk result (λ c. c ≡ record { reader = fresh false; session = record { part = new_part AClient; output = first_output AClient; fault = None }; calls = []; pending = [] }) }
    {
        Ok(Calls {
            alloc,
            reader: FrameReader::new(alloc, false),
            session: Session::client(alloc)?,
            calls: Vec::new(alloc),
            pending: VecDeque::new(alloc),
        })
    }

    /// Takes bytes of the peer behind those that were fed. After a refusal they are dropped.
    pub fn feed(&mut self, bytes: &[u8]) -> Result<(), OutOfMemory>
        requires { self.old.reader.at + (length self.old.reader.rest + length bytes.now) ≤ 2 ^ 60 }
        ensures latched { IfSome self.old.session.fault (λ e. (IsErr result ↔ (e ≡ NoMemory)) × (self.new ≡ self.old)) }
        ensures ok { self.old.session.fault ≡ None → OnOk result (self.new ≡ record self.old { reader = fed bytes.now self.old.reader }) }
        ensures err { self.old.session.fault ≡ None → OnErr result (GivesUpFeeding self.old self.new) }
        ensures count { self.new.reader.at + length self.new.reader.rest ≤ self.old.reader.at + (length self.old.reader.rest + length bytes.now) }
        // What is read are bytes, and only the connection keeps a refusal.
        ensures bytes { IsBytes bytes.now }
        ensures sound { self.old.session.fault ≡ None → self.old.reader.fault ≡ None }
    {
        match self.session.fault() {
            Some(ConnFault::OutOfMemory) => Err(OutOfMemory),
            Some(_) => Ok(()),
            None => self.add(bytes),
        }
    }

    fn add(&mut self, bytes: &[u8]) -> Result<(), OutOfMemory>
        requires room { self.old.reader.at + (length self.old.reader.rest + length bytes.now) ≤ 2 ^ 60 }
        requires sound { self.old.session.fault ≡ None }
        ensures ok { OnOk result (self.new ≡ record self.old { reader = fed bytes.now self.old.reader }) }
        ensures err { OnErr result (GivesUpFeeding self.old self.new) }
        ensures count { self.new.reader.at + length self.new.reader.rest ≤ self.old.reader.at + (length self.old.reader.rest + length bytes.now) }
    {
        if self.reader.feed(bytes).is_err() {
            self.session.give_up();
            self.drop_calls();
            return Err(OutOfMemory);
        }
        Ok(())
    }

    /// The next event, or None if the bytes that were fed give no further one. After a refusal it answers the same for good.
    pub fn next(&mut self) -> Result<Option<CallEvent>, ConnFault>
        ensures latched { IfSome self.old.session.fault (λ e. (result ≡ Err e) × (self.new ≡ self.old)) }
        ensures pending { (e : ACallEvent) (es : List ACallEvent) → self.old.session.fault ≡ None → self.old.pending ≡ e ∷ es → (result ≡ Ok (Some e)) × (self.new ≡ record self.old { pending = es }) }
        ensures answers { self.old.session.fault ≡ None → self.old.pending ≡ [] → Answers self.old self.new result }
        ensures none { IfOk result (λ o. IsNone o → self.new.pending ≡ []) }
        ensures count { self.new.reader.at + length self.new.reader.rest ≡ self.old.reader.at + length self.old.reader.rest }
        ensures role { self.new.session.part.role ≡ self.old.session.part.role }
    {
        if let Some(fault) = self.session.fault() {
            return Err(fault);
        }
        match self.take_event() {
            Some(event) => Ok(Some(event)),
            None => self.read_on(),
        }
    }

    /// Reads frames up to the first that has an event.
    fn read_on(&mut self) -> Result<Option<CallEvent>, ConnFault>
        requires sound { self.old.session.fault ≡ None }
        requires empty { self.old.pending ≡ [] }
        ensures answers { Answers self.old self.new result }
        ensures none { IfOk result (λ o. IsNone o → self.new.pending ≡ []) }
        ensures count { self.new.reader.at + length self.new.reader.rest ≡ self.old.reader.at + length self.old.reader.rest }
        ensures role { self.new.session.part.role ≡ self.old.session.part.role }
    {
        'frames: loop {
            if !self.read_frame()? {
                return Ok(None);
            }
            if let Some(event) = self.take_event() {
                return Ok(Some(event));
            }
        }
    }

    /// The next event of the frames that were read. It takes no memory.
    pub fn take_event(&mut self) -> Option<CallEvent>
        ensures some { IfSome result (λ e. self.old.pending ≡ e ∷ self.new.pending) }
        ensures none { IsNone result → (self.old.pending ≡ []) × (self.new ≡ self.old) }
        ensures rest { self.new ≡ record self.old { pending = self.new.pending } }
    {
        self.pending.pop_front()
    }

    /// Reads the next frame, if it is there whole, once all events of those before it were taken. It answers whether it was there.
    pub fn read_frame(&mut self) -> Result<bool, ConnFault>
        requires sound { self.old.session.fault ≡ None }
        requires empty { self.old.pending ≡ [] }
        ensures gives { GivesFrame self.old self.new result }
        ensures less { result ≡ Ok true → length self.new.reader.rest < length self.old.reader.rest }
        ensures empty { result ≡ Ok false → self.new.pending ≡ [] }
        ensures sound { OnOk result (self.new.session.fault ≡ None) }
        ensures count { self.new.reader.at + length self.new.reader.rest ≡ self.old.reader.at + length self.old.reader.rest }
        ensures role { self.new.session.part.role ≡ self.old.session.part.role }
    {
        match next_frame(&mut self.reader) {
            Ok(next) => self.on_next(next),
            Err(fault) => {
                let fault = refuse(&mut self.session, fault);
                self.drop_calls();
                Err(fault)
            }
        }
    }

    /// Takes the next frame, if there is one.
    fn on_next(&mut self, next: Option<(u64, Frame)>) -> Result<bool, ConnFault>
        requires sound { self.old.session.fault ≡ None }
        requires empty { self.old.pending ≡ [] }
        requires spelled { IfSome next (λ p. (text : List ℕ) × IsSpelling text p.1) }
        ensures gives { GivesHeard next self.old self.new result }
        ensures reader { self.new.reader ≡ self.old.reader }
        ensures sound { OnOk result (self.new.session.fault ≡ None) }
        ensures role { self.new.session.part.role ≡ self.old.session.part.role }
    {
        match next {
            None => Ok(false),
            Some((at, frame)) => {
                self.on_frame(at, frame)?;
                Ok(true)
            }
        }
    }

    fn on_frame(&mut self, at: u64, frame: Frame) -> Result<(), ConnFault>
        requires sound { self.old.session.fault ≡ None }
        requires empty { self.old.pending ≡ [] }
        requires spelled { (text : List ℕ) × IsSpelling text frame }
        ensures ok { OnOk result (Hears self.old.session self.old.calls frame self.new) }
        ensures err { IfErr result (OffendsOr at frame self.old self.new) }
        ensures reader { self.new.reader ≡ self.old.reader }
        ensures sound { OnOk result (self.new.session.fault ≡ None) }
        ensures role { self.new.session.part.role ≡ self.old.session.part.role }
    {
        match self.session.on_frame(at, frame) {
            Ok(event) => self.heed(event),
            Err(fault) => {
                self.drop_calls();
                Err(fault)
            }
        }
    }

    /// Takes what a frame means to the calls.
    fn heed(&mut self, event: Option<SessionEvent>) -> Result<(), ConnFault>
        requires sound { self.old.session.fault ≡ None }
        requires empty { self.old.pending ≡ [] }
        ensures ok { OnOk result (Heeds event self.old self.new) }
        ensures err { IfErr result (λ e. (e ≡ NoMemory) × GivesUp self.old self.new) }
        ensures reader { self.new.reader ≡ self.old.reader }
        ensures sound { OnOk result (self.new.session.fault ≡ None) }
        ensures role { self.new.session.part.role ≡ self.old.session.part.role }
    {
        let Some(event) = event else {
            return Ok(());
        };
        match self.on_event(event) {
            Ok(()) => Ok(()),
            Err(OutOfMemory) => Err(ConnFault::OutOfMemory),
        }
    }

    fn on_event(&mut self, event: SessionEvent) -> Result<(), OutOfMemory>
        requires sound { self.old.session.fault ≡ None }
        requires empty { self.old.pending ≡ [] }
        ensures ok { OnOk result (Heeds (Some event) self.old self.new) }
        ensures err { OnErr result (GivesUp self.old self.new) }
        ensures reader { self.new.reader ≡ self.old.reader }
        ensures sound { OnOk result (self.new.session.fault ≡ None) }
        ensures role { self.new.session.part.role ≡ self.old.session.part.role }
    {
        match self.tell(event) {
            Ok(None) => Ok(()),
            Ok(Some((stream, refusal))) => self.answer_refusal(stream, refusal),
            Err(OutOfMemory) => {
                self.give_up();
                Err(OutOfMemory)
            }
        }
    }

    /// Tells what an event means, and answers which request is refused, if it is one.
    fn tell(&mut self, event: SessionEvent) -> Result<Option<(u32, Refusal)>, OutOfMemory>
        ensures ok { OnOk result (self.new ≡ record self.old { calls = (told_by self.old.session.part event self.old.calls).calls; pending = self.old.pending ++ (told_by self.old.session.part event self.old.calls).events }) }
        ensures refused { IfOk result (λ r. r ≡ (told_by self.old.session.part event self.old.calls).refused) }
        ensures kept { (self.new.session ≡ self.old.session) × (self.new.reader ≡ self.old.reader) }
    {
        let client = is_client(&self.session);
        match event {
            SessionEvent::Headers {
                stream,
                headers,
                end,
            } => {
                let fresh = is_fresh(self.alloc, &self.session, stream);
                tell_headers(
                    self.alloc,
                    client,
                    fresh,
                    &mut self.calls,
                    stream,
                    headers.as_slice(),
                    end,
                    &mut self.pending,
                )
            }
            SessionEvent::Piece { stream, bytes, end } => {
                tell_piece(
                    client,
                    &mut self.calls,
                    stream,
                    bytes.as_slice(),
                    end,
                    &mut self.pending,
                )?;
                Ok(None)
            }
            SessionEvent::Reset { stream, code } => {
                tell_reset(&mut self.calls, stream, code, &mut self.pending)?;
                Ok(None)
            }
            SessionEvent::GoAway => {
                self.pending.push_back(CallEvent::GoAway)?;
                Ok(None)
            }
        }
    }

    fn answer_refusal(&mut self, stream: u32, refusal: Refusal) -> Result<(), OutOfMemory>
        requires sound { self.old.session.fault ≡ None }
        requires fresh { is_fresh stream self.old.session.part ≡ true }
        ensures ok { OnOk result (Says stream (outs.Headers (refusal_headers refusal) true) self.old self.new) }
        ensures err { OnErr result (GivesUp self.old self.new) }
        ensures reader { self.new.reader ≡ self.old.reader }
        ensures role { self.new.session.part.role ≡ self.old.session.part.role }
    {
        match refusal_headers(self.alloc, refusal) {
            Ok(headers) => self.send(stream, Out::Headers { headers, end: true }),
            Err(OutOfMemory) => {
                self.give_up();
                Err(OutOfMemory)
            }
        }
    }

    /// Hands in what is sent on a stream.
    fn send(&mut self, stream: u32, what: Out) -> Result<(), OutOfMemory>
        requires sound { self.old.session.fault ≡ None }
        requires live { may_say (stream_of stream self.old.session.part) ≡ true }
        requires sayable { IsSayable self.old.session.part.role what (stream_of stream self.old.session.part) }
        ensures ok { OnOk result (Says stream what self.old self.new) }
        ensures err { OnErr result (GivesUp self.old self.new) }
        ensures reader { self.new.reader ≡ self.old.reader }
        ensures role { self.new.session.part.role ≡ self.old.session.part.role }
    {
        match self.session.send(stream, what) {
            Ok(()) => Ok(()),
            Err(OutOfMemory) => {
                self.drop_calls();
                Err(OutOfMemory)
            }
        }
    }

    /// The calls end with their connection.
    fn drop_calls(&mut self)
        ensures { self.new ≡ over_with self.old.session self.old.reader }
    {
        self.calls = Vec::new(self.alloc);
        self.pending = VecDeque::new(self.alloc);
    }

    /// The connection ends for want of memory.
    fn give_up(&mut self)
        requires sound { self.old.session.fault ≡ None }
        ensures { self.new ≡ over_with (exhausted self.old.session) self.old.reader }
    {
        self.session.give_up();
        self.drop_calls();
    }

    /// Begins a call of a client, and answers its stream; None if the peer's limit of open streams is reached or the numbers are
    /// used up.
    pub fn begin(&mut self, path: &str) -> Result<Option<u32>, OutOfMemory>
        requires sound { self.old.session.fault ≡ None }
        requires client { self.old.session.part.role ≡ AClient }
        requires short { length path.now ≤ 8192 }
        ensures none { IfOk result (λ o. IsNone o ↔ (may_begin self.old.session.part ≡ false)) }
        ensures same { IfOk result (λ o. IsNone o → self.new ≡ self.old) }
        ensures some { IfOk result (λ o. IfSome o (λ n. Begins n path.now self.old self.new)) }
        ensures err { OnErr result (GivesUp self.old self.new) }
        ensures reader { self.new.reader ≡ self.old.reader }
        ensures role { self.new.session.part.role ≡ self.old.session.part.role }
    {
        match request_headers(self.alloc, path) {
            Ok(headers) => self.begin_with(&headers),
            Err(OutOfMemory) => {
                self.give_up();
                Err(OutOfMemory)
            }
        }
    }

    fn begin_with(&mut self, headers: &Headers) -> Result<Option<u32>, OutOfMemory>
        requires sound { self.old.session.fault ≡ None }
        requires client { self.old.session.part.role ≡ AClient }
        requires small { list_size headers.now ≤ max_list }
        ensures none { IfOk result (λ o. IsNone o ↔ (may_begin self.old.session.part ≡ false)) }
        ensures same { IfOk result (λ o. IsNone o → self.new ≡ self.old) }
        ensures some { IfOk result (λ o. IfSome o (λ n. BeginsWith n headers.now self.old self.new)) }
        ensures err { OnErr result (GivesUp self.old self.new) }
        ensures reader { self.new.reader ≡ self.old.reader }
        ensures role { self.new.session.part.role ≡ self.old.session.part.role }
    {
        match self.session.begin(headers) {
            Ok(None) => Ok(None),
            Ok(Some(stream)) => {
                self.add_call(stream)?;
                Ok(Some(stream))
            }
            Err(OutOfMemory) => {
                self.drop_calls();
                Err(OutOfMemory)
            }
        }
    }

    fn add_call(&mut self, stream: u32) -> Result<(), OutOfMemory>
        requires sound { self.old.session.fault ≡ None }
        ensures ok { OnOk result (self.new ≡ record self.old { calls = self.old.calls ++ record { stream = stream; reading = readings.Headers } ∷ [] }) }
        ensures err { OnErr result (GivesUp self.old self.new) }
        ensures reader { self.new.reader ≡ self.old.reader }
        ensures role { self.new.session.part.role ≡ self.old.session.part.role }
    {
        let call = Call {
            stream,
            reading: Reading::Headers,
        };
        if self.calls.push(call).is_err() {
            self.give_up();
            return Err(OutOfMemory);
        }
        Ok(())
    }

    /// Hands in a message of a call.
    pub fn reply(&mut self, stream: u32, message: &[u8]) -> Result<(), OutOfMemory>
        requires live { may_reply stream self.old ≡ true }
        requires size { length message.now < 2 ^ 32 }
        ensures ok { OnOk result (Replies stream message.now self.old self.new) }
        ensures err { OnErr result (GivesUp self.old self.new) }
        ensures reader { self.new.reader ≡ self.old.reader }
        ensures role { self.new.session.part.role ≡ self.old.session.part.role }
    {
        self.open(stream)?;
        match framed(self.alloc, message) {
            Ok(bytes) => self.send(stream, Out::Piece { bytes, end: false }),
            Err(OutOfMemory) => {
                self.give_up();
                Err(OutOfMemory)
            }
        }
    }

    /// Hands in the headers of an answer, unless they are out already.
    fn open(&mut self, stream: u32) -> Result<(), OutOfMemory>
        requires live { may_reply stream self.old ≡ true }
        ensures ok { OnOk result (Opened stream self.old self.new) }
        ensures err { OnErr result (GivesUp self.old self.new) }
        ensures reader { self.new.reader ≡ self.old.reader }
        ensures sound { OnOk result (self.new.session.fault ≡ None) }
        ensures role { self.new.session.part.role ≡ self.old.session.part.role }
    {
        if !is_fresh(self.alloc, &self.session, stream) {
            return Ok(());
        }
        match answer_headers(self.alloc) {
            Ok(headers) => self.send(
                stream,
                Out::Headers {
                    headers,
                    end: false,
                },
            ),
            Err(OutOfMemory) => {
                self.give_up();
                Err(OutOfMemory)
            }
        }
    }

    /// Ends the answer of a server with its status.
    pub fn finish(&mut self, stream: u32, status: &Status) -> Result<(), OutOfMemory>
        requires live { may_reply stream self.old ≡ true }
        requires server { self.old.session.part.role ≡ AServer }
        requires short { length status.now.text ≤ 4096 }
        ensures ok { OnOk result (Finishes stream status.now self.old self.new) }
        ensures err { OnErr result (GivesUp self.old self.new) }
        ensures reader { self.new.reader ≡ self.old.reader }
        ensures role { self.new.session.part.role ≡ self.old.session.part.role }
    {
        self.open(stream)?;
        self.end(stream, status)?;
        drop_call(&mut self.calls, stream);
        Ok(())
    }

    fn end(&mut self, stream: u32, status: &Status) -> Result<(), OutOfMemory>
        requires sound { self.old.session.fault ≡ None }
        requires server { self.old.session.part.role ≡ AServer }
        requires is_open { IsOpen stream self.old.session.part }
        requires short { length status.now.text ≤ 4096 }
        ensures ok { OnOk result (Says stream (outs.Headers (trailers status.now) true) self.old self.new) }
        ensures err { OnErr result (GivesUp self.old self.new) }
        ensures reader { self.new.reader ≡ self.old.reader }
        ensures role { self.new.session.part.role ≡ self.old.session.part.role }
    {
        match trailers(self.alloc, status) {
            Ok(headers) => self.send(stream, Out::Headers { headers, end: true }),
            Err(OutOfMemory) => {
                self.give_up();
                Err(OutOfMemory)
            }
        }
    }

    /// A client sends no more messages of a call.
    pub fn half_close(&mut self, stream: u32) -> Result<(), OutOfMemory>
        requires live { may_reply stream self.old ≡ true }
        requires client { self.old.session.part.role ≡ AClient }
        ensures ok { OnOk result (HalfCloses stream self.old self.new) }
        ensures err { OnErr result (GivesUp self.old self.new) }
        ensures reader { self.new.reader ≡ self.old.reader }
        ensures role { self.new.session.part.role ≡ self.old.session.part.role }
    {
        let bytes = Bytes::new(self.alloc);
        self.send(stream, Out::Piece { bytes, end: true })
    }

    /// A client gives a call up. A stream that isn't live stays as it is.
    pub fn cancel(&mut self, stream: u32) -> Result<(), OutOfMemory>
        requires client { self.old.session.part.role ≡ AClient }
        ensures over { IfSome self.old.session.fault (λ e. (result ≡ Ok tt) × (self.new ≡ self.old)) }
        ensures ok { self.old.session.fault ≡ None → OnOk result (Cancels stream self.old self.new) }
        ensures err { self.old.session.fault ≡ None → OnErr result (GivesUp self.old self.new) }
        ensures reader { self.new.reader ≡ self.old.reader }
        ensures role { self.new.session.part.role ≡ self.old.session.part.role }
    {
        if self.session.fault().is_some() {
            return Ok(());
        }
        match self.session.cancel(stream, CANCEL) {
            Ok(()) => {
                drop_call(&mut self.calls, stream);
                Ok(())
            }
            Err(OutOfMemory) => {
                self.drop_calls();
                Err(OutOfMemory)
            }
        }
    }

    /// How many bytes of a stream wait for a window. It takes no memory.
    pub fn waiting(&self, stream: u32) -> u64
        ensures { result ≡ waiting (stream_of stream self.now.session.part) }
    {
        self.session.waiting(stream)
    }

    /// How many streams are live, or 2^32 - 1 for more. It takes no memory.
    pub fn live(&self) -> u32
        ensures { result ≡ min (length self.now.session.part.streams) (2 ^ 32 - 1) }
    {
        self.session.live()
    }

    /// Whether more may be handed in for a call: at a server until it is finished, at a client until it half-closes. It takes no
    /// memory.
    pub fn is_live(&self, stream: u32) -> bool
        ensures { result ≡ may_reply stream self.now }
    {
        if self.session.fault().is_some() {
            return false;
        }
        if self.session.is_client() {
            let what = Out::Piece {
                bytes: Bytes::new(self.alloc),
                end: false,
            };
            return self.session.may_send(stream, &what);
        }
        self.session.is_live(stream)
    }

    /// How many bytes are kept of what came on a stream. It takes no memory.
    pub fn held(&self, stream: u32) -> u64
        ensures held { result ≡ min (held stream self.now) (2 ^ 64 - 1) }
        ensures bound { self.now.pending ≡ [] → result ≤ 8388612 }
    {
        held_call(&self.calls, stream).saturating_add(held_events(&self.pending, stream))
    }

    /// Where the first byte that wasn't read stands among all that were fed, counted from 0, if there is one. It takes no memory.
    pub fn rest_at(&self) -> Option<u64>
        ensures { result ≡ rest_place self.now.reader }
    {
        self.reader.rest_at()
    }

    /// How many bytes were fed, without those fed after a refusal. It takes no memory.
    pub fn fed(&self) -> u64
        ensures { result ≡ self.now.reader.at + length self.now.reader.rest }
    {
        self.reader.fed()
    }

    /// The output that wasn't taken yet. It takes no memory.
    pub fn take_output(&mut self) -> Bytes
        ensures output { result ≡ self.old.session.output }
        ensures rest { self.new ≡ record self.old { session = record self.old.session { output = [] } } }
    {
        self.session.take_output()
    }
}
