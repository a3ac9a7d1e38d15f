//! `Session`.

ghost use Rattle.std.specs.Prelude.{◌≡◌, ◌++◌, ◌≤◌, ◌<◌, ◌^◌, ◌-◌, ◌↔◌, ◌∷◌, min, ℕ, List, [], None, Some, Err, true, false, not, length, IfOk, IfSome, IsNone, OnOk, OnErr, IsErrOf};
ghost use Rattle.h2_frames.specs.Spelling.{IsSpelling, spelled};
ghost use Rattle.h2_frames.specs.declared.frame.Frame.TheVariants as frames;
ghost use Rattle.hpack_tables.specs.Table.{list_size};
ghost use Rattle.h2_session.specs.declared.fault.ConnFault.TheVariants.{Offence as Offends, OutOfMemory as NoMemory};
ghost use Rattle.h2_session.specs.declared.role.Role.TheVariants.{Server as AServer, Client as AClient};
ghost use Rattle.h2_session.specs.Codes.{max_list};
ghost use Rattle.h2_session.specs.Part.{new_part, stream_of, is_live};
ghost use Rattle.h2_session.specs.Faults.{offence};
ghost use Rattle.h2_session.specs.Heard.{heard, at_offence};
ghost use Rattle.h2_session.specs.Said.{said, may_say, IsSayable, cancelled, may_begin, next_number, begun, waiting};
ghost use Rattle.h2_session.specs.Sent.{Settles};
ghost use Rattle.h2_session.specs.Session.{first_output, offended, exhausted, Goes};

use crate::code::{MAX_LIST, MAX_STREAMS};
use crate::event::{Out, SessionEvent};
use crate::fault::{ConnFault, Stop};
use crate::machine::Machine;
use crate::role::Role;
use h2_frames::{Frame, Settings, write_frame};
use hpack_tables::Headers;
use proto_wire::{Bytes, OutOfMemory};
use std::alloc::Global;
use std::marker::Model;
use std::mem;

/// The client's connection preface (RFC 9113, section 3.4).
const PREFACE: [u8; 24] = *b"PRI * HTTP/2.0\r\n\r\nSM\r\n\r\n";

fn write_settings(alloc: Global, first: (u16, u32), out: &mut Bytes) -> Result<(), OutOfMemory>
    ensures { OnOk result (out.new ≡ out.old ++ spelled (frames.Settings false (first ∷ (6, max_list) ∷ []))) }
{
    let values = Settings::copy_of(alloc, &[first, (6, MAX_LIST)])?;
    write_frame(&Frame::Settings { ack: false, values }, out)
}

fn server_output(alloc: Global) -> Result<Bytes, OutOfMemory>
    ensures { IfOk result (λ out. out ≡ first_output AServer) }
{
    let mut out = Bytes::new(alloc);
    write_settings(alloc, (3, MAX_STREAMS), &mut out)?;
    Ok(out)
}

#[tactic(auto, unfolding(h2_frames::specs::Stream::preface))]
fn client_output(alloc: Global) -> Result<Bytes, OutOfMemory>
    ensures { IfOk result (λ out. out ≡ first_output AClient) }
{
    let mut out = Bytes::new(alloc);
    out.push_slice(&PREFACE)?;
    write_settings(alloc, (2, 0), &mut out)?;
    Ok(out)
}

/// What this end writes first: at a client the preface, then its SETTINGS.
fn first_output(alloc: Global, role: Role) -> Result<Bytes, OutOfMemory>
    ensures { IfOk result (λ out. out ≡ first_output role) }
{
    match role {
        Role::Server => server_output(alloc),
        Role::Client => client_output(alloc),
    }
}

/// One end of a connection. Between two calls all that may be written is in the output. A refusal is answered for good.
#[derive(Drop)]
pub struct Session {
    alloc: Global,
    machine: Machine,
    out: Bytes,
    fault: Option<ConnFault>,
}

impl Model for Session {
    ghost use Rattle.h2_session.specs.Session.{Session as SessionValue};
    ghost use Rattle.h2_session.specs.Machine.{part_of};

    ghost Value = { SessionValue };

    ghost view = { λ s. record { part = part_of s.machine; output = s.out; fault = s.fault } };
}

impl Session {
    /// The server's end. Its SETTINGS are in the output.
    pub fn server(alloc: Global) -> Result<Session, OutOfMemory>
        ensures { IfOk result (λ s. s ≡ record { part = new_part AServer; output = first_output AServer; fault = None }) }
    {
        Session::new(alloc, Role::Server)
    }

    /// The client's end. The preface and its SETTINGS are in the output.
    pub fn client(alloc: Global) -> Result<Session, OutOfMemory>
        ensures { IfOk result (λ s. s ≡ record { part = new_part AClient; output = first_output AClient; fault = None }) }
    {
        Session::new(alloc, Role::Client)
    }

    fn new(alloc: Global, role: Role) -> Result<Session, OutOfMemory>
        ensures { IfOk result (λ s. s ≡ record { part = new_part role; output = first_output role; fault = None }) }
    {
        Ok(Session {
            alloc,
            machine: Machine::new(alloc, role),
            out: first_output(alloc, role)?,
            fault: None,
        })
    }

    /// Takes a frame of the peer, whose first byte has the place `at` in the connection. What it is owed for it is in the output
    /// then.
    pub fn on_frame(&mut self, at: u64, frame: Frame) -> Result<Option<SessionEvent>, ConnFault>
        requires { (text : List ℕ) × IsSpelling text frame }
        ensures latched { IfSome self.old.fault (λ e. (result ≡ Err e) × (self.new ≡ self.old)) }
        ensures taken { self.old.fault ≡ None → IfOk result (λ e. (offence self.old.part frame ≡ None) × (e ≡ (heard self.old.part frame).event)) }
        ensures goes { self.old.fault ≡ None → OnOk result (Goes (heard self.old.part frame).part self.old self.new) }
        ensures offence { (code place : ℕ) → self.old.fault ≡ None → result ≡ Err (Offends code place) → (offence self.old.part frame ≡ Some code) × (place ≡ at) × (self.new ≡ offended (at_offence self.old.part frame) code at self.old) }
        ensures memory { self.old.fault ≡ None → result ≡ Err NoMemory → self.new ≡ exhausted self.old }
    {
        if let Some(fault) = self.fault {
            return Err(fault);
        }
        match self.machine.on_frame(&mut self.out, frame) {
            Ok(event) => Ok(event),
            Err(Stop::Offence(code)) => Err(self.go_away(code, at)),
            Err(Stop::OutOfMemory) => Err(self.exhaust()),
        }
    }

    /// Ends the connection for an offence that the reader of frames has found, as `on_frame` does.
    pub fn refuse(&mut self, code: u32, at: u64) -> Result<(), OutOfMemory>
        requires { self.old.fault ≡ None }
        ensures ok { OnOk result (self.new ≡ offended self.old.part code at self.old) }
        ensures err { OnErr result (self.new ≡ exhausted self.old) }
    {
        match self.go_away(code, at) {
            ConnFault::Offence { .. } => Ok(()),
            ConnFault::OutOfMemory => Err(OutOfMemory),
        }
    }

    /// Hands in what is sent on a stream. Bytes wait for their window.
    pub fn send(&mut self, stream: u32, what: Out) -> Result<(), OutOfMemory>
        requires sound { self.old.fault ≡ None }
        requires live { may_say (stream_of stream self.old.part) ≡ true }
        requires sayable { IsSayable self.old.part.role what (stream_of stream self.old.part) }
        ensures ok { OnOk result (Goes (said stream what self.old.part) self.old self.new) }
        ensures err { OnErr result (self.new ≡ exhausted self.old) }
    {
        if self.machine.send(&mut self.out, stream, what).is_err() {
            self.exhaust();
            return Err(OutOfMemory);
        }
        Ok(())
    }

    /// Resets a stream. One that isn't live stays as it is.
    pub fn cancel(&mut self, stream: u32, code: u32) -> Result<(), OutOfMemory>
        requires { self.old.fault ≡ None }
        ensures ok { OnOk result (Goes (cancelled stream code self.old.part) self.old self.new) }
        ensures err { OnErr result (self.new ≡ exhausted self.old) }
    {
        if self.machine.cancel(&mut self.out, stream, code).is_err() {
            self.exhaust();
            return Err(OutOfMemory);
        }
        Ok(())
    }

    /// Begins a stream of a client with a request's headers, and answers its number; None if the peer's limit of open streams is
    /// reached or the numbers are used up.
    pub fn begin(&mut self, headers: &Headers) -> Result<Option<u32>, OutOfMemory>
        requires sound { self.old.fault ≡ None }
        requires client { self.old.part.role ≡ AClient }
        requires small { list_size headers.now ≤ max_list }
        ensures none { IfOk result (λ o. IsNone o ↔ (may_begin self.old.part ≡ false)) }
        ensures some { IfOk result (λ o. IfSome o (λ n. (n ≡ next_number self.old.part) × Goes (begun headers.now self.old.part) self.old self.new)) }
        ensures same { IfOk result (λ o. IsNone o → self.new ≡ self.old) }
        ensures err { OnErr result (self.new ≡ exhausted self.old) }
    {
        match self.machine.begin(&mut self.out, headers) {
            Ok(number) => Ok(number),
            Err(OutOfMemory) => {
                self.exhaust();
                Err(OutOfMemory)
            }
        }
    }

    /// Ends the session as want of memory does, for a caller that found none. It takes no memory.
    pub fn give_up(&mut self)
        requires { self.old.fault ≡ None }
        ensures { self.new ≡ exhausted self.old }
    {
        self.exhaust();
    }

    /// The refusal that is answered for good. It takes no memory.
    pub fn fault(&self) -> Option<ConnFault>
        ensures { result ≡ self.now.fault }
    {
        self.fault
    }

    /// Whether this is a client's end. It takes no memory.
    pub fn is_client(&self) -> bool
        ensures client { result ≡ true → self.now.part.role ≡ AClient }
        ensures server { result ≡ false → self.now.part.role ≡ AServer }
    {
        match self.machine.role {
            Role::Server => false,
            Role::Client => true,
        }
    }

    /// Whether the peer's first SETTINGS are still to come. It takes no memory.
    pub fn is_unopened(&self) -> bool
        ensures { result ≡ not self.now.part.begun }
    {
        !self.machine.begun
    }

    /// How many bytes of a stream wait for a window. It takes no memory.
    pub fn waiting(&self, stream: u32) -> u64
        ensures { result ≡ waiting (stream_of stream self.now.part) }
    {
        self.machine.waiting(stream)
    }

    /// How many streams are live. It takes no memory.
    pub fn live(&self) -> u32
        ensures { result ≡ min (length self.now.part.streams) (2 ^ 32 - 1) }
    {
        u32::try_from(self.machine.streams.len()).unwrap_or(u32::MAX)
    }

    /// Whether more may be handed in on a stream. It takes no memory.
    pub fn is_live(&self, stream: u32) -> bool
        ensures { result ≡ may_say (stream_of stream self.now.part) }
    {
        self.machine.may_say(stream)
    }

    /// Whether this may be handed in on a stream as it stands, so that `send` takes it. It takes no memory.
    pub fn may_send(&self, stream: u32, what: &Out) -> bool
        ensures yes { result ≡ true → (may_say (stream_of stream self.now.part) ≡ true) × IsSayable self.now.part.role what.now (stream_of stream self.now.part) }
        ensures no { IsSayable self.now.part.role what.now (stream_of stream self.now.part) → result ≡ true }
    {
        self.machine.may_send(stream, what)
    }

    /// The output that wasn't taken yet. It takes no memory.
    pub fn take_output(&mut self) -> Bytes
        ensures output { result ≡ self.old.output }
        ensures rest { self.new ≡ record self.old { output = [] } }
    {
        mem::replace(&mut self.out, Bytes::new(self.alloc))
    }

    fn go_away(&mut self, code: u32, at: u64) -> ConnFault
        requires { self.old.fault ≡ None }
        ensures offence { (c p : ℕ) → result ≡ Offends c p → (c ≡ code) × (p ≡ at) × (self.new ≡ offended self.old.part code at self.old) }
        ensures memory { result ≡ NoMemory → self.new ≡ exhausted self.old }
    {
        let last = self.machine.last_of_peer();
        self.machine.end();
        if write_frame(&Frame::GoAway { last, code }, &mut self.out).is_err() {
            return self.exhaust();
        }
        let fault = ConnFault::Offence { code, at };
        self.fault = Some(fault);
        fault
    }

    fn exhaust(&mut self) -> ConnFault
        ensures fault { result ≡ NoMemory }
        ensures exhausted { self.new ≡ exhausted self.old }
    {
        self.machine.end();
        self.machine.highest = 0;
        self.out = Bytes::new(self.alloc);
        self.fault = Some(ConnFault::OutOfMemory);
        ConnFault::OutOfMemory
    }
}
