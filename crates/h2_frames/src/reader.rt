//! The reader of a connection's frames. Only `feed` and `next` take memory.

ghost use Rattle.std.specs.Prelude.{◌≡◌, ◌+◌, ◌≤◌, ◌<◌, ◌^◌, ◌↔◌, length, drop, vec_len, None, Some, Err, IsErr, IsNone, IfSome, IfOk, IfErr, OnOk, OnErr};
ghost use Rattle.proto_wire.specs.Reading.{IsBytes};
ghost use Rattle.h2_frames.specs.Reading.{Gives};
ghost use Rattle.h2_frames.specs.Stream.{Pending, fresh, preface, difference, preface_at, advanced, cut, begun, seen, Answers, fed, rest_place};
ghost use Rattle.h2_frames.specs.declared.fault.FrameFault.TheVariants.{OutOfMemory as NoMemory};

use crate::fault::FrameFault;
use crate::frame::Frame;
use crate::parse::frame_in;
use proto_wire::{OutOfMemory, drop_front};
use std::alloc::Global;
use std::marker::Model;

/// What a client sends before its first frame (RFC 9113, section 3.4).
const PREFACE: [u8; 24] = *b"PRI * HTTP/2.0\r\n\r\nSM\r\n\r\n";

/// The place of the first byte that differs. The first byte of each stands at `at`.
#[tactic(auto, unfolding(crate::specs::Stream::difference))]
fn difference(at: u64, wanted: &[u8], bytes: &[u8]) -> Option<u64>
    requires { at + length wanted.now < 2 ^ 62 }
    ensures { result ≡ difference at wanted.now bytes.now }
{
    match wanted {
        [] => None,
        [w, wanted @ ..] => match bytes {
            [] => None,
            [b, bytes @ ..] => {
                if *w == *b {
                    difference(at + 1, wanted, bytes)
                } else {
                    Some(at)
                }
            }
        },
    }
}

/// Whether the bytes begin with the whole preface. A proper prefix of it is no fault.
#[tactic(auto, unfolding(crate::specs::Stream::preface_at, crate::specs::Stream::preface))]
fn preface_in(at: u64, bytes: &[u8]) -> Result<bool, FrameFault>
    requires { at ≤ 2 ^ 60 }
    ensures { result ≡ preface_at at bytes.now }
{
    match difference(at, &PREFACE, bytes) {
        Some(at) => Err(FrameFault::BadPreface { at }),
        None => Ok(bytes.len() >= PREFACE.len()),
    }
}

/// Takes the bytes of a connection in pieces, and gives its frames. After a refusal it answers the same for good.
#[derive(Drop)]
pub struct FrameReader {
    alloc: Global,
    due: bool,
    at: u64,
    buffer: Vec<u8>,
    start: usize,
    fault: Option<FrameFault>,
}

impl Model for FrameReader {
    ghost use Rattle.std.specs.Prelude.{◌+◌, ◌≤◌, ◌^◌, drop, length, vec_len};
    ghost use Rattle.h2_frames.specs.Stream.{Pending};

    ghost Value = { Pending };

    ghost view = { λ r. record { due = r.due; at = r.at; rest = drop r.start r.buffer.items; fault = r.fault; held = vec_len r.buffer } };

    ghost invariant = { λ r. (r.start ≤ vec_len r.buffer) × (r.at + length (drop r.start r.buffer.items) ≤ 2 ^ 60) };
}

impl FrameReader {
    /// A reader to which no bytes were fed. If `preface` is set, the client's connection preface has to come before the
    /// first frame.
    pub fn new(alloc: Global, preface: bool) -> FrameReader
        ensures { result ≡ fresh preface }
    {
        FrameReader {
            alloc,
            due: preface,
            at: 0,
            buffer: Vec::new(alloc),
            start: 0,
            fault: None,
        }
    }

    /// Appends bytes to those that were fed. If memory runs out, this call and `next` refuse from then on. After any
    /// other refusal, which `OutOfMemory` can't express, it drops the bytes and answers `Ok`: `next` tells the refusal.
    pub fn feed(&mut self, bytes: &[u8]) -> Result<(), OutOfMemory>
        requires { self.old.at + (length self.old.rest + length bytes.now) ≤ 2 ^ 60 }
        ensures latched { IfSome self.old.fault (λ e. (IsErr result ↔ (e ≡ NoMemory)) × (self.new ≡ self.old)) }
        ensures ok { OnOk result (self.new ≡ fed bytes.now self.old) }
        ensures err { OnErr result (self.new ≡ record self.old { fault = Some NoMemory }) }
        ensures count { self.new.at + length self.new.rest ≤ self.old.at + (length self.old.rest + length bytes.now) }
        ensures held { self.new.held ≤ self.old.held + length bytes.now }
        // A caller learns here what the type of the bytes says.
        ensures bytes { IsBytes bytes.now }
    {
        match self.fault {
            Some(FrameFault::OutOfMemory) => Err(OutOfMemory),
            Some(_) => Ok(()),
            None => self.add(bytes),
        }
    }

    /// The next frame, with the place of its first byte among all bytes that were fed, counted from 0. `None` if the
    /// rest is empty, or a proper prefix of the preface or of a frame: then only the rest is kept. After a refusal it
    /// answers the same for good.
    pub fn next(&mut self) -> Result<Option<(u64, Frame)>, FrameFault>
        ensures latched { IfSome self.old.fault (λ e. (result ≡ Err e) × (self.new ≡ self.old)) }
        ensures exact { IsNone self.old.fault → Answers self.old self.new result }
        // No byte is lost: the count of all bytes that were fed stays the same.
        ensures count { self.new.at + length self.new.rest ≡ self.old.at + length self.old.rest }
        ensures fault { IfErr result (λ e. self.new.fault ≡ Some e) }
        ensures sound { OnOk result (self.new.fault ≡ None) }
        ensures held { self.new.held ≤ self.old.held }
        // The longest proper prefix of a frame has 9 bytes of header and 16,383 of payload.
        ensures limit { IfOk result (λ o. IsNone o → self.new.held ≤ 16392) }
    {
        if let Some(fault) = self.fault {
            return Err(fault);
        }
        self.skip_preface();
        match self.parse_front() {
            Ok(None) => {
                self.cut();
                Ok(None)
            }
            Ok(Some((frame, len))) => {
                let at = self.advance(len);
                Ok(Some((at, frame)))
            }
            Err(fault) => {
                self.refuse(fault);
                Err(fault)
            }
        }
    }

    /// How many bytes were fed, without those fed after a refusal.
    pub fn fed(&self) -> u64
        ensures { result ≡ self.now.at + length self.now.rest }
    {
        self.at + (self.buffer.len() - self.start) as u64
    }

    /// How many bytes it keeps: those that were not given out, and those that were and will be dropped when `next`
    /// answers `None`.
    pub fn held(&self) -> u64
        ensures held { result ≡ self.now.held }
        ensures rest { length self.now.rest ≤ result }
    {
        self.buffer.len() as u64
    }

    /// The place among all bytes that were fed, counted from 0, of the first byte that was not given out, if there is
    /// one.
    pub fn rest_at(&self) -> Option<u64>
        ensures { result ≡ rest_place self.now }
    {
        if self.start == self.buffer.len() {
            return None;
        }
        Some(self.at)
    }

    fn add(&mut self, bytes: &[u8]) -> Result<(), OutOfMemory>
        requires room { self.old.at + (length self.old.rest + length bytes.now) ≤ 2 ^ 60 }
        requires sound { self.old.fault ≡ None }
        ensures ok { OnOk result (self.new ≡ fed bytes.now self.old) }
        ensures err { OnErr result (self.new ≡ record self.old { fault = Some NoMemory }) }
    {
        let added = self.buffer.extend_from_slice(bytes);
        if added.is_err() {
            self.fault = Some(FrameFault::OutOfMemory);
            return Err(OutOfMemory);
        }
        Ok(())
    }

    /// Goes past the preface if it is due and has come whole.
    #[tactic(auto, unfolding(crate::specs::Stream::begun))]
    fn skip_preface(&mut self)
        ensures { self.new ≡ begun self.old }
    {
        if !self.due {
            return;
        }
        if let Ok(true) = preface_in(self.at, &self.buffer[self.start..]) {
            self.advance(PREFACE.len());
        }
    }

    /// What stands at the beginning of the rest.
    #[tactic(auto, unfolding(crate::specs::Stream::seen))]
    fn parse_front(&self) -> Result<Option<(Frame, usize)>, FrameFault>
        ensures exact { Gives (λ o. o) result (seen self.now) }
        ensures within { IfOk result (λ o. IfSome o (λ x. x.1 ≤ length self.now.rest)) }
    {
        let rest = &self.buffer[self.start..];
        if self.due {
            preface_in(self.at, rest)?;
            return Ok(None);
        }
        frame_in(self.alloc, self.at, rest)
    }

    /// Gives out the first bytes of the rest, and answers where they stood. They are kept until `cut`.
    fn advance(&mut self, len: usize) -> u64
        requires { len ≤ length self.old.rest }
        ensures at { result ≡ self.old.at }
        ensures rest { self.new ≡ advanced len self.old }
    {
        let at = self.at;
        self.due = false;
        self.at += len as u64;
        self.start += len;
        at
    }

    /// Drops what was given out.
    fn cut(&mut self)
        ensures cut { self.new ≡ cut self.old }
        ensures less { self.new.held ≤ self.old.held }
    {
        if self.start == 0 {
            return;
        }
        drop_front(&mut self.buffer, self.start);
        self.start = 0;
    }

    fn refuse(&mut self, fault: FrameFault)
        ensures { self.new ≡ record self.old { fault = Some fault } }
    {
        self.fault = Some(fault);
    }
}
