//! What the frames of the peer do.

ghost use Rattle.std.specs.Prelude.{◌≡◌, ◌<◌, ◌≤◌, ◌^◌, ◌+◌, ◌-◌, ◌++◌, ℕ, List, [], ◌∷◌, None, Some, Ok, Bool, true, false, IfOk, OnOk, OnErr, IfErr, IfSome, IsSome, length, nat_lt, ◌&&◌, slice_get, remove, if◌then◌else◌};
ghost use Rattle.h2_frames.specs.declared.frame.Frame.TheVariants as frames;
ghost use Rattle.h2_frames.specs.Spelling.{IsSpelling, IsStreamNumber, spelled};
ghost use Rattle.h2_session.specs.declared.fault.Stop.TheVariants.{Offence as Offends};
ghost use Rattle.h2_session.specs.declared.event.SessionEvent.TheVariants as events;
ghost use Rattle.h2_session.specs.Codes.{max_window};
ghost use Rattle.h2_session.specs.Machine.{part_of};
ghost use Rattle.h2_session.specs.Part.{stream_of, place_of, IsRow};
ghost use Rattle.h2_session.specs.Faults.{offence, frame_offence, block_offence, fragment_offence, is_server, gathered, decoded_of};
ghost use Rattle.h2_session.specs.Heard.{heard, grants, begun_by, at_offence, data_on, fragment, updated, reset_by_peer, reset, requested, headed, with_settings, with_setting};
ghost use Rattle.h2_session.specs.Rows.{Rises, Opens};
ghost use Rattle.h2_session.specs.Windows.{grown, passes_max};
ghost use Rattle.h2_session.specs.Sent.{Settles, Pays, spellings};

use crate::block::Block;
use crate::blocks::decode;
use crate::caller::write_reset;
use crate::code::{
    ENHANCE_YOUR_CALM, FLOW_CONTROL_ERROR, MAX_BLOCK, MAX_STREAMS, PROTOCOL_ERROR, REFUSED_STREAM,
    TABLE,
};
use crate::event::SessionEvent;
use crate::fault::Stop;
use crate::flow::Flow;
use crate::machine::Machine;
use crate::number::StreamNumber;
use crate::request::is_malformed;
use crate::role::Role;
use crate::stream::{Sending, Stream};
use crate::waits::Waits;
use h2_frames::{Frame, Settings, write_frame};
use hpack_tables::Headers;
use proto_wire::{Bytes, OutOfMemory};

/// Grants the payload of a DATA frame again.
fn grant(out: &mut Bytes, stream: u32, size: u32) -> Result<(), OutOfMemory>
    requires { (stream < 2 ^ 31) × (size < 2 ^ 31) }
    ensures { OnOk result (out.new ≡ out.old ++ spellings (grants stream size)) }
{
    if size == 0 {
        return Ok(());
    }
    write_frame(&Frame::Window { stream, add: size }, out)
}

/// Grants the payload of a DATA frame again, to the connection and to its stream.
fn grant_both(out: &mut Bytes, stream: u32, size: u32) -> Result<(), OutOfMemory>
    requires { (stream < 2 ^ 31) × (size < 2 ^ 31) }
    ensures { OnOk result (out.new ≡ out.old ++ spellings (grants 0 size ++ grants stream size)) }
{
    grant(out, 0, size)?;
    grant(out, stream, size)?;
    Ok(())
}

fn begins_stream(role: Role, highest: u32, stream: u32) -> bool
    ensures { result ≡ (is_server role && nat_lt highest stream) }
{
    role.is_server() && stream > highest
}

fn if_begun(begins: bool, stream: u32, highest: u32) -> u32
    ensures { result ≡ (if begins then stream else highest) }
{
    if begins { stream } else { highest }
}

/// The window of a stream after a WINDOW_UPDATE, unless it would be larger than one may be.
fn grown_of(stream: &Stream, initial: u32, increment: u32) -> Option<Flow>
    requires { increment ≤ max_window }
    ensures { result ≡ (if passes_max initial (grown increment stream.now.flow) then None else Some (grown increment stream.now.flow)) }
{
    stream.flow.grown(initial, increment)
}

impl Machine {
    /// Takes a frame. What the peer is owed for it is in the output then, and all that the windows allow. After a refusal the
    /// connection has ended.
    pub(crate) fn on_frame(
        &mut self,
        out: &mut Bytes,
        frame: Frame,
    ) -> Result<Option<SessionEvent>, Stop>
        requires { (text : List ℕ) × IsSpelling text frame }
        ensures taken { OnOk result (offence (part_of self.old) frame ≡ None) }
        ensures ok { IfOk result (λ e. e ≡ (heard (part_of self.old) frame).event) }
        ensures settles { OnOk result (Settles (heard (part_of self.old) frame).part out.old (part_of self.new) out.new) }
        ensures offence { IfErr result (λ e. (code : ℕ) → e ≡ Offends code → (offence (part_of self.old) frame ≡ Some code) × (out.new ≡ out.old) × (self.new.highest ≡ (at_offence (part_of self.old) frame).highest)) }
        ensures role { self.new.role ≡ self.old.role }
    {
        if let Some(code) = self.frame_offence(&frame) {
            return Err(Stop::Offence(code));
        }
        let event = self.take(out, frame)?;
        self.pump(out)?;
        Ok(event)
    }

    fn take(&mut self, out: &mut Bytes, frame: Frame) -> Result<Option<SessionEvent>, Stop>
        requires spelled { (text : List ℕ) × IsSpelling text frame }
        requires sound { frame_offence (part_of self.old) frame ≡ None }
        ensures taken { OnOk result (block_offence (part_of self.old) frame ≡ None) }
        ensures ok { IfOk result (λ e. e ≡ (heard (part_of self.old) frame).event) }
        ensures pays { OnOk result (Pays (heard (part_of self.old) frame).part out.old (part_of self.new) out.new) }
        ensures offence { IfErr result (λ e. (code : ℕ) → e ≡ Offends code → (block_offence (part_of self.old) frame ≡ Some code) × (out.new ≡ out.old) × (self.new.highest ≡ (begun_by (gathered (part_of self.old) frame) (part_of self.old)).highest)) }
        ensures role { self.new.role ≡ self.old.role }
    {
        match frame {
            Frame::Data {
                stream,
                bytes,
                size,
                end,
            } => Ok(self.on_data(out, stream, bytes, size, end)?),
            Frame::Headers {
                stream,
                block,
                end,
                whole,
            } => self.on_headers(out, stream, block, end, whole),
            Frame::Continuation { block, whole, .. } => self.on_continuation(out, block, whole),
            Frame::Reset { stream, code } => Ok(self.on_reset(stream, code)),
            Frame::Settings { ack, values } => {
                if !ack {
                    self.on_settings(out, values)?;
                }
                Ok(None)
            }
            Frame::Ping { ack, bytes } => {
                if !ack {
                    write_frame(&Frame::Ping { ack: true, bytes }, out)?;
                }
                Ok(None)
            }
            Frame::GoAway { .. } => {
                self.over = true;
                Ok(Some(SessionEvent::GoAway))
            }
            Frame::Window { stream, add } => Ok(self.on_window(out, stream, add)?),
            Frame::Priority { .. } | Frame::Push { .. } | Frame::Unknown { .. } => Ok(None),
        }
    }

    fn on_data(
        &mut self,
        out: &mut Bytes,
        stream: u32,
        bytes: Bytes,
        size: u32,
        end: bool,
    ) -> Result<Option<SessionEvent>, OutOfMemory>
        requires { (stream < 2 ^ 31) × (size < 2 ^ 31) }
        ensures event { IfOk result (λ e. e ≡ (data_on stream bytes size end (stream_of stream (part_of self.old)) (part_of self.old)).event) }
        ensures pays { OnOk result (Pays (data_on stream bytes size end (stream_of stream (part_of self.old)) (part_of self.old)).part out.old (part_of self.new) out.new) }
        ensures role { self.new.role ≡ self.old.role }
    {
        match self.place(stream) {
            None => {
                grant(out, 0, size)?;
                Ok(None)
            }
            Some(i) => self.on_live_data(out, i, stream, bytes, size, end),
        }
    }

    fn on_live_data(
        &mut self,
        out: &mut Bytes,
        i: usize,
        stream: u32,
        bytes: Bytes,
        size: u32,
        end: bool,
    ) -> Result<Option<SessionEvent>, OutOfMemory>
        requires numbers { (stream < 2 ^ 31) × (size < 2 ^ 31) }
        requires row { IsRow stream self.old.streams i }
        ensures event { IfOk result (λ e. e ≡ Some (events.Piece stream bytes end)) }
        ensures pays { OnOk result (Pays (data_on stream bytes size end (stream_of stream (part_of self.old)) (part_of self.old)).part out.old (part_of self.new) out.new) }
        ensures role { self.new.role ≡ self.old.role }
    {
        if end {
            self.on_last_data(out, i, stream, size)?;
        } else {
            grant_both(out, stream, size)?;
        }
        Ok(Some(SessionEvent::Piece { stream, bytes, end }))
    }

    fn on_last_data(
        &mut self,
        out: &mut Bytes,
        i: usize,
        stream: u32,
        size: u32,
    ) -> Result<(), OutOfMemory>
        requires size { size < 2 ^ 31 }
        requires row { IsRow stream self.old.streams i }
        ensures pays { OnOk result ((bytes : List ℕ) → Pays (data_on stream bytes size true (stream_of stream (part_of self.old)) (part_of self.old)).part out.old (part_of self.new) out.new) }
        ensures role { self.new.role ≡ self.old.role }
    {
        grant(out, 0, size)?;
        self.streams.end_by_peer(i);
        Ok(())
    }

    fn on_headers(
        &mut self,
        out: &mut Bytes,
        stream: u32,
        block: Bytes,
        end: bool,
        whole: bool,
    ) -> Result<Option<SessionEvent>, Stop>
        requires number { IsStreamNumber stream }
        requires block { self.old.block ≡ None }
        ensures taken { OnOk result (block_offence (part_of self.old) (frames.Headers stream block end whole) ≡ None) }
        ensures event { IfOk result (λ e. e ≡ (heard (part_of self.old) (frames.Headers stream block end whole)).event) }
        ensures pays { OnOk result (Pays (heard (part_of self.old) (frames.Headers stream block end whole)).part out.old (part_of self.new) out.new) }
        ensures offence { IfErr result (λ e. (code : ℕ) → e ≡ Offends code → (block_offence (part_of self.old) (frames.Headers stream block end whole) ≡ Some code) × (out.new ≡ out.old)) }
        ensures role { self.new.role ≡ self.old.role }
        ensures highest { self.new.highest ≡ (begun_by (gathered (part_of self.old) (frames.Headers stream block end whole)) (part_of self.old)).highest }
    {
        let begins = begins_stream(self.role, self.highest, stream);
        self.highest = if_begun(begins, stream, self.highest);
        let block = Block {
            stream: StreamNumber::new(stream),
            bytes: block,
            end,
            begins,
        };
        self.on_block(out, block, whole)
    }

    fn on_continuation(
        &mut self,
        out: &mut Bytes,
        bytes: Bytes,
        whole: bool,
    ) -> Result<Option<SessionEvent>, Stop>
        requires { IsSome self.old.block }
        ensures taken { OnOk result (block_offence (part_of self.old) (frames.Continuation 0 bytes whole) ≡ None) }
        ensures event { IfOk result (λ e. e ≡ (heard (part_of self.old) (frames.Continuation 0 bytes whole)).event) }
        ensures pays { OnOk result (Pays (heard (part_of self.old) (frames.Continuation 0 bytes whole)).part out.old (part_of self.new) out.new) }
        ensures offence { IfErr result (λ e. (code : ℕ) → e ≡ Offends code → (block_offence (part_of self.old) (frames.Continuation 0 bytes whole) ≡ Some code) × (out.new ≡ out.old)) }
        ensures stays { (self.new.role ≡ self.old.role) × (self.new.highest ≡ self.old.highest) }
    {
        let Some(mut block) = self.block.take() else {
            unreachable!()
        };
        block.bytes.push_slice(bytes.as_slice())?;
        self.on_block(out, block, whole)
    }

    /// The fragments of a block that have come so far.
    fn on_block(
        &mut self,
        out: &mut Bytes,
        block: Block,
        whole: bool,
    ) -> Result<Option<SessionEvent>, Stop>
        requires block { self.old.block ≡ None }
        requires opens { Opens self.old.role block self.old.streams self.old.highest }
        ensures taken { OnOk result (fragment_offence self.old.table.dynamic whole block ≡ None) }
        ensures event { IfOk result (λ e. e ≡ (fragment (Some block) (decoded_of self.old.table.dynamic whole (Some block)) (part_of self.old)).event) }
        ensures pays { OnOk result (Pays (fragment (Some block) (decoded_of self.old.table.dynamic whole (Some block)) (part_of self.old)).part out.old (part_of self.new) out.new) }
        ensures offence { IfErr result (λ e. (code : ℕ) → e ≡ Offends code → (fragment_offence self.old.table.dynamic whole block ≡ Some code) × (out.new ≡ out.old)) }
        ensures stays { (self.new.role ≡ self.old.role) × (self.new.highest ≡ self.old.highest) }
    {
        if block.bytes.len() > MAX_BLOCK {
            return Err(Stop::Offence(ENHANCE_YOUR_CALM));
        }
        if !whole {
            self.block = Some(block);
            return Ok(None);
        }
        let headers = decode(self.alloc, &mut self.table, block.bytes.as_slice())?;
        self.block = None;
        if block.begins {
            Ok(self.on_request(out, block.stream, headers, block.end)?)
        } else {
            Ok(self.on_further_headers(block.stream, headers, block.end))
        }
    }

    /// The headers of a request, on a stream that they begin.
    fn on_request(
        &mut self,
        out: &mut Bytes,
        number: StreamNumber,
        headers: Headers,
        end: bool,
    ) -> Result<Option<SessionEvent>, OutOfMemory>
        requires block { self.old.block ≡ None }
        requires number { number ≤ self.old.highest }
        requires rises { Rises 0 self.old.streams (number - 1) }
        ensures event { IfOk result (λ e. e ≡ (requested number headers end (part_of self.old)).event) }
        ensures pays { OnOk result (Pays (requested number headers end (part_of self.old)).part out.old (part_of self.new) out.new) }
        ensures stays { (self.new.role ≡ self.old.role) × (self.new.highest ≡ self.old.highest) }
    {
        let stream = number.get();
        if is_malformed(headers.as_slice()) {
            let code = PROTOCOL_ERROR;
            write_frame(&Frame::Reset { stream, code }, out)?;
            return Ok(None);
        }
        if self.streams.len() >= MAX_STREAMS as usize {
            let code = REFUSED_STREAM;
            write_frame(&Frame::Reset { stream, code }, out)?;
            return Ok(None);
        }
        let row = Stream {
            number,
            flow: Flow::new(),
            ended: end,
            sending: Sending::Unopened,
            waits: Waits::new(self.alloc),
        };
        self.streams.add(row)?;
        Ok(Some(SessionEvent::Headers {
            stream,
            headers,
            end,
        }))
    }

    /// Further headers of a stream. They take no memory.
    fn on_further_headers(
        &mut self,
        number: StreamNumber,
        headers: Headers,
        end: bool,
    ) -> Option<SessionEvent>
        ensures event { result ≡ (headed number headers end (stream_of number (part_of self.old)) (part_of self.old)).event }
        ensures part { part_of self.new ≡ (headed number headers end (stream_of number (part_of self.old)) (part_of self.old)).part }
        ensures stays { (self.new.role ≡ self.old.role) × (self.new.highest ≡ self.old.highest) }
    {
        let stream = number.get();
        match self.place(stream) {
            None => None,
            Some(i) => {
                self.streams.end_if(i, end);
                Some(SessionEvent::Headers {
                    stream,
                    headers,
                    end,
                })
            }
        }
    }

    fn on_reset(&mut self, stream: u32, code: u32) -> Option<SessionEvent>
        ensures event { result ≡ (reset_by_peer stream code (part_of self.old)).event }
        ensures part { part_of self.new ≡ (reset_by_peer stream code (part_of self.old)).part }
        ensures role { self.new.role ≡ self.old.role }
    {
        match self.place(stream) {
            None => None,
            Some(i) => {
                self.streams.remove(i);
                Some(SessionEvent::Reset { stream, code })
            }
        }
    }

    fn on_settings(&mut self, out: &mut Bytes, values: Settings) -> Result<(), OutOfMemory>
        ensures pays { OnOk result (Pays (heard (part_of self.old) (frames.Settings false values)).part out.old (part_of self.new) out.new) }
        ensures role { self.new.role ≡ self.old.role }
    {
        self.begun = true;
        self.set_all(values.as_slice());
        let ack = Frame::Settings {
            ack: true,
            values: Settings::new(self.alloc),
        };
        write_frame(&ack, out)
    }

    /// Values of the peer's SETTINGS, one after the other.
    fn set_all(&mut self, values: &[(u16, u32)])
        ensures part { part_of self.new ≡ with_settings values.now (part_of self.old) }
        ensures role { self.new.role ≡ self.old.role }
    {
        'values: for (name, value) in values {
            self.set(*name, *value);
        }
    }

    fn set(&mut self, name: u16, value: u32)
        ensures part { part_of self.new ≡ with_setting (name, value) (part_of self.old) }
        ensures role { self.new.role ≡ self.old.role }
    {
        match name {
            1 => self.shrink = self.shrink || value < TABLE,
            3 => self.most = value,
            4 => self.initial = value,
            _ => {}
        }
    }

    fn on_window(
        &mut self,
        out: &mut Bytes,
        stream: u32,
        increment: u32,
    ) -> Result<Option<SessionEvent>, OutOfMemory>
        requires small { increment ≤ max_window }
        requires room { stream ≡ 0 → self.old.window + increment ≤ max_window }
        ensures event { IfOk result (λ e. e ≡ (heard (part_of self.old) (frames.Window stream increment)).event) }
        ensures pays { OnOk result (Pays (heard (part_of self.old) (frames.Window stream increment)).part out.old (part_of self.new) out.new) }
        ensures role { self.new.role ≡ self.old.role }
    {
        if stream == 0 {
            self.window += increment;
            return Ok(None);
        }
        match self.place(stream) {
            None => Ok(None),
            Some(i) => self.on_live_window(out, i, stream, increment),
        }
    }

    fn on_live_window(
        &mut self,
        out: &mut Bytes,
        i: usize,
        stream: u32,
        increment: u32,
    ) -> Result<Option<SessionEvent>, OutOfMemory>
        requires small { increment ≤ max_window }
        requires row { IsRow stream self.old.streams i }
        ensures event { IfOk result (λ e. e ≡ (updated stream increment (stream_of stream (part_of self.old)) (part_of self.old)).event) }
        ensures pays { OnOk result (Pays (updated stream increment (stream_of stream (part_of self.old)) (part_of self.old)).part out.old (part_of self.new) out.new) }
        ensures role { self.new.role ≡ self.old.role }
    {
        if increment == 0 {
            return self.reset(out, i, stream, PROTOCOL_ERROR);
        }
        match grown_of(self.streams.get(i), self.initial, increment) {
            Some(flow) => {
                self.streams.set_flow(i, flow);
                Ok(None)
            }
            None => self.reset(out, i, stream, FLOW_CONTROL_ERROR),
        }
    }

    /// Resets a live stream for what the peer did.
    fn reset(
        &mut self,
        out: &mut Bytes,
        i: usize,
        stream: u32,
        code: u32,
    ) -> Result<Option<SessionEvent>, OutOfMemory>
        requires { IsRow stream self.old.streams i }
        ensures event { IfOk result (λ e. e ≡ Some (events.Reset stream code)) }
        ensures pays { OnOk result (Pays (reset stream code (part_of self.old)).part out.old (part_of self.new) out.new) }
        ensures role { self.new.role ≡ self.old.role }
    {
        write_reset(self.streams.get(i), code, out)?;
        self.streams.remove(i);
        Ok(Some(SessionEvent::Reset { stream, code }))
    }
}
