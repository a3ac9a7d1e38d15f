//! What a frame shows to be wrong with it. No call takes memory.

ghost use Rattle.std.specs.Prelude.{◌≡◌, Some, None, nat_lt, if◌then◌else◌};
ghost use Rattle.std.specs.List.{list_any};
ghost use Rattle.h2_session.specs.Codes.{protocol_error, flow_control_error, stream_closed};
ghost use Rattle.h2_session.specs.Machine.{part_of};
ghost use Rattle.h2_session.specs.Windows.{passes_max};
ghost use Rattle.h2_session.specs.declared.stream.Stream.{Stream as AStream};
ghost use Rattle.h2_session.specs.Part.{stream_of};
ghost use Rattle.h2_session.specs.Faults.{is_settings, continues, is_bad_setting, lifts_too_far, is_ended, is_open, frame_offence, window_offence, headers_offence, data_offence};

use crate::code::{FIRST_WINDOW, FLOW_CONTROL_ERROR, MAX_WINDOW, PROTOCOL_ERROR, STREAM_CLOSED};
use crate::machine::Machine;
use crate::role::Role;
use crate::stream::Stream;
use h2_frames::Frame;

fn is_settings(frame: &Frame) -> bool
    ensures { result ≡ is_settings frame.now }
{
    match frame {
        Frame::Settings { ack, .. } => !*ack,
        _ => false,
    }
}

fn is_bad_setting(role: Role, name: u16, value: u32) -> bool
    ensures { result ≡ is_bad_setting role (name, value) }
{
    let push = match role {
        Role::Server => 1,
        Role::Client => 0,
    };
    (name == 2 && value > push) || (name == 5 && (value < 16_384 || value > 16_777_215))
}

fn any_bad_setting(role: Role, values: &[(u16, u32)]) -> bool
    ensures { result ≡ list_any (is_bad_setting role) values.now }
{
    values.iter().any(|v| is_bad_setting(role, v.0, v.1))
}

fn lifts(stream: &Stream, value: u32) -> bool
    ensures { result ≡ passes_max value stream.now.flow }
{
    stream.flow.passes_max(value)
}

fn any_lifts(streams: &[Stream], value: u32) -> bool
    ensures { result ≡ list_any (λ (x : AStream). passes_max value x.flow) streams.now }
{
    streams.iter().any(|s| lifts(s, value))
}

fn lifts_too_far(streams: &[Stream], name: u16, value: u32) -> bool
    ensures { result ≡ lifts_too_far streams.now (name, value) }
{
    name == 4 && (value > MAX_WINDOW || any_lifts(streams, value))
}

fn any_lifts_too_far(streams: &[Stream], values: &[(u16, u32)]) -> bool
    ensures { result ≡ list_any (lifts_too_far streams.now) values.now }
{
    values.iter().any(|v| lifts_too_far(streams, v.0, v.1))
}

impl Machine {
    /// The first row of the table of offences that the frame meets, without what its header block may show.
    pub(crate) fn frame_offence(&self, frame: &Frame) -> Option<u32>
        ensures { result ≡ frame_offence (part_of self.now) frame.now }
    {
        if !self.begun && !is_settings(frame) {
            return Some(PROTOCOL_ERROR);
        }
        if !self.continues(frame) {
            return Some(PROTOCOL_ERROR);
        }
        match frame {
            Frame::Push { .. } => Some(PROTOCOL_ERROR),
            Frame::Settings { values, .. } => self.settings_offence(values.as_slice()),
            Frame::Window { stream, add } => self.window_offence(*stream, *add),
            Frame::Headers { stream, end, .. } => self.headers_offence(*stream, *end),
            Frame::Data { stream, size, .. } => self.data_offence(*stream, *size),
            Frame::Reset { stream, .. } => self.idle_offence(*stream),
            _ => None,
        }
    }

    fn continues(&self, frame: &Frame) -> bool
        ensures { result ≡ continues self.now.block frame.now }
    {
        match (&self.block, frame) {
            (Some(block), Frame::Continuation { stream, .. }) => block.stream.get() == *stream,
            (None, Frame::Continuation { .. }) => false,
            (Some(_), _) => false,
            (None, _) => true,
        }
    }

    fn settings_offence(&self, values: &[(u16, u32)]) -> Option<u32>
        ensures { result ≡ (if list_any (is_bad_setting self.now.role) values.now then Some protocol_error else if list_any (lifts_too_far self.now.streams) values.now then Some flow_control_error else None) }
    {
        if any_bad_setting(self.role, values) {
            return Some(PROTOCOL_ERROR);
        }
        if any_lifts_too_far(self.streams.as_slice(), values) {
            return Some(FLOW_CONTROL_ERROR);
        }
        None
    }

    fn window_offence(&self, stream: u32, increment: u32) -> Option<u32>
        ensures { result ≡ window_offence stream increment (part_of self.now) }
    {
        if stream == 0 {
            if increment == 0 {
                return Some(PROTOCOL_ERROR);
            }
            if u64::from(self.window) + u64::from(increment) > u64::from(MAX_WINDOW) {
                return Some(FLOW_CONTROL_ERROR);
            }
        }
        self.idle_offence(stream)
    }

    fn idle_offence(&self, stream: u32) -> Option<u32>
        ensures { result ≡ (if nat_lt self.now.highest stream then Some protocol_error else None) }
    {
        if stream > self.highest {
            return Some(PROTOCOL_ERROR);
        }
        None
    }

    fn headers_offence(&self, stream: u32, end: bool) -> Option<u32>
        ensures { result ≡ headers_offence stream end (part_of self.now) }
    {
        let is_even = stream % 2 == 0;
        match self.role {
            Role::Server => {
                if is_even {
                    return Some(PROTOCOL_ERROR);
                }
                if !end && self.peer_is_open(stream) {
                    return Some(PROTOCOL_ERROR);
                }
            }
            Role::Client => {
                if is_even || stream > self.highest {
                    return Some(PROTOCOL_ERROR);
                }
            }
        }
        self.late_offence(stream)
    }

    fn data_offence(&self, stream: u32, size: u32) -> Option<u32>
        ensures { result ≡ data_offence stream size (part_of self.now) }
    {
        if stream > self.highest {
            return Some(PROTOCOL_ERROR);
        }
        if let Some(code) = self.late_offence(stream) {
            return Some(code);
        }
        if size > FIRST_WINDOW {
            return Some(FLOW_CONTROL_ERROR);
        }
        None
    }

    /// A live stream that the peer has half-closed gets no more of it.
    fn late_offence(&self, stream: u32) -> Option<u32>
        ensures { result ≡ (if is_ended (stream_of stream (part_of self.now)) then Some stream_closed else None) }
    {
        match self.place(stream) {
            Some(i) if self.streams.get(i).ended => Some(STREAM_CLOSED),
            _ => None,
        }
    }

    fn peer_is_open(&self, stream: u32) -> bool
        ensures { result ≡ is_open (stream_of stream (part_of self.now)) }
    {
        match self.place(stream) {
            Some(i) => !self.streams.get(i).ended,
            None => false,
        }
    }
}
