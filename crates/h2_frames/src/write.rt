//! The bytes of a frame.

ghost use Rattle.std.specs.Prelude.{◌≡◌, ◌++◌, ◌+◌, ◌*◌, ◌<◌, ◌≤◌, ◌^◌, length, OnOk, OnErr};
ghost use Rattle.std.specs.List.{flat_map};
ghost use Rattle.std.specs.Int.{w32, to_be_bytes};
ghost use Rattle.h2_frames.specs.Spelling.{IsStreamNumber, header_bytes, setting, flag, framed, spelled, Writable, HasSettings, IsTyped, IsSpelling, AddsPart};
ghost use Rattle.h2_frames.specs.Reading.{IsReadAs};
ghost use Rattle.h2_frames.specs.declared.frame.Frame.TheVariants as frames;

use crate::frame::Frame;
use crate::layout::{
    ACK, CONTINUATION, DATA, END_HEADERS, END_STREAM, GOAWAY, HEADERS, PING, PRIORITY,
    PUSH_PROMISE, RST_STREAM, SETTINGS, WINDOW_UPDATE,
};
use proto_wire::{Bytes, OutOfMemory};

fn flag(set: bool, bits: u8) -> u8
    ensures { result ≡ flag set bits }
{
    if set { bits } else { 0 }
}

fn header(len: usize, kind: u8, flags: u8, stream: u32) -> [u8; 9]
    requires { len < 2 ^ 24 }
    ensures { result ≡ header_bytes len kind flags 0 stream }
{
    let on = stream.to_be_bytes();
    [
        (len / 65_536) as u8,
        (len / 256 % 256) as u8,
        (len % 256) as u8,
        kind,
        flags,
        on[0],
        on[1],
        on[2],
        on[3],
    ]
}

fn two_numbers(first: u32, second: u32) -> [u8; 8]
    ensures { result ≡ to_be_bytes w32 first ++ to_be_bytes w32 second }
{
    let a = first.to_be_bytes();
    let b = second.to_be_bytes();
    [a[0], a[1], a[2], a[3], b[0], b[1], b[2], b[3]]
}

fn setting(name: u16, value: u32) -> [u8; 6]
    ensures { result ≡ setting (name, value) }
{
    let a = name.to_be_bytes();
    let b = value.to_be_bytes();
    [a[0], a[1], b[0], b[1], b[2], b[3]]
}

fn push_framed(
    out: &mut Bytes,
    kind: u8,
    flags: u8,
    stream: u32,
    payload: &[u8],
) -> Result<(), OutOfMemory>
    requires { length payload.now ≤ 16384 }
    ensures ok { OnOk result (out.new ≡ out.old ++ framed kind flags stream payload.now) }
    ensures err { OnErr result (AddsPart out.old out.new (framed kind flags stream payload.now)) }
{
    out.push_slice(&header(payload.len(), kind, flags, stream))?;
    out.push_slice(payload)
}

fn push_settings(out: &mut Bytes, ack: bool, values: &[(u16, u32)]) -> Result<(), OutOfMemory>
    requires { 6 * length values.now ≤ 16384 }
    ensures ok { OnOk result (out.new ≡ out.old ++ framed 4 (flag ack 1) 0 (flat_map setting values.now)) }
    ensures err { OnErr result (AddsPart out.old out.new (framed 4 (flag ack 1) 0 (flat_map setting values.now))) }
    ensures typed { OnOk result (HasSettings values.now) }
{
    out.push_slice(&header(6 * values.len(), SETTINGS, flag(ack, ACK), 0))?;
    'values: for (name, value) in values {
        out.push_slice(&setting(*name, *value))?;
    }
    Ok(())
}

#[tactic(auto, unfolding(crate::specs::Spelling::spelled))]
fn push_frame(out: &mut Bytes, frame: &Frame) -> Result<(), OutOfMemory>
    requires { Writable frame.now }
    ensures ok { OnOk result (out.new ≡ out.old ++ spelled frame.now) }
    ensures err { OnErr result (AddsPart out.old out.new (spelled frame.now)) }
    ensures typed { OnOk result (IsTyped frame.now) }
{
    match frame {
        Frame::Data {
            stream,
            bytes,
            end,
            ..
        } => push_framed(out, DATA, flag(*end, END_STREAM), *stream, bytes.as_slice()),
        Frame::Headers {
            stream,
            block,
            end,
            whole,
        } => {
            let flags = flag(*end, END_STREAM) + flag(*whole, END_HEADERS);
            push_framed(out, HEADERS, flags, *stream, block.as_slice())
        }
        Frame::Settings { ack, values } => push_settings(out, *ack, values.as_slice()),
        Frame::Continuation {
            stream,
            block,
            whole,
        } => {
            let flags = flag(*whole, END_HEADERS);
            push_framed(out, CONTINUATION, flags, *stream, block.as_slice())
        }
        Frame::Priority { stream } => push_framed(out, PRIORITY, 0, *stream, &[0; 5]),
        Frame::Reset { stream, code } => {
            push_framed(out, RST_STREAM, 0, *stream, &code.to_be_bytes())
        }
        Frame::Push { stream } => push_framed(out, PUSH_PROMISE, 0, *stream, &[]),
        Frame::Ping { ack, bytes } => push_framed(out, PING, flag(*ack, ACK), 0, bytes),
        Frame::GoAway { last, code } => push_framed(out, GOAWAY, 0, 0, &two_numbers(*last, *code)),
        Frame::Window { stream, add } => {
            push_framed(out, WINDOW_UPDATE, 0, *stream, &add.to_be_bytes())
        }
        Frame::Unknown { kind } => push_framed(out, *kind, 0, 0, &[]),
    }
}

/// Appends the frame, without padding and, for HEADERS, without priority fields. If memory runs out, a prefix of it may
/// have been added.
pub fn write_frame(frame: &Frame, out: &mut Bytes) -> Result<(), OutOfMemory>
    requires { Writable frame.now }
    ensures ok { OnOk result (out.new ≡ out.old ++ spelled frame.now) }
    ensures err { OnErr result (AddsPart out.old out.new (spelled frame.now)) }
    // What was added is a spelling of this frame, and is read as this frame.
    ensures spelling { OnOk result (IsSpelling (spelled frame.now) frame.now) }
    ensures again { OnOk result (IsReadAs (spelled frame.now) frame.now) }
{
    push_frame(out, frame)
}

/// Appends a DATA frame of these bytes, as `write_frame` does, with no other copy of them.
#[tactic(auto, unfolding(crate::specs::Spelling::spelled))]
pub fn write_data(stream: u32, bytes: &[u8], end: bool, out: &mut Bytes) -> Result<(), OutOfMemory>
    requires stream { IsStreamNumber stream }
    requires short { length bytes.now ≤ 16384 }
    ensures ok { OnOk result (out.new ≡ out.old ++ spelled (frames.Data stream bytes.now (length bytes.now) end)) }
    ensures err { OnErr result (AddsPart out.old out.new (spelled (frames.Data stream bytes.now (length bytes.now) end))) }
{
    push_framed(out, DATA, flag(end, END_STREAM), stream, bytes)
}
