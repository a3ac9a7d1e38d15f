//! One frame from its bytes.

ghost use Rattle.std.specs.Prelude.{◌≡◌, ◌+◌, ◌≤◌, ◌<◌, length, false, None, IfOk, IfSome};
ghost use Rattle.h2_frames.specs.Layout.{has, pad_len, priority_len, is_bad_length, number_at, offence};
ghost use Rattle.h2_frames.specs.Reading.{Gives, content_at, settings_in, plain_of, payload_at, frame_at};

use crate::fault::FrameFault;
use crate::frame::{Frame, Settings};
use crate::layout::{
    ACK, CONTINUATION, DATA, END_HEADERS, END_STREAM, GOAWAY, HEADER_LEN, HEADERS, Header, PADDED,
    PING, PRIORITY, PUSH_PROMISE, RST_STREAM, SETTINGS, WINDOW_UPDATE, has, header_in, offence,
    priority_len,
};
use proto_wire::{Bytes, Listed, OutOfMemory};
use std::alloc::Global;

/// The length of a setting in bytes.
const SETTING_LEN: usize = 6;

/// The top bit of a stream identifier or of an increment is reserved.
const RESERVED: u32 = 0x8000_0000;

fn number_in(bytes: &[u8], i: usize) -> u32
    requires { i + 4 ≤ length bytes.now }
    ensures { result ≡ number_at i bytes.now }
{
    u32::from_be_bytes([bytes[i], bytes[i + 1], bytes[i + 2], bytes[i + 3]])
}

/// The content of a payload: what stands behind the length of the padding, if there is one, and `skip` bytes of priority
/// fields, and before the padding.
#[tactic(auto, unfolding(crate::specs::Reading::content_at))]
fn content_in(at: u64, flags: u8, skip: usize, payload: &[u8]) -> Result<&[u8], FrameFault>
    requires { pad_len flags + skip ≤ length payload.now }
    ensures { Gives (λ b. b.now) result (content_at at flags skip payload.now) }
{
    if !has(PADDED, flags) {
        let (_, content) = payload.split_at(skip);
        return Ok(content);
    }
    let pad = usize::from(payload[0]);
    let (_, padded) = payload.split_at(1 + skip);
    if padded.len() < pad {
        return Err(FrameFault::BadPadding { at });
    }
    let (content, _) = padded.split_at(padded.len() - pad);
    Ok(content)
}

fn settings(alloc: Global, payload: &[u8]) -> Result<Settings, OutOfMemory>
    ensures { IfOk result (λ s. s ≡ settings_in payload.now) }
{
    let mut values = Vec::new(alloc);
    let mut rest = payload;
    'settings: while rest.len() >= SETTING_LEN {
        let name = u16::from_be_bytes([rest[0], rest[1]]);
        let value = number_in(rest, 2);
        values.push((name, value))?;
        let (_, after) = rest.split_at(SETTING_LEN);
        rest = after;
    }
    Ok(Listed::from_vec(values))
}

fn ping(payload: &[u8]) -> [u8; 8]
    requires { length payload.now ≡ 8 }
    ensures { result ≡ payload.now }
{
    let mut bytes = [0; 8];
    bytes.copy_from_slice(payload);
    bytes
}

/// The frame of a payload whose type has no padding.
#[tactic(auto, unfolding(crate::specs::Reading::plain_of, crate::specs::Layout::is_bad_length))]
fn plain(alloc: Global, h: Header, payload: &[u8]) -> Result<Frame, OutOfMemory>
    requires len { length payload.now ≡ h.len }
    requires good { is_bad_length h ≡ false }
    ensures { IfOk result (λ f. f ≡ plain_of h payload.now) }
{
    let stream = h.stream;
    let frame = match h.kind {
        PRIORITY => Frame::Priority { stream },
        RST_STREAM => Frame::Reset {
            stream,
            code: number_in(payload, 0),
        },
        SETTINGS => Frame::Settings {
            ack: has(ACK, h.flags),
            values: settings(alloc, payload)?,
        },
        PUSH_PROMISE => Frame::Push { stream },
        PING => Frame::Ping {
            ack: has(ACK, h.flags),
            bytes: ping(payload),
        },
        GOAWAY => Frame::GoAway {
            last: number_in(payload, 0) % RESERVED,
            code: number_in(payload, 4),
        },
        WINDOW_UPDATE => Frame::Window {
            stream,
            add: number_in(payload, 0) % RESERVED,
        },
        CONTINUATION => Frame::Continuation {
            stream,
            block: Bytes::copy_of(alloc, payload)?,
            whole: has(END_HEADERS, h.flags),
        },
        kind => Frame::Unknown { kind },
    };
    Ok(frame)
}

/// The frame of a whole payload.
#[tactic(auto, unfolding(crate::specs::Reading::payload_at, crate::specs::Layout::is_bad_length))]
fn payload_in(alloc: Global, at: u64, h: Header, payload: &[u8]) -> Result<Frame, FrameFault>
    requires len { length payload.now ≡ h.len }
    requires good { is_bad_length h ≡ false }
    requires short { h.len ≤ 16384 }
    ensures { Gives (λ f. f) result (payload_at at h payload.now) }
{
    let stream = h.stream;
    if h.kind == DATA {
        let content = content_in(at, h.flags, 0, payload)?;
        return Ok(Frame::Data {
            stream,
            bytes: Bytes::copy_of(alloc, content)?,
            size: h.len as u32,
            end: has(END_STREAM, h.flags),
        });
    }
    if h.kind == HEADERS {
        let content = content_in(at, h.flags, priority_len(h.flags), payload)?;
        return Ok(Frame::Headers {
            stream,
            block: Bytes::copy_of(alloc, content)?,
            end: has(END_STREAM, h.flags),
            whole: has(END_HEADERS, h.flags),
        });
    }
    Ok(plain(alloc, h, payload)?)
}

/// What stands at the beginning of the bytes, the first of which stands at `at`: a frame and its length in bytes, or
/// `None` if they are empty or a proper prefix of a frame.
#[tactic(auto, using(crate::proofs::Headers::sound), unfolding(crate::specs::Reading::frame_at))]
pub(crate) fn frame_in(
    alloc: Global,
    at: u64,
    bytes: &[u8],
) -> Result<Option<(Frame, usize)>, FrameFault>
    ensures exact { Gives (λ o. o) result (frame_at at bytes.now) }
    ensures within { IfOk result (λ o. IfSome o (λ x. x.1 ≤ length bytes.now)) }
{
    if bytes.len() < HEADER_LEN {
        return Ok(None);
    }
    let h = header_in(bytes);
    if let Some(fault) = offence(at, h) {
        return Err(fault);
    }
    let len = HEADER_LEN + h.len;
    if bytes.len() < len {
        return Ok(None);
    }
    let frame = payload_in(alloc, at, h, &bytes[HEADER_LEN..len])?;
    Ok(Some((frame, len)))
}
