//! The header of a frame, and what it shows to be wrong with the frame.

ghost use Rattle.std.specs.Prelude.{◌≡◌, ◌≤◌, ◌<◌, ◌^◌, length, Some, None, if◌then◌else◌};
ghost use Rattle.h2_frames.specs.Layout.{has, pad_len, priority_len, header_of, offence};

use crate::fault::FrameFault;

/// The length of a header in bytes (section 4.1).
pub(crate) const HEADER_LEN: usize = 9;

/// The longest payload in bytes: the initial SETTINGS_MAX_FRAME_SIZE (section 6.5.2).
const MAX_PAYLOAD: usize = 16_384;

pub(crate) const DATA: u8 = 0;

pub(crate) const HEADERS: u8 = 1;

pub(crate) const PRIORITY: u8 = 2;

pub(crate) const RST_STREAM: u8 = 3;

pub(crate) const SETTINGS: u8 = 4;

pub(crate) const PUSH_PROMISE: u8 = 5;

pub(crate) const PING: u8 = 6;

pub(crate) const GOAWAY: u8 = 7;

pub(crate) const WINDOW_UPDATE: u8 = 8;

pub(crate) const CONTINUATION: u8 = 9;

/// A flag of DATA and HEADERS.
pub(crate) const END_STREAM: u8 = 1;
/// A flag of SETTINGS and PING.
pub(crate) const ACK: u8 = 1;
/// A flag of HEADERS and CONTINUATION.
pub(crate) const END_HEADERS: u8 = 4;
/// A flag of DATA and HEADERS.
pub(crate) const PADDED: u8 = 8;
/// A flag of HEADERS: the payload has priority fields.
pub(crate) const WITH_PRIORITY: u8 = 32;

/// The header of a frame without its reserved bit. `len` is the length of the payload in bytes.
#[derive(Clone, Copy, Debug)]
pub(crate) struct Header {
    pub(crate) len: usize,
    pub(crate) kind: u8,
    pub(crate) flags: u8,
    pub(crate) stream: u32,
}

/// The header at the beginning of the bytes.
#[tactic(auto, unfolding(crate::specs::Layout::header_of))]
pub(crate) fn header_in(bytes: &[u8]) -> Header
    requires { 9 ≤ length bytes.now }
    ensures value { result ≡ header_of bytes.now }
    ensures small { result.len < 2 ^ 24 }
{
    // The length has 24 bits, and the type follows it.
    let len_and_kind = u32::from_be_bytes([bytes[0], bytes[1], bytes[2], bytes[3]]);
    let stream = u32::from_be_bytes([bytes[5], bytes[6], bytes[7], bytes[8]]);
    Header {
        len: (len_and_kind / 256) as usize,
        kind: bytes[3],
        flags: bytes[4],
        stream: stream % 0x8000_0000,
    }
}

/// Whether a flag is set.
pub(crate) fn has(flag: u8, flags: u8) -> bool
    ensures { result ≡ has flag flags }
{
    flags & flag != 0
}

/// How many bytes at the front of a payload give the length of its padding.
pub(crate) fn pad_len(flags: u8) -> usize
    ensures { result ≡ pad_len flags }
{
    if has(PADDED, flags) { 1 } else { 0 }
}

/// How many bytes of a payload are priority fields.
pub(crate) fn priority_len(flags: u8) -> usize
    ensures { result ≡ priority_len flags }
{
    if has(WITH_PRIORITY, flags) { 5 } else { 0 }
}

/// The offence of a frame whose payload is not too long: the stream is looked at before the length.
fn judged(at: u64, bad_stream: bool, bad_length: bool) -> Option<FrameFault>
    ensures { result ≡ (if bad_stream then Some (FrameFault.BadStream at) else if bad_length then Some (FrameFault.BadLength at) else None) }
{
    if bad_stream {
        return Some(FrameFault::BadStream { at });
    }
    if bad_length {
        return Some(FrameFault::BadLength { at });
    }
    None
}

/// The first offence that the header shows of the frame whose first byte stands at `at`.
#[tactic(auto, unfolding(crate::specs::Layout::offence, crate::specs::Layout::is_bad_length))]
pub(crate) fn offence(at: u64, h: Header) -> Option<FrameFault>
    ensures { result ≡ offence at h }
{
    let len = h.len;
    if len > MAX_PAYLOAD {
        return Some(FrameFault::TooLong { at });
    }
    let on_connection = h.stream == 0;
    match h.kind {
        DATA => judged(at, on_connection, len < pad_len(h.flags)),
        HEADERS => {
            let fields = pad_len(h.flags) + priority_len(h.flags);
            judged(at, on_connection, len < fields)
        }
        PRIORITY => judged(at, on_connection, len != 5),
        RST_STREAM => judged(at, on_connection, len != 4),
        SETTINGS => {
            let ack_with_values = has(ACK, h.flags) && len != 0;
            judged(at, !on_connection, len % 6 != 0 || ack_with_values)
        }
        PING => judged(at, !on_connection, len != 8),
        GOAWAY => judged(at, !on_connection, len < 8),
        WINDOW_UPDATE => judged(at, false, len != 4),
        CONTINUATION => judged(at, on_connection, false),
        // PUSH_PROMISE, and types that the standard does not define.
        _ => None,
    }
}
