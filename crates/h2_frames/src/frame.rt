//! Frames without what a receiver ignores.

use proto_wire::{Bytes, Listed};

/// Identifiers and values, in the order in which the frame has them.
pub type Settings = Listed<(u16, u32)>;

/// A frame without its padding, its priority fields and all else that a receiver ignores.
#[derive(Debug, Drop)]
pub enum Frame {
    /// DATA. `size` is the length of the payload in bytes, with the padding and its length byte, and `end` is END_STREAM.
    Data {
        stream: u32,
        bytes: Bytes,
        size: u32,
        end: bool,
    },
    /// HEADERS with a fragment of a header block. `end` is END_STREAM, and `whole` is END_HEADERS.
    Headers {
        stream: u32,
        block: Bytes,
        end: bool,
        whole: bool,
    },
    /// PRIORITY, whose fields are deprecated and ignored.
    Priority {
        stream: u32,
    },
    /// RST_STREAM with an error code.
    Reset {
        stream: u32,
        code: u32,
    },
    /// SETTINGS.
    Settings {
        ack: bool,
        values: Settings,
    },
    /// PUSH_PROMISE, which a client must not send (section 8.4). Its fields are ignored.
    Push {
        stream: u32,
    },
    /// PING.
    Ping {
        ack: bool,
        bytes: [u8; 8],
    },
    /// GOAWAY with an error code, without its debug data. `last` is the highest stream that its sender may have
    /// processed.
    GoAway {
        last: u32,
        code: u32,
    },
    /// WINDOW_UPDATE of a stream, or of the connection if `stream` is 0. `add` is the increment in bytes.
    Window {
        stream: u32,
        add: u32,
    },
    /// CONTINUATION with a fragment of a header block. `whole` is END_HEADERS.
    Continuation {
        stream: u32,
        block: Bytes,
        whole: bool,
    },
    /// A frame of a type that the standard does not define, which a receiver must ignore.
    Unknown {
        kind: u8,
    },
}
