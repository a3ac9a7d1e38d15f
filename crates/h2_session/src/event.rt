//! `SessionEvent` and `Out`.

use hpack_tables::Headers;
use proto_wire::Bytes;

/// What a frame means to the calls. `end` is END_STREAM.
#[derive(Debug, Drop)]
pub enum SessionEvent {
    /// A header block of a live stream: at a server those of a request, or trailers, which have `end`.
    Headers {
        stream: u32,
        headers: Headers,
        end: bool,
    },
    /// DATA of a live stream, without padding.
    Piece {
        stream: u32,
        bytes: Bytes,
        end: bool,
    },
    /// A live stream was reset: by the peer, or by this end for a WINDOW_UPDATE, then with the code that is sent.
    Reset {
        stream: u32,
        code: u32,
    },
    /// The peer begins no further stream.
    GoAway,
}

/// What is sent on a stream. `end` half-closes it.
#[derive(Debug, Drop)]
pub enum Out {
    Headers { headers: Headers, end: bool },
    Piece { bytes: Bytes, end: bool },
}
