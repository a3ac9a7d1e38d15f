//! `CallEvent`.

use casd_base::Status;
use proto_wire::{Bytes, Text};

/// What the peer does to a call, or to all of them.
#[derive(Debug, Drop)]
pub enum CallEvent {
    /// A call of a server begins. The path is empty if it isn't UTF-8.
    Begun { stream: u32, path: Text },
    /// A whole message.
    Message { stream: u32, bytes: Bytes },
    /// A client sends no more messages.
    HalfClosed { stream: u32 },
    /// The stream was reset, and the call is over.
    Cancelled { stream: u32, code: u32 },
    /// What came on the stream is no row of messages, or no answer. The status tells why. Nothing more is read of it.
    Broken { stream: u32, status: Status },
    /// The answer of a server is whole, and the call is over.
    Ended { stream: u32, status: Status },
    /// The peer begins no further stream.
    GoAway,
}
