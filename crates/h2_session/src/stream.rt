//! `Stream`.

use crate::flow::Flow;
use crate::number::StreamNumber;
use crate::small::SmallHeaders;
use crate::waits::Waits;

/// What this end has still to do on a stream.
#[derive(Debug, Drop)]
pub(crate) enum Sending {
    /// A server has handed in no headers yet.
    Unopened,
    /// More may be handed in.
    Open,
    /// Trailers, which stand behind all bytes.
    Trailers(SmallHeaders),
    /// END_STREAM, with the last byte.
    HalfClose,
    /// This end has half-closed the stream.
    Ended,
}

/// A live stream.
#[derive(Debug, Drop)]
pub(crate) struct Stream {
    pub(crate) number: StreamNumber,
    pub(crate) flow: Flow,
    /// The peer has half-closed it.
    pub(crate) ended: bool,
    pub(crate) sending: Sending,
    pub(crate) waits: Waits,
}
