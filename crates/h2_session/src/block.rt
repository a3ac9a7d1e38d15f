//! `Block`.

use crate::number::StreamNumber;
use proto_wire::Bytes;

/// The fragments of a header block that have come.
#[derive(Debug, Drop)]
pub(crate) struct Block {
    pub(crate) stream: StreamNumber,
    pub(crate) bytes: Bytes,
    /// END_STREAM.
    pub(crate) end: bool,
    /// It begins its stream, at a server.
    pub(crate) begins: bool,
}
