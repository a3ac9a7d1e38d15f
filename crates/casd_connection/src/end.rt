//! `ConnEnd`.

/// How a connection ended.
#[derive(Clone, Copy, Debug, PartialEq, Eq)]
pub enum ConnEnd {
    /// The input ended between two frames, or has no bytes, or a GOAWAY came and no stream is live.
    Done,
    /// The input ended within the client's preface, or within the frame that begins at this place, in bytes from 0.
    Truncated { at: u64 },
    /// The peer broke the rules of HTTP/2 at this place, with this error code (RFC 9113, section 7).
    Protocol { code: u32, at: u64 },
    ReadFault,
    WriteFault,
    /// 2^50 bytes were read, or the door has fewer than 2^40 turns left.
    Spent,
    OutOfMemory,
}
