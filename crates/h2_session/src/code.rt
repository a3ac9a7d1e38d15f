//! The error codes that this end sends (RFC 9113, section 7), and limits.

pub(crate) const NO_ERROR: u32 = 0;

pub(crate) const PROTOCOL_ERROR: u32 = 1;

pub(crate) const FLOW_CONTROL_ERROR: u32 = 3;

pub(crate) const STREAM_CLOSED: u32 = 5;

pub(crate) const REFUSED_STREAM: u32 = 7;

pub(crate) const COMPRESSION_ERROR: u32 = 9;

pub(crate) const ENHANCE_YOUR_CALM: u32 = 11;

/// The largest window, in bytes (section 6.9.1).
pub(crate) const MAX_WINDOW: u32 = 0x7fff_ffff;

/// The window of the connection and of each stream at its beginning, in bytes (section 6.9.2).
pub(crate) const FIRST_WINDOW: u32 = 65_535;

/// The largest payload of a DATA frame that this end writes, in bytes.
pub(crate) const MAX_FRAME: usize = 16_384;

/// The largest header block, in bytes.
pub(crate) const MAX_BLOCK: usize = 65_536;

/// The largest header list, in bytes: of each header its name, its value and 32.
pub(crate) const MAX_LIST: u32 = 16_384;

/// How many streams a client may have open at once.
pub(crate) const MAX_STREAMS: u32 = 100;

/// How large the peer's header table may become, in bytes.
pub(crate) const TABLE: u32 = 4_096;
