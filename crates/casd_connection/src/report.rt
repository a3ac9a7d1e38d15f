//! `ConnReport`.

use crate::end::ConnEnd;

/// What a connection did.
#[derive(Clone, Copy, Debug, PartialEq, Eq)]
pub struct ConnReport {
    pub end: ConnEnd,
    /// How many entries its owner made, with the first and the last: none where no owner came.
    pub turns: u64,
    /// How many bytes were read.
    pub read: u64,
    /// How many bytes were written, up to 2^64 - 1.
    pub written: u64,
}
