//! Why bytes are refused.

ghost use Rattle.std.specs.Prelude.{◌≡◌};
ghost use Rattle.h2_frames.specs.declared.fault.FrameFault.TheVariants.{OutOfMemory as NoMemory};

use proto_wire::OutOfMemory;
use std::alloc::{AllocError, AllocFailed};

/// Why bytes are refused. `at` is a place among all bytes of the connection, counted from 0: that of the first byte of
/// the malformed frame, or, for the preface, that of the first byte that differs.
#[derive(Clone, Copy, Debug, PartialEq, Eq)]
pub enum FrameFault {
    /// The bytes do not begin with the client's connection preface.
    BadPreface { at: u64 },
    /// The payload is longer than 16,384 bytes.
    TooLong { at: u64 },
    /// The type does not allow the length of the payload.
    BadLength { at: u64 },
    /// The padding is longer than the rest of the payload.
    BadPadding { at: u64 },
    /// The type is not allowed on stream 0, or is allowed only there.
    BadStream { at: u64 },
    /// Memory ran out.
    OutOfMemory,
}

impl From<OutOfMemory> for FrameFault {
    ghost from_gives = { λ _ e. e ≡ NoMemory };

    fn from(_e: OutOfMemory) -> FrameFault {
        FrameFault::OutOfMemory
    }
}

impl From<AllocError> for FrameFault {
    ghost from_gives = { λ _ e. e ≡ NoMemory };

    fn from(_e: AllocError) -> FrameFault {
        FrameFault::OutOfMemory
    }
}

impl<T: Drop> From<AllocFailed<T>> for FrameFault {
    ghost from_gives = { λ _ e. e ≡ NoMemory };

    fn from(_e: AllocFailed<T>) -> FrameFault {
        FrameFault::OutOfMemory
    }
}
