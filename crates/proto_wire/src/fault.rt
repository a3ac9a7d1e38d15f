//! Why bytes are no sequence of fields.

ghost use Rattle.std.specs.Prelude.{◌≡◌};
ghost use Rattle.proto_wire.specs.declared.fault.WireError.TheVariants.{OutOfMemory as NoMemory};

use crate::memory::OutOfMemory;
use std::alloc::{AllocError, AllocFailed};

/// The first fault of some bytes. `at` is the place of the first byte of the first malformed field, from 0.
#[derive(Clone, Copy, Debug, PartialEq, Eq)]
pub enum WireError {
    /// The bytes end inside the field.
    Truncated { at: usize },
    /// The number is 0 or above 2^29 - 1, or the wire type is 6 or 7.
    BadTag { at: usize },
    /// A varint of more than ten bytes, or of 2^64 or more.
    BadVarint { at: usize },
    /// The wire types 3 and 4, which are not supported.
    Group { at: usize },
    /// There was no memory for the fields.
    OutOfMemory,
}

impl From<OutOfMemory> for WireError {
    ghost from_gives = { λ _ e. e ≡ NoMemory };

    fn from(_e: OutOfMemory) -> WireError {
        WireError::OutOfMemory
    }
}

impl From<AllocError> for WireError {
    ghost from_gives = { λ _ e. e ≡ NoMemory };

    fn from(_e: AllocError) -> WireError {
        WireError::OutOfMemory
    }
}

impl<T: Drop> From<AllocFailed<T>> for WireError {
    ghost from_gives = { λ _ e. e ≡ NoMemory };

    fn from(_e: AllocFailed<T>) -> WireError {
        WireError::OutOfMemory
    }
}
