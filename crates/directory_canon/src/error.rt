//! Why bytes or nodes are refused as a Directory.

ghost use Rattle.std.specs.Prelude.{◌≡◌};
ghost use Rattle.directory_canon.specs.declared.error.DirError.TheVariants.{OutOfMemory as NoMemory};

use proto_wire::{OutOfMemory, WireError};
use std::alloc::{AllocError, AllocFailed};

/// The first fault. `at` is the place of the faulty node's first byte, or its position among the given nodes, from 0.
#[derive(Clone, Copy, Debug, PartialEq, Eq)]
pub enum DirError {
    /// The canonical form has more than 4,194,304 bytes.
    TooLong,
    /// The bytes are malformed, or a node's content is; then the place counts from the content's first byte.
    Wire(WireError),
    /// The field isn't a node of a Directory, isn't in its shortest spelling, or follows a node of a later list.
    NotCanonical { at: usize },
    /// There are node properties, which no canonical Directory has.
    HasProperties { at: usize },
    /// The name isn't text of 1 to 255 bytes without slash and NUL, or is `.` or `..`.
    BadName { at: usize },
    /// The target isn't text of 1 to 4,095 bytes without NUL.
    BadTarget { at: usize },
    /// The digest is missing or malformed.
    BadDigest { at: usize },
    /// An earlier node has the same name.
    Twice { at: usize },
    /// The name is below the one before it in its list.
    Unsorted { at: usize },
    OutOfMemory,
}

impl From<OutOfMemory> for DirError {
    ghost from_gives = { λ _ e. e ≡ NoMemory };

    fn from(_e: OutOfMemory) -> DirError {
        DirError::OutOfMemory
    }
}

impl From<AllocError> for DirError {
    ghost from_gives = { λ _ e. e ≡ NoMemory };

    fn from(_e: AllocError) -> DirError {
        DirError::OutOfMemory
    }
}

impl<T: Drop> From<AllocFailed<T>> for DirError {
    ghost from_gives = { λ _ e. e ≡ NoMemory };

    fn from(_e: AllocFailed<T>) -> DirError {
        DirError::OutOfMemory
    }
}

impl From<WireError> for DirError {
    ghost use Rattle.directory_canon.specs.Reading.{wire_fault};

    ghost from_gives = { λ e r. r ≡ wire_fault e };

    fn from(e: WireError) -> DirError {
        match e {
            WireError::OutOfMemory => DirError::OutOfMemory,
            e => DirError::Wire(e),
        }
    }
}
