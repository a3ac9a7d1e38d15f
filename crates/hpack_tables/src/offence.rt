//! `Offence`.

ghost use Rattle.std.specs.Prelude.{◌≡◌};
ghost use Rattle.hpack_tables.specs.declared.offence.Offence.TheVariants.{OutOfMemory as NoMemory};

use proto_wire::OutOfMemory;
use std::alloc::{AllocError, AllocFailed};

/// What is wrong with a representation.
#[derive(Clone, Copy, Debug, PartialEq, Eq)]
pub(crate) enum Offence {
    /// The index has no entry.
    Index,
    /// An integer is above 2^32 - 1, or has more than five bytes after its prefix.
    Int,
    /// A string in Huffman code is malformed: it has the end symbol, or its last code is not followed by fewer than eight ones.
    Huffman,
    /// A size update follows a header, or sets a maximum above 4,096 bytes.
    Update,
    /// The block ends inside the representation.
    Truncated,
    OutOfMemory,
}

impl From<OutOfMemory> for Offence {
    ghost from_gives = { λ _ e. e ≡ NoMemory };

    fn from(_e: OutOfMemory) -> Offence {
        Offence::OutOfMemory
    }
}

impl From<AllocError> for Offence {
    ghost from_gives = { λ _ e. e ≡ NoMemory };

    fn from(_e: AllocError) -> Offence {
        Offence::OutOfMemory
    }
}

impl<T: Drop> From<AllocFailed<T>> for Offence {
    ghost from_gives = { λ _ e. e ≡ NoMemory };

    fn from(_e: AllocFailed<T>) -> Offence {
        Offence::OutOfMemory
    }
}
