//! `HpackFault`.

ghost use Rattle.std.specs.Prelude.{◌≡◌};
ghost use Rattle.hpack_tables.specs.Reading.{fault_at};
ghost use Rattle.hpack_tables.specs.declared.fault.HpackFault.TheVariants.{OutOfMemory as NoMemory};

use crate::offence::Offence;
use proto_wire::OutOfMemory;
use std::alloc::{AllocError, AllocFailed};

/// Why a block is refused. `at` is the place of the first byte of the representation that is at fault, in bytes from the
/// start of the block.
#[derive(Clone, Copy, Debug, PartialEq, Eq)]
pub enum HpackFault {
    /// The index has no entry.
    BadIndex { at: usize },
    /// An integer is above 2^32 - 1, or has more than five bytes after its prefix.
    BadInt { at: usize },
    /// A string in Huffman code is malformed: it has the end symbol, or its last code is not followed by fewer than eight ones.
    BadHuffman { at: usize },
    /// A size update follows a header, or sets a maximum above 4,096 bytes.
    BadUpdate { at: usize },
    /// The block ends inside the representation.
    Truncated { at: usize },
    /// The headers up to and including this one have more than 16,384 bytes, 32 of them for each header besides its name and
    /// its value.
    ListTooLong { at: usize },
    OutOfMemory,
}

impl From<OutOfMemory> for HpackFault {
    ghost from_gives = { λ _ e. e ≡ NoMemory };

    fn from(_e: OutOfMemory) -> HpackFault {
        HpackFault::OutOfMemory
    }
}

impl From<AllocError> for HpackFault {
    ghost from_gives = { λ _ e. e ≡ NoMemory };

    fn from(_e: AllocError) -> HpackFault {
        HpackFault::OutOfMemory
    }
}

impl<T: Drop> From<AllocFailed<T>> for HpackFault {
    ghost from_gives = { λ _ e. e ≡ NoMemory };

    fn from(_e: AllocFailed<T>) -> HpackFault {
        HpackFault::OutOfMemory
    }
}

impl HpackFault {
    /// The fault of an offence at a place.
    pub(crate) fn at(at: usize, offence: Offence) -> HpackFault
        ensures { result ≡ fault_at at offence }
    {
        match offence {
            Offence::Index => HpackFault::BadIndex { at },
            Offence::Int => HpackFault::BadInt { at },
            Offence::Huffman => HpackFault::BadHuffman { at },
            Offence::Update => HpackFault::BadUpdate { at },
            Offence::Truncated => HpackFault::Truncated { at },
            Offence::OutOfMemory => HpackFault::OutOfMemory,
        }
    }
}
