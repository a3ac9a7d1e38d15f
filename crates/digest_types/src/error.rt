//! Why a message or a text is refused as a digest.

ghost use Rattle.std.specs.Prelude.{◌≡◌};
ghost use Rattle.digest_types.specs.Reading.{refusal_of};
ghost use Rattle.digest_types.specs.declared.error.DigestError.TheVariants.{OutOfMemory as NoMemory};

use proto_wire::{OutOfMemory, WireError};
use std::alloc::{AllocError, AllocFailed};

/// The first fault of a digest's message or text. They are looked for in the order of the variants.
#[derive(Clone, Copy, Debug, PartialEq, Eq)]
pub enum DigestError {
    /// The message is malformed.
    Wire(WireError),
    /// The hash isn't 64 digits of lower-case hex.
    BadHash,
    /// The size in a message is negative.
    NegativeSize,
    /// No size follows the hash in a text, or it isn't a decimal number of at most 2^63 - 1 without sign and leading zeros.
    BadSize,
    OutOfMemory,
}

impl From<WireError> for DigestError {
    ghost from_gives = { λ e r. r ≡ refusal_of e };

    fn from(e: WireError) -> DigestError {
        match e {
            WireError::OutOfMemory => DigestError::OutOfMemory,
            other => DigestError::Wire(other),
        }
    }
}

impl From<OutOfMemory> for DigestError {
    ghost from_gives = { λ _ e. e ≡ NoMemory };

    fn from(_e: OutOfMemory) -> DigestError {
        DigestError::OutOfMemory
    }
}

impl From<AllocError> for DigestError {
    ghost from_gives = { λ _ e. e ≡ NoMemory };

    fn from(_e: AllocError) -> DigestError {
        DigestError::OutOfMemory
    }
}

impl<T: Drop> From<AllocFailed<T>> for DigestError {
    ghost from_gives = { λ _ e. e ≡ NoMemory };

    fn from(_e: AllocFailed<T>) -> DigestError {
        DigestError::OutOfMemory
    }
}
