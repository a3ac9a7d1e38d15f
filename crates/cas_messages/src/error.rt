//! Why bytes aren't a message.

ghost use Rattle.std.specs.Prelude.{◌≡◌};
ghost use Rattle.cas_messages.specs.declared.error.MessageError.TheVariants.{OutOfMemory as NoMemory};

use digest_types::DigestError;
use proto_wire::{OutOfMemory, WireError};
use std::alloc::{AllocError, AllocFailed};

/// The first fault of a message. `field` is the number of the top field in whose content it stands,
/// or 0 for the message itself.
#[derive(Clone, Copy, Debug, PartialEq, Eq)]
pub enum MessageError {
    /// The bytes, or those of an embedded message, aren't a sequence of fields. Places count in the innermost message.
    Wire { field: u32, e: WireError },
    /// A text isn't UTF-8.
    NotUtf8 { field: u32 },
    /// A digest is malformed, or a required one is missing. `index` is its position in a list, or 0.
    BadDigest { field: u32, index: usize },
    OutOfMemory,
}

impl From<OutOfMemory> for MessageError {
    ghost from_gives = { λ _ e. e ≡ NoMemory };

    fn from(_e: OutOfMemory) -> MessageError {
        MessageError::OutOfMemory
    }
}

impl From<AllocError> for MessageError {
    ghost from_gives = { λ _ e. e ≡ NoMemory };

    fn from(_e: AllocError) -> MessageError {
        MessageError::OutOfMemory
    }
}

impl<T: Drop> From<AllocFailed<T>> for MessageError {
    ghost from_gives = { λ _ e. e ≡ NoMemory };

    fn from(_e: AllocFailed<T>) -> MessageError {
        MessageError::OutOfMemory
    }
}

impl From<WireError> for MessageError {
    ghost use Rattle.cas_messages.specs.Fault.{wire_fault};

    ghost from_gives = { λ e r. r ≡ wire_fault 0 e };

    fn from(e: WireError) -> MessageError {
        MessageError::of_wire(0, e)
    }
}

impl MessageError {
    ghost use Rattle.cas_messages.specs.Fault.{wire_fault, digest_fault, inside};

    pub(crate) fn of_wire(field: u32, e: WireError) -> MessageError
        ensures { result ≡ wire_fault field e }
    {
        match e {
            WireError::OutOfMemory => MessageError::OutOfMemory,
            e => MessageError::Wire { field, e },
        }
    }

    pub(crate) fn of_digest(field: u32, index: usize, e: DigestError) -> MessageError
        ensures { result ≡ digest_fault field index e }
    {
        match e {
            DigestError::OutOfMemory => MessageError::OutOfMemory,
            DigestError::Wire(e) => MessageError::of_wire(field, e),
            DigestError::BadHash | DigestError::NegativeSize | DigestError::BadSize => {
                MessageError::BadDigest { field, index }
            }
        }
    }

    // The fault of a message that is embedded at this position of a field.
    pub(crate) fn inside(self, field: u32, index: usize) -> MessageError
        ensures { result ≡ inside field index self }
    {
        match self {
            MessageError::OutOfMemory => MessageError::OutOfMemory,
            MessageError::Wire { e, .. } => MessageError::Wire { field, e },
            MessageError::NotUtf8 { .. } => MessageError::NotUtf8 { field },
            MessageError::BadDigest { .. } => MessageError::BadDigest { field, index },
        }
    }
}
