//! `ReadStop`.

ghost use Rattle.std.specs.Prelude.{◌≡◌};
ghost use Rattle.byte_stream.specs.ReadStops.{stop_by};
ghost use Rattle.byte_stream.specs.declared.read_stop.ReadStop.TheVariants.{OutOfMemory as NoMemory};

use blob_store::ReadingEnd;
use digest_types::Digest;
use proto_wire::OutOfMemory;
use std::alloc::AllocError;

/// Why a Read gives no further bytes.
#[derive(Clone, Copy, Debug, PartialEq, Eq)]
pub enum ReadStop {
    /// All were given, and the body has the digest.
    Done,
    /// The shelf failed.
    Failed,
    /// The bytes of the body have this other digest.
    Damaged(Digest),
    OutOfMemory,
}

impl From<ReadingEnd> for ReadStop {
    ghost from_gives = { λ e stop. stop ≡ stop_by e };

    fn from(end: ReadingEnd) -> ReadStop {
        match end {
            ReadingEnd::Failed => ReadStop::Failed,
            ReadingEnd::Damaged { want: _, got } => ReadStop::Damaged(got),
        }
    }
}

impl From<OutOfMemory> for ReadStop {
    ghost from_gives = { λ _ stop. stop ≡ NoMemory };

    fn from(_e: OutOfMemory) -> ReadStop {
        ReadStop::OutOfMemory
    }
}

impl From<AllocError> for ReadStop {
    ghost from_gives = { λ _ stop. stop ≡ NoMemory };

    fn from(_e: AllocError) -> ReadStop {
        ReadStop::OutOfMemory
    }
}
