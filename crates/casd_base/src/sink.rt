//! `Sink`.

ghost use Rattle.std.specs.Prelude.{◌≡◌, ◌<◌, ◌≤◌, ℕ, List, Option, length, take, IfOk, OnErr};
ghost use Rattle.casd_base.specs.Causes.{HasSinkCause};
ghost use Rattle.casd_base.specs.Streams.{Adds};
ghost use Rattle.casd_base.specs.declared.sink.SinkEnd.TheVariants.{Failed as Fault, OutOfMemory as NoMemory};

use crate::source::Failed;
use proto_wire::OutOfMemory;

/// Why a sink takes no more.
#[derive(Clone, Copy, Debug, PartialEq, Eq)]
pub enum SinkEnd {
    /// The outside failed, and it was counted.
    Failed,
    OutOfMemory,
}

impl From<Failed> for SinkEnd {
    ghost from_gives = { λ _ e. e ≡ Fault };

    fn from(_e: Failed) -> SinkEnd {
        SinkEnd::Failed
    }
}

impl From<OutOfMemory> for SinkEnd {
    ghost from_gives = { λ _ e. e ≡ NoMemory };

    fn from(_e: OutOfMemory) -> SinkEnd {
        SinkEnd::OutOfMemory
    }
}

/// Where bytes go. It may tell the bytes that were written.
pub trait Sink {
    // the bytes written, where it tells them
    ghost written: { Self → Option (List ℕ) };

    // how many writes failed, up to 2^64 - 1
    ghost write_faults: { Self → ℕ };

    /// Writes a prefix of the bytes, and answers how many. For bytes that aren't empty it is at least 1.
    fn write(&mut self, bytes: &[u8]) -> Result<usize, SinkEnd>
        ensures bound { IfOk result (λ n. n ≤ length bytes.now) }
        ensures some { IfOk result (λ n. 0 < length bytes.now → 0 < n) }
        ensures bytes { IfOk result (λ n. Adds (written self.old) (written self.new) (take n bytes.now)) }
        ensures err { OnErr result (written self.new ≡ written self.old) }
        ensures cause { HasSinkCause (write_faults self.old) (write_faults self.new) result };
}
