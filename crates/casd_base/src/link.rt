//! `Link`.

ghost use Rattle.std.specs.Prelude.{◌≡◌, ◌<◌, ◌≤◌, ℕ, List, Option, length, take, IsSome, IfOk, OnErr};
ghost use Rattle.casd_base.specs.Causes.{HasCause, HasSinkCause};
ghost use Rattle.casd_base.specs.Streams.{Takes, Adds, IsEnded, CountsOn, NotesEnd, KeepsEnd};

use crate::sink::SinkEnd;
use crate::source::Failed;

/// A source and a sink in one value, as a socket is.
pub trait Link {
    // the bytes left to read, where it tells them
    ghost left: { Self → Option (List ℕ) };

    // the bytes written, where it tells them
    ghost written: { Self → Option (List ℕ) };

    // how many reads failed, up to 2^64 - 1
    ghost read_faults: { Self → ℕ };

    // how many writes failed, up to 2^64 - 1
    ghost write_faults: { Self → ℕ };

    // how many bytes were written, as long as it tells that
    ghost sent: { Self → Option ℕ };

    // as long as it tells that: how many bytes had been written when the first read began that met the end, or none yet
    ghost at_end: { Self → Option (Option ℕ) };

    /// Reads into the front of the buffer, and answers how many bytes. For a buffer that isn't empty, 0 is the end.
    fn read(&mut self, buf: &mut [u8]) -> Result<usize, Failed>
        ensures bound { IfOk result (λ n. n ≤ length buf.new) }
        ensures bytes { IfOk result (λ n. Takes (left self.old) (left self.new) (take n buf.new)) }
        ensures ended { IfOk result (λ n. n ≡ 0 → 0 < length buf.new → IsEnded (left self.new)) }
        ensures err { OnErr result (left self.new ≡ left self.old) }
        ensures cause { HasCause (read_faults self.old) (read_faults self.new) result }
        // A read leaves what was written as it was, and notes the end.
        ensures written { written self.new ≡ written self.old }
        ensures sent { sent self.new ≡ sent self.old }
        ensures write_faults { write_faults self.new ≡ write_faults self.old }
        ensures at_end { NotesEnd (sent self.old) (at_end self.old) (at_end self.new) (length buf.new) result };

    /// Writes a prefix of the bytes, and answers how many. For bytes that aren't empty it is at least 1.
    fn write(&mut self, bytes: &[u8]) -> Result<usize, SinkEnd>
        ensures bound { IfOk result (λ n. n ≤ length bytes.now) }
        ensures some { IfOk result (λ n. 0 < length bytes.now → 0 < n) }
        ensures bytes { IfOk result (λ n. Adds (written self.old) (written self.new) (take n bytes.now)) }
        ensures err { OnErr result (written self.new ≡ written self.old) }
        ensures cause { HasSinkCause (write_faults self.old) (write_faults self.new) result }
        // A write leaves what is left to read as it was, and where the end was noted.
        ensures left { left self.new ≡ left self.old }
        ensures read_faults { read_faults self.new ≡ read_faults self.old }
        ensures sent { CountsOn (sent self.old) (sent self.new) result }
        ensures at_end { KeepsEnd (at_end self.old) (at_end self.new) };

    // A link that tells where it met its end tells how many bytes were written too, so a read that finds the end notes
    // just that number.
    ghost sent_is_told: { (l : Self) → IsSome (at_end l) → IsSome (sent l) };
}
