//! `Source`.

ghost use Rattle.std.specs.Prelude.{◌≡◌, ◌<◌, ◌≤◌, ℕ, List, Option, length, take, IfOk, OnErr};
ghost use Rattle.casd_base.specs.Causes.{HasCause};
ghost use Rattle.casd_base.specs.Streams.{Takes, IsEnded};

/// The outside failed. Whoever answers it has counted it.
#[derive(Clone, Copy, Debug, PartialEq, Eq)]
pub struct Failed;

/// Where bytes come from. It may tell the bytes that it has left, as the double in memory does; the adapters of
/// std tell nothing.
pub trait Source {
    // the bytes left, where it tells them
    ghost left: { Self → Option (List ℕ) };

    // how many reads failed, up to 2^64 - 1
    ghost read_faults: { Self → ℕ };

    /// Reads into the front of the buffer, and answers how many bytes. For a buffer that isn't empty, 0 is the end.
    fn read(&mut self, buf: &mut [u8]) -> Result<usize, Failed>
        ensures bound { IfOk result (λ n. n ≤ length buf.new) }
        ensures bytes { IfOk result (λ n. Takes (left self.old) (left self.new) (take n buf.new)) }
        ensures ended { IfOk result (λ n. n ≡ 0 → 0 < length buf.new → IsEnded (left self.new)) }
        ensures err { OnErr result (left self.new ≡ left self.old) }
        ensures cause { HasCause (read_faults self.old) (read_faults self.new) result };
}
