//! Where a link met its end.

ghost use Rattle.std.specs.Prelude.{◌≡◌};
ghost use Rattle.casd_base.specs.Streams.{noted_after};

/// How many bytes had been written when the end was met, after a read that gave `count` bytes into so much room, with
/// so many bytes written before it.
pub(crate) fn noted_after(noted: Option<u64>, sent: u64, count: usize, room: usize) -> Option<u64>
    ensures { result ≡ noted_after noted sent count room }
{
    if count == 0 && room > 0 && noted.is_none() {
        return Some(sent);
    }
    noted
}
