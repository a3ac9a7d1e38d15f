//! The frames of a connection.

ghost use Rattle.std.specs.Prelude.{◌≡◌, ◌+◌, ◌<◌, ℕ, List, length, None, IfOk, IfErr, IfSome, IsSome, OnOk};
ghost use Rattle.proto_wire.specs.Reading.{IsBytes};
ghost use Rattle.h2_frames.specs.Spelling.{IsSpelling};
ghost use Rattle.h2_frames.specs.Stream.{Answers};

use h2_frames::{Frame, FrameFault, FrameReader};

/// The next frame, with the place of its first byte.
pub(crate) fn next_frame(reader: &mut FrameReader) -> Result<Option<(u64, Frame)>, FrameFault>
    requires sound { reader.old.fault ≡ None }
    requires bytes { IsBytes reader.old.rest }
    ensures exact { Answers reader.old reader.new result }
    ensures bytes { IsBytes reader.new.rest }
    ensures spelled { IfOk result (λ o. IfSome o (λ p. (text : List ℕ) × IsSpelling text p.1)) }
    ensures less { IfOk result (λ o. IsSome o → length reader.new.rest < length reader.old.rest) }
    ensures sound { OnOk result (reader.new.fault ≡ None) }
    ensures count { reader.new.at + length reader.new.rest ≡ reader.old.at + length reader.old.rest }
{
    reader.next()
}
