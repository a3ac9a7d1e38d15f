//! Writing all of some bytes.

ghost use Rattle.std.specs.Prelude.{◌≡◌, ◌≤◌, OnOk, OnErr, IsErrOf};
ghost use Rattle.casd_base.specs.Causes.{Rose};
ghost use Rattle.casd_base.specs.Streams.{Adds};
ghost use Rattle.casd_server.specs.Output.{AddsPart};
ghost use Rattle.casd_base.specs.declared.sink.SinkEnd.TheVariants.{Failed as Fault};

use casd_base::{Sink, SinkEnd};

/// Writes all of the bytes, or a first part of them where the sink ends.
pub(crate) fn write_all<W: Sink>(sink: &mut W, bytes: &[u8]) -> Result<(), SinkEnd>
    ensures ok { OnOk result (Adds (W.written sink.old) (W.written sink.new) bytes.now) }
    ensures err { OnErr result (AddsPart (W.written sink.old) (W.written sink.new) bytes.now) }
    ensures later { W.write_faults sink.old ≤ W.write_faults sink.new }
    ensures fault { IsErrOf result Fault → Rose (W.write_faults sink.old) (W.write_faults sink.new) }
{
    let mut done = 0;
    'pieces: while done < bytes.len() {
        done += sink.write(&bytes[done..])?;
    }
    Ok(())
}
