//! `PairLink`.

ghost use Rattle.std.specs.Prelude.{◌≡◌, ◌^◌, nat_lt, None, Some, if◌then◌else◌};
ghost use Rattle.casd_base.specs.Streams.{told, told_both};

use crate::end::noted_after;
use crate::link::Link;
use crate::sink::{Sink, SinkEnd};
use crate::source::{Failed, Source};

/// A link of a source and a sink. It tells where the end was met as long as fewer than 2^63 bytes were written.
#[derive(Drop)]
pub struct PairLink<S: Source, W: Sink> {
    source: S,
    sink: W,
    sent: u64,
    ended: Option<u64>,
}

impl<S: Source, W: Sink> PairLink<S, W> {
    /// Nothing was read or written yet. It takes no memory.
    pub fn new(source: S, sink: W) -> PairLink<S, W>
        ensures { result ≡ record { source = source; sink = sink; sent = 0; ended = None } }
    {
        PairLink {
            source,
            sink,
            sent: 0,
            ended: None,
        }
    }
}

impl<S: Source, W: Sink> Link for PairLink<S, W> {
    ghost left = { λ l. S.left l.source };

    ghost written = { λ l. W.written l.sink };

    ghost read_faults = { λ l. S.read_faults l.source };

    ghost write_faults = { λ l. W.write_faults l.sink };

    ghost sent = { λ l. told l.sent l.sent };

    ghost at_end = { λ l. told l.sent l.ended };

    ghost sent_is_told = { λ l. told_both l.sent l.sent l.ended };

    fn read(&mut self, buf: &mut [u8]) -> Result<usize, Failed> {
        let count = self.source.read(buf)?;
        self.ended = noted_after(self.ended, self.sent, count, buf.len());
        Ok(count)
    }

    fn write(&mut self, bytes: &[u8]) -> Result<usize, SinkEnd> {
        let count = self.sink.write(bytes)?;
        self.sent = self.sent.saturating_add(count as u64);
        Ok(count)
    }
}
