//! `JoinedLink`.

ghost use Rattle.std.specs.Prelude.{◌≡◌, None};
ghost use Rattle.casd_base.specs.Streams.{noted_after, told, told_both};

use casd_base::{Failed, Link, Sink, SinkEnd, Source};

/// A link of a source and a sink, which it gives back at last. It tells where the end was met as long as fewer than 2^63
/// bytes were written.
#[derive(Drop)]
pub(crate) struct JoinedLink<S: Source, W: Sink> {
    source: S,
    sink: W,
    sent: u64,
    ended: Option<u64>,
}

impl<S: Source, W: Sink> JoinedLink<S, W> {
    /// Nothing was read or written yet. It takes no memory.
    pub(crate) fn new(source: S, sink: W) -> JoinedLink<S, W>
        ensures { result ≡ record { source = source; sink = sink; sent = 0; ended = None } }
    {
        JoinedLink {
            source,
            sink,
            sent: 0,
            ended: None,
        }
    }

    /// The source and the sink.
    pub(crate) fn into_parts(self) -> (S, W)
        ensures { result ≡ (self.source, self.sink) }
    {
        let JoinedLink { source, sink, .. } = self;
        (source, sink)
    }
}

impl<S: Source, W: Sink> Link for JoinedLink<S, W> {
    ghost left = { λ l. S.left l.source };

    ghost written = { λ l. W.written l.sink };

    ghost read_faults = { λ l. S.read_faults l.source };

    ghost write_faults = { λ l. W.write_faults l.sink };

    ghost sent = { λ l. told l.sent l.sent };

    ghost at_end = { λ l. told l.sent l.ended };

    ghost sent_is_told = { λ l. told_both l.sent l.sent l.ended };

    fn read(&mut self, buf: &mut [u8]) -> Result<usize, Failed> {
        let count = self.source.read(buf)?;
        self.ended = noted_after(self.ended, self.sent, count, buf.len());
        Ok(count)
    }

    fn write(&mut self, bytes: &[u8]) -> Result<usize, SinkEnd> {
        let count = self.sink.write(bytes)?;
        self.sent = self.sent.saturating_add(count as u64);
        Ok(count)
    }
}

/// How many bytes had been written when the end was met, after a read that gave `count` bytes into so much room, with
/// so many bytes written before it.
fn noted_after(noted: Option<u64>, sent: u64, count: usize, room: usize) -> Option<u64>
    ensures { result ≡ noted_after noted sent count room }
{
    if count == 0 && room > 0 && noted.is_none() {
        return Some(sent);
    }
    noted
}
