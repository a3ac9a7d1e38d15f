//! `StdSource` and `StdSink`, the adapters of std's readers and writers. They tell no content, and are trusted: that
//! the real object gives and takes the bytes is not proved.

ghost use Rattle.std.specs.Prelude.{◌≡◌, ◌<◌, ◌≤◌, length, None, IfOk, IfErr, OnErr};
ghost use Rattle.std.specs.Io.KnownBytes.{ReadConsumes, WriteAppends};
ghost use Rattle.casd_base.specs.Causes.{HasCause, HasSinkCause};
ghost use Rattle.casd_base.specs.Memory.{counted};
ghost use Rattle.casd_base.specs.declared.sink.SinkEnd.TheVariants.{Failed as Fault};

use crate::sink::{Sink, SinkEnd};
use crate::source::{Failed, Source};
use std::io::{ErrorKind, Read, Write};

/// How often an interrupted call is made again.
const TRIES: u32 = 1_000;

/// A source over any reader of std, which counts each real fault.
#[derive(Drop)]
pub struct StdSource<R: Read> {
    inner: R,
    faults: u64,
}

impl<R: Read> StdSource<R> {
    /// No fault was met yet. It takes no memory.
    pub fn new(inner: R) -> StdSource<R>
        ensures { result ≡ record { inner = inner; faults = 0 } }
    {
        StdSource { inner, faults: 0 }
    }
}

impl<R: Read> Source for StdSource<R> {
    ghost left = { λ _. None };

    ghost read_faults = { λ s. s.faults };

    fn read(&mut self, buf: &mut [u8]) -> Result<usize, Failed>
        ensures bound { IfOk result (λ n. n ≤ length buf.new) }
        ensures cause { HasCause self.old.faults self.new.faults result }
        // What the reader tells of its bytes: the answer is that of one read which succeeded, or nothing was taken.
        ensures content { ReadConsumes (R.remaining self.old.inner) (R.remaining self.new.inner) result buf.new }
        // One fault is counted for each failure.
        ensures one_fault { OnErr result (self.new.faults ≡ counted self.old.faults) }
    {
        read_counted(&mut self.inner, &mut self.faults, buf)
    }
}

/// A sink over any writer of std, which counts each real fault. A writer that takes nothing has failed.
#[derive(Drop)]
pub struct StdSink<W: Write> {
    inner: W,
    faults: u64,
}

impl<W: Write> StdSink<W> {
    /// No fault was met yet. It takes no memory.
    pub fn new(inner: W) -> StdSink<W>
        ensures { result ≡ record { inner = inner; faults = 0 } }
    {
        StdSink { inner, faults: 0 }
    }
}

impl<W: Write> Sink for StdSink<W> {
    ghost written = { λ _. None };

    ghost write_faults = { λ s. s.faults };

    fn write(&mut self, bytes: &[u8]) -> Result<usize, SinkEnd>
        ensures bound { IfOk result (λ n. n ≤ length bytes.now) }
        ensures some { IfOk result (λ n. 0 < length bytes.now → 0 < n) }
        ensures cause { HasSinkCause self.old.faults self.new.faults result }
        // What the writer tells of its bytes: the answer is that of one write which succeeded, or nothing was added.
        ensures content { WriteAppends (W.contents self.old.inner) (W.contents self.new.inner) result bytes.now }
        // One fault is counted for each failure. It takes no memory.
        ensures one_fault { OnErr result (self.new.faults ≡ counted self.old.faults) }
        ensures memory { IfErr result (λ e. e ≡ Fault) }
    {
        write_counted(&mut self.inner, &mut self.faults, bytes)
    }
}

/// Reads, and again where the call was interrupted. It counts a fault for each failure, and none besides.
pub(crate) fn read_counted<R: Read>(
    inner: &mut R,
    faults: &mut u64,
    buf: &mut [u8],
) -> Result<usize, Failed>
    ensures bound { IfOk result (λ n. n ≤ length buf.new) }
    // The answer is that of one read which succeeded, or nothing was taken.
    ensures content { ReadConsumes (R.remaining inner.old) (R.remaining inner.new) result buf.new }
    ensures cause { HasCause faults.old faults.new result }
    ensures one_fault { OnErr result (faults.new ≡ counted faults.old) }
{
    'tries: for _ in 0..TRIES {
        match inner.read(buf) {
            Ok(count) => return Ok(count),
            Err(e) => {
                if e.kind() != ErrorKind::Interrupted {
                    break;
                }
            }
        }
    }
    count_fault(faults);
    Err(Failed)
}

/// Writes, and again where the call was interrupted. It counts a fault for each failure, and none besides: a writer
/// that takes nothing has failed. It takes no memory.
pub(crate) fn write_counted<W: Write>(
    inner: &mut W,
    faults: &mut u64,
    bytes: &[u8],
) -> Result<usize, SinkEnd>
    ensures bound { IfOk result (λ n. n ≤ length bytes.now) }
    ensures some { IfOk result (λ n. 0 < length bytes.now → 0 < n) }
    // The answer is that of one write which succeeded, or nothing was added.
    ensures content { WriteAppends (W.contents inner.old) (W.contents inner.new) result bytes.now }
    ensures cause { HasSinkCause faults.old faults.new result }
    ensures one_fault { OnErr result (faults.new ≡ counted faults.old) }
    ensures memory { IfErr result (λ e. e ≡ Fault) }
{
    if bytes.is_empty() {
        return Ok(0);
    }
    'tries: for _ in 0..TRIES {
        match inner.write(bytes) {
            Ok(0) => break,
            Ok(count) => return Ok(count),
            Err(e) => {
                if e.kind() != ErrorKind::Interrupted {
                    break;
                }
            }
        }
    }
    count_fault(faults);
    Err(SinkEnd::Failed)
}

fn count_fault(faults: &mut u64)
    ensures count { faults.new ≡ counted faults.old }
    ensures later { faults.old ≤ faults.new }
{
    *faults = faults.saturating_add(1);
}
