//! `StreamLink`.

ghost use Rattle.std.specs.Prelude.{◌≡◌, ◌<◌, ◌≤◌, length, None, IfOk, IfErr, OnErr};
ghost use Rattle.std.specs.Io.KnownBytes.{ReadConsumes, WriteAppends};
ghost use Rattle.casd_base.specs.Causes.{HasCause, HasSinkCause};
ghost use Rattle.casd_base.specs.Memory.{counted};
ghost use Rattle.casd_base.specs.Streams.{NotesEnd, CountsOn, KeepsEnd, told, told_both};
ghost use Rattle.casd_base.specs.declared.sink.SinkEnd.TheVariants.{Failed as Fault};

use crate::end::noted_after;
use crate::link::Link;
use crate::sink::SinkEnd;
use crate::source::Failed;
use crate::standard::{read_counted, write_counted};
use std::io::{Read, Write};
use std::mem;

/// A link over one value that reads and writes, such as a socket. It tells none of the bytes and counts each real fault,
/// as `StdSource` and `StdSink` do, and tells where the end was met as long as fewer than 2^63 bytes were written.
#[derive(Drop)]
pub struct StreamLink<T: Read + Write> {
    inner: T,
    read_faults: u64,
    write_faults: u64,
    sent: u64,
    ended: Option<u64>,
}

impl<T: Read + Write> StreamLink<T> {
    /// Nothing was read or written yet. It takes no memory.
    pub fn new(inner: T) -> StreamLink<T>
        ensures { result ≡ record { inner = inner; read_faults = 0; write_faults = 0; sent = 0; ended = None } }
    {
        StreamLink {
            inner,
            read_faults: 0,
            write_faults: 0,
            sent: 0,
            ended: None,
        }
    }

    /// Takes the inner value out and puts another in its place, as where a socket is to be closed. What was counted stays. It
    /// takes no memory.
    pub fn replace(&mut self, inner: T) -> T
        ensures value { result ≡ self.old.inner }
        ensures rest { self.new ≡ record self.old { inner = inner } }
    {
        mem::replace(&mut self.inner, inner)
    }
}

impl<T: Read + Write> Link for StreamLink<T> {
    ghost left = { λ _. None };

    ghost written = { λ _. None };

    ghost read_faults = { λ l. l.read_faults };

    ghost write_faults = { λ l. l.write_faults };

    ghost sent = { λ l. told l.sent l.sent };

    ghost at_end = { λ l. told l.sent l.ended };

    ghost sent_is_told = { λ l. told_both l.sent l.sent l.ended };

    fn read(&mut self, buf: &mut [u8]) -> Result<usize, Failed>
        ensures bound { IfOk result (λ n. n ≤ length buf.new) }
        // What the inner value tells of its bytes: the answer is that of one read which succeeded, or nothing was taken.
        ensures content { ReadConsumes (T.remaining self.old.inner) (T.remaining self.new.inner) result buf.new }
        ensures cause { HasCause self.old.read_faults self.new.read_faults result }
        // One fault is counted for each failure.
        ensures one_fault { OnErr result (self.new.read_faults ≡ counted self.old.read_faults) }
        ensures sent { self.new.sent ≡ self.old.sent }
        ensures write_faults { self.new.write_faults ≡ self.old.write_faults }
        ensures at_end { NotesEnd (told self.old.sent self.old.sent) (told self.old.sent self.old.ended) (told self.new.sent self.new.ended) (length buf.new) result }
    {
        let count = read_counted(&mut self.inner, &mut self.read_faults, buf)?;
        self.ended = noted_after(self.ended, self.sent, count, buf.len());
        Ok(count)
    }

    fn write(&mut self, bytes: &[u8]) -> Result<usize, SinkEnd>
        ensures bound { IfOk result (λ n. n ≤ length bytes.now) }
        ensures some { IfOk result (λ n. 0 < length bytes.now → 0 < n) }
        // What the inner value tells of its bytes: the answer is that of one write which succeeded, or nothing was added.
        ensures content { WriteAppends (T.contents self.old.inner) (T.contents self.new.inner) result bytes.now }
        ensures cause { HasSinkCause self.old.write_faults self.new.write_faults result }
        // One fault is counted for each failure. It takes no memory.
        ensures one_fault { OnErr result (self.new.write_faults ≡ counted self.old.write_faults) }
        ensures memory { IfErr result (λ e. e ≡ Fault) }
        ensures read_faults { self.new.read_faults ≡ self.old.read_faults }
        ensures sent { CountsOn (told self.old.sent self.old.sent) (told self.new.sent self.new.sent) result }
        ensures at_end { KeepsEnd (told self.old.sent self.old.ended) (told self.new.sent self.new.ended) }
    {
        let count = write_counted(&mut self.inner, &mut self.write_faults, bytes)?;
        self.sent = self.sent.saturating_add(count as u64);
        Ok(count)
    }
}
