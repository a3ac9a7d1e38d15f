//! `MemLink`, the double in memory.

ghost use Rattle.std.specs.Prelude.{◌≡◌, ◌<◌, ◌≤◌, ◌↔◌, [], ℕ, length, take, Some, None, Contains, IsErrOf, IsErr, IfOk, OnOk, OnErr};
ghost use Rattle.std.proofs.Common.{rules};
ghost use Rattle.casd_base.specs.Memory.{counted, given, after_read, after_write};
ghost use Rattle.casd_base.specs.declared.sink.SinkEnd.TheVariants.{Failed as Fault};

use crate::end::noted_after;
use crate::link::Link;
use crate::sink::{Sink, SinkEnd};
use crate::source::{Failed, Source};
use std::alloc::Global;
use std::marker::Model;

/// A link in memory. It tells its content, cuts its reads as it is told, and fails at the calls that it is told.
#[derive(Debug, Drop)]
pub struct MemLink {
    input: Vec<u8>,
    at: usize,
    cuts: Vec<usize>,
    cuts_used: usize,
    failing: Vec<u64>,
    calls: u64,
    written: Vec<u8>,
    read_faults: u64,
    write_faults: u64,
    ended: Option<u64>,
}

impl Model for MemLink {
    ghost use Rattle.std.specs.Prelude.{◌≤◌, drop, length, vec_len};
    ghost use Rattle.casd_base.specs.Memory.{MemState};

    ghost Value = { MemState };

    ghost view = { λ m. record {
      left = drop m.at m.input.items;
      written = m.written.items;
      cuts = drop m.cuts_used m.cuts.items;
      failing = m.failing.items;
      calls = m.calls;
      read_faults = m.read_faults;
      write_faults = m.write_faults;
      ended = m.ended;
    } };

    ghost invariant = { λ m. (m.at ≤ vec_len m.input) × (m.cuts_used ≤ vec_len m.cuts) };
}

impl MemLink {
    /// A link that gives the input. The k-th read gives at most the k-th cut, where 0 counts as 1; when the cuts are
    /// used up, all that fits. `failing` names the calls that fail, by their common number from 0. It takes no memory.
    pub fn new(alloc: Global, input: Vec<u8>, cuts: Vec<usize>, failing: Vec<u64>) -> MemLink
        ensures { result ≡ record {
          left = input.items;
          written = [];
          cuts = cuts.items;
          failing = failing.items;
          calls = 0;
          read_faults = 0;
          write_faults = 0;
          ended = None;
        } }
    {
        MemLink {
            input,
            at: 0,
            cuts,
            cuts_used: 0,
            failing,
            calls: 0,
            written: Vec::new(alloc),
            read_faults: 0,
            write_faults: 0,
            ended: None,
        }
    }

    /// What was written. It takes no memory.
    pub fn written(&self) -> &[u8]
        ensures { result.now ≡ self.now.written }
    {
        self.written.as_slice()
    }

    /// The next read: it fails exactly where it is told to.
    pub fn next_read(&mut self, buf: &mut [u8]) -> Result<usize, Failed>
        ensures fails { IsErr result ↔ Contains self.old.failing self.old.calls }
        ensures count { IfOk result (λ n. n ≡ given self.old (length buf.new)) }
        ensures bytes { IfOk result (λ n. take n buf.new ≡ take n self.old.left) }
        ensures ok { OnOk result (self.new ≡ after_read self.old (length buf.new)) }
        ensures err { OnErr result (self.new ≡ record self.old {
          calls = counted self.old.calls;
          read_faults = counted self.old.read_faults;
        }) }
        ensures later { self.old.read_faults ≤ self.new.read_faults }
    {
        let number = self.calls;
        self.calls = number.saturating_add(1);
        if self.failing.contains(&number) {
            self.read_faults = self.read_faults.saturating_add(1);
            return Err(Failed);
        }
        let left = &self.input[self.at..];
        let mut count = buf.len().min(left.len());
        if self.cuts_used < self.cuts.len() {
            count = self.cuts[self.cuts_used].max(1).min(count);
            self.cuts_used += 1;
        }
        buf[..count].copy_from_slice(&left[..count]);
        self.at += count;
        self.ended = noted_after(self.ended, self.written.len() as u64, count, buf.len());
        Ok(count)
    }

    /// The next write: it fails exactly where it is told to, and else takes all of the bytes, unless memory runs out.
    pub fn next_write(&mut self, bytes: &[u8]) -> Result<usize, SinkEnd>
        ensures fails { IsErrOf result Fault ↔ Contains self.old.failing self.old.calls }
        ensures ok { IfOk result (λ n. n ≡ length bytes.now) }
        ensures written { OnOk result (self.new ≡ after_write self.old bytes.now) }
        ensures fault { IsErrOf result Fault → self.new ≡ record self.old {
          calls = counted self.old.calls;
          write_faults = counted self.old.write_faults;
        } }
        ensures memory { IsErrOf result SinkEnd.OutOfMemory → self.new ≡ record self.old { calls = counted self.old.calls } }
        ensures later { self.old.write_faults ≤ self.new.write_faults }
    {
        let number = self.calls;
        self.calls = number.saturating_add(1);
        if self.failing.contains(&number) {
            self.write_faults = self.write_faults.saturating_add(1);
            return Err(SinkEnd::Failed);
        }
        if self.written.extend_from_slice(bytes).is_err() {
            return Err(SinkEnd::OutOfMemory);
        }
        Ok(bytes.len())
    }
}

impl Source for MemLink {
    ghost left = { λ m. Some m.left };

    ghost read_faults = { λ m. m.read_faults };

    fn read(&mut self, buf: &mut [u8]) -> Result<usize, Failed> {
        self.next_read(buf)
    }
}

impl Sink for MemLink {
    ghost written = { λ m. Some m.written };

    ghost write_faults = { λ m. m.write_faults };

    fn write(&mut self, bytes: &[u8]) -> Result<usize, SinkEnd> {
        self.next_write(bytes)
    }
}

impl Link for MemLink {
    ghost left = { λ m. Some m.left };

    ghost written = { λ m. Some m.written };

    ghost read_faults = { λ m. m.read_faults };

    ghost write_faults = { λ m. m.write_faults };

    ghost sent = { λ m. Some (length m.written) };

    ghost at_end = { λ m. Some m.ended };

    ghost sent_is_told = { Prim.search rules };

    fn read(&mut self, buf: &mut [u8]) -> Result<usize, Failed> {
        self.next_read(buf)
    }

    fn write(&mut self, bytes: &[u8]) -> Result<usize, SinkEnd> {
        self.next_write(bytes)
    }
}
