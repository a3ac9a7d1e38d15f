//! `Input`: bytes of a source, taken in blocks and given as lines.

ghost use Rattle.std.specs.Prelude.{◌≡◌, ◌≢◌, ◌+◌, ◌<◌, ◌≤◌, ◌^◌, [], ◌++◌, length, take, drop, vec_len, ◌==◌, position, IfOk, IfErr, OnOk, OnErr, IsErrOf};
ghost use Rattle.casd_base.specs.Causes.{Rose};
ghost use Rattle.casd_base.specs.Streams.{IsEnded};
ghost use Rattle.casd_server.specs.Input.{Appends, Loses, ReadsBlock, LosesBlock, ReadsMore, LosesSome, IsSpent, Begins};
ghost use Rattle.casd_server.specs.declared.input.Stop.TheVariants.{ReadFault as Fault, OutOfMemory as NoMemory};

use crate::parse::MAX_LINE;
use casd_base::{Failed, Source};
use proto_wire::drop_front;
use std::alloc::{AllocError, Global};
use std::marker::Model;

/// How many bytes are asked of the source at a time.
const BLOCK: usize = 65_536;

/// How many bytes are read at most: 2^50.
pub(crate) const MAX_READ: u64 = 1 << 50;

/// What stands at the front of the pending bytes.
#[derive(Clone, Copy, Debug)]
pub(crate) enum Found {
    /// A line of so many bytes, and its newline.
    Line(usize),
    /// The source has ended, and what is pending has no newline.
    End,
    /// More bytes than a line has, without a newline.
    TooLong,
}

/// Why no more could be read.
#[derive(Clone, Copy, Debug)]
pub(crate) enum Stop {
    ReadFault,
    OutOfMemory,
    /// 2^50 bytes were read.
    Spent,
}

impl From<Failed> for Stop {
    ghost from_gives = { λ _ e. e ≡ Fault };

    fn from(_e: Failed) -> Stop {
        Stop::ReadFault
    }
}

impl From<AllocError> for Stop {
    ghost from_gives = { λ _ e. e ≡ NoMemory };

    fn from(_e: AllocError) -> Stop {
        Stop::OutOfMemory
    }
}

/// The bytes that were read and not yet taken. Nothing is kept of what was taken.
#[derive(Drop)]
pub(crate) struct Input {
    buffer: Vec<u8>,
    start: usize,
    read: u64,
}

impl Model for Input {
    ghost use Rattle.std.specs.Prelude.{◌≤◌, ◌^◌, drop, vec_len};
    ghost use Rattle.casd_server.specs.Pending.{Pending};

    ghost Value = { Pending };

    ghost view = { λ i. record { bytes = drop i.start i.buffer.items; read = i.read } };

    ghost invariant = { λ i. (i.start ≤ vec_len i.buffer) × (i.read ≤ 2 ^ 50) };
}

fn newline_in(bytes: &[u8]) -> Option<usize>
    ensures { result ≡ position (λ b. b == 10) bytes.now }
{
    bytes.iter().position(|b| *b == b'\n')
}

/// Reads one block, and adds it to the buffer.
fn append_block<S: Source>(
    source: &mut S,
    block: &mut [u8],
    buffer: &mut Vec<u8>,
) -> Result<usize, Stop>
    requires { 0 < length block.old }
    ensures ok { IfOk result (Appends (S.left source.old) (S.left source.new) buffer.old.items buffer.new.items) }
    ensures bound { IfOk result (λ n. n ≤ length block.old) }
    ensures ended { IfOk result (λ n. n ≡ 0 → IsEnded (S.left source.new)) }
    ensures err { OnErr result (Loses (S.left source.old) (S.left source.new) (length block.old)) }
    ensures same { OnErr result (buffer.new.items ≡ buffer.old.items) }
    ensures not_spent { IfErr result (λ e. e ≢ Stop.Spent) }
    ensures later { S.read_faults source.old ≤ S.read_faults source.new }
    ensures fault { IsErrOf result Stop.ReadFault → Rose (S.read_faults source.old) (S.read_faults source.new) }
{
    let count = source.read(block)?;
    buffer.extend_from_slice(&block[..count])?;
    Ok(count)
}

impl Input {
    /// Nothing was read yet. It takes no memory.
    pub(crate) fn new(alloc: Global) -> Input
        ensures { result ≡ record { bytes = []; read = 0 } }
    {
        Input {
            buffer: Vec::new(alloc),
            start: 0,
            read: 0,
        }
    }

    /// The first pending bytes.
    pub(crate) fn front(&self, len: usize) -> &[u8]
        requires { len ≤ length self.now.bytes }
        ensures { result.now ≡ take len self.now.bytes }
    {
        &self.buffer[self.start..self.start + len]
    }

    /// All pending bytes.
    pub(crate) fn pending(&self) -> &[u8]
        ensures value { result.now ≡ self.now.bytes }
        ensures bounded { self.now.read ≤ 2 ^ 50 }
    {
        &self.buffer[self.start..]
    }

    /// Takes the first pending bytes.
    pub(crate) fn advance(&mut self, len: usize)
        requires { len ≤ length self.old.bytes }
        ensures { self.new ≡ record self.old { bytes = drop len self.old.bytes } }
    {
        self.start += len;
    }

    /// Reads one block, and answers how many bytes came: 0 at the source's end.
    fn read_more<S: Source>(&mut self, source: &mut S) -> Result<usize, Stop>
        ensures ok { IfOk result (ReadsBlock (S.left source.old) (S.left source.new) self.old self.new) }
        ensures ended { IfOk result (λ n. n ≡ 0 → IsEnded (S.left source.new)) }
        ensures err { OnErr result (LosesBlock (S.left source.old) (S.left source.new) self.old self.new) }
        ensures bounded { self.new.read ≤ 2 ^ 50 }
        ensures spent { IsErrOf result Stop.Spent → (S.left source.new ≡ S.left source.old) × (self.new ≡ self.old) × (self.new.read ≡ 2 ^ 50) }
        ensures later { S.read_faults source.old ≤ S.read_faults source.new }
        ensures fault { IsErrOf result Stop.ReadFault → Rose (S.read_faults source.old) (S.read_faults source.new) }
    {
        if self.read == MAX_READ {
            return Err(Stop::Spent);
        }
        let room = (MAX_READ - self.read).min(BLOCK as u64) as usize;
        drop_front(&mut self.buffer, self.start);
        self.start = 0;
        let mut block = [0u8; BLOCK];
        let count = append_block(source, &mut block[..room], &mut self.buffer)?;
        self.read += count as u64;
        Ok(count)
    }

    /// Reads until the front of the pending bytes is a line, or too long for one, or the source ends.
    pub(crate) fn fill<S: Source>(&mut self, source: &mut S) -> Result<Found, Stop>
        ensures ok { OnOk result (ReadsMore (S.left source.old) (S.left source.new) self.old self.new) }
        ensures begins { IfOk result (λ found. Begins found self.new.bytes (S.left source.new)) }
        ensures err { OnErr result (LosesSome (S.left source.old) (S.left source.new) self.old self.new) }
        ensures bounded { self.new.read ≤ 2 ^ 50 }
        ensures spent { IsErrOf result Stop.Spent → IsSpent (S.left source.old) (S.left source.new) self.old self.new }
        ensures later { S.read_faults source.old ≤ S.read_faults source.new }
        ensures fault { IsErrOf result Stop.ReadFault → Rose (S.read_faults source.old) (S.read_faults source.new) }
    {
        let mut searched = 0;
        'search: loop {
            let pending = self.pending();
            if let Some(place) = newline_in(&pending[searched..]) {
                let len = searched + place;
                return Ok(if len > MAX_LINE {
                    Found::TooLong
                } else {
                    Found::Line(len)
                });
            }
            searched = pending.len();
            if searched > MAX_LINE {
                return Ok(Found::TooLong);
            }
            if self.read_more(source)? == 0 {
                return Ok(Found::End);
            }
        }
    }
}
