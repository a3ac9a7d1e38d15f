//! `Unfinished`.

ghost use Rattle.std.specs.Prelude.{◌≡◌, ◌≤◌, ◌<◌, ◌==◌, ◌++◌, ◌∷◌, [], length, IfOk, IfSome, IfNone, drop, slice_index};
ghost use Rattle.grpc_calls.specs.Prefix.{size_in, IsPart};
ghost use Rattle.grpc_calls.specs.Framing.{front};
ghost use Rattle.grpc_calls.specs.Unfinished.{Takes, Judged};

use crate::fault::MessageFault;
use proto_wire::{Bytes, OutOfMemory};
use std::alloc::Global;
use std::marker::Model;
use std::mem;

/// How many bytes stand in front of the content of a message.
const PREFIX: usize = 5;

/// The largest content that is taken, in bytes.
const MAX_MESSAGE: u32 = 8_388_608;

/// What some more bytes of a message do.
#[derive(Debug, Drop)]
pub(crate) enum Step {
    /// So many of them are kept, and more are to come.
    Part(usize),
    /// With so many of them the message is whole, and this is its content.
    Whole(usize, Bytes),
    /// They can't be read.
    Fault(MessageFault),
}

/// The bytes that have come of a message that isn't whole. Memory is taken as they come.
#[derive(Debug, Drop)]
pub(crate) struct Unfinished {
    alloc: Global,
    prefix: Vec<u8>,
    content: Vec<u8>,
}

impl Model for Unfinished {
    ghost use Rattle.std.specs.Prelude.{◌++◌, List, ℕ};
    ghost use Rattle.grpc_calls.specs.Prefix.{IsPart};

    ghost Value = { List ℕ };

    ghost view = { λ u. u.prefix.items ++ u.content.items };

    ghost invariant = { λ u. IsPart u.prefix.items u.content.items };
}

/// The length that a whole prefix tells.
fn size_of(prefix: &[u8]) -> u32
    requires { length prefix.now ≡ 5 }
    ensures { result ≡ size_in (drop 1 prefix.now) }
{
    u32::from_be_bytes([prefix[1], prefix[2], prefix[3], prefix[4]])
}

/// What a flag shows to be wrong.
fn fault_of(flag: u8) -> Option<MessageFault>
    ensures none { IfNone result (flag ≡ 0) }
    ensures some { IfSome result (λ fault. front (flag ∷ []) ≡ Err fault) }
{
    match flag {
        0 => None,
        1 => Some(MessageFault::Compressed),
        _ => Some(MessageFault::BadFlag),
    }
}

/// What a prefix that has become whole does, with the last so many bytes.
fn judge(alloc: Global, prefix: &mut Vec<u8>, count: usize) -> Step
    requires { length prefix.old.items ≡ 5 }
    ensures { Judged (size_in (drop 1 prefix.old.items)) count prefix.old.items prefix.new.items result }
{
    let size = size_of(prefix.as_slice());
    if size == 0 {
        prefix.clear();
        return Step::Whole(count, Bytes::new(alloc));
    }
    if size > MAX_MESSAGE {
        prefix.clear();
        return Step::Fault(MessageFault::TooLarge);
    }
    Step::Part(count)
}

/// Takes bytes into the prefix of a message, the first of which has no bad flag.
fn add_prefix(alloc: Global, prefix: &mut Vec<u8>, bytes: &[u8]) -> Result<Step, OutOfMemory>
    requires part { IsPart prefix.old.items [] }
    requires short { length prefix.old.items < 5 }
    requires some { 0 < length bytes.now }
    requires flag { length prefix.old.items ≡ 0 → slice_index bytes.now 0 ≡ 0 }
    ensures takes { IfOk result (λ s. Takes prefix.old.items bytes.now prefix.new.items s) }
    ensures part { IsPart prefix.new.items [] }
{
    let count = bytes.len().min(PREFIX - prefix.len());
    prefix.extend_from_slice(&bytes[..count])?;
    if prefix.len() < PREFIX {
        return Ok(Step::Part(count));
    }
    Ok(judge(alloc, prefix, count))
}

/// Takes bytes into the prefix of a message.
fn take_prefix(alloc: Global, prefix: &mut Vec<u8>, bytes: &[u8]) -> Result<Step, OutOfMemory>
    requires part { IsPart prefix.old.items [] }
    requires short { length prefix.old.items < 5 }
    requires some { 0 < length bytes.now }
    ensures takes { IfOk result (λ s. Takes prefix.old.items bytes.now prefix.new.items s) }
    ensures part { IsPart prefix.new.items [] }
{
    if prefix.is_empty() {
        if let Some(fault) = fault_of(bytes[0]) {
            return Ok(Step::Fault(fault));
        }
    }
    add_prefix(alloc, prefix, bytes)
}

/// Takes bytes into the content of a message.
fn take_content(
    alloc: Global,
    prefix: &mut Vec<u8>,
    content: &mut Vec<u8>,
    bytes: &[u8],
) -> Result<Step, OutOfMemory>
    requires part { IsPart prefix.old.items content.old.items }
    requires whole { length prefix.old.items ≡ 5 }
    requires some { 0 < length bytes.now }
    ensures takes { IfOk result (λ s. Takes (prefix.old.items ++ content.old.items) bytes.now (prefix.new.items ++ content.new.items) s) }
    ensures part { IsPart prefix.new.items content.new.items }
{
    let left = size_of(prefix.as_slice()) as usize - content.len();
    let count = bytes.len().min(left);
    content.extend_from_slice(&bytes[..count])?;
    if count < left {
        return Ok(Step::Part(count));
    }
    prefix.clear();
    let whole = mem::replace(content, Vec::new(alloc));
    Ok(Step::Whole(count, Bytes::from_vec(whole)))
}

impl Unfinished {
    /// No bytes. It takes no memory.
    pub(crate) fn new(alloc: Global) -> Unfinished
        ensures { result ≡ [] }
    {
        Unfinished {
            alloc,
            prefix: Vec::new(alloc),
            content: Vec::new(alloc),
        }
    }

    /// How many they are. It takes no memory.
    pub(crate) fn len(&self) -> u64
        ensures len { result ≡ length self.now }
        ensures bound { result ≤ 8388612 }
    {
        (self.prefix.len() + self.content.len()) as u64
    }

    /// Whether there are none. It takes no memory.
    pub(crate) fn is_empty(&self) -> bool
        ensures { result ≡ (length self.now == 0) }
    {
        self.prefix.is_empty()
    }

    /// Takes more bytes of the message, up to its end.
    pub(crate) fn take(&mut self, bytes: &[u8]) -> Result<Step, OutOfMemory>
        requires { 0 < length bytes.now }
        ensures { IfOk result (λ s. Takes self.old bytes.now self.new s) }
    {
        if self.prefix.len() < PREFIX {
            return take_prefix(self.alloc, &mut self.prefix, bytes);
        }
        take_content(self.alloc, &mut self.prefix, &mut self.content, bytes)
    }
}
