//! Bytes from fields.

ghost use Rattle.std.specs.Prelude.{◌≡◌, ◌++◌, ◌+◌, ◌*◌, ◌<◌, ◌≤◌, ◌^◌, [], length, OnOk, OnErr};
ghost use Rattle.proto_wire.specs.Spelling.{groups_of, varint, bound, int_field, bytes_field, Extends};

use crate::bytes::Bytes;
use crate::memory::OutOfMemory;
use std::alloc::Global;
use std::marker::Model;

fn push_groups(out: &mut Vec<u8>, more: u8, n: u64) -> Result<(), OutOfMemory>
    requires few { more ≤ 10 }
    requires small { n < bound more }
    ensures ok { OnOk result (out.new.items ≡ out.old.items ++ groups_of more n) }
    ensures err { OnErr result (Extends out.old.items out.new.items) }
{
    if more <= 1 || n < 128 {
        out.push(n as u8)?;
        return Ok(());
    }
    out.push((n % 128 + 128) as u8)?;
    push_groups(out, more - 1, n / 128)
}

pub(crate) fn push_varint(out: &mut Vec<u8>, n: u64) -> Result<(), OutOfMemory>
    ensures ok { OnOk result (out.new.items ≡ out.old.items ++ varint n) }
    ensures err { OnErr result (Extends out.old.items out.new.items) }
{
    push_groups(out, 10, n)
}

fn push_int(out: &mut Vec<u8>, number: u32, value: u64) -> Result<(), OutOfMemory>
    requires { number < 2 ^ 29 }
    ensures ok { OnOk result (out.new.items ≡ out.old.items ++ int_field number value) }
    ensures err { OnErr result (Extends out.old.items out.new.items) }
{
    push_varint(out, u64::from(number) * 8)?;
    push_varint(out, value)
}

fn push_bytes(out: &mut Vec<u8>, number: u32, value: &[u8]) -> Result<(), OutOfMemory>
    requires { number < 2 ^ 29 }
    ensures ok { OnOk result (out.new.items ≡ out.old.items ++ bytes_field number value.now) }
    ensures err { OnErr result (Extends out.old.items out.new.items) }
{
    push_varint(out, u64::from(number) * 8 + 2)?;
    push_varint(out, value.len() as u64)?;
    out.extend_from_slice(value)?;
    Ok(())
}

/// Writes fields one after the other, each in its shortest spelling. Contracts see what was written.
#[derive(Debug, Drop)]
pub struct Writer {
    out: Vec<u8>,
}

impl Model for Writer {
    ghost use Rattle.std.specs.Prelude.{List, ℕ};

    ghost Value = { List ℕ };

    ghost view = { λ w. w.out.items };
}

impl Writer {
    /// Nothing is written yet. It takes no memory.
    pub fn new(alloc: Global) -> Writer
        ensures { result ≡ [] }
    {
        Writer {
            out: Vec::new(alloc),
        }
    }

    /// Adds a field with a varint.
    pub fn int(&mut self, number: u32, value: u64) -> Result<(), OutOfMemory>
        requires low { 0 < number }
        requires high { number < 2 ^ 29 }
        ensures ok { OnOk result (self.new ≡ self.old ++ int_field number value) }
        ensures err { OnErr result (self.new ≡ self.old) }
    {
        let len = self.out.len();
        let added = push_int(&mut self.out, number, value);
        if added.is_err() {
            self.out.truncate(len);
        }
        added
    }

    /// Adds a field with bytes.
    pub fn bytes(&mut self, number: u32, value: &[u8]) -> Result<(), OutOfMemory>
        requires low { 0 < number }
        requires high { number < 2 ^ 29 }
        ensures ok { OnOk result (self.new ≡ self.old ++ bytes_field number value.now) }
        ensures err { OnErr result (self.new ≡ self.old) }
    {
        let len = self.out.len();
        let added = push_bytes(&mut self.out, number, value);
        if added.is_err() {
            self.out.truncate(len);
        }
        added
    }

    /// What was written. It takes no memory.
    pub fn finish(self) -> Bytes
        ensures { result ≡ self }
    {
        let Writer { out } = self;
        Bytes::from_vec(out)
    }
}
