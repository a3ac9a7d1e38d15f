//! `Waits`.

ghost use Rattle.std.specs.Prelude.{◌≡◌, ◌≤◌, ◌++◌, ◌==◌, [], length, take, drop, OnOk, OnErr};

use proto_wire::{Bytes, OutOfMemory};
use std::alloc::Global;
use std::marker::Model;

/// Bytes of one stream that wait to be written, kept once.
#[derive(Debug, Drop)]
pub(crate) struct Waits {
    bytes: Vec<u8>,
    start: usize,
}

impl Model for Waits {
    ghost use Rattle.std.specs.Prelude.{◌≤◌, List, ℕ, drop, vec_len};

    ghost Value = { List ℕ };

    ghost view = { λ w. drop w.start w.bytes.items };

    ghost invariant = { λ w. w.start ≤ vec_len w.bytes };
}

impl Waits {
    /// None. It takes no memory.
    pub(crate) fn new(alloc: Global) -> Waits
        ensures { result ≡ [] }
    {
        Waits {
            bytes: Vec::new(alloc),
            start: 0,
        }
    }

    /// How many they are. It takes no memory.
    pub(crate) fn len(&self) -> usize
        ensures { result ≡ length self.now }
    {
        self.bytes.len() - self.start
    }

    /// Adds bytes behind those that wait. Where none wait, it keeps the bytes as they are handed in, and takes no memory.
    pub(crate) fn add(&mut self, bytes: Bytes) -> Result<(), OutOfMemory>
        ensures ok { OnOk result (self.new ≡ self.old ++ bytes) }
        ensures err { OnErr result (self.new ≡ self.old) }
    {
        if self.start == self.bytes.len() {
            self.bytes = bytes.into_vec();
            self.start = 0;
            return Ok(());
        }
        self.bytes.extend_from_slice(bytes.as_slice())?;
        Ok(())
    }

    /// The first of them. It takes no memory.
    pub(crate) fn front(&self, count: usize) -> &[u8]
        requires { count ≤ length self.now }
        ensures { result.now ≡ take count self.now }
    {
        &self.bytes[self.start..self.start + count]
    }

    /// Lets the first of them go. It takes no memory.
    pub(crate) fn advance(&mut self, count: usize)
        requires { count ≤ length self.old }
        ensures { self.new ≡ drop count self.old }
    {
        self.start += count;
    }
}
