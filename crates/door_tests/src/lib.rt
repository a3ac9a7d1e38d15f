//! What tests of doors at a lock round a store stand on, and the tests.
#![tactic(auto)]

ghost use Rattle.std.specs.Prelude.{◌≡◌, ◌+◌, []};

use blob_store::{Gate, MemShelf};
use std::alloc::Global;

/// A gate that counts how often it rang.
#[derive(Drop)]
pub struct Counting {
    pub rings: u64,
}

impl Gate for Counting {
    ghost rings = { λ g. g.rings };

    fn ring(&mut self) {
        self.rings += 1;
    }
}

/// A gate that has not rung.
pub fn unrung() -> Counting
    ensures { result.rings ≡ 0 }
{
    Counting { rings: 0 }
}

/// A shelf in memory on which nothing is found and no call fails.
pub fn empty_shelf(alloc: Global) -> MemShelf
    ensures { result ≡ record {
      found = [];
      failing = [];
      spoilt = [];
      calls = 0;
      drafts = 0;
      faults = 0;
      discarded = 0;
      dropped = 0;
      saved = [];
    } }
{
    MemShelf::new(alloc, Vec::new(alloc), Vec::new(alloc), Vec::new(alloc))
}

#[cfg(test)]
mod helpers;
#[cfg(test)]
mod tests;
