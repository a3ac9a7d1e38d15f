//! `DynamicTable`.

ghost use Rattle.std.specs.Prelude.{◌≡◌, ◌≤◌, [], ◌∷◌, ◌++◌, OnOk, MatchOption};
ghost use Rattle.std.specs.Option.{option_map};
ghost use Rattle.hpack_tables.specs.Block.{max_table};
ghost use Rattle.hpack_tables.specs.Table.{new_table, with_entry, with_max, header_at, entry_of, fitting};

use crate::header::{Header, OVERHEAD, copy_of};
use crate::static_table::entry_at;
use proto_wire::OutOfMemory;
use std::alloc::Global;
use std::collections::VecDeque;
use std::marker::Model;

/// How many entries the static table has.
const STATIC_LEN: usize = 61;

/// The dynamic table (RFC 7541, section 2.3.2): its entries, the newest first, their size, and its maximum size, both in
/// bytes.
#[derive(Debug, Drop)]
pub(crate) struct DynamicTable {
    alloc: Global,
    entries: VecDeque<Header>,
    size: usize,
    max: usize,
}

impl Model for DynamicTable {
    ghost use Rattle.std.specs.Prelude.{◌≡◌, ◌≤◌};
    ghost use Rattle.hpack_tables.specs.Block.{max_table};
    ghost use Rattle.hpack_tables.specs.Table.{HeaderTable, list_size};

    ghost Value = { HeaderTable };

    ghost view = { λ t. record { entries = t.entries.items; max = t.max } };

    ghost invariant = { λ t. (t.size ≡ list_size t.entries.items) × (t.size ≤ t.max) × (t.max ≤ max_table) };
}

impl DynamicTable {
    /// An empty table of at most `max` bytes. It takes no memory.
    pub(crate) fn new(alloc: Global, max: u32) -> DynamicTable
        requires { max ≤ max_table }
        ensures { result ≡ new_table max }
    {
        DynamicTable {
            alloc,
            entries: VecDeque::new(alloc),
            size: 0,
            max: max as usize,
        }
    }

    /// The name and the value at an index. The static table has the indexes from 1 on, and this table those after it.
    pub(crate) fn header_at(&self, index: usize) -> Option<(&[u8], &[u8])>
        ensures { option_map (λ entry. entry_of entry.0.now entry.1.now) result ≡ header_at self.now index }
    {
        if index == 0 {
            return None;
        }
        if index <= STATIC_LEN {
            return entry_at(index - 1);
        }
        match self.entries.get(index - STATIC_LEN - 1) {
            Some(header) => Some((header.name.as_slice(), header.value.as_slice())),
            None => None,
        }
    }

    /// Evicts the oldest entries until a header fits, and adds a copy of it. A header that is larger than the table empties
    /// it (section 4.4).
    pub(crate) fn add(&mut self, header: &Header) -> Result<(), OutOfMemory>
        ensures { OnOk result (self.new ≡ with_entry self.old header.now) }
    {
        match header.size_within(self.max) {
            None => {
                self.evict(0);
                Ok(())
            }
            Some(size) => {
                let copy = copy_of(self.alloc, header.name.as_slice(), header.value.as_slice())?;
                self.evict(self.max - size);
                self.entries.push_front(copy)?;
                self.size += size;
                Ok(())
            }
        }
    }

    /// Sets the maximum size in bytes, and evicts the oldest entries until the others fit (section 4.3). It takes no memory.
    pub(crate) fn resize(&mut self, max: u32)
        requires { max ≤ max_table }
        ensures { self.new ≡ with_max self.old max }
    {
        self.evict(max as usize);
        self.max = max as usize;
    }

    // Evicts the oldest entries until the others have at most `most` bytes.
    fn evict(&mut self, most: usize)
        ensures { self.new ≡ record self.old { entries = fitting most self.old.entries } }
    {
        while self.size > most {
            if let Some(header) = take_oldest(&mut self.entries) {
                self.size -= header.name.len() + header.value.len() + OVERHEAD;
            }
        }
    }
}

// Takes out the oldest entry, if there is one.
fn take_oldest(entries: &mut VecDeque<Header>) -> Option<Header>
    ensures { MatchOption result (entries.old.items ≡ []) (λ last. entries.old.items ≡ entries.new.items ++ last ∷ []) }
{
    entries.pop_back()
}
