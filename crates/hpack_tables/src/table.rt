//! `Table` and `decode_block`.

ghost use Rattle.std.specs.Prelude.{◌≡◌, ◌≤◌, ◌⊎◌, List, None, Some, Ok, Err, IfOk, IfErr, IfSome};
ghost use Rattle.std.specs.Result.{result_err};
ghost use Rattle.hpack_tables.specs.declared.fault.HpackFault.TheVariants.{OutOfMemory as NoMemory};
ghost use Rattle.hpack_tables.specs.declared.header.Header.{Header};
ghost use Rattle.hpack_tables.specs.Block.{IsBlock, max_list, max_table};
ghost use Rattle.hpack_tables.specs.Reading.{BlockGives, block_at};
ghost use Rattle.hpack_tables.specs.Refusal.{IsRefusal};
ghost use Rattle.hpack_tables.specs.Table.{HeaderTable, list_size, new_table, unrefused};

use crate::decode::read_block;
use crate::dynamic_table::DynamicTable;
use crate::fault::HpackFault;
use crate::header::Headers;
use std::alloc::Global;
use std::marker::Model;

/// What the blocks of one direction of a connection are decoded with: the dynamic table, and the refusal of a block, if one
/// was refused.
#[derive(Debug, Drop)]
pub struct Table {
    dynamic: DynamicTable,
    refusal: Option<HpackFault>,
}

impl Model for Table {
    ghost use Rattle.hpack_tables.specs.Table.{TableState};

    ghost Value = { TableState };

    ghost view = { λ t. record { dynamic = t.dynamic; refusal = t.refusal } };
}

impl Table {
    /// An empty table of at most `max` bytes. It takes no memory.
    pub fn new(alloc: Global, max: u32) -> Table
        requires { max ≤ max_table }
        ensures { result ≡ unrefused (new_table max) }
    {
        Table {
            dynamic: DynamicTable::new(alloc, max),
            refusal: None,
        }
    }
}

/// Decodes a block into its headers, in order, and updates the table for the next block. The first malformed representation
/// refuses the block. A table that refused a block answers that refusal from then on, since it may no longer be the table of
/// the peer's encoder (RFC 7541, section 2.2).
pub fn decode_block(alloc: Global, table: &mut Table, block: &[u8]) -> Result<Headers, HpackFault>
    // the headers that the grammar relates to the block by the table
    ensures found { IfOk result (λ headers. IsBlock table.old.dynamic block.now headers table.new.dynamic × (list_size headers ≤ max_list)) }
    ensures only { (headers : List Header) (t : HeaderTable) → table.old.refusal ≡ None → IsBlock table.old.dynamic block.now headers t → list_size headers ≤ max_list → (result ≡ Err NoMemory) ⊎ ((result ≡ Ok headers) × (table.new.dynamic ≡ t)) }
    ensures refused { table.old.refusal ≡ None → IfErr result (λ e. (e ≡ NoMemory) ⊎ IsRefusal table.old.dynamic block.now e) }

    // which of the faults it is
    ensures exact { table.old.refusal ≡ None → BlockGives (λ headers. (headers, table.new.dynamic)) result (block_at table.old.dynamic block.now) }

    // a refusal is kept
    ensures kept { table.new.refusal ≡ result_err result }
    ensures latched { IfSome table.old.refusal (λ e. (result ≡ Err e) × (table.new ≡ table.old)) }
{
    if let Some(fault) = table.refusal {
        return Err(fault);
    }
    let read = read_block(alloc, &mut table.dynamic, block);
    if let Err(fault) = &read {
        table.refusal = Some(*fault);
    }
    read
}
