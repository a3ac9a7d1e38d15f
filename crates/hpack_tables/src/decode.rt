//! The representations of a block, one after the other.

ghost use Rattle.std.specs.Prelude.{◌≡◌, ◌+◌, ◌≤◌, ◌++◌, nat_lt, Some, None, OnOk, if◌then◌else◌};
ghost use Rattle.std.specs.Option.{option_to_list};
ghost use Rattle.hpack_tables.specs.Block.{max_list};
ghost use Rattle.hpack_tables.specs.Reading.{BlockGives, size_if, goes_on, block_at};

use crate::dynamic_table::DynamicTable;
use crate::fault::HpackFault;
use crate::header::{Header, Headers};
use crate::representation::representation_in;
use proto_wire::OutOfMemory;
use std::alloc::Global;

/// The largest size of a header list, in bytes: the name and the value of each header, and 32 more for each.
const MAX_LIST: usize = 16_384;

/// Decodes a block into its headers, in order, and updates the table. The first malformed representation refuses the block.
pub(crate) fn read_block(
    alloc: Global,
    table: &mut DynamicTable,
    block: &[u8],
) -> Result<Headers, HpackFault>
    ensures { BlockGives (λ headers. (headers, table.new)) result (block_at table.old block.now) }
{
    let mut headers = Vec::new(alloc);
    let mut rest = block;
    let mut size = 0;
    let mut may_update = true;
    'steps: while !rest.is_empty() {
        let at = block.len() - rest.len();
        let (header, behind) = match representation_in(alloc, table, may_update, rest) {
            Ok(read) => read,
            Err(offence) => return Err(HpackFault::at(at, offence)),
        };
        size = match size_with(size, &header) {
            Some(more) => more,
            None => return Err(HpackFault::ListTooLong { at }),
        };
        may_update = still_may(&header, may_update);
        keep(&mut headers, header)?;
        rest = behind;
    }
    Ok(Headers::from_vec(headers))
}

/// The size of a list in bytes with one more header, if there is one; `None` above the limit.
fn size_with(size: usize, header: &Option<Header>) -> Option<usize>
    requires { size ≤ max_list }
    ensures { result ≡ (if nat_lt max_list (size + size_if header.now) then None else Some (size + size_if header.now)) }
{
    match header {
        None => Some(size),
        Some(header) => {
            let more = header.size_within(MAX_LIST - size)?;
            Some(size + more)
        }
    }
}

/// Whether a size update may stand after a representation: not after one that gives a header.
fn still_may(header: &Option<Header>, may_update: bool) -> bool
    ensures { result ≡ goes_on header.now may_update }
{
    match header {
        None => may_update,
        Some(_) => false,
    }
}

/// Adds a header, if there is one.
fn keep(headers: &mut Vec<Header>, header: Option<Header>) -> Result<(), OutOfMemory>
    ensures { OnOk result (headers.new.items ≡ headers.old.items ++ option_to_list header) }
{
    if let Some(header) = header {
        headers.push(header)?;
    }
    Ok(())
}
