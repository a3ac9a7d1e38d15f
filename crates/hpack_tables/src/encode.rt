//! `encode_block`.

ghost use Rattle.std.specs.Prelude.{◌≡◌, ◌++◌, position, IfOk, OnOk};
ghost use Rattle.hpack_tables.specs.Encoding.{name_spelled, header_spelled, block_spelled, has_name};
ghost use Rattle.hpack_tables.specs.Table.{static_entries};

use crate::header::{Header, Headers};
use crate::integer::push_int;
use crate::static_table::{place_of, place_of_name};
use crate::string::push_string;
use proto_wire::{Bytes, OutOfMemory};
use std::alloc::Global;

/// A size update to 0 bytes.
const SHRINK: u8 = 0x20;

/// Appends the name of a literal that is not added to the table.
fn push_name(out: &mut Vec<u8>, name: &[u8]) -> Result<(), OutOfMemory>
    ensures { OnOk result (out.new.items ≡ out.old.items ++ name_spelled (position (has_name name.now) static_entries) name.now) }
{
    match place_of_name(name) {
        Some(place) => push_int(out, 4, 0, place as u64 + 1),
        None => {
            out.push(0)?;
            push_string(out, name)
        }
    }
}

/// Appends the representation of a header.
#[tactic(auto, unfolding(crate::specs::Encoding::header_spelled))]
fn push_header(out: &mut Vec<u8>, header: &Header) -> Result<(), OutOfMemory>
    ensures { OnOk result (out.new.items ≡ out.old.items ++ header_spelled header.now) }
{
    if let Some(place) = place_of(header) {
        return push_int(out, 7, 128, place as u64 + 1);
    }
    push_name(out, header.name.as_slice())?;
    push_string(out, header.value.as_slice())
}

/// Encodes headers as a block. It adds nothing to the peer's dynamic table; with `shrink` it begins with a size update to 0
/// bytes, which empties that table.
#[tactic(auto, unfolding(crate::specs::Encoding::block_spelled))]
pub fn encode_block(alloc: Global, headers: &Headers, shrink: bool) -> Result<Bytes, OutOfMemory>
    ensures { IfOk result (λ block. block ≡ block_spelled headers.now shrink) }
{
    let mut out = Vec::new(alloc);
    if shrink {
        out.push(SHRINK)?;
    }
    'headers: for header in headers.as_slice() {
        push_header(&mut out, header)?;
    }
    Ok(Bytes::from_vec(out))
}
