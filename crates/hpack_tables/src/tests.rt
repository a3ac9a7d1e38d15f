//! Worked examples. Unless a test says otherwise, the bytes and the headers are those of RFC 7541, appendix C, and the decoder of
//! python3-hpack (version 4.0.0) gives the same.

ghost use Rattle.std.specs.Prelude.{◌≤◌};
ghost use Rattle.hpack_tables.specs.Block.{max_table};

mod encoding;
mod faults;
mod huffman;
mod limits;
mod reading;

use crate::*;
use proto_wire::{Bytes, OutOfMemory};
use std::alloc::Global;
use std::process::Abort;
use std::test::*;

/// The value of a hexadecimal digit.
fn digit(b: u8) -> u8 {
    match b {
        b'0'..=b'9' => b - b'0',
        _ => b.wrapping_sub(b'a').wrapping_add(10),
    }
}

/// The bytes that pairs of hexadecimal digits spell.
pub(crate) fn bytes_of(alloc: Global, hex: &str) -> Result<Bytes, OutOfMemory> {
    let mut bytes = Vec::new(alloc);
    let mut high = None;
    for b in hex.as_bytes() {
        match high {
            None => high = Some(digit(*b)),
            Some(first) => {
                bytes.push(first.wrapping_mul(16).wrapping_add(digit(*b)))?;
                high = None;
            }
        }
    }
    Ok(Bytes::from_vec(bytes))
}

/// Asserts that the headers are these names and values.
pub(crate) fn assert_headers(
    rt: &impl Abort,
    case: &str,
    headers: &Headers,
    wanted: &[(&str, &str)],
) {
    let headers = headers.as_slice();
    assert_eq!(rt; headers.len(), wanted.len(), "{case}");
    for (header, (name, value)) in headers.iter().zip(wanted) {
        assert_eq!(rt; header.name.as_slice(), name.as_bytes(), "{case}");
        assert_eq!(rt; header.value.as_slice(), value.as_bytes(), "{case}");
    }
}

/// Asserts that the blocks of one connection, with a table of at most `max` bytes, give these headers.
pub(crate) fn assert_blocks(
    rt: &impl Abort,
    alloc: Global,
    max: u32,
    blocks: &[&str],
    wanted: &[&[(&str, &str)]],
) -> Result<(), Fail>
    requires { max ≤ max_table }
{
    let mut table = Table::new(alloc, max);
    assert_eq!(rt; blocks.len(), wanted.len());
    for (hex, pairs) in blocks.iter().zip(wanted) {
        let block = bytes_of(alloc, hex)?;
        let headers = decode_block(alloc, &mut table, block.as_slice())?;
        assert_headers(rt, hex, &headers, pairs);
    }
    Ok(())
}

/// The fault with which a block is refused on a new table, if it is refused.
pub(crate) fn fault_of(alloc: Global, block: &[u8]) -> Option<HpackFault> {
    let mut table = Table::new(alloc, 4_096);
    decode_block(alloc, &mut table, block).err()
}
