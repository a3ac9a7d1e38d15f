//! Blocks that are encoded.

use crate::tests::bytes_of;
use crate::*;
use proto_wire::{Bytes, OutOfMemory};
use std::alloc::Global;
use std::test::*;

/// Headers of these names and values.
fn headers_of(alloc: Global, pairs: &[(&str, &str)]) -> Result<Headers, OutOfMemory> {
    let mut headers = Headers::new(alloc);
    for (name, value) in pairs {
        headers.push(Header {
            name: Bytes::copy_of(alloc, name.as_bytes())?,
            value: Bytes::copy_of(alloc, value.as_bytes())?,
        })?;
    }
    Ok(headers)
}

/// Headers, whether their block shrinks the table, and the block, by sections 6.1, 6.2.2 and 6.3. The path is that of section
/// C.2.2.
const ENCODED: [(&[(&str, &str)], bool, &str); 8] = [
    (&[], false, ""),
    (&[], true, "20"),
    (&[(":status", "200")], false, "88"),
    (&[(":status", "200")], true, "2088"),
    (
        &[(":path", "/sample/path")],
        false,
        "040c2f73616d706c652f70617468",
    ),
    (
        &[("content-type", "application/grpc")],
        false,
        "0f10106170706c69636174696f6e2f67727063",
    ),
    (
        &[("custom-key", "custom-header")],
        false,
        "000a637573746f6d2d6b65790d637573746f6d2d686561646572",
    ),
    (
        &[(":status", "404"), ("grpc-status", "5"), ("accept", "")],
        false,
        "8d000b677270632d737461747573013593",
    ),
];

#[test]
fn headers_are_encoded_without_the_table(rt: HostRuntime) -> Result<(), Fail> {
    for (pairs, shrink, hex) in ENCODED {
        let headers = headers_of(rt.alloc(), pairs)?;
        let block = encode_block(rt.alloc(), &headers, shrink)?;
        let wanted = bytes_of(rt.alloc(), hex)?;
        assert_eq!(rt; block.as_slice(), wanted.as_slice(), "{hex}");
    }
    Ok(())
}

#[test]
fn a_list_at_the_limit_is_encoded(rt: HostRuntime) -> Result<(), Fail> {
    let mut value = Bytes::new(rt.alloc());
    for _ in 0..16_351 {
        value.push_slice(b"b")?;
    }
    let mut headers = Headers::new(rt.alloc());
    headers.push(Header {
        name: Bytes::copy_of(rt.alloc(), b"a")?,
        value,
    })?;
    let block = encode_block(rt.alloc(), &headers, false)?;
    let mut table = Table::new(rt.alloc(), 4_096);
    let back = decode_block(rt.alloc(), &mut table, block.as_slice())?;
    assert_eq!(rt; back.len(), 1);
    Ok(())
}
