//! Blocks at the limits, by RFC 7541, sections 4.1 to 4.4, 5.1, 5.2 and 6, and by the decoder of python3-hpack.

use crate::tests::{assert_blocks, assert_headers, bytes_of, fault_of};
use crate::*;
use proto_wire::{Bytes, OutOfMemory};
use std::alloc::Global;
use std::test::*;

/// Blocks with the headers that they give on a new table.
const TAKEN: [(&str, &[(&str, &str)]); 8] = [
    ("", &[]),
    // a maximum of 4,096 bytes, the same in a longer spelling, and the same after a maximum of 0
    ("3fe11f", &[]),
    ("3fe19f0082", &[(":method", "GET")]),
    ("203fe11f82", &[(":method", "GET")]),
    // the last entry of the static table, and the first of the dynamic table, which a literal adds
    ("bd", &[("www-authenticate", "")]),
    ("4001610162be", &[("a", "b"), ("a", "b")]),
    // an entry that is as large as the table evicts the one before
    (
        "3f06400162004001610462626262be",
        &[("b", ""), ("a", "bbbb"), ("a", "bbbb")],
    ),
    // an entry of 55 bytes stays in a table of 64
    (
        "3f21400a637573746f6d2d6b65790d637573746f6d2d686561646572be",
        &[
            ("custom-key", "custom-header"),
            ("custom-key", "custom-header"),
        ],
    ),
];

#[test]
fn a_block_is_taken_at_the_limits(rt: HostRuntime) -> Result<(), Fail> {
    for (hex, wanted) in TAKEN {
        assert_blocks(&rt, rt.alloc(), 4_096, &[hex], &[wanted])?;
    }
    Ok(())
}

/// The bytes of some hex, and then these bytes `count` times.
fn followed_by(alloc: Global, hex: &str, bytes: &[u8], count: usize) -> Result<Bytes, OutOfMemory> {
    let mut block = bytes_of(alloc, hex)?;
    for _ in 0..count {
        block.push_slice(bytes)?;
    }
    Ok(block)
}

#[test]
fn a_list_of_16384_bytes_is_the_largest(rt: HostRuntime) -> Result<(), Fail> {
    // By section 4.1 a header has 32 bytes besides its name and its value: ":method: GET" has 42, and "a" with a value of 16,309
    // bytes has the rest. The lengths are spelled by section 5.1.
    let cases = [
        ("1001617fe07e", 16_351, None),
        (
            "1001617fe17e",
            16_352,
            Some(HpackFault::ListTooLong { at: 0 }),
        ),
        ("821001617fb67e", 16_309, None),
        (
            "821001617fb77e",
            16_310,
            Some(HpackFault::ListTooLong { at: 1 }),
        ),
    ];
    for (front, len, wanted) in cases {
        let block = followed_by(rt.alloc(), front, b"b", len)?;
        assert_eq!(rt; fault_of(rt.alloc(), block.as_slice()), wanted, "{front}");
    }
    Ok(())
}

#[test]
fn the_last_entry_of_a_full_table_has_an_index(rt: HostRuntime) -> Result<(), Fail> {
    // An entry of 64 bytes and 126 of 32 fill the table. The first has the index 61 + 127, and is evicted by one more.
    let first = "4001611f62626262626262626262626262626262626262626262626262626262626262";
    let mut block = followed_by(rt.alloc(), first, b"\x40\x00\x00", 126)?;
    block.push_slice(b"\xff\x3d")?;
    let mut table = Table::new(rt.alloc(), 4_096);
    let headers = decode_block(rt.alloc(), &mut table, block.as_slice())?;
    let last = headers.as_slice().last().ok_or("there are 128")?;
    assert_eq!(rt; headers.len(), 128);
    assert_eq!(rt; last.value.len(), 31);
    let headers = decode_block(rt.alloc(), &mut table, b"\x40\x00\x00\xff\x3d")?;
    assert_headers(&rt, "evicted", &headers, &[("", ""), ("", "")]);
    let refused = decode_block(rt.alloc(), &mut table, b"\xff\x40").err();
    assert_eq!(rt; refused, Some(HpackFault::BadIndex { at: 0 }));
    Ok(())
}

#[test]
fn a_coded_string_of_8001_bytes_is_read(rt: HostRuntime) -> Result<(), Fail> {
    // The code of "0" is 00000, so 12,801 of them and three ones fill 8,001 bytes.
    let mut block = followed_by(rt.alloc(), "100161ffc23d", b"\x00", 8_000)?;
    block.push_slice(b"\x07")?;
    let mut table = Table::new(rt.alloc(), 4_096);
    let headers = decode_block(rt.alloc(), &mut table, block.as_slice())?;
    let text = followed_by(rt.alloc(), "", b"0", 12_801)?;
    let header = headers.as_slice().first().ok_or("there is one")?;
    assert_eq!(rt; header.value.as_slice(), text.as_slice());
    Ok(())
}

#[test]
fn a_text_of_12801_bytes_is_coded_and_read(rt: HostRuntime) -> Result<(), Fail> {
    let text = followed_by(rt.alloc(), "", b"0", 12_801)?;
    let coded = huffman_encode(rt.alloc(), text.as_slice())?;
    assert_eq!(rt; coded.len(), 8_001);
    let back = huffman_decode(rt.alloc(), coded.as_slice())?;
    assert_eq!(rt; back.as_slice(), text.as_slice());
    Ok(())
}
