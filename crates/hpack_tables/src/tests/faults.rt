//! Blocks that are refused, and where, by RFC 7541, sections 4.2 to 4.4, 5.1, 5.2 and 6. The decoder of python3-hpack refuses
//! each too, but tells no place and has no limit of integers: 2^32 - 1, and five bytes after the prefix, are the limits of this
//! crate.

use crate::tests::{assert_headers, bytes_of, fault_of};
use crate::*;
use std::alloc::Global;
use std::process::Abort;
use std::test::*;

/// Blocks with an index that has no entry, and the place of its representation.
const INDEXES: [(&str, usize); 10] = [
    // index 0, the first after the static table, and the largest integer
    ("80", 0),
    ("be", 0),
    ("ff80ffffff0f", 0),
    // past the only entry of the dynamic table
    ("4001610162bf", 5),
    // that of an entry that was evicted
    ("3f06400162004001610462626262bf", 14),
    // that of a name, in a literal that is added and in one that is not
    ("827e00", 1),
    ("820f2f00", 1),
    // after a literal that is not added, and after one that never is
    ("0001610162be", 5),
    ("1001610162be", 5),
    // after an entry of 65 bytes in a table of 64
    (LARGE_ENTRY, 64),
];

/// A maximum of 64 bytes, an entry of 55, one of 65, and the first index of the dynamic table.
const LARGE_ENTRY: &str =
    "3f21400a637573746f6d2d6b65790d637573746f6d2d686561646572400161206262626262626262626262626262626262626262626262626262626262626262be";

/// Blocks with a size update to 4,097 bytes or after a header, and its place.
const UPDATES: [(&str, usize); 3] = [("3fe21f", 0), ("8220", 1), ("208220", 2)];

/// Blocks with an integer of 2^32 or more, or of six bytes after the prefix, and the place of its representation.
const INTEGERS: [(&str, usize); 5] = [
    // an index
    ("ff81ffffff0f", 0),
    ("ff8080808010", 0),
    ("ff808080808000", 0),
    // a maximum
    ("3fe1ffffff0f", 0),
    // a length
    ("82407f81ffffff0f", 1),
];

/// Blocks that end in an integer of five bytes that goes on, and in a string of 2^32 - 1 bytes; and the place of the
/// representation.
const CUT: [(&str, usize); 2] = [("ff8080808080", 0), ("82407f80ffffff0f", 1)];

/// Asserts that a block is refused so on a new table.
fn assert_refused(
    rt: &impl Abort,
    alloc: Global,
    hex: &str,
    fault: HpackFault,
) -> Result<(), Fail> {
    let block = bytes_of(alloc, hex)?;
    assert_eq!(rt; fault_of(alloc, block.as_slice()), Some(fault), "{hex}");
    Ok(())
}

#[test]
fn an_index_without_an_entry_is_refused(rt: HostRuntime) -> Result<(), Fail> {
    for (hex, at) in INDEXES {
        assert_refused(&rt, rt.alloc(), hex, HpackFault::BadIndex { at })?;
    }
    Ok(())
}

#[test]
fn a_large_or_late_size_update_is_refused(rt: HostRuntime) -> Result<(), Fail> {
    for (hex, at) in UPDATES {
        assert_refused(&rt, rt.alloc(), hex, HpackFault::BadUpdate { at })?;
    }
    Ok(())
}

#[test]
fn an_integer_above_the_limits_is_refused(rt: HostRuntime) -> Result<(), Fail> {
    for (hex, at) in INTEGERS {
        assert_refused(&rt, rt.alloc(), hex, HpackFault::BadInt { at })?;
    }
    Ok(())
}

#[test]
fn a_block_that_ends_too_early_is_refused(rt: HostRuntime) -> Result<(), Fail> {
    for (hex, at) in CUT {
        assert_refused(&rt, rt.alloc(), hex, HpackFault::Truncated { at })?;
    }
    Ok(())
}

#[test]
fn a_malformed_coded_string_is_refused(rt: HostRuntime) -> Result<(), Fail> {
    // the five bits of "0", and zeros where the padding would be
    let fault = HpackFault::BadHuffman { at: 1 };
    assert_refused(&rt, rt.alloc(), "8200810000", fault)
}

#[test]
fn a_literal_is_refused_wherever_it_is_cut(rt: HostRuntime) -> Result<(), Fail> {
    // an indexed header and the literal of section C.2.1
    let block = bytes_of(
        rt.alloc(),
        "82400a637573746f6d2d6b65790d637573746f6d2d686561646572",
    )?;
    let block = block.as_slice();
    assert_eq!(rt; block.len(), 27);
    assert_eq!(rt; fault_of(rt.alloc(), &block[..1]), None);
    for cut in 2..27 {
        let refused = fault_of(rt.alloc(), &block[..cut]);
        assert_eq!(rt; refused, Some(HpackFault::Truncated { at: 1 }), "{cut}");
    }
    Ok(())
}

#[test]
fn a_table_answers_its_first_refusal_for_good(rt: HostRuntime) -> Result<(), Fail> {
    let mut table = Table::new(rt.alloc(), 4_096);
    for hex in ["8280", "82", "3fe21f", ""] {
        let block = bytes_of(rt.alloc(), hex)?;
        let refused = decode_block(rt.alloc(), &mut table, block.as_slice()).err();
        assert_eq!(rt; refused, Some(HpackFault::BadIndex { at: 1 }), "{hex}");
    }
    Ok(())
}

#[test]
fn a_smaller_maximum_evicts(rt: HostRuntime) -> Result<(), Fail> {
    // by sections 4.2 and 4.3: an entry of 34 bytes stays at a maximum of 34, and goes at one of 33
    let mut table = Table::new(rt.alloc(), 4_096);
    for hex in ["4001610162", "3f03be"] {
        let block = bytes_of(rt.alloc(), hex)?;
        let headers = decode_block(rt.alloc(), &mut table, block.as_slice())?;
        assert_headers(&rt, hex, &headers, &[("a", "b")]);
    }
    let block = bytes_of(rt.alloc(), "3f02be")?;
    let refused = decode_block(rt.alloc(), &mut table, block.as_slice()).err();
    assert_eq!(rt; refused, Some(HpackFault::BadIndex { at: 2 }));
    Ok(())
}
