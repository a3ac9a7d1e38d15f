//! Frames that are read. The bytes of each row are the standard's layouts (RFC 9113, section 6), spelled by hand.

use super::*;
use std::process::Abort;

const DATA: [(&[u8], Row<'static>); 6] = [
    // plain, empty with END_STREAM, with unknown flags and the reserved bit, and padded
    (
        b"\0\0\x02\x00\x00\0\0\0\x01ab",
        (0, 1, 2, b"ab", false, false),
    ),
    (b"\0\0\0\x00\x01\0\0\0\x03", (0, 3, 0, b"", true, false)),
    (
        b"\0\0\x01\x00\xf6\x80\0\0\x01z",
        (0, 1, 1, b"z", false, false),
    ),
    (
        b"\0\0\x05\x00\x08\x7f\xff\xff\xff\x02ab\0\0",
        (0, 0x7fff_ffff, 5, b"ab", false, false),
    ),
    // The padding is all that is left, or there is none.
    (
        b"\0\0\x03\x00\x09\0\0\0\x01\x02ab",
        (0, 1, 3, b"", true, false),
    ),
    (
        b"\0\0\x01\x00\x08\0\0\0\x01\0",
        (0, 1, 1, b"", false, false),
    ),
];

// each flag, and all of them
const HEADERS: [(&[u8], Row<'static>); 8] = [
    (
        b"\0\0\x01\x01\x00\0\0\0\x01x",
        (1, 1, 0, b"x", false, false),
    ),
    (b"\0\0\x01\x01\x01\0\0\0\x01x", (1, 1, 0, b"x", true, false)),
    (b"\0\0\x01\x01\x04\0\0\0\x01x", (1, 1, 0, b"x", false, true)),
    (
        b"\0\0\x03\x01\x0c\0\0\0\x01\x01x\0",
        (1, 1, 0, b"x", false, true),
    ),
    (
        b"\0\0\x06\x01\x24\0\0\0\x01\x80\0\0\x03\x10x",
        (1, 1, 0, b"x", false, true),
    ),
    (
        b"\0\0\x08\x01\x2d\0\0\0\x01\x01\0\0\0\x03\x10x\0",
        (1, 1, 0, b"x", true, true),
    ),
    (
        b"\0\0\x06\x01\x28\0\0\0\x01\0\0\0\0\x03\x10",
        (1, 1, 0, b"", false, false),
    ),
    (
        b"\0\0\x02\x09\x04\0\0\0\x01hb",
        (9, 1, 0, b"hb", false, true),
    ),
];

const CONTROL: [(&[u8], Row<'static>); 13] = [
    (
        b"\0\0\x05\x02\x00\0\0\0\x05abcde",
        (2, 5, 0, b"", false, false),
    ),
    (
        b"\0\0\x04\x03\x00\0\0\0\x07\x01\x02\x03\x08",
        (3, 7, 0x0102_0308, b"", false, false),
    ),
    (b"\0\0\0\x04\x00\0\0\0\0", (4, 0, 0, b"", false, false)),
    (b"\0\0\0\x04\x01\x80\0\0\0", (4, 0, 0, b"", true, false)),
    (
        b"\0\0\x06\x04\x00\0\0\0\0\0\x03\0\0\0\x64",
        (4, 0, 0, b"", false, false),
    ),
    (
        b"\0\0\x02\x05\x04\0\0\0\x09ab",
        (5, 9, 0, b"", false, false),
    ),
    (
        b"\0\0\x08\x06\x00\0\0\0\0abcdefgh",
        (6, 0, 0, b"abcdefgh", false, false),
    ),
    (
        b"\0\0\x08\x06\x01\0\0\0\0abcdefgh",
        (6, 0, 0, b"abcdefgh", true, false),
    ),
    (
        b"\0\0\x08\x07\x00\0\0\0\0\x80\0\0\x05\0\0\0\x0b",
        (7, 5, 11, b"", false, false),
    ),
    (
        b"\0\0\x0a\x07\x00\0\0\0\0\0\0\0\x05\0\0\0\x0bno",
        (7, 5, 11, b"", false, false),
    ),
    (
        b"\0\0\x04\x08\x00\0\0\0\0\xff\xff\xff\xff",
        (8, 0, 0x7fff_ffff, b"", false, false),
    ),
    (
        b"\0\0\x04\x08\x00\x80\0\0\x02\0\0\0\0",
        (8, 2, 0, b"", false, false),
    ),
    (
        b"\0\0\x01\x0a\xff\0\0\0\x01?",
        (10, 0, 0, b"", false, false),
    ),
];

/// The bytes are this frame, at whichever place they are cut.
fn is_read(rt: &impl Abort, alloc: Global, bytes: &[u8], wanted: Row<'_>) -> Result<(), Fail> {
    for cut in 0..bytes.len() {
        let mut reader = FrameReader::new(alloc, false);
        feed(&mut reader, &bytes[..cut])?;
        assert!(rt; waits(&mut reader), "{bytes:?}");
        feed(&mut reader, &bytes[cut..])?;
        let (at, frame) = take(&mut reader)?;
        assert_eq!(rt; row_of(&frame), wanted);
        assert_eq!(rt; at, 0);
        assert!(rt; waits(&mut reader), "{bytes:?}");
        assert_eq!(rt; reader.rest_at(), None);
    }
    Ok(())
}

#[test]
fn data_is_read(rt: HostRuntime) -> Result<(), Fail> {
    for (bytes, wanted) in DATA {
        is_read(&rt, rt.alloc(), bytes, wanted)?;
    }
    Ok(())
}

#[test]
fn header_blocks_are_read(rt: HostRuntime) -> Result<(), Fail> {
    for (bytes, wanted) in HEADERS {
        is_read(&rt, rt.alloc(), bytes, wanted)?;
    }
    Ok(())
}

#[test]
fn control_frames_are_read(rt: HostRuntime) -> Result<(), Fail> {
    for (bytes, wanted) in CONTROL {
        is_read(&rt, rt.alloc(), bytes, wanted)?;
    }
    Ok(())
}

#[test]
fn settings_keep_their_order(rt: HostRuntime) -> Result<(), Fail> {
    let bytes = b"\0\0\x12\x04\0\0\0\0\0\0\x03\0\0\0\x64\xff\xff\xff\xff\xff\xff\0\x03\0\x01\0\0";
    let mut reader = FrameReader::new(rt.alloc(), false);
    feed(&mut reader, bytes)?;
    let (_, frame) = take(&mut reader)?;
    let Frame::Settings { values, .. } = frame else {
        return Err("SETTINGS".into());
    };
    let wanted = [(3, 100), (0xffff, 0xffff_ffff), (3, 0x0001_0000)];
    assert_eq!(rt; values.as_slice(), wanted.as_slice());
    Ok(())
}
