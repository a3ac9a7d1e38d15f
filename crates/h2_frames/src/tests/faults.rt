//! Malformed frames: of each all bytes that are needed to see it, and no byte more.

use super::*;
use std::process::Abort;

const LONG: FrameFault = FrameFault::TooLong { at: 0 };

const STREAM: FrameFault = FrameFault::BadStream { at: 0 };

const LENGTH: FrameFault = FrameFault::BadLength { at: 0 };

const PADDING: FrameFault = FrameFault::BadPadding { at: 0 };

const STREAMS: [(&[u8], FrameFault); 13] = [
    (b"\0\x40\x01\x00\0\0\0\0\x01", LONG),
    // The length comes before the stream, and the stream before another length.
    (b"\0\x40\x01\x00\0\0\0\0\0", LONG),
    (b"\xff\xff\xff\x0a\0\0\0\0\0", LONG),
    (b"\0\0\x04\x02\0\0\0\0\0", STREAM),
    (b"\0\0\0\x00\0\0\0\0\0", STREAM),
    (b"\0\0\0\x00\0\x80\0\0\0", STREAM),
    (b"\0\0\0\x01\0\0\0\0\0", STREAM),
    (b"\0\0\x05\x02\0\0\0\0\0", STREAM),
    (b"\0\0\x04\x03\0\0\0\0\0", STREAM),
    (b"\0\0\0\x09\0\0\0\0\0", STREAM),
    (b"\0\0\0\x04\0\0\0\0\x01", STREAM),
    (b"\0\0\x08\x06\0\0\0\x01\0", STREAM),
    (b"\0\0\x08\x07\0\x01\0\0\0", STREAM),
];

const LENGTHS: [(&[u8], FrameFault); 15] = [
    (b"\0\0\x04\x02\0\0\0\0\x01", LENGTH),
    (b"\0\0\x05\x03\0\0\0\0\x01", LENGTH),
    (b"\0\0\x03\x08\0\0\0\0\0", LENGTH),
    (b"\0\0\x09\x06\0\0\0\0\0", LENGTH),
    (b"\0\0\x07\x07\0\0\0\0\0", LENGTH),
    (b"\0\0\x05\x04\0\0\0\0\0", LENGTH),
    (b"\0\0\x06\x04\x01\0\0\0\0", LENGTH),
    (b"\0\0\0\x00\x08\0\0\0\x01", LENGTH),
    (b"\0\0\x04\x01\x20\0\0\0\x01", LENGTH),
    (b"\0\0\x05\x01\x28\0\0\0\x01", LENGTH),
    (b"\0\0\x01\x00\x08\0\0\0\x01\x01", PADDING),
    (b"\0\0\x03\x00\x08\0\0\0\x01\x03ab", PADDING),
    (b"\0\0\x02\x01\x08\0\0\0\x01\xffa", PADDING),
    (b"\0\0\x06\x01\x28\0\0\0\x01\x01\0\0\0\0\0", PADDING),
    (b"\0\0\x07\x01\x28\0\0\0\x01\x02\0\0\0\0\0a", PADDING),
];

/// The bytes are refused so, at whichever place they are cut, and whatever follows.
fn is_refused(rt: &impl Abort, alloc: Global, bytes: &[u8], fault: FrameFault) -> Result<(), Fail> {
    for cut in 0..bytes.len() {
        let mut reader = FrameReader::new(alloc, false);
        feed(&mut reader, &bytes[..cut])?;
        assert!(rt; waits(&mut reader), "{bytes:?}");
        feed(&mut reader, &bytes[cut..])?;
        assert_eq!(rt; refusal(&mut reader), Some(fault), "{bytes:?}");
        feed(&mut reader, PING)?;
        assert_eq!(rt; refusal(&mut reader), Some(fault), "{bytes:?}");
        assert_eq!(rt; reader.rest_at(), Some(0));
        assert_eq!(rt; reader.held(), bytes.len() as u64);
    }
    Ok(())
}

#[test]
fn a_payload_that_is_too_long_and_a_wrong_stream_are_refused(rt: HostRuntime) -> Result<(), Fail> {
    for (bytes, fault) in STREAMS {
        is_refused(&rt, rt.alloc(), bytes, fault)?;
    }
    Ok(())
}

#[test]
fn a_wrong_length_and_too_much_padding_are_refused(rt: HostRuntime) -> Result<(), Fail> {
    for (bytes, fault) in LENGTHS {
        is_refused(&rt, rt.alloc(), bytes, fault)?;
    }
    Ok(())
}

#[test]
fn a_refusal_has_the_place_of_its_frame(rt: HostRuntime) -> Result<(), Fail> {
    let mut reader = FrameReader::new(rt.alloc(), true);
    feed(&mut reader, PREFACE)?;
    feed(&mut reader, b"\0\0\0\x04\0\0\0\0\0\0\0\0\x04\0\0\0\0\x01")?;
    let (at, _) = take(&mut reader)?;
    assert_eq!(rt; at, 24);
    assert_eq!(rt; reader.rest_at(), Some(33));
    let fault = FrameFault::BadStream { at: 33 };
    assert_eq!(rt; refusal(&mut reader), Some(fault));
    assert_eq!(rt; reader.rest_at(), Some(33));
    Ok(())
}
