//! Frames in pieces, the preface, and what is kept.

use super::*;

/// The preface, SETTINGS, an unknown type, padded DATA, and WINDOW_UPDATE.
const STREAM: &[u8] =
    b"PRI * HTTP/2.0\r\n\r\nSM\r\n\r\n\0\0\0\x04\0\0\0\0\0\0\0\x02\x63\x01\0\0\0\x01??\0\0\x04\0\x09\0\0\0\x01\x01ab\0\0\0\x04\x08\0\0\0\0\0\0\0\0\x05";

const FRAMES: [(u64, Row<'static>); 4] = [
    (24, (4, 0, 0, b"", false, false)),
    (33, (99, 0, 0, b"", false, false)),
    (44, (0, 1, 4, b"ab", true, false)),
    (57, (8, 0, 5, b"", false, false)),
];

#[test]
fn frames_follow_the_preface_each_with_its_place(rt: HostRuntime) -> Result<(), Fail> {
    for cut in 0..STREAM.len() {
        let mut reader = FrameReader::new(rt.alloc(), true);
        feed(&mut reader, &STREAM[..cut])?;
        let mut rest = &STREAM[cut..];
        for (place, wanted) in FRAMES {
            let mut next = reader.next().ok().flatten();
            if next.is_none() {
                feed(&mut reader, rest)?;
                rest = &[];
                next = reader.next().ok().flatten();
            }
            let (at, frame) = next.ok_or("a frame")?;
            assert_eq!(rt; row_of(&frame), wanted);
            assert_eq!(rt; at, place);
        }
        assert!(rt; waits(&mut reader));
        assert_eq!(rt; reader.rest_at(), None);
    }
    Ok(())
}

#[test]
fn a_ping_in_two_pieces_is_one_frame(rt: HostRuntime) -> Result<(), Fail> {
    for cut in 1..PING.len() {
        let mut reader = FrameReader::new(rt.alloc(), false);
        feed(&mut reader, &PING[..cut])?;
        assert!(rt; waits(&mut reader));
        assert_eq!(rt; reader.rest_at(), Some(0));
        assert_eq!(rt; reader.held(), cut as u64);
        feed(&mut reader, &PING[cut..])?;
        let (at, frame) = take(&mut reader)?;
        assert_eq!(rt; row_of(&frame), (6, 0, 0, &PING[9..], false, false));
        assert_eq!(rt; at, 0);
        assert!(rt; waits(&mut reader));
        assert_eq!(rt; reader.held(), 0);
    }
    Ok(())
}

#[test]
fn the_preface_is_compared_byte_by_byte(rt: HostRuntime) -> Result<(), Fail> {
    for cut in 0..PREFACE.len() {
        let mut reader = FrameReader::new(rt.alloc(), true);
        feed(&mut reader, &PREFACE[..cut])?;
        assert!(rt; waits(&mut reader));
        assert_eq!(rt; reader.rest_at(), if cut == 0 { None } else { Some(0) });
        feed(&mut reader, b"x")?;
        let fault = FrameFault::BadPreface { at: cut as u64 };
        assert_eq!(rt; refusal(&mut reader), Some(fault));
        assert_eq!(rt; refusal(&mut reader), Some(fault));
        assert_eq!(rt; reader.rest_at(), Some(0));
    }
    Ok(())
}

/// Two frames and 5 bytes of a third are kept until the reader waits, and then the 5 bytes.
#[test]
fn what_was_given_out_is_let_go(rt: HostRuntime) -> Result<(), Fail> {
    let mut reader = FrameReader::new(rt.alloc(), false);
    feed(&mut reader, PING)?;
    feed(&mut reader, PING)?;
    feed(&mut reader, &PING[..5])?;
    for place in [0, 17] {
        let (at, _) = take(&mut reader)?;
        assert_eq!(rt; at, place);
        assert_eq!(rt; reader.held(), 39);
    }
    assert!(rt; waits(&mut reader));
    assert_eq!(rt; reader.held(), 5);
    assert_eq!(rt; reader.rest_at(), Some(34));
    assert_eq!(rt; reader.fed(), 39);
    Ok(())
}
