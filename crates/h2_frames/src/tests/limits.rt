//! The longest frames: 16,384 bytes of payload.

use super::*;
use proto_wire::{Bytes, Listed};

/// A DATA frame with 16,384 bytes, as it is written.
fn full_data(alloc: Global) -> Result<Bytes, Fail> {
    let bytes = Bytes::from_vec(vec![in alloc; 0x5au8; 16_384]?);
    let frame = Frame::Data {
        stream: 1,
        bytes,
        size: 16_384,
        end: false,
    };
    let mut out = Bytes::new(alloc);
    write_frame(&frame, &mut out).ok().ok_or("memory")?;
    Ok(out)
}

#[test]
fn full_data_is_written_and_read(rt: HostRuntime) -> Result<(), Fail> {
    let out = full_data(rt.alloc())?;
    let halves = out.as_slice().split_at_checked(16_392);
    let (first, last) = halves.ok_or("16,393 bytes")?;
    let mut reader = FrameReader::new(rt.alloc(), false);
    feed(&mut reader, first)?;
    assert!(rt; waits(&mut reader));
    assert_eq!(rt; reader.held(), 16_392);
    feed(&mut reader, last)?;
    let (_, frame) = take(&mut reader)?;
    let (kind, _, size, data, ..) = row_of(&frame);
    assert_eq!(rt; (kind, size, data.len()), (0, 16_384, 16_384));
    assert!(rt; waits(&mut reader));
    assert_eq!(rt; reader.held(), 0);
    Ok(())
}

/// 2,730 settings have 16,380 bytes.
#[test]
fn full_settings_are_written_and_read(rt: HostRuntime) -> Result<(), Fail> {
    let values = Listed::from_vec(vec![in rt.alloc(); (3u16, 100u32); 2_730]?);
    let frame = Frame::Settings { ack: false, values };
    let mut out = Bytes::new(rt.alloc());
    write_frame(&frame, &mut out).ok().ok_or("memory")?;
    let mut reader = FrameReader::new(rt.alloc(), false);
    feed(&mut reader, out.as_slice())?;
    let (_, frame) = take(&mut reader)?;
    let Frame::Settings { values, .. } = frame else {
        return Err("SETTINGS".into());
    };
    assert_eq!(rt; values.len(), 2_730);
    assert!(rt; waits(&mut reader));
    Ok(())
}
