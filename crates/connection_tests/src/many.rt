//! A connection with more streams than it may have.

use crate::served::{Peer, serve};
use crate::wire::*;
use casd_connection::ConnEnd;
use std::alloc::Global;
use std::process::Abort;
use std::test::*;

/// Appends a frame of stream 1 as one of this stream.
fn append(bytes: &mut Vec<u8>, frame: &[u8], stream: u32) -> Result<(), Fail> {
    let (head, rest) = frame.split_at_checked(5).ok_or("no frame")?;
    let (_, body) = rest.split_at_checked(4).ok_or("no frame")?;
    bytes.extend_from_slice(head)?;
    bytes.extend_from_slice(&stream.to_be_bytes())?;
    bytes.extend_from_slice(body)?;
    Ok(())
}

/// The streams 1, 3, 5, and so on, so many.
fn stream(number: u32) -> u32 {
    number.saturating_mul(2).saturating_add(1)
}

/// 101 calls begin, and then the messages of all but the last come.
fn calls(alloc: Global) -> Result<Vec<u8>, Fail> {
    let mut bytes = Vec::from_slice(alloc, OPENING)?;
    'begins: for number in 0..101 {
        append(&mut bytes, ASKS_CAPABILITIES, stream(number))?;
    }
    'messages: for number in 0..100 {
        append(&mut bytes, EMPTY_MESSAGE, stream(number))?;
    }
    Ok(bytes)
}

fn answers(alloc: Global) -> Result<Vec<u8>, Fail> {
    let mut bytes = Vec::from_slice(alloc, SETTINGS)?;
    bytes.extend_from_slice(ACK)?;
    append(&mut bytes, REFUSED, stream(100))?;
    'answers: for number in 0..100 {
        bytes.extend_from_slice(GRANT_5)?;
        append(&mut bytes, BEGUN, stream(number))?;
        append(&mut bytes, CAPABILITIES, stream(number))?;
        append(&mut bytes, OK, stream(number))?;
    }
    Ok(bytes)
}

#[test]
fn the_101st_stream_is_refused_and_the_others_are_answered(rt: HostRuntime) -> Result<(), Fail> {
    let alloc = rt.alloc();
    let input = calls(alloc)?;
    let served = serve(&rt, alloc, Peer::sending(&[input.as_slice()]))?;
    assert_eq!(rt; served.written.as_slice(), answers(alloc)?.as_slice());
    assert_eq!(rt; served.report.end, ConnEnd::Done);
    Ok(())
}
