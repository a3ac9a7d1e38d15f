//! Frames that are written.

ghost use Rattle.std.specs.Prelude.{◌≡◌, IfOk};
ghost use Rattle.h2_frames.specs.Spelling.{Writable};

use super::*;
use proto_wire::{Bytes, Listed};
use std::process::Abort;

fn copied(alloc: Global, bytes: &[u8]) -> Result<Bytes, Fail>
    ensures { IfOk result (λ b. b ≡ bytes.now) }
{
    let copy = Bytes::copy_of(alloc, bytes).ok().ok_or("memory")?;
    Ok(copy)
}

fn is_written(rt: &impl Abort, alloc: Global, frame: &Frame, wanted: &[u8]) -> Result<(), Fail>
    requires { Writable frame.now }
{
    let mut out = Bytes::new(alloc);
    write_frame(frame, &mut out).ok().ok_or("memory")?;
    assert_eq!(rt; out.as_slice(), wanted);
    Ok(())
}

#[test]
fn data_is_written(rt: HostRuntime) -> Result<(), Fail> {
    let frame = Frame::Data {
        stream: 0x0102_0304,
        bytes: copied(rt.alloc(), b"ab")?,
        size: 2,
        end: true,
    };
    is_written(&rt, rt.alloc(), &frame, b"\0\0\x02\0\x01\x01\x02\x03\x04ab")
}

#[test]
fn headers_are_written(rt: HostRuntime) -> Result<(), Fail> {
    let frame = Frame::Headers {
        stream: 1,
        block: copied(rt.alloc(), b"x")?,
        end: true,
        whole: true,
    };
    is_written(&rt, rt.alloc(), &frame, b"\0\0\x01\x01\x05\0\0\0\x01x")
}

#[test]
fn a_continuation_is_written(rt: HostRuntime) -> Result<(), Fail> {
    let frame = Frame::Continuation {
        stream: 1,
        block: copied(rt.alloc(), b"x")?,
        whole: false,
    };
    is_written(&rt, rt.alloc(), &frame, b"\0\0\x01\x09\0\0\0\0\x01x")
}

#[test]
fn settings_are_written(rt: HostRuntime) -> Result<(), Fail> {
    let mut values = Listed::new(rt.alloc());
    values.push((0x0102, 0x0304_0506)).ok().ok_or("memory")?;
    let frame = Frame::Settings { ack: false, values };
    is_written(
        &rt,
        rt.alloc(),
        &frame,
        b"\0\0\x06\x04\0\0\0\0\0\x01\x02\x03\x04\x05\x06",
    )?;
    let values = Listed::new(rt.alloc());
    let frame = Frame::Settings { ack: true, values };
    is_written(&rt, rt.alloc(), &frame, b"\0\0\0\x04\x01\0\0\0\0")
}

#[test]
fn frames_of_a_stream_are_written(rt: HostRuntime) -> Result<(), Fail> {
    let frame = Frame::Priority { stream: 3 };
    is_written(
        &rt,
        rt.alloc(),
        &frame,
        b"\0\0\x05\x02\0\0\0\0\x03\0\0\0\0\0",
    )?;
    let frame = Frame::Reset { stream: 3, code: 8 };
    is_written(
        &rt,
        rt.alloc(),
        &frame,
        b"\0\0\x04\x03\0\0\0\0\x03\0\0\0\x08",
    )?;
    let frame = Frame::Push { stream: 3 };
    is_written(&rt, rt.alloc(), &frame, b"\0\0\0\x05\0\0\0\0\x03")
}

#[test]
fn frames_of_the_connection_are_written(rt: HostRuntime) -> Result<(), Fail> {
    let bytes = *b"abcdefgh";
    let frame = Frame::Ping { ack: true, bytes };
    is_written(&rt, rt.alloc(), &frame, b"\0\0\x08\x06\x01\0\0\0\0abcdefgh")?;
    let frame = Frame::GoAway { last: 5, code: 2 };
    is_written(
        &rt,
        rt.alloc(),
        &frame,
        b"\0\0\x08\x07\0\0\0\0\0\0\0\0\x05\0\0\0\x02",
    )?;
    let add = 0x7fff_ffff;
    let frame = Frame::Window { stream: 0, add };
    is_written(
        &rt,
        rt.alloc(),
        &frame,
        b"\0\0\x04\x08\0\0\0\0\0\x7f\xff\xff\xff",
    )?;
    let frame = Frame::Unknown { kind: 99 };
    is_written(&rt, rt.alloc(), &frame, b"\0\0\0\x63\0\0\0\0\0")
}
