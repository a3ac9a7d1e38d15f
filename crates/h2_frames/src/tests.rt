use super::*;
use std::alloc::Global;
use std::test::*;

mod faults;
mod limits;
mod pieces;
mod reading;
mod writing;

/// What a client sends first (RFC 9113, section 3.4).
const PREFACE: &[u8] = b"PRI * HTTP/2.0\r\n\r\nSM\r\n\r\n";

/// A PING, as its 17 bytes.
const PING: &[u8] = b"\0\0\x08\x06\0\0\0\0\0\x01\x02\x03\x04\x05\x06\x07\x08";

/// A frame without its settings: its type, stream, number (size, code or increment), bytes, whether END_STREAM or ACK is
/// set, and whether END_HEADERS is.
type Row<'a> = (u8, u32, u32, &'a [u8], bool, bool);

fn row_of(frame: &Frame) -> Row<'_> {
    match frame {
        Frame::Data {
            stream,
            bytes,
            size,
            end,
        } => (0, *stream, *size, bytes.as_slice(), *end, false),
        Frame::Headers {
            stream,
            block,
            end,
            whole,
        } => (1, *stream, 0, block.as_slice(), *end, *whole),
        Frame::Priority { stream } => (2, *stream, 0, &[], false, false),
        Frame::Reset { stream, code } => (3, *stream, *code, &[], false, false),
        Frame::Settings { ack, .. } => (4, 0, 0, &[], *ack, false),
        Frame::Push { stream } => (5, *stream, 0, &[], false, false),
        Frame::Ping { ack, bytes } => (6, 0, 0, bytes, *ack, false),
        Frame::GoAway { last, code } => (7, *last, *code, &[], false, false),
        Frame::Window { stream, add } => (8, *stream, *add, &[], false, false),
        Frame::Continuation {
            stream,
            block,
            whole,
        } => (9, *stream, 0, block.as_slice(), false, *whole),
        Frame::Unknown { kind } => (*kind, 0, 0, &[], false, false),
    }
}

/// Feeds a piece of at most 20,000 bytes.
fn feed(reader: &mut FrameReader, bytes: &[u8]) -> Result<(), Fail> {
    if reader.fed() > 1_000_000 || bytes.len() > 20_000 {
        return Err("too many bytes".into());
    }
    reader.feed(bytes).ok().ok_or("memory")?;
    Ok(())
}

/// The next frame, with its place.
fn take(reader: &mut FrameReader) -> Result<(u64, Frame), Fail> {
    let frame = reader.next().ok().flatten().ok_or("a frame")?;
    Ok(frame)
}

/// Whether no whole frame is there, and no refusal.
fn waits(reader: &mut FrameReader) -> bool {
    matches!(reader.next(), Ok(None))
}

fn refusal(reader: &mut FrameReader) -> Option<FrameFault> {
    reader.next().err()
}
