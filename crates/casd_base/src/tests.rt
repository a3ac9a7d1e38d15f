ghost use Rattle.std.specs.Prelude.{◌≡◌, ℕ};

use super::*;
use proto_wire::OutOfMemory;
use std::alloc::Global;
use std::io;
use std::io::{ErrorKind, Read, Write};
use std::test::*;

fn mem_link(alloc: Global, input: &[u8], cuts: &[usize], failing: &[u64]) -> Result<MemLink, Fail> {
    let input = Vec::from_slice(alloc, input)?;
    let cuts = Vec::from_slice(alloc, cuts)?;
    let failing = Vec::from_slice(alloc, failing)?;
    Ok(MemLink::new(alloc, input, cuts, failing))
}

// Reads until the end, and answers how many bytes came and how many reads failed.
fn drain<S: Source>(source: &mut S, buf: &mut [u8]) -> (usize, usize) {
    let mut at = 0usize;
    let mut failed = 0usize;
    // more than any source here needs
    for _ in 0..40 {
        let Some(rest) = buf.get_mut(at..) else {
            break;
        };
        match source.read(rest) {
            Ok(0) => break,
            Ok(count) => at = at.saturating_add(count),
            Err(Failed) => failed = failed.saturating_add(1),
        }
    }
    (at, failed)
}

// Writes the bytes where there are some, and else reads.
fn call<L: Link>(link: &mut L, bytes: Option<&[u8]>, buf: &mut [u8]) -> Result<usize, SinkEnd> {
    match bytes {
        Some(bytes) => link.write(bytes),
        None => Ok(read_noting(link, buf)?),
    }
}

// Reads. Where that finds the end of a link that tells it, what is noted is what had been written.
fn read_noting<L: Link>(link: &mut L, buf: &mut [u8]) -> Result<usize, Failed>
    ensures { (n : ℕ) → L.at_end link.old ≡ Some None → L.at_end link.new ≡ Some (Some n) → L.sent link.old ≡ Some n }
{
    link.read(buf)
}

// A reader that gives one byte a call, but for the call that is interrupted and the one that fails, counted from 0.
#[derive(Drop)]
struct Uneven<'a> {
    bytes: &'a [u8],
    calls: usize,
    interrupted: usize,
    broken: usize,
}

impl<'a> Read for Uneven<'a> {
    fn read(&mut self, buf: &mut [u8]) -> io::Result<usize> {
        let number = self.calls;
        self.calls = number.saturating_add(1);
        if number == self.interrupted {
            return Err(ErrorKind::Interrupted.into());
        }
        if number == self.broken {
            return Err(ErrorKind::BrokenPipe.into());
        }
        match (self.bytes, buf.first_mut()) {
            ([byte, rest @ ..], Some(place)) => {
                *place = *byte;
                self.bytes = rest;
                Ok(1)
            }
            _ => Ok(0),
        }
    }
}

// A reader and a writer in one value.
#[derive(Drop)]
struct Duplex<R: Read, W: Write> {
    reader: R,
    writer: W,
}

impl<R: Read, W: Write> Read for Duplex<R, W> {
    fn read(&mut self, buf: &mut [u8]) -> io::Result<usize> {
        self.reader.read(buf)
    }
}

impl<R: Read, W: Write> Write for Duplex<R, W> {
    fn write(&mut self, buf: &[u8]) -> io::Result<usize> {
        self.writer.write(buf)
    }

    fn flush(&mut self) -> io::Result<()> {
        self.writer.flush()
    }
}

// A writer that takes nothing.
#[derive(Drop)]
struct Full;

impl Write for Full {
    fn write(&mut self, _buf: &[u8]) -> io::Result<usize> {
        Ok(0)
    }

    fn flush(&mut self) -> io::Result<()> {
        Ok(())
    }
}

#[test]
fn a_code_has_the_number_of_grpc(rt: HostRuntime) {
    let cases = [
        (Code::Ok, 0),
        (Code::Cancelled, 1),
        (Code::Unknown, 2),
        (Code::InvalidArgument, 3),
        (Code::DeadlineExceeded, 4),
        (Code::NotFound, 5),
        (Code::AlreadyExists, 6),
        (Code::PermissionDenied, 7),
        (Code::ResourceExhausted, 8),
        (Code::FailedPrecondition, 9),
        (Code::Aborted, 10),
        (Code::OutOfRange, 11),
        (Code::Unimplemented, 12),
        (Code::Internal, 13),
        (Code::Unavailable, 14),
        (Code::DataLoss, 15),
        (Code::Unauthenticated, 16),
    ];
    for (code, number) in cases {
        assert_eq!(rt; code.number(), number, "{code:?}");
    }
}

#[test]
fn a_link_in_memory_cuts_its_reads(rt: HostRuntime) -> Result<(), Fail> {
    let mut link = mem_link(rt.alloc(), b"abcdefg", &[2, 0, 3], &[])?;
    let pieces: [&[u8]; 6] = [b"ab", b"c", b"def", b"g", b"", b""];
    for piece in pieces {
        let mut buf = [0u8; 4];
        let count = link.next_read(&mut buf).ok().ok_or("a read failed")?;
        assert_eq!(rt; buf.get(..count), Some(piece), "at {piece:?}");
    }
    Ok(())
}

#[test]
fn a_link_in_memory_fails_at_the_calls_that_it_is_told(rt: HostRuntime) -> Result<(), Fail> {
    let mut link = mem_link(rt.alloc(), b"abcd", &[2], &[1, 2, 5])?;
    // what is written, or none for a read, and what the call took or gave
    let calls: [(Option<&[u8]>, Result<&[u8], SinkEnd>); 8] = [
        (None, Ok(b"ab")),
        (None, Err(SinkEnd::Failed)),
        (Some(b"x"), Err(SinkEnd::Failed)),
        (None, Ok(b"cd")),
        (Some(b"xy"), Ok(b"xy")),
        (Some(b"no"), Err(SinkEnd::Failed)),
        (Some(b"z"), Ok(b"z")),
        (None, Ok(b"")),
    ];
    for (number, (bytes, want)) in calls.into_iter().enumerate() {
        let mut buf = [0u8; 4];
        match (call(&mut link, bytes, &mut buf), want) {
            (Ok(count), Ok(want)) => {
                let all = bytes.unwrap_or(&buf);
                assert_eq!(rt; all.get(..count), Some(want), "call {number}");
            }
            (got, want) => assert_eq!(rt; got.err(), want.err(), "call {number}"),
        }
    }
    assert_eq!(rt; link.written(), &b"xyz"[..]);
    Ok(())
}

#[test]
fn a_pair_reads_the_one_and_writes_the_other(rt: HostRuntime) -> Result<(), Fail> {
    // The calls of each are counted apart: the second write fails, and no read does.
    let source = mem_link(rt.alloc(), b"abc", &[1], &[])?;
    let sink = mem_link(rt.alloc(), b"no", &[], &[1])?;
    let mut pair = PairLink::new(source, sink);
    let mut buf = [0u8; 4];
    assert_eq!(rt; call(&mut pair, Some(b"xy"), &mut buf), Ok(2));
    assert_eq!(rt; call(&mut pair, None, &mut buf), Ok(1));
    assert_eq!(rt; call(&mut pair, None, &mut buf[1..]), Ok(2));
    assert_eq!(rt; &buf, b"abc\0");
    assert_eq!(rt; call(&mut pair, None, &mut buf), Ok(0));
    assert_eq!(rt; call(&mut pair, Some(b"z"), &mut buf), Err(SinkEnd::Failed));
    Ok(())
}

#[test]
fn a_pair_writes_what_it_is_given(rt: HostRuntime) -> Result<(), Fail> {
    let mut out = Vec::new(rt.alloc());
    let mut pair = PairLink::new(StdSource::new(&b"abc"[..]), StdSink::new(&mut out));
    let mut buf = [0u8; 4];
    assert_eq!(rt; call(&mut pair, Some(b"xy"), &mut buf), Ok(2));
    assert_eq!(rt; call(&mut pair, None, &mut buf), Ok(3));
    assert_eq!(rt; call(&mut pair, Some(b"z"), &mut buf), Ok(1));
    drop(pair);
    assert_eq!(rt; out.as_slice(), &b"xyz"[..]);
    Ok(())
}

#[test]
fn a_stream_reads_and_writes_one_value(rt: HostRuntime) -> Result<(), Fail> {
    let mut out = Vec::new(rt.alloc());
    // The second read is interrupted and made again, and then fails.
    let reader = Uneven {
        bytes: b"ab",
        calls: 0,
        interrupted: 1,
        broken: 2,
    };
    let mut link = StreamLink::new(Duplex {
        reader,
        writer: &mut out,
    });
    // what is written, or none for a read, and the answer
    let calls: [(Option<&[u8]>, Result<usize, SinkEnd>); 6] = [
        (Some(b"xy"), Ok(2)),
        (None, Ok(1)),
        (None, Err(SinkEnd::Failed)),
        (None, Ok(1)),
        (None, Ok(0)),
        (Some(b"z"), Ok(1)),
    ];
    for (number, (bytes, want)) in calls.into_iter().enumerate() {
        let mut buf = [0u8; 4];
        assert_eq!(rt; call(&mut link, bytes, &mut buf), want, "call {number}");
    }
    drop(link);
    assert_eq!(rt; out.as_slice(), &b"xyz"[..]);
    Ok(())
}

#[test]
fn a_source_goes_on_after_a_fault(rt: HostRuntime) -> Result<(), Fail> {
    let mut buf = [0u8; 8];
    let mut link = mem_link(rt.alloc(), b"abcdefg", &[2, 0, 3], &[0, 2, 3])?;
    assert_eq!(rt; drain(&mut link, &mut buf), (7, 3));
    assert_eq!(rt; &buf, b"abcdefg\0");

    let mut plain = StdSource::new(&b"hijklmn"[..]);
    assert_eq!(rt; drain(&mut plain, &mut buf), (7, 0));
    assert_eq!(rt; &buf, b"hijklmn\0");

    // An interrupted call is made again, and is no fault.
    let mut uneven = StdSource::new(Uneven {
        bytes: b"opqrstu",
        calls: 0,
        interrupted: 2,
        broken: 4,
    });
    assert_eq!(rt; drain(&mut uneven, &mut buf), (7, 1));
    assert_eq!(rt; &buf, b"opqrstu\0");
    Ok(())
}

#[test]
fn a_sink_whose_writer_takes_nothing_has_failed(rt: HostRuntime) {
    let mut full = StdSink::new(Full);
    let cases: [(&[u8], Result<usize, SinkEnd>); 3] = [
        (b"", Ok(0)),
        (b"a", Err(SinkEnd::Failed)),
        (b"ab", Err(SinkEnd::Failed)),
    ];
    for (bytes, want) in cases {
        assert_eq!(rt; full.write(bytes), want, "at {bytes:?}");
    }
    assert_eq!(rt; SinkEnd::from(OutOfMemory), SinkEnd::OutOfMemory);
}
