//! The frames of small calls with a session alone.

ghost use Rattle.std.specs.Prelude.{ℕ, List, IfOk, IfSome};
ghost use Rattle.proto_wire.specs.Reading.{IsBytes};
ghost use Rattle.h2_frames.specs.Spelling.{IsSpelling};

use crate::text::{FRAMED, OPENING, call, grant, number};
use h2_frames::{Frame, FrameFault, FrameReader};
use h2_session::{Out, Session};
use hpack_tables::{Header, Headers};
use proto_wire::Bytes;
use std::alloc::Global;

/// More bytes than are fed.
const LIMIT: u64 = 1 << 58;

/// More frames than bytes that are fed at a time hold.
const FRAMES: usize = 1 << 20;

/// The frames and the session of a server.
#[derive(Drop)]
struct End {
    alloc: Global,
    reader: FrameReader,
    session: Session,
    ghost bytes: { IsBytes reader.rest },
}

/// The next frame, with the place of its first byte.
fn next_frame(reader: &mut FrameReader) -> Result<Option<(u64, Frame)>, FrameFault>
    requires { IsBytes reader.old.rest }
    ensures bytes { IsBytes reader.new.rest }
    ensures spelled { IfOk result (λ o. IfSome o (λ p. (text : List ℕ) × IsSpelling text p.1)) }
{
    reader.next()
}

impl End {
    /// One that has read the headers of a request on stream 1.
    fn new(alloc: Global) -> Option<End> {
        let mut end = End {
            alloc,
            reader: FrameReader::new(alloc, true),
            session: Session::server(alloc).ok()?,
        };
        end.feed(OPENING)?;
        Some(end)
    }

    /// Takes bytes of the client.
    fn feed(&mut self, bytes: &[u8]) -> Option<()> {
        if self.reader.fed() > LIMIT || bytes.len() as u64 > LIMIT {
            return None;
        }
        self.reader.feed(bytes).ok()?;
        'frames: for _ in 0..FRAMES {
            if !self.take()? {
                return Some(());
            }
        }
        None
    }

    /// Takes the next frame, if it is there whole.
    fn take(&mut self) -> Option<bool> {
        match next_frame(&mut self.reader) {
            Ok(None) => Some(false),
            Ok(Some((at, frame))) => {
                let _event = self.session.on_frame(at, frame).ok()?;
                Some(true)
            }
            Err(_) => None,
        }
    }

    fn send(&mut self, stream: u32, what: Out) -> Option<()> {
        if self.session.fault().is_some() || !self.session.may_send(stream, &what) {
            return None;
        }
        self.session.send(stream, what).ok()
    }

    fn send_headers(&mut self, stream: u32, headers: &[(&str, &[u8])], end: bool) -> Option<()> {
        let headers = headers_of(self.alloc, headers)?;
        self.send(stream, Out::Headers { headers, end })
    }

    /// Answers a call, and the client grants its window again.
    fn answer(&mut self, stream: u32) -> Option<()> {
        let first: [(&str, &[u8]); 2] = [
            (":status", b"200"),
            ("content-type", b"application/grpc"),
        ];
        self.send_headers(stream, &first, false)?;
        let bytes = Bytes::copy_of(self.alloc, FRAMED).ok()?;
        self.send(stream, Out::Piece { bytes, end: false })?;
        self.send_headers(stream, &[("grpc-status", b"0")], true)?;
        self.feed(&grant(0, FRAMED.len() as u32))
    }

    /// Takes calls on streams of these places, and answers them.
    fn batch(&mut self, from: u32, to: u32) -> Option<u64> {
        'requests: for place in from..to {
            self.feed(&call(number(place)?))?;
        }
        'answers: for place in from..to {
            self.answer(number(place)?)?;
        }
        Some(self.written())
    }

    /// How many bytes are written that weren't counted yet.
    fn written(&mut self) -> u64 {
        self.session.take_output().len() as u64
    }
}

fn headers_of(alloc: Global, pairs: &[(&str, &[u8])]) -> Option<Headers> {
    let mut headers = Headers::new(alloc);
    'pairs: for (name, value) in pairs {
        let name = Bytes::copy_of(alloc, name.as_bytes()).ok()?;
        let value = Bytes::copy_of(alloc, value).ok()?;
        headers.push(Header { name, value }).ok()?;
    }
    Some(headers)
}

/// So many calls in batches of this size. It answers how many bytes are written.
pub(crate) fn run(alloc: Global, count: u32, size: u32) -> Option<u64> {
    let mut end = End::new(alloc)?;
    end.answer(1)?;
    let mut written = end.written();
    let mut from = 1u32;
    'batches: for _ in 0..count.checked_div(size)? {
        let to = from.checked_add(size)?;
        written = written.checked_add(end.batch(from, to)?)?;
        from = to;
    }
    Some(written)
}
