//! The program `session_bench`: one session over memory. It takes requests and answers them, or takes or sends DATA of 16 KiB.
//! `bench/sessions` times it.
#![tactic(auto)]

ghost use Rattle.h2_frames.specs.Spelling.{Writable, IsTyped};

use h2_frames::{Frame, Settings, laws};
use h2_session::{Out, Session, SessionEvent};
use hpack_tables::{Header, Headers};
use proto_wire::Bytes;
use std::alloc::Global;
use std::env;
use std::process::ExitCode;

/// The header block of a call of gRPC's C core.
const FIRST: &[u8] =
    b"\x86\x83A\x8a\xa0\xe4\x1d\x13\x9d\x09\xb8\xf8\x1f\x17D\xabb;MD\x8b\xc6?e\xa1{\x0bI\xd2U\xcb\xe4\xa4\xb5&=K\xf7\x12\xf7\x87X\xe35\x06I\x8a\x861\x157\x87X\xe35\x06I\x8a\x8f@\x82I\x7f\x86M\x835\x05\xb1\x1f_\x8b\x1du\xd0b\x0d&=LMed";

/// The same by the header table that the first one leaves.
const AGAIN: &[u8] = b"\x86\x83\xc1\xc0\xbf\xbe";

/// A message in a request, and one in an answer.
const MESSAGE: &[u8] = &[0; 30];

const ANSWER: &[u8] = &[0; 27];

/// The payload of a large frame.
const LARGE: usize = 16_384;

/// A frame of the peer.
fn take(session: &mut Session, frame: Frame) -> Option<Option<SessionEvent>>
    requires writable { Writable frame }
    requires typed { IsTyped frame }
{
    laws::written_is_read();
    session.on_frame(0, frame).ok()
}

fn take_settings(alloc: Global, session: &mut Session) -> Option<()> {
    let frame = Frame::Settings {
        ack: false,
        values: Settings::new(alloc),
    };
    let _none = take(session, frame)?;
    Some(())
}

/// HEADERS of a request.
fn take_headers(alloc: Global, session: &mut Session, stream: u32, block: &[u8]) -> Option<()> {
    if stream == 0 || stream >= 0x8000_0000 || block.len() > LARGE {
        return None;
    }
    let block = Bytes::copy_of(alloc, block).ok()?;
    let frame = Frame::Headers {
        stream,
        block,
        end: false,
        whole: true,
    };
    let _begun = take(session, frame)??;
    Some(())
}

fn take_data(
    alloc: Global,
    session: &mut Session,
    stream: u32,
    bytes: &[u8],
    end: bool,
) -> Option<()> {
    if stream == 0 || stream >= 0x8000_0000 || bytes.len() > LARGE {
        return None;
    }
    let frame = Frame::Data {
        stream,
        bytes: Bytes::copy_of(alloc, bytes).ok()?,
        size: bytes.len() as u32,
        end,
    };
    let _piece = take(session, frame)??;
    Some(())
}

fn take_window(session: &mut Session, stream: u32, add: u32) -> Option<()> {
    if stream >= 0x8000_0000 || add >= 0x8000_0000 {
        return None;
    }
    let _none = take(session, Frame::Window { stream, add })?;
    Some(())
}

fn send(session: &mut Session, stream: u32, what: Out) -> Option<()> {
    if session.fault().is_some() || !session.may_send(stream, &what) {
        return None;
    }
    session.send(stream, what).ok()
}

fn send_bytes(alloc: Global, session: &mut Session, stream: u32, bytes: &[u8]) -> Option<()> {
    let bytes = Bytes::copy_of(alloc, bytes).ok()?;
    send(session, stream, Out::Piece { bytes, end: false })
}

fn send_header(
    alloc: Global,
    session: &mut Session,
    stream: u32,
    header: (&[u8], &[u8]),
    end: bool,
) -> Option<()> {
    let mut headers = Headers::new(alloc);
    let name = Bytes::copy_of(alloc, header.0).ok()?;
    let value = Bytes::copy_of(alloc, header.1).ok()?;
    headers.push(Header { name, value }).ok()?;
    send(session, stream, Out::Headers { headers, end })
}

/// A request: HEADERS, and a message in DATA with END_STREAM.
fn request(alloc: Global, session: &mut Session, stream: u32, block: &[u8]) -> Option<()> {
    take_headers(alloc, session, stream, block)?;
    take_data(alloc, session, stream, MESSAGE, true)
}

/// Its answer: HEADERS, a message in DATA, and trailers.
fn answer(alloc: Global, session: &mut Session, stream: u32) -> Option<()> {
    send_header(alloc, session, stream, (b":status", b"200"), false)?;
    send_bytes(alloc, session, stream, ANSWER)?;
    send_header(alloc, session, stream, (b"grpc-status", b"0"), true)
}

/// A server that has taken SETTINGS and a request that leaves its header table.
fn server(alloc: Global) -> Option<Session> {
    let mut session = Session::server(alloc).ok()?;
    take_settings(alloc, &mut session)?;
    take_headers(alloc, &mut session, 1, FIRST)?;
    Some(session)
}

/// The number of a stream.
fn number(place: u32) -> Option<u32> {
    place.checked_mul(2)?.checked_add(1)
}

/// Takes requests on streams of these places, and answers them.
fn batch(alloc: Global, session: &mut Session, from: u32, to: u32) -> Option<usize> {
    'requests: for place in from..to {
        request(alloc, session, number(place)?, AGAIN)?;
    }
    'answers: for place in from..to {
        answer(alloc, session, number(place)?)?;
        take_window(session, 0, ANSWER.len() as u32)?;
    }
    Some(session.take_output().len())
}

/// So many requests in batches of this size, beside so many other open streams. It answers how many bytes are written.
fn requests(alloc: Global, count: u32, size: u32, idle: u32) -> Option<usize> {
    let mut session = server(alloc)?;
    answer(alloc, &mut session, 1)?;
    'idle: for place in 1..=idle {
        take_headers(alloc, &mut session, number(place)?, AGAIN)?;
    }
    let mut written = session.take_output().len();
    let mut from = idle.checked_add(1)?;
    'batches: for _ in 0..count.checked_div(size)? {
        let to = from.checked_add(size)?;
        written = written.checked_add(batch(alloc, &mut session, from, to)?)?;
        from = to;
    }
    Some(written)
}

/// So many DATA frames of 16 KiB that come. It answers how many bytes are written.
fn come(alloc: Global, count: u32) -> Option<usize> {
    let mut session = server(alloc)?;
    let bytes = vec![in alloc; 0u8; LARGE].ok()?;
    let mut written = 0usize;
    'frames: for _ in 0..count {
        take_data(alloc, &mut session, 1, bytes.as_slice(), false)?;
        written = written.checked_add(session.take_output().len())?;
    }
    Some(written)
}

/// So many DATA frames of 16 KiB that go. It answers how many bytes are written.
fn go(alloc: Global, count: u32) -> Option<usize> {
    let mut session = server(alloc)?;
    let bytes = vec![in alloc; 0u8; LARGE].ok()?;
    let mut written = session.take_output().len();
    send_header(alloc, &mut session, 1, (b":status", b"200"), false)?;
    'frames: for _ in 0..count {
        send_bytes(alloc, &mut session, 1, bytes.as_slice())?;
        take_window(&mut session, 0, LARGE as u32)?;
        take_window(&mut session, 1, LARGE as u32)?;
        written = written.checked_add(session.take_output().len())?;
    }
    Some(written)
}

/// How many bytes are written, by the words: what is done, how often, and the size of a batch and the other open streams.
fn run(rt: &HostRuntime) -> Option<usize> {
    let alloc = rt.alloc();
    let mut words = env::args(rt).ok()?;
    let _ = words.next();
    let kind = words.next()?;
    let count = words.next()?.parse::<u32>().ok()?;
    let size = words.next()?.parse::<u32>().ok()?;
    let idle = words.next()?.parse::<u32>().ok()?;
    match kind.as_str() {
        "requests" => requests(alloc, count, size, idle),
        "in" => come(alloc, count),
        "out" => go(alloc, count),
        _ => None,
    }
}

fn main(rt: HostRuntime) -> ExitCode {
    match run(&rt) {
        Some(written) => {
            let _ = println!(rt; "{written}");
            ExitCode::SUCCESS
        }
        None => ExitCode::FAILURE,
    }
}
