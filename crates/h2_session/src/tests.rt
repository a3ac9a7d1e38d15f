//! What no clause says: worked examples, with expected bytes by RFC 9113.

ghost use Rattle.std.specs.Prelude.{◌≡◌, true};
ghost use Rattle.h2_frames.specs.Spelling.{Writable};
ghost use Rattle.h2_frames.specs.declared.frame.Frame.TheVariants as frames;

use crate::event::{Out, SessionEvent};
use crate::fault::ConnFault;
use crate::sayable::is_small;
use crate::session::Session;
use h2_frames::{Frame, Settings, write_frame};
use hpack_tables::{Header, Headers};
use proto_wire::Bytes;
use std::alloc::Global;
use std::process::Abort;
use std::test::Fail;

mod clients;
mod faults;
mod sending;
mod streams;

/// A frame of the peer.
#[derive(Clone, Copy)]
pub(crate) enum Step<'a> {
    /// SETTINGS.
    Settings(&'a [(u16, u32)]),
    /// SETTINGS with ACK.
    Ack,
    /// HEADERS with a block, END_STREAM and END_HEADERS.
    Headers(u32, &'a [u8], bool, bool),
    /// CONTINUATION with END_HEADERS.
    Last(u32, &'a [u8]),
    /// DATA with END_STREAM.
    Data(u32, &'a [u8], bool),
    /// WINDOW_UPDATE.
    Window(u32, u32),
    /// RST_STREAM.
    Reset(u32, u32),
    /// PRIORITY.
    Priority(u32),
    /// PING.
    Ping([u8; 8]),
    /// PUSH_PROMISE.
    Push(u32),
    /// GOAWAY with NO_ERROR.
    GoAway(u32),
    /// A frame of an unknown kind.
    Unknown(u8),
}

pub(crate) fn frame_of(alloc: Global, step: Step<'_>) -> Result<Frame, Fail> {
    match step {
        Step::Settings(values) => Ok(Frame::Settings {
            ack: false,
            values: Settings::copy_of(alloc, values)?,
        }),
        Step::Ack => Ok(Frame::Settings {
            ack: true,
            values: Settings::new(alloc),
        }),
        Step::Headers(stream, block, end, whole) => Ok(Frame::Headers {
            stream,
            block: Bytes::copy_of(alloc, block)?,
            end,
            whole,
        }),
        Step::Last(stream, block) => Ok(Frame::Continuation {
            stream,
            block: Bytes::copy_of(alloc, block)?,
            whole: true,
        }),
        Step::Data(stream, bytes, end) => Ok(Frame::Data {
            stream,
            bytes: Bytes::copy_of(alloc, bytes)?,
            size: u32::try_from(bytes.len()).unwrap_or(0),
            end,
        }),
        Step::Window(stream, add) => Ok(Frame::Window { stream, add }),
        Step::Reset(stream, code) => Ok(Frame::Reset { stream, code }),
        Step::Priority(stream) => Ok(Frame::Priority { stream }),
        Step::Ping(bytes) => Ok(Frame::Ping { ack: false, bytes }),
        Step::Push(stream) => Ok(Frame::Push { stream }),
        Step::GoAway(last) => Ok(Frame::GoAway { last, code: 0 }),
        Step::Unknown(kind) => Ok(Frame::Unknown { kind }),
    }
}

fn is_number(stream: u32) -> bool
    ensures { result ≡ true → Writable (frames.Priority stream) }
{
    0 < stream && stream < 0x8000_0000
}

/// Whether the frame may be written.
fn is_writable(frame: &Frame) -> bool
    ensures { result ≡ true → Writable frame.now }
{
    match frame {
        Frame::Data {
            stream,
            bytes,
            size,
            ..
        } => is_number(*stream) && *size as usize == bytes.len() && bytes.len() <= 16_384,
        Frame::Headers { stream, block, .. } | Frame::Continuation { stream, block, .. } => {
            is_number(*stream) && block.len() <= 16_384
        }
        Frame::Reset { stream, .. } | Frame::Priority { stream } => is_number(*stream),
        Frame::Window { stream, add } => *stream < 0x8000_0000 && *add < 0x8000_0000,
        Frame::Settings { ack, values } => { values.is_empty() || (!*ack && values.len() <= 100) }
        Frame::Ping { .. } => true,
        Frame::Push { stream } => *stream < 0x8000_0000,
        Frame::GoAway { last, .. } => *last < 0x8000_0000,
        Frame::Unknown { kind } => *kind > 9,
    }
}

/// Hands a frame in, whose place is `at`.
pub(crate) fn hand_in(
    alloc: Global,
    session: &mut Session,
    at: u64,
    frame: Frame,
) -> Result<Result<Option<SessionEvent>, ConnFault>, Fail> {
    if !is_writable(&frame) {
        return Err("not a frame".into());
    }
    let mut text = Bytes::new(alloc);
    write_frame(&frame, &mut text)?;
    Ok(session.on_frame(at, frame))
}

/// What a test does with a session.
#[derive(Clone, Copy)]
pub(crate) enum Call<'a> {
    /// Takes a frame.
    Take(Step<'a>),
    /// Hands in `:status: 200` on a stream.
    Status(u32),
    /// Hands in bytes on a stream, with which a client may half-close it.
    Piece(u32, &'a [u8], bool),
    /// Hands in `grpc-status: 0` on a stream, which ends it.
    Trailers(u32),
    /// Resets a stream.
    Cancel(u32, u32),
    /// Begins a stream of a client with `:path: /`.
    Begin,
}

pub(crate) fn one_header(alloc: Global, name: &[u8], value: &[u8]) -> Result<Headers, Fail> {
    let mut headers = Headers::new(alloc);
    headers.push(Header {
        name: Bytes::copy_of(alloc, name)?,
        value: Bytes::copy_of(alloc, value)?,
    })?;
    Ok(headers)
}

/// Hands in what is sent on a stream.
fn say(session: &mut Session, stream: u32, what: Out) -> Result<(), Fail> {
    if session.fault().is_some() || !session.may_send(stream, &what) {
        return Err("not sayable".into());
    }
    session.send(stream, what)?;
    Ok(())
}

fn say_header(
    alloc: Global,
    session: &mut Session,
    stream: u32,
    name: &[u8],
    value: &[u8],
    end: bool,
) -> Result<(), Fail> {
    let headers = one_header(alloc, name, value)?;
    say(session, stream, Out::Headers { headers, end })
}

fn say_piece(
    alloc: Global,
    session: &mut Session,
    stream: u32,
    bytes: &[u8],
    end: bool,
) -> Result<(), Fail> {
    let bytes = Bytes::copy_of(alloc, bytes)?;
    say(session, stream, Out::Piece { bytes, end })
}

fn cancel(session: &mut Session, stream: u32, code: u32) -> Result<(), Fail> {
    if session.fault().is_some() {
        return Err("over".into());
    }
    session.cancel(stream, code)?;
    Ok(())
}

fn begin(alloc: Global, session: &mut Session) -> Result<(), Fail> {
    let headers = one_header(alloc, b":path", b"/")?;
    if session.fault().is_some() || !session.is_client() || !is_small(&headers) {
        return Err("no client".into());
    }
    session.begin(&headers)?.ok_or("no stream")?;
    Ok(())
}

fn take(alloc: Global, session: &mut Session, step: Step<'_>) -> Result<(), Fail> {
    let frame = frame_of(alloc, step)?;
    if hand_in(alloc, session, 0, frame)?.is_err() {
        return Err("refused".into());
    }
    Ok(())
}

fn perform(alloc: Global, session: &mut Session, call: Call<'_>) -> Result<(), Fail> {
    match call {
        Call::Take(step) => take(alloc, session, step),
        Call::Status(stream) => say_header(alloc, session, stream, b":status", b"200", false),
        Call::Piece(stream, bytes, end) => say_piece(alloc, session, stream, bytes, end),
        Call::Trailers(stream) => say_header(alloc, session, stream, b"grpc-status", b"0", true),
        Call::Cancel(stream, code) => cancel(session, stream, code),
        Call::Begin => begin(alloc, session),
    }
}

/// Does this one after the other. No frame is refused.
pub(crate) fn perform_all(
    alloc: Global,
    session: &mut Session,
    calls: &[Call<'_>],
) -> Result<(), Fail> {
    'calls: for call in calls {
        perform(alloc, session, *call)?;
    }
    Ok(())
}

/// A session of a client or a server, whose SETTINGS were taken.
pub(crate) fn new_session(alloc: Global, is_client: bool) -> Result<Session, Fail> {
    let mut session = if is_client {
        Session::client(alloc)?
    } else {
        Session::server(alloc)?
    };
    let _settings = session.take_output();
    Ok(session)
}

/// What a session writes for these calls, after its SETTINGS.
pub(crate) fn written(
    alloc: Global,
    is_client: bool,
    calls: &[Call<'_>],
) -> Result<(Bytes, Session), Fail> {
    let mut session = new_session(alloc, is_client)?;
    perform_all(alloc, &mut session, calls)?;
    let out = session.take_output();
    Ok((out, session))
}

/// POST http /, by the static table (RFC 7541, appendix A).
pub(crate) const REQUEST: &[u8] = b"\x83\x86\x84";

/// The first frame of a peer.
pub(crate) const SETTINGS: Call<'static> = Call::Take(Step::Settings(&[]));

/// A request on stream 1 that the client hasn't ended.
pub(crate) const OPEN: Call<'static> = Call::Take(Step::Headers(1, REQUEST, false, true));

/// A request on stream 1 that the client has ended.
pub(crate) const ENDED: Call<'static> = Call::Take(Step::Headers(1, REQUEST, true, true));
