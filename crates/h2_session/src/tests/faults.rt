//! The table of offences (RFC 9113, sections 3.4, 5 and 6): each row alone, and beside a row further down with another code.

use crate::fault::ConnFault;
use crate::tests::{
    Call, ENDED, OPEN, REQUEST, SETTINGS, Step, frame_of, hand_in, new_session, perform_all,
};
use h2_frames::Frame;
use proto_wire::Bytes;
use std::alloc::Global;
use std::process::Abort;
use std::test::Fail;

/// A row: the code and the last stream of the GOAWAY, what comes before the frame, and the frame that offends.
type Row = (u32, u32, &'static [Call<'static>], Step<'static>);

/// The GOAWAY with a code and a last stream (section 6.8).
fn goaway(alloc: Global, last: u32, code: u32) -> Result<Bytes, Fail> {
    let mut bytes = Bytes::copy_of(alloc, b"\0\0\x08\x07\0\0\0\0\0")?;
    bytes.push_slice(&last.to_be_bytes())?;
    bytes.push_slice(&code.to_be_bytes())?;
    Ok(bytes)
}

/// The code with which the last frame is refused, if the GOAWAY tells it with this last stream, and it is answered for good.
fn refusal(
    alloc: Global,
    is_client: bool,
    last: u32,
    before: &[Call<'_>],
    frame: Frame,
) -> Result<u32, Fail> {
    let mut session = new_session(alloc, is_client)?;
    perform_all(alloc, &mut session, before)?;
    let _answers = session.take_output();
    let Err(ConnFault::Offence { code, at: 7 }) = hand_in(alloc, &mut session, 7, frame)? else {
        return Err("taken".into());
    };
    if session.take_output().as_slice() != goaway(alloc, last, code)?.as_slice() {
        return Err("another GOAWAY".into());
    }
    if session.fault() != Some(ConnFault::Offence { code, at: 7 }) || session.live() != 0 {
        return Err("not over".into());
    }
    Ok(code)
}

fn assert_rows(rt: &impl Abort, alloc: Global, is_client: bool, rows: &[Row]) -> Result<(), Fail> {
    'rows: for (code, last, before, step) in rows {
        let frame = frame_of(alloc, *step)?;
        assert_eq!(rt; refusal(alloc, is_client, *last, before, frame)?, *code);
    }
    Ok(())
}

const QUIET: Step<'static> = Step::Ping([0; 8]);

/// Settings out of their range, in the order of the rows.
const BAD_SETTING: Step<'static> = Step::Settings(&[(4, 0x8000_0000), (2, 2)]);

/// It lifts the connection's window too far.
const TOO_MUCH: Step<'static> = Step::Window(0, 0x7fff_0001);

/// A block that names the entry 0 of the table.
const BAD_BLOCK: &[u8] = b"\x80";

const UNFINISHED: Call<'static> = Call::Take(Step::Headers(1, REQUEST, true, false));

/// The first SETTINGS (section 3.4), and header blocks that nothing interrupts (section 6.10).
const IN_PLACE: &[Row] = &[
    (1, 0, &[], QUIET),
    (1, 0, &[], Step::Ack),
    (1, 0, &[], TOO_MUCH),
    (1, 0, &[], Step::Headers(1, BAD_BLOCK, true, true)),
    (1, 1, &[SETTINGS, UNFINISHED], QUIET),
    (1, 1, &[SETTINGS, UNFINISHED], Step::Unknown(10)),
    (1, 1, &[SETTINGS, UNFINISHED], TOO_MUCH),
    (1, 1, &[SETTINGS, UNFINISHED], Step::Last(3, BAD_BLOCK)),
    (1, 0, &[SETTINGS], Step::Last(1, BAD_BLOCK)),
    (1, 0, &[SETTINGS], Step::Push(1)),
];

/// Settings within their range (section 6.5.2), and windows within their limit (section 6.9).
const IN_RANGE: &[Row] = &[
    (1, 0, &[], Step::Settings(&[(2, 2)])),
    (1, 0, &[], Step::Settings(&[(5, 16_383)])),
    (1, 0, &[], Step::Settings(&[(5, 16_777_216)])),
    (1, 0, &[], BAD_SETTING),
    (3, 0, &[], Step::Settings(&[(4, 0x8000_0000)])),
    (
        3,
        1,
        &[SETTINGS, OPEN, Call::Take(Step::Window(1, 0x7fff_0000))],
        Step::Settings(&[(4, 65_536)]),
    ),
    (1, 0, &[SETTINGS], Step::Window(0, 0)),
    (3, 0, &[SETTINGS], TOO_MUCH),
    (
        3,
        0,
        &[SETTINGS, Call::Take(Step::Window(0, 0x7fff_0000))],
        Step::Window(0, 1),
    ),
];

/// Streams in their state (section 5.1).
const IN_STATE: &[Row] = &[
    (1, 0, &[SETTINGS], Step::Headers(2, REQUEST, true, true)),
    (1, 0, &[SETTINGS], Step::Headers(2, BAD_BLOCK, true, true)),
    (1, 0, &[SETTINGS], Step::Data(1, b"", true)),
    (1, 1, &[SETTINGS, ENDED], Step::Data(3, b"", true)),
    (1, 0, &[SETTINGS], Step::Reset(1, 8)),
    (1, 0, &[SETTINGS], Step::Window(1, 0)),
    (
        1,
        1,
        &[SETTINGS, OPEN],
        Step::Headers(1, REQUEST, false, true),
    ),
    (
        1,
        1,
        &[SETTINGS, OPEN],
        Step::Headers(1, BAD_BLOCK, false, true),
    ),
    (5, 1, &[SETTINGS, ENDED], Step::Data(1, b"", true)),
    (
        5,
        1,
        &[SETTINGS, ENDED],
        Step::Headers(1, REQUEST, false, true),
    ),
    (
        5,
        1,
        &[SETTINGS, ENDED],
        Step::Headers(1, BAD_BLOCK, true, true),
    ),
];

/// Header blocks that can't be decoded (section 4.3), also of a stream that isn't live, or are too long (section 6.5.2). A block
/// begins its stream.
const IN_BLOCKS: &[Row] = &[
    (9, 1, &[SETTINGS], Step::Headers(1, BAD_BLOCK, true, true)),
    (9, 1, &[SETTINGS, UNFINISHED], Step::Last(1, BAD_BLOCK)),
    (
        9,
        1,
        &[SETTINGS, OPEN, Call::Cancel(1, 8)],
        Step::Headers(1, BAD_BLOCK, true, true),
    ),
    (
        11,
        1,
        &[SETTINGS],
        Step::Headers(1, &[0x83; 400], true, true),
    ),
];

const ANSWER: &[u8] = b"\x88";

const OPEN_ANSWER: Call<'static> = Call::Take(Step::Headers(1, ANSWER, false, true));

const ENDED_ANSWER: Call<'static> = Call::Take(Step::Headers(1, ANSWER, true, true));

const UNFINISHED_ANSWER: Call<'static> = Call::Take(Step::Headers(1, ANSWER, true, false));

/// What a client refuses. The peer begins no stream, so that the last one is 0.
const OF_SERVERS: &[Row] = &[
    (1, 0, &[], TOO_MUCH),
    (1, 0, &[SETTINGS, Call::Begin, UNFINISHED_ANSWER], TOO_MUCH),
    (1, 0, &[SETTINGS], Step::Last(1, BAD_BLOCK)),
    (1, 0, &[SETTINGS, Call::Begin], Step::Push(1)),
    (1, 0, &[], Step::Settings(&[(4, 0x8000_0000), (2, 1)])),
    (1, 0, &[], Step::Settings(&[(5, 16_383)])),
    (3, 0, &[], Step::Settings(&[(4, 0x8000_0000)])),
    (1, 0, &[SETTINGS], Step::Window(0, 0)),
    (3, 0, &[SETTINGS], TOO_MUCH),
];

/// Streams of a client, which alone begins them.
const OF_SERVERS_STREAMS: &[Row] = &[
    (
        1,
        0,
        &[SETTINGS, Call::Begin],
        Step::Headers(3, BAD_BLOCK, true, true),
    ),
    (
        1,
        0,
        &[SETTINGS, Call::Begin, Call::Begin],
        Step::Headers(2, BAD_BLOCK, true, true),
    ),
    (1, 0, &[SETTINGS], Step::Data(1, b"", true)),
    (1, 0, &[SETTINGS], Step::Reset(1, 8)),
    (1, 0, &[SETTINGS], Step::Window(1, 0)),
    (
        5,
        0,
        &[SETTINGS, Call::Begin, ENDED_ANSWER],
        Step::Data(1, b"", true),
    ),
    (
        5,
        0,
        &[SETTINGS, Call::Begin, ENDED_ANSWER],
        Step::Headers(1, BAD_BLOCK, true, true),
    ),
    (
        9,
        0,
        &[SETTINGS, Call::Begin, OPEN_ANSWER],
        Step::Headers(1, BAD_BLOCK, true, true),
    ),
    (
        11,
        0,
        &[SETTINGS, Call::Begin],
        Step::Headers(1, &[0x88; 400], true, true),
    ),
];

#[test]
fn frames_come_in_their_place(rt: HostRuntime) -> Result<(), Fail> {
    assert_rows(&rt, rt.alloc(), false, IN_PLACE)
}

#[test]
fn settings_and_windows_are_within_their_range(rt: HostRuntime) -> Result<(), Fail> {
    assert_rows(&rt, rt.alloc(), false, IN_RANGE)
}

#[test]
fn streams_are_in_their_state(rt: HostRuntime) -> Result<(), Fail> {
    assert_rows(&rt, rt.alloc(), false, IN_STATE)
}

#[test]
fn blocks_can_be_decoded(rt: HostRuntime) -> Result<(), Fail> {
    assert_rows(&rt, rt.alloc(), false, IN_BLOCKS)
}

#[test]
fn servers_are_refused_alike(rt: HostRuntime) -> Result<(), Fail> {
    assert_rows(&rt, rt.alloc(), true, OF_SERVERS)
}

#[test]
fn servers_begin_no_stream(rt: HostRuntime) -> Result<(), Fail> {
    assert_rows(&rt, rt.alloc(), true, OF_SERVERS_STREAMS)
}

/// A fragment of 16 KiB.
fn fragment(alloc: Global) -> Result<Bytes, Fail> {
    Ok(Bytes::from_vec(vec![in alloc; 0x80; 16_384]?))
}

/// The code for a block of so many fragments of 16 KiB, and one more byte that ends it.
fn long_block_code(alloc: Global, fragments: u32) -> Result<u32, Fail> {
    let mut session = new_session(alloc, false)?;
    perform_all(alloc, &mut session, &[SETTINGS])?;
    let first = Frame::Headers {
        stream: 1,
        block: Bytes::new(alloc),
        end: true,
        whole: false,
    };
    let _begun = hand_in(alloc, &mut session, 0, first)?;
    'fragments: for _ in 0..fragments {
        let more = Frame::Continuation {
            stream: 1,
            block: fragment(alloc)?,
            whole: false,
        };
        let _taken = hand_in(alloc, &mut session, 0, more)?;
    }
    if session.fault().is_some() {
        return Err("refused early".into());
    }
    let last = Frame::Continuation {
        stream: 1,
        block: Bytes::copy_of(alloc, BAD_BLOCK)?,
        whole: true,
    };
    match hand_in(alloc, &mut session, 0, last)? {
        Err(ConnFault::Offence { code, .. }) => Ok(code),
        _ => Err("taken".into()),
    }
}

#[test]
fn a_block_is_decoded_up_to_65_536_bytes(rt: HostRuntime) -> Result<(), Fail> {
    // the code, and the fragments of 16 KiB: a longer block isn't decoded
    'cases: for (code, fragments) in [(9, 3), (11, 4)] {
        assert_eq!(rt; long_block_code(rt.alloc(), fragments)?, code);
    }
    Ok(())
}
