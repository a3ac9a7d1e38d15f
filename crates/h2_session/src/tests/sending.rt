//! What is written on streams, and when.

use crate::session::Session;
use crate::tests::{
    Call, ENDED, OPEN, REQUEST, SETTINGS, Step, new_session, perform, perform_all, written,
};
use std::alloc::Global;
use std::process::Abort;
use std::test::Fail;

/// Whether it is a client's end, what happens, and what is written.
type Row = (bool, &'static [Call<'static>], &'static [u8]);

const ROWS: &[Row] = &[
    // an answer, after a request that has ended, and after one that hasn't
    (
        false,
        &[
            SETTINGS,
            ENDED,
            Call::Status(1),
            Call::Piece(1, b"hello", false),
            Call::Trailers(1),
        ],
        b"\0\0\0\x04\x01\0\0\0\0\0\0\x01\x01\x04\0\0\0\x01\x88\0\0\x05\0\0\0\0\0\x01hello\0\0\x0f\x01\x05\0\0\0\x01\0\x0bgrpc-status\x010",
    ),
    (
        false,
        &[SETTINGS, OPEN, Call::Trailers(1)],
        b"\0\0\0\x04\x01\0\0\0\0\0\0\x0f\x01\x05\0\0\0\x01\0\x0bgrpc-status\x010\0\0\x04\x03\0\0\0\0\x01\0\0\0\0",
    ),
    // bytes wait for their window, which a WINDOW_UPDATE and SETTINGS move
    (
        false,
        &[
            Call::Take(Step::Settings(&[(4, 0)])),
            OPEN,
            Call::Status(1),
            Call::Piece(1, b"hello, world", false),
            Call::Trailers(1),
            Call::Take(Step::Window(1, 10)),
            Call::Take(Step::Settings(&[(4, 2)])),
        ],
        b"\0\0\0\x04\x01\0\0\0\0\0\0\x01\x01\x04\0\0\0\x01\x88\0\0\x0a\0\0\0\0\0\x01hello, wor\0\0\0\x04\x01\0\0\0\0\0\0\x02\0\0\0\0\0\x01ld\0\0\x0f\x01\x05\0\0\0\x01\0\x0bgrpc-status\x010\0\0\x04\x03\0\0\0\0\x01\0\0\0\0",
    ),
    // SETTINGS take a window below 0: six bytes of WINDOW_UPDATE lift it to 0, and one more lets a byte go
    (
        false,
        &[
            Call::Take(Step::Settings(&[(4, 10)])),
            ENDED,
            Call::Status(1),
            Call::Piece(1, b"0123456789", false),
            Call::Take(Step::Settings(&[(4, 4)])),
            Call::Piece(1, b"ab", false),
            Call::Take(Step::Window(1, 6)),
            Call::Take(Step::Window(1, 1)),
        ],
        b"\0\0\0\x04\x01\0\0\0\0\0\0\x01\x01\x04\0\0\0\x01\x88\0\0\x0a\0\0\0\0\0\x010123456789\0\0\0\x04\x01\0\0\0\0\0\0\x01\0\0\0\0\0\x01a",
    ),
    // a stream that is reset sends nothing more
    (
        false,
        &[
            Call::Take(Step::Settings(&[(4, 0)])),
            ENDED,
            Call::Status(1),
            Call::Piece(1, b"hello", false),
            Call::Cancel(1, 8),
            Call::Take(Step::Window(1, 10)),
        ],
        b"\0\0\0\x04\x01\0\0\0\0\0\0\x01\x01\x04\0\0\0\x01\x88\0\0\x04\x03\0\0\0\0\x01\0\0\0\x08",
    ),
    // a client begins streams, half-closes with an empty DATA, and reads an answer
    (
        true,
        &[
            SETTINGS,
            Call::Begin,
            Call::Begin,
            Call::Piece(1, b"", true),
            Call::Piece(3, b"hi", true),
            Call::Take(Step::Headers(1, b"\x88", false, true)),
            Call::Take(Step::Data(1, b"abc", true)),
        ],
        b"\0\0\0\x04\x01\0\0\0\0\0\0\x01\x01\x04\0\0\0\x01\x84\0\0\x01\x01\x04\0\0\0\x03\x84\0\0\0\0\x01\0\0\0\x01\0\0\x02\0\x01\0\0\0\x03hi\0\0\x04\x08\0\0\0\0\0\0\0\0\x03",
    ),
];

#[test]
fn streams_are_written(rt: HostRuntime) -> Result<(), Fail> {
    'rows: for (is_client, calls, wanted) in ROWS {
        let (out, _session) = written(rt.alloc(), *is_client, calls)?;
        assert_eq!(rt; out.as_slice(), *wanted);
    }
    Ok(())
}

/// The sizes and the streams of the DATA frames among these frames.
fn pieces_of(alloc: Global, mut bytes: &[u8]) -> Result<Vec<(u16, u8)>, Fail> {
    let mut pieces = Vec::new(alloc);
    'frames: while let [_, high, low, kind, _, _, _, _, stream, rest @ ..] = bytes {
        let size = u16::from_be_bytes([*high, *low]);
        if size as usize > rest.len() {
            return Err("cut off".into());
        }
        if *kind == 0 {
            pieces.push((size, *stream))?;
        }
        bytes = &rest[size as usize..];
    }
    Ok(pieces)
}

/// A server with two requests, at an initial window, on whose first stream so many bytes were handed in, and five on the other.
fn two_answers(alloc: Global, initial: u32, len: usize) -> Result<Session, Fail> {
    let mut session = new_session(alloc, false)?;
    let long = vec![in alloc; 0; len]?;
    perform(
        alloc,
        &mut session,
        Call::Take(Step::Settings(&[(4, initial)])),
    )?;
    perform(alloc, &mut session, ENDED)?;
    perform(
        alloc,
        &mut session,
        Call::Take(Step::Headers(3, REQUEST, true, true)),
    )?;
    perform(alloc, &mut session, Call::Status(1))?;
    perform(alloc, &mut session, Call::Status(3))?;
    perform(alloc, &mut session, Call::Piece(1, long.as_slice(), false))?;
    perform(alloc, &mut session, Call::Piece(3, b"short", false))?;
    Ok(session)
}

/// The DATA frames that a session writes for a frame.
fn pieces_for(
    alloc: Global,
    session: &mut Session,
    step: Step<'_>,
) -> Result<Vec<(u16, u8)>, Fail> {
    let _earlier = session.take_output();
    perform_all(alloc, session, &[Call::Take(step)])?;
    pieces_of(alloc, session.take_output().as_slice())
}

#[test]
fn a_short_answer_is_not_kept_behind_a_long_one(rt: HostRuntime) -> Result<(), Fail> {
    let mut session = two_answers(rt.alloc(), 0, 20_000)?;
    let pieces = pieces_for(rt.alloc(), &mut session, Step::Settings(&[(4, 65_535)]))?;
    assert_eq!(rt;
        pieces.as_slice(),
        [(16_384, 1), (5, 3), (3_616, 1)].as_slice()
    );
    Ok(())
}

#[test]
fn answers_wait_for_the_window_of_the_connection(rt: HostRuntime) -> Result<(), Fail> {
    let mut session = two_answers(rt.alloc(), 100_000, 65_536)?;
    assert_eq!(rt; session.waiting(1), 1);
    assert_eq!(rt; session.waiting(3), 5);
    let pieces = pieces_for(rt.alloc(), &mut session, Step::Window(0, 6))?;
    // stream 1 had its turn
    assert_eq!(rt; pieces.as_slice(), [(5, 3), (1, 1)].as_slice());
    Ok(())
}
