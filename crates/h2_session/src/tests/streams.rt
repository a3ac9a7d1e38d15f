//! What a frame does to streams (RFC 9113, sections 5 and 6), and what is written for it.

use crate::fault::ConnFault;
use crate::session::Session;
use crate::tests::{
    Call, ENDED, OPEN, REQUEST, SETTINGS, Step, frame_of, hand_in, new_session, perform_all,
    written,
};
use proto_wire::Bytes;
use std::alloc::Global;
use std::process::Abort;
use std::test::Fail;

/// What happens, what is written after SETTINGS with ACK, and how many streams are live then.
type Row = (&'static [Call<'static>], &'static [u8], u32);

/// The peer resets stream 1.
const RESET: Call<'static> = Call::Take(Step::Reset(1, 8));

const ROWS: &[Row] = &[
    // PINGs are answered in order
    (
        &[
            SETTINGS,
            Call::Take(Step::Ping(*b"12345678")),
            Call::Take(Step::Unknown(10)),
            Call::Take(Step::Ping(*b"abcdefgh")),
        ],
        b"\0\0\x08\x06\x01\0\0\0\x0012345678\0\0\x08\x06\x01\0\0\0\0abcdefgh",
        0,
    ),
    // payloads are granted again, but not to a stream that they end or that isn't live
    (
        &[
            SETTINGS,
            OPEN,
            Call::Take(Step::Data(1, b"abc", false)),
            Call::Take(Step::Data(1, b"", false)),
            Call::Take(Step::Data(1, b"de", true)),
        ],
        b"\0\0\x04\x08\0\0\0\0\0\0\0\0\x03\0\0\x04\x08\0\0\0\0\x01\0\0\0\x03\0\0\x04\x08\0\0\0\0\0\0\0\0\x02",
        1,
    ),
    (
        &[
            SETTINGS,
            OPEN,
            RESET,
            Call::Take(Step::Data(1, b"abc", true)),
        ],
        b"\0\0\x04\x08\0\0\0\0\0\0\0\0\x03",
        0,
    ),
    // a request without `:path` is malformed
    (
        &[
            SETTINGS,
            Call::Take(Step::Headers(1, b"\x83\x86", true, true)),
        ],
        b"\0\0\x04\x03\0\0\0\0\x01\0\0\0\x01",
        0,
    ),
    // a stream's window is lifted by 0, to its largest, and too far; that of a stream that isn't live is ignored
    (
        &[SETTINGS, OPEN, Call::Take(Step::Window(1, 0))],
        b"\0\0\x04\x03\0\0\0\0\x01\0\0\0\x01",
        0,
    ),
    (
        &[SETTINGS, OPEN, Call::Take(Step::Window(1, 0x7fff_0000))],
        b"",
        1,
    ),
    (
        &[SETTINGS, OPEN, Call::Take(Step::Window(1, 0x7fff_0001))],
        b"\0\0\x04\x03\0\0\0\0\x01\0\0\0\x03",
        0,
    ),
    (
        &[SETTINGS, OPEN, RESET, Call::Take(Step::Window(1, 0))],
        b"",
        0,
    ),
    // a block is decoded also where its stream isn't live: the next one names its entry of the table
    (
        &[
            SETTINGS,
            OPEN,
            RESET,
            Call::Take(Step::Headers(1, b"\x40\x01a\x01b", true, true)),
            Call::Take(Step::Headers(3, b"\x83\x86\x84\xbe", true, true)),
        ],
        b"",
        1,
    ),
    // a stream is reset once
    (
        &[SETTINGS, ENDED, Call::Cancel(1, 8), Call::Cancel(1, 2)],
        b"\0\0\x04\x03\0\0\0\0\x01\0\0\0\x08",
        0,
    ),
];

/// The acknowledgement of the peer's SETTINGS, and then this.
fn behind_ack(alloc: Global, bytes: &[u8]) -> Result<Bytes, Fail> {
    let mut all = Bytes::copy_of(alloc, b"\0\0\0\x04\x01\0\0\0\0")?;
    all.push_slice(bytes)?;
    Ok(all)
}

#[test]
fn frames_are_answered(rt: HostRuntime) -> Result<(), Fail> {
    'rows: for (calls, wanted, live) in ROWS {
        let (out, session) = written(rt.alloc(), false, calls)?;
        let wanted = behind_ack(rt.alloc(), wanted)?;
        assert_eq!(rt; out.as_slice(), wanted.as_slice());
        assert_eq!(rt; session.live(), *live);
    }
    Ok(())
}

/// A server with 100 live streams.
fn busy_server(alloc: Global) -> Result<Session, Fail> {
    let mut session = new_session(alloc, false)?;
    perform_all(alloc, &mut session, &[SETTINGS])?;
    'streams: for i in 0..100 {
        let call = Call::Take(Step::Headers(2 * i + 1, REQUEST, true, true));
        perform_all(alloc, &mut session, &[call])?;
    }
    let _answers = session.take_output();
    Ok(session)
}

#[test]
fn the_101st_stream_is_refused(rt: HostRuntime) -> Result<(), Fail> {
    // a request, and the code with which it is reset
    let cases = [
        (REQUEST, b"\0\0\x04\x03\0\0\0\0\xc9\0\0\0\x07".as_slice()),
        (
            b"\x83\x86".as_slice(),
            b"\0\0\x04\x03\0\0\0\0\xc9\0\0\0\x01".as_slice(),
        ),
    ];
    'cases: for (block, wanted) in cases {
        let mut session = busy_server(rt.alloc())?;
        let call = Call::Take(Step::Headers(201, block, true, true));
        perform_all(rt.alloc(), &mut session, &[call])?;
        assert_eq!(rt; session.take_output().as_slice(), wanted);
        assert_eq!(rt; session.live(), 100);
    }
    Ok(())
}

#[test]
fn a_session_is_given_up(rt: HostRuntime) -> Result<(), Fail> {
    let (_answers, mut session) = written(rt.alloc(), false, &[SETTINGS, OPEN])?;
    assert!(rt; !session.is_unopened() && session.is_live(1) && session.fault().is_none());
    session.give_up();
    let frame = frame_of(rt.alloc(), Step::Ping([0; 8]))?;
    let answer = hand_in(rt.alloc(), &mut session, 0, frame)?;
    assert_eq!(rt; answer.err(), Some(ConnFault::OutOfMemory));
    assert_eq!(rt; session.take_output().len(), 0);
    Ok(())
}
