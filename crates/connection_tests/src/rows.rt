//! Connections by a table: what comes in, what is written, and how it ends.

use crate::calls::CALLS;
use crate::clients::*;
use crate::served::{Peer, joined, serve};
use crate::wire::*;
use casd_connection::ConnEnd;
use std::alloc::Global;
use std::process::Abort;
use std::test::*;

/// How an example ends, and how many bytes it keeps in the store.
type Row<'a> = (&'a str, &'a [&'a [u8]], &'a [&'a [u8]], ConnEnd, u64);

const ROWS: &[Row<'static>] = &[
    ("settings", &[OPENING], &[SETTINGS, ACK], ConnEnd::Done, 0),
    ("nothing", &[], &[SETTINGS], ConnEnd::Done, 0),
    (
        "capabilities",
        &[OPENING, ASKS_CAPABILITIES, EMPTY_MESSAGE],
        &[SETTINGS, ACK, GRANT_5, BEGUN, CAPABILITIES, OK],
        ConnEnd::Done,
        0,
    ),
    (
        "a blob",
        &[OPENING, ASKS_BATCH, GIVES_ABC],
        &[SETTINGS, ACK, GRANT_82, BEGUN, STORED_ABC, OK],
        ConnEnd::Done,
        3,
    ),
    (
        "a mismatch",
        &[OPENING, ASKS_BATCH, GIVES_AS_ABD],
        &[SETTINGS, ACK, GRANT_82, BEGUN, MISMATCH, OK],
        ConnEnd::Done,
        0,
    ),
    (
        "upper case",
        &[OPENING, ASKS_BATCH, GIVES_IN_UPPER_CASE],
        &[SETTINGS, ACK, GRANT_82, BEGUN, BAD_DIGEST],
        ConnEnd::Done,
        0,
    ),
    (
        "no message",
        &[OPENING, ASKS_BATCH, NOTHING],
        &[SETTINGS, ACK, BEGUN, NO_MESSAGE],
        ConnEnd::Done,
        0,
    ),
    (
        "unknown path",
        &[OPENING, ASKS_UNKNOWN],
        &[SETTINGS, ACK, BEGUN, NO_SUCH_METHOD, RESET],
        ConnEnd::Done,
        0,
    ),
    (
        "a path that is not served yet",
        &[OPENING, ASKS_UNBUILT],
        &[SETTINGS, ACK, BEGUN, NOT_BUILT, RESET],
        ConnEnd::Done,
        0,
    ),
    (
        "cancelled",
        &[OPENING, ASKS_BATCH, CANCEL],
        &[SETTINGS, ACK],
        ConnEnd::Done,
        0,
    ),
    (
        "a client that goes",
        &[OPENING, GOAWAY, ASKS_UNKNOWN],
        &[SETTINGS, ACK],
        ConnEnd::Done,
        0,
    ),
    (
        "HTTP/1.1",
        &[b"GET / HTTP/1.1\n"],
        &[SETTINGS, GOAWAY_PROTOCOL],
        ConnEnd::Protocol { code: 1, at: 0 },
        0,
    ),
    (
        "an even stream",
        &[OPENING, HEADERS_ON_2],
        &[SETTINGS, ACK, GOAWAY_PROTOCOL],
        ConnEnd::Protocol { code: 1, at: 33 },
        0,
    ),
    (
        "a long frame",
        &[OPENING, LONG_FRAME],
        &[SETTINGS, ACK, GOAWAY_SIZE],
        ConnEnd::Protocol { code: 6, at: 33 },
        0,
    ),
    (
        "a cut frame",
        &[OPENING, b"\0\0\x08\x06\0\0\0\0"],
        &[SETTINGS, ACK],
        ConnEnd::Truncated { at: 33 },
        0,
    ),
];

#[test]
fn connections_are_served_as_the_table_says(rt: HostRuntime) -> Result<(), Fail> {
    let alloc = rt.alloc();
    'rows: for &(name, input, output, end, used) in ROWS {
        let served = serve(&rt, alloc, Peer::sending(input))?;
        let wanted = joined(alloc, output)?;
        assert_eq!(rt; served.written.as_slice(), wanted.as_slice(), "{name}");
        assert_eq!(rt; served.report.end, end, "{name}");
        assert_eq!(rt;
            served.report.read,
            joined(alloc, input)?.len() as u64,
            "{name}"
        );
        assert_eq!(rt; served.report.written, wanted.len() as u64, "{name}");
        assert_eq!(rt; served.usage.used, used, "{name}");
    }
    Ok(())
}

#[test]
fn calls_on_many_blobs_are_answered_as_the_table_says(rt: HostRuntime) -> Result<(), Fail> {
    let alloc = rt.alloc();
    'calls: for &(name, has_changed, input, output) in CALLS {
        let spoilt: &[u64] = if has_changed { &[0] } else { &[] };
        let pieces = [input];
        let peer = Peer {
            spoilt,
            ..Peer::sending(&pieces)
        };
        let served = serve(&rt, alloc, peer)?;
        assert_eq!(rt; served.written.as_slice(), output, "{name}");
        assert_eq!(rt; served.report.end, ConnEnd::Done, "{name}");
    }
    Ok(())
}

/// What comes in and is written, in which every cut of the input makes no difference.
const CUT: &[(&str, &[&[u8]], &[&[u8]])] = &[
    (
        "capabilities",
        &[OPENING, ASKS_CAPABILITIES, EMPTY_MESSAGE],
        &[SETTINGS, ACK, GRANT_5, BEGUN, CAPABILITIES, OK],
    ),
    ("python3-h2", &[H2_SENDS], &[H2_IS_ANSWERED]),
    ("nghttp2", &[NGHTTP2_SENDS], &[NGHTTP2_IS_ANSWERED]),
];

#[test]
fn any_cut_gives_the_same_answer(rt: HostRuntime) -> Result<(), Fail> {
    let alloc = rt.alloc();
    'connections: for &(name, input, output) in CUT {
        let output = joined(alloc, output)?;
        'cuts: for cut in 1..=joined(alloc, input)?.len() {
            let peer = Peer {
                cuts: &[cut],
                ..Peer::sending(input)
            };
            let served = serve(&rt, alloc, peer)?;
            assert_eq!(rt;
                served.written.as_slice(),
                output.as_slice(),
                "{name} {cut}"
            );
            assert_eq!(rt; served.report.end, ConnEnd::Done, "{name} {cut}");
        }
    }
    Ok(())
}

/// How a connection ends if the call of the link of this number fails, and how many of the pieces of its output are written. The
/// calls are a write, a read of 33 bytes, a write, two reads, a write and a read that finds the end.
const FAULTS: &[(u64, ConnEnd, usize)] = &[
    (0, ConnEnd::WriteFault, 0),
    (1, ConnEnd::ReadFault, 1),
    (2, ConnEnd::WriteFault, 1),
    (3, ConnEnd::ReadFault, 2),
    (4, ConnEnd::ReadFault, 2),
    (5, ConnEnd::WriteFault, 2),
    (6, ConnEnd::ReadFault, 6),
    (7, ConnEnd::Done, 6),
];

#[test]
fn a_fault_of_the_link_is_the_end(rt: HostRuntime) -> Result<(), Fail> {
    let alloc = rt.alloc();
    let output: &[&[u8]] = &[SETTINGS, ACK, GRANT_5, BEGUN, CAPABILITIES, OK];
    'faults: for &(number, end, pieces) in FAULTS {
        let peer = Peer {
            cuts: &[33, 40],
            link_faults: &[number],
            ..Peer::sending(&[OPENING, ASKS_CAPABILITIES, EMPTY_MESSAGE])
        };
        let served = serve(&rt, alloc, peer)?;
        let wanted = joined(alloc, output.get(..pieces).ok_or("too many pieces")?)?;
        assert_eq!(rt; served.report.end, end, "{number}");
        assert_eq!(rt; served.written.as_slice(), wanted.as_slice(), "{number}");
    }
    Ok(())
}

#[test]
fn a_blob_that_is_not_kept_is_told(rt: HostRuntime) -> Result<(), Fail> {
    let alloc = rt.alloc();
    let peer = Peer::sending(&[OPENING, ASKS_BATCH, GIVES_ABC]);
    let failed = serve(
        &rt,
        alloc,
        Peer {
            shelf_faults: &[0],
            ..peer
        },
    )?;
    let wanted = joined(alloc, &[SETTINGS, ACK, GRANT_82, BEGUN, SHELF_FAILED, OK])?;
    assert_eq!(rt; failed.written.as_slice(), wanted.as_slice());
    let full = serve(&rt, alloc, Peer { high: 2, ..peer })?;
    let wanted = joined(alloc, &[SETTINGS, ACK, GRANT_82, BEGUN, NO_SPACE, OK])?;
    assert_eq!(rt; full.written.as_slice(), wanted.as_slice());
    Ok(())
}
