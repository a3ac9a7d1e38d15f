use super::*;
use blob_store::MemShelf;
use casd_base::MemLink;
use proto_wire::Bytes;
use std::alloc::Global;
use std::process::Abort;
use std::sync::Wait;
use std::test::*;
use std::thread::Threads;

/// A client that asks for the capabilities: its preface, SETTINGS without values, HEADERS on stream 1, and DATA with a message
/// of no bytes.
const ASKS: &[u8] =
    b"PRI * HTTP/2.0\r\n\r\nSM\r\n\r\n\0\0\0\x04\0\0\0\0\0\0\0\x54\x01\x04\0\0\0\x01\x83\x86\x04=/build.bazel.remote.execution.v2.Capabilities/GetCapabilities\x0f\x10\x10application/grpc\0\0\x05\0\x01\0\0\0\x01\0\0\0\0\0";

const WORDS: [&str; 3] = ["serve", "s", "f"];

/// What a host meets.
#[derive(Clone, Copy)]
struct Case<'a> {
    words: &'a [&'a str],
    /// The bodies that its shelf finds.
    found: &'a [&'a [u8]],
    /// How many clients come.
    clients: usize,
    /// Which calls of it fail.
    failing: &'a [u64],
}

fn bodies(alloc: Global, found: &[&[u8]]) -> Result<Vec<Bytes>, Fail> {
    let mut bodies = Vec::new(alloc);
    'bodies: for body in found {
        bodies.push(Bytes::from_vec(Vec::from_slice(alloc, body)?))?;
    }
    Ok(bodies)
}

fn conns(alloc: Global, clients: usize) -> Result<Vec<MemConn<MemLink>>, Fail> {
    let mut conns = Vec::new(alloc);
    'clients: for _ in 0..clients {
        let input = Vec::from_slice(alloc, ASKS)?;
        let link = MemLink::new(alloc, input, Vec::new(alloc), Vec::new(alloc));
        let shelf = MemShelf::new(alloc, Vec::new(alloc), Vec::new(alloc), Vec::new(alloc));
        conns.push(Conn { link, shelf })?;
    }
    Ok(conns)
}

/// The host after it was served, and the status.
fn run<R: Threads + Wait + Sync>(
    rt: &R,
    alloc: Global,
    case: Case<'_>,
) -> Result<(MemHost<MemLink>, u8), Fail> {
    let mut host = MemHost::new(
        alloc,
        bodies(alloc, case.found)?,
        conns(alloc, case.clients)?,
        Vec::from_slice(alloc, case.failing)?,
    );
    let status = serve(rt, alloc, case.words, &mut host);
    Ok((host, status))
}

#[test]
fn the_line_tells_what_was_found_and_who_came(rt: HostRuntime) -> Result<(), Fail> {
    let cases: [(&[&[u8]], usize, &[u8]); 4] = [
        (&[], 0, b"connections 0 entries 2 rows 0 used 0\n"),
        (&[], 1, b"connections 1 entries 4 rows 0 used 0\n"),
        (&[], 3, b"connections 3 entries 8 rows 0 used 0\n"),
        (
            &[b"abc", b"abc", b""],
            0,
            b"connections 0 entries 2 rows 1 used 3\n",
        ),
    ];
    'cases: for (found, clients, line) in cases {
        let case = Case {
            words: &WORDS,
            found,
            clients,
            failing: &[],
        };
        let (host, status) = run(&rt, rt.alloc(), case)?;
        assert_eq!(rt; status, 0);
        assert_eq!(rt; host.printed(), line);
        assert_eq!(rt; host.ended().len(), clients);
    }
    Ok(())
}

#[test]
fn nothing_is_printed_with_another_status(rt: HostRuntime) -> Result<(), Fail> {
    // the calls that fail, and the status: of accept, of keep and of print
    let cases: [(&[u64], u8); 3] = [(&[0], 4), (&[1], 7), (&[2], 6)];
    'cases: for (failing, status) in cases {
        let case = Case {
            words: &WORDS,
            found: &[],
            clients: 0,
            failing,
        };
        let (host, answer) = run(&rt, rt.alloc(), case)?;
        assert_eq!(rt; answer, status);
        assert_eq!(rt; host.printed(), b"".as_slice());
    }
    Ok(())
}

#[test]
fn words_are_refused_where_they_are_not_of_their_form(rt: HostRuntime) -> Result<(), Fail> {
    let cases: [(&[&str], u8); 16] = [
        (&[], 2),
        (&["serve", "s"], 2),
        (&["serve", "s", "f", "g"], 2),
        (&["serve", "s", ""], 2),
        (&["replay", "s", "f"], 2),
        (
            &["serve", "s", "f", "--quota-low", "5", "--quota-high", "4"],
            2,
        ),
        (&["serve", "s", "f", "--quota-high", "5"], 2),
        (
            &["serve", "s", "f", "--quota-high", "4611686018427387905"],
            2,
        ),
        (&["serve", "--quota-high=4611686018427387904", "s", "f"], 0),
        (&["serve", "--connections", "0", "s", "f"], 2),
        (&["serve", "--connections", "2097153", "s", "f"], 2),
        (&["serve", "s", "--connections=007", "--", "f"], 0),
        (&["serve", "s", "f", "--guard", "session"], 0),
        (&["serve", "s", "f", "--guard", "both"], 2),
        (&["serve", "s", "f", "--guard=leases", "--guard=leases"], 2),
        (&["serve", "s", "-f"], 2),
    ];
    'cases: for (words, status) in cases {
        let case = Case {
            words,
            found: &[],
            clients: 0,
            failing: &[],
        };
        let (host, answer) = run(&rt, rt.alloc(), case)?;
        assert_eq!(rt; answer, status);
        assert_eq!(rt; host.printed().is_empty(), status == 2);
    }
    Ok(())
}
