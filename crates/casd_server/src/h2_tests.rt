use super::*;
use casd_base::MemLink;
use digest_types::unhex;
use std::alloc::Global;
use std::test::*;

/// The preface of the client, and its SETTINGS without a value.
const BEGINS: &str = "505249202a20485454502f322e300d0a0d0a534d0d0a0d0a000000040000000000";

/// The SETTINGS of the server.
const SETTINGS: &str = "00000c040000000000000300000064000600004000";

/// Its SETTINGS, and the ACK of those of the client.
const ANSWERS: &str = "00000c040000000000000300000064000600004000000000040100000000";

// What a connection writes, in hex, and its status: of this input in hex, where reads give at most so many bytes and these
// calls fail.
fn run(
    alloc: Global,
    input: &str,
    cuts: &[usize],
    reads: &[u64],
    writes: &[u64],
) -> Result<(u8, String), Fail> {
    let input = unhex(alloc, input.as_bytes())
        .ok()
        .ok_or("memory ran out")?
        .ok_or("no hex")?;
    let cuts = Vec::from_slice(alloc, cuts)?;
    let reads = Vec::from_slice(alloc, reads)?;
    let writes = Vec::from_slice(alloc, writes)?;
    let mut source = MemLink::new(alloc, input, cuts, reads);
    let mut sink = MemLink::new(alloc, Vec::new(alloc), Vec::new(alloc), writes);
    let status = replay(alloc, &["replay", "h2"], &mut source, &mut sink);
    Ok((status, hex::encode(alloc, sink.written())?))
}

#[test]
fn a_connection_ends_where_it_has_to(rt: HostRuntime) -> Result<(), Fail> {
    let alloc = rt.alloc();
    // what it shows, the input, the reads and the writes that fail, the status, and the output
    let cases: [(&str, &str, &[u64], &[u64], u8, &str); 7] = [
        ("no request", BEGINS, &[], &[], 0, ANSWERS),
        ("no input", "", &[], &[], 0, SETTINGS),
        (
            "a request of HTTP/1.1",
            "474554202f20485454502f312e310a",
            &[],
            &[],
            3,
            "00000c0400000000000003000000640006000040000000080700000000000000000000000001",
        ),
        (
            "the input ends within the preface",
            "505249202a20485454502f322e30",
            &[],
            &[],
            3,
            SETTINGS,
        ),
        (
            "the input ends within a frame",
            "505249202a20485454502f322e300d0a0d0a534d0d0a0d0a0000000400000000",
            &[],
            &[],
            3,
            SETTINGS,
        ),
        ("the first read fails", BEGINS, &[0], &[], 4, SETTINGS),
        ("the first write fails", BEGINS, &[], &[0], 5, ""),
    ];
    for (shows, input, reads, writes, status, output) in cases {
        let (ended, written) = run(alloc, input, &[], reads, writes)?;
        assert_eq!(rt; written.as_str(), output, "{shows}");
        assert_eq!(rt; ended, status, "{shows}");
    }
    Ok(())
}

#[test]
fn a_connection_may_come_in_pieces(rt: HostRuntime) -> Result<(), Fail> {
    for cut in 1..33 {
        let (ended, written) = run(rt.alloc(), BEGINS, &[cut], &[], &[])?;
        assert_eq!(rt; written.as_str(), ANSWERS, "{cut}");
        assert_eq!(rt; ended, 0, "{cut}");
    }
    Ok(())
}
