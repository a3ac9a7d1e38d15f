//! Blocks that are taken.

use crate::tests::{assert_blocks, assert_headers, bytes_of};
use crate::*;
use std::test::*;

#[test]
fn the_four_literals_of_the_standard_are_read(rt: HostRuntime) -> Result<(), Fail> {
    // section C.2: a literal that is added, one that is not, one that never is, and an indexed header
    let cases = [
        (
            "400a637573746f6d2d6b65790d637573746f6d2d686561646572",
            ("custom-key", "custom-header"),
        ),
        ("040c2f73616d706c652f70617468", (":path", "/sample/path")),
        ("100870617373776f726406736563726574", ("password", "secret")),
        ("82", (":method", "GET")),
    ];
    for (hex, pair) in cases {
        let block = bytes_of(rt.alloc(), hex)?;
        let mut table = Table::new(rt.alloc(), 4_096);
        let headers = decode_block(rt.alloc(), &mut table, block.as_slice())?;
        assert_headers(&rt, hex, &headers, &[pair]);
    }
    Ok(())
}

/// The requests of sections C.3 and C.4.
const REQUESTS: [&[(&str, &str)]; 3] = [
    &[
        (":method", "GET"),
        (":scheme", "http"),
        (":path", "/"),
        (":authority", "www.example.com"),
    ],
    &[
        (":method", "GET"),
        (":scheme", "http"),
        (":path", "/"),
        (":authority", "www.example.com"),
        ("cache-control", "no-cache"),
    ],
    &[
        (":method", "GET"),
        (":scheme", "https"),
        (":path", "/index.html"),
        (":authority", "www.example.com"),
        ("custom-key", "custom-value"),
    ],
];

/// The blocks of these requests, with plain strings (C.3) and with coded ones (C.4).
const REQUEST_BLOCKS: [[&str; 3]; 2] = [
    [
        "828684410f7777772e6578616d706c652e636f6d",
        "828684be58086e6f2d6361636865",
        "828785bf400a637573746f6d2d6b65790c637573746f6d2d76616c7565",
    ],
    [
        "828684418cf1e3c2e5f23a6ba0ab90f4ff",
        "828684be5886a8eb10649cbf",
        "828785bf408825a849e95ba97d7f8925a849e95bb8e8b4bf",
    ],
];

#[test]
fn requests_are_read(rt: HostRuntime) -> Result<(), Fail> {
    for blocks in REQUEST_BLOCKS {
        assert_blocks(&rt, rt.alloc(), 4_096, &blocks, &REQUESTS)?;
    }
    Ok(())
}

/// The responses of sections C.5 and C.6, and then the entries that the table has after its oldest were evicted.
const RESPONSES: [&[(&str, &str)]; 4] = [
    &[
        (":status", "302"),
        ("cache-control", "private"),
        ("date", "Mon, 21 Oct 2013 20:13:21 GMT"),
        ("location", "https://www.example.com"),
    ],
    &[
        (":status", "307"),
        ("cache-control", "private"),
        ("date", "Mon, 21 Oct 2013 20:13:21 GMT"),
        ("location", "https://www.example.com"),
    ],
    &[
        (":status", "200"),
        ("cache-control", "private"),
        ("date", "Mon, 21 Oct 2013 20:13:22 GMT"),
        ("location", "https://www.example.com"),
        ("content-encoding", "gzip"),
        (
            "set-cookie",
            "foo=ASDJKHQKBZXOQWEOPIUAXQWEOIU; max-age=3600; version=1",
        ),
    ],
    &[
        (
            "set-cookie",
            "foo=ASDJKHQKBZXOQWEOPIUAXQWEOIU; max-age=3600; version=1",
        ),
        ("content-encoding", "gzip"),
        ("date", "Mon, 21 Oct 2013 20:13:22 GMT"),
    ],
];

/// The blocks of these responses, with plain strings (C.5) and with coded ones (C.6).
const RESPONSE_BLOCKS: [[&str; 4]; 2] = [
    [
        "4803333032580770726976617465611d4d6f6e2c203231204f637420323031332032303a31333a323120474d546e1768747470733a2f2f7777772e6578616d706c652e636f6d",
        "4803333037c1c0bf",
        "88c1611d4d6f6e2c203231204f637420323031332032303a31333a323220474d54c05a04677a69707738666f6f3d4153444a4b48514b425a584f5157454f50495541585157454f49553b206d61782d6167653d333630303b2076657273696f6e3d31",
        "bebfc0",
    ],
    [
        "488264025885aec3771a4b6196d07abe941054d444a8200595040b8166e082a62d1bff6e919d29ad171863c78f0b97c8e9ae82ae43d3",
        "4883640effc1c0bf",
        "88c16196d07abe941054d444a8200595040b8166e084a62d1bffc05a839bd9ab77ad94e7821dd7f2e6c7b335dfdfcd5b3960d5af27087f3672c1ab270fb5291f9587316065c003ed4ee5b1063d5007",
        "bebfc0",
    ],
];

#[test]
fn responses_are_read_with_evictions(rt: HostRuntime) -> Result<(), Fail> {
    for blocks in RESPONSE_BLOCKS {
        assert_blocks(&rt, rt.alloc(), 256, &blocks, &RESPONSES)?;
    }
    Ok(())
}
