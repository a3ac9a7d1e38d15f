//! The program `block_bench`: it decodes the header block of a gRPC request, on a new table, so many times. `bench/blocks`
//! times it.
#![tactic(auto)]

use hpack_tables::{Table, decode_block};
use std::alloc::Global;
use std::env;
use std::process::ExitCode;

/// A request of seven headers, with plain strings.
const PLAIN: &str =
    "8386444b2f6275696c642e62617a656c2e72656d6f74652e657865637574696f6e2e76322e436f6e74656e744164647265737361626c6553746f726167652f46696e644d697373696e67426c6f627341096c6f63616c686f73744002746508747261696c6572735f106170706c69636174696f6e2f677270637a2d677270632d632b2b2f312e34382e3020677270632d632f32362e302e3020286c696e75783b2063687474703229";

/// The same with strings in Huffman code.
const CODED: &str =
    "838644b5623b4d448bc63f65a17b0b49d255cbe4a4b5263d4bf712f78f524b5261924b0a840e3a0bb927b073158c26aa4d06420d54d7683c684186a0e41d139d094082497f864d833505b11f5f8b1d75d0620d263d4c4d65647aa39acac8b13fdffb602bb4f2e0526b2b22c4604e2e05c0a7f541aab7cfda849d29ac5fdf";

/// The bytes of some hex.
fn bytes_of(alloc: Global, text: &str) -> Option<Vec<u8>> {
    hex::decode(alloc, text).ok()
}

/// How many headers there were in so many blocks.
fn decode(alloc: Global, block: &[u8], times: u32) -> Option<u64> {
    let mut count = 0u64;
    for _ in 0..times {
        let mut table = Table::new(alloc, 4_096);
        let headers = decode_block(alloc, &mut table, block).ok()?;
        count = count.saturating_add(headers.len() as u64);
    }
    Some(count)
}

/// How many headers there were, by the words: `plain` or `coded`, and how many blocks.
fn run(rt: &HostRuntime) -> Option<u64> {
    let alloc = rt.alloc();
    let mut words = env::args(rt).ok()?;
    let _ = words.next();
    let text = match words.next()?.as_str() {
        "plain" => PLAIN,
        "coded" => CODED,
        _ => return None,
    };
    let times = words.next()?.parse::<u32>().ok()?;
    let block = bytes_of(alloc, text)?;
    decode(alloc, block.as_slice(), times)
}

fn main(rt: HostRuntime) -> ExitCode {
    match run(&rt) {
        Some(count) => {
            let _ = println!(rt; "{count}");
            ExitCode::SUCCESS
        }
        None => ExitCode::FAILURE,
    }
}
