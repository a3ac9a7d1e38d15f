//! The program `reader_bench`: it takes standard input whole and reads it as a Directory, as a Directory's links or as a
//! FindMissingBlobsRequest, so many times. `bench/readers` times it.
#![tactic(auto)]

use cas_messages::{FindMissingBlobsRequest, Message};
use directory_canon::{links_of, read_canon};
use std::alloc::Global;
use std::env;
use std::io::Read;
use std::process::ExitCode;

fn is_read(alloc: Global, reader: &str, bytes: &[u8]) -> bool {
    match reader {
        "directory" => read_canon(alloc, bytes).is_ok(),
        "links" => match links_of(alloc, bytes) {
            Ok(links) => links.is_some(),
            Err(_) => false,
        },
        "digests" => FindMissingBlobsRequest::read(alloc, bytes).is_ok(),
        _ => false,
    }
}

/// Whether the input was read each time, by the words: the reader and how many times.
fn run(rt: &HostRuntime) -> bool {
    let alloc = rt.alloc();
    let Ok(mut words) = env::args(rt) else {
        return false;
    };
    let _ = words.next();
    let (Some(reader), Some(times)) = (words.next(), words.next()) else {
        return false;
    };
    let Ok(times) = times.parse::<u32>() else {
        return false;
    };
    let mut bytes = Vec::new(alloc);
    if rt.stdin().read_to_end(&mut bytes).is_err() {
        return false;
    }
    (0..times).all(|_| is_read(alloc, reader.as_str(), bytes.as_slice()))
}

fn main(rt: HostRuntime) -> ExitCode {
    if run(&rt) {
        ExitCode::SUCCESS
    } else {
        ExitCode::FAILURE
    }
}
