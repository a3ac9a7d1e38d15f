//! The program `call_bench`: calls of gRPC over memory. A server takes small calls and answers them, with `Calls` or with a session
//! alone, or takes or sends messages of 4 MiB. `bench/calls` times it.
#![tactic(auto)]

mod alone;
mod large;
mod server;
mod small;
mod text;

use std::env;
use std::process::ExitCode;

/// How many bytes are written, by the words: what is done, how often, and how many calls are begun before they are answered.
fn run(rt: &HostRuntime) -> Option<u64> {
    let alloc = rt.alloc();
    let mut words = env::args(rt).ok()?;
    let _ = words.next();
    let kind = words.next()?;
    let count = words.next()?.parse::<u32>().ok()?;
    let size = words.next()?.parse::<u32>().ok()?;
    match kind.as_str() {
        "calls" => small::run(alloc, count, size),
        "session" => alone::run(alloc, count, size),
        "in" => large::come(alloc, count),
        "out" => large::go(alloc, count),
        _ => None,
    }
}

fn main(rt: HostRuntime) -> ExitCode {
    match run(&rt) {
        Some(written) => {
            let _ = println!(rt; "{written}");
            ExitCode::SUCCESS
        }
        None => ExitCode::FAILURE,
    }
}
