//! The program `casd`: it hands its words, and its input and output or a socket and a folder, to the library, and says in
//! words on standard error what a status other than 0 means.
#![tactic(auto)]

use casd_base::{StdSink, StdSource};
use casd_daemon::serve;
use casd_server::replay;
use socket_host::SocketHost;
use std::io::ErrorKind;
use std::process::ExitCode;
use std::sync::Wait;
use std::thread::Threads;
use std::{env, io};

const USAGE: &str =
    "usage: casd serve SOCKET FOLDER [--quota-low BYTES] [--quota-high BYTES] [--connections N]
                  [--guard leases|session]
       casd replay records < RECORDS
       casd replay h2 < BYTES
The first serves the gRPC clients that connect to a Unix socket with the blobs of a folder, until the socket's file is
removed. The second answers each record of standard input by a line on standard output; the third answers the bytes of
a client of HTTP/2 by those of a server.";

/// Which of the library's calls the words are for.
#[derive(Clone, Copy, PartialEq, Eq)]
enum Call {
    Replay,
    Serve,
}

/// What a status means, where it isn't 0 and the host hasn't said it.
fn meaning(call: Call, status: u8) -> Option<&'static str> {
    match (call, status) {
        (_, 0) => None,
        (_, 2) => Some(USAGE),
        (Call::Replay, 3) => Some("casd: the input is malformed"),
        (Call::Replay, 4) => Some("casd: standard input could not be read"),
        (Call::Replay, 5) => Some("casd: standard output could not be written"),
        (Call::Replay, 6) | (Call::Serve, 5) => Some("casd: out of memory"),
        (Call::Replay, _) => Some("casd: more input than is allowed"),
        (Call::Serve, 3) => Some("casd: the blobs of the folder could not be read"),
        (Call::Serve, _) => None,
    }
}

/// The words without the program's name, or the error for which there are none: they aren't text, or memory ran out.
fn words_of(rt: &HostRuntime) -> io::Result<Vec<String>> {
    let mut words = Vec::new(rt.alloc());
    for word in env::args(rt)?.skip(1) {
        words.push(word)?;
    }
    Ok(words)
}

fn run<R: Threads + Wait + Sync>(rt: HostRuntime, threads: &R, call: Call, words: &[&str]) -> u8 {
    let alloc = rt.alloc();
    match call {
        Call::Replay => {
            let mut source = StdSource::new(rt.stdin());
            let mut sink = StdSink::new(rt.stdout());
            replay(alloc, words, &mut source, &mut sink)
        }
        Call::Serve => {
            let mut host = SocketHost::new(rt, alloc);
            serve(threads, alloc, words, &mut host)
        }
    }
}

fn main(rt: HostRuntime) -> ExitCode {
    let words = match words_of(&rt) {
        Ok(words) => words,
        Err(e) if e.kind() == ErrorKind::OutOfMemory => return end(rt, Call::Serve, 5),
        Err(_) => return end(rt, Call::Serve, 2),
    };
    let mut texts = Vec::new(rt.alloc());
    for word in &words {
        if texts.push(word.as_str()).is_err() {
            return end(rt, Call::Serve, 5);
        }
    }
    let call = match texts.first() {
        Some(&"replay") => Call::Replay,
        _ => Call::Serve,
    };
    end(rt, call, run(rt, &rt, call, &texts))
}

/// Ends with a status, and says what it means.
fn end(rt: HostRuntime, call: Call, status: u8) -> ExitCode {
    if let Some(text) = meaning(call, status) {
        let _ = eprintln!(rt; "{text}");
    }
    ExitCode::from(status)
}
