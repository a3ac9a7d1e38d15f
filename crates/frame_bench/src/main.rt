//! The program `frame_bench`: it reads a MiB of DATA frames in pieces of 64 KiB, so many times. `bench/frames` times it.
#![tactic(auto)]

ghost use Rattle.std.specs.Prelude.{◌≤◌};

use h2_frames::{Frame, FrameReader, write_frame};
use proto_wire::Bytes;
use std::alloc::Global;
use std::env;
use std::process::ExitCode;

/// How many bytes are fed at a time.
const PIECE: usize = 65_536;

/// How many bytes a reader is fed at most.
const MOST: u64 = 1 << 59;

/// About a MiB of DATA frames with so many bytes each.
fn frames(alloc: Global, len: usize) -> Option<Bytes>
    requires { len ≤ 16384 }
{
    let mut out = Bytes::new(alloc);
    for _ in 0..(1 << 20) / (len + 9) {
        let bytes = Bytes::from_vec(vec![in alloc; 0u8; len].ok()?);
        let frame = Frame::Data {
            stream: 1,
            bytes,
            size: len as u32,
            end: false,
        };
        write_frame(&frame, &mut out).ok()?;
    }
    Some(out)
}

/// How many frames the reader gives after a piece.
fn feed(reader: &mut FrameReader, piece: &[u8]) -> Option<u64> {
    if reader.fed() > MOST || piece.len() > PIECE {
        return None;
    }
    reader.feed(piece).ok()?;
    let mut count = 0u64;
    for _ in 0..PIECE {
        match reader.next() {
            Ok(Some(_)) => count = count.saturating_add(1),
            Ok(None) => return Some(count),
            Err(_) => return None,
        }
    }
    None
}

/// How many frames there were, by the words: the bytes in each, and how many MiB.
fn run(rt: &HostRuntime) -> Option<u64> {
    let alloc = rt.alloc();
    let mut words = env::args(rt).ok()?;
    let _ = words.next();
    let len = words.next()?.parse::<usize>().ok()?;
    let times = words.next()?.parse::<u32>().ok()?;
    if len > 16_384 {
        return None;
    }
    let bytes = frames(alloc, len)?;
    let mut reader = FrameReader::new(alloc, false);
    let mut count = 0u64;
    for _ in 0..times {
        for piece in bytes.as_slice().chunks(PIECE) {
            count = count.saturating_add(feed(&mut reader, piece)?);
        }
    }
    Some(count)
}

fn main(rt: HostRuntime) -> ExitCode {
    match run(&rt) {
        Some(count) => {
            let _ = println!(rt; "{count}");
            ExitCode::SUCCESS
        }
        None => ExitCode::FAILURE,
    }
}
