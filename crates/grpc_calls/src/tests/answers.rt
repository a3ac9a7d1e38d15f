//! What an answer writes, and what is kept of a request.

ghost use Rattle.std.specs.Prelude.{◌≡◌, []};
ghost use Rattle.h2_session.specs.declared.role.Role.TheVariants.{Server as AServer};

use crate::calls::Calls;
use crate::tests::clients::CALL;
use crate::tests::{Seen, client, feed, tell};
use casd_base::{Code, Status};
use proto_wire::{Bytes, Text};
use std::alloc::Global;
use std::process::Abort;
use std::test::Fail;

const PATH: &str = "/build.bazel.remote.execution.v2.ContentAddressableStorage/FindMissingBlobs";

/// The events of the call.
const EVENTS: &[Seen<'static>] = &[
    Seen::Begun(1, PATH),
    Seen::Message(1, b""),
    Seen::HalfClosed(1),
];

/// What the call is answered (RFC 9113, section 4.1, and RFC 7541, section 6.2.2): SETTINGS with at most 100 streams and header
/// lists of at most 16,384 bytes; their acknowledgement; the five bytes of DATA, granted again; and then headers, DATA and
/// trailers.
const ANSWER: &[u8] = b"\0\0\x0c\x04\0\0\0\0\0\0\x03\0\0\0\x64\0\x06\0\0\x40\0\
\0\0\0\x04\x01\0\0\0\0\
\0\0\x04\x08\0\0\0\0\0\0\0\0\x05\
\0\0\x14\x01\x04\0\0\0\x01\x88\x0f\x10\x10application/grpc\
\0\0\x07\0\0\0\0\0\x01\0\0\0\0\x02ok\
\0\0\x0f\x01\x05\0\0\0\x01\0\x0bgrpc-status\x010";

fn status(code: Code) -> Status
    ensures { result.text ≡ [] }
{
    Status {
        code,
        text: Text::empty(),
    }
}

/// Answers the call on stream 1.
fn answer(calls: &mut Calls) -> Result<(), Fail>
    requires { calls.old.session.part.role ≡ AServer }
{
    if !calls.is_live(1) {
        return Err("not live".into());
    }
    calls.reply(1, b"ok")?;
    if !calls.is_live(1) {
        return Err("not live behind its message".into());
    }
    calls.finish(1, &status(Code::Ok))?;
    Ok(())
}

/// What is written for the call, whose bytes are fed in two pieces.
fn answered(alloc: Global, cut: usize) -> Result<Bytes, Fail> {
    let mut calls = Calls::server(alloc)?;
    let (first, second) = CALL.split_at_checked(cut).ok_or("a cut behind the end")?;
    feed(&mut calls, first)?;
    let told = tell(&mut calls, EVENTS, 0).ok_or("another event")?;
    feed(&mut calls, second)?;
    if tell(&mut calls, EVENTS, told) != Some(3) {
        return Err("other events".into());
    }
    answer(&mut calls)?;
    Ok(calls.take_output())
}

#[test]
fn a_call_is_answered_whatever_the_cut(rt: HostRuntime) -> Result<(), Fail> {
    'cuts: for cut in 0..=CALL.len() {
        let written = answered(rt.alloc(), cut)?;
        assert_eq!(rt; written.as_slice(), ANSWER, "{cut}");
    }
    Ok(())
}

#[test]
fn a_finished_call_is_over(rt: HostRuntime) -> Result<(), Fail> {
    let mut calls = Calls::server(rt.alloc())?;
    let (headers, message) = CALL
        .split_at_checked(CALL.len() - 14)
        .ok_or("a short call")?;
    feed(&mut calls, headers)?;
    assert_eq!(rt; tell(&mut calls, EVENTS, 0), Some(1));
    answer(&mut calls)?;
    assert_eq!(rt; calls.is_live(1), false);
    // Its message and a reset are told no more.
    feed(&mut calls, message)?;
    feed(&mut calls, b"\0\0\x04\x03\0\0\0\0\x01\0\0\0\x08")?;
    assert_eq!(rt; tell(&mut calls, EVENTS, 1), Some(1));
    Ok(())
}

#[test]
fn a_message_is_held_until_it_is_whole(rt: HostRuntime) -> Result<(), Fail> {
    let mut calls = Calls::server(rt.alloc())?;
    feed(
        &mut calls,
        CALL.get(..CALL.len() - 14).ok_or("a short call")?,
    )?;
    assert_eq!(rt; tell(&mut calls, EVENTS, 0), Some(1));
    let pieces: [(&[u8], u64); 4] = [
        (b"\0\0\x03\0\0\0\0\0\x01\0\0\0", 3),
        (b"\0\0\x04\0\0\0\0\0\x01\0\x05ab", 7),
        (b"\0\0\x03\0\0\0\0\0\x01cd", 7),
        (b"e", 0),
    ];
    let events = [Seen::Begun(1, PATH), Seen::Message(1, b"abcde")];
    let mut told = 1;
    'pieces: for (bytes, held) in pieces {
        feed(&mut calls, bytes)?;
        told = tell(&mut calls, &events, told).ok_or("another event")?;
        assert_eq!(rt; calls.held(1), held);
    }
    assert_eq!(rt; told, 2);
    Ok(())
}

#[test]
fn a_client_writes_its_call(rt: HostRuntime) -> Result<(), Fail> {
    let mut calls = client(rt.alloc())?;
    if !calls.is_live(1) {
        return Err("not live".into());
    }
    calls.reply(1, b"abc")?;
    assert_eq!(rt; calls.waiting(1), 0);
    let written = calls.take_output();
    let wanted = b"PRI * HTTP/2.0\r\n\r\nSM\r\n\r\n\
\0\0\x0c\x04\0\0\0\0\0\0\x02\0\0\0\0\0\x06\0\0\x40\0\
\0\0\x33\x01\x04\0\0\0\x01\x83\x86\x04\x04/a/B\x01\x09localhost\x0f\x10\x10application/grpc\0\x02te\x08trailers\
\0\0\x08\0\0\0\0\0\x01\0\0\0\0\x03abc";
    assert_eq!(rt; written.as_slice(), wanted.as_slice());
    Ok(())
}
