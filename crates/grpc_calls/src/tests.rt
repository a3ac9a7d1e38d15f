//! What no clause says: worked examples.

ghost use Rattle.std.specs.Prelude.{◌≡◌, IfOk, OnOk};
ghost use Rattle.h2_session.specs.declared.role.Role.TheVariants.{Client as AClient};

use crate::calls::Calls;
use crate::event::CallEvent;
use casd_base::Status;
use std::alloc::Global;
use std::process::Abort;
use std::test::Fail;

mod answers;
mod clients;

/// More bytes than a test feeds.
const LIMIT: u64 = 0x10_0000_0000;

/// An event that is wanted.
#[derive(Clone, Copy)]
pub(crate) enum Seen<'a> {
    Begun(u32, &'a str),
    Message(u32, &'a [u8]),
    HalfClosed(u32),
    Cancelled(u32, u32),
    /// The number of the code, and the text.
    Broken(u32, u8, &'a str),
    Ended(u32, u8, &'a str),
    GoAway,
}

fn is_status(status: &Status, code: u8, text: &str) -> bool {
    status.code.number() == code && status.text.as_str() == text
}

fn is_seen(event: &CallEvent, seen: Seen<'_>) -> bool {
    match (event, seen) {
        (CallEvent::Begun { stream, path }, Seen::Begun(number, text)) => {
            *stream == number && path.as_str() == text
        }
        (CallEvent::Message { stream, bytes }, Seen::Message(number, content)) => {
            *stream == number && bytes.as_slice() == content
        }
        (CallEvent::HalfClosed { stream }, Seen::HalfClosed(number)) => *stream == number,
        (CallEvent::Cancelled { stream, code }, Seen::Cancelled(number, wanted)) => {
            *stream == number && *code == wanted
        }
        (CallEvent::Broken { stream, status }, Seen::Broken(number, code, text)) => {
            *stream == number && is_status(status, code, text)
        }
        (CallEvent::Ended { stream, status }, Seen::Ended(number, code, text)) => {
            *stream == number && is_status(status, code, text)
        }
        (CallEvent::GoAway, Seen::GoAway) => true,
        _ => false,
    }
}

/// A client that has begun a call on stream 1.
pub(crate) fn client(alloc: Global) -> Result<Calls, Fail>
    ensures { IfOk result (λ calls. calls.session.part.role ≡ AClient) }
{
    let mut calls = Calls::client(alloc)?;
    if calls.begin("/a/B")? != Some(1) {
        return Err("another stream".into());
    }
    Ok(calls)
}

/// Feeds bytes.
pub(crate) fn feed(calls: &mut Calls, bytes: &[u8]) -> Result<(), Fail>
    ensures { OnOk result (calls.new.session.part.role ≡ calls.old.session.part.role) }
{
    if calls.fed() > LIMIT || bytes.len() as u64 > LIMIT {
        return Err("too long".into());
    }
    calls.feed(bytes)?;
    Ok(())
}

/// How many of these events were told, if the further ones are the next of them, with so many told before.
pub(crate) fn tell(calls: &mut Calls, events: &[Seen<'_>], told: usize) -> Option<usize>
    ensures { calls.new.session.part.role ≡ calls.old.session.part.role }
{
    let mut at = told;
    // More events than a test has.
    'events: for _ in 0..100 {
        match calls.next() {
            Ok(Some(event)) => {
                if !is_seen(&event, *events.get(at)?) {
                    return None;
                }
                at = at.saturating_add(1);
            }
            Ok(None) => return Some(at),
            Err(_) => return None,
        }
    }
    None
}
