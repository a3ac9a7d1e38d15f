//! Small calls with `Calls`.

use crate::server::Server;
use crate::text::{FRAMED, MESSAGE, call, grant, number};
use std::alloc::Global;

/// Answers a call, and the client grants its window again.
fn answer(server: &mut Server, stream: u32) -> Option<()> {
    server.reply(stream, MESSAGE)?;
    server.finish(stream)?;
    let _none = server.feed(&grant(0, FRAMED.len() as u32))?;
    Some(())
}

/// Takes calls on streams of these places, and answers them.
fn batch(server: &mut Server, from: u32, to: u32) -> Option<u64> {
    'requests: for place in from..to {
        let _message = server.feed(&call(number(place)?))?;
    }
    'answers: for place in from..to {
        answer(server, number(place)?)?;
    }
    Some(server.written())
}

/// So many calls in batches of this size. It answers how many bytes are written.
pub(crate) fn run(alloc: Global, count: u32, size: u32) -> Option<u64> {
    let mut server = Server::new(alloc)?;
    answer(&mut server, 1)?;
    let mut written = server.written();
    let mut from = 1u32;
    'batches: for _ in 0..count.checked_div(size)? {
        let to = from.checked_add(size)?;
        written = written.checked_add(batch(&mut server, from, to)?)?;
        from = to;
    }
    Some(written)
}
