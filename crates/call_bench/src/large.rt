//! Messages of 4 MiB.

use crate::server::Server;
use crate::text::grant;
use h2_frames::write_data;
use proto_wire::Bytes;
use std::alloc::Global;

/// The bytes of a message.
const MESSAGE: usize = 4 << 20;

/// The bytes of a DATA frame.
const FRAME: usize = 16_384;

/// How many bytes are fed at a time.
const PIECE: usize = 65_536;

/// The window of a stream and of the connection at first (RFC 9113, section 6.9.2).
const WINDOW: u32 = 65_535;

fn zeros(alloc: Global, len: usize) -> Option<Vec<u8>> {
    vec![in alloc; 0u8; len].ok()
}

/// DATA frames of a message on stream 1.
fn message(alloc: Global) -> Option<Bytes> {
    let mut framed = Bytes::copy_of(alloc, &[0, 0, 0x40, 0, 0]).ok()?;
    framed.push_slice(zeros(alloc, MESSAGE)?.as_slice()).ok()?;
    let mut out = Bytes::new(alloc);
    'frames: for bytes in framed.as_slice().chunks(FRAME) {
        write_data(1, bytes, false, &mut out).ok()?;
    }
    Some(out)
}

/// Takes so many messages. It answers how many bytes are written.
pub(crate) fn come(alloc: Global, count: u32) -> Option<u64> {
    let mut server = Server::new(alloc)?;
    let text = message(alloc)?;
    let mut written = 0u64;
    'messages: for _ in 0..count {
        let mut told = 0u64;
        'pieces: for bytes in text.as_slice().chunks(PIECE) {
            told = told.saturating_add(server.feed(bytes)?);
            written = written.saturating_add(server.written());
        }
        if told != 1 {
            return None;
        }
    }
    Some(written)
}

/// The client grants so many bytes more, to stream 1 and to the connection.
fn widen(server: &mut Server, add: u32) -> Option<()> {
    let _none = server.feed(&grant(0, add))?;
    let _none = server.feed(&grant(1, add))?;
    Some(())
}

/// Sends so many messages, as a client whose window is four frames takes them. It answers how many bytes are written.
pub(crate) fn go(alloc: Global, count: u32) -> Option<u64> {
    let mut server = Server::new(alloc)?;
    let message = zeros(alloc, MESSAGE)?;
    widen(&mut server, 4 * FRAME as u32 - WINDOW)?;
    let mut written = 0u64;
    'messages: for _ in 0..count {
        server.reply(1, message.as_slice())?;
        'windows: for _ in 0..MESSAGE / (4 * FRAME) + 1 {
            written = written.saturating_add(server.written());
            widen(&mut server, 4 * FRAME as u32)?;
        }
        if server.waiting(1) != 0 {
            return None;
        }
    }
    Some(written)
}
