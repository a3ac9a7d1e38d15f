//! `Server`.

ghost use Rattle.std.specs.Prelude.{◌≡◌};
ghost use Rattle.h2_session.specs.declared.role.Role.TheVariants.{Server as AServer};

use crate::text::OPENING;
use casd_base::{Code, Status};
use grpc_calls::{CallEvent, Calls};
use proto_wire::Text;
use std::alloc::Global;

/// More bytes than are fed.
const LIMIT: u64 = 1 << 58;

/// More events than bytes that are fed at a time give.
const EVENTS: usize = 1 << 20;

/// The calls of a server.
#[derive(Drop)]
pub(crate) struct Server {
    calls: Calls,
    ghost server: { calls.session.part.role ≡ AServer },
}

impl Server {
    /// One that has read the headers of a call on stream 1.
    pub(crate) fn new(alloc: Global) -> Option<Server> {
        let mut server = Server {
            calls: Calls::server(alloc).ok()?,
        };
        let _messages = server.feed(OPENING)?;
        Some(server)
    }

    /// Takes bytes of the client, and answers how many messages were told.
    pub(crate) fn feed(&mut self, bytes: &[u8]) -> Option<u64> {
        if self.calls.fed() > LIMIT || bytes.len() as u64 > LIMIT {
            return None;
        }
        self.calls.feed(bytes).ok()?;
        self.read()
    }

    fn read(&mut self) -> Option<u64> {
        let mut messages = 0u64;
        'events: for _ in 0..EVENTS {
            match self.calls.next().ok()? {
                Some(CallEvent::Message { .. }) => messages = messages.saturating_add(1),
                Some(_) => (),
                None => return Some(messages),
            }
        }
        None
    }

    /// Hands in a message of a call.
    pub(crate) fn reply(&mut self, stream: u32, message: &[u8]) -> Option<()> {
        if !self.calls.is_live(stream) || message.len() as u64 > LIMIT >> 32 {
            return None;
        }
        self.calls.reply(stream, message).ok()
    }

    /// Ends a call with the status OK.
    pub(crate) fn finish(&mut self, stream: u32) -> Option<()> {
        if !self.calls.is_live(stream) {
            return None;
        }
        let status = Status {
            code: Code::Ok,
            text: Text::empty(),
        };
        self.calls.finish(stream, &status).ok()
    }

    /// How many bytes of a call wait for a window.
    pub(crate) fn waiting(&self, stream: u32) -> u64 {
        self.calls.waiting(stream)
    }

    /// How many bytes are written that weren't counted yet.
    pub(crate) fn written(&mut self) -> u64 {
        self.calls.take_output().len() as u64
    }
}
