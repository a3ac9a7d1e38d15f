//! One end of an HTTP/2 connection (RFC 9113, sections 5 and 6): what its peer may send, the streams and their windows, and what this
//! end writes when. Frames that were read come in and events for the calls come out; what the calls hand in becomes output as the
//! windows allow. It knows no call and does no IO.
//!
//! Its memory is bounded by what its caller hands in and does not see written, and by these: 100 live streams at a server, a
//! header block of 65,536 bytes that is unfinished, a header table of 4,096 bytes. Every answer to a frame is in the output before
//! the next frame is taken, so that a peer which sends many frames makes no queue here.
#![tactic(auto)]

mod block;
mod blocks;
mod caller;
mod code;
mod event;
mod fault;
mod flow;
mod machine;
mod number;
mod offence;
mod opening;
mod peer;
mod pump;
mod request;
mod role;
mod sayable;
mod session;
mod small;
mod stream;
mod streams;
mod turn;
mod turns;
mod waits;

pub use event::{Out, SessionEvent};
pub use fault::ConnFault;
pub use session::Session;

#[cfg(test)]
mod tests;
