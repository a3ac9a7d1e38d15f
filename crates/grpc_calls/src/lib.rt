//! Calls of gRPC over HTTP/2 at either end of a connection: bytes that are fed in any pieces become requests, messages and
//! statuses, and what is handed in for a call becomes output. It does no IO.
//!
//! Of each stream it keeps at most one message that isn't whole, and memory for it is taken as its bytes come.
#![tactic(auto)]

mod answer;
mod body;
mod call;
mod calls;
mod code;
mod escape;
mod event;
mod fault;
mod frames;
mod headers;
mod held;
pub mod laws;
mod reading;
mod refusal;
mod table;
mod unfinished;

pub use calls::Calls;
pub use code::code_of;
pub use escape::{escaped, unescaped};
pub use event::CallEvent;

#[cfg(test)]
mod tests;
