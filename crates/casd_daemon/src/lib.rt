//! The daemon: it serves each connection of a host on a thread of its own, over one lock round a store that is loaded from the
//! host's shelf, with a worker beside them that makes room when the store fills up.
#![tactic(auto)]

mod asked;
mod beside;
mod child;
mod close;
mod daemon;
mod end;
mod finish;
mod hang_up;
mod host;
mod lent;
mod memory;
mod option;
mod run;
mod words;
mod worker;

pub use daemon::serve;
pub use end::ServeEnd;
pub use hang_up::HangUp;
pub use host::{AcceptEnd, Conn, Host, Place};
pub use memory::{Ended, MemConn, MemHost};
pub use worker::expiry_worker;

#[cfg(test)]
mod tests;
