//! The host of the daemon: a Unix socket whose connections come one by one, a cache folder whose bodies a shelf for each
//! connection keeps, and standard output. It tells a person on standard error where it listens, and why it gives up. What
//! the system does is trusted, not proved.
#![tactic(auto)]

mod host;
mod listening;
mod opened;
mod socket;
mod words;

pub use host::SocketHost;
pub use socket::SocketLink;

#[cfg(test)]
mod tests;
