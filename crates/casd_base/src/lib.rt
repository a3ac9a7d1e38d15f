//! What meets the outside: sources, sinks and links whose faults are counted, and the status of a call.
//! The crates above are generic over the traits; the doubles in memory and the adapters of std stand here.
#![tactic(auto)]

mod code;
mod end;
mod link;
mod memory;
mod pair;
mod sink;
mod source;
mod standard;
mod status;
mod stream;

pub use code::Code;
pub use link::Link;
pub use memory::MemLink;
pub use pair::PairLink;
pub use sink::{Sink, SinkEnd};
pub use source::{Failed, Source};
pub use standard::{StdSink, StdSource};
pub use status::Status;
pub use stream::StreamLink;

#[cfg(test)]
mod tests;
