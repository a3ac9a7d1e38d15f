//! One connection, over any door to the store, any shelf and any link: bytes of HTTP/2 become calls, their turns and their
//! answers. It settles what is due, writes it, and reads on, until the connection ends.
#![tactic(auto)]

mod answer;
mod connection;
mod end;
mod frames;
mod live;
mod report;
mod serve;
mod write;

pub use end::ConnEnd;
pub use report::ConnReport;
pub use serve::serve_connection;
