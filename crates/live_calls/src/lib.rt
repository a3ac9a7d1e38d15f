//! The calls of a connection that have begun and aren't answered: where each one waits, and what it does when something happens
//! to it. A method is one file, and one line in the table of paths. It knows no frame and no stream.
#![tactic(auto)]

mod batch;
mod caps;
mod find;
mod happening;
mod method;
mod outcome;
mod place;
mod query;
mod read;
mod stream_read;
mod turn;

pub use happening::Happening;
pub use method::Method;
pub use outcome::Outcome;
pub use place::{Messages, Place};
pub use turn::{begin, resume};
