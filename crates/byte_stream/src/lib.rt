//! The calls of ByteStream (google.bytestream), by which one blob is read or written piece by piece, over any door to the
//! store: a request that was read becomes entries of the door's owner and a response or a status. A call that takes several
//! messages or gives several is a value that stands at a place of its script. It knows no connection.
#![tactic(auto)]

mod here;
mod names;
mod piece;
mod place;
mod progress;
mod read;
mod read_stop;
mod served;
mod status;

pub use names::{read_name, write_name};
pub use place::Place;
pub use progress::query;
pub use read::ReadCall;
pub use read_stop::ReadStop;

#[cfg(test)]
mod tests;
