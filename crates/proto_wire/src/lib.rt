//! The Protocol Buffers wire form: bytes become fields, and fields become bytes. It knows no message:
//! the crates above say what the fields of each message mean.
#![tactic(auto)]

mod bytes;
mod fault;
mod field;
mod find;
pub mod laws;
mod listed;
mod memory;
mod name;
mod read;
mod repeated;
mod utf8;
mod write;

pub use bytes::{Bytes, drop_front};
pub use fault::WireError;
pub use field::{Field, Fields, Value};
pub use find::{contents, joined, last_bytes, last_int, text};
pub use listed::Listed;
pub use memory::OutOfMemory;
pub use name::Name;
pub use read::fields;
pub use repeated::{pack, packed};
pub use utf8::Text;
pub use write::Writer;

#[cfg(test)]
mod tests;
