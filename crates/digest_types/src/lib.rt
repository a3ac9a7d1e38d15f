//! Digests: a blob's name is its SHA-256 hash (FIPS 180-4) and its length, as in the Remote Execution API v2.
//! It makes them from bytes, reads and writes their messages, and prints and parses their texts.
#![tactic(auto)]

mod digest;
mod error;
mod hasher;
pub mod laws;
mod lower_hex;
mod message;
mod parse;

pub use digest::{Digest, Digests};
pub use error::DigestError;
pub use hasher::Hasher;
pub use lower_hex::unhex;

#[cfg(test)]
mod tests;
