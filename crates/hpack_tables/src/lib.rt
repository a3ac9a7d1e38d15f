//! HPACK (RFC 7541): header blocks are decoded into lists of headers with the table of their connection, and lists of headers
//! are encoded as blocks. It knows no frames: its caller passes whole blocks, in order.
#![tactic(auto)]

mod decode;
mod dynamic_table;
mod encode;
mod fault;
mod header;
mod huffman;
mod integer;
pub mod laws;
mod offence;
mod representation;
mod short_codes;
mod static_table;
mod string;
mod table;

pub use encode::encode_block;
pub use fault::HpackFault;
pub use header::{Header, Headers};
pub use huffman::{huffman_decode, huffman_encode};
pub use table::{Table, decode_block};

#[cfg(test)]
mod encoder_tests;
#[cfg(test)]
mod tests;
