//! `Record`.

use crate::word::Word;
use proto_wire::Bytes;

/// A record: who asks (a seat below 100), what, and the messages of the call.
#[derive(Debug, Drop)]
pub struct Record {
    pub seat: u8,
    pub word: Word,
    pub messages: Vec<Bytes>,
}
