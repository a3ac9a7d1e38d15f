//! A record from its line.

ghost use Rattle.std.specs.Prelude.{◌≡◌, ◌≤◌, IfOk, IfSome, Some, length};
ghost use Rattle.std.specs.Option.{option_map};
ghost use Rattle.casd_server.specs.Record.{Asked, record_view, record_of, seat_of, message_of, each_of, messages_of, line_of, IsRecord, max_line};
ghost use Rattle.casd_server.specs.Cut.{pieces_of};

use crate::cut::cut;
use crate::record_line::Record;
use crate::word::Word;
use digest_types::unhex;
use proto_wire::{Bytes, OutOfMemory};
use std::alloc::Global;

/// How many bytes a line has at most, without its newline.
pub(crate) const MAX_LINE: usize = 33_554_432;

#[tactic(auto, unfolding(crate::specs::Record::seat_of))]
fn seat_in(text: &[u8]) -> Option<u8>
    ensures { result ≡ seat_of text.now }
{
    match text {
        [a @ b'0'..=b'9'] => Some(a - b'0'),
        [a @ b'1'..=b'9', b @ b'0'..=b'9'] => Some(10 * (a - b'0') + (b - b'0')),
        _ => None,
    }
}

#[tactic(auto, unfolding(crate::specs::Record::message_of))]
fn message_in(alloc: Global, text: &[u8]) -> Result<Option<Bytes>, OutOfMemory>
    ensures { IfOk result (λ o. o ≡ message_of text.now) }
{
    if text.is_empty() {
        return Ok(None);
    }
    if text == b".".as_slice() {
        return Ok(Some(Bytes::new(alloc)));
    }
    Ok(unhex(alloc, text)?.map(Bytes::from_vec))
}

/// The messages between the commas.
fn each_in(alloc: Global, text: &[u8]) -> Result<Option<Vec<Bytes>>, OutOfMemory>
    ensures { IfOk result (λ o. option_map (λ v. v.items) o ≡ each_of (pieces_of 44 text.now)) }
{
    let mut messages = Vec::new(alloc);
    let mut rest = text;
    'pieces: while let Some((piece, after)) = cut(rest, b',') {
        let Some(message) = message_in(alloc, piece)? else {
            return Ok(None);
        };
        messages.push(message)?;
        rest = after;
    }
    let Some(message) = message_in(alloc, rest)? else {
        return Ok(None);
    };
    messages.push(message)?;
    Ok(Some(messages))
}

#[tactic(auto, unfolding(crate::specs::Record::messages_of))]
fn messages_in(alloc: Global, text: &[u8]) -> Result<Option<Vec<Bytes>>, OutOfMemory>
    ensures { IfOk result (λ o. option_map (λ v. v.items) o ≡ messages_of text.now) }
{
    if text == b"-".as_slice() {
        return Ok(Some(Vec::new(alloc)));
    }
    each_in(alloc, text)
}

/// The record of a line, read part by part from the left.
#[tactic(auto, unfolding(crate::specs::Record::record_of))]
fn read(alloc: Global, line: &[u8]) -> Result<Option<Record>, OutOfMemory>
    ensures { IfOk result (λ o. option_map record_view o ≡ record_of line.now) }
{
    if line.len() > MAX_LINE {
        return Ok(None);
    }
    let Some((seat, rest)) = cut(line, b' ') else {
        return Ok(None);
    };
    let Some((word, messages)) = cut(rest, b' ') else {
        return Ok(None);
    };
    let Some(seat) = seat_in(seat) else {
        return Ok(None);
    };
    let Some(word) = Word::of_name(word) else {
        return Ok(None);
    };
    let Some(messages) = messages_in(alloc, messages)? else {
        return Ok(None);
    };
    if !word.takes(seat, messages.len()) {
        return Ok(None);
    }
    Ok(Some(Record {
        seat,
        word,
        messages,
    }))
}

/// The record of a line without its newline, or None where the line is malformed.
pub(crate) fn parse(alloc: Global, line: &[u8]) -> Result<Option<Record>, OutOfMemory>
    // What is read is a record, and the line is its line.
    ensures found { IfOk result (λ o. IfSome o (λ r. IsRecord (record_view r) × (line_of (record_view r) ≡ line.now) × (length line.now ≤ max_line))) }
    // The line of a record is read as that record.
    ensures only { (r : Asked) → IsRecord r → line_of r ≡ line.now → length line.now ≤ max_line → IfOk result (λ o. option_map record_view o ≡ Some r) }
    // The same as a function.
    ensures exact { IfOk result (λ o. option_map record_view o ≡ record_of line.now) }
{
    read(alloc, line)
}
