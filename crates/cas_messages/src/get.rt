//! Fields of each kind, read.

ghost use Rattle.std.specs.Prelude.{◌≡◌, Ok, map};
ghost use Rattle.cas_messages.specs.Fault.{Gives, with_fault, inside};
ghost use Rattle.cas_messages.specs.Table.{int32, int64, bool as flag, text as utf8, bytes as raw, digest, optional_digest, int32_list, text_list, bytes_list, digest_list};
ghost use Rattle.cas_messages.specs.Meaning.{field_in, fields_in, message_in, int32_of, text_from, digest_from, one_in, list_in};

use crate::error::MessageError;
use crate::message::Message;
use digest_types::{Digest, Digests};
use proto_wire::{
    Bytes, Fields, Listed, Text, contents, joined, last_bytes, last_int, packed, text,
};
use std::alloc::Global;

/// An int32 or an enum: the low 32 bits, signed.
#[tactic(auto, unfolding(crate::specs::Meaning::field_in))]
pub(crate) fn int32_in(fields: &Fields<'_>, number: u32) -> i32
    ensures { field_in int32 number fields.now ≡ Ok result }
{
    low_bits(last_int(fields, number).unwrap_or(0))
}

// The low 32 bits of a varint, signed.
fn low_bits(n: u64) -> i32
    ensures { result ≡ int32_of n }
{
    ((n % (1 << 32)) as u32).cast_signed()
}

/// An int64: all 64 bits, signed.
#[tactic(auto, unfolding(crate::specs::Meaning::field_in))]
pub(crate) fn int64_in(fields: &Fields<'_>, number: u32) -> i64
    ensures { field_in int64 number fields.now ≡ Ok result }
{
    last_int(fields, number).unwrap_or(0).cast_signed()
}

/// A bool: any number but 0.
#[tactic(auto, unfolding(crate::specs::Meaning::field_in))]
pub(crate) fn bool_in(fields: &Fields<'_>, number: u32) -> bool
    ensures { field_in flag number fields.now ≡ Ok result }
{
    last_int(fields, number).unwrap_or(0) != 0
}

// A text from the content of a field.
fn text_from(alloc: Global, number: u32, bytes: &[u8]) -> Result<Text, MessageError>
    ensures { Gives (λ t. t) result (text_from number bytes.now) }
{
    let Some(text) = text(bytes) else {
        return Err(MessageError::NotUtf8 { field: number });
    };
    Ok(Text::new(alloc, text)?)
}

/// A text.
#[tactic(auto, unfolding(crate::specs::Meaning::field_in))]
pub(crate) fn text_in(alloc: Global, fields: &Fields<'_>, number: u32) -> Result<Text, MessageError>
    ensures { Gives (λ t. t) result (field_in utf8 number fields.now) }
{
    text_from(alloc, number, last_bytes(fields, number).unwrap_or(&[]))
}

/// Bytes.
#[tactic(auto, unfolding(crate::specs::Meaning::field_in))]
pub(crate) fn bytes_in(
    alloc: Global,
    fields: &Fields<'_>,
    number: u32,
) -> Result<Bytes, MessageError>
    ensures { Gives (λ b. b) result (field_in raw number fields.now) }
{
    Ok(Bytes::copy_of(alloc, last_bytes(fields, number).unwrap_or(&[]))?)
}

// The digest at this position of a field.
fn digest_from(
    alloc: Global,
    number: u32,
    index: usize,
    bytes: &[u8],
) -> Result<Digest, MessageError>
    ensures { Gives (λ d. d) result (digest_from number index bytes.now) }
{
    match Digest::read(alloc, bytes) {
        Ok(digest) => Ok(digest),
        Err(e) => Err(MessageError::of_digest(number, index, e)),
    }
}

/// A digest that may be missing.
#[tactic(auto, unfolding(crate::specs::Meaning::field_in))]
pub(crate) fn optional_digest_in(
    alloc: Global,
    fields: &Fields<'_>,
    number: u32,
) -> Result<Option<Digest>, MessageError>
    ensures { Gives (λ d. d) result (field_in optional_digest number fields.now) }
{
    let Some(bytes) = joined(alloc, fields, number)? else {
        return Ok(None);
    };
    Ok(Some(digest_from(alloc, number, 0, bytes.as_slice())?))
}

/// A required digest.
#[tactic(auto, unfolding(crate::specs::Meaning::field_in))]
pub(crate) fn digest_in(
    alloc: Global,
    fields: &Fields<'_>,
    number: u32,
) -> Result<Digest, MessageError>
    ensures { Gives (λ d. d) result (field_in digest number fields.now) }
{
    let Some(bytes) = joined(alloc, fields, number)? else {
        return Err(MessageError::BadDigest {
            field: number,
            index: 0,
        });
    };
    digest_from(alloc, number, 0, bytes.as_slice())
}

/// Int32s or enums, packed or not.
#[tactic(auto, unfolding(crate::specs::Meaning::field_in))]
pub(crate) fn int32s_in(
    alloc: Global,
    fields: &Fields<'_>,
    number: u32,
) -> Result<Listed<i32>, MessageError>
    ensures { Gives (λ v. v) result (field_in int32_list number fields.now) }
{
    let numbers = match packed(alloc, fields, number) {
        Ok(numbers) => numbers,
        Err(e) => return Err(MessageError::of_wire(number, e)),
    };
    let mut values = Vec::new(alloc);
    'numbers: for n in &numbers {
        values.push(low_bits(*n))?;
    }
    Ok(Listed::from_vec(values))
}

/// The texts of a list.
#[tactic(auto, unfolding(crate::specs::Meaning::field_in))]
pub(crate) fn texts_in(
    alloc: Global,
    fields: &Fields<'_>,
    number: u32,
) -> Result<Listed<Text>, MessageError>
    ensures { Gives (λ v. v) result (field_in text_list number fields.now) }
{
    let contents = contents(alloc, fields, number)?;
    let mut texts = Vec::new(alloc);
    'contents: for content in &contents {
        texts.push(text_from(alloc, number, content)?)?;
    }
    Ok(Listed::from_vec(texts))
}

/// The contents of a list, uninterpreted.
#[tactic(auto, unfolding(crate::specs::Meaning::field_in))]
pub(crate) fn contents_in(
    alloc: Global,
    fields: &Fields<'_>,
    number: u32,
) -> Result<Listed<Bytes>, MessageError>
    ensures { Gives (λ v. v) result (field_in bytes_list number fields.now) }
{
    let contents = contents(alloc, fields, number)?;
    let mut copies = Vec::new(alloc);
    'contents: for content in &contents {
        copies.push(Bytes::copy_of(alloc, content)?)?;
    }
    Ok(Listed::from_vec(copies))
}

/// The digests of a list.
#[tactic(auto, unfolding(crate::specs::Meaning::field_in))]
pub(crate) fn digests_in(
    alloc: Global,
    fields: &Fields<'_>,
    number: u32,
) -> Result<Digests, MessageError>
    ensures { Gives (λ v. v) result (field_in digest_list number fields.now) }
{
    let contents = contents(alloc, fields, number)?;
    let mut digests = Vec::new(alloc);
    'contents: for (index, content) in contents.iter().enumerate() {
        digests.push(digest_from(alloc, number, index, content)?)?;
    }
    Ok(Digests::from_vec(digests))
}

// The message at this position of a field.
fn message_at<T: Message>(
    alloc: Global,
    number: u32,
    index: usize,
    bytes: &[u8],
) -> Result<T, MessageError>
    ensures { Gives T.value result (with_fault (inside number index) (message_in T.table bytes.now)) }
{
    match T::read(alloc, bytes) {
        Ok(message) => Ok(message),
        Err(e) => Err(e.inside(number, index)),
    }
}

/// A message. A missing one is read as if its content were empty.
pub(crate) fn message_in<T: Message>(
    alloc: Global,
    fields: &Fields<'_>,
    number: u32,
) -> Result<T, MessageError>
    ensures { Gives T.value result (one_in (fields_in T.table) number fields.now) }
{
    let bytes = joined(alloc, fields, number)?.unwrap_or(Bytes::new(alloc));
    message_at(alloc, number, 0, bytes.as_slice())
}

/// The messages of a list.
pub(crate) fn messages_in<T: Message>(
    alloc: Global,
    fields: &Fields<'_>,
    number: u32,
) -> Result<Listed<T>, MessageError>
    ensures { Gives (λ v. map T.value v) result (list_in (fields_in T.table) number fields.now) }
{
    let contents = contents(alloc, fields, number)?;
    let mut messages = Vec::new(alloc);
    'contents: for (index, content) in contents.iter().enumerate() {
        messages.push(message_at(alloc, number, index, content)?)?;
    }
    Ok(Listed::from_vec(messages))
}
