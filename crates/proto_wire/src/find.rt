//! What is looked up in a sequence of fields.

ghost use Rattle.std.specs.Prelude.{◌≡◌, ◌↔◌, IsSome, IfSome, IfOk, IsUtf8, map};
ghost use Rattle.std.specs.Option.{option_map, option_copied};
ghost use Rattle.proto_wire.specs.Field.{field_view, ints, contents_of, last_of, joined_of, int_of, bytes_of};

use crate::bytes::Bytes;
use crate::field::{Field, Fields, Value};
use crate::memory::OutOfMemory;
use std::alloc::Global;
use std::str;

fn int_in(field: &Field<'_>, number: u32) -> Option<u64>
    ensures { result ≡ int_of number (field_view field.now) }
{
    if field.number != number {
        return None;
    }
    match field.value {
        Value::Int(n) => Some(n),
        Value::Fixed64(_) | Value::Bytes(_) | Value::Fixed32(_) => None,
    }
}

fn bytes_in<'a>(field: &Field<'a>, number: u32) -> Option<&'a [u8]>
    ensures { option_map (λ b. b.now) result ≡ bytes_of number (field_view field.now) }
{
    if field.number != number {
        return None;
    }
    match field.value {
        Value::Bytes(content) => Some(content),
        Value::Int(_) | Value::Fixed64(_) | Value::Fixed32(_) => None,
    }
}

/// The last varint of this number, which is the one that counts. It takes no memory.
pub fn last_int(fields: &Fields<'_>, number: u32) -> Option<u64>
    ensures { result ≡ last_of (ints number fields.now) }
{
    let mut last = None;
    'fields: for field in fields.as_slice() {
        if let Some(n) = int_in(field, number) {
            last = Some(n);
        }
    }
    last
}

/// The last content of this number, which is the one that counts. It takes no memory.
pub fn last_bytes<'a>(fields: &Fields<'a>, number: u32) -> Option<&'a [u8]>
    ensures { option_map (λ b. b.now) result ≡ last_of (contents_of number fields.now) }
{
    let mut last = None;
    'fields: for field in fields.as_slice() {
        if let Some(content) = bytes_in(field, number) {
            last = Some(content);
        }
    }
    last
}

/// The contents of this number, in their order: the elements of a list.
pub fn contents<'a>(
    alloc: Global,
    fields: &Fields<'a>,
    number: u32,
) -> Result<Vec<&'a [u8]>, OutOfMemory>
    ensures { IfOk result (λ v. map (λ b. b.now) v.items ≡ contents_of number fields.now) }
{
    let mut found = Vec::new(alloc);
    'fields: for field in fields.as_slice() {
        if let Some(content) = bytes_in(field, number) {
            found.push(content)?;
        }
    }
    Ok(found)
}

/// The contents of this number one after the other, which merges the parts of a message. `None` if there are none.
pub fn joined(alloc: Global, fields: &Fields<'_>, number: u32) -> Result<Option<Bytes>, OutOfMemory>
    ensures { IfOk result (λ o. o ≡ joined_of (contents_of number fields.now)) }
{
    let parts = contents(alloc, fields, number)?;
    if parts.is_empty() {
        return Ok(None);
    }
    let mut whole = Vec::new(alloc);
    'parts: for part in &parts {
        whole.extend_from_slice(part)?;
    }
    Ok(Some(Bytes::from_vec(whole)))
}

/// The bytes as text, if they are UTF-8. It takes no memory.
pub fn text(bytes: &[u8]) -> Option<&str>
    ensures utf8 { IsSome result ↔ IsUtf8 bytes.now }
    ensures same { IfSome result (λ s. s.now ≡ bytes.now) }
{
    str::from_utf8(bytes).ok()
}
