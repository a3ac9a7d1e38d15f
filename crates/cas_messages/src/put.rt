//! Fields of each kind, written. After want of memory a single field has not been added, and of a list a prefix may
//! have been.

ghost use Rattle.std.specs.Prelude.{◌≡◌, ◌++◌, ◌<◌, ◌^◌, OnOk, OnErr, map};
ghost use Rattle.std.specs.List.{flat_map, AllByRecursion};
ghost use Rattle.proto_wire.specs.Spelling.{bytes_field};
ghost use Rattle.cas_messages.specs.Table.{int32, int64, bool as flag, text as utf8, bytes as raw, digest, optional_digest, int32_list, text_list, bytes_list, digest_list};
ghost use Rattle.cas_messages.specs.Spelling.{field_spelled, spelled, AddsPart};
ghost use Rattle.cas_messages.specs.Fits.{Short, FitsKind, Fits};

use crate::message::Message;
use digest_types::Digest;
use proto_wire::{Bytes, OutOfMemory, Text, Writer, pack};
use std::alloc::Global;

/// An int32 or an enum. A 0 is left out; a negative one takes ten bytes.
pub(crate) fn put_int32(out: &mut Writer, number: u32, value: i32) -> Result<(), OutOfMemory>
    requires low { 0 < number }
    requires high { number < 2 ^ 29 }
    ensures wrote { OnOk result (out.new ≡ out.old ++ field_spelled int32 number value) }
    ensures err { OnErr result (out.new ≡ out.old) }
    ensures fits { OnOk result (FitsKind int32 value) }
{
    if value == 0 {
        return Ok(());
    }
    out.int(number, i64::from(value).cast_unsigned())
}

/// An int64. A 0 is left out; a negative one takes ten bytes.
pub(crate) fn put_int64(out: &mut Writer, number: u32, value: i64) -> Result<(), OutOfMemory>
    requires low { 0 < number }
    requires high { number < 2 ^ 29 }
    ensures wrote { OnOk result (out.new ≡ out.old ++ field_spelled int64 number value) }
    ensures err { OnErr result (out.new ≡ out.old) }
    ensures fits { OnOk result (FitsKind int64 value) }
{
    if value == 0 {
        return Ok(());
    }
    out.int(number, value.cast_unsigned())
}

/// A bool. False is left out.
pub(crate) fn put_bool(out: &mut Writer, number: u32, value: bool) -> Result<(), OutOfMemory>
    requires low { 0 < number }
    requires high { number < 2 ^ 29 }
    ensures wrote { OnOk result (out.new ≡ out.old ++ field_spelled flag number value) }
    ensures err { OnErr result (out.new ≡ out.old) }
{
    if !value {
        return Ok(());
    }
    out.int(number, 1)
}

/// A text. An empty one is left out.
pub(crate) fn put_text(out: &mut Writer, number: u32, value: &Text) -> Result<(), OutOfMemory>
    requires low { 0 < number }
    requires high { number < 2 ^ 29 }
    ensures wrote { OnOk result (out.new ≡ out.old ++ field_spelled utf8 number value.now) }
    ensures err { OnErr result (out.new ≡ out.old) }
    ensures fits { OnOk result (FitsKind utf8 value.now) }
{
    if value.is_empty() {
        return Ok(());
    }
    out.bytes(number, value.as_str().as_bytes())
}

/// Bytes. Empty ones are left out.
pub(crate) fn put_bytes(out: &mut Writer, number: u32, value: &Bytes) -> Result<(), OutOfMemory>
    requires low { 0 < number }
    requires high { number < 2 ^ 29 }
    ensures wrote { OnOk result (out.new ≡ out.old ++ field_spelled raw number value.now) }
    ensures err { OnErr result (out.new ≡ out.old) }
    ensures fits { OnOk result (FitsKind raw value.now) }
{
    if value.is_empty() {
        return Ok(());
    }
    out.bytes(number, value.as_slice())
}

/// A digest, which is always written.
pub(crate) fn put_digest(
    alloc: Global,
    out: &mut Writer,
    number: u32,
    value: &Digest,
) -> Result<(), OutOfMemory>
    requires low { 0 < number }
    requires high { number < 2 ^ 29 }
    ensures wrote { OnOk result (out.new ≡ out.old ++ field_spelled digest number value.now) }
    ensures err { OnErr result (out.new ≡ out.old) }
    ensures fits { OnOk result (FitsKind digest value.now) }
{
    out.bytes(number, value.write(alloc)?.as_slice())
}

/// A digest, if there is one.
pub(crate) fn put_optional_digest(
    alloc: Global,
    out: &mut Writer,
    number: u32,
    value: &Option<Digest>,
) -> Result<(), OutOfMemory>
    requires low { 0 < number }
    requires high { number < 2 ^ 29 }
    ensures wrote { OnOk result (out.new ≡ out.old ++ field_spelled optional_digest number value.now) }
    ensures err { OnErr result (out.new ≡ out.old) }
    ensures fits { OnOk result (FitsKind optional_digest value.now) }
{
    match value {
        Some(digest) => put_digest(alloc, out, number, digest),
        None => Ok(()),
    }
}

/// Enums, packed. An empty list is left out.
pub(crate) fn put_int32s(
    alloc: Global,
    out: &mut Writer,
    number: u32,
    values: &[i32],
) -> Result<(), OutOfMemory>
    requires low { 0 < number }
    requires high { number < 2 ^ 29 }
    ensures wrote { OnOk result (out.new ≡ out.old ++ field_spelled int32_list number values.now) }
    ensures err { OnErr result (out.new ≡ out.old) }
    ensures fits { OnOk result (FitsKind int32_list values.now) }
{
    let mut numbers = Vec::new(alloc);
    'values: for value in values {
        numbers.push(i64::from(*value).cast_unsigned())?;
    }
    put_bytes(out, number, &pack(alloc, &numbers)?)
}

/// Texts, each in a field of its own.
pub(crate) fn put_texts(out: &mut Writer, number: u32, values: &[Text]) -> Result<(), OutOfMemory>
    requires low { 0 < number }
    requires high { number < 2 ^ 29 }
    ensures wrote { OnOk result (out.new ≡ out.old ++ field_spelled text_list number values.now) }
    ensures err { OnErr result (AddsPart out.old out.new (field_spelled text_list number values.now)) }
    ensures fits { OnOk result (FitsKind text_list values.now) }
{
    'values: for value in values {
        out.bytes(number, value.as_str().as_bytes())?;
    }
    Ok(())
}

/// Contents, each in a field of its own.
pub(crate) fn put_contents(
    out: &mut Writer,
    number: u32,
    values: &[Bytes],
) -> Result<(), OutOfMemory>
    requires low { 0 < number }
    requires high { number < 2 ^ 29 }
    ensures wrote { OnOk result (out.new ≡ out.old ++ field_spelled bytes_list number values.now) }
    ensures err { OnErr result (AddsPart out.old out.new (field_spelled bytes_list number values.now)) }
    ensures fits { OnOk result (FitsKind bytes_list values.now) }
{
    'values: for value in values {
        out.bytes(number, value.as_slice())?;
    }
    Ok(())
}

/// Digests, each in a field of its own.
pub(crate) fn put_digests(
    alloc: Global,
    out: &mut Writer,
    number: u32,
    values: &[Digest],
) -> Result<(), OutOfMemory>
    requires low { 0 < number }
    requires high { number < 2 ^ 29 }
    ensures wrote { OnOk result (out.new ≡ out.old ++ field_spelled digest_list number values.now) }
    ensures err { OnErr result (AddsPart out.old out.new (field_spelled digest_list number values.now)) }
    ensures fits { OnOk result (FitsKind digest_list values.now) }
{
    'values: for value in values {
        put_digest(alloc, out, number, value)?;
    }
    Ok(())
}

/// A message, which is written even if its content is empty.
pub(crate) fn put_message<T: Message>(
    alloc: Global,
    out: &mut Writer,
    number: u32,
    value: &T,
) -> Result<(), OutOfMemory>
    requires low { 0 < number }
    requires high { number < 2 ^ 29 }
    ensures wrote { OnOk result (out.new ≡ out.old ++ bytes_field number (spelled T.table (T.value value.now))) }
    ensures err { OnErr result (out.new ≡ out.old) }
    ensures fits { OnOk result (Short (spelled T.table (T.value value.now)) × Fits T.table (T.value value.now)) }
{
    out.bytes(number, value.write(alloc)?.as_slice())
}

/// Messages, each in a field of its own.
pub(crate) fn put_messages<T: Message>(
    alloc: Global,
    out: &mut Writer,
    number: u32,
    values: &[T],
) -> Result<(), OutOfMemory>
    requires low { 0 < number }
    requires high { number < 2 ^ 29 }
    ensures wrote { OnOk result (out.new ≡ out.old ++ flat_map (λ m. bytes_field number (spelled T.table m)) (map T.value values.now)) }
    ensures err { OnErr result (AddsPart out.old out.new (flat_map (λ m. bytes_field number (spelled T.table m)) (map T.value values.now))) }
    ensures fits { OnOk result (AllByRecursion (λ m. Short (spelled T.table m) × Fits T.table m) (map T.value values.now)) }
{
    'values: for value in values {
        put_message(alloc, out, number, value)?;
    }
    Ok(())
}
