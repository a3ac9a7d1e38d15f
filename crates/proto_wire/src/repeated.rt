//! Lists of varints, packed or not.

ghost use Rattle.std.specs.Prelude.{◌≡◌, length, IfOk};
ghost use Rattle.std.specs.List.{flat_map};
ghost use Rattle.proto_wire.specs.Field.{field_view};
ghost use Rattle.proto_wire.specs.Steps.{with_front};
ghost use Rattle.proto_wire.specs.Reading.{Gives};
ghost use Rattle.proto_wire.specs.Spelling.{varint};
ghost use Rattle.proto_wire.specs.Packed.{varints_in, numbers_of, packed_of};

use crate::bytes::Bytes;
use crate::fault::WireError;
use crate::field::{Field, Fields, Value};
use crate::memory::OutOfMemory;
use crate::read::varint;
use crate::write::push_varint;
use std::alloc::Global;

/// The varints of this number, in their order, packed or not. A malformed packed list is refused at the first
/// byte of its field.
pub fn packed(alloc: Global, fields: &Fields<'_>, number: u32) -> Result<Vec<u64>, WireError>
    ensures { Gives (λ v. v.items) result (packed_of number fields.now) }
{
    let mut found = Vec::new(alloc);
    'fields: for field in fields.as_slice() {
        add_numbers(field, number, &mut found)?;
    }
    Ok(found)
}

/// Adds what a field adds to the list of this number.
fn add_numbers(field: &Field<'_>, number: u32, found: &mut Vec<u64>) -> Result<(), WireError>
    ensures { Gives (λ u. found.new.items) result (with_front found.old.items (numbers_of number (field_view field.now))) }
{
    if field.number != number {
        return Ok(());
    }
    match field.value {
        Value::Int(n) => Ok(found.push(n)?),
        Value::Bytes(content) => add_varints(field.at, content, found),
        Value::Fixed64(_) | Value::Fixed32(_) => Ok(()),
    }
}

/// Adds the varints of a packed list, whose field begins at `at`.
fn add_varints(at: usize, content: &[u8], found: &mut Vec<u64>) -> Result<(), WireError>
    ensures { Gives (λ u. found.new.items) result (with_front found.old.items (varints_in (length content.now) at content.now)) }
{
    let mut rest = content;
    'varints: while !rest.is_empty() {
        let (n, after) = varint(at, rest)?;
        found.push(n)?;
        rest = after;
    }
    Ok(())
}

/// The content of a packed list: the shortest varints, one after the other.
pub fn pack(alloc: Global, values: &[u64]) -> Result<Bytes, OutOfMemory>
    ensures { IfOk result (λ b. b ≡ flat_map varint values.now) }
{
    let mut out = Vec::new(alloc);
    'values: for n in values {
        push_varint(&mut out, *n)?;
    }
    Ok(Bytes::from_vec(out))
}
