//! Fields from bytes.

ghost use Rattle.std.specs.Prelude.{◌≡◌, ◌⊎◌, ◌+◌, ◌<◌, ◌≤◌, ◌^◌, length, List, IfOk, IfErr, Ok};
ghost use Rattle.std.specs.Int.{w32, w64};
ghost use Rattle.proto_wire.specs.Field.{field_view, value_view, WireField};
ghost use Rattle.proto_wire.specs.Wire.{Wire};
ghost use Rattle.proto_wire.specs.Reading.{Gives, Fails, Refuses, varint_at, fixed_at, tag_at, sized_at, value_at, field_at, fields_of};

use crate::fault::WireError;
use crate::field::{Field, Fields, Value};
use std::alloc::Global;

/// The largest number that a field has.
const MAX_NUMBER: u64 = 0x1fff_ffff;

#[tactic(auto, unfolding(crate::specs::Reading::varint_at))]
fn varint_in(at: usize, more: u8, bytes: &[u8]) -> Result<(u64, &[u8]), WireError>
    requires { more ≤ 10 }
    ensures { Gives (λ x. (x.0, x.1.now)) result (varint_at at more bytes.now) }
{
    match bytes {
        [] => Err(WireError::Truncated { at }),
        [b, rest @ ..] => {
            if more <= 1 {
                // The tenth byte has room for the last bit alone.
                if *b > 1 {
                    return Err(WireError::BadVarint { at });
                }
                return Ok((u64::from(*b), rest));
            }
            if *b < 128 {
                return Ok((u64::from(*b), rest));
            }
            let (high, rest) = varint_in(at, more - 1, rest)?;
            Ok((u64::from(*b) - 128 + 128 * high, rest))
        }
    }
}

pub(crate) fn varint(at: usize, bytes: &[u8]) -> Result<(u64, &[u8]), WireError>
    ensures { Gives (λ x. (x.0, x.1.now)) result (varint_at at 10 bytes.now) }
{
    varint_in(at, 10, bytes)
}

fn fixed64(at: usize, bytes: &[u8]) -> Result<(u64, &[u8]), WireError>
    ensures { Gives (λ x. (x.0, x.1.now)) result (fixed_at at w64 bytes.now) }
{
    if bytes.len() < 8 {
        return Err(WireError::Truncated { at });
    }
    let (front, rest) = bytes.split_at(8);
    let number = u64::from_le_bytes([
        front[0], front[1], front[2], front[3], front[4], front[5], front[6], front[7],
    ]);
    Ok((number, rest))
}

fn fixed32(at: usize, bytes: &[u8]) -> Result<(u32, &[u8]), WireError>
    ensures { Gives (λ x. (x.0, x.1.now)) result (fixed_at at w32 bytes.now) }
{
    if bytes.len() < 4 {
        return Err(WireError::Truncated { at });
    }
    let (front, rest) = bytes.split_at(4);
    let number = u32::from_le_bytes([front[0], front[1], front[2], front[3]]);
    Ok((number, rest))
}

#[tactic(auto, unfolding(crate::specs::Reading::tag_at))]
fn tag(at: usize, bytes: &[u8]) -> Result<((u32, u8), &[u8]), WireError>
    ensures { Gives (λ x. (x.0, x.1.now)) result (tag_at at bytes.now) }
{
    let (key, rest) = varint(at, bytes)?;
    let wire = (key % 8) as u8;
    let number = key / 8;
    if wire == 3 || wire == 4 {
        return Err(WireError::Group { at });
    }
    if wire > 5 || number == 0 || number > MAX_NUMBER {
        return Err(WireError::BadTag { at });
    }
    Ok(((number as u32, wire), rest))
}

#[tactic(auto, unfolding(crate::specs::Reading::sized_at))]
fn sized(at: usize, bytes: &[u8]) -> Result<(&[u8], &[u8]), WireError>
    ensures { Gives (λ x. (x.0.now, x.1.now)) result (sized_at at bytes.now) }
{
    let (size, rest) = varint(at, bytes)?;
    if (rest.len() as u64) < size {
        return Err(WireError::Truncated { at });
    }
    let (content, rest) = rest.split_at(size as usize);
    Ok((content, rest))
}

#[tactic(auto, unfolding(crate::specs::Reading::value_at))]
fn value(at: usize, wire: u8, bytes: &[u8]) -> Result<(Value<'_>, &[u8]), WireError>
    ensures { Gives (λ x. (value_view x.0, x.1.now)) result (value_at at wire bytes.now) }
{
    if wire == 0 {
        let (number, rest) = varint(at, bytes)?;
        return Ok((Value::Int(number), rest));
    }
    if wire == 1 {
        let (number, rest) = fixed64(at, bytes)?;
        return Ok((Value::Fixed64(number), rest));
    }
    if wire == 2 {
        let (content, rest) = sized(at, bytes)?;
        return Ok((Value::Bytes(content), rest));
    }
    let (number, rest) = fixed32(at, bytes)?;
    Ok((Value::Fixed32(number), rest))
}

#[tactic(auto, unfolding(crate::specs::Reading::field_at))]
fn field(at: usize, bytes: &[u8]) -> Result<(Field<'_>, &[u8]), WireError>
    ensures { Gives (λ x. (field_view x.0, x.1.now)) result (field_at at bytes.now) }
{
    let ((number, wire), rest) = tag(at, bytes)?;
    let (value, rest) = value(at, wire, rest)?;
    Ok((Field { number, at, value }, rest))
}

fn all(alloc: Global, bytes: &[u8]) -> Result<Fields<'_>, WireError>
    ensures { Gives (λ fs. fs) result (fields_of bytes.now) }
{
    let mut found = Vec::new(alloc);
    let mut rest = bytes;
    'fields: while !rest.is_empty() {
        let at = bytes.len() - rest.len();
        let (next, after) = field(at, rest)?;
        found.push(next)?;
        rest = after;
    }
    Ok(Fields::from_vec(found))
}

/// All fields of the bytes, in their order.
pub fn fields(alloc: Global, bytes: &[u8]) -> Result<Fields<'_>, WireError>
    // What is read is spelled by the bytes, all of them.
    ensures found { IfOk result (Wire 0 bytes.now) }
    // What they spell is read, unless memory runs out.
    ensures only { (fs : List WireField) → Wire 0 bytes.now fs → Gives (λ fs. fs) result (Ok fs) }
    // A refusal comes where no field begins, and says which fault is the first there.
    ensures refused { IfErr result (λ e. (e ≡ WireError.OutOfMemory) ⊎ Refuses bytes.now e) }
    // The same as a function, for the crates above.
    ensures exact { Gives (λ fs. fs) result (fields_of bytes.now) }
{
    all(alloc, bytes)
}
