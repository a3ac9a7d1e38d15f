//! Integers (RFC 7541, section 5.1).

ghost use Rattle.std.specs.Prelude.{◌≡◌, ◌+◌, ◌≤◌, ◌<◌, ◌^◌, ◌++◌, IfOk, OnOk};
ghost use Rattle.hpack_tables.specs.Integer.{groups_of, int_spelled};
ghost use Rattle.hpack_tables.specs.Reading.{Gives, groups_at, int_at};

use crate::offence::Offence;
use proto_wire::OutOfMemory;

/// The value of the groups of seven bits after a filled prefix, at most `more` of them, and the bytes after them.
#[tactic(auto, unfolding(crate::specs::Reading::groups_at))]
fn groups_in(more: u8, bytes: &[u8]) -> Result<(u64, &[u8]), Offence>
    requires { more ≤ 5 }
    ensures read { Gives (λ x. (x.0, x.1.now)) result (groups_at more bytes.now) }
    ensures small { IfOk result (λ x. x.0 < 128 ^ (more + 1)) }
{
    match bytes {
        [] => Err(Offence::Truncated),
        [b, rest @ ..] => {
            if more == 0 {
                return Err(Offence::Int);
            }
            if *b < 128 {
                return Ok((u64::from(*b), rest));
            }
            let (high, rest) = groups_in(more - 1, rest)?;
            Ok((u64::from(*b) - 128 + 128 * high, rest))
        }
    }
}

/// The integer whose prefix is the last `bits` bits of the first byte, and the bytes after it.
#[tactic(auto, unfolding(crate::specs::Reading::int_at))]
pub(crate) fn int_in(bits: u8, bytes: &[u8]) -> Result<(u32, &[u8]), Offence>
    requires some { 4 ≤ bits }
    requires few { bits ≤ 7 }
    ensures { Gives (λ x. (x.0, x.1.now)) result (int_at bits bytes.now) }
{
    let [b, rest @ ..] = bytes else {
        return Err(Offence::Truncated);
    };
    let filled = (1u8 << bits) - 1;
    let prefix = *b % (filled + 1);
    if prefix < filled {
        return Ok((u32::from(prefix), rest));
    }
    let (more, rest) = groups_in(5, rest)?;
    match u32::try_from(u64::from(filled) + more) {
        Ok(value) => Ok((value, rest)),
        Err(_) => Err(Offence::Int),
    }
}

/// Appends a number in at most `most` groups of seven bits, the lowest first.
fn push_groups(out: &mut Vec<u8>, most: u8, n: u64) -> Result<(), OutOfMemory>
    ensures { OnOk result (out.new.items ≡ out.old.items ++ groups_of most n) }
{
    if most == 0 {
        return Ok(());
    }
    if n < 128 {
        out.push(n as u8)?;
        return Ok(());
    }
    out.push((n % 128) as u8 + 128)?;
    push_groups(out, most - 1, n / 128)
}

/// Appends an integer with a prefix of `bits` bits. `high` is the value of the higher bits of the first byte.
#[tactic(auto, unfolding(crate::specs::Integer::int_spelled))]
pub(crate) fn push_int(out: &mut Vec<u8>, bits: u8, high: u8, value: u64) -> Result<(), OutOfMemory>
    requires some { 4 ≤ bits }
    requires few { bits ≤ 7 }
    requires fits { high + 2 ^ bits ≤ 256 }
    ensures { OnOk result (out.new.items ≡ out.old.items ++ int_spelled bits high value) }
{
    let filled = (1u8 << bits) - 1;
    if value < u64::from(filled) {
        out.push(high + value as u8)?;
        return Ok(());
    }
    out.push(high + filled)?;
    push_groups(out, 10, value - u64::from(filled))
}
