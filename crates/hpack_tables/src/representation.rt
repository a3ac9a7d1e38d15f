//! Representations of headers (RFC 7541, section 6).

ghost use Rattle.std.specs.Prelude.{◌≤◌, Some, None};
ghost use Rattle.hpack_tables.specs.Reading.{Gives, given, name_by, literal_at, indexed_at, update_at, representation_at};

use crate::dynamic_table::DynamicTable;
use crate::header::{Header, copy_of};
use crate::integer::int_in;
use crate::offence::Offence;
use crate::string::string_in;
use proto_wire::Bytes;
use std::alloc::Global;

/// The largest maximum size of the dynamic table, in bytes.
const MAX_TABLE: u32 = 4_096;

/// The name of a literal, that of an entry or a string after index 0, and the bytes after it.
fn name_in<'a>(
    alloc: Global,
    table: &DynamicTable,
    index: u32,
    rest: &'a [u8],
) -> Result<(Bytes, &'a [u8]), Offence>
    ensures { Gives (λ x. (x.0, x.1.now)) result (name_by table.now (index, rest.now)) }
{
    if index == 0 {
        return string_in(alloc, rest);
    }
    match table.header_at(index as usize) {
        Some((name, _)) => Ok((Bytes::copy_of(alloc, name)?, rest)),
        None => Err(Offence::Index),
    }
}

/// A literal whose index has a prefix of `bits` bits, and the bytes after it.
#[tactic(auto, unfolding(crate::specs::Reading::literal_at))]
fn literal_in<'a>(
    alloc: Global,
    table: &DynamicTable,
    bits: u8,
    bytes: &'a [u8],
) -> Result<(Header, &'a [u8]), Offence>
    requires some { 4 ≤ bits }
    requires few { bits ≤ 7 }
    ensures { Gives (λ x. (x.0, x.1.now)) result (literal_at table.now bits bytes.now) }
{
    let (index, rest) = int_in(bits, bytes)?;
    let (name, rest) = name_in(alloc, table, index, rest)?;
    let (value, rest) = string_in(alloc, rest)?;
    Ok((Header { name, value }, rest))
}

/// An indexed header, and the bytes after it.
#[tactic(auto, unfolding(crate::specs::Reading::indexed_at))]
fn indexed_in<'a>(
    alloc: Global,
    table: &DynamicTable,
    bytes: &'a [u8],
) -> Result<(Header, &'a [u8]), Offence>
    ensures { Gives (λ x. given (Some x.0) table.now x.1.now) result (indexed_at table.now bytes.now) }
{
    let (index, rest) = int_in(7, bytes)?;
    match table.header_at(index as usize) {
        Some((name, value)) => Ok((copy_of(alloc, name, value)?, rest)),
        None => Err(Offence::Index),
    }
}

/// Takes a size update, and gives the bytes after it.
#[tactic(auto, unfolding(crate::specs::Reading::update_at))]
fn update_in<'a>(
    table: &mut DynamicTable,
    may_update: bool,
    bytes: &'a [u8],
) -> Result<&'a [u8], Offence>
    ensures { Gives (λ rest. given None table.new rest.now) result (update_at table.old may_update bytes.now) }
{
    let (max, rest) = int_in(5, bytes)?;
    if !may_update || max > MAX_TABLE {
        return Err(Offence::Update);
    }
    table.resize(max);
    Ok(rest)
}

/// Takes one representation: the header that it gives, if it gives one, and the bytes after it.
#[tactic(auto, unfolding(crate::specs::Reading::representation_at))]
pub(crate) fn representation_in<'a>(
    alloc: Global,
    table: &mut DynamicTable,
    may_update: bool,
    bytes: &'a [u8],
) -> Result<(Option<Header>, &'a [u8]), Offence>
    ensures { Gives (λ x. given x.0 table.new x.1.now) result (representation_at table.old may_update bytes.now) }
{
    let [b, ..] = bytes else {
        return Err(Offence::Truncated);
    };
    if *b > 127 {
        let (header, rest) = indexed_in(alloc, table, bytes)?;
        return Ok((Some(header), rest));
    }
    if *b > 63 {
        let (header, rest) = literal_in(alloc, table, 6, bytes)?;
        table.add(&header)?;
        return Ok((Some(header), rest));
    }
    if *b > 31 {
        let rest = update_in(table, may_update, bytes)?;
        return Ok((None, rest));
    }
    let (header, rest) = literal_in(alloc, table, 4, bytes)?;
    Ok((Some(header), rest))
}
