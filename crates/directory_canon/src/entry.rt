//! Reading one node of a Directory.

ghost use Rattle.std.specs.Prelude.{◌≡◌, drop};
ghost use Rattle.proto_wire.specs.Field.{field_view, value_view};
ghost use Rattle.directory_canon.specs.Reading.{Gives, content_at, without, name_in, target_in, digest_of, file_in, directory_in, symlink_in, node_by, node_in, spelled_in};
ghost use Rattle.directory_canon.specs.Views.{node_view};

use crate::borrowed::NodeRef;
use crate::error::DirError;
use crate::valid::{is_name, is_target};
use crate::write::write_node;
use digest_types::{Digest, DigestError};
use proto_wire::{Field, Fields, Value, fields, joined, last_bytes, last_int, text};
use std::alloc::Global;

// The last content with this number, which is the one that counts; empty if there is none.
fn content_in<'a>(fields: &Fields<'a>, number: u32) -> &'a [u8]
    ensures { result.now ≡ content_at number fields.now }
{
    last_bytes(fields, number).unwrap_or(&[])
}

fn without(number: u32, at: usize, fields: &Fields<'_>) -> Result<(), DirError>
    ensures { Gives (λ _. fields.now) result (without number at fields.now) }
{
    match last_bytes(fields, number) {
        None => Ok(()),
        Some(_) => Err(DirError::HasProperties { at }),
    }
}

fn name_in<'a>(at: usize, fields: &Fields<'a>) -> Result<&'a str, DirError>
    ensures { Gives (λ s. s.now) result (name_in at fields.now) }
{
    let Some(name) = text(content_in(fields, 1)) else {
        return Err(DirError::BadName { at });
    };
    if !is_name(name) {
        return Err(DirError::BadName { at });
    }
    Ok(name)
}

fn target_in<'a>(at: usize, fields: &Fields<'a>) -> Result<&'a str, DirError>
    ensures { Gives (λ s. s.now) result (target_in at fields.now) }
{
    let Some(target) = text(content_in(fields, 2)) else {
        return Err(DirError::BadTarget { at });
    };
    if !is_target(target) {
        return Err(DirError::BadTarget { at });
    }
    Ok(target)
}

fn digest_in(alloc: Global, at: usize, fields: &Fields<'_>) -> Result<Digest, DirError>
    ensures { Gives (λ d. d) result (digest_of at fields.now) }
{
    let Some(content) = joined(alloc, fields, 2)? else {
        return Err(DirError::BadDigest { at });
    };
    match Digest::read(alloc, content.as_slice()) {
        Ok(digest) => Ok(digest),
        Err(DigestError::OutOfMemory) => Err(DirError::OutOfMemory),
        Err(_) => Err(DirError::BadDigest { at }),
    }
}

#[tactic(auto, unfolding(crate::specs::Reading::file_in))]
fn file_in(alloc: Global, at: usize, content: &[u8]) -> Result<NodeRef<'_>, DirError>
    ensures { Gives node_view result (file_in at content.now) }
{
    let fields = fields(alloc, content)?;
    without(6, at, &fields)?;
    let name = name_in(at, &fields)?;
    let digest = digest_in(alloc, at, &fields)?;
    let exec = last_int(&fields, 4).unwrap_or(0) != 0;
    Ok(NodeRef::File { name, digest, exec })
}

#[tactic(auto, unfolding(crate::specs::Reading::directory_in))]
fn directory_in(alloc: Global, at: usize, content: &[u8]) -> Result<NodeRef<'_>, DirError>
    ensures { Gives node_view result (directory_in at content.now) }
{
    let fields = fields(alloc, content)?;
    let name = name_in(at, &fields)?;
    let digest = digest_in(alloc, at, &fields)?;
    Ok(NodeRef::Dir { name, digest })
}

#[tactic(auto, unfolding(crate::specs::Reading::symlink_in))]
fn symlink_in(alloc: Global, at: usize, content: &[u8]) -> Result<NodeRef<'_>, DirError>
    ensures { Gives node_view result (symlink_in at content.now) }
{
    let fields = fields(alloc, content)?;
    without(4, at, &fields)?;
    let name = name_in(at, &fields)?;
    let target = target_in(at, &fields)?;
    Ok(NodeRef::Link { name, target })
}

fn node_by<'a>(
    alloc: Global,
    at: usize,
    number: u32,
    value: &Value<'a>,
) -> Result<NodeRef<'a>, DirError>
    ensures { Gives node_view result (node_by at number (value_view value.now)) }
{
    match value {
        Value::Bytes(content) => match number {
            1 => file_in(alloc, at, content),
            2 => directory_in(alloc, at, content),
            3 => symlink_in(alloc, at, content),
            _ => Err(DirError::NotCanonical { at }),
        },
        Value::Int(_) | Value::Fixed64(_) | Value::Fixed32(_) => Err(DirError::NotCanonical { at }),
    }
}

#[tactic(auto, unfolding(crate::specs::Reading::node_in))]
fn node_in<'a>(alloc: Global, field: &Field<'a>) -> Result<NodeRef<'a>, DirError>
    ensures { Gives node_view result (node_in (field_view field.now)) }
{
    if field.number == 5 {
        return Err(DirError::HasProperties { at: field.at });
    }
    node_by(alloc, field.at, field.number, &field.value)
}

// The bytes from a place on; none if it is past the end.
fn rest_from(whole: &[u8], at: usize) -> &[u8]
    ensures { result.now ≡ drop at whole.now }
{
    whole.get(at..).unwrap_or(&[])
}

/// The node that a field of the whole spells, if that is the node's shortest spelling.
#[tactic(auto, unfolding(crate::specs::Reading::spelled_in))]
pub(crate) fn spelled_in<'a>(
    alloc: Global,
    whole: &[u8],
    field: &Field<'a>,
) -> Result<NodeRef<'a>, DirError>
    ensures { Gives node_view result (spelled_in whole.now (field_view field.now)) }
{
    // `?` gets no proof if the value holds a reference beside a digest.
    let node = match node_in(alloc, field) {
        Ok(node) => node,
        Err(e) => return Err(e),
    };
    let spelled = write_node(alloc, &node)?;
    if !rest_from(whole, field.at).starts_with(spelled.as_slice()) {
        return Err(DirError::NotCanonical { at: field.at });
    }
    Ok(node)
}
