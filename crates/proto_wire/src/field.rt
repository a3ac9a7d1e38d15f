//! A field, and a sequence of them.

ghost use Rattle.std.specs.Prelude.{◌≡◌, map, length};
ghost use Rattle.proto_wire.specs.Field.{field_view, WireField, int_of, bytes_of};

use std::marker::Model;

/// The value of a field by its wire type: 0, 1, 2 and 5.
#[derive(Clone, Copy, Debug, PartialEq, Eq)]
pub enum Value<'a> {
    /// A varint.
    Int(u64),
    /// Eight bytes, little-endian.
    Fixed64(u64),
    /// As many bytes as the varint before them says.
    Bytes(&'a [u8]),
    /// Four bytes, little-endian.
    Fixed32(u32),
}

/// A field: its number, where its first byte stands, and its value.
#[derive(Clone, Copy, Debug, PartialEq, Eq)]
pub struct Field<'a> {
    pub number: u32,
    pub at: usize,
    pub value: Value<'a>,
}

/// The fields of some bytes, in their order.
#[derive(Debug, Drop)]
pub struct Fields<'a> {
    items: Vec<Field<'a>>,
}

impl<'a> Model for Fields<'a> {
    ghost use Rattle.std.specs.Prelude.{List, map};
    ghost use Rattle.proto_wire.specs.Field.{field_view, WireField};

    ghost Value = { List WireField };

    ghost view = { λ f. map field_view f.items.items };
}

impl<'a> Fields<'a> {
    pub(crate) fn from_vec(items: Vec<Field<'a>>) -> Fields<'a>
        ensures { result ≡ map field_view items.entry.items }
    {
        Fields { items }
    }

    /// The fields, in their order.
    pub fn as_slice(&self) -> &[Field<'a>]
        ensures { map field_view result.now ≡ self.now }
    {
        self.items.as_slice()
    }
}
