//! `Header`.

ghost use Rattle.std.specs.Prelude.{◌≡◌, nat_le, Some, None, IfOk, if◌then◌else◌};
ghost use Rattle.hpack_tables.specs.Table.{entry_of, size_of};

use proto_wire::{Bytes, Listed, OutOfMemory};
use std::alloc::Global;

/// How many bytes the size of a header has besides its name and its value (RFC 7541, section 4.1).
pub(crate) const OVERHEAD: usize = 32;

/// A header: its name and its value, as bytes.
#[derive(Debug, Drop)]
pub struct Header {
    pub name: Bytes,
    pub value: Bytes,
}

/// Headers, in order.
pub type Headers = Listed<Header>;

impl Header {
    /// The size in bytes, if it is at most `most`.
    pub(crate) fn size_within(&self, most: usize) -> Option<usize>
        ensures { result ≡ (if nat_le (size_of self.now) most then Some (size_of self.now) else None) }
    {
        let size = self
            .name
            .len()
            .checked_add(self.value.len())?
            .checked_add(OVERHEAD)?;
        if size <= most { Some(size) } else { None }
    }
}

/// A header with copies of a name and a value.
pub(crate) fn copy_of(alloc: Global, name: &[u8], value: &[u8]) -> Result<Header, OutOfMemory>
    ensures { IfOk result (λ header. header ≡ entry_of name.now value.now) }
{
    Ok(Header {
        name: Bytes::copy_of(alloc, name)?,
        value: Bytes::copy_of(alloc, value)?,
    })
}
