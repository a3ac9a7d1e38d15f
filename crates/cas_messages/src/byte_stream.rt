//! The messages of ByteStream (google.bytestream).

ghost use Rattle.std.specs.Prelude.{refl};
ghost use Rattle.cas_messages.specs.Table.{◌&◌};
ghost use Rattle.cas_messages.specs.Tables;

use crate::error::MessageError;
use crate::get::{bool_in, bytes_in, int64_in, text_in};
use crate::message::Message;
use crate::put::{put_bool, put_bytes, put_int64, put_text};
use proto_wire::{Bytes, Fields, OutOfMemory, Text, Writer};
use std::alloc::Global;

/// Asks for a part of a resource. The offset and the limit are in bytes; a limit of 0 means no limit.
#[derive(Debug, Drop)]
pub struct ReadRequest {
    pub resource_name: Text,
    pub read_offset: i64,
    pub read_limit: i64,
}

impl Message for ReadRequest {
    ghost table = { Tables.read_request };

    ghost value = { λ m. m.resource_name & m.read_offset & m.read_limit & tt };

    #[tactic(auto, unfolding(crate::specs::Meaning::fields_in))]
    fn read_fields(alloc: Global, fields: &Fields<'_>) -> Result<ReadRequest, MessageError> {
        Ok(ReadRequest {
            resource_name: text_in(alloc, fields, 1)?,
            read_offset: int64_in(fields, 2),
            read_limit: int64_in(fields, 3),
        })
    }

    #[tactic(auto, using(crate::proofs::Parts::parts), unfolding(crate::specs::Spelling::spelled))]
    fn write_fields(&self, _alloc: Global, out: &mut Writer) -> Result<(), OutOfMemory> {
        put_text(out, 1, &self.resource_name)?;
        put_int64(out, 2, self.read_offset)?;
        put_int64(out, 3, self.read_limit)
    }

    ghost ascends = { refl };
}

/// The next bytes of a resource.
#[derive(Debug, Drop)]
pub struct ReadResponse {
    pub bytes: Bytes,
}

impl Message for ReadResponse {
    ghost table = { Tables.read_response };

    ghost value = { λ m. m.bytes & tt };

    #[tactic(auto, unfolding(crate::specs::Meaning::fields_in))]
    fn read_fields(alloc: Global, fields: &Fields<'_>) -> Result<ReadResponse, MessageError> {
        Ok(ReadResponse {
            bytes: bytes_in(alloc, fields, 10)?,
        })
    }

    #[tactic(auto, using(crate::proofs::Parts::parts), unfolding(crate::specs::Spelling::spelled))]
    fn write_fields(&self, _alloc: Global, out: &mut Writer) -> Result<(), OutOfMemory> {
        put_bytes(out, 10, &self.bytes)
    }

    ghost ascends = { refl };
}

/// The next bytes of a resource, and whether they are the last.
#[derive(Debug, Drop)]
pub struct WriteRequest {
    pub resource_name: Text,
    pub write_offset: i64,
    pub finish_write: bool,
    pub bytes: Bytes,
}

impl Message for WriteRequest {
    ghost table = { Tables.write_request };

    ghost value = { λ m. m.resource_name & m.write_offset & m.finish_write & m.bytes & tt };

    #[tactic(auto, unfolding(crate::specs::Meaning::fields_in))]
    fn read_fields(alloc: Global, fields: &Fields<'_>) -> Result<WriteRequest, MessageError> {
        Ok(WriteRequest {
            resource_name: text_in(alloc, fields, 1)?,
            write_offset: int64_in(fields, 2),
            finish_write: bool_in(fields, 3),
            bytes: bytes_in(alloc, fields, 10)?,
        })
    }

    #[tactic(auto, using(crate::proofs::Parts::parts), unfolding(crate::specs::Spelling::spelled))]
    fn write_fields(&self, _alloc: Global, out: &mut Writer) -> Result<(), OutOfMemory> {
        put_text(out, 1, &self.resource_name)?;
        put_int64(out, 2, self.write_offset)?;
        put_bool(out, 3, self.finish_write)?;
        put_bytes(out, 10, &self.bytes)
    }

    ghost ascends = { refl };
}

/// How many bytes were committed.
#[derive(Debug, Drop)]
pub struct WriteResponse {
    pub committed_size: i64,
}

impl Message for WriteResponse {
    ghost table = { Tables.write_response };

    ghost value = { λ m. m.committed_size & tt };

    #[tactic(auto, unfolding(crate::specs::Meaning::fields_in))]
    fn read_fields(_alloc: Global, fields: &Fields<'_>) -> Result<WriteResponse, MessageError> {
        Ok(WriteResponse {
            committed_size: int64_in(fields, 1),
        })
    }

    #[tactic(auto, using(crate::proofs::Parts::parts), unfolding(crate::specs::Spelling::spelled))]
    fn write_fields(&self, _alloc: Global, out: &mut Writer) -> Result<(), OutOfMemory> {
        put_int64(out, 1, self.committed_size)
    }

    ghost ascends = { refl };
}

/// Asks how much of a resource has been written.
#[derive(Debug, Drop)]
pub struct QueryWriteStatusRequest {
    pub resource_name: Text,
}

impl Message for QueryWriteStatusRequest {
    ghost table = { Tables.query_write_status_request };

    ghost value = { λ m. m.resource_name & tt };

    #[tactic(auto, unfolding(crate::specs::Meaning::fields_in))]
    fn read_fields(
        alloc: Global,
        fields: &Fields<'_>,
    ) -> Result<QueryWriteStatusRequest, MessageError> {
        Ok(QueryWriteStatusRequest {
            resource_name: text_in(alloc, fields, 1)?,
        })
    }

    #[tactic(auto, using(crate::proofs::Parts::parts), unfolding(crate::specs::Spelling::spelled))]
    fn write_fields(&self, _alloc: Global, out: &mut Writer) -> Result<(), OutOfMemory> {
        put_text(out, 1, &self.resource_name)
    }

    ghost ascends = { refl };
}

/// How many bytes were committed, and whether the write is complete.
#[derive(Debug, Drop)]
pub struct QueryWriteStatusResponse {
    pub committed_size: i64,
    pub complete: bool,
}

impl Message for QueryWriteStatusResponse {
    ghost table = { Tables.query_write_status_response };

    ghost value = { λ m. m.committed_size & m.complete & tt };

    #[tactic(auto, unfolding(crate::specs::Meaning::fields_in))]
    fn read_fields(
        _alloc: Global,
        fields: &Fields<'_>,
    ) -> Result<QueryWriteStatusResponse, MessageError> {
        Ok(QueryWriteStatusResponse {
            committed_size: int64_in(fields, 1),
            complete: bool_in(fields, 2),
        })
    }

    #[tactic(auto, using(crate::proofs::Parts::parts), unfolding(crate::specs::Spelling::spelled))]
    fn write_fields(&self, _alloc: Global, out: &mut Writer) -> Result<(), OutOfMemory> {
        put_int64(out, 1, self.committed_size)?;
        put_bool(out, 2, self.complete)
    }

    ghost ascends = { refl };
}
