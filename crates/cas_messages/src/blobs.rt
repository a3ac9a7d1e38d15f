//! The messages of ContentAddressableStorage on blobs (Remote Execution API v2).

ghost use Rattle.std.specs.Prelude.{map, refl};
ghost use Rattle.cas_messages.specs.Table.{◌&◌};
ghost use Rattle.cas_messages.specs.Tables;

use crate::error::MessageError;
use crate::get::{
    bytes_in, digest_in, digests_in, int32_in, int32s_in, message_in, messages_in, text_in,
};
use crate::message::Message;
use crate::put::{
    put_bytes, put_digest, put_digests, put_int32, put_int32s, put_message, put_messages, put_text,
};
use crate::status::RpcStatus;
use digest_types::{Digest, Digests};
use proto_wire::{Bytes, Fields, Listed, OutOfMemory, Text, Writer};
use std::alloc::Global;

/// Asks which of these blobs are missing.
#[derive(Debug, Drop)]
pub struct FindMissingBlobsRequest {
    pub instance_name: Text,
    pub blob_digests: Digests,
    pub digest_function: i32,
}

impl Message for FindMissingBlobsRequest {
    ghost table = { Tables.find_missing_blobs_request };

    ghost value = { λ m. m.instance_name & m.blob_digests & m.digest_function & tt };

    #[tactic(auto, unfolding(crate::specs::Meaning::fields_in))]
    fn read_fields(
        alloc: Global,
        fields: &Fields<'_>,
    ) -> Result<FindMissingBlobsRequest, MessageError> {
        Ok(FindMissingBlobsRequest {
            instance_name: text_in(alloc, fields, 1)?,
            blob_digests: digests_in(alloc, fields, 2)?,
            digest_function: int32_in(fields, 3),
        })
    }

    #[tactic(auto, using(crate::proofs::Parts::parts), unfolding(crate::specs::Spelling::spelled))]
    fn write_fields(&self, alloc: Global, out: &mut Writer) -> Result<(), OutOfMemory> {
        put_text(out, 1, &self.instance_name)?;
        put_digests(alloc, out, 2, self.blob_digests.as_slice())?;
        put_int32(out, 3, self.digest_function)
    }

    ghost ascends = { refl };
}

/// The blobs that are missing.
#[derive(Debug, Drop)]
pub struct FindMissingBlobsResponse {
    pub missing_blob_digests: Digests,
}

impl Message for FindMissingBlobsResponse {
    ghost table = { Tables.find_missing_blobs_response };

    ghost value = { λ m. m.missing_blob_digests & tt };

    #[tactic(auto, unfolding(crate::specs::Meaning::fields_in))]
    fn read_fields(
        alloc: Global,
        fields: &Fields<'_>,
    ) -> Result<FindMissingBlobsResponse, MessageError> {
        Ok(FindMissingBlobsResponse {
            missing_blob_digests: digests_in(alloc, fields, 2)?,
        })
    }

    #[tactic(auto, using(crate::proofs::Parts::parts), unfolding(crate::specs::Spelling::spelled))]
    fn write_fields(&self, alloc: Global, out: &mut Writer) -> Result<(), OutOfMemory> {
        put_digests(alloc, out, 2, self.missing_blob_digests.as_slice())
    }

    ghost ascends = { refl };
}

/// A blob to put: the declared digest, and the bytes.
#[derive(Debug, Drop)]
pub struct BatchUpdateBlobsRequestItem2 {
    pub digest: Digest,
    pub bytes: Bytes,
    pub compressor: i32,
}

impl Message for BatchUpdateBlobsRequestItem2 {
    ghost table = { Tables.batch_update_blobs_request_item2 };

    ghost value = { λ m. m.digest & m.bytes & m.compressor & tt };

    #[tactic(auto, unfolding(crate::specs::Meaning::fields_in))]
    fn read_fields(
        alloc: Global,
        fields: &Fields<'_>,
    ) -> Result<BatchUpdateBlobsRequestItem2, MessageError> {
        Ok(BatchUpdateBlobsRequestItem2 {
            digest: digest_in(alloc, fields, 1)?,
            bytes: bytes_in(alloc, fields, 2)?,
            compressor: int32_in(fields, 3),
        })
    }

    #[tactic(auto, using(crate::proofs::Parts::parts), unfolding(crate::specs::Spelling::spelled))]
    fn write_fields(&self, alloc: Global, out: &mut Writer) -> Result<(), OutOfMemory> {
        put_digest(alloc, out, 1, &self.digest)?;
        put_bytes(out, 2, &self.bytes)?;
        put_int32(out, 3, self.compressor)
    }

    ghost ascends = { refl };
}

/// Blobs to put.
#[derive(Debug, Drop)]
pub struct BatchUpdateBlobsRequest {
    pub instance_name: Text,
    pub requests: Listed<BatchUpdateBlobsRequestItem2>,
    pub digest_function: i32,
}

impl Message for BatchUpdateBlobsRequest {
    ghost table = { Tables.batch_update_blobs_request };

    ghost value = { λ m. m.instance_name & map ⟦<BatchUpdateBlobsRequestItem2 as Message>⟧.value m.requests & m.digest_function & tt };

    #[tactic(auto, unfolding(crate::specs::Meaning::fields_in))]
    fn read_fields(
        alloc: Global,
        fields: &Fields<'_>,
    ) -> Result<BatchUpdateBlobsRequest, MessageError> {
        Ok(BatchUpdateBlobsRequest {
            instance_name: text_in(alloc, fields, 1)?,
            requests: messages_in(alloc, fields, 2)?,
            digest_function: int32_in(fields, 5),
        })
    }

    #[tactic(auto, using(crate::proofs::Parts::parts), unfolding(crate::specs::Spelling::spelled))]
    fn write_fields(&self, alloc: Global, out: &mut Writer) -> Result<(), OutOfMemory> {
        put_text(out, 1, &self.instance_name)?;
        put_messages(alloc, out, 2, self.requests.as_slice())?;
        put_int32(out, 5, self.digest_function)
    }

    ghost ascends = { refl };
}

/// The result of putting one blob.
#[derive(Debug, Drop)]
pub struct BatchUpdateBlobsResponseItem1 {
    pub digest: Digest,
    pub status: RpcStatus,
}

impl Message for BatchUpdateBlobsResponseItem1 {
    ghost table = { Tables.batch_update_blobs_response_item1 };

    ghost value = { λ m. m.digest & ⟦<RpcStatus as Message>⟧.value m.status & tt };

    #[tactic(auto, unfolding(crate::specs::Meaning::fields_in))]
    fn read_fields(
        alloc: Global,
        fields: &Fields<'_>,
    ) -> Result<BatchUpdateBlobsResponseItem1, MessageError> {
        Ok(BatchUpdateBlobsResponseItem1 {
            digest: digest_in(alloc, fields, 1)?,
            status: message_in(alloc, fields, 2)?,
        })
    }

    #[tactic(auto, using(crate::proofs::Parts::parts), unfolding(crate::specs::Spelling::spelled))]
    fn write_fields(&self, alloc: Global, out: &mut Writer) -> Result<(), OutOfMemory> {
        put_digest(alloc, out, 1, &self.digest)?;
        put_message(alloc, out, 2, &self.status)
    }

    ghost ascends = { refl };
}

/// The result of putting each blob.
#[derive(Debug, Drop)]
pub struct BatchUpdateBlobsResponse {
    pub responses: Listed<BatchUpdateBlobsResponseItem1>,
}

impl Message for BatchUpdateBlobsResponse {
    ghost table = { Tables.batch_update_blobs_response };

    ghost value = { λ m. map ⟦<BatchUpdateBlobsResponseItem1 as Message>⟧.value m.responses & tt };

    #[tactic(auto, unfolding(crate::specs::Meaning::fields_in))]
    fn read_fields(
        alloc: Global,
        fields: &Fields<'_>,
    ) -> Result<BatchUpdateBlobsResponse, MessageError> {
        Ok(BatchUpdateBlobsResponse {
            responses: messages_in(alloc, fields, 1)?,
        })
    }

    #[tactic(auto, using(crate::proofs::Parts::parts), unfolding(crate::specs::Spelling::spelled))]
    fn write_fields(&self, alloc: Global, out: &mut Writer) -> Result<(), OutOfMemory> {
        put_messages(alloc, out, 1, self.responses.as_slice())
    }

    ghost ascends = { refl };
}

/// Blobs to read.
#[derive(Debug, Drop)]
pub struct BatchReadBlobsRequest {
    pub instance_name: Text,
    pub digests: Digests,
    pub acceptable_compressors: Listed<i32>,
    pub digest_function: i32,
}

impl Message for BatchReadBlobsRequest {
    ghost table = { Tables.batch_read_blobs_request };

    ghost value = { λ m. m.instance_name & m.digests & m.acceptable_compressors & m.digest_function & tt };

    #[tactic(auto, unfolding(crate::specs::Meaning::fields_in))]
    fn read_fields(
        alloc: Global,
        fields: &Fields<'_>,
    ) -> Result<BatchReadBlobsRequest, MessageError> {
        Ok(BatchReadBlobsRequest {
            instance_name: text_in(alloc, fields, 1)?,
            digests: digests_in(alloc, fields, 2)?,
            acceptable_compressors: int32s_in(alloc, fields, 3)?,
            digest_function: int32_in(fields, 4),
        })
    }

    #[tactic(auto, using(crate::proofs::Parts::parts), unfolding(crate::specs::Spelling::spelled))]
    fn write_fields(&self, alloc: Global, out: &mut Writer) -> Result<(), OutOfMemory> {
        put_text(out, 1, &self.instance_name)?;
        put_digests(alloc, out, 2, self.digests.as_slice())?;
        put_int32s(alloc, out, 3, self.acceptable_compressors.as_slice())?;
        put_int32(out, 4, self.digest_function)
    }

    ghost ascends = { refl };
}

/// A blob's bytes, or the status that says why they can't be read.
#[derive(Debug, Drop)]
pub struct BatchReadBlobsResponseItem1 {
    pub digest: Digest,
    pub bytes: Bytes,
    pub status: RpcStatus,
    pub compressor: i32,
}

impl Message for BatchReadBlobsResponseItem1 {
    ghost table = { Tables.batch_read_blobs_response_item1 };

    ghost value = { λ m. m.digest & m.bytes & ⟦<RpcStatus as Message>⟧.value m.status & m.compressor & tt };

    #[tactic(auto, unfolding(crate::specs::Meaning::fields_in))]
    fn read_fields(
        alloc: Global,
        fields: &Fields<'_>,
    ) -> Result<BatchReadBlobsResponseItem1, MessageError> {
        Ok(BatchReadBlobsResponseItem1 {
            digest: digest_in(alloc, fields, 1)?,
            bytes: bytes_in(alloc, fields, 2)?,
            status: message_in(alloc, fields, 3)?,
            compressor: int32_in(fields, 4),
        })
    }

    #[tactic(auto, using(crate::proofs::Parts::parts), unfolding(crate::specs::Spelling::spelled))]
    fn write_fields(&self, alloc: Global, out: &mut Writer) -> Result<(), OutOfMemory> {
        put_digest(alloc, out, 1, &self.digest)?;
        put_bytes(out, 2, &self.bytes)?;
        put_message(alloc, out, 3, &self.status)?;
        put_int32(out, 4, self.compressor)?;
        Ok(())
    }

    ghost ascends = { refl };
}

/// The requested blobs.
#[derive(Debug, Drop)]
pub struct BatchReadBlobsResponse {
    pub responses: Listed<BatchReadBlobsResponseItem1>,
}

impl Message for BatchReadBlobsResponse {
    ghost table = { Tables.batch_read_blobs_response };

    ghost value = { λ m. map ⟦<BatchReadBlobsResponseItem1 as Message>⟧.value m.responses & tt };

    #[tactic(auto, unfolding(crate::specs::Meaning::fields_in))]
    fn read_fields(
        alloc: Global,
        fields: &Fields<'_>,
    ) -> Result<BatchReadBlobsResponse, MessageError> {
        Ok(BatchReadBlobsResponse {
            responses: messages_in(alloc, fields, 1)?,
        })
    }

    #[tactic(auto, using(crate::proofs::Parts::parts), unfolding(crate::specs::Spelling::spelled))]
    fn write_fields(&self, alloc: Global, out: &mut Writer) -> Result<(), OutOfMemory> {
        put_messages(alloc, out, 1, self.responses.as_slice())
    }

    ghost ascends = { refl };
}
