//! The messages of LocalContentAddressableStorage that fetch and upload (build.buildgrid).

ghost use Rattle.std.specs.Prelude.{map, refl};
ghost use Rattle.cas_messages.specs.Table.{◌&◌};
ghost use Rattle.cas_messages.specs.Tables;

use crate::error::MessageError;
use crate::get::{bool_in, digest_in, digests_in, message_in, messages_in, text_in};
use crate::message::Message;
use crate::put::{put_bool, put_digest, put_digests, put_message, put_messages, put_text};
use crate::status::RpcStatus;
use digest_types::{Digest, Digests};
use proto_wire::{Fields, Listed, OutOfMemory, Text, Writer};
use std::alloc::Global;

/// Blobs to fetch from upstream where the store lacks them.
#[derive(Debug, Drop)]
pub struct FetchMissingBlobsRequest {
    pub instance_name: Text,
    pub blob_digests: Digests,
}

impl Message for FetchMissingBlobsRequest {
    ghost table = { Tables.fetch_missing_blobs_request };

    ghost value = { λ m. m.instance_name & m.blob_digests & tt };

    #[tactic(auto, unfolding(crate::specs::Meaning::fields_in))]
    fn read_fields(
        alloc: Global,
        fields: &Fields<'_>,
    ) -> Result<FetchMissingBlobsRequest, MessageError> {
        Ok(FetchMissingBlobsRequest {
            instance_name: text_in(alloc, fields, 1)?,
            blob_digests: digests_in(alloc, fields, 2)?,
        })
    }

    #[tactic(auto, using(crate::proofs::Parts::parts), unfolding(crate::specs::Spelling::spelled))]
    fn write_fields(&self, alloc: Global, out: &mut Writer) -> Result<(), OutOfMemory> {
        put_text(out, 1, &self.instance_name)?;
        put_digests(alloc, out, 2, self.blob_digests.as_slice())
    }

    ghost ascends = { refl };
}

/// Why a blob was not fetched.
#[derive(Debug, Drop)]
pub struct FetchMissingBlobsResponseItem1 {
    pub digest: Digest,
    pub status: RpcStatus,
}

impl Message for FetchMissingBlobsResponseItem1 {
    ghost table = { Tables.fetch_missing_blobs_response_item1 };

    ghost value = { λ m. m.digest & ⟦<RpcStatus as Message>⟧.value m.status & tt };

    #[tactic(auto, unfolding(crate::specs::Meaning::fields_in))]
    fn read_fields(
        alloc: Global,
        fields: &Fields<'_>,
    ) -> Result<FetchMissingBlobsResponseItem1, MessageError> {
        Ok(FetchMissingBlobsResponseItem1 {
            digest: digest_in(alloc, fields, 1)?,
            status: message_in(alloc, fields, 2)?,
        })
    }

    #[tactic(auto, using(crate::proofs::Parts::parts), unfolding(crate::specs::Spelling::spelled))]
    fn write_fields(&self, alloc: Global, out: &mut Writer) -> Result<(), OutOfMemory> {
        put_digest(alloc, out, 1, &self.digest)?;
        put_message(alloc, out, 2, &self.status)
    }

    ghost ascends = { refl };
}

/// The blobs that were not fetched.
#[derive(Debug, Drop)]
pub struct FetchMissingBlobsResponse {
    pub responses: Listed<FetchMissingBlobsResponseItem1>,
}

impl Message for FetchMissingBlobsResponse {
    ghost table = { Tables.fetch_missing_blobs_response };

    ghost value = { λ m. map ⟦<FetchMissingBlobsResponseItem1 as Message>⟧.value m.responses & tt };

    #[tactic(auto, unfolding(crate::specs::Meaning::fields_in))]
    fn read_fields(
        alloc: Global,
        fields: &Fields<'_>,
    ) -> Result<FetchMissingBlobsResponse, MessageError> {
        Ok(FetchMissingBlobsResponse {
            responses: messages_in(alloc, fields, 1)?,
        })
    }

    #[tactic(auto, using(crate::proofs::Parts::parts), unfolding(crate::specs::Spelling::spelled))]
    fn write_fields(&self, alloc: Global, out: &mut Writer) -> Result<(), OutOfMemory> {
        put_messages(alloc, out, 1, self.responses.as_slice())
    }

    ghost ascends = { refl };
}

/// Blobs to upload where upstream lacks them.
#[derive(Debug, Drop)]
pub struct UploadMissingBlobsRequest {
    pub instance_name: Text,
    pub blob_digests: Digests,
}

impl Message for UploadMissingBlobsRequest {
    ghost table = { Tables.upload_missing_blobs_request };

    ghost value = { λ m. m.instance_name & m.blob_digests & tt };

    #[tactic(auto, unfolding(crate::specs::Meaning::fields_in))]
    fn read_fields(
        alloc: Global,
        fields: &Fields<'_>,
    ) -> Result<UploadMissingBlobsRequest, MessageError> {
        Ok(UploadMissingBlobsRequest {
            instance_name: text_in(alloc, fields, 1)?,
            blob_digests: digests_in(alloc, fields, 2)?,
        })
    }

    #[tactic(auto, using(crate::proofs::Parts::parts), unfolding(crate::specs::Spelling::spelled))]
    fn write_fields(&self, alloc: Global, out: &mut Writer) -> Result<(), OutOfMemory> {
        put_text(out, 1, &self.instance_name)?;
        put_digests(alloc, out, 2, self.blob_digests.as_slice())
    }

    ghost ascends = { refl };
}

/// Why a blob was not uploaded.
#[derive(Debug, Drop)]
pub struct UploadMissingBlobsResponseItem1 {
    pub digest: Digest,
    pub status: RpcStatus,
}

impl Message for UploadMissingBlobsResponseItem1 {
    ghost table = { Tables.upload_missing_blobs_response_item1 };

    ghost value = { λ m. m.digest & ⟦<RpcStatus as Message>⟧.value m.status & tt };

    #[tactic(auto, unfolding(crate::specs::Meaning::fields_in))]
    fn read_fields(
        alloc: Global,
        fields: &Fields<'_>,
    ) -> Result<UploadMissingBlobsResponseItem1, MessageError> {
        Ok(UploadMissingBlobsResponseItem1 {
            digest: digest_in(alloc, fields, 1)?,
            status: message_in(alloc, fields, 2)?,
        })
    }

    #[tactic(auto, using(crate::proofs::Parts::parts), unfolding(crate::specs::Spelling::spelled))]
    fn write_fields(&self, alloc: Global, out: &mut Writer) -> Result<(), OutOfMemory> {
        put_digest(alloc, out, 1, &self.digest)?;
        put_message(alloc, out, 2, &self.status)
    }

    ghost ascends = { refl };
}

/// The blobs that were not uploaded.
#[derive(Debug, Drop)]
pub struct UploadMissingBlobsResponse {
    pub responses: Listed<UploadMissingBlobsResponseItem1>,
}

impl Message for UploadMissingBlobsResponse {
    ghost table = { Tables.upload_missing_blobs_response };

    ghost value = { λ m. map ⟦<UploadMissingBlobsResponseItem1 as Message>⟧.value m.responses & tt };

    #[tactic(auto, unfolding(crate::specs::Meaning::fields_in))]
    fn read_fields(
        alloc: Global,
        fields: &Fields<'_>,
    ) -> Result<UploadMissingBlobsResponse, MessageError> {
        Ok(UploadMissingBlobsResponse {
            responses: messages_in(alloc, fields, 1)?,
        })
    }

    #[tactic(auto, using(crate::proofs::Parts::parts), unfolding(crate::specs::Spelling::spelled))]
    fn write_fields(&self, alloc: Global, out: &mut Writer) -> Result<(), OutOfMemory> {
        put_messages(alloc, out, 1, self.responses.as_slice())
    }

    ghost ascends = { refl };
}

/// A tree to fetch from upstream, with or without its files.
#[derive(Debug, Drop)]
pub struct FetchTreeRequest {
    pub instance_name: Text,
    pub root_digest: Digest,
    pub fetch_file_blobs: bool,
}

impl Message for FetchTreeRequest {
    ghost table = { Tables.fetch_tree_request };

    ghost value = { λ m. m.instance_name & m.root_digest & m.fetch_file_blobs & tt };

    #[tactic(auto, unfolding(crate::specs::Meaning::fields_in))]
    fn read_fields(alloc: Global, fields: &Fields<'_>) -> Result<FetchTreeRequest, MessageError> {
        Ok(FetchTreeRequest {
            instance_name: text_in(alloc, fields, 1)?,
            root_digest: digest_in(alloc, fields, 2)?,
            fetch_file_blobs: bool_in(fields, 3),
        })
    }

    #[tactic(auto, using(crate::proofs::Parts::parts), unfolding(crate::specs::Spelling::spelled))]
    fn write_fields(&self, alloc: Global, out: &mut Writer) -> Result<(), OutOfMemory> {
        put_text(out, 1, &self.instance_name)?;
        put_digest(alloc, out, 2, &self.root_digest)?;
        put_bool(out, 3, self.fetch_file_blobs)
    }

    ghost ascends = { refl };
}

/// The answer once the whole tree is in the store.
#[derive(Debug, Drop)]
pub struct FetchTreeResponse;

impl Message for FetchTreeResponse {
    ghost table = { Tables.fetch_tree_response };

    ghost value = { λ _. tt };

    #[tactic(auto, unfolding(crate::specs::Meaning::fields_in))]
    fn read_fields(
        _alloc: Global,
        _fields: &Fields<'_>,
    ) -> Result<FetchTreeResponse, MessageError> {
        Ok(FetchTreeResponse)
    }

    #[tactic(auto, using(crate::proofs::Parts::parts), unfolding(crate::specs::Spelling::spelled))]
    fn write_fields(&self, _alloc: Global, _out: &mut Writer) -> Result<(), OutOfMemory> {
        Ok(())
    }

    ghost ascends = { refl };
}

/// A tree to upload.
#[derive(Debug, Drop)]
pub struct UploadTreeRequest {
    pub instance_name: Text,
    pub root_digest: Digest,
}

impl Message for UploadTreeRequest {
    ghost table = { Tables.upload_tree_request };

    ghost value = { λ m. m.instance_name & m.root_digest & tt };

    #[tactic(auto, unfolding(crate::specs::Meaning::fields_in))]
    fn read_fields(alloc: Global, fields: &Fields<'_>) -> Result<UploadTreeRequest, MessageError> {
        Ok(UploadTreeRequest {
            instance_name: text_in(alloc, fields, 1)?,
            root_digest: digest_in(alloc, fields, 2)?,
        })
    }

    #[tactic(auto, using(crate::proofs::Parts::parts), unfolding(crate::specs::Spelling::spelled))]
    fn write_fields(&self, alloc: Global, out: &mut Writer) -> Result<(), OutOfMemory> {
        put_text(out, 1, &self.instance_name)?;
        put_digest(alloc, out, 2, &self.root_digest)
    }

    ghost ascends = { refl };
}

/// The answer once the whole tree is upstream.
#[derive(Debug, Drop)]
pub struct UploadTreeResponse;

impl Message for UploadTreeResponse {
    ghost table = { Tables.upload_tree_response };

    ghost value = { λ _. tt };

    #[tactic(auto, unfolding(crate::specs::Meaning::fields_in))]
    fn read_fields(
        _alloc: Global,
        _fields: &Fields<'_>,
    ) -> Result<UploadTreeResponse, MessageError> {
        Ok(UploadTreeResponse)
    }

    #[tactic(auto, using(crate::proofs::Parts::parts), unfolding(crate::specs::Spelling::spelled))]
    fn write_fields(&self, _alloc: Global, _out: &mut Writer) -> Result<(), OutOfMemory> {
        Ok(())
    }

    ghost ascends = { refl };
}
