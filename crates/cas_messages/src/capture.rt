//! The messages of LocalContentAddressableStorage that capture folders and files (build.buildgrid).

ghost use Rattle.std.specs.Prelude.{map, refl};
ghost use Rattle.cas_messages.specs.Table.{◌&◌};
ghost use Rattle.cas_messages.specs.Tables;

use crate::error::MessageError;
use crate::get::{bool_in, message_in, messages_in, optional_digest_in, text_in, texts_in};
use crate::message::Message;
use crate::put::{put_bool, put_message, put_messages, put_optional_digest, put_text, put_texts};
use crate::status::RpcStatus;
use digest_types::Digest;
use proto_wire::{Fields, Listed, OutOfMemory, Text, Writer};
use std::alloc::Global;

/// Folders to capture.
#[derive(Debug, Drop)]
pub struct CaptureTreeRequest {
    pub instance_name: Text,
    pub path: Listed<Text>,
    pub bypass_local_cache: bool,
    pub node_properties: Listed<Text>,
}

impl Message for CaptureTreeRequest {
    ghost table = { Tables.capture_tree_request };

    ghost value = { λ m. m.instance_name & m.path & m.bypass_local_cache & m.node_properties & tt };

    #[tactic(auto, unfolding(crate::specs::Meaning::fields_in))]
    fn read_fields(alloc: Global, fields: &Fields<'_>) -> Result<CaptureTreeRequest, MessageError> {
        Ok(CaptureTreeRequest {
            instance_name: text_in(alloc, fields, 1)?,
            path: texts_in(alloc, fields, 2)?,
            bypass_local_cache: bool_in(fields, 3),
            node_properties: texts_in(alloc, fields, 4)?,
        })
    }

    #[tactic(auto, using(crate::proofs::Parts::parts), unfolding(crate::specs::Spelling::spelled))]
    fn write_fields(&self, _alloc: Global, out: &mut Writer) -> Result<(), OutOfMemory> {
        put_text(out, 1, &self.instance_name)?;
        put_texts(out, 2, self.path.as_slice())?;
        put_bool(out, 3, self.bypass_local_cache)?;
        put_texts(out, 4, self.node_properties.as_slice())
    }

    ghost ascends = { refl };
}

/// The digest of a captured folder's Tree, or the status that says why there is none. The path is the request's.
#[derive(Debug, Drop)]
pub struct CaptureTreeResponseItem1 {
    pub path: Text,
    pub tree_digest: Option<Digest>,
    pub status: RpcStatus,
}

impl Message for CaptureTreeResponseItem1 {
    ghost table = { Tables.capture_tree_response_item1 };

    ghost value = { λ m. m.path & m.tree_digest & ⟦<RpcStatus as Message>⟧.value m.status & tt };

    #[tactic(auto, unfolding(crate::specs::Meaning::fields_in))]
    fn read_fields(
        alloc: Global,
        fields: &Fields<'_>,
    ) -> Result<CaptureTreeResponseItem1, MessageError> {
        Ok(CaptureTreeResponseItem1 {
            path: text_in(alloc, fields, 1)?,
            tree_digest: optional_digest_in(alloc, fields, 2)?,
            status: message_in(alloc, fields, 3)?,
        })
    }

    #[tactic(auto, using(crate::proofs::Parts::parts), unfolding(crate::specs::Spelling::spelled))]
    fn write_fields(&self, alloc: Global, out: &mut Writer) -> Result<(), OutOfMemory> {
        put_text(out, 1, &self.path)?;
        put_optional_digest(alloc, out, 2, &self.tree_digest)?;
        put_message(alloc, out, 3, &self.status)
    }

    ghost ascends = { refl };
}

/// The result for each folder.
#[derive(Debug, Drop)]
pub struct CaptureTreeResponse {
    pub responses: Listed<CaptureTreeResponseItem1>,
}

impl Message for CaptureTreeResponse {
    ghost table = { Tables.capture_tree_response };

    ghost value = { λ m. map ⟦<CaptureTreeResponseItem1 as Message>⟧.value m.responses & tt };

    #[tactic(auto, unfolding(crate::specs::Meaning::fields_in))]
    fn read_fields(
        alloc: Global,
        fields: &Fields<'_>,
    ) -> Result<CaptureTreeResponse, MessageError> {
        Ok(CaptureTreeResponse {
            responses: messages_in(alloc, fields, 1)?,
        })
    }

    #[tactic(auto, using(crate::proofs::Parts::parts), unfolding(crate::specs::Spelling::spelled))]
    fn write_fields(&self, alloc: Global, out: &mut Writer) -> Result<(), OutOfMemory> {
        put_messages(alloc, out, 1, self.responses.as_slice())
    }

    ghost ascends = { refl };
}

/// Files to capture.
#[derive(Debug, Drop)]
pub struct CaptureFilesRequest {
    pub instance_name: Text,
    pub path: Listed<Text>,
    pub bypass_local_cache: bool,
    pub node_properties: Listed<Text>,
}

impl Message for CaptureFilesRequest {
    ghost table = { Tables.capture_files_request };

    ghost value = { λ m. m.instance_name & m.path & m.bypass_local_cache & m.node_properties & tt };

    #[tactic(auto, unfolding(crate::specs::Meaning::fields_in))]
    fn read_fields(
        alloc: Global,
        fields: &Fields<'_>,
    ) -> Result<CaptureFilesRequest, MessageError> {
        Ok(CaptureFilesRequest {
            instance_name: text_in(alloc, fields, 1)?,
            path: texts_in(alloc, fields, 2)?,
            bypass_local_cache: bool_in(fields, 3),
            node_properties: texts_in(alloc, fields, 4)?,
        })
    }

    #[tactic(auto, using(crate::proofs::Parts::parts), unfolding(crate::specs::Spelling::spelled))]
    fn write_fields(&self, _alloc: Global, out: &mut Writer) -> Result<(), OutOfMemory> {
        put_text(out, 1, &self.instance_name)?;
        put_texts(out, 2, self.path.as_slice())?;
        put_bool(out, 3, self.bypass_local_cache)?;
        put_texts(out, 4, self.node_properties.as_slice())
    }

    ghost ascends = { refl };
}

/// The digest of a captured file, or the status that says why there is none. The path is the request's.
#[derive(Debug, Drop)]
pub struct CaptureFilesResponseItem1 {
    pub path: Text,
    pub digest: Option<Digest>,
    pub status: RpcStatus,
    pub is_executable: bool,
}

impl Message for CaptureFilesResponseItem1 {
    ghost table = { Tables.capture_files_response_item1 };

    ghost value = { λ m. m.path & m.digest & ⟦<RpcStatus as Message>⟧.value m.status & m.is_executable & tt };

    #[tactic(auto, unfolding(crate::specs::Meaning::fields_in))]
    fn read_fields(
        alloc: Global,
        fields: &Fields<'_>,
    ) -> Result<CaptureFilesResponseItem1, MessageError> {
        Ok(CaptureFilesResponseItem1 {
            path: text_in(alloc, fields, 1)?,
            digest: optional_digest_in(alloc, fields, 2)?,
            status: message_in(alloc, fields, 3)?,
            is_executable: bool_in(fields, 4),
        })
    }

    #[tactic(auto, using(crate::proofs::Parts::parts), unfolding(crate::specs::Spelling::spelled))]
    fn write_fields(&self, alloc: Global, out: &mut Writer) -> Result<(), OutOfMemory> {
        put_text(out, 1, &self.path)?;
        put_optional_digest(alloc, out, 2, &self.digest)?;
        put_message(alloc, out, 3, &self.status)?;
        put_bool(out, 4, self.is_executable)
    }

    ghost ascends = { refl };
}

/// The result for each file.
#[derive(Debug, Drop)]
pub struct CaptureFilesResponse {
    pub responses: Listed<CaptureFilesResponseItem1>,
}

impl Message for CaptureFilesResponse {
    ghost table = { Tables.capture_files_response };

    ghost value = { λ m. map ⟦<CaptureFilesResponseItem1 as Message>⟧.value m.responses & tt };

    #[tactic(auto, unfolding(crate::specs::Meaning::fields_in))]
    fn read_fields(
        alloc: Global,
        fields: &Fields<'_>,
    ) -> Result<CaptureFilesResponse, MessageError> {
        Ok(CaptureFilesResponse {
            responses: messages_in(alloc, fields, 1)?,
        })
    }

    #[tactic(auto, using(crate::proofs::Parts::parts), unfolding(crate::specs::Spelling::spelled))]
    fn write_fields(&self, alloc: Global, out: &mut Writer) -> Result<(), OutOfMemory> {
        put_messages(alloc, out, 1, self.responses.as_slice())
    }

    ghost ascends = { refl };
}
