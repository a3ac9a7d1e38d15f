//! The messages of LocalContentAddressableStorage that stage a tree (build.buildgrid).

ghost use Rattle.std.specs.Prelude.{refl};
ghost use Rattle.cas_messages.specs.Table.{◌&◌};
ghost use Rattle.cas_messages.specs.Tables;

use crate::error::MessageError;
use crate::get::{optional_digest_in, text_in};
use crate::message::Message;
use crate::put::{put_optional_digest, put_text};
use digest_types::Digest;
use proto_wire::{Fields, OutOfMemory, Text, Writer};
use std::alloc::Global;

/// A tree to stage into a folder. A request with neither a root nor a path ends the stage.
#[derive(Debug, Drop)]
pub struct StageTreeRequest {
    pub instance_name: Text,
    pub root_digest: Option<Digest>,
    pub path: Text,
}

impl Message for StageTreeRequest {
    ghost table = { Tables.stage_tree_request };

    ghost value = { λ m. m.instance_name & m.root_digest & m.path & tt };

    #[tactic(auto, unfolding(crate::specs::Meaning::fields_in))]
    fn read_fields(alloc: Global, fields: &Fields<'_>) -> Result<StageTreeRequest, MessageError> {
        Ok(StageTreeRequest {
            instance_name: text_in(alloc, fields, 1)?,
            root_digest: optional_digest_in(alloc, fields, 2)?,
            path: text_in(alloc, fields, 3)?,
        })
    }

    #[tactic(auto, using(crate::proofs::Parts::parts), unfolding(crate::specs::Spelling::spelled))]
    fn write_fields(&self, alloc: Global, out: &mut Writer) -> Result<(), OutOfMemory> {
        put_text(out, 1, &self.instance_name)?;
        put_optional_digest(alloc, out, 2, &self.root_digest)?;
        put_text(out, 3, &self.path)
    }

    ghost ascends = { refl };
}

/// The folder in which the tree is staged.
#[derive(Debug, Drop)]
pub struct StageTreeResponse {
    pub path: Text,
}

impl Message for StageTreeResponse {
    ghost table = { Tables.stage_tree_response };

    ghost value = { λ m. m.path & tt };

    #[tactic(auto, unfolding(crate::specs::Meaning::fields_in))]
    fn read_fields(alloc: Global, fields: &Fields<'_>) -> Result<StageTreeResponse, MessageError> {
        Ok(StageTreeResponse {
            path: text_in(alloc, fields, 1)?,
        })
    }

    #[tactic(auto, using(crate::proofs::Parts::parts), unfolding(crate::specs::Spelling::spelled))]
    fn write_fields(&self, _alloc: Global, out: &mut Writer) -> Result<(), OutOfMemory> {
        put_text(out, 1, &self.path)
    }

    ghost ascends = { refl };
}
