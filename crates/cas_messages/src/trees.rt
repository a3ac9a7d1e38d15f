//! The messages of GetTree (Remote Execution API v2).

ghost use Rattle.std.specs.Prelude.{refl};
ghost use Rattle.cas_messages.specs.Table.{◌&◌};
ghost use Rattle.cas_messages.specs.Tables;

use crate::error::MessageError;
use crate::get::{contents_in, digest_in, int32_in, text_in};
use crate::message::Message;
use crate::put::{put_contents, put_digest, put_int32, put_text};
use digest_types::Digest;
use proto_wire::{Bytes, Fields, Listed, OutOfMemory, Text, Writer};
use std::alloc::Global;

/// Asks for the Directories of the tree below this root.
#[derive(Debug, Drop)]
pub struct GetTreeRequest {
    pub instance_name: Text,
    pub root_digest: Digest,
    pub page_size: i32,
    pub page_token: Text,
    pub digest_function: i32,
}

impl Message for GetTreeRequest {
    ghost table = { Tables.get_tree_request };

    ghost value = { λ m. m.instance_name & m.root_digest & m.page_size & m.page_token & m.digest_function & tt };

    #[tactic(auto, unfolding(crate::specs::Meaning::fields_in))]
    fn read_fields(alloc: Global, fields: &Fields<'_>) -> Result<GetTreeRequest, MessageError> {
        Ok(GetTreeRequest {
            instance_name: text_in(alloc, fields, 1)?,
            root_digest: digest_in(alloc, fields, 2)?,
            page_size: int32_in(fields, 3),
            page_token: text_in(alloc, fields, 4)?,
            digest_function: int32_in(fields, 5),
        })
    }

    #[tactic(auto, using(crate::proofs::Parts::parts), unfolding(crate::specs::Spelling::spelled))]
    fn write_fields(&self, alloc: Global, out: &mut Writer) -> Result<(), OutOfMemory> {
        put_text(out, 1, &self.instance_name)?;
        put_digest(alloc, out, 2, &self.root_digest)?;
        put_int32(out, 3, self.page_size)?;
        put_text(out, 4, &self.page_token)?;
        put_int32(out, 5, self.digest_function)?;
        Ok(())
    }

    ghost ascends = { refl };
}

/// A page of a tree's Directories, each as its bytes.
#[derive(Debug, Drop)]
pub struct GetTreeResponse {
    pub directories: Listed<Bytes>,
    pub next_page_token: Text,
}

impl Message for GetTreeResponse {
    ghost table = { Tables.get_tree_response };

    ghost value = { λ m. m.directories & m.next_page_token & tt };

    #[tactic(auto, unfolding(crate::specs::Meaning::fields_in))]
    fn read_fields(alloc: Global, fields: &Fields<'_>) -> Result<GetTreeResponse, MessageError> {
        Ok(GetTreeResponse {
            directories: contents_in(alloc, fields, 1)?,
            next_page_token: text_in(alloc, fields, 2)?,
        })
    }

    #[tactic(auto, using(crate::proofs::Parts::parts), unfolding(crate::specs::Spelling::spelled))]
    fn write_fields(&self, _alloc: Global, out: &mut Writer) -> Result<(), OutOfMemory> {
        put_contents(out, 1, self.directories.as_slice())?;
        put_text(out, 2, &self.next_page_token)
    }

    ghost ascends = { refl };
}
