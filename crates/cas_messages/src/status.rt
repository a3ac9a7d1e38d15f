//! google.rpc.Status.

ghost use Rattle.std.specs.Prelude.{refl};
ghost use Rattle.cas_messages.specs.Table.{◌&◌};
ghost use Rattle.cas_messages.specs.Tables;

use crate::error::MessageError;
use crate::get::{int32_in, text_in};
use crate::message::Message;
use crate::put::{put_int32, put_text};
use proto_wire::{Fields, OutOfMemory, Text, Writer};
use std::alloc::Global;

/// A status: a gRPC code and a text. Its details are skipped.
#[derive(Debug, Drop)]
pub struct RpcStatus {
    pub code: i32,
    pub message: Text,
}

impl Message for RpcStatus {
    ghost table = { Tables.rpc_status };

    ghost value = { λ m. m.code & m.message & tt };

    #[tactic(auto, unfolding(crate::specs::Meaning::fields_in))]
    fn read_fields(alloc: Global, fields: &Fields<'_>) -> Result<RpcStatus, MessageError> {
        Ok(RpcStatus {
            code: int32_in(fields, 1),
            message: text_in(alloc, fields, 2)?,
        })
    }

    #[tactic(auto, using(crate::proofs::Parts::parts), unfolding(crate::specs::Spelling::spelled))]
    fn write_fields(&self, _alloc: Global, out: &mut Writer) -> Result<(), OutOfMemory> {
        put_int32(out, 1, self.code)?;
        put_text(out, 2, &self.message)
    }

    ghost ascends = { refl };
}
