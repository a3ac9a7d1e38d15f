//! The messages of Capabilities (Remote Execution API v2).

ghost use Rattle.std.specs.Prelude.{refl};
ghost use Rattle.cas_messages.specs.Table.{◌&◌};
ghost use Rattle.cas_messages.specs.Tables;

use crate::error::MessageError;
use crate::get::{int32_in, int32s_in, int64_in, message_in, text_in};
use crate::message::Message;
use crate::put::{put_int32, put_int32s, put_int64, put_message, put_text};
use proto_wire::{Fields, Listed, OutOfMemory, Text, Writer};
use std::alloc::Global;

/// Asks for the server's capabilities.
#[derive(Debug, Drop)]
pub struct GetCapabilitiesRequest {
    pub instance_name: Text,
}

impl Message for GetCapabilitiesRequest {
    ghost table = { Tables.get_capabilities_request };

    ghost value = { λ m. m.instance_name & tt };

    #[tactic(auto, unfolding(crate::specs::Meaning::fields_in))]
    fn read_fields(
        alloc: Global,
        fields: &Fields<'_>,
    ) -> Result<GetCapabilitiesRequest, MessageError> {
        Ok(GetCapabilitiesRequest {
            instance_name: text_in(alloc, fields, 1)?,
        })
    }

    #[tactic(auto, using(crate::proofs::Parts::parts), unfolding(crate::specs::Spelling::spelled))]
    fn write_fields(&self, _alloc: Global, out: &mut Writer) -> Result<(), OutOfMemory> {
        put_text(out, 1, &self.instance_name)
    }

    ghost ascends = { refl };
}

/// A version of the API.
#[derive(Debug, Drop)]
pub struct SemVer {
    pub major: i32,
    pub minor: i32,
    pub patch: i32,
}

impl Message for SemVer {
    ghost table = { Tables.sem_ver };

    ghost value = { λ m. m.major & m.minor & m.patch & tt };

    #[tactic(auto, unfolding(crate::specs::Meaning::fields_in))]
    fn read_fields(_alloc: Global, fields: &Fields<'_>) -> Result<SemVer, MessageError> {
        Ok(SemVer {
            major: int32_in(fields, 1),
            minor: int32_in(fields, 2),
            patch: int32_in(fields, 3),
        })
    }

    #[tactic(auto, using(crate::proofs::Parts::parts), unfolding(crate::specs::Spelling::spelled))]
    fn write_fields(&self, _alloc: Global, out: &mut Writer) -> Result<(), OutOfMemory> {
        put_int32(out, 1, self.major)?;
        put_int32(out, 2, self.minor)?;
        put_int32(out, 3, self.patch)?;
        Ok(())
    }

    ghost ascends = { refl };
}

/// What the cache supports.
#[derive(Debug, Drop)]
pub struct CacheCapabilities {
    pub digest_functions: Listed<i32>,
    pub max_batch_total_size_bytes: i64,
    pub symlink_absolute_path_strategy: i32,
}

impl Message for CacheCapabilities {
    ghost table = { Tables.cache_capabilities };

    ghost value = { λ m. m.digest_functions & m.max_batch_total_size_bytes & m.symlink_absolute_path_strategy & tt };

    #[tactic(auto, unfolding(crate::specs::Meaning::fields_in))]
    fn read_fields(alloc: Global, fields: &Fields<'_>) -> Result<CacheCapabilities, MessageError> {
        Ok(CacheCapabilities {
            digest_functions: int32s_in(alloc, fields, 1)?,
            max_batch_total_size_bytes: int64_in(fields, 4),
            symlink_absolute_path_strategy: int32_in(fields, 5),
        })
    }

    #[tactic(auto, using(crate::proofs::Parts::parts), unfolding(crate::specs::Spelling::spelled))]
    fn write_fields(&self, alloc: Global, out: &mut Writer) -> Result<(), OutOfMemory> {
        put_int32s(alloc, out, 1, self.digest_functions.as_slice())?;
        put_int64(out, 4, self.max_batch_total_size_bytes)?;
        put_int32(out, 5, self.symlink_absolute_path_strategy)
    }

    ghost ascends = { refl };
}

/// The server's capabilities, and the lowest and the highest version of the API that it supports.
#[derive(Debug, Drop)]
pub struct ServerCapabilities {
    pub cache_capabilities: CacheCapabilities,
    pub low_api_version: SemVer,
    pub high_api_version: SemVer,
}

impl Message for ServerCapabilities {
    ghost table = { Tables.server_capabilities };

    ghost value = { λ m. ⟦<CacheCapabilities as Message>⟧.value m.cache_capabilities & ⟦<SemVer as Message>⟧.value m.low_api_version & ⟦<SemVer as Message>⟧.value m.high_api_version & tt };

    #[tactic(auto, unfolding(crate::specs::Meaning::fields_in))]
    fn read_fields(alloc: Global, fields: &Fields<'_>) -> Result<ServerCapabilities, MessageError> {
        Ok(ServerCapabilities {
            cache_capabilities: message_in(alloc, fields, 1)?,
            low_api_version: message_in(alloc, fields, 4)?,
            high_api_version: message_in(alloc, fields, 5)?,
        })
    }

    #[tactic(auto, using(crate::proofs::Parts::parts), unfolding(crate::specs::Spelling::spelled))]
    fn write_fields(&self, alloc: Global, out: &mut Writer) -> Result<(), OutOfMemory> {
        put_message(alloc, out, 1, &self.cache_capabilities)?;
        put_message(alloc, out, 4, &self.low_api_version)?;
        put_message(alloc, out, 5, &self.high_api_version)
    }

    ghost ascends = { refl };
}
