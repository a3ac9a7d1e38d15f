//! `SmallHeaders`.

ghost use Rattle.std.specs.Prelude.{◌≡◌, ◌≤◌, length, IfOk};
ghost use Rattle.hpack_tables.specs.Table.{list_size};
ghost use Rattle.hpack_tables.specs.Encoding.{block_spelled};
ghost use Rattle.h2_session.specs.Codes.{max_list};

use hpack_tables::{Headers, encode_block};
use proto_wire::{Bytes, OutOfMemory};
use std::alloc::Global;
use std::marker::Model;

/// A header list within its limit, whose block fits one frame.
#[derive(Debug, Drop)]
pub(crate) struct SmallHeaders {
    headers: Headers,
}

impl Model for SmallHeaders {
    ghost use Rattle.std.specs.Prelude.{◌≤◌, List};
    ghost use Rattle.hpack_tables.specs.declared.header.Header.{Header};
    ghost use Rattle.hpack_tables.specs.Table.{list_size};
    ghost use Rattle.h2_session.specs.Codes.{max_list};

    ghost Value = { List Header };

    ghost view = { λ s. s.headers };

    ghost invariant = { λ s. list_size s.headers ≤ max_list };
}

impl SmallHeaders {
    pub(crate) fn new(headers: Headers) -> SmallHeaders
        requires { list_size headers ≤ max_list }
        ensures { result ≡ headers }
    {
        SmallHeaders { headers }
    }

    /// Their block, as `block_of` makes it.
    pub(crate) fn block(&self, alloc: Global, shrink: bool) -> Result<Bytes, OutOfMemory>
        ensures block { IfOk result (λ block. block ≡ block_spelled self.now shrink) }
        ensures short { IfOk result (λ block. length block ≤ 16384) }
    {
        block_of(alloc, &self.headers, shrink)
    }
}

/// The block of headers within their limit.
#[tactic(auto, using(crate::proofs::BlockSizes::block_short))]
pub(crate) fn block_of(alloc: Global, headers: &Headers, shrink: bool) -> Result<Bytes, OutOfMemory>
    requires { list_size headers.now ≤ max_list }
    ensures block { IfOk result (λ block. block ≡ block_spelled headers.now shrink) }
    ensures short { IfOk result (λ block. length block ≤ 16384) }
{
    encode_block(alloc, headers, shrink)
}
