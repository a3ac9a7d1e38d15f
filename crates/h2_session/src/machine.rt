//! `Machine`.

ghost use Rattle.std.specs.Prelude.{◌≡◌, ◌<◌, ◌^◌, IsTrue, IfSome, is_none, length};
ghost use Rattle.h2_session.specs.Part.{place_of, IsRow};
ghost use Rattle.h2_session.specs.Rows.{Rises, Rises-prop, top_of, may_open};

use crate::block::Block;
use crate::role::Role;
use crate::streams::{LiveStreams, find};
use hpack_tables::Table;
use std::alloc::Global;

/// What one end of a connection knows. What is due to the peer is in the output at once, so that between two calls nothing is
/// due.
#[derive(Drop)]
pub(crate) struct Machine {
    pub(crate) alloc: Global,
    pub(crate) role: Role,
    pub(crate) begun: bool,
    pub(crate) over: bool,
    pub(crate) highest: u32,
    pub(crate) initial: u32,
    pub(crate) most: u32,
    pub(crate) shrink: bool,
    pub(crate) window: u32,
    pub(crate) block: Option<Block>,
    pub(crate) table: Table,
    pub(crate) streams: LiveStreams,
    /// Where the next turn of the streams begins.
    pub(crate) cursor: usize,
    pub(crate) ghost small: { highest < 2 ^ 31 },
    pub(crate) ghost unrefused: { IsTrue (is_none table.refusal) },
    pub(crate) ghost opening: { IsTrue (may_open role block highest) },
    pub(crate) ghost rises: { Rises 0 streams (top_of block highest) } by { Rises-prop 0 streams (top_of block highest) },
}

impl Machine {
    /// Where a stream stands.
    pub(crate) fn place(&self, stream: u32) -> Option<usize>
        ensures value { result ≡ place_of stream self.now.streams }
        ensures bound { IfSome result (λ i. i < length self.now.streams) }
        ensures row { IfSome result (λ i. IsRow stream self.now.streams i) }
    {
        find(self.streams.as_slice(), stream)
    }
}
