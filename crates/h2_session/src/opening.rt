//! The beginning and the end of a connection. No call takes memory.

ghost use Rattle.std.specs.Prelude.{◌≡◌};
ghost use Rattle.h2_session.specs.Part.{new_part};
ghost use Rattle.h2_session.specs.Machine.{part_of};
ghost use Rattle.h2_session.specs.Session.{ended};

use crate::code::{FIRST_WINDOW, TABLE};
use crate::machine::Machine;
use crate::role::Role;
use crate::streams::LiveStreams;
use hpack_tables::Table;
use std::alloc::Global;

impl Machine {
    /// A connection at its beginning.
    pub(crate) fn new(alloc: Global, role: Role) -> Machine
        ensures { part_of result ≡ new_part role }
    {
        Machine {
            alloc,
            role,
            begun: false,
            over: false,
            highest: 0,
            initial: FIRST_WINDOW,
            most: u32::MAX,
            shrink: false,
            window: FIRST_WINDOW,
            block: None,
            table: Table::new(alloc, TABLE),
            streams: LiveStreams::new(alloc),
            cursor: 0,
        }
    }

    /// The end of the connection: no stream is live any longer.
    pub(crate) fn end(&mut self)
        ensures { part_of self.new ≡ ended (part_of self.old) }
    {
        let highest = self.highest;
        let role = self.role;
        *self = Machine::new(self.alloc, role);
        self.highest = highest;
    }
}
