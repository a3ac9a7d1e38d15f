//! `HangUp`.

ghost use Rattle.std.specs.Prelude.{◌≡◌};
ghost use Rattle.casd_connection.specs.Linked.{linked};

use casd_base::{Link, MemLink};

/// A link that can be given up once its connection is over, so that its peer meets the end.
pub trait HangUp: Link {
    /// Gives the link up. What it tells stays. It takes no memory.
    fn hang_up(&mut self)
        ensures { linked (Self.left self.new) (Self.written self.new) (Self.read_faults self.new) (Self.write_faults self.new) (Self.sent self.new) (Self.at_end self.new) ≡ linked (Self.left self.old) (Self.written self.old) (Self.read_faults self.old) (Self.write_faults self.old) (Self.sent self.old) (Self.at_end self.old) };
}

impl HangUp for MemLink {
    fn hang_up(&mut self) {}
}
