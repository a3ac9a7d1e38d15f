//! `Flow`.

ghost use Rattle.std.specs.Prelude.{◌≡◌, ◌≤◌, Some, None, if◌then◌else◌};
ghost use Rattle.h2_session.specs.Codes.{max_window};
ghost use Rattle.h2_session.specs.Windows.{new_flow, window_of, passes_max, grown, used};

use crate::code::MAX_WINDOW;
use std::marker::Model;

/// What moves the window of one stream for what this end sends: what the peer has granted beyond the initial window, less what
/// was sent, or the other way round. One of the two is 0. No call takes memory.
#[derive(Clone, Copy, Debug)]
pub(crate) struct Flow {
    granted: u32,
    sent: u32,
}

impl Model for Flow {
    ghost use Rattle.std.specs.Prelude.{◌≤◌, ◌≡◌, ◌⊎◌};
    ghost use Rattle.h2_session.specs.Codes.{max_window};
    ghost use Rattle.h2_session.specs.Windows.{Flow as FlowValue};

    ghost Value = { FlowValue };

    ghost view = { λ f. record { granted = f.granted; sent = f.sent } };

    ghost inverse = { λ f. record { granted = f.granted; sent = f.sent } };

    ghost invariant = { λ f. (f.granted ≤ max_window) × ((f.granted ≡ 0) ⊎ (f.sent ≡ 0)) };
}

impl Flow {
    /// Nothing was granted, and nothing sent.
    pub(crate) fn new() -> Flow
        ensures { result ≡ new_flow }
    {
        Flow {
            granted: 0,
            sent: 0,
        }
    }

    /// The window, in bytes.
    pub(crate) fn window(self, initial: u32) -> u64
        ensures { result ≡ window_of initial self }
    {
        (u64::from(initial) + u64::from(self.granted)).saturating_sub(u64::from(self.sent))
    }

    /// Whether the window would be larger than one may be.
    pub(crate) fn passes_max(self, initial: u32) -> bool
        ensures { result ≡ passes_max initial self }
    {
        u64::from(MAX_WINDOW) + u64::from(self.sent) < u64::from(initial) + u64::from(self.granted)
    }

    /// What it is after a WINDOW_UPDATE, unless the window would be larger than one may be.
    pub(crate) fn grown(self, initial: u32, increment: u32) -> Option<Flow>
        requires { increment ≤ max_window }
        ensures { result ≡ (if passes_max initial (grown increment self) then None else Some (grown increment self)) }
    {
        let granted = self.granted + increment;
        let more = granted.saturating_sub(self.sent);
        let less = self.sent.saturating_sub(granted);
        if u64::from(MAX_WINDOW) + u64::from(less) < u64::from(initial) + u64::from(more) {
            return None;
        }
        Some(Flow {
            granted: more,
            sent: less,
        })
    }

    /// What it is after so many bytes of DATA.
    pub(crate) fn used(self, initial: u32, size: u32) -> Flow
        requires { size ≤ window_of initial self }
        ensures { result ≡ used size self }
    {
        let sent = u64::from(self.sent) + u64::from(size);
        let granted = u64::from(self.granted);
        Flow {
            granted: granted.saturating_sub(sent) as u32,
            sent: sent.saturating_sub(granted) as u32,
        }
    }
}
