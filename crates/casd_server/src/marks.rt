//! The marks of a store that is told none.

use store_core::{Guard, Marks};

/// In bytes: 1.5 GiB and 2 GiB.
pub(crate) const DEFAULT_MARKS: Marks = Marks {
    low: 1_610_612_736,
    high: 2_147_483_648,
    guard: Guard::Leases,
};
