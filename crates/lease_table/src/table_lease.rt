//! A lease, as the table keeps it.

use directory_canon::Edge;

/// A lease: its number, and the pair of its kind and root.
#[derive(Clone, Copy, Debug, PartialEq, Eq)]
pub struct TableLease {
    pub id: u64,
    pub root: Edge,
}
