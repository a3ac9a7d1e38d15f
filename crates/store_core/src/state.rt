//! What the store keeps.

ghost use Rattle.std.specs.Prelude.{◌≤◌, ◌^◌};

use digest_types::Digest;
use directory_canon::{Edge, Edges};

/// What guards a blob's row from an expiry pass.
#[derive(Clone, Copy, Debug, PartialEq, Eq)]
pub enum Guard {
    /// Leases alone.
    Leases,
    /// Leases, and besides what an owner put or read, until it goes.
    Session,
}

/// The quota marks in bytes: an expiry pass goes down to the low one, and the store never holds more than the high
/// one. And what guards a row.
#[derive(Clone, Copy, Debug)]
pub struct Marks {
    pub low: u64,
    pub high: u64,
    pub guard: Guard,
    ghost ordered: { low ≤ high },
    ghost small: { high ≤ 2 ^ 62 },
}

/// The index line of a blob: what it links to, where it is a Directory, and whether it is sound. It is unsound from the
/// moment at which its body was found damaged.
#[derive(Debug, Drop)]
pub struct Row {
    pub digest: Digest,
    pub edges: Option<Edges>,
    pub sound: bool,
}

/// An owner's hold on all that a root reaches, until it is released.
#[derive(Clone, Copy, Debug, PartialEq, Eq)]
pub struct Lease {
    pub id: u64,
    pub owner: u64,
    pub root: Edge,
}
