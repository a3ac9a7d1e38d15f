//! What happens to the store, and what it replies.

ghost use Rattle.std.specs.Prelude.{◌≡◌};
ghost use Rattle.store_core.specs.Step.{is_opening};

use digest_types::{Digest, Digests};
use directory_canon::{Edges, Kind};

/// What an owner asks of the store.
#[derive(Debug, Drop)]
pub enum Event {
    /// A new owner comes.
    Open,
    /// A blob whose bytes were checked against its digest, and what they link to, where they are a Directory.
    Put {
        digest: Digest,
        edges: Option<Edges>,
    },
    /// Which of these blobs aren't there. Those that are become the most recent ones, in this order.
    Find {
        digests: Digests,
    },
    /// The bytes of a blob are to be read.
    Read {
        digest: Digest,
    },
    /// All that this root reaches is to stay. The root needn't be there.
    Lease {
        root: Digest,
        kind: Kind,
    },
    /// Whether all that a lease reaches is there: the Directories, and with `files` the files too.
    Confirm {
        lease: u64,
        files: bool,
    },
    /// A lease goes.
    Release {
        lease: u64,
    },
    /// The bytes of a blob were found to have another digest.
    Damage {
        digest: Digest,
    },
    /// An expiry pass to the low mark.
    Pass,
    /// The numbers of the store.
    Usage,
    /// The owner goes.
    Close,
}

impl Event {
    /// Whether it is Open, which needs no owner.
    pub(crate) fn is_opening(&self) -> bool
        ensures { result ≡ is_opening self.now }
    {
        matches!(self, Event::Open)
    }
}

/// What the store replies.
#[derive(Debug, Drop)]
pub enum Reply {
    /// The owner has this number.
    Opened { owner: u64 },
    /// The blob has a row now. `removed` rows went for it, and `used` bytes are used.
    Stored { removed: u64, used: u64 },
    /// The blob was there.
    Present,
    /// The blob's row was unsound, and is sound again.
    Repaired,
    /// The guarded bytes and the blob are more than the high mark.
    NoSpace { guarded: u64, size: u64, high: u64 },
    /// These blobs aren't there, each once, in the order of their first mention.
    Missing { digests: Digests },
    /// The blob is there.
    Found,
    /// The blob isn't there, or is unsound.
    Absent,
    /// The lease has this number.
    Leased { lease: u64 },
    /// The lease stands so.
    Stands { standing: Standing },
    /// The lease is gone.
    Released,
    /// The row is unsound, if there is one.
    Marked,
    /// `removed` rows went, and `used` bytes are used.
    Passed { removed: u64, used: u64 },
    /// The numbers of the store.
    Used { usage: Usage },
    /// The owner is gone.
    Closed,
    /// No such owner is open, the lease isn't the owner's, or the owner that would go has leases. Nothing changed.
    Refused,
}

/// How a lease stands: the first of TooMany, TooDeep, NotDirectory, Wants and Complete that holds.
#[derive(Debug, Drop)]
pub enum Standing {
    /// All that counts of what it reaches is there. It reaches these blobs, ascending.
    Complete { digests: Digests },
    /// Of the blobs that count these aren't there or are unsound, ascending.
    Wants { digests: Digests },
    /// This blob is reached as a Directory, and its bytes are not those of a Directory.
    NotDirectory { digest: Digest },
    /// It reaches more than 1,000,000 pairs of a kind and a digest besides the root's.
    TooMany,
    /// A Directory is 128 or more steps from the root.
    TooDeep,
}

/// The numbers of the store: the bytes of its rows and of its guarded rows, how many rows it has, and its marks.
#[derive(Clone, Copy, Debug, PartialEq, Eq)]
pub struct Usage {
    pub used: u64,
    pub guarded: u64,
    pub rows: u64,
    pub low: u64,
    pub high: u64,
}
