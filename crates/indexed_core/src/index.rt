//! `Index`.

ghost use Rattle.std.specs.Prelude.{◌≡◌, ◌+◌, ◌≤◌, ◌^◌, ◌++◌, ◌∷◌, [], not, filter, take, length, false, true, slice_get, Some, IfOk, IfSome, OnOk, OnErr, IfNone};
ghost use Rattle.std.specs.Option.{option_copied};
ghost use Rattle.store_core.specs.State.{same, row_of, has_row, others, is_sound, is_among, digests, sizes, total, with_hold, other_holds};
ghost use Rattle.store_core.specs.Reach.{blobs, reached, is_deep};
ghost use Rattle.store_core.specs.Pass.{victims, without};
ghost use Rattle.store_core.specs.Standing.{is_plain};
ghost use Rattle.store_core.specs.Step.{touched, damaged};
ghost use Rattle.lease_table.specs.Holds.{with_holder};
ghost use Rattle.lease_table.specs.Table.{has_id, roots, other_digests, DistinctDigests};
ghost use Rattle.indexed_core.specs.Joined.{told, kept_flags};
ghost use Rattle.digest_types.specs.Name.{HashAndSize};
ghost use Rattle.indexed_core.specs.Parts.{guarded_bytes, free, is_wanted, HasPassed};

use crate::flags::Flags;
use digest_types::{Digest, Digests};
use directory_canon::{Edge, Edges};
use lease_table::{LeaseTable, UseOrder};
use proto_wire::OutOfMemory;
use std::alloc::Global;
use std::marker::Model;

/// The rows and the leases: the order of use, what the rows link to and the leases guard, and which rows are sound.
#[derive(Debug, Drop)]
pub(crate) struct Index {
    order: UseOrder,
    table: LeaseTable,
    flags: Flags,
    used: u64,
}

impl Model for Index {
    ghost use Rattle.indexed_core.specs.Parts.{Parts};
    ghost use Rattle.indexed_core.specs.Joined.{told, IsJoined, rows_in, guards_in};

    ghost Value = { Parts };

    ghost view = { λ a. record { rows = rows_in a.order a.table.blobs (told a.flags); guards = guards_in a.table } };

    ghost invariant = { λ a. IsJoined a.order a.table.blobs (told a.flags) a.used };
}

impl Index {
    /// No rows and no leases. It takes no memory.
    pub(crate) fn new(alloc: Global) -> Index
        ensures { result ≡ record { rows = []; guards = record { leases = []; holds = [] } } }
    {
        Index {
            order: UseOrder::new(alloc),
            table: LeaseTable::new(alloc),
            flags: Flags::new(alloc),
            used: 0,
        }
    }

    // ---- what it tells

    pub(crate) fn len(&self) -> u64
        ensures { result ≡ length self.now.rows }
    {
        self.order.len() as u64
    }

    /// How many bytes the rows have: a number that is kept.
    pub(crate) fn used(&self) -> u64
        ensures { result ≡ sizes self.now.rows }
    {
        self.used
    }

    /// How many bytes the guarded rows have: a number that is kept.
    pub(crate) fn guarded_bytes(&self) -> u64
        ensures { result ≡ guarded_bytes self.now }
    {
        self.table.guarded_bytes()
    }

    pub(crate) fn has_row(&self, digest: &Digest) -> bool
        ensures { result ≡ has_row self.now.rows digest.now }
    {
        self.table.has_row(digest)
    }

    pub(crate) fn is_sound(&self, digest: &Digest) -> bool
        ensures { result ≡ is_sound self.now.rows digest.now }
    {
        self.flags.is_sound(digest)
    }

    /// Whether the digest is that of a sound row without edges.
    pub(crate) fn is_plain(&self, digest: &Digest) -> bool
        ensures { result ≡ is_plain self.now.rows digest.now }
    {
        self.flags.is_sound(digest) && !self.table.is_dir(digest)
    }

    /// The pairs that the leases with this number reach.
    pub(crate) fn reached(&self, id: u64) -> Result<Edges, OutOfMemory>
        ensures { IfOk result (λ pairs. pairs ≡ reached (blobs self.now.rows) (roots (filter (has_id id) self.now.guards.leases))) }
    {
        self.table.reached(id)
    }

    /// Whether they reach a pair of kind Dir at so many steps or more.
    pub(crate) fn is_deep(&self, id: u64, steps: u64) -> Result<bool, OutOfMemory>
        ensures { IfOk result (λ deep. deep ≡ is_deep (blobs self.now.rows) (roots (filter (has_id id) self.now.guards.leases)) steps) }
    {
        self.table.is_deep(id, steps)
    }

    /// How many rows a pass to this target removes.
    pub(crate) fn victims(&self, target: u64) -> u64
        ensures { result ≡ victims (free self.now) (sizes self.now.rows) target }
    {
        self.order.victims(&self.table, self.used, target)
    }

    /// The first `count` digests that aren't guarded, in the order of use.
    pub(crate) fn first_free(&self, count: u64) -> Result<Digests, OutOfMemory>
        ensures { IfOk result (λ ds. ds ≡ take count (free self.now)) }
    {
        self.order.gone(&self.table, count)
    }

    /// The digests of the rows, the least recently used first.
    pub(crate) fn use_list(&self) -> Result<Digests, OutOfMemory>
        ensures { IfOk result (λ ds. ds ≡ digests self.now.rows) }
    {
        self.order.list()
    }

    // ---- leases

    /// After want of memory all is as before.
    pub(crate) fn lease(&mut self, id: u64, root: &Edge) -> Result<(), OutOfMemory>
        ensures ok { OnOk result (self.new ≡ record self.old { guards = record self.old.guards { leases = self.old.guards.leases ++ record { id = id; root = root.now } ∷ [] } }) }
        ensures err { OnErr result (self.new ≡ self.old) }
    {
        self.table.lease(id, root.digest, root.kind)
    }

    /// It takes no memory.
    pub(crate) fn release(&mut self, id: u64)
        ensures { self.new ≡ record self.old { guards = record self.old.guards { leases = filter (λ lease. not (has_id id lease)) self.old.guards.leases } } }
    {
        self.table.release(id);
    }

    // ---- holds

    /// An owner holds a digest from now on. After want of memory all is as before.
    pub(crate) fn hold(&mut self, owner: u64, digest: &Digest) -> Result<(), OutOfMemory>
        requires { has_row self.old.rows digest.now ≡ true }
        ensures ok { OnOk result (self.new ≡ record self.old { guards = record self.old.guards { holds = with_hold owner digest.now self.old.guards.holds } }) }
        ensures err { OnErr result (self.new ≡ self.old) }
    {
        self.table.hold(owner, digest)
    }

    /// Gives up all that an owner holds. It takes no memory.
    pub(crate) fn drop_holds(&mut self, owner: u64)
        ensures { self.new ≡ record self.old { guards = record self.old.guards { holds = other_holds owner self.old.guards.holds } } }
    {
        self.table.drop_holds(owner);
    }

    // ---- the use and the soundness of a row

    /// Makes a sound row the most recent one. It takes no memory.
    pub(crate) fn touch(&mut self, digest: &Digest)
        ensures { self.new ≡ record self.old { rows = touched digest.now self.old.rows } }
    {
        if self.flags.is_sound(digest) {
            self.order.touch(digest);
        }
    }

    /// Makes a row sound and the most recent one, and answers whether it was sound. It takes no memory.
    pub(crate) fn renew(&mut self, digest: &Digest) -> bool
        requires { has_row self.old.rows digest.now ≡ true }
        ensures sound { IfSome (row_of digest.now self.old.rows) (λ row. result ≡ row.sound) }
        ensures renewed { IfSome (row_of digest.now self.old.rows) (λ row. self.new ≡ record self.old { rows = others digest.now self.old.rows ++ record row { sound = true } ∷ [] }) }
    {
        let sound = self.flags.is_sound(digest);
        self.flags.set(digest, true);
        self.order.touch(digest);
        sound
    }

    /// Makes a row unsound, if there is one. It takes no memory.
    pub(crate) fn damage(&mut self, digest: &Digest)
        ensures { self.new ≡ record self.old { rows = damaged digest.now self.old.rows } }
    {
        self.flags.set(digest, false);
    }

    // ---- rows that come and go

    /// Removes the rows of `gone`, and adds a sound one as the most recent, which an owner holds where one is named. After
    /// want of memory all is as before.
    pub(crate) fn add(
        &mut self,
        digest: &Digest,
        edges: Option<&Edges>,
        gone: &Digests,
        holder: Option<u64>,
    ) -> Result<(), OutOfMemory>
        requires new { has_row self.old.rows digest.now ≡ false }
        requires others { is_among gone.now digest.now ≡ false }
        requires unguarded { (d : HashAndSize) → is_among gone.now d ≡ true → is_wanted self.old d ≡ false }
        requires small { sizes (without gone.now self.old.rows) + digest.now.size ≤ 2 ^ 62 }
        ensures ok { OnOk result (self.new ≡ record self.old {
          rows = without gone.now self.old.rows ++ record { digest = digest.now; edges = option_copied edges.entry; sound = true } ∷ [];
          guards = record self.old.guards { holds = with_holder holder digest.now self.old.guards.holds };
        }) }
        ensures err { OnErr result (self.new ≡ self.old) }
    {
        // The new row is there before any other goes, since want of memory must leave all as before.
        self.flags.insert(*digest)?;
        if let Err(e) = self.order.add(*digest) {
            self.flags.remove(digest);
            return Err(e);
        }
        if let Err(e) = self.table.on_put(digest, edges, gone, holder) {
            self.order.remove(digest);
            self.flags.remove(digest);
            return Err(e);
        }
        let used = self.used + digest.size;
        self.used = forget(&mut self.order, &mut self.flags, used, gone.as_slice());
        Ok(())
    }

    /// Removes the least recently used row that isn't guarded, if there is one. A pass goes on at `from`, which is None at
    /// its start. It takes no memory.
    pub(crate) fn remove_next(&mut self, from: &mut Option<Digest>) -> Option<Digest>
        requires { HasPassed self.old from.old }
        ensures first { result ≡ slice_get (free self.old) 0 }
        ensures some { IfSome result (λ d. self.new ≡ record self.old { rows = others d self.old.rows }) }
        ensures none { IfNone result (self.new ≡ self.old) }
        ensures passed { HasPassed self.new from.new }
    {
        let digest = self.order.take_next(&self.table, from)?;
        self.table.on_remove(&digest);
        self.flags.remove(&digest);
        self.used -= digest.size;
        Some(digest)
    }
}

/// Takes a digest out of the order and the flags, and answers how many bytes are used after that. It takes no memory.
fn forget_one(order: &mut UseOrder, flags: &mut Flags, used: u64, digest: &Digest) -> u64
    requires distinct { DistinctDigests order.old }
    requires sum { used ≡ total order.old }
    ensures order { order.new ≡ other_digests digest.now order.old }
    ensures flags { told flags.new ≡ kept_flags (λ q. not (same q digest.now)) (told flags.old) }
    ensures used { result ≡ total order.new }
{
    let len = order.len();
    order.remove(digest);
    flags.remove(digest);
    // A digest that isn't in the order takes no bytes with it.
    if order.len() < len {
        used - digest.size
    } else {
        used
    }
}

/// Takes these digests out of the order and the flags, and answers how many bytes are used after that. It takes no
/// memory.
fn forget(order: &mut UseOrder, flags: &mut Flags, used: u64, gone: &[Digest]) -> u64
    requires distinct { DistinctDigests order.old }
    requires sum { used ≡ total order.old }
    ensures order { order.new ≡ filter (λ d. not (is_among gone.now d)) order.old }
    ensures flags { told flags.new ≡ kept_flags (λ q. not (is_among gone.now q)) (told flags.old) }
    ensures used { result ≡ total order.new }
{
    let mut left = used;
    'gone: for digest in gone {
        left = forget_one(order, flags, left, digest);
    }
    left
}
