//! Digests in an order, in slots: a digest that leaves its slot leaves it empty.

ghost use Rattle.std.specs.Prelude.{◌≡◌, ◌+◌, ◌*◌, ◌<◌, ◌≤◌, ◌∷◌, ◌++◌, [], length, take, drop, slice_get, ℕ, true, false, OnOk, OnErr};
ghost use Rattle.std.specs.Vec.{vec_capacity};
ghost use Rattle.indexmap.specs.IndexMap.{spare};
ghost use Rattle.store_core.specs.State.{is_among};
ghost use Rattle.digest_types.specs.Name.{HashAndSize};
ghost use Rattle.lease_table.specs.Table.{other_digests, from_on, behind, DistinctDigests};
ghost use Rattle.lease_table.specs.Slots.{live, IsPlaced};

use digest_types::Digest;
use indexmap::IndexMap;
use proto_wire::OutOfMemory;
use std::alloc::Global;
use std::marker::Model;

/// Distinct digests in an order. One that goes leaves its slot empty, and one that comes takes a slot at the end. There
/// is room for at least twice as many slots as digests; once all are taken, the empty ones are dropped. So each change
/// costs constant time, taken over many, and only `add` takes memory.
#[derive(Debug, Drop)]
pub(crate) struct Slots {
    slots: Vec<Option<Digest>>,
    /// How many slots in front are empty.
    start: usize,
    /// The slot of each digest.
    places: IndexMap<Digest, usize>,
}

impl Model for Slots {
    ghost use Rattle.std.specs.Prelude.{List};
    ghost use Rattle.std.specs.Vec.{vec_capacity};
    ghost use Rattle.digest_types.specs.Name.{HashAndSize};
    ghost use Rattle.lease_table.specs.Slots.{live, IsSlotted};

    ghost Value = { List HashAndSize };

    ghost view = { λ a. live a.slots.items };

    ghost invariant = { λ a. IsSlotted a.slots.items (vec_capacity a.slots) a.start a.places.entries };
}

impl Slots {
    /// No digests. It takes no memory.
    pub(crate) fn new(alloc: Global) -> Slots
        ensures { result ≡ [] }
    {
        Slots {
            slots: Vec::new(alloc),
            start: 0,
            places: IndexMap::new(alloc),
        }
    }

    /// The digest becomes the last one.
    pub(crate) fn touch(&mut self, digest: &Digest)
        requires { is_among self.old digest.now ≡ true }
        ensures { self.new ≡ other_digests digest.now self.old ++ digest.now ∷ [] }
    {
        make_room(&mut self.slots, &mut self.start, &mut self.places);
        move_last(&mut self.slots, &mut self.places, digest);
        self.start = first_full(&self.slots, self.start);
    }

    /// Takes a digest out, if it is among them.
    pub(crate) fn remove(&mut self, digest: &Digest)
        ensures { self.new ≡ other_digests digest.now self.old }
    {
        remove_at(&mut self.slots, &mut self.places, digest);
        self.start = first_full(&self.slots, self.start);
    }

    /// Adds a digest as the last one. After want of memory all is as before.
    pub(crate) fn add(&mut self, digest: Digest) -> Result<(), OutOfMemory>
        requires { is_among self.old digest ≡ false }
        ensures ok { OnOk result (self.new ≡ self.old ++ digest ∷ []) }
        ensures err { OnErr result (self.new ≡ self.old) }
    {
        grow(&mut self.slots, self.places.len())?;
        make_room(&mut self.slots, &mut self.start, &mut self.places);
        self.places.reserve(1)?;
        push(&mut self.slots, &mut self.places, digest);
        Ok(())
    }

    pub(crate) fn len(&self) -> usize
        ensures len { result ≡ length self.now }
        ensures distinct { DistinctDigests self.now }
    {
        self.places.len()
    }

    /// Whether a digest is among them: a look-up.
    pub(crate) fn has(&self, digest: &Digest) -> bool
        ensures { result ≡ is_among self.now digest.now }
    {
        self.places.contains_key(digest)
    }

    /// The slots, of which some may be empty: those from a digest on, or where none is named, all.
    pub(crate) fn from_on(&self, from: Option<Digest>) -> &[Option<Digest>]
        ensures { live result.now ≡ from_on from self.now }
    {
        match from {
            None => rest(&self.slots, self.start),
            Some(digest) => match self.places.get(&digest) {
                Some(place) => rest(&self.slots, *place),
                None => &[],
            },
        }
    }

    /// The digest right behind another.
    pub(crate) fn behind(&self, digest: &Digest) -> Option<Digest>
        ensures behind { result ≡ behind digest.now self.now }
        ensures distinct { DistinctDigests self.now }
    {
        match self.places.get(digest) {
            Some(place) => first_of(rest(&self.slots, *place + 1)),
            None => None,
        }
    }
}

/// The slots from a place on.
fn rest(slots: &[Option<Digest>], place: usize) -> &[Option<Digest>]
    requires { place ≤ length slots.now }
    ensures { result.now ≡ drop place slots.now }
{
    &slots[place..]
}

/// The digest of the first slot that isn't empty.
fn first_of(slots: &[Option<Digest>]) -> Option<Digest>
    ensures { result ≡ slice_get (live slots.now) 0 }
{
    'slots: for slot in slots {
        if let Some(digest) = slot {
            return Some(*digest);
        }
    }
    None
}

/// How many slots in front are empty, where so many are.
fn first_full(slots: &[Option<Digest>], start: usize) -> usize
    requires within { start ≤ length slots.now }
    requires front { live (take start slots.now) ≡ [] }
    ensures within { result ≤ length slots.now }
    ensures front { live (take result slots.now) ≡ [] }
{
    'slots: for place in start..slots.len() {
        if slots[place].is_some() {
            return place;
        }
    }
    slots.len()
}

/// Sees that there may be twice as many slots as one more than so many digests.
fn grow(slots: &mut Vec<Option<Digest>>, count: usize) -> Result<(), OutOfMemory>
    requires { count ≤ length slots.old.items }
    ensures slots { slots.new.items ≡ slots.old.items }
    ensures room { vec_capacity slots.old ≤ vec_capacity slots.new }
    ensures ok { OnOk result (2 * (count + 1) ≤ vec_capacity slots.new) }
{
    if slots.capacity() / 2 > count {
        return Ok(());
    }
    slots.reserve(count.saturating_add(2))?;
    Ok(())
}

/// Drops the empty slots.
fn pack(slots: &mut Vec<Option<Digest>>)
    ensures live { live slots.new.items ≡ live slots.old.items }
    ensures len { length slots.new.items ≡ length (live slots.old.items) }
    ensures room { vec_capacity slots.new ≡ vec_capacity slots.old }
{
    slots.retain(|slot| slot.is_some());
}

/// Sets all places anew.
fn number(slots: &[Option<Digest>], places: &mut IndexMap<Digest, usize>)
    requires distinct { DistinctDigests (live slots.now) }
    requires count { length places.old.entries ≡ length (live slots.now) }
    ensures { IsPlaced slots.now places.new.entries }
{
    places.clear();
    'slots: for (place, slot) in slots.iter().enumerate() {
        if let Some(digest) = slot {
            match places.insert(*digest, place) {
                Ok(_) => {}
                Err(_) => return,
            }
        }
    }
}

/// Sees that a slot is free at the end, where there are at least twice as many as digests. It takes no memory.
fn make_room(
    slots: &mut Vec<Option<Digest>>,
    start: &mut usize,
    places: &mut IndexMap<Digest, usize>,
)
    requires placed { IsPlaced slots.old.items places.old.entries }
    requires within { start.old ≤ length slots.old.items }
    requires front { live (take start.old slots.old.items) ≡ [] }
    ensures placed { IsPlaced slots.new.items places.new.entries }
    ensures within { start.new ≤ length slots.new.items }
    ensures front { live (take start.new slots.new.items) ≡ [] }
    ensures live { live slots.new.items ≡ live slots.old.items }
    ensures capacity { vec_capacity slots.new ≡ vec_capacity slots.old }
    ensures room { length (live slots.old.items) < vec_capacity slots.old → length slots.new.items < vec_capacity slots.new }
{
    if slots.len() < slots.capacity() {
        return;
    }
    pack(slots);
    number(slots, places);
    *start = 0;
}

/// Moves a digest to a slot at the end.
fn move_last(slots: &mut Vec<Option<Digest>>, places: &mut IndexMap<Digest, usize>, digest: &Digest)
    requires placed { IsPlaced slots.old.items places.old.entries }
    requires there { is_among (live slots.old.items) digest.now ≡ true }
    requires room { length slots.old.items < vec_capacity slots.old }
    ensures placed { IsPlaced slots.new.items places.new.entries }
    ensures live { live slots.new.items ≡ other_digests digest.now (live slots.old.items) ++ digest.now ∷ [] }
    ensures front { (n : ℕ) → n ≤ length slots.old.items → live (take n slots.old.items) ≡ [] → live (take n slots.new.items) ≡ [] }
    ensures longer { length slots.old.items ≤ length slots.new.items }
    ensures capacity { vec_capacity slots.new ≡ vec_capacity slots.old }
{
    let last = slots.len();
    match places.insert(*digest, last) {
        Ok(Some(place)) => {
            slots[place] = None;
            slots.push_reserved(Some(*digest));
        }
        Ok(None) => {}
        Err(_) => {}
    }
}

/// Adds a digest in a slot at the end.
fn push(slots: &mut Vec<Option<Digest>>, places: &mut IndexMap<Digest, usize>, digest: Digest)
    requires placed { IsPlaced slots.old.items places.old.entries }
    requires new { is_among (live slots.old.items) digest ≡ false }
    requires room { length slots.old.items < vec_capacity slots.old }
    requires spare { 0 < spare places.old }
    ensures placed { IsPlaced slots.new.items places.new.entries }
    ensures live { live slots.new.items ≡ live slots.old.items ++ digest ∷ [] }
    ensures front { (n : ℕ) → n ≤ length slots.old.items → live (take n slots.old.items) ≡ [] → live (take n slots.new.items) ≡ [] }
    ensures longer { length slots.old.items ≤ length slots.new.items }
    ensures capacity { vec_capacity slots.new ≡ vec_capacity slots.old }
{
    let last = slots.len();
    match places.insert(digest, last) {
        Ok(_) => slots.push_reserved(Some(digest)),
        Err(_) => {}
    }
}

/// Empties the slot of a digest, if it has one.
fn remove_at(slots: &mut Vec<Option<Digest>>, places: &mut IndexMap<Digest, usize>, digest: &Digest)
    requires placed { IsPlaced slots.old.items places.old.entries }
    ensures placed { IsPlaced slots.new.items places.new.entries }
    ensures live { live slots.new.items ≡ other_digests digest.now (live slots.old.items) }
    ensures front { (n : ℕ) → n ≤ length slots.old.items → live (take n slots.old.items) ≡ [] → live (take n slots.new.items) ≡ [] }
    ensures longer { length slots.old.items ≤ length slots.new.items }
    ensures capacity { vec_capacity slots.new ≡ vec_capacity slots.old }
{
    if let Some(place) = places.swap_remove(digest) {
        slots[place] = None;
    }
}
