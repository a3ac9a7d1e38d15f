//! Random histories over the core and over a model that was written apart from it, from the rules in words: blobs are
//! numbers, sets of them are the bits of a word, and the order of use is the time at which each was last used.

ghost use Rattle.std.specs.Prelude.{◌<◌, ◌^◌};

use super::*;
use digest_types::{Digest, Digests};
use directory_canon::{Edge, Edges, Kind};
use std::alloc::Global;
use std::process::Abort;
use std::test::*;

/// How many blobs there are. The last one is the empty one.
const BLOBS: usize = 12;

const EMPTY: usize = 11;

const LOW: u64 = 20;

const HIGH: u64 = 32;

// One has no bytes and isn't the empty blob, one takes all, and one is too large.
const SIZES: [u32; BLOBS] = [0, 1, 2, 3, 5, 8, 9, 12, 15, 32, 33, 0];

/// Blobs, by the bits of their numbers.
type Set = u16;

fn bit(blob: usize) -> Set {
    1u16.wrapping_shl(u32::try_from(blob).unwrap_or(0))
}

fn has(set: Set, blob: usize) -> bool {
    set & bit(blob) != 0
}

fn size_of(blob: usize) -> u64
    ensures { result < 2 ^ 32 }
{
    u64::from(SIZES.get(blob).copied().unwrap_or(0))
}

fn digest_of(blob: usize) -> Digest {
    if blob == EMPTY {
        return Digest::empty();
    }
    Digest {
        hash: [u8::try_from(blob).unwrap_or(0); 32],
        size: size_of(blob),
    }
}

fn digests_in(alloc: Global, set: Set) -> Result<Digests, Fail> {
    let mut digests = Digests::new(alloc);
    for blob in 0..BLOBS {
        if has(set, blob) {
            digests.push(digest_of(blob))?;
        }
    }
    Ok(digests)
}

/// What a Directory links to.
#[derive(Clone, Copy, Debug, PartialEq, Eq)]
struct Links {
    files: Set,
    dirs: Set,
}

impl Links {
    fn edges(self, alloc: Global) -> Result<Edges, Fail> {
        let mut edges = Edges::new(alloc);
        for blob in 0..BLOBS {
            let digest = digest_of(blob);
            if has(self.files, blob) {
                edges.push(Edge {
                    kind: Kind::File,
                    digest,
                })?;
            }
            if has(self.dirs, blob) {
                edges.push(Edge {
                    kind: Kind::Dir,
                    digest,
                })?;
            }
        }
        Ok(edges)
    }
}

/// A blob that has a row: when it was last used, whether it is sound, and what it links to.
#[derive(Clone, Copy, Debug)]
struct Kept {
    at: u64,
    sound: bool,
    links: Option<Links>,
}

/// A lease on one blob, as a file or as a Directory.
#[derive(Clone, Copy, Debug)]
struct Root {
    id: u64,
    owner: u64,
    start: Links,
}

/// What an owner put or read, under the session guard.
#[derive(Clone, Copy, Debug)]
struct Used {
    owner: u64,
    blobs: Set,
}

/// What an owner asks, with the blobs by their numbers.
#[derive(Clone, Copy, Debug)]
enum Ask {
    Open,
    Put(usize, Option<Links>),
    Find([usize; 3]),
    Read(usize),
    Lease(usize, bool),
    Confirm(u64, bool),
    Release(u64),
    Damage(usize),
    Pass,
    Usage,
    Close,
}

impl Ask {
    fn event(self, alloc: Global) -> Result<Event, Fail> {
        Ok(match self {
            Ask::Open => Event::Open,
            Ask::Put(blob, links) => Event::Put {
                digest: digest_of(blob),
                edges: match links {
                    Some(links) => Some(links.edges(alloc)?),
                    None => None,
                },
            },
            Ask::Find(blobs) => {
                let mut digests = Digests::new(alloc);
                for blob in blobs {
                    digests.push(digest_of(blob))?;
                }
                Event::Find { digests }
            }
            Ask::Read(blob) => Event::Read {
                digest: digest_of(blob),
            },
            Ask::Lease(blob, dir) => Event::Lease {
                root: digest_of(blob),
                kind: if dir { Kind::Dir } else { Kind::File },
            },
            Ask::Confirm(lease, files) => Event::Confirm { lease, files },
            Ask::Release(lease) => Event::Release { lease },
            Ask::Damage(blob) => Event::Damage {
                digest: digest_of(blob),
            },
            Ask::Pass => Event::Pass,
            Ask::Usage => Event::Usage,
            Ask::Close => Event::Close,
        })
    }
}

/// The rules by another road.
#[derive(Drop)]
struct Plain {
    alloc: Global,
    guard: Guard,
    now: u64,
    kept: [Option<Kept>; BLOBS],
    leases: Vec<Root>,
    uses: Vec<Used>,
    next_lease: u64,
    owners: Vec<u64>,
    next_owner: u64,
}

impl Plain {
    fn new(alloc: Global, guard: Guard) -> Plain {
        Plain {
            alloc,
            guard,
            now: 0,
            kept: [None; BLOBS],
            leases: Vec::new(alloc),
            uses: Vec::new(alloc),
            next_lease: 1,
            owners: Vec::new(alloc),
            next_owner: 1,
        }
    }

    fn kept(&self, blob: usize) -> Option<Kept> {
        self.kept.get(blob).copied().flatten()
    }

    fn keep(&mut self, blob: usize, kept: Option<Kept>) {
        if let Some(place) = self.kept.get_mut(blob) {
            *place = kept;
        }
    }

    fn is_sound(&self, blob: usize) -> bool {
        self.kept(blob).is_some_and(|kept| kept.sound)
    }

    fn bytes_of(&self, set: Set) -> u64 {
        let mut bytes = 0u64;
        for blob in 0..BLOBS {
            if has(set, blob) && self.kept(blob).is_some() {
                bytes = bytes.saturating_add(size_of(blob));
            }
        }
        bytes
    }

    fn used(&self) -> u64 {
        self.bytes_of(Set::MAX)
    }

    /// What is reached: all that the reached Directories link to is, until nothing is added.
    fn reach(&self, start: Links) -> Links {
        let mut found = start;
        for _ in 0..BLOBS {
            for blob in 0..BLOBS {
                if has(found.dirs, blob) {
                    if let Some(links) = self.kept(blob).and_then(|kept| kept.links) {
                        found.files |= links.files;
                        found.dirs |= links.dirs;
                    }
                }
            }
        }
        found
    }

    fn guarded(&self) -> Set {
        let mut set = 0;
        for lease in &self.leases {
            let found = self.reach(lease.start);
            set |= found.files | found.dirs;
        }
        for used in &self.uses {
            set |= used.blobs;
        }
        set
    }

    /// Under the session guard what an owner used stays until it closes.
    fn note(&mut self, owner: u64, blob: usize, reply: &Reply) -> Result<(), Fail> {
        let there = matches!(
            reply,
            Reply::Stored { .. } | Reply::Present | Reply::Repaired | Reply::Found
        );
        if there && self.guard == Guard::Session {
            let blobs = bit(blob);
            self.uses.push(Used { owner, blobs })?;
        }
        Ok(())
    }

    /// Removes the unguarded blob that wasn't used for the longest time, if there is one.
    fn remove_oldest(&mut self) -> bool {
        let guarded = self.guarded();
        let mut oldest = None;
        let mut least = u64::MAX;
        for (blob, kept) in self.kept.iter().enumerate() {
            if let Some(kept) = kept {
                if !has(guarded, blob) && kept.at < least {
                    oldest = Some(blob);
                    least = kept.at;
                }
            }
        }
        if let Some(blob) = oldest {
            self.keep(blob, None);
        }
        oldest.is_some()
    }

    /// Removes blobs until at most so many bytes are left, or all but the guarded ones.
    fn pass(&mut self, target: u64) -> u64 {
        let mut removed = 0u64;
        for _ in 0..BLOBS {
            if self.used() > target && self.remove_oldest() {
                removed = removed.saturating_add(1);
            }
        }
        removed
    }

    fn touch(&mut self, blob: usize, sound: bool) {
        self.now = self.now.saturating_add(1);
        let at = self.now;
        if let Some(kept) = self.kept(blob) {
            self.keep(
                blob,
                Some(Kept {
                    at,
                    sound,
                    links: kept.links,
                }),
            );
        }
    }

    fn put(&mut self, blob: usize, links: Option<Links>) -> Reply {
        if blob == EMPTY {
            return Reply::Present;
        }
        if let Some(kept) = self.kept(blob) {
            self.touch(blob, true);
            return if kept.sound {
                Reply::Present
            } else {
                Reply::Repaired
            };
        }
        let size = size_of(blob);
        let guarded = self.bytes_of(self.guarded());
        if guarded.saturating_add(size) > HIGH {
            return Reply::NoSpace {
                guarded,
                size,
                high: HIGH,
            };
        }
        let removed = if self.used().saturating_add(size) > HIGH {
            self.pass(LOW.min(HIGH.saturating_sub(size)))
        } else {
            0
        };
        self.now = self.now.saturating_add(1);
        let at = self.now;
        self.keep(
            blob,
            Some(Kept {
                at,
                sound: true,
                links,
            }),
        );
        Reply::Stored {
            removed,
            used: self.used(),
        }
    }

    fn find(&mut self, blobs: [usize; 3]) -> Result<Reply, Fail> {
        let mut told = bit(EMPTY);
        let mut digests = Digests::new(self.alloc);
        for blob in blobs {
            if self.is_sound(blob) {
                self.touch(blob, true);
            } else if !has(told, blob) {
                told |= bit(blob);
                digests.push(digest_of(blob))?;
            }
        }
        Ok(Reply::Missing { digests })
    }

    fn read(&mut self, blob: usize) -> Reply {
        if self.is_sound(blob) {
            self.touch(blob, true);
            return Reply::Found;
        }
        if blob == EMPTY {
            Reply::Found
        } else {
            Reply::Absent
        }
    }

    fn lease(&mut self, owner: u64, blob: usize, dir: bool) -> Result<Reply, Fail> {
        let id = self.next_lease;
        let start = if dir {
            Links {
                files: 0,
                dirs: bit(blob),
            }
        } else {
            Links {
                files: bit(blob),
                dirs: 0,
            }
        };
        self.leases.push(Root { id, owner, start })?;
        self.next_lease = id.saturating_add(1);
        Ok(Reply::Leased { lease: id })
    }

    fn own(&self, owner: u64, id: u64) -> Option<Root> {
        self.leases
            .iter()
            .find(|lease| lease.id == id && lease.owner == owner)
            .copied()
    }

    fn confirm(&self, owner: u64, id: u64, files: bool) -> Result<Reply, Fail> {
        let Some(lease) = self.own(owner, id) else {
            return Ok(Reply::Refused);
        };
        let found = self.reach(lease.start);
        for blob in 0..BLOBS {
            let plain = self
                .kept(blob)
                .is_some_and(|kept| kept.sound && kept.links.is_none());
            if has(found.dirs, blob) && plain {
                return Ok(Reply::Stands {
                    standing: Standing::NotDirectory {
                        digest: digest_of(blob),
                    },
                });
            }
        }
        let counted = if files {
            found.files | found.dirs
        } else {
            found.dirs
        };
        let mut wants = 0;
        for blob in 0..EMPTY {
            if has(counted, blob) && !self.is_sound(blob) {
                wants |= bit(blob);
            }
        }
        let standing = if wants != 0 {
            Standing::Wants {
                digests: digests_in(self.alloc, wants)?,
            }
        } else {
            let all = (found.files | found.dirs) & !bit(EMPTY);
            Standing::Complete {
                digests: digests_in(self.alloc, all)?,
            }
        };
        Ok(Reply::Stands { standing })
    }

    fn release(&mut self, owner: u64, id: u64) -> Reply {
        if self.own(owner, id).is_none() {
            return Reply::Refused;
        }
        self.leases.retain(|lease| lease.id != id);
        Reply::Released
    }

    fn damage(&mut self, blob: usize) -> Reply {
        if let Some(kept) = self.kept(blob) {
            self.keep(
                blob,
                Some(Kept {
                    at: kept.at,
                    sound: false,
                    links: kept.links,
                }),
            );
        }
        Reply::Marked
    }

    fn usage(&self) -> Reply {
        Reply::Used {
            usage: Usage {
                used: self.used(),
                guarded: self.bytes_of(self.guarded()),
                rows: self.kept.iter().filter(|kept| kept.is_some()).count() as u64,
                low: LOW,
                high: HIGH,
            },
        }
    }

    fn open(&mut self) -> Result<Reply, Fail> {
        let owner = self.next_owner;
        self.owners.push(owner)?;
        self.next_owner = owner.saturating_add(1);
        Ok(Reply::Opened { owner })
    }

    fn close(&mut self, owner: u64) -> Reply {
        if self.leases.iter().any(|lease| lease.owner == owner) {
            return Reply::Refused;
        }
        self.uses.retain(|used| used.owner != owner);
        self.owners.retain(|other| *other != owner);
        Reply::Closed
    }

    fn step(&mut self, owner: u64, ask: Ask) -> Result<Reply, Fail> {
        if matches!(ask, Ask::Open) {
            return self.open();
        }
        if !self.owners.iter().any(|other| *other == owner) {
            return Ok(Reply::Refused);
        }
        let reply = match ask {
            Ask::Open => Reply::Refused,
            Ask::Put(blob, links) => self.put(blob, links),
            Ask::Find(blobs) => self.find(blobs)?,
            Ask::Read(blob) => self.read(blob),
            Ask::Lease(blob, dir) => self.lease(owner, blob, dir)?,
            Ask::Confirm(id, files) => self.confirm(owner, id, files)?,
            Ask::Release(id) => self.release(owner, id),
            Ask::Damage(blob) => self.damage(blob),
            Ask::Pass => {
                let removed = self.pass(LOW);
                Reply::Passed {
                    removed,
                    used: self.used(),
                }
            }
            Ask::Usage => self.usage(),
            Ask::Close => self.close(owner),
        };
        if let Ask::Put(blob, _) | Ask::Read(blob) = ask {
            self.note(owner, blob, &reply)?;
        }
        Ok(reply)
    }

    /// The blob that is used next after this time, and when.
    fn used_after(&self, time: u64) -> Option<(usize, Kept)> {
        let mut next = None;
        let mut least = u64::MAX;
        for (blob, kept) in self.kept.iter().enumerate() {
            if let Some(kept) = kept {
                if time < kept.at && kept.at < least {
                    next = Some((blob, *kept));
                    least = kept.at;
                }
            }
        }
        next
    }
}

/// The core has the rows and the leases of the model, in their order.
fn expect_same(rt: &impl Abort, core: &Core, plain: &Plain) -> Result<(), Fail> {
    let mut time = 0;
    for row in core.rows() {
        let Some((blob, kept)) = plain.used_after(time) else {
            return Err(Fail::new("a row that the model lacks"));
        };
        assert_eq!(rt; row.digest, digest_of(blob));
        assert_eq!(rt; row.sound, kept.sound);
        match (&row.edges, kept.links) {
            (Some(edges), Some(links)) => {
                assert_eq!(rt; edges.as_slice(), links.edges(plain.alloc)?.as_slice());
            }
            (edges, links) => assert!(rt; edges.is_none() && links.is_none()),
        }
        time = kept.at;
    }
    assert!(rt; plain.used_after(time).is_none());
    assert_eq!(rt; core.leases().len(), plain.leases.len());
    for (lease, root) in core.leases().iter().zip(&plain.leases) {
        assert_eq!(rt; (lease.id, lease.owner), (root.id, root.owner));
    }
    Ok(())
}

/// A generator of numbers: MMIX's linear congruential one, of which the upper bits are used.
#[derive(Clone, Copy, Debug)]
struct Random {
    seed: u64,
}

impl Random {
    /// A number below n, which is at most 2^16.
    fn below(&mut self, n: u64) -> u64 {
        self.seed = self
            .seed
            .wrapping_mul(6364136223846793005)
            .wrapping_add(1442695040888963407);
        (self.seed >> 33).checked_rem(n).unwrap_or(0)
    }

    fn blob(&mut self) -> usize {
        self.below(12) as usize
    }

    fn links(&mut self) -> Option<Links> {
        if self.below(3) == 0 {
            return None;
        }
        // Few links to each blob, so that much stays unguarded.
        let files = self.below(4096) & self.below(4096) & self.below(4096);
        let dirs = self.below(4096) & self.below(4096) & self.below(4096);
        Some(Links {
            files: Set::try_from(files).unwrap_or(0),
            dirs: Set::try_from(dirs).unwrap_or(0),
        })
    }

    fn ask(&mut self, next_lease: u64) -> Ask {
        let lease = self.below(next_lease).saturating_add(1);
        match self.below(20) {
            0 => Ask::Open,
            1..=7 => Ask::Put(self.blob(), self.links()),
            8 | 9 => Ask::Find([self.blob(), self.blob(), self.blob()]),
            10 => Ask::Read(self.blob()),
            11 | 12 => Ask::Lease(self.blob(), self.below(4) > 0),
            13 | 14 => Ask::Confirm(lease, self.below(2) == 0),
            15 | 16 => Ask::Release(lease),
            17 => Ask::Damage(self.blob()),
            18 if self.below(2) == 0 => Ask::Pass,
            18 => Ask::Usage,
            _ => Ask::Close,
        }
    }
}

fn step_both(
    rt: &impl Abort,
    alloc: Global,
    core: &mut Core,
    plain: &mut Plain,
    owner: u64,
    ask: Ask,
) -> Result<(), Fail> {
    assert!(rt; core.next_owner() < u64::MAX && core.next_lease() < u64::MAX);
    let event = ask.event(alloc)?;
    let reply = core.step(owner, &event)?;
    let due = plain.step(owner, ask)?;
    let told = format!(in alloc; "{reply:?}")?;
    let wanted = format!(in alloc; "{due:?}")?;
    assert_eq!(rt; told, wanted, "{owner} {ask:?}");
    Ok(())
}

#[test]
fn random_histories_follow_the_rules(rt: HostRuntime) -> Result<(), Fail> {
    let alloc = rt.alloc();
    let mut random = Random { seed: 1 };
    for number in 0..2000 {
        let guard = if number % 2 == 0 {
            Guard::Leases
        } else {
            Guard::Session
        };
        let mut core = Core::new(
            alloc,
            Marks {
                low: LOW,
                high: HIGH,
                guard,
            },
        );
        let mut plain = Plain::new(alloc, guard);
        step_both(&rt, alloc, &mut core, &mut plain, 0, Ask::Open)?;
        for _ in 0..25 {
            let owner = random.below(plain.next_owner).saturating_add(1);
            let ask = random.ask(plain.next_lease);
            step_both(&rt, alloc, &mut core, &mut plain, owner, ask)?;
        }
        expect_same(&rt, &core, &plain)?;
    }
    Ok(())
}
