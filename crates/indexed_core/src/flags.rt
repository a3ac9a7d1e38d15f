//! `Flags`.

ghost use Rattle.std.specs.Prelude.{◌≡◌, [], not, OnOk, OnErr};
ghost use Rattle.store_core.specs.State.{same};
ghost use Rattle.indexed_core.specs.Joined.{told, sound_in, with_flag, set_flag, kept_flags};

use digest_types::Digest;
use indexmap::IndexMap;
use proto_wire::OutOfMemory;
use std::alloc::Global;
use std::marker::Model;

/// For each row whether it is sound: a look-up. Only `insert` takes memory.
#[derive(Debug, Drop)]
pub(crate) struct Flags {
    flags: IndexMap<Digest, bool>,
}

impl Model for Flags {
    ghost use Rattle.std.specs.Prelude.{Bool, List};
    ghost use Rattle.digest_types.specs.Name.{HashAndSize};

    ghost Value = { List (HashAndSize × Bool) };

    ghost view = { λ a. a.flags.entries };
}

impl Flags {
    /// No flags. It takes no memory.
    pub(crate) fn new(alloc: Global) -> Flags
        ensures { result ≡ [] }
    {
        Flags {
            flags: IndexMap::new(alloc),
        }
    }

    /// Whether a digest has a flag that says sound.
    pub(crate) fn is_sound(&self, digest: &Digest) -> bool
        ensures { result ≡ sound_in (told self.now) digest.now }
    {
        self.flags.get(digest).copied().unwrap_or(false)
    }

    /// Adds the flag of a sound row. After want of memory all is as before.
    pub(crate) fn insert(&mut self, digest: Digest) -> Result<(), OutOfMemory>
        ensures ok { OnOk result (told self.new ≡ with_flag digest (told self.old)) }
        ensures err { OnErr result (self.new ≡ self.old) }
    {
        self.flags.insert(digest, true)?;
        Ok(())
    }

    /// Sets the flag of a digest, if it has one.
    pub(crate) fn set(&mut self, digest: &Digest, sound: bool)
        ensures { told self.new ≡ set_flag digest.now sound (told self.old) }
    {
        if let Some(flag) = self.flags.get_mut(digest) {
            *flag = sound;
        }
    }

    /// Takes the flag of a digest out, if it has one.
    pub(crate) fn remove(&mut self, digest: &Digest)
        ensures { told self.new ≡ kept_flags (λ q. not (same q digest.now)) (told self.old) }
    {
        self.flags.swap_remove(digest);
    }
}
