//! What holds of the definitions alone.

ghost use Rattle.std.specs.Prelude.{◌≡◌, ◌≢◌, ◌<◌, ◌≤◌, ◌+◌, ◌++◌, ◌∷◌, ◌↔◌, ◌||◌, ◌⊎◌, ℕ, List, [], length, filter, Bool, true, false, Contains, IsTrue};
ghost use Rattle.std.specs.List.{list_any};
ghost use Rattle.std.specs.List.Sorted.{IsStrictlySortedBy};
ghost use Rattle.digest_types.specs.Name.{HashAndSize};
ghost use Rattle.directory_canon.specs.declared.node.Edge.{Edge};
ghost use Rattle.store_core.specs.declared.event.Event.{Event};
ghost use Rattle.store_core.specs.declared.event.Standing.TheVariants as standings;
ghost use Rattle.store_core.specs.declared.state.Row.{Row};
ghost use Rattle.store_core.specs.declared.state.Lease.{Lease};
ghost use Rattle.store_core.specs.State.{State, Valid, used, is_empty, is_sound, is_session, has_row, digests};
ghost use Rattle.store_core.specs.Reach.{Linked, blobs, as_dir, is_dir, IsPath, within, reaches, reached, pair_cmp};
ghost use Rattle.store_core.specs.Pass.{is_guarded, guarded, least, pass};
ghost use Rattle.store_core.specs.Standing.{standing};
ghost use Rattle.store_core.specs.Step.{step};
ghost use Rattle.store_core.specs.History.{Entry, state, Legal, own, own_leases, leases_of};
ghost use Rattle.store_core.specs.Guard.{is_release, releases, IsKeptBy, is_use_of, is_close};

/// A pair is reached exactly where a path leads to it, and within so many steps exactly where one of at most so many
/// does.
pub fn reach_is_by_paths()
    ensures reached { (there : List Linked) (starts : List Edge) (pair : Edge) → IsTrue (reaches there starts pair) ↔ ((path : List Edge) × IsPath there starts (pair ∷ path)) }
    ensures within { (there : List Linked) (starts : List Edge) (steps : ℕ) (pair : Edge) → IsTrue (within there starts steps pair) ↔ ((path : List Edge) × (length path ≤ steps) × IsPath there starts (pair ∷ path)) }
{}

/// The list of what is reached has each pair that is reached once, in ascending order.
pub fn reached_is_all()
    ensures members { (there : List Linked) (starts : List Edge) (pair : Edge) → IsTrue (reaches there starts pair) ↔ Contains (reached there starts) pair }
    ensures ascending { (there : List Linked) (starts : List Edge) → IsStrictlySortedBy pair_cmp (reached there starts) }
{}

/// What several roots reach is what each of them reaches.
pub fn roots_reach_apart()
    ensures { (there : List Linked) (starts : List Edge) (pair : Edge) → reaches there starts pair ≡ list_any (λ root. reaches there (root ∷ []) pair) starts }
{}

/// The order of the blobs changes no reach.
pub fn order_changes_no_reach()
    ensures { (there other : List Linked) → ((blob : Linked) → Contains there blob ↔ Contains other blob) → (starts : List Edge) (pair : Edge) → reaches other starts pair ≡ reaches there starts pair }
{}

/// Taking away blobs that aren't reached as Directories changes no reach.
pub fn removal_changes_no_reach()
    ensures { (there : List Linked) (starts : List Edge) (keep : Linked → Bool) → ((blob : Linked) → Contains there blob → keep blob ≡ false → reaches there starts (as_dir blob.digest) ≡ false)
        → (pair : Edge) → reaches (filter keep there) starts pair ≡ reaches there starts pair }
{}

/// The least number passes the test where it is below the bound, and none below it does.
pub fn least_is_least()
    ensures bound { (p : ℕ → Bool) (n : ℕ) → least p n ≤ n }
    ensures passes { (p : ℕ → Bool) (n : ℕ) → least p n < n → p (least p n) ≡ true }
    ensures none_below { (p : ℕ → Bool) (n k : ℕ) → k < least p n → p k ≡ false }
{}

/// A pass leaves at most its target or the guarded rows alone, and takes no guarded row.
pub fn pass_takes_the_unguarded()
    ensures down { (s : State) (target : ℕ) → Valid s → (used (pass s target) ≤ target) ⊎ (used (pass s target) ≡ guarded s) }
    ensures guard { (s : State) (target : ℕ) (row : Row) → Valid s → Contains s.rows row → IsTrue (is_guarded s row.digest) → Contains (pass s target).rows row }
    ensures same { (s : State) (target : ℕ) (d : HashAndSize) → Valid s → is_guarded (pass s target) d ≡ is_guarded s d }
{}

/// A step keeps a valid state valid, and one within its high mark within it. It gives out at most one number of each
/// kind.
pub fn step_keeps()
    ensures valid { (s : State) (owner : ℕ) (event : Event) → Valid s → Valid (step s owner event).1 }
    ensures within { (s : State) (owner : ℕ) (event : Event) → Valid s → used s ≤ s.high → used (step s owner event).1 ≤ s.high }
    ensures marks { (s : State) (owner : ℕ) (event : Event) → ((step s owner event).1.low ≡ s.low) × ((step s owner event).1.high ≡ s.high) × ((step s owner event).1.guard ≡ s.guard) }
    ensures owners { (s : State) (owner : ℕ) (event : Event) → (step s owner event).1.next_owner ≤ s.next_owner + 1 }
    ensures leases { (s : State) (owner : ℕ) (event : Event) → (step s owner event).1.next_lease ≤ s.next_lease + 1 }
{}

/// The leases of an owner follow from its own entries, whatever others do between them.
pub fn leases_are_by_own_entries()
    ensures { (s : State) (owner : ℕ) (entries : List Entry) → Valid s → Legal s entries → leases_of owner (state s entries) ≡ own_leases owner (leases_of owner s) (own owner entries) }
{}

/// Where a lease stands Complete, each blob that it reaches and that counts is there and sound, but for the empty one.
pub fn complete_is_there()
    ensures counted { (rows : List Row) (root : Edge) (files : Bool) (ds : List HashAndSize) → standing rows root files ≡ standings.Complete ds
        → (pair : Edge) → IsTrue (reaches (blobs rows) (root ∷ []) pair) → (files || is_dir pair) ≡ true → is_empty pair.digest ≡ false → is_sound rows pair.digest ≡ true }
    ensures all { (rows : List Row) (root : Edge) (files : Bool) (ds : List HashAndSize) → standing rows root files ≡ standings.Complete ds
        → (pair : Edge) → IsTrue (reaches (blobs rows) (root ∷ []) pair) → is_empty pair.digest ≡ false → Contains ds pair.digest }
{}

/// A lease guards: from any place of a history at which it stands until its owner releases it, all that it reached
/// is reached, and the rows of that stay. No other owner can release it.
pub fn guard_stands()
    ensures kept { (s : State) (before entries : List Entry) (lease : Lease) → Valid s → Legal s (before ++ entries) → Contains (state s before).leases lease → list_any (is_release lease) entries ≡ false
        → IsKeptBy lease entries (state s before) (state s (before ++ entries)) }
    ensures owner { (s : State) (before : List Entry) (entry : Entry) (lease : Lease) → Valid s → Legal s (before ++ entry ∷ []) → Contains (state s before).leases lease → IsTrue (releases lease.id entry.event)
        → entry.owner ≡ lease.owner }
{}

/// Under the session guard an owner keeps what it uses: from an entry by which it put or read a blob that isn't the
/// empty one, and found it there, until its Close the blob is guarded and has a row.
pub fn holds_stand()
    ensures row { (s : State) (before entries : List Entry) (entry : Entry) (d : HashAndSize) → Valid s → is_session s.guard ≡ true → Legal s (before ++ entry ∷ entries)
        → IsTrue (is_use_of d entry) → is_empty d ≡ false → list_any (is_close entry.owner) entries ≡ false → has_row (state s (before ++ entry ∷ entries)).rows d ≡ true }
    ensures guarded { (s : State) (before entries : List Entry) (entry : Entry) (d : HashAndSize) → Valid s → is_session s.guard ≡ true → Legal s (before ++ entry ∷ entries)
        → IsTrue (is_use_of d entry) → is_empty d ≡ false → list_any (is_close entry.owner) entries ≡ false → is_guarded (state s (before ++ entry ∷ entries)) d ≡ true }
{}
