//! What holds of a seat's view alone, for callers of any door, of a reading, and of a store that is loaded.

ghost use Rattle.std.specs.Prelude.{◌≡◌, ◌≢◌, ◌<◌, ◌≤◌, ◌+◌, ◌^◌, ◌++◌, ◌∷◌, ℕ, true, false, List, [], length, map, slice_set, Some};
ghost use Rattle.std.specs.List.{AllByRecursion};
ghost use Rattle.digest_types.specs.Name.{HashAndSize};
ghost use Rattle.digest_types.specs.Digest.{digest_of};
ghost use Rattle.store_core.specs.declared.event.Event.{Event};
ghost use Rattle.store_core.specs.declared.event.Event.TheVariants as events;
ghost use Rattle.store_core.specs.declared.event.Reply.{Reply};
ghost use Rattle.store_core.specs.declared.event.Reply.TheVariants as replies;
ghost use Rattle.store_core.specs.declared.state.Guard.{Guard};
ghost use Rattle.store_core.specs.State.{State, Valid, new_state, digests, used};
ghost use Rattle.store_core.specs.Step.{step};
ghost use Rattle.store_core.specs.History.{Entry, state, own, leases_of};
ghost use Rattle.turn_lock.specs.Noted.{entry};
ghost use Rattle.turn_lock.specs.Views.{Extends};
ghost use Rattle.blob_store.specs.View.{View, IsSound, IsOwn, Turns, Makes, Waits, Enters, StaysOut, Leaves, state_of, own_now};
ghost use Rattle.blob_store.specs.Bodies.{ReadingState, Explains};
ghost use Rattle.blob_store.specs.Restored.{AreBodiesFor, IsRowOf, HasLinksOf, as_sound, restored, row_with, text_abc, text_ab};
ghost use Rattle.blob_store.specs.declared.reading.ReadingEnd.TheVariants.{Damaged};
ghost use Rattle.blob_store.specs.Benched.{Benched, IsAtStep, store_of, seat_of, view_of, seated, unseated_now};

/// Calls one after the other make their entries in that order, in so many turns together.
pub fn turns_join()
    ensures join { (a b c : View) (m n : ℕ) (xs ys : List (Event × Reply)) → Turns a b m xs → Turns b c n ys → Turns a c (m + n) (xs ++ ys) }
    ensures more { (a b : View) (m n : ℕ) (xs : List (Event × Reply)) → m ≤ n → Turns a b m xs → Turns a b n xs }
    ensures none { (v : View) (owner : ℕ) → v.entered ≡ true → v.owner ≡ Some owner → own owner v.seen ≡ v.mine → Turns v v 0 [] }
{}

/// What a call answered is what the step replies at the place of its entry, and isn't Refused. What was seen before the
/// call stands before that place.
pub fn replies_are_the_steps()
    ensures reply { (old new : View) (event : Event) (reply : Reply) → IsSound new → (makes : Makes old new event reply)
        → (reply ≡ (step (state new.start makes.last.0) makes.turns.owner event).0) × (state_of new ≡ (step (state new.start makes.last.0) makes.turns.owner event).1) × (reply ≢ replies.Refused) }
    ensures before { (old new : View) (event : Event) (reply : Reply) → IsOwn old → (makes : Makes old new event reply) → Extends old.seen makes.last.0 }
{}

/// The leases that the store holds for an owner are those of its own entries.
pub fn own_leases_stand()
    ensures { (v : View) (owner : ℕ) (rest : List Entry) → IsSound v → v.owner ≡ Some owner → own owner v.seen ≡ v.mine
        → v.mine ≡ record { owner = owner; event = events.Open; reply = replies.Opened owner } ∷ rest → leases_of owner (state_of v) ≡ own_now v }
{}

/// All entries that are seen at a bench were made at it: a call's entry is the one step from the store before it to the
/// store after it, and all else stays as it was.
pub fn bench_goes_by_steps()
    ensures makes { (old new : Benched) (owner : ℕ) (event : Event) (reply : Reply) → old.chosen < length old.seats → IsSound (view_of new) → Makes (view_of old) (view_of new) event reply → (seat_of old).owner ≡ Some owner
        → IsAtStep old new owner event reply × (new.seats ≡ old.seats) }
    ensures waits { (old new : Benched) → old.chosen < length old.seats → Waits (view_of old) (view_of new) → new ≡ old }
    ensures enters { (old new : Benched) → old.chosen < length old.seats → IsSound (view_of new) → Enters (view_of old) (view_of new)
        → IsAtStep old new (store_of old).next_owner events.Open (replies.Opened (store_of old).next_owner) × (new.seats ≡ slice_set old.seats old.chosen (seated (store_of old).next_owner)) }
    ensures stays_out { (old new : Benched) → old.chosen < length old.seats → (seat_of old).entered ≡ false → StaysOut (view_of old) (view_of new) → new ≡ old }
    ensures leaves { (old new : Benched) (owner : ℕ) → old.chosen < length old.seats → IsSound (view_of new) → Leaves (view_of old) (view_of new) → (seat_of old).owner ≡ Some owner
        → IsAtStep old new owner events.Close replies.Closed × (new.seats ≡ slice_set old.seats old.chosen (unseated_now owner)) }
{}

/// A reading of a body that tells bytes of the digest that is wanted doesn't end in Damaged.
pub fn told_readings_end_well()
    ensures { (reading : ReadingState) (bytes : List ℕ) (want got : HashAndSize) → reading.told ≡ Some bytes → digest_of bytes ≡ reading.want → reading.want.size ≤ 2 ^ 60
        → Explains reading (Damaged want got) → ⊥ }
{}

/// A store that is loaded from the bodies of its rows, with its own list of use, has the same digests in the same order of use
/// as at its end. Each row is sound and has the links of its body's bytes: where the rows had them, the rows are the same,
/// but for those that were unsound.
pub fn restart_keeps()
    ensures order { (s : State) (found : List (List ℕ)) (low high : ℕ) (guard : Guard) → Valid s → AreBodiesFor s.rows found
        → digests (restored (digests s.rows) found low high guard).rows ≡ digests s.rows }
    ensures rows { (s : State) (found : List (List ℕ)) (low high : ℕ) (guard : Guard) → Valid s → AreBodiesFor s.rows found
        → AllByRecursion (IsRowOf found) (restored (digests s.rows) found low high guard).rows }
    ensures all { (s : State) (found : List (List ℕ)) (low high : ℕ) (guard : Guard) → Valid s → AreBodiesFor s.rows found → AllByRecursion (HasLinksOf found) s.rows
        → restored (digests s.rows) found low high guard ≡ record (new_state low high guard) { rows = map as_sound s.rows } }
{}

/// Where `abc`, `ab` and `abc` again are found, and the saved list has abc and another digest, there are two rows with five
/// bytes: ab is the least recent one, since it isn't saved.
pub fn saved_rows_come_last()
    ensures rows { (other : HashAndSize) (low high : ℕ) (guard : Guard) → digest_of text_abc ≢ other → digest_of text_ab ≢ other
        → (restored (digest_of text_abc ∷ other ∷ []) (text_abc ∷ text_ab ∷ text_abc ∷ []) low high guard).rows ≡ row_with text_ab ∷ row_with text_abc ∷ [] }
    ensures used { (other : HashAndSize) (low high : ℕ) (guard : Guard) → digest_of text_abc ≢ other → digest_of text_ab ≢ other
        → used (restored (digest_of text_abc ∷ other ∷ []) (text_abc ∷ text_ab ∷ text_abc ∷ []) low high guard) ≡ 5 }
{}
