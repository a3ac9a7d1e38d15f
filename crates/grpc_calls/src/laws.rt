//! Laws of the definitions: what is read of the DATA of a stream, against messages that are framed one after the other.

ghost use Rattle.std.specs.Prelude.{◌≡◌, ◌≤◌, ◌++◌, ◌∷◌, [], ℕ, List, All, length, map};
ghost use Rattle.std.specs.List.{flat_map};
ghost use Rattle.grpc_calls.specs.declared.call.Reading.{Reading as AReading};
ghost use Rattle.grpc_calls.specs.declared.call.Reading.TheVariants as readings;
ghost use Rattle.grpc_calls.specs.declared.event.CallEvent.TheVariants as events;
ghost use Rattle.grpc_calls.specs.Prefix.{max_message, IsPart};
ghost use Rattle.grpc_calls.specs.Framing.{framed, behind_events, taken};

/// However the bytes of a stream are cut, the same is read.
pub fn cuts_mean_nothing()
    ensures { (n : ℕ) (r : AReading) (first second : List ℕ) → taken n r (first ++ second) ≡ behind_events (taken n r first).events (taken n (taken n r first).reading second) }
{}

/// Messages within the limit that are framed one after the other are told in their order, each with its content, and a part of
/// one more, if it is there, is kept.
pub fn framed_is_told()
    ensures { (n : ℕ) (contents : List (List ℕ)) (prefix content : List ℕ) → All (λ (m : List ℕ). length m ≤ max_message) contents → IsPart prefix content → taken n (readings.Body []) (flat_map framed contents ++ (prefix ++ content)) ≡ record { reading = readings.Body (prefix ++ content); events = map (λ (m : List ℕ). events.Message n m) contents } }
{}
