//! What holds of the definitions alone.

ghost use Rattle.std.specs.Prelude.{◌≡◌, ◌<◌, ◌≤◌, ◌^◌, List, ℕ, length, Ok};
ghost use Rattle.std.specs.List.{flat_map, AllByRecursion};
ghost use Rattle.proto_wire.specs.Field.{WireField};
ghost use Rattle.proto_wire.specs.Wire.{IsSpelling};
ghost use Rattle.proto_wire.specs.Spelling.{varint, spelled, Fits};
ghost use Rattle.proto_wire.specs.Packed.{varints_in};

/// What is written is a spelling of the field, and no spelling of it is shorter.
pub fn shortest_spelling()
    ensures spells { (f : WireField) → Fits f → IsSpelling (spelled f) f }
    ensures shortest { (f : WireField) (text : List ℕ) → IsSpelling text f → length (spelled f) ≤ length text }
{}

/// What is packed is read: the content of a packed list gives its numbers, wherever its field begins.
pub fn packed_again()
    ensures { (at : ℕ) (ns : List ℕ) → AllByRecursion (λ n. n < 2 ^ 64) ns → varints_in (length (flat_map varint ns)) at (flat_map varint ns) ≡ Ok ns }
{}
