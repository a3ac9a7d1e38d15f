//! What holds of the definitions alone.

ghost use Rattle.std.specs.Prelude.{◌≡◌, ◌↔◌, List, ℕ, Ok, Some, None};
ghost use Rattle.proto_wire.specs.Reading.{IsBytes};
ghost use Rattle.directory_canon.specs.declared.node.Node.{Node};
ghost use Rattle.directory_canon.specs.Canon.{Canon};
ghost use Rattle.directory_canon.specs.Links.{edges_of, links};
ghost use Rattle.directory_canon.specs.Reading.{canon_of};

/// Each Directory has one spelling, and no two Directories share one.
pub fn one_spelling()
    ensures { (a b : List Node) (x y : List ℕ) → Canon a x → Canon b y → (a ≡ b) ↔ (x ≡ y) }
{}

/// Bytes spell a Directory exactly if they are read as that Directory.
pub fn what_is_spelled_is_read()
    ensures { (dir : List Node) (bytes : List ℕ) → IsBytes bytes → Canon dir bytes ↔ (canon_of bytes ≡ Ok dir) }
{}

/// The links of bytes are the edges of the Directory that they spell; bytes that spell none have no links.
pub fn links_are_edges()
    ensures some { (dir : List Node) (bytes : List ℕ) → Canon dir bytes → links bytes ≡ Some (edges_of dir) }
    ensures none { (bytes : List ℕ) → IsBytes bytes → ((dir : List Node) → Canon dir bytes → ⊥) → links bytes ≡ None }
{}
