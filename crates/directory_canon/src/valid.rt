//! Which names and targets a node may have.

ghost use Rattle.std.specs.Prelude.{◌≡◌, ◌==◌, ◌||◌};
ghost use Rattle.std.specs.List.{list_any};
ghost use Rattle.directory_canon.specs.Node.{is_dots, is_name, is_target};

/// The most bytes of a name.
const MAX_NAME: usize = 255;

/// The most bytes of a target.
const MAX_TARGET: usize = 4095;

fn is_dots(name: &str) -> bool
    ensures { result ≡ is_dots name.now }
{
    name == "." || name == ".."
}

fn has_slash_or_nul(bytes: &[u8]) -> bool
    ensures { result ≡ list_any (λ b. b == 47 || b == 0) bytes.now }
{
    bytes.iter().any(|b| *b == b'/' || *b == 0)
}

fn has_nul(bytes: &[u8]) -> bool
    ensures { result ≡ list_any (λ b. b == 0) bytes.now }
{
    bytes.contains(&0)
}

/// Whether this is text of 1 to 255 bytes that isn't `.` or `..`, and has no slash and no NUL.
#[tactic(auto, using(crate::proofs::EntryLemmas::texts), unfolding(crate::specs::Node::is_name))]
pub(crate) fn is_name(name: &str) -> bool
    ensures { result ≡ is_name name.now }
{
    !name.is_empty()
        && name.len() <= MAX_NAME
        && !is_dots(name)
        && !has_slash_or_nul(name.as_bytes())
}

/// Whether this is text of 1 to 4,095 bytes that has no NUL.
#[tactic(auto, using(crate::proofs::EntryLemmas::texts), unfolding(crate::specs::Node::is_target))]
pub(crate) fn is_target(target: &str) -> bool
    ensures { result ≡ is_target target.now }
{
    !target.is_empty() && target.len() <= MAX_TARGET && !has_nul(target.as_bytes())
}
