//! Which nodes are valid.

ghost use Rattle.std.specs.Prelude.{◌≡◌, ◌<◌, ℕ, length, slice_index, true};
ghost use Rattle.digest_types.specs.Digest.{IsDigest};
ghost use Rattle.directory_canon.specs.Node.{name_of, is_name, IsNode};
ghost use Rattle.directory_canon.specs.Making.{has_target};

use crate::node::Node;
use crate::valid::is_target;
use digest_types::Digest;

// The number of bytes, of which each is below 256.
fn len_of_bytes(bytes: &[u8]) -> usize
    ensures len { result ≡ length bytes.now }
    ensures bytes { (i : ℕ) → slice_index bytes.now i < 256 }
{
    bytes.len()
}

// True of any digest: the hash has 32 bytes, and the size is below 2^63.
fn is_digest(digest: &Digest) -> bool
    ensures yes { result ≡ true }
    ensures is { IsDigest digest.now }
{
    len_of_bytes(&digest.hash) == 32 && digest.size < 1 << 63
}

// Whether the node's target, if it has one, is valid. With a valid name it is then a valid node.
pub(crate) fn target_fits(node: &Node) -> bool
    ensures value { result ≡ has_target node.now }
    ensures node { is_name (name_of node.now) ≡ true → has_target node.now ≡ true → IsNode node.now }
{
    match node {
        Node::File { digest, .. } => is_digest(digest),
        Node::Dir { digest, .. } => is_digest(digest),
        Node::Link { target, .. } => is_target(target.as_str()),
    }
}
