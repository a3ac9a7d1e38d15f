//! Bytes on the heap.

ghost use Rattle.std.specs.Prelude.{◌≡◌, ◌≤◌, drop, vec_len};

use crate::listed::Listed;

/// Bytes on the heap, seen as a list.
pub type Bytes = Listed<u8>;

/// Removes the first `count` bytes. It takes no memory.
pub fn drop_front(bytes: &mut Vec<u8>, count: usize)
    requires { count ≤ vec_len bytes.old }
    ensures { bytes.new.items ≡ drop count bytes.old.items }
{
    let len = bytes.len();
    bytes.rotate_left(count);
    bytes.truncate(len - count);
}
