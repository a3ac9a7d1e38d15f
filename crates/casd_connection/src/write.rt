//! What is due is written.

ghost use Rattle.std.specs.Prelude.{◌≡◌, ◌≤◌, length, take, OnOk, IfErr};
ghost use Rattle.casd_connection.specs.Linked.{linked};
ghost use Rattle.casd_connection.specs.Writes.{Writes, Refuses};

use casd_base::{Link, SinkEnd};

/// Writes the bytes, and answers how many of them were written, and why not all.
pub(crate) fn write_all<L: Link>(link: &mut L, bytes: &[u8]) -> (usize, Result<(), SinkEnd>)
    ensures within { result.0 ≤ length bytes.now }
    ensures writes { Writes (linked (L.left link.old) (L.written link.old) (L.read_faults link.old) (L.write_faults link.old) (L.sent link.old) (L.at_end link.old)) (linked (L.left link.new) (L.written link.new) (L.read_faults link.new) (L.write_faults link.new) (L.sent link.new) (L.at_end link.new)) (take result.0 bytes.now) }
    ensures all { OnOk result.1 (result.0 ≡ length bytes.now) }
    ensures refuses { IfErr result.1 (Refuses (linked (L.left link.old) (L.written link.old) (L.read_faults link.old) (L.write_faults link.old) (L.sent link.old) (L.at_end link.old)) (linked (L.left link.new) (L.written link.new) (L.read_faults link.new) (L.write_faults link.new) (L.sent link.new) (L.at_end link.new))) }
{
    let mut done = 0;
    'writes: while done < bytes.len() {
        match link.write(&bytes[done..]) {
            Ok(n) => done += n,
            Err(end) => return (done, Err(end)),
        }
    }
    (done, Ok(()))
}
