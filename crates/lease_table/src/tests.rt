//! The order of use.

ghost use Rattle.std.specs.Prelude.{◌≡◌, replicate};

use super::*;
use digest_types::Digest;
use proto_wire::OutOfMemory;
use std::alloc::Global;
use std::test::*;

// A digest that is told from others by a number, which is its size as well.
fn digest(number: u8) -> Digest
    ensures { result ≡ record { hash = replicate 32 number; size = number } }
{
    Digest {
        hash: [number; 32],
        size: u64::from(number),
    }
}

fn add(order: &mut UseOrder, digest: Digest) -> Result<(), OutOfMemory> {
    if order.has(&digest) {
        return Ok(());
    }
    order.add(digest)
}

// Four blobs, in the order of their numbers.
fn order(alloc: Global) -> Result<UseOrder, OutOfMemory> {
    let mut order = UseOrder::new(alloc);
    for number in [1, 2, 3, 4] {
        add(&mut order, digest(number))?;
    }
    Ok(order)
}

#[test]
fn what_is_used_goes_last(rt: HostRuntime) -> Result<(), Fail> {
    let mut order = order(rt.alloc())?;
    // So many uses take all slots more than once.
    for time in 0..100 {
        let digest = digest(1 + time % 2);
        if order.has(&digest) {
            order.touch(&digest);
        }
    }
    order.remove(&digest(3));
    assert_eq!(rt; order.len(), 3);
    let due = [digest(4), digest(1), digest(2)];
    assert_eq!(rt; order.list()?.as_slice(), &due[..]);
    Ok(())
}

// What a pass takes first.
fn taken(order: &mut UseOrder, leases: &LeaseTable) -> Option<Digest> {
    let mut from = None;
    order.take_next(leases, &mut from)
}

#[test]
fn a_pass_takes_the_least_recent_first(rt: HostRuntime) -> Result<(), Fail> {
    let mut order = order(rt.alloc())?;
    let none = LeaseTable::new(rt.alloc());
    assert_eq!(rt; taken(&mut order, &none), Some(digest(1)));
    Ok(())
}
