use super::*;
use blob_store::{Bench, Door, MemShelf, Store};
use cas_messages::{QueryWriteStatusRequest, ReadRequest};
use casd_base::{Code, Status};
use digest_types::Digest;
use proto_wire::{Bytes, Text};
use std::alloc::Global;
use std::process::Abort;
use std::test::*;
use store_core::{Guard, Marks};

const ABC: &str = "blobs/ba7816bf8f01cfea414140de5dae2223b00361a396177a9cb410ff61f20015ad/3";

const UPLOAD: &str =
    "main/uploads/0c3a4f1e-7b1a-4e39-9a31-2f0f6d1c1a10/blobs/ba7816bf8f01cfea414140de5dae2223b00361a396177a9cb410ff61f20015ad/3/note";

/// A name, and the code with which it is refused, if it is, as one to read from and as one to write to.
const NAMES: [(&str, Option<Code>, Option<Code>); 6] = [
    (ABC, None, Some(Code::InvalidArgument)),
    (
        "a/b/blobs/ba7816bf8f01cfea414140de5dae2223b00361a396177a9cb410ff61f20015ad/3",
        None,
        Some(Code::InvalidArgument),
    ),
    (UPLOAD, Some(Code::InvalidArgument), None),
    (
        "uploads/no-uuid/blobs/ba7816bf8f01cfea414140de5dae2223b00361a396177a9cb410ff61f20015ad/3",
        None,
        Some(Code::InvalidArgument),
    ),
    (
        "compressed-blobs/zstd/ba7816bf8f01cfea414140de5dae2223b00361a396177a9cb410ff61f20015ad/3",
        Some(Code::Unimplemented),
        Some(Code::InvalidArgument),
    ),
    (
        "blobs/BA7816bf8f01cfea414140de5dae2223b00361a396177a9cb410ff61f20015ad/3",
        Some(Code::InvalidArgument),
        Some(Code::InvalidArgument),
    ),
];

fn code_of(named: Result<Digest, Status>) -> Option<Code> {
    match named {
        Ok(_) => None,
        Err(status) => Some(status.code),
    }
}

#[test]
fn names_are_of_their_form(rt: HostRuntime) -> Result<(), Fail> {
    for (name, read, write) in NAMES {
        assert_eq!(rt; code_of(read_name(name)), read, "{name}");
        assert_eq!(rt; code_of(write_name(name)), write, "{name}");
    }
    Ok(())
}

// A bench whose one seat has entered, over a store that was loaded with `abc`, and the shelf of its body.
fn bench(rt: &impl Abort, alloc: Global) -> Result<(Bench<MemShelf>, MemShelf), Fail> {
    let mut bodies = Vec::new(alloc);
    bodies.push(Bytes::from_vec(Vec::from_slice(alloc, b"abc")?))?;
    let mut shelf = MemShelf::new(alloc, bodies, Vec::new(alloc), Vec::new(alloc));
    let marks = Marks {
        low: 0,
        high: 100,
        guard: Guard::Leases,
    };
    let store = Store::load(alloc, &mut shelf, marks)
        .ok()
        .ok_or("not loaded")?;
    let mut bench = Bench::new(alloc, store, 1)?;
    assert!(rt; !bench.is_entered());
    assert!(rt; bench.left() >= 1 << 30);
    bench.enter()?;
    Ok((bench, shelf))
}

#[test]
fn a_range_is_read(rt: HostRuntime) -> Result<(), Fail> {
    let (mut bench, mut shelf) = bench(&rt, rt.alloc())?;
    let request = ReadRequest {
        resource_name: Text::new(rt.alloc(), ABC)?,
        read_offset: 1,
        read_limit: 0,
    };
    assert!(rt; bench.is_entered() && bench.left() > 2);
    let mut call = ReadCall::begin(rt.alloc(), &mut bench, &mut shelf, &request)
        .ok()
        .ok_or("not begun")?;
    assert!(rt; bench.is_entered() && bench.left() > 2);
    let piece = call.next(&mut bench, &mut shelf).ok().flatten();
    assert!(rt; piece.is_some_and(|r| r.bytes.as_slice() == &b"bc"[..]));
    assert!(rt; bench.is_entered() && bench.left() > 2);
    assert!(rt; matches!(call.next(&mut bench, &mut shelf), Ok(None)));
    assert!(rt; bench.is_entered() && bench.left() > 2);
    let request = QueryWriteStatusRequest {
        resource_name: Text::new(rt.alloc(), UPLOAD)?,
    };
    let answer = query::<MemShelf, Bench<MemShelf>>(rt.alloc(), &mut bench, &request);
    assert!(rt; answer.is_ok_and(|r| r.complete && r.committed_size == 3));
    Ok(())
}
