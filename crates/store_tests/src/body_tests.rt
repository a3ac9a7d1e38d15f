ghost use Rattle.std.specs.Prelude.{◌≡◌, ◌≤◌, ◌^◌, false, length};
ghost use Rattle.digest_types.specs.Hasher.{added_len};

use blob_store::{Checked, Filling, MemShelf, Reading, ReadingEnd, Shelf, ShelfEnd};
use casd_base::Failed;
use digest_types::{Digest, Digests};
use proto_wire::Bytes;
use std::alloc::Global;
use std::test::*;

pub(crate) fn mem_shelf(
    alloc: Global,
    found: &[&[u8]],
    failing: &[u64],
    spoilt: &[u64],
) -> Result<MemShelf, Fail> {
    let mut bodies = Vec::new(alloc);
    for bytes in found {
        let body = Bytes::copy_of(alloc, bytes).ok().ok_or("memory")?;
        bodies.push(body)?;
    }
    let failing = Vec::from_slice(alloc, failing)?;
    let spoilt = Vec::from_slice(alloc, spoilt)?;
    Ok(MemShelf::new(alloc, bodies, failing, spoilt))
}

// The body of three bytes that are added one by one.
fn three<K: Shelf>(alloc: Global, shelf: &mut K, bytes: &[u8; 3]) -> Result<Checked<K>, ShelfEnd> {
    let mut filling = Filling::new(alloc, shelf)?;
    filling.add(shelf, &bytes[..1])?;
    filling.add(shelf, &bytes[1..2])?;
    filling.add(shelf, &bytes[2..])?;
    filling.finish(shelf)
}

// Makes each call of a shelf once, in the order of their numbers: a draft, an addition, its seal, a reader, a read, a body
// that is found, and the saved list.
fn each_call<K: Shelf>(alloc: Global, shelf: &mut K) -> Result<(), ShelfEnd> {
    let mut filling = Filling::new(alloc, shelf)?;
    if let Err(e) = filling.add(shelf, b"abc") {
        filling.give_up(shelf);
        return Err(e);
    }
    let (body, digest, _edges) = filling.finish(shelf)?.into_parts();
    let mut reading = Reading::new(shelf, &body, digest)?;
    shelf.discard(body);
    if reading.next(shelf, &mut [0u8; 2]).is_err() {
        return Err(ShelfEnd::Failed);
    }
    if let Some(body) = shelf.next_found()? {
        shelf.discard(body);
    }
    let _saved = shelf.saved()?;
    Ok(())
}

#[test]
fn bytes_become_a_body_in_pieces_and_are_read_back(rt: HostRuntime) -> Result<(), Fail> {
    let mut shelf = mem_shelf(rt.alloc(), &[], &[], &[])?;
    let checked = three(rt.alloc(), &mut shelf, b"abc").ok().ok_or("refused")?;
    let text = checked.digest().print(rt.alloc()).ok().ok_or("memory")?;
    // the SHA-256 of "abc" (FIPS 180-4, its first example)
    let want = "ba7816bf8f01cfea414140de5dae2223b00361a396177a9cb410ff61f20015ad/3";
    assert_eq!(rt; text.as_str(), want);
    assert!(rt; checked.edges().is_none());

    let (body, digest, _edges) = checked.into_parts();
    let mut reading = Reading::new(&mut shelf, &body, digest)
        .ok()
        .ok_or("no reader")?;
    let pieces: [&[u8]; 4] = [b"ab", b"c", b"", b""];
    for piece in pieces {
        let mut buf = [0u8; 2];
        let count = reading
            .next(&mut shelf, &mut buf)
            .ok()
            .ok_or("a read failed")?;
        assert_eq!(rt; buf.get(..count), Some(piece), "at {piece:?}");
    }
    Ok(())
}

#[test]
fn no_bytes_are_a_directory_without_links(rt: HostRuntime) -> Result<(), Fail> {
    let mut shelf = mem_shelf(rt.alloc(), &[], &[], &[])?;
    let filling = Filling::new(rt.alloc(), &mut shelf).ok().ok_or("no draft")?;
    let checked = filling.finish(&mut shelf).ok().ok_or("refused")?;
    assert_eq!(rt; checked.digest(), Digest::empty());
    assert_eq!(rt; checked.edges().map(|edges| edges.len()), Some(0));
    checked.give_up(&mut shelf);
    Ok(())
}

#[test]
fn the_empty_blob_is_read_without_a_body(rt: HostRuntime) -> Result<(), Fail> {
    // the first call fails, so that none is made
    let mut shelf = mem_shelf(rt.alloc(), &[], &[0], &[])?;
    let mut reading: Reading<MemShelf> = Reading::empty();
    let mut buf = [7u8; 2];
    assert_eq!(rt; reading.next(&mut shelf, &mut buf).ok(), Some(0));
    assert_eq!(rt; shelf.faults(), 0);
    Ok(())
}

#[test]
fn a_spoilt_body_is_damaged(rt: HostRuntime) -> Result<(), Fail> {
    let mut shelf = mem_shelf(rt.alloc(), &[], &[], &[1])?;
    let sound = three(rt.alloc(), &mut shelf, b"abc").ok().ok_or("refused")?;
    sound.give_up(&mut shelf);
    let spoilt = three(rt.alloc(), &mut shelf, b"abc").ok().ok_or("refused")?;
    let (body, want, _edges) = spoilt.into_parts();
    let mut reading = Reading::new(&mut shelf, &body, want)
        .ok()
        .ok_or("no reader")?;
    let mut buf = [0u8; 8];
    assert_eq!(rt; reading.next(&mut shelf, &mut buf), Ok(3));
    assert_eq!(rt; buf.get(..3), Some(&b"bbc"[..]));
    for _ in 0..2 {
        let got = Digest::of(b"bbc");
        assert_eq!(rt;
            reading.next(&mut shelf, &mut buf),
            Err(ReadingEnd::Damaged { want, got })
        );
    }
    Ok(())
}

#[test]
fn a_body_that_is_too_long_is_damaged_after_one_byte_more(rt: HostRuntime) -> Result<(), Fail> {
    let mut shelf = mem_shelf(rt.alloc(), &[b"abcdefgh"], &[], &[])?;
    let body = shelf.next_found().ok().flatten().ok_or("no body")?;
    let want = Digest::of(b"abc");
    let mut reading = Reading::new(&mut shelf, &body, want)
        .ok()
        .ok_or("no reader")?;
    let mut buf = [0u8; 3];
    assert_eq!(rt; reading.next(&mut shelf, &mut buf), Ok(3));
    let got = Digest::of(b"abcd");
    assert_eq!(rt;
        reading.next(&mut shelf, &mut buf),
        Err(ReadingEnd::Damaged { want, got })
    );
    assert_eq!(rt; &buf, b"dbc");
    Ok(())
}

#[test]
fn each_call_fails_by_its_number(rt: HostRuntime) -> Result<(), Fail> {
    // the call that fails, and how many drafts and bodies are given up
    let cases = [
        (0, 0, 0),
        (1, 1, 0),
        (2, 1, 0),
        (3, 0, 0),
        (4, 0, 1),
        (5, 0, 1),
        (6, 0, 2),
    ];
    for (number, drafts, bodies) in cases {
        let mut shelf = mem_shelf(rt.alloc(), &[b"x"], &[number], &[])?;
        let result = each_call(rt.alloc(), &mut shelf);
        assert_eq!(rt; result, Err(ShelfEnd::Failed), "call {number}");
        let counts = (shelf.faults(), shelf.dropped(), shelf.discarded());
        assert_eq!(rt; counts, (1, drafts, bodies), "call {number}");
    }
    let mut shelf = mem_shelf(rt.alloc(), &[b"x"], &[7], &[])?;
    assert_eq!(rt; each_call(rt.alloc(), &mut shelf), Ok(()));
    assert_eq!(rt; shelf.faults(), 0);
    Ok(())
}

#[test]
fn a_reading_that_failed_does_not_go_on(rt: HostRuntime) -> Result<(), Fail> {
    let mut shelf = mem_shelf(rt.alloc(), &[b"abc"], &[3], &[])?;
    let body = shelf.next_found().ok().flatten().ok_or("no body")?;
    let want = Digest::of(b"abc");
    let mut reading = Reading::new(&mut shelf, &body, want)
        .ok()
        .ok_or("no reader")?;
    let mut buf = [0u8; 2];
    assert_eq!(rt; reading.next(&mut shelf, &mut buf), Ok(2));
    for _ in 0..2 {
        assert_eq!(rt; reading.next(&mut shelf, &mut buf), Err(ReadingEnd::Failed));
        assert_eq!(rt; shelf.faults(), 1);
    }
    assert_eq!(rt; ShelfEnd::from(Failed), ShelfEnd::Failed);
    Ok(())
}

#[test]
fn bodies_are_found_in_their_order(rt: HostRuntime) -> Result<(), Fail> {
    let bodies: [&[u8]; 3] = [b"a", b"", b"bc"];
    let mut shelf = mem_shelf(rt.alloc(), &bodies, &[], &[])?;
    for bytes in bodies {
        let body = shelf.next_found().ok().flatten().ok_or("no body")?;
        let mut reader = shelf.next_reader(&body).ok().ok_or("no reader")?;
        let mut buf = [0u8; 4];
        let count = shelf
            .read_at(&mut reader, 0, &mut buf)
            .ok()
            .ok_or("a read failed")?;
        assert_eq!(rt; buf.get(..count), Some(bytes), "at {bytes:?}");
    }
    assert!(rt; shelf.next_found().is_ok_and(|o| o.is_none()));
    Ok(())
}

#[test]
fn the_saved_list_is_told_again_and_again(rt: HostRuntime) -> Result<(), Fail> {
    let list = [Digest::of(b"abc")];
    let saved = Digests::copy_of(rt.alloc(), &list).ok().ok_or("memory")?;
    let mut shelf = mem_shelf(rt.alloc(), &[], &[], &[])?.with_saved(saved);
    for _ in 0..2 {
        let told = shelf.saved().ok().ok_or("no list")?;
        assert_eq!(rt; told.as_slice(), &list[..]);
    }
    Ok(())
}

// How many bytes are held behind the first piece, and behind one byte more.
fn held(
    shelf: &mut MemShelf,
    filling: &mut Filling<MemShelf>,
    piece: &[u8],
) -> Result<(u64, u64), ShelfEnd>
    requires size { added_len filling.old.hasher ≡ 0 }
    requires sound { filling.old.refused ≡ false }
    requires piece { length piece.now ≤ 2 ^ 30 }
{
    filling.add(shelf, piece)?;
    let before = filling.held();
    filling.add(shelf, b"x")?;
    Ok((before, filling.held()))
}

#[test]
fn a_copy_is_held_of_what_may_be_a_directory(rt: HostRuntime) -> Result<(), Fail> {
    let alloc = rt.alloc();
    'sizes: for (size, wanted) in [
        (4_194_303, (4_194_303, 4_194_304)),
        (4_194_304, (4_194_304, 0)),
    ] {
        let mut shelf = mem_shelf(alloc, &[], &[], &[])?;
        let mut filling = Filling::new(alloc, &mut shelf).ok().ok_or("no draft")?;
        let held = held(
            &mut shelf,
            &mut filling,
            vec![in alloc; 7u8; size]?.as_slice(),
        );
        filling.give_up(&mut shelf);
        assert_eq!(rt; held.ok().ok_or("not added")?, wanted);
    }
    Ok(())
}
