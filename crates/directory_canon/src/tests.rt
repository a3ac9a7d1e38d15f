use super::*;
use digest_types::Digest;
use proto_wire::WireError;
use std::alloc::Global;
use std::process::Abort;
use std::test::*;

/// The message of the digest of "abc", of 68 bytes.
const ABC: &[u8] =
    b"\x0a\x40ba7816bf8f01cfea414140de5dae2223b00361a396177a9cb410ff61f20015ad\x10\x03";

/// The same in upper case, which is malformed.
const UPPER: &[u8] =
    b"\x0a\x40BA7816BF8F01CFEA414140DE5DAE2223B00361A396177A9CB410FF61F20015AD\x10\x03";

/// Its first field: the hash.
const HASH: &[u8] = b"\x0a\x40ba7816bf8f01cfea414140de5dae2223b00361a396177a9cb410ff61f20015ad";

/// Its second field, the size, as a part of the digest of its own.
const SIZE: &[u8] = b"\x12\x02\x10\x03";

/// What stands before the digest in a node of 75 bytes.
const FILE_A: &[u8] = b"\x0a\x49\x0a\x01a\x12\x44";

const FILE_B: &[u8] = b"\x0a\x49\x0a\x01b\x12\x44";

const DIR_A: &[u8] = b"\x12\x49\x0a\x01a\x12\x44";

const DIR_B: &[u8] = b"\x12\x49\x0a\x01b\x12\x44";

/// The same in a file of 77 bytes, which has two more after its digest, or a digest in two parts.
const LONG_A: &[u8] = b"\x0a\x4b\x0a\x01a\x12\x44";

const PARTS_A: &[u8] = b"\x0a\x4b\x0a\x01a\x12\x42";

/// A length of ten bytes, of which the last is too high.
const TEN_BYTES: &[u8] = b"\x0a\xff\xff\xff\xff\xff\xff\xff\xff\xff\x02";

/// Symlinks of 8 bytes.
const LINK_A: &[u8] = b"\x1a\x06\x0a\x01a\x12\x01b";

const LINK_B: &[u8] = b"\x1a\x06\x0a\x01b\x12\x01b";

const LINK_UPPER_A: &[u8] = b"\x1a\x06\x0a\x01A\x12\x01b";

/// The parts of the bytes, and how many nodes are read of them, or the fault and its place.
type Case = (&'static [&'static [u8]], &'static str, usize);

const CASES: [Case; 60] = [
    (&[], "read", 0),
    (&[FILE_A, ABC], "read", 1),
    (&[LONG_A, ABC, b"\x20\x01"], "read", 1), // an executable file
    (&[DIR_A, ABC], "read", 1),
    (&[LINK_A], "read", 1),
    (&[b"\x1a\x0a\x0a\x01a\x12\x05/../b"], "read", 1), // slashes in the target
    (&[b"\x1a\x08\x0a\x03...\x12\x01b"], "read", 1), // a name that begins with dots
    (&[FILE_B, ABC, DIR_A, ABC, LINK_UPPER_A], "read", 3), // only each list ascends
    // Not canonical: another spelling of a node, or a node behind one of a later list.
    (&[b"\x8a\x00\x49\x0a\x01a\x12\x44", ABC], "spelling", 0), // a longer tag
    (&[b"\x0a\xc9\x00\x0a\x01a\x12\x44", ABC], "spelling", 0), // a longer length
    (&[b"\x1a\x07\x0a\x81\x00a\x12\x01b"], "spelling", 0), // a longer length of the name
    (&[LINK_A, b"\x1a\x07\x0a\x81\x00a\x12\x01b"], "spelling", 8), // and a repeated name
    (&[LONG_A, ABC, b"\x20\x00"], "spelling", 0), // is_executable of 0
    (&[LONG_A, ABC, b"\x20\x02"], "spelling", 0), // is_executable of 2
    (&[LONG_A, ABC, b"\x30\x01"], "spelling", 0), // a number as properties
    (&[FILE_A, HASH, b"\x10\x00"], "spelling", 0), // a size of 0
    (&[PARTS_A, HASH, SIZE], "spelling", 0), // a digest in two parts
    (&[b"\x1a\x06\x12\x01b\x0a\x01a"], "spelling", 0), // the target comes first
    (&[b"\x1a\x08\x0a\x01b\x12\x01b\x78\x01"], "spelling", 0), // a field of no node
    (&[LINK_A, b"\x22\x00"], "spelling", 8), // a field of no Directory
    (&[b"\x08\x01"], "spelling", 0), // a number as a file
    (&[DIR_A, ABC, FILE_B, ABC], "spelling", 75), // a directory before a file
    (&[LINK_A, DIR_B, ABC], "spelling", 8), // a symlink before a directory
    // Properties, which are checked before the name.
    (&[LINK_A, b"\x2a\x00"], "properties", 8), // a Directory's
    (&[b"\x28\x01"], "properties", 0), // the same as a number
    (&[LONG_A, ABC, b"\x32\x00"], "properties", 0), // a file's
    (&[b"\x1a\x08\x0a\x01a\x12\x01b\x22\x00"], "properties", 0), // a symlink's
    (&[b"\x1a\x08\x0a\x01.\x12\x01b\x22\x00"], "properties", 0),
    // The name, which is checked before the target and the digest.
    (&[LINK_A, b"\x1a\x06\x0a\x01.\x12\x01b"], "name", 8),
    (&[b"\x1a\x07\x0a\x02..\x12\x01b"], "name", 0),
    (&[b"\x1a\x05\x0a\x00\x12\x01b"], "name", 0),
    (&[b"\x1a\x03\x12\x01b"], "name", 0), // no name
    (&[b"\x1a\x08\x0a\x03a/b\x12\x01b"], "name", 0),
    (&[b"\x1a\x06\x0a\x01\x00\x12\x01b"], "name", 0),
    (&[b"\x1a\x06\x0a\x01\xff\x12\x01b"], "name", 0), // no UTF-8
    (&[b"\x1a\x05\x0a\x01.\x12\x00"], "name", 0),
    (&[b"\x0a\x03\x0a\x01."], "name", 0),
    // The target.
    (&[b"\x1a\x05\x0a\x01a\x12\x00"], "target", 0),
    (&[LINK_A, b"\x1a\x03\x0a\x01b"], "target", 8), // no target
    (&[b"\x1a\x06\x0a\x01a\x12\x01\x00"], "target", 0),
    (&[b"\x1a\x06\x0a\x01a\x12\x01\xff"], "target", 0), // no UTF-8
    // The digest.
    (&[b"\x0a\x03\x0a\x01a"], "digest", 0), // no digest
    (&[FILE_A, ABC, b"\x12\x03\x0a\x01b"], "digest", 75),
    (&[b"\x0a\x05\x0a\x01a\x12\x00"], "digest", 0),
    (&[FILE_A, UPPER], "digest", 0),
    // The order of names; a node is checked before its name is compared.
    (&[FILE_B, ABC, FILE_A, ABC], "unsorted", 75),
    (&[LINK_A, LINK_A], "twice", 8),
    (&[FILE_A, ABC, DIR_A, ABC], "twice", 75),
    (&[FILE_A, ABC, LINK_A, LINK_B], "twice", 75),
    (&[DIR_B, ABC, LINK_A, LINK_B], "twice", 83),
    (&[FILE_A, ABC, FILE_B, ABC, LINK_A, LINK_B], "twice", 150), // the first of two
    (&[FILE_A, ABC, LINK_A, b"\x1a\x03\x0a\x01b"], "target", 83),
    (&[LINK_B, b"\x1a\x03\x0a\x01a"], "target", 8),
    // Malformed bytes, which are looked for before any node is checked.
    (&[LINK_A, b"\x0a"], "truncated", 8),
    (&[LINK_A, b"\x00"], "tag", 8),
    (&[b"\x1b"], "group", 0),
    (&[TEN_BYTES], "varint", 0),
    (&[LINK_A, b"\x1a\x04\x0a\x01b\x12"], "truncated", 3), // the place in the node
    (&[b"\x1a\x03\x0a\x01.", b"\x0a"], "truncated", 5),
    (&[b"abc"], "truncated", 0),
];

// Puts parts one after the other.
fn joined(alloc: Global, parts: &[&[u8]]) -> Result<Vec<u8>, Fail> {
    let mut whole = Vec::new(alloc);
    for part in parts {
        whole.extend_from_slice(part)?;
    }
    Ok(whole)
}

fn wire_fault(e: WireError) -> (&'static str, usize) {
    match e {
        WireError::Truncated { at } => ("truncated", at),
        WireError::BadTag { at } => ("tag", at),
        WireError::BadVarint { at } => ("varint", at),
        WireError::Group { at } => ("group", at),
        WireError::OutOfMemory => ("memory", 0),
    }
}

fn fault(e: DirError) -> (&'static str, usize) {
    match e {
        DirError::TooLong => ("long", 0),
        DirError::Wire(e) => wire_fault(e),
        DirError::NotCanonical { at } => ("spelling", at),
        DirError::HasProperties { at } => ("properties", at),
        DirError::BadName { at } => ("name", at),
        DirError::BadTarget { at } => ("target", at),
        DirError::BadDigest { at } => ("digest", at),
        DirError::Twice { at } => ("twice", at),
        DirError::Unsorted { at } => ("unsorted", at),
        DirError::OutOfMemory => ("memory", 0),
    }
}

// The bytes are read or refused so, what is read is written so, and exactly that has links.
fn expect(rt: &impl Abort, alloc: Global, bytes: &[u8], wanted: (&str, usize)) -> Result<(), Fail> {
    let links = links_of(alloc, bytes).ok().ok_or("memory")?;
    match read_canon(alloc, bytes) {
        Ok(dir) => {
            assert_eq!(rt; ("read", dir.nodes().len()), wanted, "{bytes:?}");
            let written = write_canon(alloc, &dir).ok().ok_or("memory")?;
            assert_eq!(rt; written.as_slice(), bytes);
            assert!(rt; links.is_some(), "{bytes:?}");
        }
        Err(e) => {
            assert_eq!(rt; fault(e), wanted, "{bytes:?}");
            assert!(rt; links.is_none(), "{bytes:?}");
        }
    }
    Ok(())
}

#[test]
fn bytes_are_read_and_written_or_refused(rt: HostRuntime) -> Result<(), Fail> {
    for (parts, wanted, at) in &CASES {
        let bytes = joined(rt.alloc(), parts)?;
        expect(&rt, rt.alloc(), bytes.as_slice(), (wanted, *at))?;
    }
    Ok(())
}

#[test]
fn names_targets_and_directories_have_a_greatest_length(rt: HostRuntime) -> Result<(), Fail> {
    let alloc = rt.alloc();
    let letters = vec![in alloc; b'a'; 4096]?;
    let letters = letters.as_slice();
    // what stands before the text, its length, what stands after it, and what is read
    let cases: [(&[u8], usize, &[u8], &str, usize); 4] = [
        (b"\x1a\x85\x02\x0a\xff\x01", 255, b"\x12\x01b", "read", 1),
        (b"\x1a\x86\x02\x0a\x80\x02", 256, b"\x12\x01b", "name", 0),
        (b"\x1a\x85\x20\x0a\x01a\x12\xff\x1f", 4095, b"", "read", 1),
        (b"\x1a\x86\x20\x0a\x01a\x12\x80\x20", 4096, b"", "target", 0),
    ];
    for (before, len, after, wanted, at) in cases {
        let text = letters.get(..len).ok_or("letters")?;
        let bytes = joined(alloc, &[before, text, after])?;
        expect(&rt, alloc, bytes.as_slice(), (wanted, at))?;
    }
    let long = vec![in alloc; 0u8; 4_194_305]?;
    expect(&rt, alloc, long.as_slice(), ("long", 0))
}

#[test]
fn files_and_directories_are_linked(rt: HostRuntime) -> Result<(), Fail> {
    let bytes = joined(rt.alloc(), &[FILE_B, ABC, DIR_A, ABC, LINK_UPPER_A])?;
    let links = links_of(rt.alloc(), bytes.as_slice()).ok().ok_or("memory")?;
    let links = links.ok_or("a Directory")?;
    let digest = Digest::of(b"abc");
    let file = Edge {
        kind: Kind::File,
        digest,
    };
    let dir = Edge {
        kind: Kind::Dir,
        digest,
    };
    let wanted = [file, dir];
    assert_eq!(rt; links.as_slice(), wanted.as_slice());
    Ok(())
}
