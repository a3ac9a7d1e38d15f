use super::*;
use proto_wire::WireError;
use std::alloc::Global;
use std::test::*;

const ABC: &[u8] = b"ba7816bf8f01cfea414140de5dae2223b00361a396177a9cb410ff61f20015ad/3";

const EMPTY: &[u8] = b"e3b0c44298fc1c149afbf4c8996fb92427ae41e4649b934ca495991b7852b855/0";

/// The message of the digest of "abc".
const MESSAGE: &[u8] =
    b"\x0a\x40ba7816bf8f01cfea414140de5dae2223b00361a396177a9cb410ff61f20015ad\x10\x03";

/// The message of the empty blob's digest, which leaves the size out.
const EMPTY_MESSAGE: &[u8] =
    b"\x0a\x40e3b0c44298fc1c149afbf4c8996fb92427ae41e4649b934ca495991b7852b855";

#[test]
fn a_digest_is_the_hash_and_the_size(rt: HostRuntime) -> Result<(), Fail> {
    let mut hasher = Hasher::new();
    hasher.update(b"a");
    hasher.update(b"");
    hasher.update(b"bc");
    let cases: [(Digest, &[u8], &[u8]); 5] = [
        (Digest::of(b""), EMPTY, EMPTY_MESSAGE),
        (Digest::empty(), EMPTY, EMPTY_MESSAGE),
        (Digest::of(b"abc"), ABC, MESSAGE),
        (hasher.so_far(), ABC, MESSAGE),
        (hasher.finish(), ABC, MESSAGE),
    ];
    for (digest, printed, message) in cases {
        let text = digest.print(rt.alloc()).ok().ok_or("memory")?;
        assert_eq!(rt; text.as_str().as_bytes(), printed);
        assert_eq!(rt; Digest::parse(text.as_str()), Ok(digest));
        let written = digest.write(rt.alloc()).ok().ok_or("memory")?;
        assert_eq!(rt; written.as_slice(), message, "{printed:?}");
        assert_eq!(rt;
            Digest::read(rt.alloc(), message),
            Ok(digest),
            "{printed:?}"
        );
    }
    Ok(())
}

/// A message made of the parts, one after the other.
fn message_of(alloc: Global, parts: [&[u8]; 4]) -> Result<Vec<u8>, Fail> {
    let mut message = Vec::new(alloc);
    for part in parts {
        message.extend_from_slice(part)?;
    }
    Ok(message)
}

#[test]
fn a_message_is_read_or_refused(rt: HostRuntime) -> Result<(), Fail> {
    // field 1 with 64 bytes, and the hash of "abc"
    let tag = b"\x0a\x40".as_slice();
    let hash = b"ba7816bf8f01cfea414140de5dae2223b00361a396177a9cb410ff61f20015ad".as_slice();
    let upper = b"BA7816BF8F01CFEA414140DE5DAE2223B00361A396177A9CB410FF61F20015AD".as_slice();
    let below_zero = b"\x10\xff\xff\xff\xff\xff\xff\xff\xff\xff\x01".as_slice();
    let none = b"".as_slice();
    let digest = Digest::of(b"abc");
    let sum = digest.hash;
    let largest = Digest {
        hash: sum,
        size: 0x7fff_ffff_ffff_ffff,
    };
    let short = &hash[..63];
    let cases: [([&[u8]; 4], Result<Digest, DigestError>); 16] = [
        ([tag, hash, b"\x10\x03", none], Ok(digest)),
        // The size comes first, and in more bytes than it needs.
        ([b"\x10\x83\x00", tag, hash, none], Ok(digest)),
        // A field that digests don't have.
        ([b"\x78\x01", tag, hash, b"\x10\x03"], Ok(digest)),
        // The last hash counts, and the last size.
        ([b"\x0a\x01a\x10\x05", tag, hash, b"\x10\x03"], Ok(digest)),
        (
            [tag, hash, b"\x10\x03", b"\x0a\x01a"],
            Err(DigestError::BadHash),
        ),
        ([tag, upper, b"\x10\x03", none], Err(DigestError::BadHash)),
        (
            [b"\x0a\x3f", short, b"\x10\x03", none],
            Err(DigestError::BadHash),
        ),
        (
            [b"\x0a\x41", hash, b"a", b"\x10\x03"],
            Err(DigestError::BadHash),
        ),
        ([none, none, none, none], Err(DigestError::BadHash)),
        ([b"\x10\x03", none, none, none], Err(DigestError::BadHash)),
        (
            [tag, hash, below_zero, none],
            Err(DigestError::NegativeSize),
        ),
        ([tag, upper, below_zero, none], Err(DigestError::BadHash)),
        (
            [tag, hash, b"\x10\xff\xff\xff\xff\xff\xff\xff\xff\x7f", none],
            Ok(largest),
        ),
        (
            [tag, short, none, none],
            Err(DigestError::Wire(WireError::Truncated { at: 0 })),
        ),
        (
            [tag, hash, b"\x10", none],
            Err(DigestError::Wire(WireError::Truncated { at: 66 })),
        ),
        (
            [tag, upper, b"\x0b", none],
            Err(DigestError::Wire(WireError::Group { at: 66 })),
        ),
    ];
    for (parts, wanted) in cases {
        let message = message_of(rt.alloc(), parts)?;
        let read = Digest::read(rt.alloc(), message.as_slice());
        assert_eq!(rt; read, wanted, "{parts:?}");
    }
    Ok(())
}

#[test]
fn hex_text_is_in_lower_case(rt: HostRuntime) -> Result<(), Fail> {
    let cases: [(&[u8], Option<&[u8]>); 6] = [
        (b"0aff", Some(b"\x0a\xff")),
        (b"", Some(b"")),
        (b"0AFF", None),
        (b"0", None),
        (b"0g", None),
        (b"0a ", None),
    ];
    for (text, wanted) in cases {
        let read = unhex(rt.alloc(), text).ok().ok_or("memory")?;
        assert_eq!(rt;
            read.as_ref().map(|bytes| bytes.as_slice()),
            wanted,
            "{text:?}"
        );
    }
    Ok(())
}

#[test]
fn a_text_is_parsed_or_refused(rt: HostRuntime) -> Result<(), Fail> {
    // the hash of "abc"
    let hash = "ba7816bf8f01cfea414140de5dae2223b00361a396177a9cb410ff61f20015ad";
    let upper = "BA7816BF8F01CFEA414140DE5DAE2223B00361A396177A9CB410FF61F20015AD";
    let short = "ba7816bf8f01cfea414140de5dae2223b00361a396177a9cb410ff61f20015a";
    let three = Digest::of(b"abc");
    let sum = three.hash;
    let none = Digest { hash: sum, size: 0 };
    let ten = Digest {
        hash: sum,
        size: 10,
    };
    let largest = Digest {
        hash: sum,
        size: 0x7fff_ffff_ffff_ffff,
    };
    let cases: [(&str, &str, Result<Digest, DigestError>); 21] = [
        (hash, "/3", Ok(three)),
        (hash, "/0", Ok(none)),
        (hash, "/10", Ok(ten)),
        (hash, "/9223372036854775807", Ok(largest)),
        (hash, "", Err(DigestError::BadSize)),
        (hash, "/", Err(DigestError::BadSize)),
        (hash, "/03", Err(DigestError::BadSize)),
        (hash, "/00", Err(DigestError::BadSize)),
        (hash, "/+3", Err(DigestError::BadSize)),
        (hash, "/-1", Err(DigestError::BadSize)),
        (hash, "/3/", Err(DigestError::BadSize)),
        (hash, "/ 3", Err(DigestError::BadSize)),
        (hash, "/3\n", Err(DigestError::BadSize)),
        (hash, "/9223372036854775808", Err(DigestError::BadSize)),
        (hash, "/99999999999999999999999", Err(DigestError::BadSize)),
        // The hash is what stands before the first slash, and it is checked first.
        (upper, "/3", Err(DigestError::BadHash)),
        (upper, "/03", Err(DigestError::BadHash)),
        (short, "/3", Err(DigestError::BadHash)),
        (hash, "a/3", Err(DigestError::BadHash)),
        ("", "", Err(DigestError::BadHash)),
        ("", "/3", Err(DigestError::BadHash)),
    ];
    for (first, rest, wanted) in cases {
        let text = format!(in rt.alloc(); "{first}{rest}")?;
        assert_eq!(rt; Digest::parse(text.as_str()), wanted, "{first}{rest}");
    }
    Ok(())
}
