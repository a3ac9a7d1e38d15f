use super::*;
use std::test::*;

/// A field with the number 2 and 75 bytes: a digest, which is a hash and a size.
const DIGEST: &[u8] =
    b"\x12\x4b\x0a\x400123456789abcdef0123456789abcdef0123456789abcdef0123456789abcdef\x10\x85\x80\x80\x80\x80\x80\x80\x01";

#[test]
fn one_field_is_read(rt: HostRuntime) -> Result<(), Fail> {
    let cases: [(&[u8], u32, Value<'static>); 12] = [
        (b"\x08\x00", 1, Value::Int(0)),
        (b"\x08\xac\x02", 1, Value::Int(300)),
        // Longer than it has to be, and an unknown number.
        (b"\x08\x83\x00", 1, Value::Int(3)),
        (b"\x78\x01", 15, Value::Int(1)),
        (
            b"\x08\xff\xff\xff\xff\xff\xff\xff\xff\xff\x01",
            1,
            Value::Int(0xffff_ffff_ffff_ffff),
        ),
        (
            b"\x08\x80\x80\x80\x80\x80\x80\x80\x80\x80\x00",
            1,
            Value::Int(0),
        ),
        (
            b"\x19\x08\x07\x06\x05\x04\x03\x02\x01",
            3,
            Value::Fixed64(0x0102_0304_0506_0708),
        ),
        (b"\x25\x04\x03\x02\x01", 4, Value::Fixed32(0x0102_0304)),
        (b"\x12\x03abc", 2, Value::Bytes(b"abc")),
        (b"\x0a\x00", 1, Value::Bytes(b"")),
        (b"\xf8\xff\xff\xff\x0f\x07", 0x1fff_ffff, Value::Int(7)),
        (b"\x88\x00\x01", 1, Value::Int(1)),
    ];
    for (bytes, number, value) in cases {
        let read = fields(rt.alloc(), bytes)
            .ok()
            .ok_or("the bytes are a field")?;
        let wanted = [Field {
            number,
            at: 0,
            value,
        }];
        assert_eq!(rt; read.as_slice(), wanted.as_slice(), "{number}");
    }
    Ok(())
}

#[test]
fn a_message_is_read_in_its_order(rt: HostRuntime) -> Result<(), Fail> {
    let none = fields(rt.alloc(), b"").ok().ok_or("nothing is no fields")?;
    assert_eq!(rt; none.as_slice().len(), 0);
    let outer = fields(rt.alloc(), DIGEST)
        .ok()
        .ok_or("a digest in a field")?;
    let inside = last_bytes(&outer, 2).ok_or("the digest")?;
    assert_eq!(rt; inside.len(), 75);
    let inner = fields(rt.alloc(), inside).ok().ok_or("a hash and a size")?;
    let hash = b"0123456789abcdef0123456789abcdef0123456789abcdef0123456789abcdef";
    let wanted = [
        Field {
            number: 1,
            at: 0,
            value: Value::Bytes(hash),
        },
        Field {
            number: 2,
            at: 66,
            value: Value::Int(0x0002_0000_0000_0005),
        },
    ];
    assert_eq!(rt; inner.as_slice(), wanted.as_slice());
    Ok(())
}

#[test]
fn a_fault_has_the_place_of_its_field(rt: HostRuntime) {
    let cases: [(&[u8], WireError); 20] = [
        (b"\x80", WireError::Truncated { at: 0 }),
        (b"\x08", WireError::Truncated { at: 0 }),
        (b"\x08\xff", WireError::Truncated { at: 0 }),
        (b"\x12\x03ab", WireError::Truncated { at: 0 }),
        (
            b"\x12\xff\xff\xff\xff\xff\xff\xff\xff\xff\x01",
            WireError::Truncated { at: 0 },
        ),
        (
            b"\x19\x08\x07\x06\x05\x04\x03\x02",
            WireError::Truncated { at: 0 },
        ),
        (b"\x25\x04\x03\x02", WireError::Truncated { at: 0 }),
        // The tenth byte is 2, and there are eleven bytes: in a value, in a tag and in a length.
        (
            b"\x08\xff\xff\xff\xff\xff\xff\xff\xff\xff\x02",
            WireError::BadVarint { at: 0 },
        ),
        (
            b"\x08\x80\x80\x80\x80\x80\x80\x80\x80\x80\x80\x00",
            WireError::BadVarint { at: 0 },
        ),
        (
            b"\x88\x80\x80\x80\x80\x80\x80\x80\x80\x80\x00\x01",
            WireError::BadVarint { at: 0 },
        ),
        (
            b"\x12\x80\x80\x80\x80\x80\x80\x80\x80\x80\x80\x00",
            WireError::BadVarint { at: 0 },
        ),
        (b"\x0b", WireError::Group { at: 0 }),
        (b"\x0c", WireError::Group { at: 0 }),
        (b"\x00\x00", WireError::BadTag { at: 0 }),
        (b"\x0e", WireError::BadTag { at: 0 }),
        (b"\x0f", WireError::BadTag { at: 0 }),
        (b"\x80\x80\x80\x80\x10\x07", WireError::BadTag { at: 0 }),
        (b"\x08\x01\x12\x03ab", WireError::Truncated { at: 2 }),
        (b"\x12\x03abc\x0b", WireError::Group { at: 5 }),
        (b"\x78\x01\x08\x83\x00\x0e", WireError::BadTag { at: 5 }),
    ];
    for (bytes, fault) in cases {
        let refused = fields(rt.alloc(), bytes).err();
        assert_eq!(rt; refused, Some(fault), "{bytes:?}");
    }
}

#[test]
fn the_last_counts_and_parts_are_joined(rt: HostRuntime) -> Result<(), Fail> {
    // 1: 5, 2: "ab", 1: 6, 2: "c", 3: "", and 2: 9, which is no content.
    let row = fields(
        rt.alloc(),
        b"\x08\x05\x12\x02ab\x08\x06\x12\x01c\x1a\x00\x10\x09",
    )
    .ok()
    .ok_or("a row of fields")?;
    assert_eq!(rt; last_int(&row, 1), Some(6));
    assert_eq!(rt; last_int(&row, 2), Some(9));
    assert_eq!(rt; last_int(&row, 3), None);
    assert_eq!(rt; last_bytes(&row, 2), Some(b"c".as_slice()));
    assert_eq!(rt; last_bytes(&row, 1), None);
    let all = contents(rt.alloc(), &row, 2).ok().ok_or("memory")?;
    assert_eq!(rt;
        all.as_slice(),
        [b"ab".as_slice(), b"c".as_slice()].as_slice()
    );
    let cases: [(u32, Option<&[u8]>); 4] = [
        (1, None),
        (2, Some(b"abc")),
        (3, Some(b"")),
        (4, None),
    ];
    for (number, wanted) in cases {
        let merged = joined(rt.alloc(), &row, number).ok().ok_or("memory")?;
        assert_eq!(rt;
            merged.as_ref().map(|whole| whole.as_slice()),
            wanted,
            "{number}"
        );
    }
    Ok(())
}

#[test]
fn bytes_are_text_where_they_are_utf8(rt: HostRuntime) {
    assert_eq!(rt; text(b"caf\xc3\xa9"), Some("café"));
    assert_eq!(rt; text(b""), Some(""));
    assert_eq!(rt; text(b"\xff"), None);
    assert_eq!(rt; text(b"\xc0\x80"), None);
}

#[test]
fn fields_are_written_shortest(rt: HostRuntime) -> Result<(), Fail> {
    let mut writer = Writer::new(rt.alloc());
    writer.int(1, 300).ok().ok_or("memory")?;
    writer.bytes(2, b"abc").ok().ok_or("memory")?;
    writer.int(0x1fff_ffff, 7).ok().ok_or("memory")?;
    writer.int(1, 0xffff_ffff_ffff_ffff).ok().ok_or("memory")?;
    writer.bytes(1, b"").ok().ok_or("memory")?;
    let wanted =
        b"\x08\xac\x02\x12\x03abc\xf8\xff\xff\xff\x0f\x07\x08\xff\xff\xff\xff\xff\xff\xff\xff\xff\x01\x0a\x00";
    let mut written = writer.finish();
    assert_eq!(rt; written.as_slice(), wanted.as_slice());
    assert_eq!(rt; written.len(), 27);
    written.push_slice(b"x").ok().ok_or("memory")?;
    assert!(rt; !written.is_empty());
    assert_eq!(rt; written.into_vec().as_slice().len(), 28);
    let copy = Bytes::copy_of(rt.alloc(), b"ab").ok().ok_or("memory")?;
    assert_eq!(rt; copy.as_slice(), b"ab".as_slice());
    assert!(rt; Bytes::new(rt.alloc()).is_empty());
    Ok(())
}

#[test]
fn texts_are_kept_in_place_or_on_the_heap(rt: HostRuntime) -> Result<(), Fail> {
    let short = "0123456789abcdef0123456789abcdef";
    let long = "0123456789abcdef0123456789abcdefg";
    for (wanted, len) in [("", 0), ("é", 2), (short, 32), (long, 33)] {
        let kept = Text::new(rt.alloc(), wanted).ok().ok_or("memory")?;
        assert_eq!(rt; kept.as_str(), wanted);
        assert_eq!(rt; kept.len(), len);
        assert_eq!(rt; kept.is_empty(), len == 0);
        let name = Name::new(rt.alloc(), wanted).ok().ok_or("memory")?;
        assert_eq!(rt; name.as_str(), wanted);
        let string = String::from_str(rt.alloc(), wanted).ok().ok_or("memory")?;
        assert_eq!(rt; Text::from_string(string).as_str(), wanted);
    }
    assert_eq!(rt; Text::short(short).as_str(), short);
    assert!(rt; Text::empty().is_empty());
    Ok(())
}

#[test]
fn a_list_is_read_packed_or_not(rt: HostRuntime) -> Result<(), Fail> {
    let cases: [(&[u8], &[u64]); 11] = [
        (b"", &[]),
        (b"\x08\x05\x08\xac\x02", &[5, 300]),
        (b"\x0a\x03\x05\xac\x02", &[5, 300]),
        (b"\x08\x05\x0a\x03\x06\xac\x02\x08\x07", &[5, 6, 300, 7]),
        (b"\x0a\x01\x05\x0a\x01\x06", &[5, 6]),
        (b"\x0a\x00", &[]),
        // Longer than it has to be, and as large as it can be.
        (b"\x0a\x02\x83\x00", &[3]),
        (
            b"\x0a\x0a\xff\xff\xff\xff\xff\xff\xff\xff\xff\x01",
            &[0xffff_ffff_ffff_ffff],
        ),
        // Another number, whose content is no list.
        (b"\x10\x05\x12\x01\x80\x08\x06", &[6]),
        // Eight bytes and four bytes, which are no varints.
        (
            b"\x09\x05\x00\x00\x00\x00\x00\x00\x00\x08\x06\x0d\x07\x00\x00\x00",
            &[6],
        ),
        (b"\x09\x05\x00\x00\x00\x00\x00\x00\x00", &[]),
    ];
    for (bytes, wanted) in cases {
        let row = fields(rt.alloc(), bytes).ok().ok_or("a row of fields")?;
        let numbers = packed(rt.alloc(), &row, 1).ok().ok_or("a list")?;
        assert_eq!(rt; numbers.as_slice(), wanted, "{bytes:?}");
    }
    Ok(())
}

#[test]
fn a_fault_of_a_packed_list_has_the_place_of_its_field(rt: HostRuntime) -> Result<(), Fail> {
    let cases: [(&[u8], WireError); 6] = [
        (b"\x0a\x01\x80", WireError::Truncated { at: 0 }),
        (b"\x08\x05\x0a\x02\x05\x80", WireError::Truncated { at: 2 }),
        // There are eleven bytes, and the tenth byte is 2.
        (
            b"\x08\x05\x0a\x0b\x80\x80\x80\x80\x80\x80\x80\x80\x80\x80\x00",
            WireError::BadVarint { at: 2 },
        ),
        (
            b"\x08\x05\x0a\x0a\xff\xff\xff\xff\xff\xff\xff\xff\xff\x02",
            WireError::BadVarint { at: 2 },
        ),
        // The first fault counts, of the fields and within a field.
        (
            b"\x0a\x01\x80\x0a\x0a\xff\xff\xff\xff\xff\xff\xff\xff\xff\x02",
            WireError::Truncated { at: 0 },
        ),
        (
            b"\x0a\x0b\xff\xff\xff\xff\xff\xff\xff\xff\xff\x02\x80",
            WireError::BadVarint { at: 0 },
        ),
    ];
    for (bytes, fault) in cases {
        let row = fields(rt.alloc(), bytes).ok().ok_or("a row of fields")?;
        let refused = packed(rt.alloc(), &row, 1).err();
        assert_eq!(rt; refused, Some(fault), "{bytes:?}");
    }
    Ok(())
}

#[test]
fn a_list_is_packed_shortest(rt: HostRuntime) -> Result<(), Fail> {
    let cases: [(&[u64], &[u8]); 4] = [
        (&[], b""),
        (&[0], b"\x00"),
        (&[5, 300, 127, 128], b"\x05\xac\x02\x7f\x80\x01"),
        (
            &[0xffff_ffff_ffff_ffff, 1],
            b"\xff\xff\xff\xff\xff\xff\xff\xff\xff\x01\x01",
        ),
    ];
    for (numbers, wanted) in cases {
        let content = pack(rt.alloc(), numbers).ok().ok_or("memory")?;
        assert_eq!(rt; content.as_slice(), wanted, "{numbers:?}");
    }
    Ok(())
}
