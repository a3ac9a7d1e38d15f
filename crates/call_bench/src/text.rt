//! The bytes that a client sends.

/// The connection preface and empty SETTINGS (RFC 9113, sections 3.4 and 6.5), and the headers of a call on stream 1, by gRPC's
/// C core.
pub(crate) const OPENING: &[u8] = b"PRI * HTTP/2.0\r\n\r\nSM\r\n\r\n\
\0\0\0\x04\0\0\0\0\0\
\0\0\x53\x01\x04\0\0\0\x01\
\x86\x83A\x8a\xa0\xe4\x1d\x13\x9d\x09\xb8\xf8\x1f\x17D\xabb;MD\x8b\xc6?e\xa1{\x0bI\xd2U\xcb\xe4\xa4\xb5&=K\xf7\x12\xf7\x87X\xe35\x06I\x8a\x861\x157\x87X\xe35\x06I\x8a\x8f@\x82I\x7f\x86M\x835\x05\xb1\x1f_\x8b\x1du\xd0b\x0d&=LMed";

/// A message.
pub(crate) const MESSAGE: &[u8] = b"0123456789";

/// The bytes of a message with its prefix.
pub(crate) const FRAMED: &[u8] = b"\0\0\0\0\x0a0123456789";

/// A call on a stream: its headers by the header table that the first call leaves, and `FRAMED` in DATA that ends it.
pub(crate) fn call(stream: u32) -> [u8; 39] {
    let [a, b, c, d] = stream.to_be_bytes();
    [
        0, 0, 6, 1, 4, a, b, c, d, 0x86, 0x83, 0xc1, 0xc0, 0xbf, 0xbe, 0, 0, 15, 0, 1, a, b, c, d,
        0, 0, 0, 0, 10, b'0', b'1', b'2', b'3', b'4', b'5', b'6', b'7', b'8', b'9',
    ]
}

/// A WINDOW_UPDATE.
pub(crate) fn grant(stream: u32, add: u32) -> [u8; 13] {
    let [a, b, c, d] = stream.to_be_bytes();
    let [e, f, g, h] = add.to_be_bytes();
    [0, 0, 4, 8, 0, a, b, c, d, e, f, g, h]
}

/// The number of a stream.
pub(crate) fn number(place: u32) -> Option<u32> {
    place.checked_mul(2)?.checked_add(1)
}
