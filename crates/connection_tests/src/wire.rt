//! Frames (RFC 9113, section 4.1) with header blocks of indexed fields and literals (RFC 7541, section 6), and length-prefixed messages
//! in Protobuf.

/// The client's preface and SETTINGS without values.
pub(crate) const OPENING: &[u8] = b"PRI * HTTP/2.0\r\n\r\nSM\r\n\r\n\0\0\0\x04\0\0\0\0\0";

/// SETTINGS with at most 100 streams and header lists of at most 16,384 bytes.
pub(crate) const SETTINGS: &[u8] = b"\0\0\x0c\x04\0\0\0\0\0\0\x03\0\0\0d\0\x06\0\0@\0";

/// SETTINGS with ACK.
pub(crate) const ACK: &[u8] = b"\0\0\0\x04\x01\0\0\0\0";

/// HEADERS of GetCapabilities on stream 1.
pub(crate) const ASKS_CAPABILITIES: &[u8] =
    b"\0\0\x54\x01\x04\0\0\0\x01\x83\x86\x04=/build.bazel.remote.execution.v2.Capabilities/GetCapabilities\x0f\x10\x10application/grpc";

/// DATA with a message of no bytes, and END_STREAM.
pub(crate) const EMPTY_MESSAGE: &[u8] = b"\0\0\x05\0\x01\0\0\0\x01\0\0\0\0\0";

/// WINDOW_UPDATE of 5 on stream 0.
pub(crate) const GRANT_5: &[u8] = b"\0\0\x04\x08\0\0\0\0\0\0\0\0\x05";

/// HEADERS that begin the answer.
pub(crate) const BEGUN: &[u8] = b"\0\0\x14\x01\x04\0\0\0\x01\x88\x0f\x10\x10application/grpc";

/// DATA with the capabilities.
pub(crate) const CAPABILITIES: &[u8] =
    b"\0\0\x1b\0\0\0\0\0\x01\0\0\0\0\x16\n\n\n\x01\x01 \x80\x80\xe0\x01(\x02\x22\x02\x08\x02*\x04\x08\x02\x10\x03";

/// Trailers with status 0.
pub(crate) const OK: &[u8] = b"\0\0\x0f\x01\x05\0\0\0\x01\0\x0bgrpc-status\x010";

/// HEADERS of BatchUpdateBlobs on stream 1.
pub(crate) const ASKS_BATCH: &[u8] =
    b"\0\0\x62\x01\x04\0\0\0\x01\x83\x86\x04K/build.bazel.remote.execution.v2.ContentAddressableStorage/BatchUpdateBlobs\x0f\x10\x10application/grpc";

/// DATA that gives `abc`, and END_STREAM.
pub(crate) const GIVES_ABC: &[u8] =
    b"\0\0\x52\0\x01\0\0\0\x01\0\0\0\0M\x12K\nD\n@ba7816bf8f01cfea414140de5dae2223b00361a396177a9cb410ff61f20015ad\x10\x03\x12\x03abc";

/// WINDOW_UPDATE of 82 on stream 0.
pub(crate) const GRANT_82: &[u8] = b"\0\0\x04\x08\0\0\0\0\0\0\0\0R";

/// DATA that says that `abc` is stored.
pub(crate) const STORED_ABC: &[u8] =
    b"\0\0\x4f\0\0\0\0\0\x01\0\0\0\0J\nH\nD\n@ba7816bf8f01cfea414140de5dae2223b00361a396177a9cb410ff61f20015ad\x10\x03\x12\0";

/// DATA that says that the shelf failed at `abc`.
pub(crate) const SHELF_FAILED: &[u8] =
    b"\0\0\x5e\0\0\0\0\0\x01\0\0\0\0Y\nW\nD\n@ba7816bf8f01cfea414140de5dae2223b00361a396177a9cb410ff61f20015ad\x10\x03\x12\x0f\x08\r\x12\x0bstore fault";

/// DATA that says that there is no space for `abc`.
pub(crate) const NO_SPACE: &[u8] =
    b"\0\0\x6b\0\0\0\0\0\x01\0\0\0\0f\nd\nD\n@ba7816bf8f01cfea414140de5dae2223b00361a396177a9cb410ff61f20015ad\x10\x03\x12\x1c\x08\x08\x12\x18guarded 0 plus 3 above 2";

/// DATA that gives `abc` under the digest of `abd`, and END_STREAM.
pub(crate) const GIVES_AS_ABD: &[u8] =
    b"\0\0\x52\0\x01\0\0\0\x01\0\0\0\0M\x12K\nD\n@a52d159f262b2c6ddb724a61840befc36eb30c88877a4030b65cbe86298449c9\x10\x03\x12\x03abc";

/// DATA that says which digest was wanted and which one the bytes have.
pub(crate) const MISMATCH: &[u8] =
    b"\0\0\xe5\0\0\0\0\0\x01\0\0\0\0\xe0\n\xdd\x01\nD\n@a52d159f262b2c6ddb724a61840befc36eb30c88877a4030b65cbe86298449c9\x10\x03\x12\x94\x01\x08\x03\x12\x8f\x01want a52d159f262b2c6ddb724a61840befc36eb30c88877a4030b65cbe86298449c9/3, got ba7816bf8f01cfea414140de5dae2223b00361a396177a9cb410ff61f20015ad/3";

/// DATA that gives `abc` under its hash in upper case, and END_STREAM.
pub(crate) const GIVES_IN_UPPER_CASE: &[u8] =
    b"\0\0\x52\0\x01\0\0\0\x01\0\0\0\0M\x12K\nD\n@BA7816BF8F01CFEA414140DE5DAE2223B00361A396177A9CB410FF61F20015AD\x10\x03\x12\x03abc";

/// Trailers with status 3.
pub(crate) const BAD_DIGEST: &[u8] =
    b"\0\0\x28\x01\x05\0\0\0\x01\0\x0bgrpc-status\x013\0\x0cgrpc-message\nbad digest";

/// DATA with no bytes, and END_STREAM.
pub(crate) const NOTHING: &[u8] = b"\0\0\0\0\x01\0\0\0\x01";

/// Trailers with status 3.
pub(crate) const NO_MESSAGE: &[u8] =
    b"\0\0\x28\x01\x05\0\0\0\x01\0\x0bgrpc-status\x013\0\x0cgrpc-message\nno message";

/// HEADERS of an unknown path on stream 1.
pub(crate) const ASKS_UNKNOWN: &[u8] =
    b"\0\0\x1b\x01\x04\0\0\0\x01\x83\x86\x04\x04/a/B\x0f\x10\x10application/grpc";

/// HEADERS of ByteStream's Write on stream 1.
pub(crate) const ASKS_UNBUILT: &[u8] =
    b"\0\0\x3a\x01\x04\0\0\0\x01\x83\x86\x04\x23/google.bytestream.ByteStream/Write\x0f\x10\x10application/grpc";

/// Trailers with status 12.
pub(crate) const NOT_BUILT: &[u8] =
    b"\0\0\x28\x01\x05\0\0\0\x01\0\x0bgrpc-status\x0212\0\x0cgrpc-message\x09not built";

/// Trailers with status 12.
pub(crate) const NO_SUCH_METHOD: &[u8] =
    b"\0\0\x2d\x01\x05\0\0\0\x01\0\x0bgrpc-status\x0212\0\x0cgrpc-message\x0eno such method";

/// RST_STREAM with NO_ERROR on stream 1.
pub(crate) const RESET: &[u8] = b"\0\0\x04\x03\0\0\0\0\x01\0\0\0\0";

/// RST_STREAM with CANCEL on stream 1.
pub(crate) const CANCEL: &[u8] = b"\0\0\x04\x03\0\0\0\0\x01\0\0\0\x08";

/// GOAWAY with PROTOCOL_ERROR.
pub(crate) const GOAWAY_PROTOCOL: &[u8] = b"\0\0\x08\x07\0\0\0\0\0\0\0\0\0\0\0\0\x01";

/// GOAWAY with FRAME_SIZE_ERROR.
pub(crate) const GOAWAY_SIZE: &[u8] = b"\0\0\x08\x07\0\0\0\0\0\0\0\0\0\0\0\0\x06";

/// GOAWAY of a client that goes.
pub(crate) const GOAWAY: &[u8] = b"\0\0\x08\x07\0\0\0\0\0\0\0\0\0\0\0\0\0";

/// HEADERS on stream 2.
pub(crate) const HEADERS_ON_2: &[u8] =
    b"\0\0\x1b\x01\x04\0\0\0\x02\x83\x86\x04\x04/a/B\x0f\x10\x10application/grpc";

/// The header of a frame of 16,385 bytes.
pub(crate) const LONG_FRAME: &[u8] = b"\0\x40\x01\0\0\0\0\0\x01";

/// RST_STREAM with REFUSED_STREAM on stream 1.
pub(crate) const REFUSED: &[u8] = b"\0\0\x04\x03\0\0\0\0\x01\0\0\0\x07";
