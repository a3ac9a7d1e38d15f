use super::samples::Sample;
use super::vectors::*;
use super::*;
use digest_types::unhex;
use proto_wire::WireError;
use std::alloc::Global;
use std::process::Abort;
use std::test::*;

fn bytes_of(alloc: Global, text: &str) -> Result<Vec<u8>, Fail> {
    let bytes = unhex(alloc, text.as_bytes())?.ok_or("the text is hex")?;
    Ok(bytes)
}

/// The message that the bytes in hex spell.
pub(crate) fn read_hex<T: Message>(alloc: Global, text: &str) -> Result<T, Fail> {
    let bytes = bytes_of(alloc, text)?;
    let message = T::read(alloc, bytes.as_slice()).ok().ok_or("a message")?;
    Ok(message)
}

// The message is written as these bytes. That they are read as the message again is proved.
fn expect<T: Message>(rt: &impl Abort, alloc: Global, message: &T, text: &str) -> Result<(), Fail> {
    let bytes = bytes_of(alloc, text)?;
    let written = message.write(alloc)?;
    assert_eq!(rt; written.as_slice(), bytes.as_slice());
    Ok(())
}

// The bytes of the message with every field set, and of the one with none but the required digests.
fn expect_both<T: Sample>(rt: &impl Abort, alloc: Global, texts: [&str; 2]) -> Result<(), Fail> {
    expect(rt, alloc, &T::full(alloc)?, texts[0])?;
    let bare: T = read_hex(alloc, texts[1])?;
    expect(rt, alloc, &bare, texts[1])
}

#[test]
fn the_message_of_a_status(rt: HostRuntime) -> Result<(), Fail> {
    let alloc = rt.alloc();
    expect_both::<RpcStatus>(&rt, alloc, RPC_STATUS)?;
    Ok(())
}

#[test]
fn the_messages_that_find_blobs(rt: HostRuntime) -> Result<(), Fail> {
    let alloc = rt.alloc();
    expect_both::<FindMissingBlobsRequest>(&rt, alloc, FIND_MISSING_BLOBS_REQUEST)?;
    expect_both::<FindMissingBlobsResponse>(&rt, alloc, FIND_MISSING_BLOBS_RESPONSE)?;
    Ok(())
}

#[test]
fn the_messages_that_update_blobs(rt: HostRuntime) -> Result<(), Fail> {
    let alloc = rt.alloc();
    expect_both::<BatchUpdateBlobsRequestItem2>(&rt, alloc, BATCH_UPDATE_BLOBS_REQUEST_ITEM2)?;
    expect_both::<BatchUpdateBlobsRequest>(&rt, alloc, BATCH_UPDATE_BLOBS_REQUEST)?;
    expect_both::<BatchUpdateBlobsResponseItem1>(&rt, alloc, BATCH_UPDATE_BLOBS_RESPONSE_ITEM1)?;
    expect_both::<BatchUpdateBlobsResponse>(&rt, alloc, BATCH_UPDATE_BLOBS_RESPONSE)?;
    Ok(())
}

#[test]
fn the_messages_that_read_blobs(rt: HostRuntime) -> Result<(), Fail> {
    let alloc = rt.alloc();
    expect_both::<BatchReadBlobsRequest>(&rt, alloc, BATCH_READ_BLOBS_REQUEST)?;
    expect_both::<BatchReadBlobsResponseItem1>(&rt, alloc, BATCH_READ_BLOBS_RESPONSE_ITEM1)?;
    expect_both::<BatchReadBlobsResponse>(&rt, alloc, BATCH_READ_BLOBS_RESPONSE)?;
    Ok(())
}

#[test]
fn the_messages_of_get_tree(rt: HostRuntime) -> Result<(), Fail> {
    let alloc = rt.alloc();
    expect_both::<GetTreeRequest>(&rt, alloc, GET_TREE_REQUEST)?;
    expect_both::<GetTreeResponse>(&rt, alloc, GET_TREE_RESPONSE)?;
    Ok(())
}

#[test]
fn the_messages_of_capabilities(rt: HostRuntime) -> Result<(), Fail> {
    let alloc = rt.alloc();
    expect_both::<GetCapabilitiesRequest>(&rt, alloc, GET_CAPABILITIES_REQUEST)?;
    expect_both::<SemVer>(&rt, alloc, SEM_VER)?;
    expect_both::<CacheCapabilities>(&rt, alloc, CACHE_CAPABILITIES)?;
    expect_both::<ServerCapabilities>(&rt, alloc, SERVER_CAPABILITIES)?;
    Ok(())
}

#[test]
fn the_messages_of_byte_stream(rt: HostRuntime) -> Result<(), Fail> {
    let alloc = rt.alloc();
    expect_both::<ReadRequest>(&rt, alloc, READ_REQUEST)?;
    expect_both::<ReadResponse>(&rt, alloc, READ_RESPONSE)?;
    expect_both::<WriteRequest>(&rt, alloc, WRITE_REQUEST)?;
    expect_both::<WriteResponse>(&rt, alloc, WRITE_RESPONSE)?;
    expect_both::<QueryWriteStatusRequest>(&rt, alloc, QUERY_WRITE_STATUS_REQUEST)?;
    expect_both::<QueryWriteStatusResponse>(&rt, alloc, QUERY_WRITE_STATUS_RESPONSE)?;
    Ok(())
}

#[test]
fn the_messages_that_fetch(rt: HostRuntime) -> Result<(), Fail> {
    let alloc = rt.alloc();
    expect_both::<FetchMissingBlobsRequest>(&rt, alloc, FETCH_MISSING_BLOBS_REQUEST)?;
    expect_both::<FetchMissingBlobsResponseItem1>(&rt, alloc, FETCH_MISSING_BLOBS_RESPONSE_ITEM1)?;
    expect_both::<FetchMissingBlobsResponse>(&rt, alloc, FETCH_MISSING_BLOBS_RESPONSE)?;
    expect_both::<FetchTreeRequest>(&rt, alloc, FETCH_TREE_REQUEST)?;
    expect_both::<FetchTreeResponse>(&rt, alloc, FETCH_TREE_RESPONSE)?;
    Ok(())
}

#[test]
fn the_messages_that_upload(rt: HostRuntime) -> Result<(), Fail> {
    let alloc = rt.alloc();
    expect_both::<UploadMissingBlobsRequest>(&rt, alloc, UPLOAD_MISSING_BLOBS_REQUEST)?;
    expect_both::<UploadMissingBlobsResponseItem1>(
        &rt,
        alloc,
        UPLOAD_MISSING_BLOBS_RESPONSE_ITEM1,
    )?;
    expect_both::<UploadMissingBlobsResponse>(&rt, alloc, UPLOAD_MISSING_BLOBS_RESPONSE)?;
    expect_both::<UploadTreeRequest>(&rt, alloc, UPLOAD_TREE_REQUEST)?;
    expect_both::<UploadTreeResponse>(&rt, alloc, UPLOAD_TREE_RESPONSE)?;
    Ok(())
}

#[test]
fn the_messages_that_stage(rt: HostRuntime) -> Result<(), Fail> {
    let alloc = rt.alloc();
    expect_both::<StageTreeRequest>(&rt, alloc, STAGE_TREE_REQUEST)?;
    expect_both::<StageTreeResponse>(&rt, alloc, STAGE_TREE_RESPONSE)?;
    Ok(())
}

#[test]
fn the_messages_that_capture(rt: HostRuntime) -> Result<(), Fail> {
    let alloc = rt.alloc();
    expect_both::<CaptureTreeRequest>(&rt, alloc, CAPTURE_TREE_REQUEST)?;
    expect_both::<CaptureTreeResponseItem1>(&rt, alloc, CAPTURE_TREE_RESPONSE_ITEM1)?;
    expect_both::<CaptureTreeResponse>(&rt, alloc, CAPTURE_TREE_RESPONSE)?;
    expect_both::<CaptureFilesRequest>(&rt, alloc, CAPTURE_FILES_REQUEST)?;
    expect_both::<CaptureFilesResponseItem1>(&rt, alloc, CAPTURE_FILES_RESPONSE_ITEM1)?;
    expect_both::<CaptureFilesResponse>(&rt, alloc, CAPTURE_FILES_RESPONSE)?;
    Ok(())
}

// The bytes of these parts, joined, are refused.
fn expect_fault<T: Message>(
    rt: &impl Abort,
    alloc: Global,
    parts: &[&str],
    fault: MessageError,
) -> Result<(), Fail> {
    let mut bytes = Vec::new(alloc);
    for part in parts {
        bytes.extend_from_slice(bytes_of(alloc, part)?.as_slice())?;
    }
    assert_eq!(rt;
        T::read(alloc, bytes.as_slice()).err(),
        Some(fault),
        "{parts:?}"
    );
    Ok(())
}

// Field 2 of 66 bytes: the digest of no bytes.
const EMPTY: &str =
    "12420a4065336230633434323938666331633134396166626634633839393666623932343237616534316534363439623933346361343935393931623738353262383535";

#[test]
fn faults_have_the_field_and_the_place(rt: HostRuntime) -> Result<(), Fail> {
    let cases: [(&[&str], MessageError); 6] = [
        // The instance name isn't UTF-8. Of two, the last counts.
        (&["0a01610a01ff"], MessageError::NotUtf8 { field: 1 }),
        // A digest whose hash is missing, behind two others.
        (
            &[EMPTY, EMPTY, "12021003"],
            MessageError::BadDigest { field: 2, index: 2 },
        ),
        // A digest that isn't a sequence of fields; the place counts in it.
        (
            &[EMPTY, "120310030b"],
            MessageError::Wire {
                field: 2,
                e: WireError::Group { at: 2 },
            },
        ),
        // The message isn't a sequence of fields, whatever else is wrong.
        (
            &["0a01ff1200", "0e"],
            MessageError::Wire {
                field: 0,
                e: WireError::BadTag { at: 5 },
            },
        ),
        // The fault of the lower field number comes first.
        (&["12000a01ff"], MessageError::NotUtf8 { field: 1 }),
        (
            &["1200", EMPTY],
            MessageError::BadDigest { field: 2, index: 0 },
        ),
    ];
    for (parts, fault) in cases {
        expect_fault::<FindMissingBlobsRequest>(&rt, rt.alloc(), parts, fault)?;
    }
    Ok(())
}

#[test]
fn faults_of_packed_lists_and_embedded_messages_have_their_field(
    rt: HostRuntime,
) -> Result<(), Fail> {
    let alloc = rt.alloc();
    let no_digest = MessageError::BadDigest { field: 2, index: 0 };
    let packed = MessageError::Wire {
        field: 3,
        e: WireError::Truncated { at: 68 },
    };
    let embedded = MessageError::BadDigest { field: 2, index: 1 };
    let parts = ["1246", "0a42", &EMPTY[4..], "1800", "12021801"];
    expect_fault::<GetTreeRequest>(&rt, alloc, &[], no_digest)?;
    expect_fault::<StageTreeRequest>(&rt, alloc, &["1200"], no_digest)?;
    expect_fault::<BatchReadBlobsRequest>(&rt, alloc, &[EMPTY, "1a020180"], packed)?;
    expect_fault::<BatchUpdateBlobsRequest>(&rt, alloc, &parts, embedded)
}

// The bytes are read as the message that is written as the other ones.
fn expect_same<T: Message>(
    rt: &impl Abort,
    alloc: Global,
    parts: &[&str],
    wanted: &str,
) -> Result<(), Fail> {
    let mut bytes = Vec::new(alloc);
    for part in parts {
        bytes.extend_from_slice(bytes_of(alloc, part)?.as_slice())?;
    }
    let read = T::read(alloc, bytes.as_slice()).ok().ok_or(wanted)?;
    let written = read.write(alloc)?;
    let wanted = bytes_of(alloc, wanted)?;
    assert_eq!(rt; written.as_slice(), wanted.as_slice(), "{parts:?}");
    Ok(())
}

#[test]
fn other_spellings_are_read(rt: HostRuntime) -> Result<(), Fail> {
    let cases: [(&[&str], &str); 6] = [
        // Unknown fields are skipped, and known numbers with another wire type.
        (&["780108027d000000001803"], "08021803"),
        (&["0d0000000010031801"], "10031801"),
        // Overlong varints, defaults that are written, any order. The last of a number counts.
        (&["188300088200"], "08021803"),
        (&["08011005080210031800"], "08021003"),
        // An int32 is the low 32 bits, signed.
        (&["08ffffffff0f"], "08ffffffffffffffffff01"),
        (&["08808080800810011802"], "0880808080f8ffffffff0110011802"),
    ];
    for (parts, wanted) in cases {
        expect_same::<SemVer>(&rt, rt.alloc(), parts, wanted)?;
    }
    Ok(())
}

#[test]
fn lists_are_packed_or_not_and_parts_are_joined(rt: HostRuntime) -> Result<(), Fail> {
    let alloc = rt.alloc();
    let lists = ["0a010108020a020304"];
    expect_same::<CacheCapabilities>(&rt, alloc, &lists, "0a0401020304")?;
    // A version in two parts, and a missing one, which is written.
    let parts = ["2202080122021003"];
    expect_same::<ServerCapabilities>(&rt, alloc, &parts, "0a002204080110032a00")
}

// A message of a head and a part so many times is written as it was read.
fn expect_large<T: Message>(
    rt: &impl Abort,
    alloc: Global,
    head: &str,
    part: &str,
    times: u32,
) -> Result<(), Fail> {
    let mut bytes = bytes_of(alloc, head)?;
    let part = bytes_of(alloc, part)?;
    for _ in 0..times {
        bytes.extend_from_slice(part.as_slice())?;
    }
    let read = T::read(alloc, bytes.as_slice())
        .ok()
        .ok_or("a large message")?;
    let written = read.write(alloc)?;
    assert_eq!(rt; written.as_slice(), bytes.as_slice());
    Ok(())
}

// Field 2 of 68 bytes: the empty blob to put.
const ITEM: &str =
    "12440a420a4065336230633434323938666331633134396166626634633839393666623932343237616534316534363439623933346361343935393931623738353262383535";

#[test]
fn long_lists_are_read_and_written(rt: HostRuntime) -> Result<(), Fail> {
    let alloc = rt.alloc();
    expect_large::<FindMissingBlobsRequest>(&rt, alloc, "", EMPTY, 101)?;
    expect_large::<BatchUpdateBlobsRequest>(&rt, alloc, "", ITEM, 101)?;
    expect_large::<GetTreeResponse>(&rt, alloc, "", "0a00", 101)?;
    Ok(())
}

#[test]
fn long_texts_and_contents_are_read_and_written(rt: HostRuntime) -> Result<(), Fail> {
    let alloc = rt.alloc();
    expect_large::<CaptureTreeRequest>(&rt, alloc, "", "12012f", 101)?;
    expect_large::<CacheCapabilities>(&rt, alloc, "0a65", "01", 101)?;
    // 4,000,001 bytes
    expect_large::<ReadResponse>(&rt, alloc, "528192f401", "61", 4_000_001)?;
    Ok(())
}
