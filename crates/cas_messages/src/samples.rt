//! Each message with every field set.

use super::tests::read_hex;
use super::vectors::*;
use super::*;
use digest_types::{Digest, Digests};
use proto_wire::{Bytes, Listed, Text};
use std::alloc::Global;
use std::test::Fail;

/// A message with a value for its test.
pub(crate) trait Sample: Message {
    /// Every field is set.
    fn full(alloc: Global) -> Result<Self, Fail>;
}

fn text(alloc: Global, text: &str) -> Result<Text, Fail> {
    Ok(Text::new(alloc, text)?)
}

fn texts(alloc: Global, texts: &[&str]) -> Result<Listed<Text>, Fail> {
    let mut list = Listed::new(alloc);
    for one in texts {
        list.push(text(alloc, one)?)?;
    }
    Ok(list)
}

fn bytes(alloc: Global, bytes: &[u8]) -> Result<Bytes, Fail> {
    Ok(Bytes::copy_of(alloc, bytes)?)
}

fn numbers(alloc: Global, numbers: &[i32]) -> Result<Listed<i32>, Fail> {
    Ok(Listed::from_vec(Vec::from_slice(alloc, numbers)?))
}

fn digests(alloc: Global) -> Result<Digests, Fail> {
    let mut list = Digests::new(alloc);
    list.push(Digest::of(b"abc"))?;
    list.push(Digest::empty())?;
    Ok(list)
}

// A full message, and a bare one with these bytes.
fn both<T: Sample>(alloc: Global, bare: &str) -> Result<Listed<T>, Fail> {
    let mut list = Listed::new(alloc);
    list.push(T::full(alloc)?)?;
    list.push(read_hex(alloc, bare)?)?;
    Ok(list)
}

// The bytes of a Directory with the executable file `a`, which holds "abc", and those of an empty one.
fn directories(alloc: Global) -> Result<Listed<Bytes>, Fail> {
    let mut list = Listed::new(alloc);
    list.push(bytes(alloc, DIRECTORY)?)?;
    list.push(bytes(alloc, b"")?)?;
    Ok(list)
}

const DIRECTORY: &[u8] =
    b"\x0a\x4b\x0a\x01a\x12\x44\x0a\x40ba7816bf8f01cfea414140de5dae2223b00361a396177a9cb410ff61f20015ad\x10\x03\x20\x01";

impl Sample for RpcStatus {
    fn full(alloc: Global) -> Result<RpcStatus, Fail> {
        Ok(RpcStatus {
            code: -1,
            message: text(alloc, "grüß")?,
        })
    }
}

impl Sample for FindMissingBlobsRequest {
    fn full(alloc: Global) -> Result<FindMissingBlobsRequest, Fail> {
        Ok(FindMissingBlobsRequest {
            instance_name: text(alloc, "main")?,
            blob_digests: digests(alloc)?,
            digest_function: 1,
        })
    }
}

impl Sample for FindMissingBlobsResponse {
    fn full(alloc: Global) -> Result<FindMissingBlobsResponse, Fail> {
        Ok(FindMissingBlobsResponse {
            missing_blob_digests: digests(alloc)?,
        })
    }
}

impl Sample for BatchUpdateBlobsRequestItem2 {
    fn full(alloc: Global) -> Result<BatchUpdateBlobsRequestItem2, Fail> {
        Ok(BatchUpdateBlobsRequestItem2 {
            digest: Digest::of(b"abc"),
            bytes: bytes(alloc, b"abc")?,
            compressor: 1,
        })
    }
}

impl Sample for BatchUpdateBlobsRequest {
    fn full(alloc: Global) -> Result<BatchUpdateBlobsRequest, Fail> {
        Ok(BatchUpdateBlobsRequest {
            instance_name: text(alloc, "main")?,
            requests: both(alloc, BATCH_UPDATE_BLOBS_REQUEST_ITEM2[1])?,
            digest_function: 1,
        })
    }
}

impl Sample for BatchUpdateBlobsResponseItem1 {
    fn full(alloc: Global) -> Result<BatchUpdateBlobsResponseItem1, Fail> {
        Ok(BatchUpdateBlobsResponseItem1 {
            digest: Digest::of(b"abc"),
            status: RpcStatus::full(alloc)?,
        })
    }
}

impl Sample for BatchUpdateBlobsResponse {
    fn full(alloc: Global) -> Result<BatchUpdateBlobsResponse, Fail> {
        Ok(BatchUpdateBlobsResponse {
            responses: both(alloc, BATCH_UPDATE_BLOBS_RESPONSE_ITEM1[1])?,
        })
    }
}

impl Sample for BatchReadBlobsRequest {
    fn full(alloc: Global) -> Result<BatchReadBlobsRequest, Fail> {
        Ok(BatchReadBlobsRequest {
            instance_name: text(alloc, "main")?,
            digests: digests(alloc)?,
            acceptable_compressors: numbers(alloc, &[0, 1, -1, 300])?,
            digest_function: 1,
        })
    }
}

impl Sample for BatchReadBlobsResponseItem1 {
    fn full(alloc: Global) -> Result<BatchReadBlobsResponseItem1, Fail> {
        Ok(BatchReadBlobsResponseItem1 {
            digest: Digest::of(b"abc"),
            bytes: bytes(alloc, b"abc")?,
            status: RpcStatus::full(alloc)?,
            compressor: 1,
        })
    }
}

impl Sample for BatchReadBlobsResponse {
    fn full(alloc: Global) -> Result<BatchReadBlobsResponse, Fail> {
        Ok(BatchReadBlobsResponse {
            responses: both(alloc, BATCH_READ_BLOBS_RESPONSE_ITEM1[1])?,
        })
    }
}

impl Sample for GetTreeRequest {
    fn full(alloc: Global) -> Result<GetTreeRequest, Fail> {
        Ok(GetTreeRequest {
            instance_name: text(alloc, "main")?,
            root_digest: Digest::of(b"abc"),
            page_size: -5,
            page_token: text(alloc, "next")?,
            digest_function: 1,
        })
    }
}

impl Sample for GetTreeResponse {
    fn full(alloc: Global) -> Result<GetTreeResponse, Fail> {
        Ok(GetTreeResponse {
            directories: directories(alloc)?,
            next_page_token: text(alloc, "last")?,
        })
    }
}

impl Sample for GetCapabilitiesRequest {
    fn full(alloc: Global) -> Result<GetCapabilitiesRequest, Fail> {
        Ok(GetCapabilitiesRequest {
            instance_name: text(alloc, "main")?,
        })
    }
}

impl Sample for SemVer {
    fn full(_alloc: Global) -> Result<SemVer, Fail> {
        Ok(SemVer {
            major: 2,
            minor: 3,
            patch: 4,
        })
    }
}

impl Sample for CacheCapabilities {
    fn full(alloc: Global) -> Result<CacheCapabilities, Fail> {
        Ok(CacheCapabilities {
            digest_functions: numbers(alloc, &[1, 2])?,
            max_batch_total_size_bytes: 3670016,
            symlink_absolute_path_strategy: 2,
        })
    }
}

impl Sample for ServerCapabilities {
    fn full(alloc: Global) -> Result<ServerCapabilities, Fail> {
        Ok(ServerCapabilities {
            cache_capabilities: CacheCapabilities::full(alloc)?,
            low_api_version: SemVer::full(alloc)?,
            high_api_version: SemVer::full(alloc)?,
        })
    }
}

impl Sample for ReadRequest {
    fn full(alloc: Global) -> Result<ReadRequest, Fail> {
        Ok(ReadRequest {
            resource_name: text(alloc, "blobs/x")?,
            read_offset: -1,
            read_limit: i64::MAX,
        })
    }
}

impl Sample for ReadResponse {
    fn full(alloc: Global) -> Result<ReadResponse, Fail> {
        Ok(ReadResponse {
            bytes: bytes(alloc, b"abc")?,
        })
    }
}

impl Sample for WriteRequest {
    fn full(alloc: Global) -> Result<WriteRequest, Fail> {
        Ok(WriteRequest {
            resource_name: text(alloc, "blobs/x")?,
            write_offset: 128,
            finish_write: true,
            bytes: bytes(alloc, b"abc")?,
        })
    }
}

impl Sample for WriteResponse {
    fn full(_alloc: Global) -> Result<WriteResponse, Fail> {
        Ok(WriteResponse {
            committed_size: 300,
        })
    }
}

impl Sample for QueryWriteStatusRequest {
    fn full(alloc: Global) -> Result<QueryWriteStatusRequest, Fail> {
        Ok(QueryWriteStatusRequest {
            resource_name: text(alloc, "blobs/x")?,
        })
    }
}

impl Sample for QueryWriteStatusResponse {
    fn full(_alloc: Global) -> Result<QueryWriteStatusResponse, Fail> {
        Ok(QueryWriteStatusResponse {
            committed_size: 300,
            complete: true,
        })
    }
}

impl Sample for FetchMissingBlobsRequest {
    fn full(alloc: Global) -> Result<FetchMissingBlobsRequest, Fail> {
        Ok(FetchMissingBlobsRequest {
            instance_name: text(alloc, "main")?,
            blob_digests: digests(alloc)?,
        })
    }
}

impl Sample for FetchMissingBlobsResponseItem1 {
    fn full(alloc: Global) -> Result<FetchMissingBlobsResponseItem1, Fail> {
        Ok(FetchMissingBlobsResponseItem1 {
            digest: Digest::of(b"abc"),
            status: RpcStatus::full(alloc)?,
        })
    }
}

impl Sample for FetchMissingBlobsResponse {
    fn full(alloc: Global) -> Result<FetchMissingBlobsResponse, Fail> {
        Ok(FetchMissingBlobsResponse {
            responses: both(alloc, FETCH_MISSING_BLOBS_RESPONSE_ITEM1[1])?,
        })
    }
}

impl Sample for UploadMissingBlobsRequest {
    fn full(alloc: Global) -> Result<UploadMissingBlobsRequest, Fail> {
        Ok(UploadMissingBlobsRequest {
            instance_name: text(alloc, "main")?,
            blob_digests: digests(alloc)?,
        })
    }
}

impl Sample for UploadMissingBlobsResponseItem1 {
    fn full(alloc: Global) -> Result<UploadMissingBlobsResponseItem1, Fail> {
        Ok(UploadMissingBlobsResponseItem1 {
            digest: Digest::of(b"abc"),
            status: RpcStatus::full(alloc)?,
        })
    }
}

impl Sample for UploadMissingBlobsResponse {
    fn full(alloc: Global) -> Result<UploadMissingBlobsResponse, Fail> {
        Ok(UploadMissingBlobsResponse {
            responses: both(alloc, UPLOAD_MISSING_BLOBS_RESPONSE_ITEM1[1])?,
        })
    }
}

impl Sample for FetchTreeRequest {
    fn full(alloc: Global) -> Result<FetchTreeRequest, Fail> {
        Ok(FetchTreeRequest {
            instance_name: text(alloc, "main")?,
            root_digest: Digest::of(b"abc"),
            fetch_file_blobs: true,
        })
    }
}

impl Sample for FetchTreeResponse {
    fn full(_alloc: Global) -> Result<FetchTreeResponse, Fail> {
        Ok(FetchTreeResponse)
    }
}

impl Sample for UploadTreeRequest {
    fn full(alloc: Global) -> Result<UploadTreeRequest, Fail> {
        Ok(UploadTreeRequest {
            instance_name: text(alloc, "main")?,
            root_digest: Digest::of(b"abc"),
        })
    }
}

impl Sample for UploadTreeResponse {
    fn full(_alloc: Global) -> Result<UploadTreeResponse, Fail> {
        Ok(UploadTreeResponse)
    }
}

impl Sample for StageTreeRequest {
    fn full(alloc: Global) -> Result<StageTreeRequest, Fail> {
        Ok(StageTreeRequest {
            instance_name: text(alloc, "main")?,
            root_digest: Some(Digest::of(b"abc")),
            path: text(alloc, "/a/b")?,
        })
    }
}

impl Sample for StageTreeResponse {
    fn full(alloc: Global) -> Result<StageTreeResponse, Fail> {
        Ok(StageTreeResponse {
            path: text(alloc, "/a/b")?,
        })
    }
}

impl Sample for CaptureTreeRequest {
    fn full(alloc: Global) -> Result<CaptureTreeRequest, Fail> {
        Ok(CaptureTreeRequest {
            instance_name: text(alloc, "main")?,
            path: texts(alloc, &["/a", "", "/b"])?,
            bypass_local_cache: true,
            node_properties: texts(alloc, &["mtime"])?,
        })
    }
}

impl Sample for CaptureTreeResponseItem1 {
    fn full(alloc: Global) -> Result<CaptureTreeResponseItem1, Fail> {
        Ok(CaptureTreeResponseItem1 {
            path: text(alloc, "/a/b")?,
            tree_digest: Some(Digest::of(b"abc")),
            status: RpcStatus::full(alloc)?,
        })
    }
}

impl Sample for CaptureTreeResponse {
    fn full(alloc: Global) -> Result<CaptureTreeResponse, Fail> {
        Ok(CaptureTreeResponse {
            responses: both(alloc, CAPTURE_TREE_RESPONSE_ITEM1[1])?,
        })
    }
}

impl Sample for CaptureFilesRequest {
    fn full(alloc: Global) -> Result<CaptureFilesRequest, Fail> {
        Ok(CaptureFilesRequest {
            instance_name: text(alloc, "main")?,
            path: texts(alloc, &["/a", "", "/b"])?,
            bypass_local_cache: true,
            node_properties: texts(alloc, &["mtime"])?,
        })
    }
}

impl Sample for CaptureFilesResponseItem1 {
    fn full(alloc: Global) -> Result<CaptureFilesResponseItem1, Fail> {
        Ok(CaptureFilesResponseItem1 {
            path: text(alloc, "/a/b")?,
            digest: Some(Digest::of(b"abc")),
            status: RpcStatus::full(alloc)?,
            is_executable: true,
        })
    }
}

impl Sample for CaptureFilesResponse {
    fn full(alloc: Global) -> Result<CaptureFilesResponse, Fail> {
        Ok(CaptureFilesResponse {
            responses: both(alloc, CAPTURE_FILES_RESPONSE_ITEM1[1])?,
        })
    }
}
