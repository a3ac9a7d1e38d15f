//! The messages of the calls (Remote Execution API v2, ByteStream, and the local calls), each read and written by its
//! table: what a field means, what a missing one defaults to, and how it is spelled are defined once for all of them.
#![tactic(auto)]

mod blobs;
mod byte_stream;
mod capabilities;
mod capture;
mod error;
mod get;
pub mod laws;
mod message;
mod put;
mod stage;
mod status;
mod transfer;
mod trees;

pub use blobs::{
    BatchReadBlobsRequest, BatchReadBlobsResponse, BatchReadBlobsResponseItem1,
    BatchUpdateBlobsRequest, BatchUpdateBlobsRequestItem2, BatchUpdateBlobsResponse,
    BatchUpdateBlobsResponseItem1, FindMissingBlobsRequest, FindMissingBlobsResponse,
};
pub use byte_stream::{
    QueryWriteStatusRequest, QueryWriteStatusResponse, ReadRequest, ReadResponse, WriteRequest,
    WriteResponse,
};
pub use capabilities::{CacheCapabilities, GetCapabilitiesRequest, SemVer, ServerCapabilities};
pub use capture::{
    CaptureFilesRequest, CaptureFilesResponse, CaptureFilesResponseItem1, CaptureTreeRequest,
    CaptureTreeResponse, CaptureTreeResponseItem1,
};
pub use error::MessageError;
pub use message::Message;
pub use stage::{StageTreeRequest, StageTreeResponse};
pub use status::RpcStatus;
pub use transfer::{
    FetchMissingBlobsRequest, FetchMissingBlobsResponse, FetchMissingBlobsResponseItem1,
    FetchTreeRequest, FetchTreeResponse, UploadMissingBlobsRequest, UploadMissingBlobsResponse,
    UploadMissingBlobsResponseItem1, UploadTreeRequest, UploadTreeResponse,
};
pub use trees::{GetTreeRequest, GetTreeResponse};

#[cfg(test)]
mod samples;
#[cfg(test)]
mod tests;
#[cfg(test)]
mod vectors;
