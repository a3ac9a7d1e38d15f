//! The methods that are served, by their paths.

ghost use Rattle.std.specs.Prelude.{◌≡◌, nat_eq};
ghost use Rattle.std.specs.List.{list_any};
ghost use Rattle.std.specs.Cmp.Lexicographic.{pointwise};
ghost use Rattle.live_calls.specs.Methods.{path_of, method_of, is_unbuilt};

/// A method that is served. All take one message.
#[derive(Clone, Copy, Debug, PartialEq, Eq)]
pub enum Method {
    FindMissingBlobs,
    BatchUpdateBlobs,
    BatchReadBlobs,
    Read,
    QueryWriteStatus,
    GetCapabilities,
}

const METHODS: [Method; 6] = [
    Method::FindMissingBlobs,
    Method::BatchUpdateBlobs,
    Method::BatchReadBlobs,
    Method::Read,
    Method::QueryWriteStatus,
    Method::GetCapabilities,
];

impl Method {
    /// The path of its requests.
    pub fn path(self) -> &'static str
        ensures { result.now ≡ path_of self }
    {
        match self {
            Method::FindMissingBlobs => {
                "/build.bazel.remote.execution.v2.ContentAddressableStorage/FindMissingBlobs"
            }
            Method::BatchUpdateBlobs => {
                "/build.bazel.remote.execution.v2.ContentAddressableStorage/BatchUpdateBlobs"
            }
            Method::BatchReadBlobs => {
                "/build.bazel.remote.execution.v2.ContentAddressableStorage/BatchReadBlobs"
            }
            Method::Read => "/google.bytestream.ByteStream/Read",
            Method::QueryWriteStatus => "/google.bytestream.ByteStream/QueryWriteStatus",
            Method::GetCapabilities => {
                "/build.bazel.remote.execution.v2.Capabilities/GetCapabilities"
            }
        }
    }

    /// The method of a path, if it is one that is served. It takes no memory.
    #[tactic(auto, unfolding(crate::specs::Methods::method_of))]
    pub fn of_path(path: &[u8]) -> Option<Method>
        ensures { result ≡ method_of path.now }
    {
        METHODS
            .iter()
            .copied()
            .find(|method| method.path().as_bytes() == path)
    }
}

/// The paths of the methods that are not served yet.
const UNBUILT: [&str; 9] = [
    "/build.bazel.remote.execution.v2.ContentAddressableStorage/GetTree",
    "/google.bytestream.ByteStream/Write",
    "/build.buildgrid.LocalContentAddressableStorage/FetchMissingBlobs",
    "/build.buildgrid.LocalContentAddressableStorage/UploadMissingBlobs",
    "/build.buildgrid.LocalContentAddressableStorage/FetchTree",
    "/build.buildgrid.LocalContentAddressableStorage/UploadTree",
    "/build.buildgrid.LocalContentAddressableStorage/StageTree",
    "/build.buildgrid.LocalContentAddressableStorage/CaptureTree",
    "/build.buildgrid.LocalContentAddressableStorage/CaptureFiles",
];

/// Whether a path is one of these.
fn is_one_of(paths: &[&str], path: &[u8]) -> bool
    ensures { result ≡ list_any (λ p. pointwise nat_eq p.now path.now) paths.now }
{
    paths.iter().any(|one| one.as_bytes() == path)
}

/// Whether a path is that of a method which is not served yet.
#[tactic(auto, unfolding(crate::specs::Methods::is_unbuilt))]
pub(crate) fn is_unbuilt(path: &[u8]) -> bool
    ensures { result ≡ is_unbuilt path.now }
{
    is_one_of(&UNBUILT, path)
}
