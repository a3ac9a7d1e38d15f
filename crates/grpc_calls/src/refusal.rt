//! `Refusal`.

ghost use Rattle.std.specs.Prelude.{◌≡◌, ◌≤◌, length};
ghost use Rattle.grpc_calls.specs.Headers.{refusal_text};

/// Why a request is answered by a status of HTTP alone.
#[derive(Clone, Copy, Debug)]
pub(crate) enum Refusal {
    /// Its method isn't POST.
    Method,
    /// The type of its content isn't that of gRPC.
    ContentType,
}

impl Refusal {
    /// The status of HTTP.
    pub(crate) fn text(self) -> &'static str
        ensures value { result.now ≡ refusal_text self }
        ensures short { length result.now ≤ 3 }
    {
        match self {
            Refusal::Method => "405",
            Refusal::ContentType => "415",
        }
    }
}
