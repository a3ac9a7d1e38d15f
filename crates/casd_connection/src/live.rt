//! `Live`.

ghost use Rattle.std.specs.Prelude.{◌≡◌, ◌<◌, length, slice_get, Some, IfSome};
ghost use Rattle.casd_connection.specs.Exchange.{place_in};

use blob_store::Shelf;
use live_calls::Place;

/// A call that waits.
#[derive(Drop)]
pub(crate) struct Live<P> {
    pub(crate) stream: u32,
    pub(crate) place: P,
}

/// Where the call of a stream stands.
pub(crate) fn place_in<K: Shelf>(live: &[Live<Place<K>>], stream: u32) -> Option<usize>
    ensures place { result ≡ place_in stream live.now }
    ensures within { IfSome result (λ i. i < length live.now) }
{
    live.iter().position(|call| call.stream == stream)
}
