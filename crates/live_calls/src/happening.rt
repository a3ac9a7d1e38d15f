//! `Happening`.

use casd_base::Status;
use proto_wire::Bytes;

/// What happens to a call.
#[derive(Debug, Drop)]
pub enum Happening {
    Message(Bytes),
    HalfClosed,
    /// Its stream was reset, by the peer or for an offence of the peer.
    Cancelled,
    /// Its messages are malformed.
    Broken(Status),
    /// It may give its next response.
    Woken,
}
