//! The calls of ContentAddressableStorage and Capabilities (Remote Execution API v2) over any door to the store: a request that
//! was read becomes entries of the door's owner and a response or a status. What a call does is its script, a tree of entries,
//! questions to the shelf and places where memory is needed. It knows no connection.
#![tactic(auto)]

mod capable;
mod find;
mod keep;
mod limits;
mod put;
mod read;
mod served;
mod status;
mod update;

pub use capable::capabilities;
pub use find::find_missing;
pub use read::batch_read;
pub use status::{fault_status, many_messages, no_message, not_built, out_of_memory};
pub use update::batch_update;
