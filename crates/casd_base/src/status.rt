//! `Status`.

use crate::code::Code;
use proto_wire::Text;

/// How a call ended: the code, and a text that is empty where the code is `Ok`.
#[derive(Debug, Drop)]
pub struct Status {
    pub code: Code,
    pub text: Text,
}
