//! HTTP/2 frames (RFC 9113, sections 3.4, 4.1 and 6): bytes that are fed in any pieces become frames, and frames
//! become bytes. It knows neither streams nor windows: the crate above judges what a frame means.
#![tactic(auto)]

mod fault;
mod frame;
pub mod laws;
mod layout;
mod parse;
mod reader;
mod write;

pub use fault::FrameFault;
pub use frame::{Frame, Settings};
pub use reader::FrameReader;
pub use write::{write_data, write_frame};

#[cfg(test)]
mod tests;
