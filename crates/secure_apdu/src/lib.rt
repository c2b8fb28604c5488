//! Secure frames of KNX Data Secure: which frames are secure, what stands in them, and how they are sealed and opened.
//! No call takes memory.
#![tactic(auto)]

mod buffer;
mod opening;
mod sealing;
mod secure;
mod sync;
#[cfg(test)]
mod tests;

pub use buffer::{ApduBuf, FrameBuf, OctetBuf};
pub use opening::open_frame;
pub use sealing::{SendHead, seal_frame};
pub use secure::{BadSecure, Secure, is_secure, read_secure};
pub use sync::{sync_values, xor_number};
