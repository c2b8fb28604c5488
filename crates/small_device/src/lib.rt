//! A device in three calls over a store of its marks and numbers: it starts, it sends under a number of its own, and it
//! takes a telegram, whose number it keeps before it hands out what stands in it.
//!
//! They show how a device calls `seq_store`, over a memory of any implementation. A device with objects, tools and
//! synchronisation is `node_core`.
#![tactic(auto)]

mod mirror;
mod sending;
mod starting;
mod taking;
#[cfg(test)]
mod tests;

pub use mirror::{MirroredNvm, Part};
pub use sending::send;
pub use starting::{NotStarted, start};
pub use taking::take;
