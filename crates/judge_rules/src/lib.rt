//! The judgement of secured telegrams: the verdict on a frame, what a receiver keeps of it, and how it is told. No call
//! takes memory.
#![tactic(auto)]

mod alarm;
mod data;
mod entered;
mod entry;
mod judgement;
mod node_lanes;
#[cfg(test)]
mod tests;
mod text;
mod verdict;

pub use alarm::is_alarm;
pub use entry::{Entry, lane_of, secure_parts};
pub use judgement::judge;
pub use node_lanes::nodes_keep_on_their_lanes;
pub use text::{print_octets, put_verdict, write_verdict};
pub use verdict::{BadService, Judgement, Verdict};
