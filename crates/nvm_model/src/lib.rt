//! A memory that keeps its octets without power and may lose power inside any write, and what a cut may leave in it.
//!
//! A cut inside a write leaves any octets in the range of that write and all others as they were; so does a write that
//! fails. What a cut left reads the same each time. After a cut every call answers Cut until power returns. A contract
//! speaks of each moment inside a call by the images that the memory tells: what a cut at some moment since a value of
//! the clock may have left.
//!
//! `Nvm` is that memory. What a call does is said of a list of writes, of which one call is the case of one element, so
//! that calls compose. `write_gated` writes octets so that at each moment the old ones count or the whole new ones.
//! `SimNvm` is a memory whose cuts and faults are armed beforehand: it tells its plan, and `strike` is what a plan does
//! to a list of writes.
#![tactic(auto)]

mod fault;
mod gate;
mod nvm;
mod plan;
mod sim;
#[cfg(test)]
mod tests;
pub mod trial;
mod turns;

pub use fault::NvmFault;
pub use gate::{OPEN, write_gated};
pub use nvm::Nvm;
pub use plan::{Armed, Plan};
pub use sim::SimNvm;
pub use turns::{Piece, write_in_turn};
