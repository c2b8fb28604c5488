//! The records of a file, one after the other: of a list of frames, read in pieces with room for one line, or of a
//! recorded log of telegrams.
#![tactic(auto)]

mod fault;
mod lead;
mod log;
mod log_text;
mod margin;
mod octets;
mod part;
mod reader;
mod records;
mod stage;
mod telegram;
#[cfg(test)]
mod tests;

pub use fault::{Field, RecordFault};
pub use records::{Record, Records};
