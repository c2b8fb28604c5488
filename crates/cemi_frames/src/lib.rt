//! Frames of a KNX twisted pair line as a recorder or an interface hands them over: cEMI messages
//! (KNX common external message interface) of data, and raw TP1 frames from a bus monitor.
#![tactic(auto)]

mod frame;
mod law;
mod reading;
mod writing;

pub use frame::{Code, Frame, NotFrame};
pub use law::one_frame_or_one_fault;
pub use reading::read_frame;
pub use writing::{FrameParts, write_busmon, write_ldata};

#[cfg(test)]
mod tests;
