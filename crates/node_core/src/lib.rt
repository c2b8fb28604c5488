//! A device of a KNX Data Secure installation, over every memory that keeps its octets without power.
//!
//! A node judges what it receives, raises the mark of a telegram in its memory before it acts on it, draws each
//! number under which it seals once, answers reads and requests of a synchronisation, and may lose power inside each
//! write. What its calls do is mathematics without a memory in it: a transition of its standing, with the raises of
//! its memory in their order.
//!
//! Only building a configuration and starting a node take memory.
#![tactic(auto)]

mod config;
mod fault;
mod message;
mod node;
mod outcome;
#[cfg(test)]
mod tests;

pub use config::Config;
pub use fault::{ConfigFault, SendFault, StartRefused};
pub use node::Node;
pub use outcome::{Act, Addressee, Outcome};
