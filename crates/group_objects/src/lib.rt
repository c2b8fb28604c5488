//! Group objects of a device: the value that each holds, the group whose telegrams read and write it, and the flags
//! that say which telegrams may. What a telegram does to an object, and the application PDU that carries an object's
//! value.
//!
//! Only building a list of objects takes memory.
#![tactic(auto)]

mod objects;
mod row;
mod service;
#[cfg(test)]
mod tests;
mod value;

pub use objects::{Objects, ObjectsFault, SetFault};
pub use row::{Effect, Flags, ObjectRow};
pub use service::SendService;
pub use value::Value;
