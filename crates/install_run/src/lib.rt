//! An installation of KNX Data Secure devices over simulated memories, stepped by events.
//!
//! What an event makes of an installation is one function from the world before to the outcome and the world after.
#![tactic(auto)]

mod air;
mod call;
mod first;
mod law;
mod octets;
mod place;
mod power;
mod slot;
mod take;
#[cfg(test)]
mod tests;
mod turn;
mod world;

pub use law::{acted_on_is_verified, deliverable_is_acted_on};
pub use step_text::{Entry, Step, StepOutcome};
pub use world::World;
