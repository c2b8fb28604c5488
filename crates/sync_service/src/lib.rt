//! Synchronisation of numbers between devices: the two telegrams of it, and the challenges that wait for their answers.
#![tactic(auto)]

mod book;
mod frames;
mod pending;
#[cfg(test)]
mod tests;

pub use book::AskedBook;
pub use frames::{answer, ask};
pub use pending::{OpenChallenge, Pending};
