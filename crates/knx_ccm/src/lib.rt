//! Sealing and opening of the APDUs of KNX Data Secure, by AES-128 in CBC-MAC and counter mode. No call takes memory.
#![tactic(auto)]

mod code;
mod head;
mod opening;
mod sealing;
#[cfg(test)]
mod tests;

pub use head::Head;
pub use opening::{CodeDiffers, open};
pub use sealing::seal;
