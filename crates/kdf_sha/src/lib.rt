//! The derivation of keys from passwords: HMAC (RFC 2104) and PBKDF2 (RFC 8018), both over SHA-256.
//!
//! No call takes memory.
#![tactic(auto)]

mod hmac;
mod pbkdf2;
#[cfg(test)]
mod tests;
mod xor;

pub use hmac::hmac256;
pub use pbkdf2::pbkdf2_256;
