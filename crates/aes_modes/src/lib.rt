//! AES-128 (FIPS 197), and three of its modes of operation: CBC and a counter stream (SP 800-38A,
//! 6.2 and 6.5), and CBC-MAC. No call takes memory. The cipher reads tables at places that depend on
//! the key and on the octets, so its time may tell of them.
#![tactic(auto)]

mod blocks;
mod cbc;
mod counter;
mod key;
mod mac;
mod rounds;
mod tables;
#[cfg(test)]
mod tests;

pub use cbc::{cbc_decrypt, cbc_encrypt};
pub use counter::ctr_apply;
pub use key::Key128;
pub use mac::{CbcMac, mac_of_pieces};
