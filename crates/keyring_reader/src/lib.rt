//! The keyrings of an installation, as the commissioning software writes them: a signed element document with the keys
//! of groups and of devices, each wrapped under a key of the password. A keyring gives the rows of the installation.
#![tactic(auto)]

mod attribute;
mod contents;
mod fault;
mod form;
mod gathered;
mod keyring;
mod keys;
mod kind;
mod law;
mod roles;
mod said;
mod signature;
mod tags;
#[cfg(test)]
mod tests;

pub use attribute::Attribute;
pub use fault::KeyringFault;
pub use keyring::{Keyring, read_keyring};
pub use law::{blocks_are_found, elements_are_nested, first_refusal_is_told, lists_ascend};
