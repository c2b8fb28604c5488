//! The application layer's plain part: what an octet of transport control means, which service a
//! code names, and an application PDU of a service and its data.
//!
//! The tables are those of ISO/IEC 14543-3-1 (KNX, transport and application layer), cut to the
//! services of this profile.
#![tactic(auto)]

mod apdu;
mod object;
mod service;
mod tpci;

pub use apdu::{Apdu, BadApdu, read_apdu, write_apdu};
pub use object::BadObject;
pub use service::{Service, service_name, service_of};
pub use tpci::Tpci;

#[cfg(test)]
mod tests;
