//! What every crate of the workspace stands on: addresses and decimals as text, numbers of 48 bits, the two faults, and
//! the traits through which the program sees the world outside, files and a sink of octets, with implementations in
//! memory and over the host.
#![tactic(auto)]

mod address;
mod cause;
mod count_sink;
mod decimal;
mod faults;
mod files;
mod host;
mod line;
mod mem_files;
mod mem_sink;
mod number;
mod openings;
mod shelf;
mod sink;
mod sure_files;
#[cfg(test)]
mod tests;

pub use address::{GroupAddr, IndAddr};
pub use cause::Cause;
pub use count_sink::CountSink;
pub use decimal::{put_decimal, put_octet, read_decimal};
pub use faults::{Failed, NoMemory};
pub use files::Files;
pub use host::{HostFiles, HostSink};
pub use line::LineBuf;
pub use mem_files::MemFiles;
pub use mem_sink::MemSink;
pub use number::Number48;
pub use sink::{Sink, print_text};
pub use sure_files::SureFiles;
