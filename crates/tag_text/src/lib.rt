//! A reader of element documents: UTF-8 texts of elements with attributes, the profile of XML in which keyrings and
//! recorded logs of telegrams are written. It gives the starts and ends of the elements in order.
//!
//! Nothing is read by recursion.
#![tactic(auto)]

mod law;
mod octets;
mod open;
mod piece;
mod reader;
mod scan;
mod tag;
#[cfg(test)]
mod tests;
mod text;
mod value;

pub use law::{names_once, one_element, one_outcome};
pub use reader::TagReader;
pub use tag::{Tag, TagFault};
pub use text::{Attributes, Text};
