//! Values of group objects as text: the datapoint types of the KNX specification (chapter 3/7/2) that this profile has,
//! and the texts in which the program prints and reads their values.
#![tactic(auto)]

mod calendar;
mod characters;
mod clock;
mod decoding;
mod dpt;
mod encoding;
mod number_texts;
mod numbers;
mod shown;
mod switch;
#[cfg(test)]
mod tests;
mod types;
mod value_octets;
mod value_text;

pub use decoding::{BadValue, decode};
pub use dpt::Dpt;
pub use encoding::encode;
pub use shown::ShownValue;
pub use types::{Types, TypesFault, read_types};
use value_octets::ValueOctets;
pub use value_text::ValueText;
