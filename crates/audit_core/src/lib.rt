//! The audit of a recording: frames are judged one after the other under the rows of an installation, each with the
//! marks and the challenges that those before it left, and each gives a line of the report.
#![tactic(auto)]

mod audit;
mod judging;
mod line;
mod marks;
mod past;
mod print;
mod tally;
#[cfg(test)]
mod tests;

pub use audit::Audit;
pub use exchange_law::exchange_is_judged;
pub use line::{Addresses, Line};
pub use print::{print_line, print_line_with};
