//! The steps of a run of an installation, and the texts by which a report tells them.
//!
//! A step is an event and what came of it. Its line tells what came of it; the end of a report tells what each node
//! and its memory hold.
#![tactic(auto)]

mod end;
mod line;
mod outcome;
mod put;
mod summary;
#[cfg(test)]
mod tests;

pub use end::{NodeEnd, print_image, print_kept, print_node, print_total, print_value};
pub use line::print_step_line;
pub use outcome::{Entry, Step, StepOutcome};
pub use summary::{Tally, print_made, print_summary_node};
