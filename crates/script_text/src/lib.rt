//! Scripts: the rows of an installation, its nodes, and what happens to them; the text that a script is read from, and
//! a script that is made from a number.
#![tactic(auto)]

mod draws;
mod early;
mod event;
mod fault;
mod late;
mod line_words;
mod lists;
mod made;
mod node_lanes;
mod node_row;
mod octets;
mod reader;
mod reading;
mod said;
mod script;
#[cfg(test)]
mod tests;
mod words;

pub use event::{Event, RawFrame, ToolApdu};
pub use fault::ScriptFault;
pub use made::make_script;
pub use node_row::{Marks, Name, NodeRow, ObjectRows};
pub use reading::read_script;
pub use script::Script;
