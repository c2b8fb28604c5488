//! Texts that are read: their lines and words, and files that are read on in pieces, line by line or whole.
#![tactic(auto)]

mod lines;
mod source;
mod text_line;
mod whole_file;

pub use lines::{Lines, MOST_OCTETS, Words, judge_line};
pub use source::Source;
pub use text_line::{LineRead, TextLine, read_line};
pub use whole_file::{FileFault, read_all};
