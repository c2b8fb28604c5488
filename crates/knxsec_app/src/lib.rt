//! The program as one call: `run` takes the words of a command line, the files and the sink, and answers a status.
#![tactic(auto)]

mod auditing;
mod count_word;
mod encoding;
mod ending;
mod exit;
mod frame_word;
mod keyring;
mod obey;
mod opening;
mod page;
mod part;
mod playing;
mod refusing;
mod report;
mod showing;
mod status;
#[cfg(test)]
mod tests;
mod top;
mod values;
mod whole_file;
mod words;

pub use exit::conclude;
pub use status::Status;
pub use top::run;
