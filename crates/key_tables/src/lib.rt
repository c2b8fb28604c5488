//! The rows of an installation: keys of groups and devices, levels, and roles of senders; what a list of rows says of a
//! frame, and the text that rows are read from.
#![tactic(auto)]

mod faults;
mod key_set;
mod lane_list;
mod look_ups;
mod reading;
mod row_index;
mod row_list;
mod search;
mod steps;
mod tables;
#[cfg(test)]
mod tests;
mod types;

pub use faults::{BuildFault, TablesFault};
pub use lane_list::{LaneList, lanes};
pub use reading::{
    read_channel, read_device, read_group, read_line, read_tables, three_words, two_words,
};
pub use row_index::RowIndex;
pub use row_list::RowList;
pub use steps::Steps;
pub use tables::Tables;
pub use types::{Channel, Lane, Level, Role, Row, RowKey, RowValue};
