//! Marks and reserved numbers that outlive a loss of power.
//!
//! A device keeps one mark for each of its lanes, the greatest number that it took there, and the last number that it
//! has reserved for its own telegrams. A mark is raised in the memory before its number counts. Numbers are drawn in
//! order, each at or below the last reserved one, and after a start the next is one above it. So no mark ever falls,
//! and no number is drawn twice, wherever power was lost.
//!
//! `bank`, `layout` and `format` alone know where the memory keeps these numbers: in a ring of records in two banks.
//! All else goes by the names of specs/Layout.antt and by the laws of specs/Laws.antt: a raise takes at most three
//! writes, leaves the old value or the new one at each moment, and the new one at its end, and it leaves all other
//! values alone; and a memory that was formatted has its numbers.
#![tactic(auto)]

mod bank;
mod fault;
mod format;
mod law;
mod layout;
mod store;
#[cfg(test)]
mod tests;

pub use fault::{DrawFault, StoreFault, StoreRefused};
pub use format::format_store;
pub use law::{layout_laws, numbers_are_fresh, raises_keep_numbers};
pub use layout::{store_size, stored_value};
pub use store::SeqStore;
