//! Cells that keep one number each through a loss of power inside any write.
//!
//! A cell has 14 octets: copy A, a gate octet and a number of six octets, and copy B, the same. A copy counts while its
//! gate is open, and the cell reads the greatest number that counts. A raise writes the copy that is not current: its
//! gate is shut if it is open, then the number is written, then the gate is opened. A gate that is not open is not shut
//! once more, since such a write could be torn and open it over a number that an earlier cut left there.
#![tactic(auto)]

mod cell;
mod fault;
#[cfg(test)]
mod tests;

pub use cell::{CELL_SIZE, cell_reading, format_cell, raise_cell, read_cell};
pub use fault::CellFault;
