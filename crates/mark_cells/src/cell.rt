ghost use Rattle.std.specs.Prelude.{◌≡◌, ◌⊎◌, ◌+◌, ◌<◌, ◌≤◌, ◌↔◌, [], ◌∷◌, Some, None, length, true, OnOk, IfOk, IsOk, IsNone};
ghost use Rattle.nvm_model.specs.Nvm.{Reads, Makes, LeavesOnly, fault_of};
ghost use Rattle.nvm_model.specs.Plan.{unarmed};
ghost use Rattle.nvm_model.specs.Write.{Torn, put};
ghost use Rattle.mark_cells.specs.Cell.{copy_number, reading, other_copy, cell_writes, formatted, format_writes, IsUnformatted, ReadsBelow, IsOldOrNew, OthersReadAsBefore, memory_fault};

use crate::CellFault;
use knx_base::Number48;
use nvm_model::{Nvm, NvmFault, OPEN, write_gated};

/// The number of octets of a cell.
pub const CELL_SIZE: usize = 14;

// Copy A stands at the place of the cell, copy B so many octets on.
const SECOND: usize = 7;

/// Writes a new cell with this number, in one write: copy A is open, copy B all zero.
///
/// Failed comes only where the memory counted a fault in this call, Cut only where it counted a cut or had no power.
pub fn format_cell<M: Nvm>(memory: &mut M, at: usize, value: Number48) -> Result<(), NvmFault>
    requires inside { at + 14 ≤ length (M.state memory.old).octets }

    ensures makes { Makes (format_writes at value) (fault_of result)
        (M.state memory.old) (M.state memory.new) (M.images memory.old) (M.images memory.new) }
    ensures formatted { OnOk result ((M.state memory.new).octets
        ≡ put (record { at = at; bytes = formatted value }) (M.state memory.old).octets) }
    ensures reads { OnOk result (reading (M.state memory.new).octets at ≡ Some value) }
    ensures any_moment { LeavesOnly (M.state memory.old).clock (M.images memory.old) (M.images memory.new)
        (Torn at 14 (M.state memory.old).octets) }
    ensures others { OthersReadAsBefore (M.state memory.old).octets at (M.state memory.new).octets }

    // Where nothing is armed, as far as the memory tells, nothing strikes.
    ensures unarmed { (M.state memory.old).plan ≡ Some unarmed → (M.state memory.old).powered ≡ true
        → IsOk result × ((M.state memory.new).plan ≡ Some unarmed) }
{
    let mut cell = [0u8; CELL_SIZE];
    cell[0] = OPEN;
    cell[1..SECOND].copy_from_slice(&value.to_bytes());
    memory.write(at, &cell)
}

/// The reading of a cell: the greatest number of an open copy. It is Unformatted where none is open.
pub fn read_cell<M: Nvm>(memory: &mut M, at: usize) -> Result<Number48, CellFault>
    requires inside { at + 14 ≤ length (M.state memory.old).octets }

    ensures value { IfOk result (λ value. reading (M.state memory.old).octets at ≡ Some value) }
    ensures unformatted { (result ≡ Err CellFault.Unformatted)
        ↔ (IsUnformatted (M.state memory.old).octets at × (memory_fault result ≡ None)) }
    ensures reads { Reads (memory_fault result)
        (M.state memory.old) (M.state memory.new) (M.images memory.old) (M.images memory.new) }
{
    let mut octets = [0u8; CELL_SIZE];
    memory.read(at, &mut octets)?;
    match cell_reading(&octets) {
        Some(value) => Ok(value),
        None => Err(CellFault::Unformatted),
    }
}

/// Raises the number of a cell in two or three writes, none of which touches the copy that is current.
///
/// A cut at any moment leaves the old or the new number. Failed comes only where the memory counted a fault in this
/// call, Cut only where it counted a cut or had no power.
pub fn raise_cell<M: Nvm>(memory: &mut M, at: usize, new: Number48) -> Result<(), NvmFault>
    requires inside { at + 14 ≤ length (M.state memory.old).octets }
    requires below { ReadsBelow (M.state memory.old).octets at new }

    ensures makes { Makes (cell_writes (M.state memory.old).octets at new) (fault_of result)
        (M.state memory.old) (M.state memory.new) (M.images memory.old) (M.images memory.new) }
    ensures any_moment { LeavesOnly (M.state memory.old).clock (M.images memory.old) (M.images memory.new)
        (IsOldOrNew (M.state memory.old).octets at new) }
    // What is there now is one of those images.
    ensures now { IsOldOrNew (M.state memory.old).octets at new (M.state memory.new).octets }
    ensures others { OthersReadAsBefore (M.state memory.old).octets at (M.state memory.new).octets }
    ensures raised { OnOk result (reading (M.state memory.new).octets at ≡ Some new) }
    ensures few { (M.state memory.new).clock ≤ (M.state memory.old).clock + 3 }
{
    let mut cell = [0u8; CELL_SIZE];
    memory.read(at, &mut cell)?;
    let other = other_copy(&cell);
    write_gated(memory, at + other, cell[other] == OPEN, &new.to_bytes())
}

/// The reading of a cell with these octets, or None where no copy is open.
#[tactic(auto, unfolding(crate::specs::Cell::reading))]
pub fn cell_reading(octets: &[u8; 14]) -> Option<Number48>
    ensures value { result ≡ reading octets.now 0 }
    ensures unformatted { IsNone result ↔ IsUnformatted octets.now 0 }
{
    match (copy_number(octets, 0), copy_number(octets, SECOND)) {
        (Some(first), Some(second)) => Some(if first < second { second } else { first }),
        (Some(first), None) => Some(first),
        (None, second) => second,
    }
}

// The number of the copy with this gate, where it is open.
fn copy_number(octets: &[u8; 14], gate: usize) -> Option<Number48>
    requires { gate + 7 ≤ 14 }
    ensures { result ≡ copy_number octets.now gate }
{
    if octets[gate] != OPEN {
        return None;
    }
    let mut number = [0u8; 6];
    number.copy_from_slice(&octets[gate + 1..gate + 7]);
    Some(Number48::from_bytes(number))
}

// The place of the copy that is not current.
#[tactic(auto, unfolding(crate::specs::Cell::other_copy))]
fn other_copy(octets: &[u8; 14]) -> usize
    ensures place { result ≡ other_copy octets.now 0 }
    ensures copies { (result ≡ 0) ⊎ (result ≡ 7) }
{
    match (copy_number(octets, 0), copy_number(octets, SECOND)) {
        (Some(first), Some(second)) => { if first < second { 0 } else { SECOND } }
        (Some(_), None) => SECOND,
        (None, _) => 0,
    }
}
