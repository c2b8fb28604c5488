//! A new memory: the first bank is open with generation 0 and no record, and all else is zero. It is written by pieces,
//! so that a memory of any size takes no room here.
ghost use Rattle.std.specs.Prelude.{◌≡◌, ℕ, ◌+◌, ◌*◌, ◌^◌, ◌<◌, ◌≤◌, true, List, [], ◌∷◌, length, Some, EachIndex, slice_index, OnOk, IsOk};
ghost use Rattle.nvm_model.specs.Nvm.{Makes, fault_of};
ghost use Rattle.nvm_model.specs.Plan.{unarmed};
ghost use Rattle.seq_store.specs.Laws.{Restores};
ghost use Rattle.seq_store.specs.Layout.{store_size, head_write, each_writes, formatted_memory, formatting_writes};

use knx_base::Number48;
use nvm_model::{Nvm, NvmFault, OPEN};

// The octets of gate, generation and first number.
const FRONT_SIZE: usize = 15;

// What is zero in a memory of no lane behind its first number.
const ZEROS: usize = 271;

const NUMBER_SIZE: usize = 6;

/// Formats a memory: this last reserved number, and a mark for each lane.
pub fn format_store<M: Nvm>(
    memory: &mut M,
    reserved: Number48,
    marks: &[Number48],
) -> Result<(), NvmFault>
    requires size { length (M.state memory.old).octets ≡ store_size (length marks.now) }

    ensures makes { Makes (formatting_writes reserved marks.now) (fault_of result)
        (M.state memory.old) (M.state memory.new) (M.images memory.old) (M.images memory.new) }
    ensures formatted { OnOk result ((M.state memory.new).octets ≡ formatted_memory reserved marks.now) }
    ensures restores { OnOk result (Restores (M.state memory.new).octets reserved marks.now) }
    ensures unarmed { (M.state memory.old).plan ≡ Some unarmed → (M.state memory.old).powered ≡ true
        → IsOk result × ((M.state memory.new).plan ≡ Some unarmed) }
{
    write_formatted(memory, reserved, marks)
}

// Writes the numbers of the first bank, and zeros behind them.
fn write_formatted<M: Nvm>(
    memory: &mut M,
    reserved: Number48,
    marks: &[Number48],
) -> Result<(), NvmFault>
    requires size { length (M.state memory.old).octets ≡ store_size (length marks.now) }

    ensures makes { Makes (formatting_writes reserved marks.now) (fault_of result)
        (M.state memory.old) (M.state memory.new) (M.images memory.old) (M.images memory.new) }
    ensures reserved_fits { OnOk result (reserved < 2 ^ 48) }
    ensures marks_fit { OnOk result (EachIndex marks.now (λ k. slice_index marks.now k < 2 ^ 48)) }
{
    let lanes = marks.len();
    if let Err(fault) = write_numbers(memory, reserved, marks) {
        return Err(fault);
    }
    if let Err(fault) = memory.write(FRONT_SIZE + NUMBER_SIZE * lanes, &[0; ZEROS]) {
        return Err(fault);
    }
    for k in 0..lanes {
        let place = FRONT_SIZE + ZEROS + NUMBER_SIZE * lanes + NUMBER_SIZE * k;
        if let Err(fault) = memory.write(place, &[0; NUMBER_SIZE]) {
            return Err(fault);
        }
    }
    Ok(())
}

// Writes gate, generation and numbers of the first bank.
fn write_numbers<M: Nvm>(
    memory: &mut M,
    reserved: Number48,
    marks: &[Number48],
) -> Result<(), NvmFault>
    requires size { length (M.state memory.old).octets ≡ store_size (length marks.now) }

    ensures makes { Makes (head_write reserved ∷ each_writes 15 marks.now) (fault_of result)
        (M.state memory.old) (M.state memory.new) (M.images memory.old) (M.images memory.new) }
    ensures reserved_fits { OnOk result (reserved < 2 ^ 48) }
    ensures marks_fit { OnOk result (EachIndex marks.now (λ k. slice_index marks.now k < 2 ^ 48)) }
{
    if let Err(fault) = write_front(memory, reserved) {
        return Err(fault);
    }
    let mut place = FRONT_SIZE;
    for mark in marks {
        if let Err(fault) = write_number(memory, place, *mark) {
            return Err(fault);
        }
        place += NUMBER_SIZE;
    }
    Ok(())
}

// Writes gate, generation and first number of the first bank.
fn write_front<M: Nvm>(memory: &mut M, reserved: Number48) -> Result<(), NvmFault>
    requires inside { 15 ≤ length (M.state memory.old).octets }

    ensures makes { Makes (head_write reserved ∷ []) (fault_of result)
        (M.state memory.old) (M.state memory.new) (M.images memory.old) (M.images memory.new) }
    ensures fits { reserved < 2 ^ 48 }
{
    let [b0, b1, b2, b3, b4, b5] = reserved.to_bytes();
    memory.write(0, &[OPEN, 0, 0, 0, 0, 0, 0, 0, 0, b0, b1, b2, b3, b4, b5])
}

// Writes this number at this place.
fn write_number<M: Nvm>(memory: &mut M, place: usize, number: Number48) -> Result<(), NvmFault>
    requires inside { place + 6 ≤ length (M.state memory.old).octets }

    ensures makes { Makes (each_writes place (number ∷ [])) (fault_of result)
        (M.state memory.old) (M.state memory.new) (M.images memory.old) (M.images memory.new) }
    ensures fits { number < 2 ^ 48 }
{
    memory.write(place, &number.to_bytes())
}
