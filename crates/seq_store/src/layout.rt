//! Where a memory keeps its numbers. This module, `bank` and `format` alone know places.
ghost use Rattle.std.specs.Prelude.{◌≡◌, ◌≢◌, ℕ, ◌+◌, ◌*◌, ◌^◌, ◌<◌, ◌≤◌, true, false, List, length, Some, None, Err, slice_index, IfOk, OnOk, IsOk};
ghost use Rattle.nvm_model.specs.Gate.{is_open, gated_writes};
ghost use Rattle.nvm_model.specs.Nvm.{Makes, Reads, fault_of};
ghost use Rattle.nvm_model.specs.Plan.{unarmed};
ghost use Rattle.seq_store.specs.Refusal.{reading_fault};
ghost use Rattle.seq_store.specs.Laws.{Restores, MayRaise, Raises};
ghost use Rattle.seq_store.specs.Layout.{width, most_lanes, store_size, place_of, value_of, raise_writes, formatted_memory, formatting_writes};
ghost use Rattle.seq_store.specs.Ring.{record_body};

use crate::StoreFault;
use crate::bank::{bank_size, bank_value, banks_of, first_shut, next_body};
use knx_base::Number48;
use nvm_model::{Nvm, NvmFault, OPEN, write_gated};

// The octets of a memory of 64 lanes, and what stands behind the gate of one of its banks.
const MOST: usize = 1054;

const MOST_BODY: usize = 526;

/// The number of octets of a memory of so many lanes.
pub fn store_size(lanes: usize) -> usize
    requires lanes_fit { lanes ≤ most_lanes }
    ensures size { result ≡ store_size lanes }
{
    2 * bank_size(1 + lanes)
}

/// This value of an image, or None where no bank is open: value 0 is the last reserved number, and value 1 + i the mark
/// of lane i.
#[tactic(auto, unfolding(crate::specs::Layout::value_of))]
pub fn stored_value(image: &[u8], lanes: usize, value: usize) -> Option<Number48>
    requires size { length image.now ≡ store_size lanes }
    requires lanes_fit { lanes ≤ most_lanes }
    requires in_range { value ≤ lanes }

    ensures value { result ≡ value_of lanes image.now value }
{
    match banks_of(image, 1 + lanes) {
        Some(banks) => Some(bank_value(image, 1 + lanes, banks.current, value)),
        None => None,
    }
}

/// Reads the whole of a memory into an image of its size.
pub(crate) fn read_all<M: Nvm>(memory: &mut M, image: &mut [u8]) -> Result<(), NvmFault>
    requires size { length image.old ≡ length (M.state memory.old).octets }
    requires some { 0 < length image.old }
    ensures octets { OnOk result (image.new ≡ (M.state memory.old).octets) }
    ensures reads { Reads (fault_of result)
        (M.state memory.old) (M.state memory.new) (M.images memory.old) (M.images memory.new) }
{
    memory.read(0, image)
}

// Reads this value.
#[tactic(auto, unfolding(crate::specs::Layout::place_of))]
pub(crate) fn read_value<M: Nvm>(
    memory: &mut M,
    lanes: usize,
    value: usize,
) -> Result<Number48, StoreFault>
    requires size { length (M.state memory.old).octets ≡ store_size lanes }
    requires lanes_fit { lanes ≤ most_lanes }
    requires in_range { value ≤ lanes }

    ensures value { IfOk result (λ number. value_of lanes (M.state memory.old).octets value ≡ Some number) }
    ensures unformatted { (place : ℕ) → result ≡ Err (StoreFault.Unformatted place)
        → (place ≡ place_of lanes value) × (value_of lanes (M.state memory.old).octets value ≡ None) }
    ensures had_memory { result ≢ Err StoreFault.NoMemory }
    ensures reads { Reads (reading_fault result)
        (M.state memory.old) (M.state memory.new) (M.images memory.old) (M.images memory.new) }
{
    let mut octets = [0; MOST];
    let image = &mut octets[..store_size(lanes)];
    match read_all(memory, image) {
        Ok(()) => match stored_value(image, lanes, value) {
            Some(number) => Ok(number),
            None => Err(StoreFault::Unformatted(0)),
        },
        Err(fault) => Err(StoreFault::Memory(fault)),
    }
}

// Raises this value.
pub(crate) fn raise_value<M: Nvm>(
    memory: &mut M,
    lanes: usize,
    value: usize,
    number: Number48,
) -> Result<(), NvmFault>
    requires may { MayRaise lanes (M.state memory.old).octets value number }

    ensures { Raises lanes value number (fault_of result)
        (M.state memory.old) (M.state memory.new) (M.images memory.old) (M.images memory.new) }
{
    let mut octets = [0; MOST];
    let image = &mut octets[..store_size(lanes)];
    if let Err(fault) = read_all(memory, image) {
        return Err(fault);
    }
    write_raise(memory, image, lanes, value, number)
}

// Raises this value in a memory with these octets: by a record more, or else by a change of banks.
fn write_raise<M: Nvm>(
    memory: &mut M,
    image: &[u8],
    lanes: usize,
    value: usize,
    number: Number48,
) -> Result<(), NvmFault>
    requires image { image.now ≡ (M.state memory.old).octets }
    requires may { MayRaise lanes image.now value number }

    ensures { Makes (raise_writes lanes image.now value number) (fault_of result)
        (M.state memory.old) (M.state memory.new) (M.images memory.old) (M.images memory.new) }
{
    let Some(banks) = banks_of(image, 1 + lanes) else {
        return Ok(());
    };
    if let Some(place) = first_shut(image, 1 + lanes, banks.current) {
        return write_record(memory, place, value, number);
    }
    let mut octets = [0; MOST_BODY];
    let body = &mut octets[..bank_size(1 + lanes) - 1];
    next_body(body, image, 1 + lanes, banks.current, value, number);
    write_gated(memory, banks.other, image[banks.other] == OPEN, body)
}

// Writes a record over one that is not open.
fn write_record<M: Nvm>(
    memory: &mut M,
    place: usize,
    value: usize,
    number: Number48,
) -> Result<(), NvmFault>
    requires inside { place + 8 ≤ length (M.state memory.old).octets }
    requires shut { is_open (M.state memory.old).octets place ≡ false }
    requires index_fits { value < 256 }

    ensures makes { Makes (gated_writes place false (record_body width value number)) (fault_of result)
        (M.state memory.old) (M.state memory.new) (M.images memory.old) (M.images memory.new) }
{
    let [b0, b1, b2, b3, b4, b5] = number.to_bytes();
    let index = value as u8;
    write_gated(memory, place, false, &[index, b0, b1, b2, b3, b4, b5])
}
