ghost use Rattle.std.specs.Prelude.{◌≡◌, ℕ, ◌+◌, ◌^◌, ◌<◌, ◌≤◌, ◌↔◌, true, IsTrue, IsOk, IsNone, OnOk, OnErr};
ghost use Rattle.nvm_model.specs.Nvm.{fault_of};
ghost use Rattle.seq_store.specs.Calls.{HasCountedCause, IsNumberDrawn, IsRenumbered, ReservesFirst, TakesFewWrites};
ghost use Rattle.seq_store.specs.Draws.{reservation_for};
ghost use Rattle.seq_store.specs.Laws.{Raises};
ghost use Rattle.seq_store.specs.Refusal.{draw_fault};
ghost use Rattle.seq_store.specs.Runs.{Runs, after_raises, draw_raises};
ghost use Rattle.seq_store.specs.Store.{store_state, lanes_of, numbers_of};

use crate::layout::raise_value;
use crate::{DrawFault, SeqStore};
use knx_base::Number48;
use nvm_model::{Nvm, NvmFault};

// How many numbers are reserved beyond the one that is drawn.
const AHEAD: u64 = 63;

impl<M: Nvm> SeqStore<M> {
    /// Draws the next number. Where it is above the last reserved one, the reservation is raised first, to 63 numbers
    /// ahead but not beyond the last number of 48 bits, in at most three writes.
    ///
    /// A loss of power at any moment leaves the old reservation or the new one, and every mark as it was. Memory comes
    /// only where the reservation is raised, as the memory answered; the store is then not sound.
    pub fn draw(&mut self) -> Result<Number48, DrawFault>
        requires sound { (store_state self.old).sound ≡ true }

        ensures number { IsNumberDrawn result (store_state self.old) (store_state self.new) }
        ensures runs { let old = store_state self.old in let new = store_state self.new in
            Runs (numbers_of old) (draw_raises old.reserved old.next) (draw_fault result)
            (M.state old.memory) (M.state new.memory) (M.images old.memory) (M.images new.memory) }
        ensures numbers { let old = store_state self.old in
            OnOk result (numbers_of (store_state self.new) ≡ after_raises (draw_raises old.reserved old.next)
            (numbers_of old)) }
        ensures same_numbers { OnErr result (numbers_of (store_state self.new) ≡ numbers_of (store_state self.old)) }
        ensures reserves { ReservesFirst result (store_state self.old) (store_state self.new) M.state M.images }
        ensures few { TakesFewWrites (store_state self.old) (store_state self.new) M.state }
        ensures sound { IsTrue (store_state self.new).sound ↔ IsNone (draw_fault result) }
        ensures cause { let old = store_state self.old in let new = store_state self.new in
            HasCountedCause (draw_fault result) (M.state old.memory) (M.state new.memory) }
    {
        let Some(number) = Number48::new(self.next) else {
            return Err(DrawFault::Exhausted);
        };
        self.reserve(number)?;
        self.next += 1;
        Ok(number)
    }

    // Raises the reservation where this number, which is the next, is above it.
    fn reserve(&mut self, number: Number48) -> Result<(), NvmFault>
        requires sound { self.old.sound ≡ true }
        requires next { number ≡ self.old.next }

        ensures is_reserved { number ≤ self.old.reserved → IsOk result × (self.new.memory ≡ self.old.memory) }
        ensures raises { self.old.reserved < number
            → Raises (lanes_of (store_state self.old)) 0 (reservation_for self.old.reserved number) (fault_of result)
            (M.state self.old.memory) (M.state self.new.memory) (M.images self.old.memory) (M.images self.new.memory) }
        ensures runs { let old = store_state self.old in let new = store_state self.new in
            Runs (numbers_of old) (draw_raises old.reserved old.next) (fault_of result)
            (M.state old.memory) (M.state new.memory) (M.images old.memory) (M.images new.memory) }
        ensures renumbered { let old = store_state self.old in
            IsRenumbered result (draw_raises old.reserved old.next) old (store_state self.new) }
        ensures covered { IsOk result → number ≤ self.new.reserved }
        ensures few { (M.state self.new.memory).clock ≤ (M.state self.old.memory).clock + 3 }
        ensures next { self.new.next ≡ self.old.next }
        ensures sound { IsTrue self.new.sound ↔ IsOk result }
    {
        if number <= self.reserved {
            return Ok(());
        }
        let reservation = reservation_for(number);
        let lanes = self.marks.len();
        match raise_value(&mut self.memory, lanes, 0, reservation) {
            Ok(()) => {
                self.reserved = reservation;
                Ok(())
            }
            Err(fault) => {
                self.sound = false;
                Err(fault)
            }
        }
    }
}

// The reservation that a number which is not reserved asks for.
fn reservation_for(number: Number48) -> Number48
    ensures ahead { (last : ℕ) → last < number → result ≡ reservation_for last number }
    ensures above { number ≤ result }
    ensures fits { result < 2 ^ 48 }
{
    match Number48::new(number.get() + AHEAD) {
        Some(reservation) => reservation,
        None => Number48::from_bytes([0xff; 6]),
    }
}
