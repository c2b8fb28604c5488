ghost use Rattle.std.specs.Prelude.{◌≡◌, ◌+◌, ◌<◌, ◌↔◌, true, [], ◌∷◌, slice_index, IsTrue, IsOk, OnOk, OnErr};
ghost use Rattle.nvm_model.specs.Nvm.{fault_of};
ghost use Rattle.seq_store.specs.Calls.{HasCountedCause};
ghost use Rattle.seq_store.specs.Laws.{Raises};
ghost use Rattle.seq_store.specs.Runs.{Runs, Mark, after_raise};
ghost use Rattle.seq_store.specs.Store.{store_state, lanes_of, numbers_of};

use crate::SeqStore;
use crate::layout::raise_value;
use knx_base::Number48;
use nvm_model::{Nvm, NvmFault};

impl<M: Nvm> SeqStore<M> {
    /// Raises the mark of a lane, in at most three writes.
    ///
    /// A loss of power at any moment leaves the old mark or the new one, and all else as it was. After a fault the
    /// store is not sound. Failed comes only where the memory counted a fault in this call, Cut only where it counted a
    /// cut.
    pub fn raise(&mut self, lane: usize, number: Number48) -> Result<(), NvmFault>
        requires sound { (store_state self.old).sound ≡ true }
        requires in_range { lane < lanes_of (store_state self.old) }
        requires above { slice_index (store_state self.old).marks lane < number }

        ensures raises { let old = store_state self.old in let new = store_state self.new in
            Raises (lanes_of old) (1 + lane) number (fault_of result)
            (M.state old.memory) (M.state new.memory) (M.images old.memory) (M.images new.memory) }
        ensures runs { let old = store_state self.old in let new = store_state self.new in
            Runs (numbers_of old) (Mark lane number ∷ []) (fault_of result)
            (M.state old.memory) (M.state new.memory) (M.images old.memory) (M.images new.memory) }
        ensures numbers { let old = numbers_of (store_state self.old) in
            OnOk result (numbers_of (store_state self.new) ≡ after_raise (Mark lane number) old) }
        ensures same_numbers { OnErr result (numbers_of (store_state self.new) ≡ numbers_of (store_state self.old)) }
        ensures cause { let old = store_state self.old in let new = store_state self.new in
            HasCountedCause (fault_of result) (M.state old.memory) (M.state new.memory) }
        ensures next { (store_state self.new).next ≡ (store_state self.old).next }
        ensures sound { IsTrue (store_state self.new).sound ↔ IsOk result }
    {
        // The laws of a raise are those of numbers of 48 bits.
        prove!(number.get() < 1 << 48);
        let lanes = self.marks.len();
        match raise_value(&mut self.memory, lanes, 1 + lane, number) {
            Ok(()) => {
                self.marks[lane] = number;
                Ok(())
            }
            Err(fault) => {
                self.sound = false;
                Err(fault)
            }
        }
    }
}
