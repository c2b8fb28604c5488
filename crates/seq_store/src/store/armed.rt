ghost use Rattle.std.specs.Prelude.{◌≡◌, ◌≤◌, option_map};
ghost use Rattle.nvm_model.specs.SimNvm.{sim_state, with_cut, with_fault};
ghost use Rattle.seq_store.specs.Store.{store_state};

use crate::SeqStore;
use nvm_model::SimNvm;

impl SeqStore<SimNvm> {
    /// Arms a cut of the memory, as [`SimNvm::arm_cut`] does. Nothing else changes.
    pub fn arm_cut(&mut self, write: u32, torn: u8)
        requires counts_from_one { 1 ≤ write }
        ensures armed { let old = sim_state (store_state self.old).memory in
            sim_state (store_state self.new).memory ≡ record old { plan = option_map (with_cut write torn) old.plan } }
        ensures unchanged { store_state self.new ≡ record (store_state self.old)
            { memory = (store_state self.new).memory } }
    {
        self.memory.arm_cut(write, torn);
    }

    /// Arms a fault of the memory, as [`SimNvm::arm_fail`] does. Nothing else changes.
    pub fn arm_fail(&mut self, write: u32, torn: u8)
        requires counts_from_one { 1 ≤ write }
        ensures armed { let old = sim_state (store_state self.old).memory in
            sim_state (store_state self.new).memory ≡ record old {
              plan = option_map (with_fault write torn)
                  old.plan;
            } }
        ensures unchanged { store_state self.new ≡ record (store_state self.old)
            { memory = (store_state self.new).memory } }
    {
        self.memory.arm_fail(write, torn);
    }
}
