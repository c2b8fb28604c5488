ghost use Rattle.std.specs.Prelude.{◌≡◌, ◌≤◌, option_map};
ghost use Rattle.nvm_model.specs.SimNvm.{sim_state, with_cut, with_fault};
ghost use Rattle.node_core.specs.Node.{node_state};

use crate::Node;
use nvm_model::SimNvm;

impl Node<SimNvm> {
    /// Arms a cut of the memory, as [`SimNvm::arm_cut`] does, also of a node that does not run. Nothing else changes.
    pub fn arm_cut(&mut self, write: u32, torn: u8)
        requires counts_from_one { 1 ≤ write }
        ensures armed { let old = sim_state (node_state self.old).memory in
            sim_state (node_state self.new).memory ≡ record old { plan = option_map (with_cut write torn) old.plan } }
        ensures unchanged { node_state self.new
            ≡ record (node_state self.old) { memory = (node_state self.new).memory } }
    {
        self.store.arm_cut(write, torn);
    }

    /// Arms a fault of the memory, as [`SimNvm::arm_fail`] does, also of a node that does not run. Nothing else
    /// changes.
    pub fn arm_fail(&mut self, write: u32, torn: u8)
        requires counts_from_one { 1 ≤ write }
        ensures armed { let old = sim_state (node_state self.old).memory in
            sim_state (node_state self.new).memory ≡ record old { plan = option_map (with_fault write torn) old.plan } }
        ensures unchanged { node_state self.new
            ≡ record (node_state self.old) { memory = (node_state self.new).memory } }
    {
        self.store.arm_fail(write, torn);
    }
}
