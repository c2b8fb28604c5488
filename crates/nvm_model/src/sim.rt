ghost use Rattle.std.specs.Prelude.{◌≡◌, ◌+◌, ◌<◌, ◌≤◌, [], ◌∷◌, true, false, Some, None, OnOk, OnErr, IfOk, option_map, length, replicate, slice_range, refl};
ghost use Rattle.std.proofs.Common.{ap, arith};
ghost use Rattle.nvm_model.specs.Plan.{due, lessened, unarmed};
ghost use Rattle.nvm_model.specs.SimNvm.{sim_state, sim_images, with_cut, with_fault, CountsWrite};
ghost use Rattle.nvm_model.specs.Nvm.{Reads, Makes, fault_of};

use crate::{Armed, Nvm, NvmFault, Plan};
use knx_base::NoMemory;
use std::alloc::Global;

/// A memory whose writes are cut or fail where they are armed to. It can be cut only inside a write that answers Cut.
#[derive(Drop)]
pub struct SimNvm {
    octets: Vec<u8>,
    powered: bool,
    clock: u64,
    faults: u64,
    cuts: u64,
    plan: Plan,
}

impl SimNvm {
    /// A memory of this many octets, all zero, with power on and nothing armed.
    pub fn new(alloc: Global, size: usize) -> Result<SimNvm, NoMemory>
        ensures zero { IfOk result (λ m. sim_state m ≡ record {
          octets = replicate size 0;
          powered = true;
          clock = 0;
          faults = 0;
          cuts = 0;
          plan = Some unarmed;
        }) }
    {
        Ok(SimNvm {
            octets: vec![in alloc; 0u8; size]?,
            powered: true,
            clock: 0,
            faults: 0,
            cuts: 0,
            plan: Plan {
                cut: None,
                fault: None,
            },
        })
    }

    /// Arms a cut at the `write`-th write from now that is made with power on.
    /// It leaves `torn` in the whole range of that write. It replaces a cut that is armed.
    pub fn arm_cut(&mut self, write: u32, torn: u8)
        requires counts_from_one { 1 ≤ write }
        ensures armed { sim_state self.new ≡ record (sim_state self.old) {
          plan = option_map (with_cut write torn) (sim_state self.old).plan;
        } }
    {
        self.plan.cut = Some(Armed {
            writes: write,
            torn,
        });
    }

    /// Arms a fault at the `write`-th write from now that is made with power on.
    /// It leaves `torn` in the whole range of that write. It replaces a fault that is armed.
    pub fn arm_fail(&mut self, write: u32, torn: u8)
        requires counts_from_one { 1 ≤ write }
        ensures armed { sim_state self.new ≡ record (sim_state self.old) {
          plan = option_map (with_fault write torn) (sim_state self.old).plan;
        } }
    {
        self.plan.fault = Some(Armed {
            writes: write,
            torn,
        });
    }

    /// Power returns. What is armed stays armed.
    pub fn power_on(&mut self)
        ensures power { sim_state self.new ≡ record (sim_state self.old) { powered = true } }
    {
        self.powered = true;
    }

    /// Power is taken away between two calls. What is armed stays armed.
    pub fn power_off(&mut self)
        ensures power { sim_state self.new ≡ record (sim_state self.old) { powered = false } }
    {
        self.powered = false;
    }

    /// Whether power is on.
    pub fn is_on(&self) -> bool
        ensures power { result ≡ (sim_state self.now).powered }
    {
        self.powered
    }

    /// All octets, with power on or off.
    pub fn image(&self) -> &[u8]
        ensures octets { result.now ≡ (sim_state self.now).octets }
    {
        &self.octets
    }
}

// The octet that the next write leaves, where this strikes it.
fn due(armed: Option<Armed>) -> Option<u8>
    ensures { result ≡ due armed }
{
    match armed {
        Some(Armed { writes, torn }) if writes < 2 => Some(torn),
        _ => None,
    }
}

// What is armed after the next write.
fn lessened(armed: Option<Armed>) -> Option<Armed>
    ensures { result ≡ lessened armed }
{
    match armed {
        Some(Armed { writes, torn }) if writes >= 2 => Some(Armed {
            writes: writes - 1,
            torn,
        }),
        _ => None,
    }
}

impl Nvm for SimNvm {
    ghost state = { sim_state };

    ghost images = { sim_images };

    ghost only_now = { λ m c is. is };

    ghost now_too = { λ m t _. refl };

    ghost one_size = { λ m t c _ is. ap length is };

    ghost fits = { λ m. Prim.omega (arith, m.octets.ok.0, m.octets.ok.1, m.octets.small) };

    fn size(&self) -> usize {
        self.octets.len()
    }

    fn read(&mut self, at: usize, out: &mut [u8]) -> Result<(), NvmFault>
        requires inside { at + length out.old ≤ length (sim_state self.old).octets }
        requires not_empty { 0 < length out.old }
        ensures octets { OnOk result (out.new ≡ slice_range (sim_state self.old).octets at (at + length out.old)) }
        ensures reads { Reads (fault_of result) (sim_state self.old) (sim_state self.new) (sim_images self.old)
            (sim_images self.new) }
        ensures same { sim_state self.new ≡ sim_state self.old }
        ensures untouched { OnErr result (out.new ≡ out.old) }
    {
        if self.powered {
            out.copy_from_slice(&self.octets[at..at + out.len()]);
            Ok(())
        } else {
            Err(NvmFault::Cut)
        }
    }

    fn write(&mut self, at: usize, bytes: &[u8]) -> Result<(), NvmFault>
        requires inside { at + length bytes.now ≤ length (sim_state self.old).octets }
        requires not_empty { 0 < length bytes.now }
        ensures makes { Makes (record { at = at; bytes = bytes.now } ∷ []) (fault_of result)
            (sim_state self.old) (sim_state self.new) (sim_images self.old) (sim_images self.new) }
        ensures counts { CountsWrite (fault_of result) (sim_state self.old) (sim_state self.new) }
    {
        if !self.powered {
            return Err(NvmFault::Cut);
        }
        let cut = due(self.plan.cut);
        let fault = due(self.plan.fault);
        self.plan = Plan {
            cut: lessened(self.plan.cut),
            fault: lessened(self.plan.fault),
        };
        self.clock = self.clock.saturating_add(1);
        let range = &mut self.octets[at..at + bytes.len()];
        if let Some(torn) = cut {
            range.fill(torn);
            self.cuts = self.cuts.saturating_add(1);
            self.powered = false;
            return Err(NvmFault::Cut);
        }
        if let Some(torn) = fault {
            range.fill(torn);
            self.faults = self.faults.saturating_add(1);
            return Err(NvmFault::Failed);
        }
        range.copy_from_slice(bytes);
        Ok(())
    }
}
