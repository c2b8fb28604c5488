//! A second memory, for trying code that is generic in [`Nvm`] with one that tells less than `SimNvm` does.
ghost use Rattle.std.specs.Prelude.{◌≡◌, ◌⊎◌, ℕ, List, ◌+◌, ◌-◌, ◌<◌, ◌≤◌, ◌↔◌, [], ◌∷◌, true, None, IfOk, OnOk, OnErr, IsErr, IsTrue, length, replicate, slice_range, refl};
ghost use Rattle.std.proofs.Common.{arith, inl};
ghost use Rattle.knx_base.specs.Faults.{counted};
ghost use Rattle.nvm_model.specs.FailingNvm.{failing_state, failing_call, failing_torn, failing_images, CountsCall};
ghost use Rattle.nvm_model.specs.LastWrite.{only_last, size_last};
ghost use Rattle.nvm_model.specs.Nvm.{Makes, Reads, fault_of, faults_after};
ghost use Rattle.nvm_model.specs.Plan.{torn_to};
ghost use Rattle.nvm_model.specs.Write.{put, Torn};

use crate::{Nvm, NvmFault};
use knx_base::NoMemory;
use std::alloc::Global;

/// A memory that tells no plan and fails at one chosen call. A cut may fall inside each of its writes, also one that it
/// answered Ok, so it has many images. Its clock counts its writes, and its count of faults the calls that failed.
#[derive(Drop)]
pub struct FailingNvm {
    octets: Vec<u8>,
    clock: u64,
    faults: u64,
    call: u64,
    torn: u8,
    last_at: usize,
    last_len: usize,
}

impl FailingNvm {
    /// A memory of this many octets, all zero. Its `call`-th read or write fails, and a write that fails leaves `torn`
    /// in its whole range. At 0 none fails.
    pub fn new(alloc: Global, size: usize, call: u64, torn: u8) -> Result<FailingNvm, NoMemory>
        ensures state { IfOk result (λ m. failing_state m ≡ record {
          octets = replicate size 0;
          powered = true;
          clock = 0;
          faults = 0;
          cuts = 0;
          plan = None;
        }) }
        ensures call { IfOk result (λ m. failing_call m ≡ call) }
        ensures torn { IfOk result (λ m. failing_torn m ≡ torn) }
    {
        Ok(FailingNvm {
            octets: vec![in alloc; 0u8; size]?,
            clock: 0,
            faults: 0,
            call,
            torn,
            last_at: 0,
            last_len: 0,
        })
    }

    /// All octets.
    pub fn image(&self) -> &[u8]
        ensures octets { result.now ≡ (failing_state self.now).octets }
    {
        &self.octets
    }

    // Whether this call fails. It is counted.
    fn is_struck(&mut self) -> bool
        ensures struck { IsTrue result ↔ (failing_call self.old ≡ 1) }
        ensures counted { self.new ≡ record self.old { call = self.old.call - 1 } }
    {
        let struck = self.call == 1;
        self.call = self.call.saturating_sub(1);
        struck
    }
}

impl Nvm for FailingNvm {
    ghost state = { failing_state };

    ghost images = { failing_images };

    ghost only_now = { λ m image. only_last m.clock m.last_at m.last_len m.octets.items image };

    ghost now_too = { λ m t _. inl refl };

    ghost one_size = { λ m t image _. size_last t m.clock m.last_at m.last_len m.octets.items image };

    ghost fits = { λ m. Prim.omega (arith, m.octets.ok.0, m.octets.ok.1, m.octets.small) };

    fn size(&self) -> usize {
        self.octets.len()
    }

    fn read(&mut self, at: usize, out: &mut [u8]) -> Result<(), NvmFault>
        requires inside { at + length out.old ≤ length (failing_state self.old).octets }
        requires not_empty { 0 < length out.old }
        ensures octets { OnOk result (out.new ≡ slice_range (failing_state self.old).octets at (at + length out.old)) }
        ensures reads { Reads (fault_of result)
            (failing_state self.old) (failing_state self.new) (failing_images self.old) (failing_images self.new) }
        ensures fails { IsErr result ↔ (failing_call self.old ≡ 1) }
        ensures untouched { OnErr result (out.new ≡ out.old) }
        ensures counts { CountsCall self.old self.new }
        ensures faults { (failing_state self.new).faults ≡ faults_after (fault_of result)
            (failing_state self.old).faults }
    {
        if self.is_struck() {
            self.faults = self.faults.saturating_add(1);
            return Err(NvmFault::Failed);
        }
        out.copy_from_slice(&self.octets[at..at + out.len()]);
        Ok(())
    }

    fn write(&mut self, at: usize, bytes: &[u8]) -> Result<(), NvmFault>
        requires inside { at + length bytes.now ≤ length (failing_state self.old).octets }
        requires not_empty { 0 < length bytes.now }
        ensures makes { Makes (record { at = at; bytes = bytes.now } ∷ []) (fault_of result)
            (failing_state self.old) (failing_state self.new) (failing_images self.old) (failing_images self.new) }
        // A cut inside this write may have left any octets in its range, whatever the answer.
        ensures many { (failing_state self.old).clock < (failing_state self.new).clock
            → (image : List ℕ) → Torn at (length bytes.now) (failing_state self.old).octets image
            → failing_images self.new (failing_state self.old).clock image }
        ensures fails { IsErr result ↔ (failing_call self.old ≡ 1) }
        ensures torn { OnErr result ((failing_state self.new).octets
            ≡ put (torn_to (failing_torn self.old) (record { at = at; bytes = bytes.now }))
            (failing_state self.old).octets) }
        ensures counts { CountsCall self.old self.new }
        ensures counts_write { (failing_state self.new).clock ≡ counted (failing_state self.old).clock }
        ensures faults { (failing_state self.new).faults ≡ faults_after (fault_of result)
            (failing_state self.old).faults }
    {
        let struck = self.is_struck();
        self.clock = self.clock.saturating_add(1);
        self.last_at = at;
        self.last_len = bytes.len();
        let range = &mut self.octets[at..at + bytes.len()];
        if struck {
            range.fill(self.torn);
            self.faults = self.faults.saturating_add(1);
            return Err(NvmFault::Failed);
        }
        range.copy_from_slice(bytes);
        Ok(())
    }
}
