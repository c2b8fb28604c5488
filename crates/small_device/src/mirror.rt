ghost use Rattle.std.specs.Prelude.{◌≡◌, ℕ, List, ◌+◌, ◌<◌, ◌≤◌, [], ◌∷◌, length, slice_range, OnOk, OnErr, refl};
ghost use Rattle.std.proofs.Common.{arith, inl};
ghost use Rattle.nvm_model.specs.LastWrite.{only_last, size_last};
ghost use Rattle.nvm_model.specs.Nvm.{Makes, Reads, fault_of};
ghost use Rattle.nvm_model.specs.Write.{Torn};
ghost use Rattle.small_device.specs.Mirror.{mirror_state, mirror_images, mirrored_part, new_state};

use nvm_model::{Nvm, NvmFault};

/// The driver of a part that keeps octets without power. What a part does no contract can say.
pub trait Part {
    /// Writes these octets from this place on, and touches no others; whether the part said that it did.
    fn write(&mut self, at: usize, bytes: &[u8]) -> bool;
}

/// A part, and a copy of its octets in working memory, which is what is read and what contracts speak of. That the part
/// holds what the copy has is the driver's to see to.
///
/// It never answers Cut: where power is lost the program ends too. A cut may fall inside each write.
#[derive(Drop)]
pub struct MirroredNvm<P> {
    part: P,
    octets: Vec<u8>,
    clock: u64,
    faults: u64,
    last_at: usize,
    last_len: usize,
}

impl<P> MirroredNvm<P> {
    /// A part, and the octets that were read of it.
    pub fn new(part: P, octets: Vec<u8>) -> MirroredNvm<P>
        ensures state { mirror_state result ≡ new_state octets.items }
        ensures part { mirrored_part result ≡ part }
    {
        MirroredNvm {
            part,
            octets,
            clock: 0,
            faults: 0,
            last_at: 0,
            last_len: 0,
        }
    }

    /// Gives the part back, as after a fault, when its octets are to be read again.
    pub fn into_part(self) -> P
        ensures part { result ≡ mirrored_part self }
    {
        self.part
    }
}

impl<P: Part> Nvm for MirroredNvm<P> {
    ghost state = { mirror_state };

    ghost images = { mirror_images };

    ghost only_now = { λ m image. only_last m.clock m.last_at m.last_len m.octets.items image };

    ghost now_too = { λ m t _. inl refl };

    ghost one_size = { λ m t image _. size_last t m.clock m.last_at m.last_len m.octets.items image };

    ghost fits = { λ m. Prim.omega (arith, m.octets.ok.0, m.octets.ok.1, m.octets.small) };

    fn size(&self) -> usize {
        self.octets.len()
    }

    fn read(&mut self, at: usize, out: &mut [u8]) -> Result<(), NvmFault> {
        out.copy_from_slice(&self.octets[at..at + out.len()]);
        Ok(())
    }

    fn write(&mut self, at: usize, bytes: &[u8]) -> Result<(), NvmFault>
        requires inside { at + length bytes.now ≤ length (mirror_state self.old).octets }
        requires not_empty { 0 < length bytes.now }
        ensures makes { Makes (record { at = at; bytes = bytes.now } ∷ []) (fault_of result)
            (mirror_state self.old) (mirror_state self.new) (mirror_images self.old) (mirror_images self.new) }
        // A cut inside this write may have left any octets in its range, whatever the answer.
        ensures many { (mirror_state self.old).clock < (mirror_state self.new).clock
            → (image : List ℕ) → Torn at (length bytes.now) (mirror_state self.old).octets image
            → mirror_images self.new (mirror_state self.old).clock image }
        ensures unchanged { OnErr result ((mirror_state self.new).octets ≡ (mirror_state self.old).octets) }
    {
        self.clock = self.clock.saturating_add(1);
        self.last_at = at;
        self.last_len = bytes.len();
        if !self.part.write(at, bytes) {
            self.faults = self.faults.saturating_add(1);
            return Err(NvmFault::Failed);
        }
        self.octets[at..at + bytes.len()].copy_from_slice(bytes);
        Ok(())
    }
}
