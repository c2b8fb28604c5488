ghost use Rattle.std.specs.Prelude.{◌≡◌, ℕ, ◌+◌, ◌^◌, ◌<◌, ◌≤◌, List, [], ◌∷◌, length, slice_range, OnOk};
ghost use Rattle.nvm_model.specs.Nvm.{State, Reads, Makes, fault_of};

use crate::NvmFault;

/// A memory of a fixed number of octets that keeps them without power.
///
/// A cut inside a write leaves any octets in the range of that write and all others as they were, and so does a write
/// that answers Failed. A call answers Failed only where the count of faults rose in it, and Cut only where the count
/// of cuts rose in it or power was off before it; Ok leaves both counts as they were. A call that answers Cut leaves
/// power off, and every other leaves it on.
///
/// What a cut may have left is told by `images`, for any moment since a value of the clock, so that the contract of a
/// call speaks of each moment inside it, whatever it answers. A memory may be cut inside a write that it answers Ok or
/// Failed.
pub trait Nvm {
    /// Octets, power, clock, counts of faults and of cuts, and the plan where it is told.
    ghost state: { Self → State };

    /// The octets that a cut at some moment since this value of the clock may have left.
    ghost images: { Self → ℕ → List ℕ → Type 0 };

    /// The number of octets.
    fn size(&self) -> usize
        ensures octets { result ≡ length (state self.now).octets };

    /// Reads the octets from `at` on into the whole of `out`. It changes no octet, and never fails where the plan is
    /// told and power is on.
    fn read(&mut self, at: usize, out: &mut [u8]) -> Result<(), NvmFault>
        requires inside { at + length out.old ≤ length (state self.old).octets }
        requires not_empty { 0 < length out.old }
        ensures octets { OnOk result (out.new ≡ slice_range (state self.old).octets at (at + length out.old)) }
        ensures reads { Reads (fault_of result) (state self.old) (state self.new) (images self.old) (images self.new) };

    /// Writes all of `bytes` from `at` on. Where the plan is told and power is on, what it does is the strike of that
    /// plan.
    fn write(&mut self, at: usize, bytes: &[u8]) -> Result<(), NvmFault>
        requires inside { at + length bytes.now ≤ length (state self.old).octets }
        requires not_empty { 0 < length bytes.now }
        ensures makes { Makes (record { at = at; bytes = bytes.now } ∷ []) (fault_of result)
            (state self.old) (state self.new) (images self.old) (images self.new) };

    /// Since this moment there is what is read now, and nothing else.
    ghost only_now: { (m : Self) (c : List ℕ) → images m (state m).clock c → c ≡ (state m).octets };

    /// What is read now is an image since every moment.
    ghost now_too: { (m : Self) (t : ℕ) → t ≤ (state m).clock → images m t (state m).octets };

    /// Every image has the memory's size.
    ghost one_size: { (m : Self) (t : ℕ) (c : List ℕ) → t ≤ (state m).clock → images m t c
        → length c ≡ length (state m).octets };

    /// The size fits a `usize`.
    ghost fits: { (m : Self) → length (state m).octets < 2 ^ 64 };
}
