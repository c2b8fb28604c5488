ghost use Rattle.std.specs.Prelude.{◌≡◌, List, ℕ, Some};
ghost use Rattle.cemi_frames.specs.Frames.{AreOctets};
ghost use Rattle.cemi_frames.specs.Faults.{info_misfit};
ghost use Rattle.cemi_frames.specs.Law.{HasOneAnswer, IsReadAsItIs, IsFirstMisfit, info_of};

/// Octets are exactly one frame, or have exactly one fault. There is nothing to run: the contract is the law.
pub fn one_frame_or_one_fault()
    ensures one { (octets : List ℕ) → AreOctets octets → HasOneAnswer octets }
    ensures read { (octets : List ℕ) → AreOctets octets → IsReadAsItIs octets }
    // The place of a row that does not fit is that of the first one.
    ensures first { (octets : List ℕ) (place : ℕ) → info_misfit octets ≡ Some place
        → IsFirstMisfit (info_of octets) 2 place }
{}
