//! Laws that hold of every installation, also of one that no call has seen. Each has an empty body.
ghost use Rattle.std.specs.Prelude.{ℕ};
ghost use Rattle.install_run.specs.Machine.{WorldAt, node_in};
ghost use Rattle.install_run.specs.Deliverable.{HasValues, ActsOnDeliverable};
ghost use Rattle.install_run.specs.Verified.{ActsOnVerified};

/// A telegram that is on the air and not lost, for a node that runs and has a value for each of its objects, and that
/// passes every check, is acted on where it is delivered, and is the journal entry of that step; or the step's outcome
/// is Cut or Fault. Each node of a `World` has those values: `World::keeps_laws` says it without that premise.
pub fn deliverable_is_acted_on()
    ensures acts { (w : WorldAt) (node : ℕ) → HasValues (node_in w node) → ActsOnDeliverable w node }
{}

/// Each telegram that a node acts on was on the air and not lost, is for that node, and passed every check: it verifies
/// under the key of its channel, its sender may do this, and the object that it is for takes it.
#[tactic(auto, using(crate::proofs::Verifying::acts_on_verified))]
pub fn acted_on_is_verified()
    ensures verified { (w : WorldAt) → ActsOnVerified w }
{}
