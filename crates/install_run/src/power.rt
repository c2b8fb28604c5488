//! Power of the node in a slot, and what is armed in its memory.
ghost use Rattle.std.specs.Prelude.{◌≡◌, ◌≤◌, [], true, None, length, IfOk, IfErr, OnErr};
ghost use Rattle.nvm_model.specs.SimNvm.{sim_state, with_cut, with_fault};
ghost use Rattle.node_core.specs.Node.{config_state, node_state, IsStarted};
ghost use Rattle.install_run.specs.Turn.{off_turn, on_turn, arm_turn};
ghost use Rattle.install_run.specs.Counts.{counts_in};
ghost use Rattle.install_run.specs.Slot.{node_at, slot_at, counts_at, IsTaken, IsSound, IsSameMemory};

use crate::slot::Slot;
use knx_base::{NoMemory, Number48};
use node_core::{Config, Node, StartRefused};
use nvm_model::SimNvm;
use script_text::Marks;
use seq_store::StoreFault;
use std::alloc::Global;
use std::mem;
use step_text::StepOutcome;

impl Slot {
    // Arms a cut in the node's memory.
    pub(crate) fn arm_cut(&mut self, write: u32, torn: u8) -> StepOutcome
        requires counts_from_one { 1 ≤ write }
        requires sound { IsSound (slot_at self.old) }
        ensures taken { IsTaken (arm_turn (with_cut write torn) (slot_at self.old)) result (slot_at self.new) [] }
        ensures counts { counts_at self.new ≡ counts_at self.old }
        ensures sound { IsSound (slot_at self.new) }
    {
        match self {
            Slot::Started(node) => node.arm_cut(write, torn),
            Slot::Stopped(_, memory) => memory.arm_cut(write, torn),
            Slot::Empty => {}
        }
        StepOutcome::Armed
    }

    // Arms a fault in the node's memory.
    pub(crate) fn arm_fail(&mut self, write: u32, torn: u8) -> StepOutcome
        requires counts_from_one { 1 ≤ write }
        requires sound { IsSound (slot_at self.old) }
        ensures taken { IsTaken (arm_turn (with_fault write torn) (slot_at self.old)) result (slot_at self.new) [] }
        ensures counts { counts_at self.new ≡ counts_at self.old }
        ensures sound { IsSound (slot_at self.new) }
    {
        match self {
            Slot::Started(node) => node.arm_fail(write, torn),
            Slot::Stopped(_, memory) => memory.arm_fail(write, torn),
            Slot::Empty => {}
        }
        StepOutcome::Armed
    }

    // The node loses its power.
    pub(crate) fn switch_off(&mut self) -> StepOutcome
        ensures taken { let n = slot_at self.old in IsTaken (off_turn n n.standing) result (slot_at self.new) [] }
        ensures counts { counts_at self.new ≡ counts_at self.old }
        ensures sound { IsSound (slot_at self.old) → IsSound (slot_at self.new) }
    {
        let (slot, outcome) = mem::replace(self, Slot::Empty).off();
        *self = slot;
        outcome
    }

    fn off(self) -> (Slot, StepOutcome)
        ensures taken { let n = slot_at self in IsTaken (off_turn n n.standing) result.1 (slot_at result.0) [] }
        ensures counts { counts_at result.0 ≡ counts_at self }
        ensures sound { IsSound (slot_at self) → IsSound (slot_at result.0) }
    {
        let node = match self {
            Slot::Started(node) => node,
            Slot::Stopped(config, memory) => return (
                Slot::Stopped(config, memory),
                StepOutcome::Off,
            ),
            Slot::Empty => return (Slot::Empty, StepOutcome::Off),
        };
        if !node.is_running() {
            return (Slot::Started(node), StepOutcome::Off);
        }
        let (config, mut memory) = node.cut();
        memory.power_off();
        (Slot::Stopped(config, memory), StepOutcome::Down)
    }

    // The node gets its power back, and starts. Where it has no memory for that nothing that is shown has changed.
    pub(crate) fn switch_on(&mut self, alloc: Global) -> Result<StepOutcome, NoMemory>
        requires sound { IsSound (slot_at self.old) }
        ensures taken { IfOk result (λ outcome. let n = slot_at self.old in
            IsTaken (on_turn n n.standing) outcome (slot_at self.new) []) }
        ensures unchanged { OnErr result (slot_at self.new ≡ slot_at self.old) }
        ensures counts { counts_at self.new ≡ counts_at self.old }
        ensures sound { IsSound (slot_at self.new) }
    {
        let (slot, outcome) = mem::replace(self, Slot::Empty).on(alloc);
        *self = slot;
        outcome
    }

    fn on(self, alloc: Global) -> (Slot, Result<StepOutcome, NoMemory>)
        requires sound { IsSound (slot_at self) }
        ensures taken { IfOk result.1 (λ outcome. let n = slot_at self in
            IsTaken (on_turn n n.standing) outcome (slot_at result.0) []) }
        ensures unchanged { OnErr result.1 (slot_at result.0 ≡ slot_at self) }
        ensures counts { counts_at result.0 ≡ counts_at self }
    {
        match self {
            Slot::Started(node) => {
                if node.is_running() {
                    return (Slot::Started(node), Ok(StepOutcome::Running));
                }
                let (config, memory) = node.cut();
                start(alloc, config, memory)
            }
            Slot::Stopped(config, memory) => start(alloc, config, memory),
            Slot::Empty => unreachable!(),
        }
    }
}

// Starts a node over its memory.
fn start(alloc: Global, config: Config, memory: SimNvm) -> (Slot, Result<StepOutcome, NoMemory>)
    requires sound { IsSound (node_at (config_state config) None (sim_state memory)) }
    ensures taken { IfOk result.1 (λ outcome. let n = node_at (config_state config) None (sim_state memory) in
        IsTaken (on_turn n None) outcome (slot_at result.0) []) }
    ensures unchanged { OnErr result.1 (slot_at result.0 ≡ node_at (config_state config) None (sim_state memory)) }
    ensures counts { counts_at result.0 ≡ counts_in (sim_state memory) }
{
    let was_on = memory.is_on();
    let mut memory = memory;
    memory.power_on();
    match started(alloc, config, memory) {
        Ok((node, marks)) => {
            let next = node.next();
            (Slot::Started(node), Ok(StepOutcome::On { next, marks }))
        }
        Err((config, mut memory)) => {
            if !was_on {
                memory.power_off();
            }
            (Slot::Stopped(config, memory), Err(NoMemory))
        }
    }
}

// A node that was started, and the marks of its lanes; or what was handed in, where there is no memory for them.
#[tactic(auto, using(crate::proofs::Sounding::only_memory))]
pub(crate) fn started(
    alloc: Global,
    config: Config,
    memory: SimNvm,
) -> Result<(Node<SimNvm>, Marks), (Config, SimNvm)>
    requires sound { IsSound (node_at (config_state config) None (sim_state memory)) }
    requires powered { (sim_state memory).powered ≡ true }
    ensures started { IfOk result (λ started. IsStarted (config_state config) (sim_state memory).octets
        (node_state started.0)) }
    ensures memory { IfOk result (λ started. IsSameMemory (sim_state memory)
        (sim_state (node_state started.0).memory)) }
    ensures marks { IfOk result (λ started. started.1 ≡ (node_state started.0).standing.numbers.marks) }
    ensures config_back { IfErr result (λ back. config_state back.0 ≡ config_state config) }
    ensures memory_back { IfErr result (λ back. IsSameMemory (sim_state memory) (sim_state back.1)) }
{
    match Node::start(alloc, config, memory) {
        Ok(node) => match marks_of(alloc, &node) {
            Ok(marks) => Ok((node, marks)),
            Err(NoMemory) => Err(node.cut()),
        },
        Err(refused) => {
            let StartRefused {
                fault,
                config,
                memory,
            } = refused;
            match fault {
                StoreFault::NoMemory => Err((config, memory)),
                StoreFault::Unformatted(_) | StoreFault::Memory(_) => unreachable!(),
            }
        }
    }
}

// The marks of a node's lanes.
fn marks_of(alloc: Global, node: &Node<SimNvm>) -> Result<Marks, NoMemory>
    requires lanes { length (node_state node.now).standing.numbers.marks ≡ length (node_state node.now).config.lanes }
    ensures marks { IfOk result (λ marks. marks ≡ (node_state node.now).standing.numbers.marks) }
{
    let lanes = node.config().lanes().len();
    let mut numbers = Vec::with_capacity(alloc, lanes)?;
    for lane in 0..lanes {
        numbers.push(node.mark(lane))?;
    }
    Ok(Marks::new(numbers))
}
