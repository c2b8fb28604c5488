//! Calls of the node in a slot. One that does not run makes none.
ghost use Rattle.std.specs.Prelude.{◌≡◌, ◌^◌, ◌<◌, ◌-◌, ◌+◌, ◌≤◌, length, option_map, []};
ghost use Rattle.std.specs.Result.{result_err};
ghost use Rattle.node_core.specs.Sending.{send_transition, tool_transition, ask_transition, set_transition};
ghost use Rattle.install_run.specs.Turn.{call_turn, receive_turn, set_told, send_told, receive_told, reply_told, act_told, stop_outcome};
ghost use Rattle.install_run.specs.Counts.{HasStopCause};
ghost use Rattle.install_run.specs.Slot.{slot_at, counts_at, IsTaken, IsSound};
ghost use Rattle.install_run.specs.Holding.{heard_raises, RestoresRaised};

use crate::slot::Slot;
use group_objects::{SendService, SetFault, Value};
use knx_base::{IndAddr, Number48};
use node_core::{Act, Outcome, SendFault};
use nvm_model::NvmFault;
use secure_apdu::FrameBuf;
use step_text::StepOutcome;

impl Slot {
    // The node's own application sets a value.
    pub(crate) fn set(&mut self, object: usize, value: Value) -> StepOutcome
        ensures taken { let n = slot_at self.old in
            IsTaken (call_turn (λ s. set_transition s object value) set_told n n.standing) result (slot_at self.new)
            [] }
        ensures cause { HasStopCause result (counts_at self.old) (counts_at self.new) }
        ensures sound { IsSound (slot_at self.old) → IsSound (slot_at self.new) }
    {
        match self {
            Slot::Started(node) if node.is_running() => set_told(node.set(object, value)),
            _ => StepOutcome::Off,
        }
    }

    // The node sends for one of its objects, when so many telegrams were put on the air.
    pub(crate) fn send(
        &mut self,
        count: u32,
        object: usize,
        service: SendService,
        out: &mut FrameBuf,
    ) -> StepOutcome
        requires count { count < 2 ^ 32 - 1 }
        requires empty { out.old ≡ [] }
        ensures taken { let n = slot_at self.old in
            IsTaken (call_turn (λ s. send_transition n.config s object service) (send_told count) n n.standing)
            result (slot_at self.new) out.new }
        ensures cause { HasStopCause result (counts_at self.old) (counts_at self.new) }
        ensures sound { IsSound (slot_at self.old) → IsSound (slot_at self.new) }
        ensures raised { RestoresRaised (λ c s. (send_transition c s object service).raises) (slot_at self.old)
            (slot_at self.new) }
    {
        match self {
            Slot::Started(node) if node.is_running() => send_told(
                count,
                node.send(object, service, out),
            ),
            _ => StepOutcome::Off,
        }
    }

    // The node sends an APDU to a device.
    pub(crate) fn send_tool(
        &mut self,
        count: u32,
        to: IndAddr,
        apdu: &[u8],
        out: &mut FrameBuf,
    ) -> StepOutcome
        requires count { count < 2 ^ 32 - 1 }
        requires some { 2 ≤ length apdu.now }
        requires short { length apdu.now ≤ 16 }
        requires empty { out.old ≡ [] }
        ensures taken { let n = slot_at self.old in
            IsTaken (call_turn (λ s. tool_transition n.config s to apdu.now) (send_told count) n n.standing)
            result (slot_at self.new) out.new }
        ensures cause { HasStopCause result (counts_at self.old) (counts_at self.new) }
        ensures sound { IsSound (slot_at self.old) → IsSound (slot_at self.new) }
        ensures raised { RestoresRaised (λ c s. (tool_transition c s to apdu.now).raises) (slot_at self.old)
            (slot_at self.new) }
    {
        match self {
            Slot::Started(node) if node.is_running() => send_told(
                count,
                node.send_tool(to, apdu, out),
            ),
            _ => StepOutcome::Off,
        }
    }

    // The node asks a device for a synchronisation.
    pub(crate) fn ask(
        &mut self,
        count: u32,
        to: IndAddr,
        challenge: [u8; 6],
        out: &mut FrameBuf,
    ) -> StepOutcome
        requires count { count < 2 ^ 32 - 1 }
        requires empty { out.old ≡ [] }
        ensures taken { let n = slot_at self.old in
            IsTaken (call_turn (λ s. ask_transition n.config s to challenge) (send_told count) n n.standing)
            result (slot_at self.new) out.new }
        ensures cause { HasStopCause result (counts_at self.old) (counts_at self.new) }
        ensures sound { IsSound (slot_at self.old) → IsSound (slot_at self.new) }
        ensures raised { RestoresRaised (λ c s. (ask_transition c s to challenge).raises) (slot_at self.old)
            (slot_at self.new) }
    {
        match self {
            Slot::Started(node) if node.is_running() => send_told(
                count,
                node.ask(to, challenge, out),
            ),
            _ => StepOutcome::Off,
        }
    }

    // The octets of a telegram reach the node; there are none where it is gone.
    pub(crate) fn receive(
        &mut self,
        count: u32,
        octets: Option<&[u8]>,
        out: &mut FrameBuf,
    ) -> StepOutcome
        requires count { count < 2 ^ 32 - 1 }
        requires empty { out.old ≡ [] }
        ensures taken { let n = slot_at self.old in
            IsTaken (receive_turn count (option_map (λ octets. octets.now) octets.entry) n n.standing) result
            (slot_at self.new) out.new }
        ensures cause { HasStopCause result (counts_at self.old) (counts_at self.new) }
        ensures sound { IsSound (slot_at self.old) → IsSound (slot_at self.new) }
        ensures raised { RestoresRaised (λ c s. heard_raises c s (option_map (λ octets. octets.now) octets.entry))
            (slot_at self.old) (slot_at self.new) }
    {
        let Slot::Started(node) = self else {
            return StepOutcome::Off;
        };
        if !node.is_running() {
            return StepOutcome::Off;
        }
        let Some(octets) = octets else {
            return StepOutcome::Gone;
        };
        receive_told(count, node.receive(octets, out))
    }
}

// What came of a value that was set.
fn set_told(set: Result<(), SetFault>) -> StepOutcome
    ensures told { result ≡ set_told (result_err set) }
{
    match set {
        Ok(()) => StepOutcome::Set,
        Err(SetFault::NoObject) => StepOutcome::NoObject,
        Err(SetFault::Size) => StepOutcome::Size,
    }
}

// What came of a call that draws a number.
fn send_told(count: u32, drawn: Result<Number48, SendFault>) -> StepOutcome
    requires count { count < 2 ^ 32 - 1 }
    ensures told { result ≡ send_told count drawn }
{
    match drawn {
        Ok(number) => StepOutcome::Air {
            telegram: count + 1,
            number: Some(number),
        },
        Err(SendFault::NoObject) => StepOutcome::NoObject,
        Err(SendFault::Flag) => StepOutcome::Flag,
        Err(SendFault::NoKey) => StepOutcome::NoKey,
        Err(SendFault::Exhausted) => StepOutcome::Exhausted,
        Err(SendFault::Memory(fault)) => stop_outcome(fault),
    }
}

// What came of a telegram.
fn receive_told(count: u32, outcome: Outcome) -> StepOutcome
    requires count { count < 2 ^ 32 - 1 }
    ensures told { result ≡ receive_told count outcome }
{
    match outcome {
        Outcome::Ignored => StepOutcome::Ignored,
        Outcome::Refused(verdict) => StepOutcome::Refused(verdict),
        Outcome::Acted { number, lane, act } => StepOutcome::Acted {
            number,
            lane,
            act,
            reply: act_told(count, &act),
        },
        Outcome::Answered { challenge, reply } => StepOutcome::Answered {
            challenge,
            reply: reply_told(count, reply),
        },
        Outcome::Synced { number, kept, next } => StepOutcome::Synced { number, kept, next },
        Outcome::Stopped(fault) => stop_outcome(fault),
    }
}

fn act_told(count: u32, act: &Act) -> Option<u32>
    requires count { count < 2 ^ 32 - 1 }
    ensures told { result ≡ act_told count act.now }
{
    match act {
        Act::Read { reply, .. } => reply_told(count, *reply),
        _ => None,
    }
}

// The number that a reply gets as a telegram.
fn reply_told(count: u32, reply: Option<Number48>) -> Option<u32>
    requires count { count < 2 ^ 32 - 1 }
    ensures told { result ≡ reply_told count reply }
{
    match reply {
        Some(_) => Some(count + 1),
        None => None,
    }
}

fn stop_outcome(fault: NvmFault) -> StepOutcome
    ensures outcome { result ≡ stop_outcome fault }
{
    match fault {
        NvmFault::Cut => StepOutcome::Cut,
        NvmFault::Failed => StepOutcome::Fault,
    }
}
