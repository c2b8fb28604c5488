//! The events of a node.
ghost use Rattle.std.specs.Prelude.{◌≡◌, ◌<◌, ◌-◌, ◌^◌, [], length, IsSome, IfOk, OnErr, option_map};
ghost use Rattle.group_objects.specs.Value.{ObjectValue};
ghost use Rattle.install_run.specs.Runs.{place_of};
ghost use Rattle.install_run.specs.Counts.{HasStopCause};
ghost use Rattle.install_run.specs.Slot.{slot_at, counts_at, IsSound};
ghost use Rattle.install_run.specs.Taking.{IsSomeEvent, IsTakenBy};
ghost use Rattle.install_run.specs.Holding.{IsHeld};

use crate::air::{Telegram, heard};
use crate::slot::Slot;
use knx_base::NoMemory;
use script_text::Event;
use secure_apdu::FrameBuf;
use std::alloc::Global;
use step_text::StepOutcome;

impl Slot {
    // Takes an event of the node, while these telegrams are on the air.
    pub(crate) fn take(
        &mut self,
        alloc: Global,
        event: &Event,
        air: &[Telegram],
        out: &mut FrameBuf,
    ) -> Result<StepOutcome, NoMemory>
        requires at_node { IsSome (place_of event.now) }
        requires event { IsSomeEvent event.now }
        requires few { length air.now < 2 ^ 32 - 1 }
        requires sound { IsSound (slot_at self.old) }
        requires empty { out.old ≡ [] }
        ensures taken { IfOk result (λ outcome. IsTakenBy event.now air.now (slot_at self.old) outcome
            (slot_at self.new) out.new) }
        ensures cause { IfOk result (λ outcome. HasStopCause outcome (counts_at self.old) (counts_at self.new)) }
        ensures unchanged { OnErr result (slot_at self.new ≡ slot_at self.old) }
        ensures uncounted { OnErr result (counts_at self.new ≡ counts_at self.old) }
        ensures sound { IsSound (slot_at self.new) }
        ensures held { IfOk result (λ outcome. IsHeld event.now air.now (slot_at self.old) (slot_at self.new)) }
    {
        let count = air.len() as u32;
        match *event {
            Event::Set { object, value, .. } => Ok(self.set(object, value)),
            Event::Send {
                object,
                service,
                ..
            } => Ok(self.send(count, object, service, out)),
            Event::ToolSend { to, apdu, .. } => Ok(self.send_tool(count, to, apdu.bytes(), out)),
            Event::Ask { to, challenge, .. } => Ok(self.ask(count, to, challenge, out)),
            Event::Deliver { telegram, .. } => Ok(self.receive(count, heard(air, telegram), out)),
            Event::Off { .. } => Ok(self.switch_off()),
            Event::On { .. } => self.switch_on(alloc),
            Event::Cut { write, torn, .. } => Ok(self.arm_cut(write, torn)),
            Event::Fault { write, torn, .. } => Ok(self.arm_fail(write, torn)),
            Event::Lose { .. } | Event::Inject { .. } => unreachable!(),
        }
    }
}
