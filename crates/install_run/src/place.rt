//! The place of a node: the node, and its journal.
ghost use Rattle.std.specs.Prelude.{◌≡◌, ◌<◌, ◌-◌, ◌^◌, ◌++◌, [], length, IsSome, IfOk, OnErr, option_to_list};
ghost use Rattle.std.specs.Option.{is_some};
ghost use Rattle.install_run.specs.Counts.{HasStopCause};
ghost use Rattle.script_text.specs.Script.{IsNode};
ghost use Rattle.install_run.specs.First.{first_place, RowsStand};
ghost use Rattle.install_run.specs.Runs.{place_of, entries_of};
ghost use Rattle.install_run.specs.Taking.{IsSomeEvent, IsTakenBy};
ghost use Rattle.install_run.specs.Holding.{IsHeld};

pub(crate) mod print;

use crate::air::Telegram;
use crate::first::{configured, formatted};
use crate::power::started;
use crate::slot::Slot;
use key_tables::Row;
use knx_base::NoMemory;
use script_text::{Event, NodeRow};
use secure_apdu::FrameBuf;
use std::alloc::Global;
use std::marker::Model;
use step_text::{Entry, StepOutcome};

// The place of a node. Its memory restores the numbers of the node's lanes.
//
// A contract sees the node with its memory, the memory's counts, and the journal.
#[derive(Drop)]
pub(crate) struct Place {
    slot: Slot,
    journal: Vec<Entry>,
}

impl Model for Place {
    ghost use Rattle.install_run.specs.Place.{PlaceAt};
    ghost use Rattle.install_run.specs.Slot.{slot_at, counts_at, IsSound};

    ghost Value = { PlaceAt };

    ghost view = { λ p. record { node = slot_at p.slot; counts = counts_at p.slot; journal = p.journal.items } };

    ghost invariant = { λ p. IsSound (slot_at p.slot) };
}

impl Place {
    // The first place of a node of these rows.
    pub(crate) fn first(alloc: Global, rows: &[Row], node: &NodeRow) -> Result<Place, NoMemory>
        requires rows { RowsStand rows.now }
        requires node { IsNode rows.now node.now }
        ensures place { IfOk result (λ place. place ≡ first_place rows.now node.now) }
    {
        let config = configured(alloc, rows, node)?;
        let memory = formatted(alloc, node)?;
        match started(alloc, config, memory) {
            Ok((started, _)) => Ok(Place {
                slot: Slot::Started(started),
                journal: Vec::new(alloc),
            }),
            Err(_) => Err(NoMemory),
        }
    }

    // Takes an event of the node, while these telegrams are on the air.
    pub(crate) fn take(
        &mut self,
        alloc: Global,
        event: &Event,
        air: &[Telegram],
        out: &mut FrameBuf,
    ) -> Result<StepOutcome, NoMemory>
        requires at_node { IsSome (place_of event.now) }
        requires event { IsSomeEvent event.now }
        requires few { length air.now < 2 ^ 32 - 1 }
        requires empty { out.old ≡ [] }
        ensures taken { IfOk result (λ outcome. IsTakenBy event.now air.now self.old.node outcome self.new.node
            out.new) }
        ensures cause { IfOk result (λ outcome. HasStopCause outcome self.old.counts self.new.counts) }
        ensures journal { IfOk result (λ outcome. self.new.journal ≡ self.old.journal ++ entries_of event.now outcome) }
        ensures held { IfOk result (λ outcome. IsHeld event.now air.now self.old.node self.new.node) }
        ensures unchanged { OnErr result (self.new ≡ self.old) }
    {
        self.journal.reserve(1)?;
        let outcome = self.slot.take(alloc, event, air, out)?;
        if let Some(entry) = entry_of(event, &outcome) {
            let _ = self.journal.push(entry);
        }
        Ok(outcome)
    }

    // The entries of the journal, in their order.
    pub(crate) fn journal(&self) -> &[Entry]
        ensures journal { result.now ≡ self.now.journal }
    {
        &self.journal
    }

    // The octets of the node's memory.
    pub(crate) fn image(&self) -> &[u8]
        ensures octets { result.now ≡ self.now.node.octets }
    {
        match &self.slot {
            Slot::Started(node) => node.memory().image(),
            Slot::Stopped(_, memory) => memory.image(),
            Slot::Empty => &[],
        }
    }

    pub(crate) fn is_running(&self) -> bool
        ensures running { result ≡ is_some self.now.node.standing }
    {
        match &self.slot {
            Slot::Started(node) => node.is_running(),
            Slot::Stopped(..) | Slot::Empty => false,
        }
    }
}

// What a step adds to the journal of its node.
fn entry_of(event: &Event, outcome: &StepOutcome) -> Option<Entry>
    ensures entry { option_to_list result ≡ entries_of event.now outcome.now }
{
    match (event, outcome) {
        (Event::Set { object, value, .. }, StepOutcome::Set) => Some(Entry::Set {
            object: *object,
            value: *value,
        }),
        (
            Event::Deliver { telegram, .. },
            StepOutcome::Acted {
                number,
                lane,
                act,
                ..
            },
        ) => {
            Some(Entry::Telegram {
                telegram: *telegram,
                number: *number,
                lane: *lane,
                act: *act,
            })
        }
        _ => None,
    }
}
