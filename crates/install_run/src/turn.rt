//! What an event makes of the places of nodes and of the air.
ghost use Rattle.std.specs.Prelude.{◌≡◌, ◌<◌, ◌-◌, ◌+◌, ◌^◌, ◌≤◌, ◌++◌, Some, None, List, length, vec_len, vec_capacity, IfOk, OnErr};
ghost use Rattle.script_text.specs.Script.{IsEvent};
ghost use Rattle.install_run.specs.Machine.{has_telegram, telegrams_of, inject_turn, turn_of};
ghost use Rattle.install_run.specs.Place.{IsTurned};
ghost use Rattle.install_run.specs.Runs.{place_of};
ghost use Rattle.install_run.specs.Turn.{NodeAt};
ghost use Rattle.install_run.specs.Taking.{IsTurnedOnAir};

use crate::air::{Telegram, lose};
use crate::place::Place;
use knx_base::NoMemory;
use script_text::{Event, RawFrame};
use secure_apdu::FrameBuf;
use std::alloc::Global;
use step_text::StepOutcome;

// Takes an event. There is room for a telegram on the air. Where there is no memory nothing has changed.
pub(crate) fn turn(
    places: &mut [Place],
    air: &mut Vec<Telegram>,
    alloc: Global,
    event: &Event,
) -> Result<StepOutcome, NoMemory>
    requires event { IsEvent (length places.old) event.now }
    requires few { length air.old.items < 2 ^ 32 - 1 }
    requires room { vec_len air.old < vec_capacity air.old }
    ensures turned { IfOk result (λ outcome. IsTurned event.now places.old air.old.items outcome places.new
        air.new.items) }
    ensures unchanged { OnErr result (places.new ≡ places.old) }
    ensures air_unchanged { OnErr result (air.new.items ≡ air.old.items) }
{
    match place_of(event) {
        Some(place) => turn_node(places, air, alloc, place, event),
        None => Ok(turn_air(air, event)),
    }
}

// The node of an event that comes to one.
pub(crate) fn place_of(event: &Event) -> Option<usize>
    ensures place { result ≡ place_of event.now }
{
    match *event {
        Event::Set { node, .. }
        | Event::Send { node, .. }
        | Event::ToolSend { node, .. }
        | Event::Ask { node, .. }
        | Event::Deliver { node, .. }
        | Event::Off { node }
        | Event::On { node }
        | Event::Cut { node, .. }
        | Event::Fault { node, .. } => Some(node),
        Event::Lose { .. } | Event::Inject { .. } => None,
    }
}

// Takes an event of the node at this place.
fn turn_node(
    places: &mut [Place],
    air: &mut Vec<Telegram>,
    alloc: Global,
    place: usize,
    event: &Event,
) -> Result<StepOutcome, NoMemory>
    requires event { IsEvent (length places.old) event.now }
    requires at_node { place_of event.now ≡ Some place }
    requires few { length air.old.items < 2 ^ 32 - 1 }
    requires room { vec_len air.old < vec_capacity air.old }
    ensures turned { IfOk result (λ outcome. IsTurned event.now places.old air.old.items outcome places.new
        air.new.items) }
    ensures unchanged { OnErr result (places.new ≡ places.old) }
    ensures air_unchanged { OnErr result (air.new.items ≡ air.old.items) }
{
    let mut out = FrameBuf::new();
    let outcome = places[place].take(alloc, event, air, &mut out)?;
    put(air, &outcome, out);
    Ok(outcome)
}

// Puts what a node sealed on the air, which has room for it.
fn put(air: &mut Vec<Telegram>, outcome: &StepOutcome, out: FrameBuf)
    requires room { vec_len air.old < vec_capacity air.old }
    ensures sent { air.new.items ≡ air.old.items ++ telegrams_of (has_telegram outcome.now) out }
{
    if has_telegram(outcome) {
        let _ = air.push(Telegram::sealed(out));
    }
}

// Whether a telegram that a node sealed was put on the air.
fn has_telegram(outcome: &StepOutcome) -> bool
    ensures telegram { result ≡ has_telegram outcome.now }
{
    match outcome {
        StepOutcome::Air { .. } => true,
        StepOutcome::Acted { reply, .. } | StepOutcome::Answered { reply, .. } => reply.is_some(),
        _ => false,
    }
}

// Takes an event of no node.
fn turn_air(air: &mut Vec<Telegram>, event: &Event) -> StepOutcome
    requires no_node { place_of event.now ≡ None }
    requires few { length air.old.items < 2 ^ 32 - 1 }
    requires room { vec_len air.old < vec_capacity air.old }
    ensures turned { (nodes : List NodeAt) → IsTurnedOnAir (turn_of event.now
        (record { nodes = nodes; air = air.old.items })) nodes result air.new.items }
    ensures one_more { length air.new.items ≤ length air.old.items + 1 }
{
    match *event {
        Event::Lose { telegram } => lose(air, telegram),
        Event::Inject { octets } => inject(air, octets),
        _ => unreachable!(),
    }
}

fn inject(air: &mut Vec<Telegram>, octets: RawFrame) -> StepOutcome
    requires few { length air.old.items < 2 ^ 32 - 1 }
    requires room { vec_len air.old < vec_capacity air.old }
    ensures turned { (nodes : List NodeAt) → IsTurnedOnAir (inject_turn octets
        (record { nodes = nodes; air = air.old.items })) nodes result air.new.items }
    ensures one_more { length air.new.items ≤ length air.old.items + 1 }
{
    let _ = air.push(Telegram::injected(octets));
    StepOutcome::Air {
        telegram: air.len() as u32,
        number: None,
    }
}
