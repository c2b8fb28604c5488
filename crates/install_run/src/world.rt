ghost use Rattle.std.specs.Prelude.{◌≡◌, ◌<◌, ◌-◌, ◌+◌, ◌^◌, ◌≤◌, ◌++◌, ◌∷◌, [], ℕ, length, take, IfOk, vec_len, vec_capacity, OnOk, OnErr};
ghost use Rattle.std.specs.List.{All};
ghost use Rattle.script_text.specs.Script.{IsEvent};
ghost use Rattle.install_run.specs.First.{IsFirst};
ghost use Rattle.install_run.specs.Laws.{GoesByRules, KeepsLaws};
ghost use Rattle.install_run.specs.World.{IsStepped, HasRun, KeepsScript};

mod laws;
mod print;
mod summary;
mod views;

use crate::air::Telegram;
use crate::first::{copied_nodes, first_places};
use crate::place::Place;
use crate::turn::turn;
use key_tables::Row;
use knx_base::NoMemory;
use script_text::{Event, NodeRow, Script};
use std::alloc::Global;
use std::marker::Model;
use step_text::{Step, StepOutcome};

/// An installation that is stepped by events: its nodes, each over a simulated memory, and the telegrams on the air.
///
/// A contract sees the rows and the nodes of the script that it began with, the nodes as they are now with their
/// memories and the telegrams that were put on the air, the counts of the memories, and the history.
#[derive(Drop)]
pub struct World {
    alloc: Global,
    rows: Vec<Row>,
    nodes: Vec<NodeRow>,
    places: Vec<Place>,
    air: Vec<Telegram>,
    steps: Vec<Step>,
}

impl Model for World {
    ghost use Rattle.install_run.specs.World.{WorldState, world_state};
    ghost use Rattle.install_run.specs.Origin.{IsRun};

    ghost Value = { WorldState };

    ghost view = { λ w. world_state w.rows.items w.nodes.items w.places.items w.air.items w.steps.items };

    ghost invariant = { λ w. IsRun w.rows.items w.nodes.items w.places.items w.air.items w.steps.items };
}

impl World {
    /// The installation as the script begins: each node runs over a memory that was formatted with its marks, and with
    /// all numbers below its next one reserved. Nothing is armed, and no telegram is on the air.
    pub fn new(alloc: Global, script: &Script) -> Result<World, NoMemory>
        ensures first { IfOk result (λ world. IsFirst script.now.rows script.now.nodes world) }
        ensures size { IfOk result (λ world. length world.world.nodes ≡ length script.now.nodes) }
    {
        let rows = script.rows();
        let nodes = script.nodes();
        let places = first_places(alloc, rows, nodes)?;
        let kept_rows = Vec::from_slice(alloc, rows)?;
        let kept_nodes = copied_nodes(alloc, nodes)?;
        Ok(World {
            alloc,
            rows: kept_rows,
            nodes: kept_nodes,
            places,
            air: Vec::new(alloc),
            steps: Vec::new(alloc),
        })
    }

    /// Takes an event, and notes what came of it. Where there is no memory nothing has changed.
    pub fn step(&mut self, event: &Event) -> Result<(), NoMemory>
        requires event { IsEvent (length self.old.world.nodes) event.now }
        requires few { length self.old.history < 2 ^ 32 - 1 }
        ensures stepped { OnOk result (IsStepped event.now self.old self.new) }
        ensures unchanged { OnErr result (self.new ≡ self.old) }
        ensures script { KeepsScript self.old self.new }
    {
        self.air.reserve(1)?;
        self.steps.reserve(1)?;
        let outcome = turn(&mut self.places, &mut self.air, self.alloc, event)?;
        note(&mut self.steps, event, outcome);
        Ok(())
    }

    /// Takes events in turn. Where there is no memory for one of them those before it were taken.
    #[tactic(auto, using(crate::proofs::Stepping::run_none))]
    pub fn run(&mut self, events: &[Event]) -> Result<(), NoMemory>
        requires events { All (IsEvent (length self.old.world.nodes)) events.now }
        requires few { length self.old.history + length events.now < 2 ^ 32 }
        ensures run { OnOk result (HasRun events.now self.old self.new) }
        ensures begun { OnErr result ((taken : ℕ) × HasRun (take taken events.now) self.old self.new) }
        ensures script { KeepsScript self.old self.new }
        ensures laws { OnOk result (KeepsLaws self.new) }
        ensures rules { OnOk result (GoesByRules self.new) }
    {
        for event in events {
            self.step(event)?;
        }
        self.keeps_laws();
        Ok(())
    }
}

// Notes a step, for which there is room.
fn note(steps: &mut Vec<Step>, event: &Event, outcome: StepOutcome)
    requires room { vec_len steps.old < vec_capacity steps.old }
    ensures noted { steps.new.items ≡ steps.old.items ++ record { event = event.now; outcome = outcome } ∷ [] }
{
    let _ = steps.push(Step {
        event: *event,
        outcome,
    });
}
