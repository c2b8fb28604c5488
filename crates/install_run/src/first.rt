//! The nodes of a script as it begins.
ghost use Rattle.std.specs.Prelude.{◌≡◌, ◌<◌, ◌≤◌, ◌-◌, length, map, IfOk};
ghost use Rattle.nvm_model.specs.SimNvm.{sim_state};
ghost use Rattle.seq_store.specs.Layout.{most_lanes};
ghost use Rattle.node_core.specs.Config.{configured};
ghost use Rattle.node_core.specs.Node.{config_state};
ghost use Rattle.script_text.specs.Script.{IsNode};
ghost use Rattle.install_run.specs.First.{first_place, RowsStand, IsFormatted};
ghost use Rattle.std.specs.List.{All};

use crate::place::Place;
use key_tables::Row;
use knx_base::{NoMemory, Number48};
use node_core::{Config, ConfigFault};
use nvm_model::SimNvm;
use script_text::{Marks, NodeRow, ObjectRows};
use seq_store::{format_store, store_size};
use std::alloc::Global;

// The first places of these nodes.
pub(crate) fn first_places(
    alloc: Global,
    rows: &[Row],
    nodes: &[NodeRow],
) -> Result<Vec<Place>, NoMemory>
    requires rows { RowsStand rows.now }
    requires nodes { All (IsNode rows.now) nodes.now }
    ensures places { IfOk result (λ places. places.items ≡ map (first_place rows.now) nodes.now) }
{
    let mut places = Vec::with_capacity(alloc, nodes.len())?;
    for node in nodes {
        places.push(Place::first(alloc, rows, node)?)?;
    }
    Ok(places)
}

// The configuration of a node of these rows.
#[tactic(auto, using(crate::proofs::Beginning::refused_by_memory))]
pub(crate) fn configured(alloc: Global, rows: &[Row], node: &NodeRow) -> Result<Config, NoMemory>
    requires rows { RowsStand rows.now }
    requires node { IsNode rows.now node.now }
    ensures config { IfOk result (λ config. config_state config
        ≡ configured node.now.address rows.now node.now.objects) }
{
    match Config::build(alloc, node.address, rows, node.objects.as_slice()) {
        Ok(config) => Ok(config),
        Err(ConfigFault::NoMemory) => Err(NoMemory),
        Err(_) => unreachable!(),
    }
}

// A memory that is formatted with the node's numbers.
pub(crate) fn formatted(alloc: Global, node: &NodeRow) -> Result<SimNvm, NoMemory>
    requires lanes_fit { length node.now.marks ≤ most_lanes }
    requires next { 0 < node.now.next }
    ensures formatted { IfOk result (λ memory. IsFormatted node.now (sim_state memory)) }
{
    let marks = node.marks.as_slice();
    let mut memory = SimNvm::new(alloc, store_size(marks.len()))?;
    let reserved = before(node.next);
    match format_store(&mut memory, reserved, marks) {
        Ok(()) => Ok(memory),
        Err(_) => unreachable!(),
    }
}

// The number before this one.
fn before(number: Number48) -> Number48
    requires some { 0 < number }
    ensures before { result ≡ number - 1 }
{
    match Number48::new(number.get() - 1) {
        Some(before) => before,
        None => unreachable!(),
    }
}

// A copy of the nodes of a script.
pub(crate) fn copied_nodes(alloc: Global, nodes: &[NodeRow]) -> Result<Vec<NodeRow>, NoMemory>
    ensures nodes { IfOk result (λ copied. copied.items ≡ nodes.now) }
{
    let mut copied = Vec::with_capacity(alloc, nodes.len())?;
    for node in nodes {
        copied.push(copied_node(alloc, node)?)?;
    }
    Ok(copied)
}

fn copied_node(alloc: Global, node: &NodeRow) -> Result<NodeRow, NoMemory>
    ensures node { IfOk result (λ copied. copied ≡ node.now) }
{
    let objects = Vec::from_slice(alloc, node.objects.as_slice())?;
    let marks = Vec::from_slice(alloc, node.marks.as_slice())?;
    Ok(NodeRow {
        name: node.name,
        address: node.address,
        next: node.next,
        objects: ObjectRows::new(objects),
        marks: Marks::new(marks),
    })
}
