ghost use Rattle.std.specs.Prelude.{◌≡◌, ◌≢◌, Err, map, IfOk, IfErr};
ghost use Rattle.std.specs.List.{filter_map};
ghost use Rattle.script_text.specs.Lists.{IsSettled};
ghost use Rattle.script_text.specs.Script.{groups_of};
ghost use Rattle.script_text.specs.Said.{lanes_at, objects_at};
ghost use Rattle.script_text.specs.Reading.{settled_by};

use crate::fault::Refusal;
use crate::lists::{Lists, object_at};
use crate::said::{NodeLine, ObjectLine};
use group_objects::ObjectRow;
use key_tables::LaneList;
use knx_base::{GroupAddr, IndAddr, NoMemory};
use std::alloc::{AllocError, Global};

// The most lanes of a node.
const MOST_LANES: usize = 64;

// The lanes of each node, none of which has too many.
pub(crate) fn all_lanes(alloc: Global, lists: &Lists) -> Result<Vec<LaneList>, Refusal>
    ensures settled { IfOk result (λ lanes. IsSettled lists.now lanes.items) }
    ensures refused { IfErr result (λ why. why ≢ Refusal.NoMemory → settled_by lists.now ≡ Err why) }
{
    let mut all = Vec::new(alloc);
    for index in 0..lists.nodes.len() {
        let lanes = node_lanes(alloc, lists, &lists.nodes[index])?;
        if lanes.as_slice().len() > MOST_LANES {
            return Err(Refusal::Lanes(lists.nodes[index].line));
        }
        all.push(lanes)?;
    }
    Ok(all)
}

fn node_lanes(alloc: Global, lists: &Lists, node: &NodeLine) -> Result<LaneList, NoMemory>
    ensures lanes { IfOk result (λ lanes. lanes ≡ lanes_at lists.now node.now) }
{
    let objects = objects_at(alloc, &lists.objects, node.address)?;
    let groups = groups_of(alloc, &objects)?;
    key_tables::lanes(alloc, lists.rows.as_slice(), node.address, &groups)
}

pub(crate) fn objects_at(
    alloc: Global,
    objects: &[ObjectLine],
    node: IndAddr,
) -> Result<Vec<ObjectRow>, AllocError>
    ensures objects { IfOk result (λ rows. rows.items ≡ objects_at node objects.now) }
{
    objects
        .iter()
        .filter_map(|line| object_at(node, line))
        .collect(alloc)
}

fn groups_of(alloc: Global, objects: &[ObjectRow]) -> Result<Vec<GroupAddr>, AllocError>
    ensures groups { IfOk result (λ groups. groups.items ≡ groups_of objects.now) }
{
    objects.iter().map(|object| object.group).collect(alloc)
}
