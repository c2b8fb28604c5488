ghost use Rattle.std.specs.Prelude.{◌≡◌, ◌≤◌, false, None, position, length, IsOk, IfOk, IfErr};
ghost use Rattle.std.specs.List.{list_any};
ghost use Rattle.seq_store.specs.Layout.{most_lanes};
ghost use Rattle.key_tables.specs.Lanes.{is_any, lanes_of, SendersHaveLanes};
ghost use Rattle.node_core.specs.Config.{configured, config_fault, groups_of, IsConfigFault};
ghost use Rattle.node_core.specs.Laws.{KeepsOnLanes, RaisesBeforeActing};
ghost use Rattle.node_core.specs.Node.{config_state};

use crate::{Config, ConfigFault};
use group_objects::{ObjectRow, Objects, ObjectsFault};
use key_tables::{BuildFault, LaneList, Row, Tables};
use knx_base::{GroupAddr, IndAddr, NoMemory};
use std::alloc::{AllocError, Global};

// The most lanes that a memory keeps marks for.
const MOST_LANES: usize = 64;

impl Config {
    /// The configuration of the device of this address: the rows of its installation, and its objects with their
    /// first values.
    ///
    /// A refusal tells the first fault in the order of [`ConfigFault`].
    #[tactic(auto, using(crate::proofs::Starting::none_passes, crate::proofs::Starting::values_at_start, crate::proofs::Keeping::keeps_on_lanes))]
    pub fn build(
        alloc: Global,
        address: IndAddr,
        rows: &[Row],
        objects: &[ObjectRow],
    ) -> Result<Config, ConfigFault>
        ensures config { IfOk result (λ config. config_state config ≡ configured address rows.now objects.now) }
        ensures keeps { IsOk result → KeepsOnLanes (configured address rows.now objects.now) }
        ensures raises_first { IsOk result → RaisesBeforeActing (configured address rows.now objects.now) }
        ensures stand { IsOk result → config_fault (configured address rows.now objects.now) ≡ None }
        ensures fault { IfErr result
            (λ fault. IsConfigFault fault (config_fault (configured address rows.now objects.now))) }
    {
        if let Some(index) = any_row(rows) {
            return Err(ConfigFault::Any(index));
        }
        let tables = match Tables::build(alloc, rows) {
            Ok(tables) => tables,
            Err(BuildFault::NoMemory) => return Err(ConfigFault::NoMemory),
            Err(fault) => return Err(ConfigFault::Rows(fault)),
        };
        let held = match Objects::build(alloc, objects) {
            Ok(held) => held,
            Err(ObjectsFault::NoMemory) => return Err(ConfigFault::NoMemory),
            Err(fault) => return Err(ConfigFault::Objects(fault)),
        };
        let Ok(lanes) = node_lanes(alloc, address, rows, objects) else {
            return Err(ConfigFault::NoMemory);
        };
        let count = lanes.as_slice().len();
        if count > MOST_LANES {
            return Err(ConfigFault::Lanes(count));
        }
        Ok(Config {
            address,
            tables,
            objects: held,
            lanes,
        })
    }
}

// The place of the first role row of any sender.
fn any_row(rows: &[Row]) -> Option<usize>
    ensures { result ≡ position is_any rows.now }
{
    rows.iter().position(is_any)
}

fn is_any(row: &Row) -> bool
    ensures { result ≡ is_any row.now }
{
    matches!(row, Row::Role { sender: None, .. })
}

fn node_lanes(
    alloc: Global,
    address: IndAddr,
    rows: &[Row],
    objects: &[ObjectRow],
) -> Result<LaneList, NoMemory>
    requires named { list_any is_any rows.now ≡ false }
    ensures lanes { IfOk result (λ lanes. lanes ≡ lanes_of rows.now address (groups_of objects.now)) }
    ensures senders { IsOk result → SendersHaveLanes rows.now address (groups_of objects.now) }
{
    let groups = groups_of(alloc, objects)?;
    key_tables::lanes(alloc, rows, address, &groups)
}

fn groups_of(alloc: Global, objects: &[ObjectRow]) -> Result<Vec<GroupAddr>, AllocError>
    ensures groups { IfOk result (λ groups. groups.items ≡ groups_of objects.now) }
{
    objects.iter().map(|object| object.group).collect(alloc)
}
