ghost use Rattle.std.specs.Prelude.{◌≡◌, ◌≤◌, false, length};
ghost use Rattle.std.specs.List.{list_any};
ghost use Rattle.seq_store.specs.Layout.{most_lanes};
ghost use Rattle.key_tables.specs.Lanes.{is_any};

mod build;
mod views;

use group_objects::Objects;
use key_tables::{LaneList, Tables};
use knx_base::IndAddr;

/// What never changes of a node: its address, the keys and roles of its installation, its objects, and the lanes on
/// which it keeps marks. No role is any sender's, and a memory has room for a mark of each lane.
#[derive(Drop)]
pub struct Config {
    pub(crate) address: IndAddr,
    pub(crate) tables: Tables,
    // The values of the objects are the node's; nothing else of them changes.
    pub(crate) objects: Objects,
    pub(crate) lanes: LaneList,
    ghost no_any: { list_any is_any tables ≡ false },
    ghost lanes_fit: { length lanes ≤ most_lanes },
    ghost values: { length objects.values ≡ length objects.rows },
}
