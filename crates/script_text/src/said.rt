use crate::{Event, Name};
use group_objects::ObjectRow;
use key_tables::{Lane, Row};
use knx_base::{IndAddr, Number48};

// What a line `node` says, and the line's number.
#[derive(Clone, Copy)]
pub(crate) struct NodeLine {
    pub(crate) line: u64,
    pub(crate) name: Name,
    pub(crate) address: IndAddr,
    pub(crate) next: Number48,
}

// What a line `object` says: an object of the node with this address.
#[derive(Clone, Copy)]
pub(crate) struct ObjectLine {
    pub(crate) node: IndAddr,
    pub(crate) row: ObjectRow,
}

// What a line `mark` says: the number that the node with this address keeps on a lane.
#[derive(Clone, Copy)]
pub(crate) struct MarkLine {
    pub(crate) node: IndAddr,
    pub(crate) lane: Lane,
    pub(crate) number: Number48,
}

// What a line of a script says.
#[derive(Clone, Copy)]
pub(crate) enum Said {
    Head,
    Row(Row),
    Node(NodeLine),
    Object(ObjectLine),
    Mark(MarkLine),
    Event(Event),
}

// Which kinds of lines came so far. Each begins when the first line of its kinds comes.
#[derive(Clone, Copy)]
pub(crate) enum Stage {
    Start,
    Rows,
    Nodes,
    Marks,
    Events,
}
