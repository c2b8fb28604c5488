ghost use Rattle.std.specs.Prelude.{◌≡◌, None, map};

use crate::lists::Lists;
use crate::{Event, NodeRow};
use key_tables::{Row, RowList};
use std::marker::Model;

/// A script: the rows of an installation, its nodes, and what happens to them in turn. It keeps the rules of a script,
/// so each of its nodes can be configured, its memory formatted, and each of its events played.
///
/// A contract sees the three lists.
#[derive(Drop)]
pub struct Script {
    rows: RowList,
    nodes: Vec<NodeRow>,
    events: Vec<Event>,
}

impl Model for Script {
    ghost use Rattle.script_text.specs.Script.{ScriptState, IsScript};

    ghost Value = { ScriptState };

    ghost view = { λ s. record { rows = s.rows; nodes = s.nodes.items; events = s.events.items } };

    ghost invariant = { λ s. IsScript s.rows s.nodes.items s.events.items };
}

impl Script {
    ghost use Rattle.script_text.specs.Script.{IsScript};
    ghost use Rattle.script_text.specs.Said.{crowded};
    ghost use Rattle.script_text.specs.Text.{node_row, script_in};

    // The script of what was said, where the nodes are its nodes.
    pub(crate) fn of_lists(lists: Lists, nodes: Vec<NodeRow>) -> Script
        requires nodes { nodes.items ≡ map (node_row lists) lists.nodes }
        requires few { crowded lists ≡ None }
        ensures lists { result ≡ script_in lists }
        ensures keeps { IsScript result.rows result.nodes result.events }
    {
        Script {
            rows: lists.rows,
            nodes,
            events: lists.events,
        }
    }

    /// The rows of keys and roles.
    pub fn rows(&self) -> &[Row]
        ensures rows { result.now ≡ self.now.rows }
        ensures script { IsScript self.now.rows self.now.nodes self.now.events }
    {
        self.rows.as_slice()
    }

    /// The nodes, in the order of their lines.
    pub fn nodes(&self) -> &[NodeRow]
        ensures nodes { result.now ≡ self.now.nodes }
        ensures script { IsScript self.now.rows self.now.nodes self.now.events }
    {
        &self.nodes
    }

    /// The events, in their order.
    pub fn events(&self) -> &[Event]
        ensures events { result.now ≡ self.now.events }
        ensures script { IsScript self.now.rows self.now.nodes self.now.events }
    {
        &self.events
    }
}
