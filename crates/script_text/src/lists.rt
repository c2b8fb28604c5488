ghost use Rattle.std.specs.Prelude.{◌≡◌, ◌<◌, ℕ, None, [], length, position, slice_get, option_map, find, Some, true, IfSome, IfErr, OnOk, OnErr};
ghost use Rattle.std.specs.List.{list_any, filter};
ghost use Rattle.key_tables.specs.Lanes.{same_lane};
ghost use Rattle.script_text.specs.declared.said.Said.TheVariants as said;
ghost use Rattle.script_text.specs.Parts.{same_name};
ghost use Rattle.script_text.specs.Said.{is_again, is_same_object, is_same_mark, objects_at, object_at, standing, refusal_of_row, IsRefusal};
ghost use Rattle.script_text.specs.Lists.{added, nothing_said, IsSaid};

use crate::Event;
use crate::fault::Refusal;
use crate::said::{MarkLine, NodeLine, ObjectLine, Said, Stage};
use group_objects::ObjectRow;
use key_tables::{BuildFault, Row, RowList};
use knx_base::IndAddr;
use std::alloc::Global;
use std::marker::Model;

const MOST_NODES: usize = 32;

const MOST_OBJECTS: usize = 64;

const MOST_EVENTS: usize = 100_000;

// What the lines so far say, by their kinds. A contract sees the lists.
#[derive(Drop)]
pub(crate) struct Lists {
    pub(crate) stage: Stage,
    pub(crate) rows: RowList,
    pub(crate) nodes: Vec<NodeLine>,
    pub(crate) objects: Vec<ObjectLine>,
    pub(crate) marks: Vec<MarkLine>,
    pub(crate) events: Vec<Event>,
}

impl Model for Lists {
    ghost use Rattle.script_text.specs.Said.{Before};
    ghost use Rattle.script_text.specs.Lists.{lists, Stand};

    ghost Value = { Before };

    ghost view = { λ l. lists l.stage l.rows l.nodes.items l.objects.items l.marks.items l.events.items };

    ghost invariant = { λ l. Stand (lists l.stage l.rows l.nodes.items l.objects.items l.marks.items l.events.items) };
}

impl Lists {
    #[tactic(auto, using(crate::proofs::Standing::none_stand))]
    pub(crate) fn new(alloc: Global) -> Lists
        ensures { result ≡ nothing_said }
    {
        Lists {
            stage: Stage::Start,
            rows: RowList::new(alloc),
            nodes: Vec::new(alloc),
            objects: Vec::new(alloc),
            marks: Vec::new(alloc),
            events: Vec::new(alloc),
        }
    }

    // Adds what a line says, unless it may not stand here.
    pub(crate) fn add(&mut self, said: Said) -> Result<(), Refusal>
        requires said { IsSaid (length self.old.nodes) said }
        ensures added { OnOk result ((self.new ≡ added self.old said) × (standing self.old said ≡ None)) }
        ensures fault { IfErr result (λ why. IsRefusal why (standing self.old said)) }
    {
        match said {
            Said::Head => self.stage = Stage::Rows,
            Said::Row(row) => self.add_row(row)?,
            Said::Node(node) => self.add_node(node)?,
            Said::Object(object) => self.add_object(object)?,
            Said::Mark(mark) => self.add_mark(mark)?,
            Said::Event(event) => self.add_event(event)?,
        }
        Ok(())
    }

    fn add_row(&mut self, row: Row) -> Result<(), Refusal>
        requires said { IsSaid (length self.old.nodes) (said.Row row) }
        ensures added { OnOk result ((self.new ≡ added self.old (said.Row row))
            × (standing self.old (said.Row row) ≡ None)) }
        ensures fault { IfErr result (λ why. IsRefusal why (standing self.old (said.Row row))) }
    {
        match self.rows.add(row) {
            Ok(()) => {
                self.stage = Stage::Rows;
                Ok(())
            },
            Err(fault) => Err(refusal_of_row(fault)),
        }
    }

    fn add_node(&mut self, node: NodeLine) -> Result<(), Refusal>
        requires said { IsSaid (length self.old.nodes) (said.Node node) }
        ensures added { OnOk result ((self.new ≡ added self.old (said.Node node))
            × (standing self.old (said.Node node) ≡ None)) }
        ensures fault { IfErr result (λ why. IsRefusal why (standing self.old (said.Node node))) }
    {
        if is_node_again(&self.nodes, &node) {
            return Err(Refusal::Twice);
        }
        if self.nodes.len() >= MOST_NODES {
            return Err(Refusal::TooMany);
        }
        self.nodes.push(node)?;
        self.stage = Stage::Nodes;
        Ok(())
    }

    #[tactic(auto, using(crate::proofs::Standing::objects_still_stand))]
    fn add_object(&mut self, object: ObjectLine) -> Result<(), Refusal>
        requires said { IsSaid (length self.old.nodes) (said.Object object) }
        ensures added { OnOk result ((self.new ≡ added self.old (said.Object object))
            × (standing self.old (said.Object object) ≡ None)) }
        ensures fault { IfErr result (λ why. IsRefusal why (standing self.old (said.Object object))) }
    {
        if is_object_again(&self.objects, &object) {
            return Err(Refusal::Twice);
        }
        if count_objects(&self.objects, object.node) >= MOST_OBJECTS {
            return Err(Refusal::TooMany);
        }
        self.objects.push(object)?;
        self.stage = Stage::Nodes;
        Ok(())
    }

    fn add_mark(&mut self, mark: MarkLine) -> Result<(), Refusal>
        requires said { IsSaid (length self.old.nodes) (said.Mark mark) }
        ensures added { OnOk result ((self.new ≡ added self.old (said.Mark mark))
            × (standing self.old (said.Mark mark) ≡ None)) }
        ensures fault { IfErr result (λ why. IsRefusal why (standing self.old (said.Mark mark))) }
    {
        if is_mark_again(&self.marks, &mark) {
            return Err(Refusal::Twice);
        }
        self.marks.push(mark)?;
        self.stage = Stage::Marks;
        Ok(())
    }

    fn add_event(&mut self, event: Event) -> Result<(), Refusal>
        requires said { IsSaid (length self.old.nodes) (said.Event event) }
        ensures added { OnOk result ((self.new ≡ added self.old (said.Event event))
            × (standing self.old (said.Event event) ≡ None)) }
        ensures fault { IfErr result (λ why. IsRefusal why (standing self.old (said.Event event))) }
    {
        if self.events.len() >= MOST_EVENTS {
            return Err(Refusal::TooMany);
        }
        self.events.push(event)?;
        self.stage = Stage::Events;
        Ok(())
    }
}

fn refusal_of_row(fault: BuildFault) -> Refusal
    ensures { result ≡ refusal_of_row fault }
{
    match fault {
        BuildFault::Twice(_) => Refusal::Twice,
        BuildFault::TooMany(_) => Refusal::TooMany,
        BuildFault::NoMemory => Refusal::NoMemory,
    }
}

fn is_node_again(nodes: &[NodeLine], node: &NodeLine) -> bool
    ensures { result ≡ list_any (is_again node.now) nodes.now }
{
    nodes.iter().any(|other| is_same_name(node, other) || node.address == other.address)
}

fn is_same_name(node: &NodeLine, other: &NodeLine) -> bool
    ensures { result ≡ same_name node.now.name other.now.name }
{
    node.name.as_bytes() == other.name.as_bytes()
}

fn is_object_again(objects: &[ObjectLine], object: &ObjectLine) -> bool
    ensures { result ≡ list_any (is_same_object object.now) objects.now }
{
    objects.iter().any(|other| other.node == object.node && other.row.group == object.row.group)
}

fn count_objects(objects: &[ObjectLine], node: IndAddr) -> usize
    ensures { result ≡ length (objects_at node objects.now) }
{
    objects
        .iter()
        .filter_map(|line| object_at(node, line))
        .count()
}

pub(crate) fn object_at(node: IndAddr, line: &ObjectLine) -> Option<ObjectRow>
    ensures { result ≡ object_at node line.now }
{
    if line.node == node {
        Some(line.row)
    } else {
        None
    }
}

fn is_mark_again(marks: &[MarkLine], mark: &MarkLine) -> bool
    ensures { result ≡ list_any (is_same_mark mark.now) marks.now }
{
    marks
        .iter()
        .any(|other| other.node == mark.node && other.lane == mark.lane)
}
