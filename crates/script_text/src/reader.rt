ghost use Rattle.std.specs.Prelude.{◌≡◌, ◌≢◌, ◌∷◌, ◌<◌, ℕ, None, [], length, slice_get, Some, Ok, Err, IfOk, IfErr, OnOk};
ghost use Rattle.text_lines.specs.Lines.{line_of};
ghost use Rattle.script_text.specs.Lists.{added, moves_lanes, nothing_said, IsKnown, IsSaid, IsSettled, IsLineRefusal, TakesSaid};
ghost use Rattle.script_text.specs.Said.{lanes_at, standing, IsRefusal};
ghost use Rattle.script_text.specs.Reading.{kind_said, late_said, line_said, lane_of_node, mark_said, said_in, settled_by, words_said};

use crate::Event;
use crate::early::{
    read_group_line, read_head, read_node, read_object, read_role_line, read_tool_line, refuse_head,
};
use crate::fault::Refusal;
use crate::late::read_event;
use crate::lists::Lists;
use crate::node_lanes::all_lanes;
use crate::said::{MarkLine, NodeLine, Said, Stage};
use crate::words::{read_lane, read_number48};
use key_tables::{Lane, LaneList, three_words};
use knx_base::Cause;
use std::alloc::Global;
use text_lines::{Words, judge_line};

// What the lines so far say, and the lanes of each node, from the first line on that asks for them.
#[derive(Drop)]
pub(crate) struct Reader {
    pub(crate) lists: Lists,
    pub(crate) lanes: Vec<LaneList>,
}

impl Reader {
    pub(crate) fn new(alloc: Global) -> Reader
        ensures nothing { result.lists ≡ nothing_said }
        ensures none { result.lanes.items ≡ [] }
    {
        Reader {
            lists: Lists::new(alloc),
            lanes: Vec::new(alloc),
        }
    }

    pub(crate) fn of_lists(alloc: Global, lists: Lists) -> Reader
        ensures lists { result.lists ≡ lists }
        ensures none { result.lanes.items ≡ [] }
    {
        Reader {
            lists,
            lanes: Vec::new(alloc),
        }
    }

    // Takes what a line says.
    #[tactic(auto, unfolding(crate::specs::Reading::line_said))]
    pub(crate) fn take(&mut self, alloc: Global, number: u64, line: &[u8]) -> Result<(), Refusal>
        requires known { IsKnown self.old.lists self.old.lanes.items }
        ensures known { OnOk result (IsKnown self.new.lists self.new.lanes.items) }
        ensures taken { OnOk result (TakesSaid self.old.lists (line_said self.old.lists number line.now)
            self.new.lists) }
        ensures fault { IfErr result (λ why. IsLineRefusal why (line_said self.old.lists number line.now)) }
    {
        match judge_line(line) {
            Ok(Some(mut words)) => self.take_words(alloc, number, line, &mut words),
            Ok(None) => Ok(()),
            Err(cause) => Err(Refusal::Cause(cause)),
        }
    }

    #[tactic(auto, using(crate::proofs::Known::takes_said))]
    fn take_words(
        &mut self,
        alloc: Global,
        number: u64,
        line: &[u8],
        words: &mut Words<'_>,
    ) -> Result<(), Refusal>
        requires line { line_of line.now ≡ Ok (Some words.old) }
        requires known { IsKnown self.old.lists self.old.lanes.items }
        ensures known { OnOk result (IsKnown self.new.lists self.new.lanes.items) }
        ensures taken { OnOk result (TakesSaid self.old.lists (said_in self.old.lists number (Some words.old))
            self.new.lists) }
        ensures fault { IfErr result (λ why. IsLineRefusal why (said_in self.old.lists number (Some words.old))) }
    {
        match self.read_words(alloc, number, line, words) {
            Ok(said) => self.add(said),
            Err(why) => Err(why),
        }
    }

    fn add(&mut self, said: Said) -> Result<(), Refusal>
        requires said { IsSaid (length self.old.lists.nodes) said }
        requires known { IsKnown self.old.lists self.old.lanes.items }
        ensures known { OnOk result (IsKnown self.new.lists self.new.lanes.items) }
        ensures added { OnOk result ((self.new.lists ≡ added self.old.lists said)
            × (standing self.old.lists said ≡ None)) }
        ensures fault { IfErr result (λ why. IsRefusal why (standing self.old.lists said)) }
    {
        self.forget_lanes(&said);
        self.lists.add(said)
    }

    // The lanes of before may be others with it.
    #[tactic(auto, using(crate::proofs::Known::still_known, crate::proofs::Known::none_known))]
    fn forget_lanes(&mut self, said: &Said)
        requires known { IsKnown self.old.lists self.old.lanes.items }
        ensures same { self.new.lists ≡ self.old.lists }
        ensures known { IsKnown (added self.old.lists said.now) self.new.lanes.items }
    {
        if said.moves_lanes() {
            self.lanes.clear();
        }
    }

    fn read_words(
        &mut self,
        alloc: Global,
        number: u64,
        line: &[u8],
        words: &mut Words<'_>,
    ) -> Result<Said, Refusal>
        requires line { line_of line.now ≡ Ok (Some words.old) }
        requires known { IsKnown self.old.lists self.old.lanes.items }
        ensures same { self.new.lists ≡ self.old.lists }
        ensures known { IsKnown self.new.lists self.new.lanes.items }
        ensures said { result ≢ Err Refusal.NoMemory → result ≡ words_said self.old.lists number words.old }
        ensures ranges { IfOk result (IsSaid (length self.old.lists.nodes)) }
    {
        if self.lists.stage.is_start() {
            return read_head(words);
        }
        match words.next() {
            Some(kind) => self.read_kind(alloc, number, line, kind, words),
            None => Err(Refusal::Cause(Cause::Words)),
        }
    }

    #[tactic(auto, unfolding(crate::specs::Reading::kind_said))]
    fn read_kind(
        &mut self,
        alloc: Global,
        number: u64,
        line: &[u8],
        kind: &str,
        words: &mut Words<'_>,
    ) -> Result<Said, Refusal>
        requires line { line_of line.now ≡ Ok (Some (kind.now ∷ words.old)) }
        requires known { IsKnown self.old.lists self.old.lanes.items }
        ensures same { self.new.lists ≡ self.old.lists }
        ensures known { IsKnown self.new.lists self.new.lanes.items }
        ensures said { result ≢ Err Refusal.NoMemory → result ≡ kind_said self.old.lists number kind.now words.old }
        ensures ranges { IfOk result (IsSaid (length self.old.lists.nodes)) }
    {
        match kind {
            "knx-script" => refuse_head(words),
            "group" => read_group_line(&self.lists, line, kind, words),
            "tool" => read_tool_line(&self.lists, line, kind, words),
            "role" => read_role_line(&self.lists, line, kind, words),
            "node" => read_node(&self.lists, number, words),
            "object" => read_object(&self.lists, words),
            _ => self.read_late(alloc, kind, words),
        }
    }

    // A mark or an event.
    fn read_late(
        &mut self,
        alloc: Global,
        kind: &str,
        words: &mut Words<'_>,
    ) -> Result<Said, Refusal>
        requires known { IsKnown self.old.lists self.old.lanes.items }
        ensures same { self.new.lists ≡ self.old.lists }
        ensures known { IsKnown self.new.lists self.new.lanes.items }
        ensures said { result ≢ Err Refusal.NoMemory → result ≡ late_said self.old.lists (settled_by self.old.lists)
            kind.now words.old }
        ensures ranges { IfOk result (IsSaid (length self.old.lists.nodes)) }
    {
        let settled = self.settle(alloc);
        if let Err(Refusal::NoMemory) = settled {
            return Err(Refusal::NoMemory);
        }
        if kind == "mark" {
            return self.read_mark(settled, words);
        }
        let event: Event = read_event(&self.lists, settled, kind, words)?;
        Ok(Said::Event(event))
    }

    // No node has too many lanes.
    pub(crate) fn settle(&mut self, alloc: Global) -> Result<(), Refusal>
        requires known { IsKnown self.old.lists self.old.lanes.items }
        ensures same { self.new.lists ≡ self.old.lists }
        ensures known { IsKnown self.new.lists self.new.lanes.items }
        ensures settled { OnOk result (IsSettled self.new.lists self.new.lanes.items) }
        ensures answer { result ≢ Err Refusal.NoMemory → result ≡ settled_by self.old.lists }
    {
        if self.lanes.is_empty() {
            self.lanes = all_lanes(alloc, &self.lists)?;
        }
        Ok(())
    }

    fn read_mark(
        &self,
        settled: Result<(), Refusal>,
        words: &mut Words<'_>,
    ) -> Result<Said, Refusal>
        requires settled { settled ≡ Ok tt → IsSettled self.now.lists self.now.lanes.items }
        ensures said { result ≡ mark_said self.now.lists settled words.old }
        ensures ranges { IfOk result (IsSaid (length self.now.lists.nodes)) }
    {
        let (name, lane, number) = three_words(words)?;
        self.lists.in_order(Stage::Marks)?;
        settled?;
        let (place, node) = self.lists.placed(name)?;
        let lane = self.read_lane_at(place, lane)?;
        Ok(Said::Mark(MarkLine {
            node: node.address,
            lane,
            number: read_number48(number, 0)?,
        }))
    }

    // A lane of the node at this place.
    fn read_lane_at(&self, place: usize, word: &str) -> Result<Lane, Cause>
        requires settled { IsSettled self.now.lists self.now.lanes.items }
        requires there { place < length self.now.lists.nodes }
        ensures lane { (node : NodeLine) → slice_get self.now.lists.nodes place ≡ Some node
            → result ≡ lane_of_node self.now.lists node word.now }
    {
        let lane = read_lane(word)?;
        match self.lanes[place].place(lane) {
            Some(_) => Ok(lane),
            None => Err(Cause::Lane),
        }
    }
}

impl Said {
    // Whether the lanes of nodes may be others with it.
    fn moves_lanes(&self) -> bool
        ensures { result ≡ moves_lanes self.now }
    {
        matches!(self, Said::Row(_) | Said::Node(_) | Said::Object(_))
    }
}
