ghost use Rattle.std.specs.Prelude.{◌≡◌, ℕ, Ok, IfOk, IfErr, OnOk, map, find, option_map};
ghost use Rattle.script_text.specs.Lists.{IsKnown, IsSettled, IsLineFault, TakesSaid};
ghost use Rattle.script_text.specs.Said.{fault_at, lanes_at};
ghost use Rattle.script_text.specs.Reading.{at_line, line_said};
ghost use Rattle.script_text.specs.Script.{IsScript};
ghost use Rattle.script_text.specs.Text.{ended, is_mark_of, mark_in, node_row, script_of, IsTextFault};

use crate::fault::Refusal;
use crate::lists::Lists;
use crate::node_lanes::objects_at;
use crate::reader::Reader;
use crate::said::{MarkLine, NodeLine};
use crate::{Marks, NodeRow, ObjectRows, Script, ScriptFault};
use key_tables::{Lane, LaneList};
use knx_base::{Cause, IndAddr, Number48};
use std::alloc::{AllocError, Global};
use text_lines::Lines;

/// The script of a text, or the fault of its first refused line.
///
/// A line is refused as a line of text, then for an unknown first word or a wrong number of words, then for its kind
/// after the kinds before it, then for its first bad word from left to right, then because it says again what a line
/// before it says, and then because there are too many of its kind.
#[tactic(auto, using(crate::proofs::Scripts::begins, crate::proofs::Scripts::line_refused, crate::proofs::Scripts::all_read))]
pub fn read_script(alloc: Global, bytes: &[u8]) -> Result<Script, ScriptFault>
    ensures script { IfOk result (λ script. script_of bytes.now ≡ Ok script) }
    ensures keeps { IfOk result (λ script. IsScript script.rows script.nodes script.events) }
    ensures fault { IfErr result (λ fault. IsTextFault fault (script_of bytes.now)) }
{
    let mut reader = Reader::new(alloc);
    let mut lines = Lines::new(bytes);
    'lines: while let Some((number, line)) = lines.next() {
        take_line(&mut reader, alloc, number, line)?;
    }
    finish(reader, alloc)
}

fn take_line(
    reader: &mut Reader,
    alloc: Global,
    number: u64,
    line: &[u8],
) -> Result<(), ScriptFault>
    requires known { IsKnown reader.old.lists reader.old.lanes.items }
    ensures known { OnOk result (IsKnown reader.new.lists reader.new.lanes.items) }
    ensures taken { OnOk result (TakesSaid reader.old.lists (line_said reader.old.lists number line.now)
        reader.new.lists) }
    ensures fault { IfErr result (λ fault. IsLineFault fault
        (at_line number (line_said reader.old.lists number line.now))) }
{
    match reader.take(alloc, number, line) {
        Ok(()) => Ok(()),
        Err(why) => Err(fault_at(number, why)),
    }
}

fn fault_at(number: u64, refusal: Refusal) -> ScriptFault
    ensures { result ≡ fault_at number refusal }
{
    match refusal {
        Refusal::Cause(cause) => ScriptFault::Line(number, cause),
        Refusal::Order => ScriptFault::Order(number),
        Refusal::Twice => ScriptFault::Twice(number),
        Refusal::TooMany => ScriptFault::TooMany(number),
        Refusal::Lanes(line) => ScriptFault::TooMany(line),
        Refusal::NoMemory => ScriptFault::NoMemory,
    }
}

// The script of all lines.
pub(crate) fn finish(mut reader: Reader, alloc: Global) -> Result<Script, ScriptFault>
    requires known { IsKnown reader.lists reader.lanes.items }
    ensures script { IfOk result (λ script. ended reader.lists ≡ Ok script) }
    ensures keeps { IfOk result (λ script. IsScript script.rows script.nodes script.events) }
    ensures fault { IfErr result (λ fault. IsTextFault fault (ended reader.lists)) }
{
    if reader.lists.stage.is_start() {
        return Err(ScriptFault::Line(1, Cause::Words));
    }
    match reader.settle(alloc) {
        Ok(()) => {},
        Err(why) => return Err(fault_at(1, why)),
    }
    match node_rows(alloc, &reader.lists, &reader.lanes) {
        Ok(nodes) => Ok(Script::of_lists(reader.lists, nodes)),
        Err(_) => Err(ScriptFault::NoMemory),
    }
}

// The nodes with their objects and their marks.
fn node_rows(alloc: Global, lists: &Lists, lanes: &[LaneList]) -> Result<Vec<NodeRow>, AllocError>
    requires settled { IsSettled lists.now lanes.now }
    ensures rows { IfOk result (λ rows. rows.items ≡ map (node_row lists.now) lists.now.nodes) }
{
    let mut rows = Vec::new(alloc);
    for index in 0..lists.nodes.len() {
        let row = node_row(alloc, lists, &lists.nodes[index], &lanes[index])?;
        rows.push(row)?;
    }
    Ok(rows)
}

fn node_row(
    alloc: Global,
    lists: &Lists,
    node: &NodeLine,
    lanes: &LaneList,
) -> Result<NodeRow, AllocError>
    requires lanes { lanes.now ≡ lanes_at lists.now node.now }
    ensures row { IfOk result (λ row. row ≡ node_row lists.now node.now) }
{
    let objects = objects_at(alloc, &lists.objects, node.address)?;
    let marks = marks_at(alloc, &lists.marks, node.address, lanes.as_slice())?;
    Ok(NodeRow {
        name: node.name,
        address: node.address,
        next: node.next,
        objects: ObjectRows::new(objects),
        marks: Marks::new(marks),
    })
}

fn marks_at(
    alloc: Global,
    marks: &[MarkLine],
    node: IndAddr,
    lanes: &[Lane],
) -> Result<Vec<Number48>, AllocError>
    ensures marks { IfOk result (λ numbers. numbers.items ≡ map (mark_in marks.now node) lanes.now) }
{
    lanes
        .iter()
        .map(|lane| mark_in(marks, node, *lane))
        .collect(alloc)
}

fn mark_in(marks: &[MarkLine], node: IndAddr, lane: Lane) -> Number48
    ensures { result ≡ mark_in marks.now node lane }
{
    match find_mark(marks, node, lane) {
        Some(mark) => mark.number,
        None => zero(),
    }
}

fn zero() -> Number48
    ensures { result ≡ 0 }
{
    Number48::new(0).unwrap()
}

fn find_mark(marks: &[MarkLine], node: IndAddr, lane: Lane) -> Option<&MarkLine>
    ensures { option_map (λ mark. mark.now) result ≡ find (is_mark_of node lane) marks.now }
{
    marks
        .iter()
        .find(|mark| mark.node == node && mark.lane == lane)
}
