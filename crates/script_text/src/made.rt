ghost use Rattle.std.specs.Prelude.{◌≡◌, ℕ, ◌+◌, ◌<◌, ◌≤◌, ◌∷◌, ◌++◌, false, [], length, None, IfErr, IfOk, OnOk};
ghost use Rattle.std.specs.List.{list_any};
ghost use Rattle.key_tables.specs.Build.{first_fault};
ghost use Rattle.key_tables.specs.Lanes.{is_any};
ghost use Rattle.script_text.specs.Lists.{added, first_object, installed, made_line, made_object_line, second_object, AreInstalled, HasNode, HasRows, IsSaid, IsWithEvents};
ghost use Rattle.script_text.specs.Made.{events_made, group_role, made_name, made_rows, made_script, tool_role, tool_row};
ghost use Rattle.script_text.specs.Said.{standing};
ghost use Rattle.script_text.specs.Script.{IsScript};

use crate::draws::{Draws, FIRST_ADDRESS};
use crate::fault::Refusal;
use crate::lists::Lists;
use crate::octets::Octets;
use crate::reader::Reader;
use crate::reading::finish;
use crate::said::{NodeLine, ObjectLine, Said, Stage};
use crate::{Name, Script, ScriptFault};
use group_objects::{Flags, ObjectRow, Value};
use key_tables::{Channel, Level, Role, Row};
use knx_base::{GroupAddr, IndAddr, NoMemory, Number48};
use std::alloc::Global;

// 1/0/1, whose objects hold six bits.
const BITS: GroupAddr = GroupAddr(0x0801);

// 1/0/2, whose objects hold two octets.
const OCTETS: GroupAddr = GroupAddr(0x0802);

/// A script that is made from a number: four nodes with two objects each, which are all of two groups, and so many
/// events that are drawn: sends, values that are set, deliveries of a telegram that was sent lately, requests of
/// synchronisation, cuts of power inside a memory write, and starts. A number and a count make one script.
#[tactic(auto, using(crate::proofs::Making::script_refused))]
pub fn make_script(alloc: Global, number: u32, count: u32) -> Result<Script, NoMemory>
    requires some { 1 ≤ count }
    requires most { count ≤ 100000 }
    ensures script { IfOk result (λ script. script ≡ made_script number count) }
    ensures keeps { IfOk result (λ script. IsScript script.rows script.nodes script.events) }
{
    let lists = match made_lists(alloc, number, count) {
        Ok(lists) => lists,
        Err(Refusal::NoMemory) => return Err(NoMemory),
        Err(_) => unreachable!(),
    };
    match finish(Reader::of_lists(alloc, lists), alloc) {
        Ok(script) => Ok(script),
        Err(ScriptFault::NoMemory) => Err(NoMemory),
        Err(_) => unreachable!(),
    }
}

// Nothing of it is refused, so that only memory can be wanting.
#[tactic(auto, using(crate::proofs::Making::only_memory))]
fn made_lists(alloc: Global, number: u32, count: u32) -> Result<Lists, Refusal>
    requires most { count ≤ 100000 }
    ensures made { IfOk result (λ lists. IsWithEvents installed (events_made count 1 number 0) lists) }
    ensures memory { IfErr result (λ why. why ≡ Refusal.NoMemory) }
{
    let mut lists = Lists::new(alloc);
    lists.add(Said::Head)?;
    add_rows(&mut lists, &made_rows())?;
    add_node(&mut lists, 0)?;
    add_node(&mut lists, 1)?;
    add_node(&mut lists, 2)?;
    add_node(&mut lists, 3)?;
    add_events(&mut lists, number, count)?;
    Ok(lists)
}

#[tactic(auto, using(crate::proofs::Making::row_refused))]
fn add_rows(list: &mut Lists, rows: &[Row]) -> Result<(), Refusal>
    requires begun { list.old.stage ≡ Stage.Rows }
    requires named { list_any is_any rows.now ≡ false }
    requires stand { first_fault list.old.rows rows.now ≡ None }
    ensures added { OnOk result (HasRows list.old rows.now list.new) }
    ensures memory { IfErr result (λ why. why ≡ Refusal.NoMemory) }
{
    for index in 0..rows.len() {
        list.add(Said::Row(rows[index]))?;
    }
    Ok(())
}

fn add_node(list: &mut Lists, node: u16) -> Result<(), Refusal>
    requires four { node < 4 }
    requires before { AreInstalled node list.old }
    ensures added { OnOk result (HasNode list.old node list.new) }
    ensures installed { OnOk result (AreInstalled (node + 1) list.new) }
    ensures memory { IfErr result (λ why. why ≡ Refusal.NoMemory) }
{
    add_made(list, Said::Node(made_line(node)))?;
    add_made(list, Said::Object(first_object(node)))?;
    add_made(list, Said::Object(second_object(node)))?;
    Ok(())
}

// Adds what may stand here.
#[tactic(auto, using(crate::proofs::Making::only_memory))]
fn add_made(list: &mut Lists, said: Said) -> Result<(), Refusal>
    requires said { IsSaid (length list.old.nodes) said }
    requires stands { standing list.old said ≡ None }
    ensures added { OnOk result (list.new ≡ added list.old said) }
    ensures memory { IfErr result (λ why. why ≡ Refusal.NoMemory) }
{
    list.add(said)?;
    Ok(())
}

fn made_line(node: u16) -> NodeLine
    requires four { node < 4 }
    ensures { result ≡ made_line node }
{
    NodeLine {
        line: 0,
        name: made_name(node),
        address: IndAddr(FIRST_ADDRESS + node),
        next: Number48::new(1).unwrap(),
    }
}

fn first_object(node: u16) -> ObjectLine
    requires four { node < 4 }
    ensures { result ≡ first_object node }
{
    made_object_line(IndAddr(FIRST_ADDRESS + node), BITS, Value::bits(0).unwrap())
}

fn second_object(node: u16) -> ObjectLine
    requires four { node < 4 }
    ensures { result ≡ second_object node }
{
    made_object_line(
        IndAddr(FIRST_ADDRESS + node),
        OCTETS,
        Value::octets(&[0, 0]).unwrap(),
    )
}

fn made_object_line(node: IndAddr, group: GroupAddr, value: Value) -> ObjectLine
    ensures { result ≡ made_object_line node group value }
{
    let flags = Flags {
        reads: true,
        writes: true,
        updates: true,
        transmits: true,
    };
    ObjectLine {
        node,
        row: ObjectRow {
            group,
            flags,
            value,
        },
    }
}

#[tactic(auto, using(crate::proofs::Drawing::none_drawn, crate::proofs::Drawing::one_more_drawn, crate::proofs::Drawing::all_drawn, crate::proofs::Making::event_refused))]
fn add_events(list: &mut Lists, number: u32, count: u32) -> Result<(), Refusal>
    requires four { length list.old.nodes ≡ 4 }
    requires none { list.old.events ≡ [] }
    requires most { count ≤ 100000 }
    ensures added { OnOk result (IsWithEvents list.old (events_made count 1 number 0) list.new) }
    ensures memory { IfErr result (λ why. why ≡ Refusal.NoMemory) }
{
    let mut draws = Draws {
        state: number as u64,
        sends: 0,
    };
    for index in 0..count {
        let event = draws.event(index + 1);
        list.add(Said::Event(event))?;
    }
    Ok(())
}

fn made_name(node: u16) -> Name
    requires four { node < 4 }
    ensures { result ≡ made_name node }
{
    let octets = match node {
        0 => Octets::new(b"n0"),
        1 => Octets::new(b"n1"),
        2 => Octets::new(b"n2"),
        _ => Octets::new(b"n3"),
    };
    Name { octets }
}

fn made_rows() -> [Row; 20]
    ensures { result ≡ made_rows }
{
    [
        Row::Group {
            address: BITS,
            key: [0x11; 16],
            level: Level::Conf,
        },
        Row::Group {
            address: OCTETS,
            key: [0x22; 16],
            level: Level::Auth,
        },
        tool_row(0),
        tool_row(1),
        tool_row(2),
        tool_row(3),
        group_role(BITS, 0, Role::Command),
        group_role(BITS, 1, Role::Command),
        group_role(BITS, 2, Role::Command),
        group_role(BITS, 3, Role::Observe),
        group_role(OCTETS, 0, Role::Command),
        group_role(OCTETS, 1, Role::Command),
        group_role(OCTETS, 2, Role::Command),
        group_role(OCTETS, 3, Role::Command),
        tool_role(0, 1, Role::Observe),
        tool_role(0, 2, Role::Observe),
        tool_role(0, 3, Role::Observe),
        tool_role(1, 0, Role::Manage),
        tool_role(2, 0, Role::Manage),
        tool_role(3, 0, Role::Manage),
    ]
}

fn tool_row(node: u8) -> Row
    requires four { node < 4 }
    ensures { result ≡ tool_row node }
{
    Row::Tool {
        device: IndAddr(FIRST_ADDRESS + node as u16),
        key: [0x31 + node; 16],
    }
}

fn group_role(group: GroupAddr, node: u16, role: Role) -> Row
    requires four { node < 4 }
    ensures { result ≡ group_role group node role }
{
    Row::Role {
        channel: Channel::Group(group),
        sender: Some(IndAddr(FIRST_ADDRESS + node)),
        role,
    }
}

fn tool_role(device: u16, node: u16, role: Role) -> Row
    requires device { device < 4 }
    requires node { node < 4 }
    ensures { result ≡ tool_role device node role }
{
    Row::Role {
        channel: Channel::Tool(IndAddr(FIRST_ADDRESS + device)),
        sender: Some(IndAddr(FIRST_ADDRESS + node)),
        role,
    }
}
