ghost use Rattle.std.specs.Prelude.{◌≡◌, ℕ, ◌+◌, ◌*◌, ◌≤◌, ◌++◌, ◌∷◌, [], List, length, codes};
ghost use Rattle.std.specs.Fmt.{decimal};
ghost use Rattle.knx_base.specs.Faults.{HasCause};
ghost use Rattle.knx_base.specs.Sink.{Prints};
ghost use Rattle.step_text.specs.Text.{state_text, node_text, value_text, kept_text, image_text, total_text};

use crate::put::{put_lane, put_number, put_value};
use group_objects::Value;
use judge_rules::print_octets;
use key_tables::Lane;
use knx_base::{Failed, LineBuf, Number48, Sink, print_text};
use script_text::Name;

/// What the end of a report tells of a node in its first line.
#[derive(Clone, Copy)]
pub struct NodeEnd {
    pub name: Name,
    pub running: bool,
    /// How many entries its journal has.
    pub journal: u64,
    /// The last number that its memory has reserved.
    pub reserved: Number48,
}

/// Writes the first line of a node.
pub fn print_node<S: Sink>(node: &NodeEnd, out: &mut S) -> Result<(), Failed>
    ensures text { Prints (S.octets out.old) (S.octets out.new) result (node_text node.now) }
    ensures cause { HasCause (S.faults out.old) (S.faults out.new) result }
{
    let mut line = LineBuf::new();
    line.text("node ");
    line.octets(node.name.as_bytes());
    line.octet(b' ');
    line.text(if node.running { "running" } else { "off" });
    put_number(" journal ", node.journal, &mut line);
    put_number(" reserved ", node.reserved.get(), &mut line);
    line.octet(b'\n');
    print_text(line.bytes(), out)
}

/// Writes the line of an object.
pub fn print_value<S: Sink>(object: usize, value: &Value, out: &mut S) -> Result<(), Failed>
    ensures text { Prints (S.octets out.old) (S.octets out.new) result (value_text (object, value.now)) }
    ensures cause { HasCause (S.faults out.old) (S.faults out.new) result }
{
    let mut line = LineBuf::new();
    put_number("object ", object as u64, &mut line);
    line.octet(b' ');
    put_value(value, &mut line);
    line.octet(b'\n');
    print_text(line.bytes(), out)
}

/// Writes the line of a lane.
pub fn print_kept<S: Sink>(lane: Lane, kept: Number48, out: &mut S) -> Result<(), Failed>
    ensures text { Prints (S.octets out.old) (S.octets out.new) result (kept_text (lane, kept)) }
    ensures cause { HasCause (S.faults out.old) (S.faults out.new) result }
{
    let mut line = LineBuf::new();
    line.text("lane ");
    put_lane(lane, &mut line);
    put_number(" kept ", kept.get(), &mut line);
    line.octet(b'\n');
    print_text(line.bytes(), out)
}

/// Writes the line of a memory's octets.
#[tactic(auto, using(crate::proofs::Pieces::then, crate::proofs::Pieces::no_more))]
pub fn print_image<S: Sink>(octets: &[u8], out: &mut S) -> Result<(), Failed>
    ensures text { Prints (S.octets out.old) (S.octets out.new) result (image_text octets.now) }
    ensures cause { HasCause (S.faults out.old) (S.faults out.new) result }
{
    print_text(b"image ", out)?;
    print_octets(octets, out)?;
    print_text(b"\n", out)
}

/// Writes the last line of a run: how many events it has, and how many telegrams were put on the air.
pub fn print_total<S: Sink>(events: u64, telegrams: u64, out: &mut S) -> Result<(), Failed>
    ensures text { Prints (S.octets out.old) (S.octets out.new) result (total_text events telegrams) }
    ensures cause { HasCause (S.faults out.old) (S.faults out.new) result }
{
    let mut line = LineBuf::new();
    put_number("events ", events, &mut line);
    put_number(" telegrams ", telegrams, &mut line);
    line.octet(b'\n');
    print_text(line.bytes(), out)
}
