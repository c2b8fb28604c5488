//! The end of a report, node by node.
ghost use Rattle.std.specs.Prelude.{◌≡◌, ℕ, ◌<◌, ◌≤◌, ◌+◌, ◌++◌, List, length, unwrap_or, slice_get};
ghost use Rattle.knx_base.specs.Faults.{HasCause};
ghost use Rattle.knx_base.specs.Sink.{Prints};
ghost use Rattle.seq_store.specs.Layout.{value_of, most_lanes};
ghost use Rattle.step_text.specs.Text.{image_text};
ghost use Rattle.install_run.specs.Printing.{first_of, kept_of, place_end, ends_of};
ghost use Rattle.install_run.specs.Report.{values_of, objects_text};

use crate::place::Place;
use crate::slot::Slot;
use group_objects::Value;
use key_tables::Lane;
use knx_base::{Failed, Number48, Sink};
use script_text::NodeRow;
use seq_store::stored_value;
use step_text::{NodeEnd, print_image, print_kept, print_node, print_value};

// The most objects that a node has.
const MOST_OBJECTS: usize = 64;

// Prints the nodes of a script at their places.
pub(crate) fn print_places<S: Sink>(
    nodes: &[NodeRow],
    places: &[Place],
    out: &mut S,
) -> Result<(), Failed>
    ensures text { Prints (S.octets out.old) (S.octets out.new) result (ends_of nodes.now places.now) }
    ensures cause { HasCause (S.faults out.old) (S.faults out.new) result }
{
    'places: for index in 0..nodes.len().min(places.len()) {
        print_place(&nodes[index], &places[index], out)?;
    }
    Ok(())
}

fn print_place<S: Sink>(node: &NodeRow, place: &Place, out: &mut S) -> Result<(), Failed>
    ensures text { Prints (S.octets out.old) (S.octets out.new) result (place_end (node.now, place.now)) }
    ensures cause { HasCause (S.faults out.old) (S.faults out.new) result }
{
    print_node(&place.first_line(node), out)?;
    place.print_values(out)?;
    place.print_all_kept(out)?;
    place.print_octets(out)
}

impl Place {
    // What the end tells of the node first.
    fn first_line(&self, node: &NodeRow) -> NodeEnd
        ensures { result ≡ first_of node.now self.now }
    {
        NodeEnd {
            name: node.name,
            running: self.is_running(),
            journal: self.journal().len() as u64,
            reserved: self.stored(0),
        }
    }

    // The objects of a node that runs.
    fn print_values<S: Sink>(&self, out: &mut S) -> Result<(), Failed>
        ensures text { Prints (S.octets out.old) (S.octets out.new) result (objects_text self.now.node.standing) }
        ensures cause { HasCause (S.faults out.old) (S.faults out.new) result }
    {
        'objects: for object in 0..MOST_OBJECTS {
            let Some(value) = self.value(object) else {
                return Ok(());
            };
            print_value(object, &value, out)?;
        }
        Ok(())
    }

    // The value of an object of a node that runs.
    fn value(&self, object: usize) -> Option<Value>
        ensures { result ≡ slice_get (values_of self.now.node.standing) object }
    {
        match &self.slot {
            Slot::Started(node) if node.is_running() => node.value(object),
            _ => None,
        }
    }

    // The lanes with the numbers that the memory keeps.
    fn print_all_kept<S: Sink>(&self, out: &mut S) -> Result<(), Failed>
        ensures text { Prints (S.octets out.old) (S.octets out.new) result (kept_of self.now.node) }
        ensures cause { HasCause (S.faults out.old) (S.faults out.new) result }
    {
        let lanes = self.lanes();
        'lanes: for index in 0..lanes.len() {
            print_kept(lanes[index], self.stored(1 + index), out)?;
        }
        Ok(())
    }

    fn print_octets<S: Sink>(&self, out: &mut S) -> Result<(), Failed>
        ensures text { Prints (S.octets out.old) (S.octets out.new) result (image_text self.now.node.octets) }
        ensures cause { HasCause (S.faults out.old) (S.faults out.new) result }
    {
        print_image(self.image(), out)
    }

    // The lanes of the node.
    pub(crate) fn lanes(&self) -> &[Lane]
        ensures lanes { result.now ≡ self.now.node.config.lanes }
        ensures few { length result.now ≤ most_lanes }
    {
        match &self.slot {
            Slot::Started(node) => node.config().lanes(),
            Slot::Stopped(config, _) => config.lanes(),
            Slot::Empty => &[],
        }
    }

    // The number that the memory restores as this value.
    #[tactic(auto, using(crate::proofs::Sounding::sized))]
    pub(crate) fn stored(&self, value: usize) -> Number48
        requires in_range { value ≤ length self.now.node.config.lanes }
        ensures { result ≡ unwrap_or (value_of (length self.now.node.config.lanes) self.now.node.octets value) 0 }
    {
        let _ = &self.slot;
        match stored_value(self.image(), self.lanes().len(), value) {
            Some(number) => number,
            None => zero(),
        }
    }
}

#[tactic(auto, unfolding(knx_base::specs::Number::number_at))]
fn zero() -> Number48
    ensures { result ≡ 0 }
{
    Number48::from_bytes([0; 6])
}
