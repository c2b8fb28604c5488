ghost use Rattle.std.specs.Prelude.{◌≡◌, ℕ, ◌<◌, length};
ghost use Rattle.knx_base.specs.Faults.{HasCause};
ghost use Rattle.knx_base.specs.Sink.{Prints};
ghost use Rattle.step_text.specs.Text.{total_text};
ghost use Rattle.install_run.specs.Report.{lanes_at, line_of_step, nodes_text, end_text};
ghost use Rattle.install_run.specs.Runs.{place_of};

use crate::World;
use crate::place::print::print_places;
use crate::turn::place_of;
use key_tables::Lane;
use knx_base::{Failed, Sink};
use script_text::Event;
use step_text::{print_step_line, print_total};

impl World {
    /// Writes the line of the step at this place of the history, which counts from 0. The line counts from 1.
    #[tactic(auto, using(crate::proofs::Ending::nothing_printed))]
    pub fn print_step<S: Sink>(&self, step: usize, out: &mut S) -> Result<(), Failed>
        requires in_range { step < length self.now.history }
        ensures text { Prints (S.octets out.old) (S.octets out.new) result
            (line_of_step self.now.world self.now.history step) }
        ensures cause { HasCause (S.faults out.old) (S.faults out.new) result }
    {
        match self.steps.get(step) {
            Some(taken) => {
                let lanes = self.lanes_at(&taken.event);
                print_step_line(step as u64 + 1, lanes, &taken.outcome, out)
            }
            None => Ok(()),
        }
    }

    // The lanes of the node of an event.
    fn lanes_at(&self, event: &Event) -> &[Lane]
        ensures lanes { result.now ≡ lanes_at self.now.world (place_of event.now) }
    {
        match place_of(event) {
            Some(place) => match self.places.get(place) {
                Some(place) => place.lanes(),
                None => &[],
            },
            None => &[],
        }
    }

    /// Writes the end of the report: each node with what its memory restores, the memories' octets, and how many events
    /// and telegrams there were.
    pub fn print_end<S: Sink>(&self, out: &mut S) -> Result<(), Failed>
        ensures text { Prints (S.octets out.old) (S.octets out.new) result
            (end_text self.now.nodes self.now.world self.now.history) }
        ensures cause { HasCause (S.faults out.old) (S.faults out.new) result }
    {
        self.print_nodes(out)?;
        self.print_last(out)
    }

    #[tactic(auto, using(crate::proofs::Ending::nodes_printed))]
    fn print_nodes<S: Sink>(&self, out: &mut S) -> Result<(), Failed>
        ensures text { Prints (S.octets out.old) (S.octets out.new) result
            (nodes_text self.now.nodes self.now.world self.now.history) }
        ensures cause { HasCause (S.faults out.old) (S.faults out.new) result }
    {
        print_places(&self.nodes, &self.places, out)
    }

    fn print_last<S: Sink>(&self, out: &mut S) -> Result<(), Failed>
        ensures text { Prints (S.octets out.old) (S.octets out.new) result
            (total_text (length self.now.history) (length self.now.world.air)) }
        ensures cause { HasCause (S.faults out.old) (S.faults out.new) result }
    {
        print_total(self.steps.len() as u64, self.air.len() as u64, out)
    }
}
