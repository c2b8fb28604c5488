//! The summary of a run.
ghost use Rattle.std.specs.Prelude.{◌≡◌, ℕ, ◌++◌, length};
ghost use Rattle.knx_base.specs.Faults.{HasCause};
ghost use Rattle.knx_base.specs.Sink.{Prints};
ghost use Rattle.install_run.specs.Printing.{is_kind, place_summary, summaries_of};
ghost use Rattle.install_run.specs.Summary.{count_of, tally_of, summaries_text, summary_text};

use crate::World;
use crate::place::Place;
use knx_base::{Failed, Sink};
use script_text::NodeRow;
use step_text::{Step, StepOutcome, Tally, print_made, print_summary_node};

impl World {
    /// Writes the summary of the script of this number, which was made with so many events: how many telegrams were put
    /// on the air, how often each outcome came, and each node with what its memory restores.
    pub fn print_summary<S: Sink>(&self, number: u32, count: u32, out: &mut S) -> Result<(), Failed>
        ensures text { Prints (S.octets out.old) (S.octets out.new) result
            (summary_text number count self.now.nodes self.now.world self.now.history) }
        ensures cause { HasCause (S.faults out.old) (S.faults out.new) result }
    {
        print_made(number, count, &self.tally(), out)?;
        self.print_summaries(out)
    }

    fn tally(&self) -> Tally
        ensures { result ≡ tally_of self.now.world self.now.history }
    {
        Tally {
            telegrams: self.air.len() as u64,
            acted: count(&self.steps, Kind::Acted),
            answered: count(&self.steps, Kind::Answered),
            synced: count(&self.steps, Kind::Synced),
            refused: count(&self.steps, Kind::Refused),
            ignored: count(&self.steps, Kind::Ignored),
            gone: count(&self.steps, Kind::Gone),
            off: count(&self.steps, Kind::Off),
            cut: count(&self.steps, Kind::Cut),
        }
    }

    #[tactic(auto, using(crate::proofs::Summing::summaries_printed))]
    fn print_summaries<S: Sink>(&self, out: &mut S) -> Result<(), Failed>
        ensures text { Prints (S.octets out.old) (S.octets out.new) result
            (summaries_text self.now.nodes self.now.world self.now.history) }
        ensures cause { HasCause (S.faults out.old) (S.faults out.new) result }
    {
        print_nodes(&self.nodes, &self.places, out)
    }
}

// The outcomes that a summary counts.
#[derive(Clone, Copy)]
enum Kind {
    Acted,
    Answered,
    Synced,
    Refused,
    Ignored,
    Gone,
    Off,
    Cut,
}

impl Kind {
    fn is_kind(self, outcome: &StepOutcome) -> bool
        ensures { result ≡ is_kind self outcome.now }
    {
        match self {
            Kind::Acted => matches!(outcome, StepOutcome::Acted { .. }),
            Kind::Answered => matches!(outcome, StepOutcome::Answered { .. }),
            Kind::Synced => matches!(outcome, StepOutcome::Synced { .. }),
            Kind::Refused => matches!(outcome, StepOutcome::Refused(_)),
            Kind::Ignored => matches!(outcome, StepOutcome::Ignored),
            Kind::Gone => matches!(outcome, StepOutcome::Gone),
            Kind::Off => matches!(outcome, StepOutcome::Off),
            Kind::Cut => matches!(outcome, StepOutcome::Cut),
        }
    }
}

// How many steps have an outcome of this kind.
fn count(steps: &[Step], kind: Kind) -> u64
    ensures { result ≡ count_of (is_kind kind) steps.now }
{
    let mut count: u64 = 0;
    for step in steps {
        if kind.is_kind(&step.outcome) {
            count += 1;
        }
    }
    count
}

// Prints the nodes of a script at their places.
fn print_nodes<S: Sink>(nodes: &[NodeRow], places: &[Place], out: &mut S) -> Result<(), Failed>
    ensures text { Prints (S.octets out.old) (S.octets out.new) result (summaries_of nodes.now places.now) }
    ensures cause { HasCause (S.faults out.old) (S.faults out.new) result }
{
    'places: for index in 0..nodes.len().min(places.len()) {
        print_place(&nodes[index], &places[index], out)?;
    }
    Ok(())
}

fn print_place<S: Sink>(node: &NodeRow, place: &Place, out: &mut S) -> Result<(), Failed>
    ensures text { Prints (S.octets out.old) (S.octets out.new) result (place_summary (node.now, place.now)) }
    ensures cause { HasCause (S.faults out.old) (S.faults out.new) result }
{
    print_summary_node(
        &node.name,
        place.journal().len() as u64,
        place.stored(0),
        out,
    )
}
