ghost use Rattle.std.specs.Prelude.{◌≡◌, ℕ, ◌+◌, ◌≤◌, ◌++◌, ◌∷◌, [], List, length, codes};
ghost use Rattle.std.specs.Fmt.{decimal};
ghost use Rattle.knx_base.specs.Faults.{HasCause};
ghost use Rattle.knx_base.specs.Sink.{Prints};
ghost use Rattle.step_text.specs.Text.{said_text, mark_text, marks_text, step_text};

use crate::StepOutcome;
use crate::put::{put_lane, put_said};
use key_tables::Lane;
use knx_base::{Failed, LineBuf, Number48, Sink, print_text};
use script_text::Marks;

/// Writes the line of a step: its number, counted from 1, and what came of it. `lanes` are those of the event's node.
pub fn print_step_line<S: Sink>(
    number: u64,
    lanes: &[Lane],
    outcome: &StepOutcome,
    out: &mut S,
) -> Result<(), Failed>
    ensures text { Prints (S.octets out.old) (S.octets out.new) result (step_text number lanes.now outcome.now) }
    ensures cause { HasCause (S.faults out.old) (S.faults out.new) result }
{
    let mut line = LineBuf::new();
    line.decimal(number);
    line.octet(b' ');
    put_said(outcome, &mut line);
    match outcome {
        StepOutcome::On { marks, .. } => print_restored(&line, lanes, marks, out),
        _ => print_ended(&mut line, out),
    }
}

// Prints a line with its end.
fn print_ended<S: Sink>(line: &mut LineBuf, out: &mut S) -> Result<(), Failed>
    requires room { length line.old + 1 ≤ 1024 }
    ensures text { Prints (S.octets out.old) (S.octets out.new) result (line.old ++ 10 ∷ []) }
    ensures cause { HasCause (S.faults out.old) (S.faults out.new) result }
{
    line.octet(b'\n');
    print_text(line.bytes(), out)
}

// Prints the front of a line, and the marks of a node.
#[tactic(auto, using(crate::proofs::Pieces::then, crate::proofs::Pieces::no_more))]
fn print_restored<S: Sink>(
    front: &LineBuf,
    lanes: &[Lane],
    marks: &Marks,
    out: &mut S,
) -> Result<(), Failed>
    ensures text { Prints (S.octets out.old) (S.octets out.new) result
        (front.now ++ marks_text lanes.now marks.now ++ 10 ∷ []) }
    ensures cause { HasCause (S.faults out.old) (S.faults out.new) result }
{
    print_text(front.bytes(), out)?;
    print_marks(lanes, marks.as_slice(), out)?;
    print_text(b"\n", out)
}

fn print_marks<S: Sink>(lanes: &[Lane], marks: &[Number48], out: &mut S) -> Result<(), Failed>
    ensures text { Prints (S.octets out.old) (S.octets out.new) result (marks_text lanes.now marks.now) }
    ensures cause { HasCause (S.faults out.old) (S.faults out.new) result }
{
    for index in 0..lanes.len().min(marks.len()) {
        print_mark(lanes[index], marks[index], out)?;
    }
    Ok(())
}

fn print_mark<S: Sink>(lane: Lane, mark: Number48, out: &mut S) -> Result<(), Failed>
    ensures text { Prints (S.octets out.old) (S.octets out.new) result (mark_text (lane, mark)) }
    ensures cause { HasCause (S.faults out.old) (S.faults out.new) result }
{
    let mut line = LineBuf::new();
    line.octet(b' ');
    put_lane(lane, &mut line);
    line.octet(b'=');
    line.decimal(mark.get());
    print_text(line.bytes(), out)
}
