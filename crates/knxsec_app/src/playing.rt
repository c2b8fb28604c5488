ghost use Rattle.std.specs.Prelude.{◌≡◌, ◌≢◌, ◌<◌, ◌++◌, ℕ, List, [], length, Ok, Some, IfOk, IsOk, IfErr, OnOk, MatchResult, Option};
ghost use Rattle.std.specs.Option.{ForSome};
ghost use Rattle.knx_base.specs.Faults.{HasCause};
ghost use Rattle.knx_base.specs.Files.{File, IsThere};
ghost use Rattle.script_text.specs.Made.{made_script};
ghost use Rattle.script_text.specs.Script.{IsScript, ScriptState};
ghost use Rattle.script_text.specs.Text.{script_of};
ghost use Rattle.install_run.specs.Laws.{GoesByRules, KeepsLaws};
ghost use Rattle.install_run.specs.Report.{steps_text, end_text, run_text};
ghost use Rattle.install_run.specs.Summary.{summary_text};
ghost use Rattle.install_run.specs.World.{WorldState};
ghost use Rattle.knxsec_app.specs.Answer.{Answer, Answers};
ghost use Rattle.knxsec_app.specs.Commands.{octets_in, IsRead, IsWhole};
ghost use Rattle.knxsec_app.specs.Ends.{EndsReading, EndsTelling, EndsWriting, OpensOne, Stops, status_of};
ghost use Rattle.knxsec_app.specs.Page.{Passes};
ghost use Rattle.knxsec_app.specs.Replaying.{HasPlayed, IsPlayed, make_answer, replay_answer, run_answer, script_in, script_told, summary_of};

use crate::Status;
use crate::count_word::EventCount;
use crate::ending::ended;
use crate::page::Page;
use crate::part::{Part, pass};
use crate::refusing::refuse_script;
use crate::whole_file::WholeFile;
use install_run::World;
use knx_base::{Failed, Files, NoMemory, Sink};
use script_text::{Script, make_script, read_script};
use std::alloc::Global;
use std::marker::Model;

/// Steps an installation through the script of the named file: tells what came of each event, and how it ends.
pub(crate) fn replay<F: Files, S: Sink>(
    alloc: Global,
    script: &str,
    files: &mut F,
    out: &mut S,
    played: &mut Option<World>,
) -> Status
    requires there { ForSome (F.seen files.old).told (λ told. IsThere told script.now) }
    ensures answer { (told : List File) → (F.seen files.old).told ≡ Some told
        → Answers (replay_answer (octets_in told script.now)) result (S.octets out.old) (S.octets out.new) }
    ensures read { IsWhole result → (told : List File) → (F.seen files.old).told ≡ Some told
        → IsRead told (F.seen files.new) script.now }
    ensures told { (F.seen files.new).told ≡ (F.seen files.old).told }
    ensures opens { OpensOne (F.seen files.old) (F.seen files.new) script.now }
    ensures played { result ≡ Status.Done → (told : List File) → (F.seen files.old).told ≡ Some told
        → (s : ScriptState) × (script_in (octets_in told script.now) ≡ Ok s) × IsPlayed s played.new }
    ensures unplayed { result ≢ Status.Done → played.new ≡ played.old }
    ensures ends { EndsReading (F.seen files.old) (F.seen files.new) (S.faults out.old) (S.faults out.new) result }
{
    match read_named(alloc, script, files, out) {
        Ok(script) => play(alloc, &script, out, played),
        Err(status) => status,
    }
}

// The script of the named file; or its refusal is told.
fn read_named<F: Files, S: Sink>(
    alloc: Global,
    name: &str,
    files: &mut F,
    out: &mut S,
) -> Result<Script, Status>
    requires there { ForSome (F.seen files.old).told (λ told. IsThere told name.now) }
    ensures script { (told : List File) → (F.seen files.old).told ≡ Some told
        → MatchResult result (λ script. script_in (octets_in told name.now) ≡ Ok script)
        (λ status. Stops (script_in (octets_in told name.now)) status (S.octets out.old) (S.octets out.new)) }
    ensures keeps { IfOk result (λ script. IsScript script.rows script.nodes script.events) }
    ensures read { IsOk result → (told : List File) → (F.seen files.old).told ≡ Some told
        → IsRead told (F.seen files.new) name.now }
    ensures told { (F.seen files.new).told ≡ (F.seen files.old).told }
    ensures opens { OpensOne (F.seen files.old) (F.seen files.new) name.now }
    ensures unwritten { OnOk result (out.new ≡ out.old) }
    ensures not_whole { IfErr result (λ status. IsWhole status → ⊥) }
    ensures ends { EndsReading (F.seen files.old) (F.seen files.new) (S.faults out.old) (S.faults out.new)
        (status_of result) }
{
    let text = WholeFile::Script.read(alloc, name, files, out)?;
    read(alloc, &text, out)
}

fn read<S: Sink>(alloc: Global, text: &[u8], out: &mut S) -> Result<Script, Status>
    ensures script { MatchResult result (λ script. script_told (script_of text.now) ≡ Ok script)
        (λ status. Stops (script_told (script_of text.now)) status (S.octets out.old) (S.octets out.new)) }
    ensures keeps { IfOk result (λ script. IsScript script.rows script.nodes script.events) }
    ensures unwritten { OnOk result (out.new ≡ out.old) }
    ensures not_whole { IfErr result (λ status. IsWhole status → ⊥) }
    ensures ends { EndsTelling (S.faults out.old) (S.faults out.new) (status_of result) }
{
    match read_script(alloc, text) {
        Ok(script) => Ok(script),
        Err(fault) => Err(refuse_script(&fault, out)),
    }
}

// Steps an installation through a script, and tells it; then that is what was played.
fn play<S: Sink>(alloc: Global, script: &Script, out: &mut S, played: &mut Option<World>) -> Status
    requires keeps { IsScript script.now.rows script.now.nodes script.now.events }
    ensures answer { Answers (run_answer script.now) result (S.octets out.old) (S.octets out.new) }
    ensures played { result ≡ Status.Done → IsPlayed script.now played.new }
    ensures unplayed { result ≢ Status.Done → played.new ≡ played.old }
    ensures ends { EndsTelling (S.faults out.old) (S.faults out.new) result }
{
    let Ok(world) = stepped(alloc, script) else {
        return Status::NoMemory;
    };
    let status = tell_run(alloc, &world, out);
    leave(world, status, played);
    status
}

/// Steps an installation through the script that is made from a number, and tells what came of it in figures.
pub(crate) fn make<S: Sink>(
    alloc: Global,
    number: u32,
    count: &EventCount,
    out: &mut S,
    played: &mut Option<World>,
) -> Status
    ensures answer { Answers (make_answer number count.now) result (S.octets out.old) (S.octets out.new) }
    ensures played { result ≡ Status.Done → IsPlayed (made_script number count.now) played.new }
    ensures unplayed { result ≢ Status.Done → played.new ≡ played.old }
    ensures ends { EndsTelling (S.faults out.old) (S.faults out.new) result }
{
    let Ok(script) = make_script(alloc, number, count.get()) else {
        return Status::NoMemory;
    };
    let Ok(world) = stepped(alloc, &script) else {
        return Status::NoMemory;
    };
    let status = tell_summary(alloc, number, count, &world, out);
    leave(world, status, played);
    status
}

// Where all is done the world that was stepped is what was played.
fn leave(world: World, status: Status, played: &mut Option<World>)
    ensures done { status ≡ Status.Done → played.new ≡ Some world }
    ensures else_same { status ≢ Status.Done → played.new ≡ played.old }
{
    if status == Status::Done {
        *played = Some(world);
    }
}

// The installation of a script, stepped through all its events.
fn stepped(alloc: Global, script: &Script) -> Result<World, NoMemory>
    requires keeps { IsScript script.now.rows script.now.nodes script.now.events }
    ensures played { IfOk result (λ world. HasPlayed script.now world) }
    ensures keeps { IfOk result (λ world. KeepsLaws world) }
    ensures rules { IfOk result (λ world. GoesByRules world) }
{
    let mut world = World::new(alloc, script)?;
    world.run(script.events())?;
    Ok(world)
}

// ---- what is told

// The line of a step of the history.
#[derive(Drop)]
struct StepLine<'a> {
    world: &'a World,
    step: usize,
}

impl<'a> Model for StepLine<'a> {
    ghost use Rattle.std.specs.Prelude.{ℕ, List, ◌<◌, length};
    ghost use Rattle.install_run.specs.Report.{line_of_step};

    ghost Value = { List ℕ };

    ghost view = { λ l. line_of_step l.world.now.world l.world.now.history l.step };

    ghost invariant = { λ l. l.step < length l.world.now.history };
}

impl Part for StepLine<'_> {
    ghost text = { λ text. text };

    fn print<S: Sink>(&self, out: &mut S) -> Result<(), Failed> {
        self.world.print_step(self.step, out)
    }
}

// How a run ends.
#[derive(Drop)]
struct RunEnd<'a> {
    world: &'a World,
}

impl Part for RunEnd<'_> {
    ghost text = { λ e. end_text e.world.now.nodes e.world.now.world e.world.now.history };

    fn print<S: Sink>(&self, out: &mut S) -> Result<(), Failed> {
        self.world.print_end(out)
    }
}

// What came of a made script, in figures.
#[derive(Drop)]
struct Summary<'a> {
    number: u32,
    count: u32,
    world: &'a World,
}

impl Part for Summary<'_> {
    ghost text = { λ s. summary_text s.number s.count s.world.now.nodes s.world.now.world s.world.now.history };

    fn print<S: Sink>(&self, out: &mut S) -> Result<(), Failed> {
        self.world.print_summary(self.number, self.count, out)
    }
}

// Tells each step, and how it ends.
fn tell_run<S: Sink>(alloc: Global, world: &World, out: &mut S) -> Status
    ensures answer { let w = world.now in
        Answers (record { report = run_text w.nodes w.world w.history; status = Status.Done }) result
        (S.octets out.old) (S.octets out.new) }
    ensures ends { EndsTelling (S.faults out.old) (S.faults out.new) result }
{
    let Ok(mut page) = Page::new(alloc) else {
        return Status::NoMemory;
    };
    let Ok(()) = pass_steps(world, &mut page, out) else {
        return Status::WriteFault;
    };
    finish_part(&RunEnd { world }, &mut page, out)
}

// Adds the lines of all steps to the page, and hands it on where it is full.
fn pass_steps<S: Sink>(world: &World, page: &mut Page, out: &mut S) -> Result<(), Failed>
    requires empty { page.old.held ≡ [] }
    ensures text { Passes [] page.new.held (S.octets out.old) (S.octets out.new) result
        (steps_text world.now.world world.now.history) }
    ensures cause { HasCause (S.faults out.old) (S.faults out.new) result }
{
    for step in 0..world.history().len() {
        pass(&StepLine { world, step }, page, out)?;
    }
    Ok(())
}

fn tell_summary<S: Sink>(
    alloc: Global,
    number: u32,
    count: &EventCount,
    world: &World,
    out: &mut S,
) -> Status
    ensures answer { let w = world.now in
        Answers (record { report = summary_text number count.now w.nodes w.world w.history; status = Status.Done })
        result (S.octets out.old) (S.octets out.new) }
    ensures ends { EndsTelling (S.faults out.old) (S.faults out.new) result }
{
    let Ok(mut page) = Page::new(alloc) else {
        return Status::NoMemory;
    };
    let summary = Summary {
        number,
        count: count.get(),
        world,
    };
    finish_part(&summary, &mut page, out)
}

// Ends a report with its last part.
fn finish_part<P: Part, S: Sink>(part: &P, page: &mut Page, out: &mut S) -> Status
    ensures answer { Answers (record { report = page.old.held ++ P.text part.now; status = Status.Done }) result
        (S.octets out.old) (S.octets out.new) }
    ensures ends { EndsWriting (S.faults out.old) (S.faults out.new) result }
{
    match pass(part, page, out) {
        Ok(()) => ended(page.hand_on(out), Status::Done),
        Err(_) => Status::WriteFault,
    }
}
