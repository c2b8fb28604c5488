//! A stop at each write of a memory, by a loss of power and by a write that fails.
ghost use Rattle.std.specs.Prelude.{◌<◌, IfOk};
ghost use Rattle.script_text.specs.Script.{IsEvent};

use super::{HEAD, NODES};
use crate::{Entry, Step, StepOutcome, World};
use group_objects::SendService;
use knx_base::MemSink;
use script_text::{Event, read_script};
use seq_store::stored_value;
use std::alloc::Global;
use std::process::Abort;
use std::test::Fail;

pub(super) const PUSH: usize = 0;

pub(super) const LAMP: usize = 1;

// How often push sends.
const SENT: u32 = 34;

// How a memory stops its node.
#[derive(Clone, Copy)]
enum Stop {
    Cut,
    Fault,
}

// Each kind of stop, and the octet that it leaves.
const STOPS: [(Stop, u8); 6] = [
    (Stop::Cut, 0x00),
    (Stop::Cut, 0xa5),
    (Stop::Cut, 0xff),
    (Stop::Fault, 0x00),
    (Stop::Fault, 0xa5),
    (Stop::Fault, 0xff),
];

impl Stop {
    fn text(self) -> &'static str {
        match self {
            Stop::Cut => "cut",
            Stop::Fault => "fault",
        }
    }

    // The event that arms it at a write of a node's memory.
    fn armed(self, node: usize, write: u32, torn: u8) -> Result<Event, Fail>
        requires node { node < 2 }
        ensures event { IfOk result (IsEvent 2) }
    {
        if write == 0 || write > 1000 {
            return Err(Fail::from("no write"));
        }
        Ok(match self {
            Stop::Cut => Event::Cut { node, write, torn },
            Stop::Fault => Event::Fault { node, write, torn },
        })
    }
}

// The installation of a script.
pub(super) fn begun(alloc: Global, parts: &[&str]) -> Result<World, Fail> {
    let mut text = String::new(alloc);
    for part in parts {
        text.push_str(part)?;
    }
    let script = read_script(alloc, text.as_bytes())?;
    Ok(World::new(alloc, &script)?)
}

// Takes an event in an installation of two nodes.
pub(super) fn take(world: &mut World, event: &Event) -> Result<(), Fail>
    requires event { IsEvent 2 event.now }
{
    if world.nodes() != 2 || world.history().len() > 1000 {
        return Err(Fail::from("another installation"));
    }
    world.step(event)?;
    Ok(())
}

// Whether a memory stopped its node in this step.
pub(super) fn is_stop(step: &Step) -> bool {
    matches!(step.outcome, StepOutcome::Cut | StepOutcome::Fault)
}

// Takes an event. Where the node's memory stops it, the node is switched on, and the event comes again at once. Whether
// the node was stopped.
pub(super) fn insist(world: &mut World, node: usize, event: &Event) -> Result<bool, Fail>
    requires node { node < 2 }
    requires event { IsEvent 2 event.now }
{
    take(world, event)?;
    if !world.history().last().is_some_and(is_stop) {
        return Ok(false);
    }
    take(world, &Event::On { node })?;
    take(world, event)?;
    Ok(true)
}

// The lines of these steps, of which the first is counted from 0.
fn lines(alloc: Global, world: &World, first: usize, last: usize) -> Result<String, Fail> {
    let mut out = MemSink::new(alloc, 1000)?;
    for step in first..world.history().len().min(last) {
        world.print_step(step, &mut out)?;
    }
    let mut text = String::new(alloc);
    text.push_str(str::from_utf8(out.bytes())?)?;
    Ok(text)
}

// Push has sent its telegrams.
fn sent(alloc: Global) -> Result<World, Fail> {
    let mut world = begun(alloc, &[HEAD, NODES])?;
    for _ in 0..SENT {
        take(
            &mut world,
            &Event::Send {
                node: PUSH,
                object: 0,
                service: SendService::Write,
            },
        )?;
    }
    Ok(world)
}

// Delivers them to lamp in order. The telegram at which lamp was stopped.
fn deliver_all(world: &mut World) -> Result<Option<u32>, Fail> {
    let mut stopped = None;
    for telegram in 1..=SENT {
        let delivery = Event::Deliver {
            telegram,
            node: LAMP,
        };
        if insist(world, LAMP, &delivery)? {
            stopped = Some(telegram);
        }
    }
    Ok(stopped)
}

// The telegrams in lamp's journal; 0 is an entry of no telegram.
fn journalled(alloc: Global, world: &World) -> Result<Vec<u32>, Fail> {
    let mut telegrams = Vec::new(alloc);
    if world.nodes() != 2 {
        return Err(Fail::from("another installation"));
    }
    for entry in world.journal(LAMP) {
        telegrams.push(match entry {
            Entry::Telegram { telegram, .. } => *telegram,
            Entry::Set { .. } => 0,
        })?;
    }
    Ok(telegrams)
}

// All telegrams of push but this one.
fn all_but(alloc: Global, left_out: Option<u32>) -> Result<Vec<u32>, Fail> {
    let mut telegrams = Vec::new(alloc);
    for telegram in 1..=SENT {
        if left_out != Some(telegram) {
            telegrams.push(telegram)?;
        }
    }
    Ok(telegrams)
}

// The mark that lamp's memory restores.
fn restored(world: &World) -> Result<Option<u64>, Fail> {
    if world.nodes() != 2 || world.image(LAMP).len() != 298 {
        return Err(Fail::from("another installation"));
    }
    Ok(stored_value(world.image(LAMP), 1, 1).map(|mark| mark.get()))
}

// What the rules say of lamp when it is stopped at a write.
#[derive(Clone, Copy)]
struct Expected {
    // The telegram in whose raise that write is.
    telegram: u32,
    // The mark that lamp then starts with.
    kept: u32,
}

impl Expected {
    // Each raise makes two writes, but the last one, which makes three. The last write of a raise opens a gate.
    fn at(write: u32, torn: u8) -> Expected {
        let before = (write.saturating_sub(1) / 2).min(33);
        let opens_gate = write == 69 || write <= 66 && write % 2 == 0;
        let telegram = before + 1;
        Expected {
            telegram,
            kept: if opens_gate && torn == 0xa5 {
                telegram
            } else {
                before
            },
        }
    }

    fn is_late(self) -> bool {
        self.kept == self.telegram
    }

    // What is told of the delivery that is repeated.
    fn repeated(self, alloc: Global) -> Result<String, Fail> {
        let k = self.telegram;
        let told = if self.is_late() {
            format!(in alloc; "stale kept {k} got {k}")
        } else {
            format!(in alloc; "acted number {k} lane run:1.1.7 GroupValue_Write object 0 value 01")
        };
        Ok(told?)
    }

    // The lines of the stop, of the start, and of the delivery that is repeated.
    fn lines(self, alloc: Global, stop: Stop) -> Result<String, Fail> {
        let line = u64::from(SENT) + 1 + u64::from(self.telegram);
        let stopped = format!(in alloc; "{line} {}\n", stop.text())?;
        let started = format!(in alloc; "{} on next 1 run:1.1.7={}\n", line + 1, self.kept)?;
        let repeated = self.repeated(alloc)?;
        Ok(format!(in alloc; "{stopped}{started}{} {repeated}\n", line + 2)?)
    }

    // The telegram that is not in lamp's journal.
    fn left_out(self) -> Option<u32> {
        if self.is_late() {
            Some(self.telegram)
        } else {
            None
        }
    }
}

// Whether this write of lamp is reached. Where it is, lamp is stopped there.
fn stopped_at(
    rt: &impl Abort,
    alloc: Global,
    stop: Stop,
    write: u32,
    torn: u8,
) -> Result<bool, Fail> {
    let mut world = sent(alloc)?;
    take(&mut world, &stop.armed(LAMP, write, torn)?)?;
    let Some(telegram) = deliver_all(&mut world)? else {
        return Ok(false);
    };
    let expected = Expected::at(write, torn);
    let first = SENT as usize + telegram as usize;
    let told = lines(alloc, &world, first, first + 3)?;
    let want = expected.lines(alloc, stop)?;
    assert_eq!(rt; told, want, "write {write}, torn {torn}");
    let acted_on = all_but(alloc, expected.left_out())?;
    assert_eq!(rt;
        journalled(alloc, &world)?,
        acted_on,
        "write {write}, torn {torn}"
    );
    assert_eq!(rt; restored(&world)?, Some(34), "write {write}, torn {torn}");
    Ok(true)
}

// Stops lamp at each write from the first on, until one is not reached. How many were.
fn stopped_at_each(rt: &impl Abort, alloc: Global, stop: Stop, torn: u8) -> Result<u32, Fail> {
    for write in 1..1000 {
        if !stopped_at(rt, alloc, stop, write, torn)? {
            return Ok(write - 1);
        }
    }
    Err(Fail::from("no end of writes"))
}

// Raises 1 to 33 make two writes each, and raise 34, the second change of banks, makes three: 69 writes, so 414 runs.
// A run is late where a gate's write leaves a5: the mark is raised, but the telegram was not acted on. These are 68.
// In each other run the mark is as it was, and the repeated telegram is acted on.
#[test]
fn lamp_is_stopped_at_each_write(rt: HostRuntime) -> Result<(), Fail> {
    for (stop, torn) in STOPS {
        let runs = stopped_at_each(&rt, rt.alloc(), stop, torn)?;
        assert_eq!(rt; runs, 69, "{}, torn {torn}", stop.text());
    }
    Ok(())
}

// Stops push at a write of its first send, and switches it on. What came of that and of the send that is repeated.
fn first_send(alloc: Global, stop: Stop, write: u32, torn: u8) -> Result<String, Fail> {
    let mut world = begun(alloc, &[HEAD, NODES])?;
    take(&mut world, &stop.armed(PUSH, write, torn)?)?;
    insist(
        &mut world,
        PUSH,
        &Event::Send {
            node: PUSH,
            object: 0,
            service: SendService::Write,
        },
    )?;
    lines(alloc, &world, 1, 4)
}

// The lines of a first send that is stopped, where push then starts with this next number.
fn restarted(alloc: Global, stop: Stop, next: u64) -> Result<String, Fail> {
    let stopped = stop.text();
    Ok(format!(in alloc; "2 {stopped}\n3 on next {next} run:1.1.7=0\n4 air 1 number {next}\n")?)
}

// Push reserves 64 numbers by two writes, of which the second opens a gate. Where that is stopped and leaves a5, the
// numbers are reserved and none of them is ever drawn.
#[test]
fn push_is_stopped_at_each_write_of_its_first_send(rt: HostRuntime) -> Result<(), Fail> {
    let alloc = rt.alloc();
    for (stop, torn) in STOPS {
        let next = if torn == 0xa5 { 65 } else { 1 };
        assert_eq!(rt;
            first_send(alloc, stop, 1, torn)?,
            restarted(alloc, stop, 1)?
        );
        assert_eq!(rt;
            first_send(alloc, stop, 2, torn)?,
            restarted(alloc, stop, next)?
        );
        assert_eq!(rt;
            first_send(alloc, stop, 3, torn)?.as_str(),
            "2 air 1 number 1\n"
        );
    }
    Ok(())
}
