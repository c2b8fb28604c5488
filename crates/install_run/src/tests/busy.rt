//! A busy installation with a loss of power at each write of its memories.
ghost use Rattle.std.specs.Prelude.{◌<◌, IfSome};
ghost use Rattle.script_text.specs.Script.{IsEvent};

use super::stops::{LAMP, PUSH, begun, insist, is_stop, take};
use crate::{Step, StepOutcome, World};
use group_objects::SendService;
use judge_rules::Verdict;
use knx_base::{IndAddr, Number48};
use script_text::{Event, ToolApdu};
use seq_store::stored_value;
use std::alloc::Global;
use std::mem;
use std::process::Abort;
use std::test::Fail;

// Both nodes read, write and answer the group's object, and each may manage the other. Push has kept 500 of lamp, so
// what lamp sends to the group is stale until it has synchronised.
const BUSY: &str = "knx-script 1
group 1/2/3 000102030405060708090a0b0c0d0e0f conf
tool 1.1.7 101112131415161718191a1b1c1d1e1f
tool 1.1.9 202122232425262728292a2b2c2d2e2f
role 1/2/3 1.1.7 command
role 1/2/3 1.1.9 command
role tool:1.1.7 1.1.9 manage
role tool:1.1.9 1.1.7 manage
node push 1.1.7 1
object push 1/2/3 rwut bits 01
node lamp 1.1.9 101
object lamp 1/2/3 rwut bits 00
mark push run:1.1.9 500
";

const CHALLENGE: [u8; 6] = [1, 2, 3, 4, 5, 6];

// Each node has four lanes: of the group with push and with lamp as the sender, and of its own channel with these.
const LANES: usize = 4;

const SIZE: usize = 334;

// The services of a secure telegram.
const DATA: u8 = 0;

const REQUEST: u8 = 2;

const ANSWER: u8 = 3;

// The telegram that the last step put on the air.
fn last_sent(world: &World) -> Option<u32> {
    match world.history().last()?.outcome {
        StepOutcome::Air { telegram, .. } => Some(telegram),
        StepOutcome::Acted { reply, .. } | StepOutcome::Answered { reply, .. } => reply,
        _ => None,
    }
}

// Delivers the telegram of the last step, if there is one.
fn pass_on(world: &mut World, node: usize) -> Result<(), Fail>
    requires node { node < 2 }
{
    match last_sent(world) {
        Some(telegram) if telegram > 0 => {
            insist(world, node, &Event::Deliver { telegram, node })?;
        }
        _ => {}
    }
    Ok(())
}

// Takes an event of a node. What it sends reaches the other one, and what that replies reaches the node.
fn converse(world: &mut World, node: usize, event: &Event) -> Result<(), Fail>
    requires node { node < 2 }
    requires event { IsEvent 2 event.now }
{
    insist(world, node, event)?;
    pass_on(world, 1 - node)?;
    pass_on(world, node)
}

// A node sends for its object.
fn send(world: &mut World, node: usize, service: SendService) -> Result<(), Fail>
    requires node { node < 2 }
{
    let event = Event::Send {
        node,
        object: 0,
        service,
    };
    converse(world, node, &event)
}

// A node synchronises with the other one, and restarts it.
fn manage(world: &mut World, node: usize, to: IndAddr) -> Result<(), Fail>
    requires node { node < 2 }
{
    let ask = Event::Ask {
        node,
        to,
        challenge: CHALLENGE,
    };
    converse(world, node, &ask)?;
    let apdu = ToolApdu::new(&[0x03, 0x80]).ok_or("two octets")?;
    converse(world, node, &Event::ToolSend { node, to, apdu })
}

// Each node synchronises, restarts the other one, writes and reads, seven times.
fn talk(world: &mut World) -> Result<(), Fail> {
    for _ in 0..7 {
        manage(world, PUSH, IndAddr(0x1109))?;
        manage(world, LAMP, IndAddr(0x1107))?;
        send(world, PUSH, SendService::Write)?;
        send(world, LAMP, SendService::Write)?;
        send(world, PUSH, SendService::Read)?;
        send(world, LAMP, SendService::Read)?;
    }
    Ok(())
}

// Who sealed a telegram, with tool access or not, for which service, and under which number.
#[derive(Clone, Copy)]
struct Shown {
    sender: usize,
    tool: bool,
    service: u8,
    number: u64,
}

impl Shown {
    fn of(octets: &[u8]) -> Option<Shown>
        ensures sender { IfSome result (λ shown. shown.sender < 2) }
    {
        let source = octets.get(5)?;
        let field = octets.get(11)?;
        let service = field & 7;
        Some(Shown {
            sender: if *source == 0x09 { LAMP } else { PUSH },
            tool: field & 0x80 != 0,
            service,
            number: number_of(octets.get(12..18)?, service),
        })
    }

    // The place of the lane on which the other node keeps it.
    fn lane(self) -> usize {
        match (self.tool, self.sender) {
            (false, PUSH) => 0,
            (false, _) => 1,
            (true, PUSH) => 2,
            (true, _) => 3,
        }
    }
}

// The number that these octets show. That of an answer is hidden by the challenge.
fn number_of(octets: &[u8], service: u8) -> u64 {
    let mut number = 0;
    for (octet, hidden) in octets.iter().zip(CHALLENGE) {
        let shown = if service == ANSWER {
            octet ^ hidden
        } else {
            *octet
        };
        number = number << 8 | u64::from(shown);
    }
    number
}

// Whether the numbers of each node's telegrams rise, in the order in which they went on the air.
fn numbers_rise(world: &World) -> bool {
    let mut last = [0, 100];
    for telegram in 1..1000 {
        let Some(octets) = world.telegram(telegram) else {
            return true;
        };
        let Some(shown) = Shown::of(octets) else {
            return false;
        };
        if shown.number <= last[shown.sender] {
            return false;
        }
        last[shown.sender] = shown.number;
    }
    false
}

// What the outcomes tell of a node so far: the numbers that it keeps, and whether its challenge is open.
#[derive(Clone, Copy)]
struct Told {
    kept: [u64; LANES],
    asks: bool,
}

impl Told {
    // A start restores no mark below the number that was kept.
    fn start(&mut self, marks: &[Number48]) -> bool {
        self.asks = false;
        for lane in 0..LANES {
            match marks.get(lane) {
                Some(mark) if self.kept[lane] <= mark.get() => self.kept[lane] = mark.get(),
                _ => return false,
            }
        }
        marks.len() == LANES
    }

    // A telegram whose number is above the one that is kept is acted on, and any other is stale. A request is answered,
    // and an answer is taken where a challenge is open.
    fn hear(&mut self, shown: Shown, outcome: &StepOutcome) -> bool {
        let Some(kept) = self.kept.get_mut(shown.lane()) else {
            return false;
        };
        let is_above = shown.number > *kept;
        match (shown.service, outcome) {
            (DATA, StepOutcome::Acted { number, .. }) => {
                *kept = number.get();
                is_above && *kept == shown.number
            }
            (DATA, StepOutcome::Refused(Verdict::Stale { .. })) => !is_above,
            (REQUEST, StepOutcome::Answered { reply, .. }) => reply.is_some(),
            (ANSWER, StepOutcome::Synced { number, .. }) => {
                *kept = number.get().max(*kept);
                mem::replace(&mut self.asks, false) && number.get() == shown.number
            }
            (ANSWER, StepOutcome::Refused(Verdict::NoPending)) => !self.asks,
            _ => false,
        }
    }

    // Whether what came of an event of the node is what its history allows. Where the node is stopped anything is.
    fn follow(&mut self, step: &Step, heard: Option<Shown>) -> bool {
        match (&step.event, &step.outcome) {
            (_, StepOutcome::Cut) => true,
            (Event::Cut { .. }, StepOutcome::Armed) => true,
            (Event::On { .. }, StepOutcome::On { marks, .. }) => self.start(marks.as_slice()),
            (Event::Ask { .. }, StepOutcome::Air { .. }) => {
                self.asks = true;
                true
            }
            (Event::Send { .. } | Event::ToolSend { .. }, StepOutcome::Air { .. }) => true,
            (Event::Deliver { .. }, outcome) => match heard {
                Some(shown) => self.hear(shown, outcome),
                None => false,
            },
            _ => false,
        }
    }
}

// The node of an event, and the telegram that reaches it.
fn parts_of(event: &Event) -> (usize, u32) {
    match *event {
        Event::Deliver { telegram, node } => (node, telegram),
        Event::Send { node, .. }
        | Event::ToolSend { node, .. }
        | Event::Ask { node, .. }
        | Event::On { node }
        | Event::Cut { node, .. } => (node, 0),
        _ => (2, 0),
    }
}

// Follows the steps, and gives what they tell of both nodes.
fn followed(world: &World) -> Result<[Told; 2], Fail> {
    let first = Told {
        kept: [0; LANES],
        asks: false,
    };
    let mut nodes = [first; 2];
    nodes[PUSH].kept[1] = 500;
    for step in world.history() {
        let (node, telegram) = parts_of(&step.event);
        let heard = world.telegram(telegram).and_then(Shown::of);
        let told = nodes.get_mut(node).ok_or("another node")?;
        if !told.follow(step, heard) {
            return Err(Fail::from("another outcome"));
        }
    }
    Ok(nodes)
}

// Whether a node's memory restores what the outcomes tell.
fn restores(world: &World, node: usize, told: &Told) -> bool
    requires node { node < 2 }
{
    if world.nodes() != 2 || world.image(node).len() != SIZE {
        return false;
    }
    for lane in 0..LANES {
        let mark = stored_value(world.image(node), LANES, 1 + lane);
        if mark.map(|mark| mark.get()) != Some(told.kept[lane]) {
            return false;
        }
    }
    true
}

// Cuts a node's power in this write, and starts it again. Whether the write is reached.
fn cut_at(rt: &impl Abort, alloc: Global, node: usize, write: u32, torn: u8) -> Result<bool, Fail>
    requires node { node < 2 }
    requires some { 0 < write }
    requires most { write < 1000 }
{
    let mut world = begun(alloc, &[BUSY])?;
    take(&mut world, &Event::Cut { node, write, torn })?;
    talk(&mut world)?;
    assert!(rt;
        numbers_rise(&world),
        "a number is drawn twice: write {write}, torn {torn}"
    );
    let [push, lamp] = followed(&world)?;
    assert!(rt; restores(&world, PUSH, &push), "write {write}, torn {torn}");
    assert!(rt; restores(&world, LAMP, &lamp), "write {write}, torn {torn}");
    Ok(world.history().iter().any(is_stop))
}

// Cuts a node's power in each write from the first on, until one is not reached. How many were.
fn cut_at_each(rt: &impl Abort, alloc: Global, node: usize, torn: u8) -> Result<u32, Fail>
    requires node { node < 2 }
{
    for write in 1..1000 {
        if !cut_at(rt, alloc, node, write, torn)? {
            return Ok(write - 1);
        }
    }
    Err(Fail::from("no end of writes"))
}

// Each node keeps five numbers a round. Push reserves numbers once, and lamp twice, since it goes on above 500. So push
// raises 36 times and lamp 37 times. Each raise makes two writes, but the 34th, which is the second change of banks,
// makes three.
#[test]
fn busy_nodes_are_cut_at_each_write(rt: HostRuntime) -> Result<(), Fail> {
    for torn in [0x00, 0xa5, 0xff] {
        let push = cut_at_each(&rt, rt.alloc(), PUSH, torn)?;
        let lamp = cut_at_each(&rt, rt.alloc(), LAMP, torn)?;
        assert_eq!(rt; (push, lamp), (73, 75), "torn {torn}");
    }
    Ok(())
}
