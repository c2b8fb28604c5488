ghost use Rattle.std.specs.Prelude.{◌≡◌, true, IsOk};
ghost use Rattle.node_core.specs.Node.{node_state};

use crate::{Act, Config, ConfigFault, Node, Outcome, SendFault};
use cemi_frames::NotFrame;
use group_objects::{Flags, ObjectRow, ObjectsFault, SendService, SetFault, Value};
use judge_rules::Verdict;
use key_tables::{BuildFault, Channel, Lane, Level, Role, Row};
use knx_base::{GroupAddr, IndAddr, Number48};
use nvm_model::trial::FailingNvm;
use nvm_model::{Nvm, NvmFault, SimNvm};
use plain_apdu::{BadObject, Service};
use secure_apdu::FrameBuf;
use seq_store::{StoreFault, format_store, store_size};
use std::alloc::Global;
use std::test::Fail;

// A push button at 1.1.7 and a lamp at 1.1.9, both of the group 1/2/3, which is sealed under the octets 00 to 0f. The
// button may manage the lamp. The frames were computed from the rules by other means.
const KEY: [u8; 16] = [0, 1, 2, 3, 4, 5, 6, 7, 8, 9, 10, 11, 12, 13, 14, 15];

const GROUP: GroupAddr = GroupAddr(0x0a03);

const PUSH: IndAddr = IndAddr(0x1107);

const LAMP: IndAddr = IndAddr(0x1109);

const CHALLENGE: [u8; 6] = [1, 2, 3, 4, 5, 6];

// Of the button to the group: a write of 1 under number 1, the same to the group 1/2/4, the same readable under
// number 2, a read under number 3, and a response of 1 under number 4.
const WRITE_1: &str = "2900bce011070a030e03f11000000000000150564c846de5";

const OTHER_GROUP: &str = "2900bce011070a040e03f1100000000000015bb293b293d8";

const READABLE_2: &str = "2900bce011070a030e03f100000000000002008144adfc1d";

const READ_3: &str = "2900bce011070a030e03f1100000000000034b73c3c186c5";

const RESPONSE_4: &str = "2900bce011070a030e03f110000000000004a87f8947ab3b";

// Of the button to the lamp: a request of a synchronisation under number 5, and a read of the device descriptor under
// number 6.
const REQUEST_5: &str = "29003c60110711091203f192000000000005c23531b5ca861ab98bde";

const TOOL_6: &str = "2900bc60110711090e03f19000000000000632b3e300824e";

// Of the lamp: its value 1 as a response under number 1, and its answers to the challenge: under number 2 with kept
// number 4, and under number 7 with kept number 500.
const LAMP_RESPONSE_1: &str = "2900bce011090a030e03f110000000000001e187ae81b2bc";

const LAMP_ANSWER_2: &str = "29003c60110911071803f193010203040504bb5f11691a2c8e35221ef573ebe884f5";

const LAMP_ANSWER_7: &str = "29003c60110911071803f1930102030405019020b7c7728b1fdaae4b349790515a7b";

// Of the button: a request under number 1, the read of the device descriptor under number 501, and a write of 1 under
// number 502.
const PUSH_REQUEST_1: &str = "29003c60110711091203f1920000000000011429124bd13a3778a2dd";

const PUSH_TOOL_501: &str = "2900bc60110711090e03f1900000000001f5c5a769f4254c";

const PUSH_WRITE_502: &str = "2900bce011070a030e03f1100000000001f6b101a86f7eee";

const ROWS: [Row; 4] = [
    Row::Group {
        address: GROUP,
        key: KEY,
        level: Level::Conf,
    },
    Row::Role {
        channel: Channel::Group(GROUP),
        sender: Some(PUSH),
        role: Role::Command,
    },
    Row::Tool {
        device: LAMP,
        key: KEY,
    },
    Row::Role {
        channel: Channel::Tool(LAMP),
        sender: Some(PUSH),
        role: Role::Manage,
    },
];

const TRANSMITS: Flags = Flags {
    reads: false,
    writes: false,
    updates: false,
    transmits: true,
};

const TAKES_ALL: Flags = Flags {
    reads: true,
    writes: true,
    updates: true,
    transmits: false,
};

fn bits(value: u8) -> Result<Value, Fail> {
    Ok(Value::bits(value).ok_or("six bits")?)
}

fn number(value: u64) -> Result<Number48, Fail> {
    Ok(Number48::new(value).ok_or("a number of 48 bits")?)
}

fn octets(alloc: Global, digits: &str) -> Result<Vec<u8>, Fail> {
    Ok(hex::decode(alloc, digits.as_bytes())?)
}

fn object(group: GroupAddr, flags: Flags, value: u8) -> Result<ObjectRow, Fail> {
    Ok(ObjectRow {
        group,
        flags,
        value: bits(value)?,
    })
}

fn config(alloc: Global, address: IndAddr, objects: &[ObjectRow]) -> Result<Config, Fail> {
    Ok(Config::build(alloc, address, &ROWS, objects).map_err(|_| Fail::from("no configuration"))?)
}

fn lamp(alloc: Global) -> Result<Config, Fail> {
    config(alloc, LAMP, &[object(GROUP, TAKES_ALL, 0)?])
}

fn push(alloc: Global) -> Result<Config, Fail> {
    config(alloc, PUSH, &[object(GROUP, TRANSMITS, 1)?])
}

// Formats a memory with zeros and starts a node over it; None where the memory fails.
fn node_over<M: Nvm + Drop>(
    alloc: Global,
    config: Config,
    mut memory: M,
) -> Result<Option<Node<M>>, Fail> {
    let marks = vec![in alloc; number(0)?; config.lanes().len()]?;
    if memory.size() != store_size(marks.len()) {
        return Err(Fail::from("another size"));
    }
    if format_store(&mut memory, number(0)?, &marks).is_err() {
        return Ok(None);
    }
    started(alloc, config, memory)
}

fn started<M: Nvm + Drop>(
    alloc: Global,
    config: Config,
    memory: M,
) -> Result<Option<Node<M>>, Fail> {
    if memory.size() != store_size(config.lanes().len()) {
        return Err(Fail::from("another size"));
    }
    match Node::start(alloc, config, memory) {
        Ok(node) => Ok(Some(node)),
        Err(_) => Ok(None),
    }
}

fn receive<M: Nvm>(node: &mut Node<M>, octets: &[u8], out: &mut FrameBuf) -> Result<Outcome, Fail> {
    running(node)?;
    Ok(node.receive(octets, out))
}

// What a node answers to a frame, its reply, and its next number, its first mark and its first value then.
#[derive(Clone, Copy, Debug, PartialEq, Eq)]
struct Seen {
    outcome: Outcome,
    next: u64,
    mark: u64,
    value: Option<Value>,
}

fn see<M: Nvm>(node: &mut Node<M>, octets: &[u8], out: &mut FrameBuf) -> Result<Seen, Fail> {
    let outcome = receive(node, octets, out)?;
    if node.config().lanes().is_empty() {
        return Err(Fail::from("no lane"));
    }
    Ok(Seen {
        outcome,
        next: node.next(),
        mark: node.mark(0).get(),
        value: node.value(0),
    })
}

fn shows(outcome: Outcome, next: u64, mark: u64, value: u8) -> Result<Seen, Fail> {
    Ok(Seen {
        outcome,
        next,
        mark,
        value: Some(bits(value)?),
    })
}

// What the lamp does with what the button sends, frame by frame: what it answers, and its next number, its mark of the
// button and its value afterwards.
#[test]
fn each_outcome_once(rt: HostRuntime) -> Result<(), Fail> {
    let alloc = rt.alloc();
    let write = Act::Write {
        object: 0,
        value: bits(1)?,
    };
    let response = Act::Response {
        object: 0,
        value: bits(1)?,
    };
    let rows = [
        ("29", shows(Outcome::Refused(SHORT), 1, 0, 0)?, ""),
        (OTHER_GROUP, shows(Outcome::Ignored, 1, 0, 0)?, ""),
        (LAMP_ANSWER_7, shows(Outcome::Ignored, 1, 0, 0)?, ""),
        (WRITE_1, shows(acted(1, RUN, write)?, 1, 1, 1)?, ""),
        (WRITE_1, shows(stale(1)?, 1, 1, 1)?, ""),
        (
            READABLE_2,
            shows(Outcome::Refused(Verdict::Level), 1, 2, 1)?,
            "",
        ),
        (READABLE_2, shows(stale(2)?, 1, 2, 1)?, ""),
        (
            READ_3,
            shows(acted(3, RUN, read(1)?)?, 2, 3, 1)?,
            LAMP_RESPONSE_1,
        ),
        (RESPONSE_4, shows(acted(4, RUN, response)?, 2, 4, 1)?, ""),
        (REQUEST_5, shows(answered(2)?, 3, 4, 1)?, LAMP_ANSWER_2),
        (TOOL_6, shows(acted(6, TOOL, DESCRIPTOR)?, 3, 4, 1)?, ""),
    ];
    let mut node = over_sim(alloc, lamp(alloc)?)?;
    for (frame, want, reply) in rows {
        let mut out = FrameBuf::new();
        let octets = octets(alloc, frame)?;
        assert_eq!(rt; see(&mut node, &octets, &mut out)?, want, "{frame}");
        assert_eq!(rt; hex::encode(alloc, out.bytes())?.as_str(), reply, "{frame}");
    }
    assert_eq!(rt; node.value(1), None);
    let lanes = [RUN, TOOL, Lane::Tool(LAMP, LAMP)];
    assert_eq!(rt; node.config().lanes(), lanes.as_slice());
    Ok(())
}

const RUN: Lane = Lane::Run(PUSH);

const TOOL: Lane = Lane::Tool(LAMP, PUSH);

const SHORT: Verdict = Verdict::NotFrame(NotFrame::Short(1));

const DESCRIPTOR: Act = Act::Tool {
    service: Service::DeviceDescriptorRead,
};

fn read(reply: u64) -> Result<Act, Fail> {
    Ok(Act::Read {
        object: 0,
        reply: Some(number(reply)?),
    })
}

fn answered(reply: u64) -> Result<Outcome, Fail> {
    Ok(Outcome::Answered {
        challenge: CHALLENGE,
        reply: Some(number(reply)?),
    })
}

fn acted(kept: u64, lane: Lane, act: Act) -> Result<Outcome, Fail> {
    Ok(Outcome::Acted {
        number: number(kept)?,
        lane,
        act,
    })
}

// The number of the mark once more.
fn stale(kept: u64) -> Result<Outcome, Fail> {
    Ok(Outcome::Refused(Verdict::Stale {
        kept: number(kept)?,
        got: number(kept)?,
    }))
}

fn over_sim(alloc: Global, config: Config) -> Result<Node<SimNvm>, Fail> {
    let size = store_size(config.lanes().len());
    Ok(node_over(alloc, config, SimNvm::new(alloc, size)?)?.ok_or("a node")?)
}

// A memory that tells no plan, and of which no call fails.
fn over_other(alloc: Global, config: Config) -> Result<Node<FailingNvm>, Fail> {
    let size = store_size(config.lanes().len());
    let memory = FailingNvm::new(alloc, size, 0, 0)?;
    Ok(node_over(alloc, config, memory)?.ok_or("a node")?)
}

// The button asks the lamp, takes its answer once, and goes on above the number that the lamp kept. A read of its
// object, which only transmits, is refused and kept.
#[test]
fn a_button_catches_up(rt: HostRuntime) -> Result<(), Fail> {
    let alloc = rt.alloc();
    let over_sim = catch_up(alloc, &mut over_sim(alloc, push(alloc)?)?)?;
    let over_other = catch_up(alloc, &mut over_other(alloc, push(alloc)?)?)?;
    let outcomes = [
        Outcome::Refused(Verdict::NoPending),
        Outcome::Synced {
            number: number(7)?,
            kept: number(500)?,
            next: 501,
        },
        Outcome::Refused(Verdict::NoPending),
        Outcome::Refused(Verdict::Object(BadObject::Flag)),
        stale(3)?,
    ];
    let frames = [PUSH_REQUEST_1, PUSH_TOOL_501, PUSH_WRITE_502];
    for caught in [&over_sim, &over_other] {
        assert_eq!(rt; caught.outcomes, outcomes);
        assert_eq!(rt; caught.numbers, [1, 501, 502]);
        for (sent, frame) in caught.frames.iter().zip(frames) {
            assert_eq!(rt; hex::encode(alloc, sent.bytes())?.as_str(), frame);
        }
    }
    Ok(())
}

#[derive(Drop)]
struct Caught {
    outcomes: [Outcome; 5],
    numbers: [u64; 3],
    frames: [FrameBuf; 3],
}

fn catch_up<M: Nvm>(alloc: Global, node: &mut Node<M>) -> Result<Caught, Fail> {
    let mut request = FrameBuf::new();
    let mut tool = FrameBuf::new();
    let mut write = FrameBuf::new();
    let mut out = FrameBuf::new();
    let answer = octets(alloc, LAMP_ANSWER_7)?;
    let read = octets(alloc, READ_3)?;
    let unasked = receive(node, &answer, &mut out)?;
    let first = ask(node, &mut request)?;
    let taken = receive(node, &answer, &mut out)?;
    let again = receive(node, &answer, &mut out)?;
    let second = send_tool(node, &mut tool)?;
    let third = send(node, 0, &mut write)?;
    let refused = receive(node, &read, &mut out)?;
    let stale = receive(node, &read, &mut out)?;
    Ok(Caught {
        outcomes: [unasked, taken, again, refused, stale],
        numbers: [drawn(first)?, drawn(second)?, drawn(third)?],
        frames: [request, tool, write],
    })
}

fn drawn(sent: Result<Number48, SendFault>) -> Result<u64, Fail> {
    match sent {
        Ok(number) => Ok(number.get()),
        Err(_) => Err(Fail::from("not sent")),
    }
}

fn running<M: Nvm>(node: &Node<M>) -> Result<(), Fail>
    ensures { IsOk result → (node_state node.now).running ≡ true }
{
    if node.is_running() {
        Ok(())
    } else {
        Err(Fail::from("not running"))
    }
}

fn ask<M: Nvm>(
    node: &mut Node<M>,
    out: &mut FrameBuf,
) -> Result<Result<Number48, SendFault>, Fail> {
    running(node)?;
    Ok(node.ask(LAMP, CHALLENGE, out))
}

fn send_tool<M: Nvm>(
    node: &mut Node<M>,
    out: &mut FrameBuf,
) -> Result<Result<Number48, SendFault>, Fail> {
    running(node)?;
    Ok(node.send_tool(LAMP, &[0x03, 0x00], out))
}

fn send<M: Nvm>(
    node: &mut Node<M>,
    object: usize,
    out: &mut FrameBuf,
) -> Result<Result<Number48, SendFault>, Fail> {
    running(node)?;
    Ok(node.send(object, SendService::Write, out))
}

// Over a memory whose calls fail one after another.
#[test]
fn a_stop_comes_before_the_act(rt: HostRuntime) -> Result<(), Fail> {
    let mut was_stopped = false;
    for call in 1..=30 {
        let stops = stops_at(rt.alloc(), call)?;
        was_stopped = was_stopped || stops;
    }
    assert!(rt; was_stopped);
    Ok(())
}

// Whether a node is stopped where this call of its memory fails. It is not made, or it acts and runs on, or it is
// stopped before it acts.
fn stops_at(alloc: Global, call: u64) -> Result<bool, Fail> {
    let config = lamp(alloc)?;
    let memory = FailingNvm::new(alloc, store_size(config.lanes().len()), call, 0xa5)?;
    let Some(mut node) = node_over(alloc, config, memory)? else {
        return Ok(false);
    };
    let write = octets(alloc, WRITE_1)?;
    let stops = stop(&mut node, &write)? == Some(NvmFault::Failed);
    let value = if stops { bits(0)? } else { bits(1)? };
    if node.is_running() == stops || node.value(0) != Some(value) {
        return Err(Fail::from("neither stopped nor acted"));
    }
    Ok(stops)
}

// The fault that stops a node at a frame, if one does.
fn stop<M: Nvm>(node: &mut Node<M>, octets: &[u8]) -> Result<Option<NvmFault>, Fail> {
    running(node)?;
    match node.receive(octets, &mut FrameBuf::new()) {
        Outcome::Stopped(fault) => Ok(Some(fault)),
        _ => Ok(None),
    }
}

// A telegram whose mark was not raised before power was lost is acted on afterwards, unless the memory fails again.
#[test]
fn a_cut_before_the_mark_leaves_the_telegram(rt: HostRuntime) -> Result<(), Fail> {
    let alloc = rt.alloc();
    let write = octets(alloc, WRITE_1)?;
    let mut node = over_sim(alloc, lamp(alloc)?)?;
    node.arm_fail(2, 0xa5);
    node.arm_cut(1, 0xa5);
    assert_eq!(rt; stop(&mut node, &write)?, Some(NvmFault::Cut));
    let mut node = again(alloc, node)?;
    assert_eq!(rt; stop(&mut node, &write)?, Some(NvmFault::Failed));
    let mut node = again(alloc, node)?;
    assert_eq!(rt; node.value(0), Some(bits(0)?));
    assert_eq!(rt; stop(&mut node, &write)?, None);
    assert_eq!(rt; node.value(0), Some(bits(1)?));
    Ok(())
}

// The node after power was off and on again.
fn again(alloc: Global, node: Node<SimNvm>) -> Result<Node<SimNvm>, Fail> {
    let (config, mut memory) = node.cut();
    memory.power_on();
    Ok(started(alloc, config, memory)?.ok_or("a node")?)
}

#[test]
fn what_is_not_sent(rt: HostRuntime) -> Result<(), Fail> {
    let alloc = rt.alloc();
    let other = object(GroupAddr(0x0a04), TRANSMITS, 0)?;
    let objects = [object(GROUP, TAKES_ALL, 0)?, other];
    let mut node = over_sim(alloc, config(alloc, IndAddr(0x110a), &objects)?)?;
    let mut out = FrameBuf::new();
    let faults = [
        (2, SendFault::NoObject),
        (0, SendFault::Flag),
        (1, SendFault::NoKey),
    ];
    for (object, fault) in faults {
        assert_eq!(rt; send(&mut node, object, &mut out)?, Err(fault));
    }
    assert_eq!(rt; out.bytes().len(), 0);
    Ok(())
}

#[test]
fn a_value_is_set_in_its_form(rt: HostRuntime) -> Result<(), Fail> {
    let mut node = over_sim(rt.alloc(), lamp(rt.alloc())?)?;
    let octet = Value::octets(&[1]).ok_or("an octet")?;
    let values = [
        (1, bits(1)?, Err(SetFault::NoObject)),
        (0, bits(1)?, Ok(())),
        (0, octet, Err(SetFault::Size)),
    ];
    for (object, value, answer) in values {
        running(&node)?;
        assert_eq!(rt; node.set(object, value), answer);
    }
    assert_eq!(rt; node.value(0), Some(bits(1)?));
    Ok(())
}

#[test]
fn a_memory_of_zeros_is_not_started(rt: HostRuntime) -> Result<(), Fail> {
    let alloc = rt.alloc();
    let config = lamp(alloc)?;
    let memory = SimNvm::new(alloc, store_size(config.lanes().len()))?;
    if memory.size() != store_size(config.lanes().len()) {
        return Err(Fail::from("another size"));
    }
    match Node::start(alloc, config, memory) {
        Ok(_) => Err(Fail::from("started")),
        Err(refused) => {
            assert_eq!(rt; refused.fault, StoreFault::Unformatted(0));
            Ok(())
        }
    }
}

// Each fault with nothing before it. Of 65 senders each has a lane.
#[test]
fn what_is_no_configuration(rt: HostRuntime) -> Result<(), Fail> {
    let alloc = rt.alloc();
    let any = [command(None), command(None)];
    assert_eq!(rt; fault(alloc, &any, &[]), Some(ConfigFault::Any(0)));
    let rows = [command(Some(PUSH)), command(Some(PUSH))];
    let twice = Some(ConfigFault::Rows(BuildFault::Twice(1)));
    assert_eq!(rt; fault(alloc, &rows, &[]), twice);
    let objects = [object(GROUP, TAKES_ALL, 0)?, object(GROUP, TAKES_ALL, 0)?];
    let twice = Some(ConfigFault::Objects(ObjectsFault::Twice(1)));
    assert_eq!(rt; fault(alloc, &[], &objects), twice);
    let senders = senders(alloc)?;
    let lanes = Some(ConfigFault::Lanes(65));
    assert_eq!(rt; fault(alloc, senders.as_slice(), &objects[..1]), lanes);
    Ok(())
}

fn senders(alloc: Global) -> Result<Vec<Row>, Fail> {
    let mut rows = Vec::new(alloc);
    for sender in 0x1200..0x1241 {
        rows.push(command(Some(IndAddr(sender))))?;
    }
    Ok(rows)
}

fn command(sender: Option<IndAddr>) -> Row {
    Row::Role {
        channel: Channel::Group(GROUP),
        sender,
        role: Role::Command,
    }
}

fn fault(alloc: Global, rows: &[Row], objects: &[ObjectRow]) -> Option<ConfigFault> {
    match Config::build(alloc, LAMP, rows, objects) {
        Ok(_) => None,
        Err(fault) => Some(fault),
    }
}
