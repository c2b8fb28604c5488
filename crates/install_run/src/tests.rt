mod busy;
mod stops;

use crate::{World, acted_on_is_verified, deliverable_is_acted_on};
use key_tables::Lane;
use knx_base::{IndAddr, MemSink};
use script_text::read_script;
use std::alloc::Global;
use std::test::Fail;

// A push button at 1.1.7 and a lamp at 1.1.9, both of the group 1/2/3; the lamp has a tool key, and the button may
// manage it. Behind the head come the marks of a case and its events.
const HEAD: &str = "knx-script 1
group 1/2/3 000102030405060708090a0b0c0d0e0f conf
role 1/2/3 1.1.7 command
";

const TOOL: &str = "tool 1.1.9 000102030405060708090a0b0c0d0e0f
role tool:1.1.9 1.1.7 manage
";

const NODES: &str = "node push 1.1.7 1
object push 1/2/3 t bits 01
node lamp 1.1.9 1
object lamp 1/2/3 w bits 00
";

// The installation after the events of a script.
#[tactic(auto, using(crate::proofs::Beginning::few_events, crate::proofs::Beginning::events_fit))]
fn played(alloc: Global, text: &str) -> Result<World, Fail> {
    let script = read_script(alloc, text.as_bytes())?;
    let mut world = World::new(alloc, &script)?;
    world.run(script.events())?;
    Ok(world)
}

// A line with a number of at most two digits between two texts.
fn line(text: &mut String, front: &str, number: u8, rest: &str) -> Result<(), Fail> {
    text.push_str(front)?;
    if number >= 10 {
        text.push((b'0' + number / 10 % 10) as char)?;
    }
    text.push((b'0' + number % 10) as char)?;
    text.push_str(rest)?;
    Ok(())
}

// What comes of the events of a script.
fn told(alloc: Global, parts: &[&str]) -> Result<MemSink, Fail> {
    let mut text = String::new(alloc);
    for part in parts {
        text.push_str(part)?;
    }
    let world = played(alloc, &text)?;
    let mut out = MemSink::new(alloc, 10000)?;
    for place in 0..world.history().len() {
        world.print_step(place, &mut out)?;
    }
    Ok(out)
}

// The laws can be called for each world, and ask for nothing.
#[test]
fn the_laws_are_there(rt: HostRuntime) -> Result<(), Fail> {
    let mut text = String::new(rt.alloc());
    for part in [HEAD, NODES, "send push 0 write\ndeliver 1 lamp\n"] {
        text.push_str(part)?;
    }
    let world = played(rt.alloc(), &text)?;
    world.keeps_laws();
    acted_on_is_verified();
    deliverable_is_acted_on();
    assert_eq!(rt; world.history().len(), 2);
    Ok(())
}

#[test]
fn a_telegram_acts_once(rt: HostRuntime) -> Result<(), Fail> {
    let events = "send push 0 write\n\
         deliver 1 lamp\n\
         deliver 1 lamp\n\
         lose 1\n\
         deliver 1 lamp\n\
         lose 1\n\
         inject 2b00cc\n\
         deliver 2 lamp\n\
         set lamp 0 bits:01\n\
         set lamp 1 bits:01\n\
         set lamp 0 01\n\
         send lamp 0 read\n\
         tool-send push 1.1.9 0380\n";
    let out = told(rt.alloc(), &[HEAD, NODES, events])?;
    let lines = "1 air 1 number 1
2 acted number 1 lane run:1.1.7 GroupValue_Write object 0 value 01
3 stale kept 1 got 1
4 lost
5 gone
6 gone
7 air 2
8 not-frame acknowledge cc
9 set
10 no-object
11 size
12 flag
13 no-key
";
    assert_eq!(rt; out.bytes(), lines.as_bytes());
    Ok(())
}

// Events, and what comes of them where power is lost inside a write, where a write fails, and where the node is
// switched off between two events.
#[test]
fn a_node_goes_on_with_what_its_memory_restores(rt: HostRuntime) -> Result<(), Fail> {
    let rows = [
        (
            "send push 0 write\ncut lamp 1 a5\ndeliver 1 lamp\non lamp\ndeliver 1 lamp\n",
            "1 air 1 number 1\n\
             2 armed\n\
             3 cut\n\
             4 on next 1 run:1.1.7=0\n\
             5 acted number 1 lane run:1.1.7 GroupValue_Write object 0 value 01\n",
        ),
        (
            "send push 0 write\ncut lamp 2 a5\ndeliver 1 lamp\non lamp\ndeliver 1 lamp\n",
            "1 air 1 number 1\n2 armed\n3 cut\n4 on next 1 run:1.1.7=1\n5 stale kept 1 got 1\n",
        ),
        (
            "fault lamp 1 00\nsend push 0 write\ndeliver 1 lamp\ndeliver 1 lamp\non lamp\n",
            "1 armed\n2 air 1 number 1\n3 fault\n4 off\n5 on next 1 run:1.1.7=0\n",
        ),
        (
            "send push 0 write\noff push\nsend push 0 write\non push\nsend push 0 write\non push\n",
            "1 air 1 number 1\n2 down\n3 off\n4 on next 65 run:1.1.7=0\n5 air 2 number 65\n6 running\n",
        ),
    ];
    for (events, lines) in rows {
        let out = told(rt.alloc(), &[HEAD, NODES, events])?;
        assert_eq!(rt; out.bytes(), lines.as_bytes());
    }
    Ok(())
}

#[test]
fn an_answer_lets_a_node_go_on_above_the_mark(rt: HostRuntime) -> Result<(), Fail> {
    let events = "mark lamp run:1.1.7 500\n\
         send push 0 write\n\
         deliver 1 lamp\n\
         ask push 1.1.9 010203040506\n\
         deliver 2 lamp\n\
         deliver 3 push\n\
         deliver 3 push\n\
         send push 0 write\n\
         deliver 4 lamp\n";
    let out = told(rt.alloc(), &[HEAD, TOOL, NODES, events])?;
    let lines = "1 air 1 number 1
2 stale kept 500 got 1
3 air 2 number 2
4 answered challenge 010203040506 reply 3
5 synced number 1 kept 500 next 501
6 no-pending
7 air 4 number 501
8 acted number 501 lane run:1.1.7 GroupValue_Write object 0 value 01
";
    assert_eq!(rt; out.bytes(), lines.as_bytes());
    Ok(())
}

// The button forgets the value that it was given and the challenge that it sent.
#[test]
fn a_start_begins_with_first_values_and_no_challenge(rt: HostRuntime) -> Result<(), Fail> {
    let events = "ask push 1.1.9 010203040506\n\
         set push 0 bits:00\n\
         off push\n\
         on push\n\
         deliver 1 lamp\n\
         deliver 2 push\n\
         send push 0 write\n\
         deliver 3 lamp\n";
    let out = told(rt.alloc(), &[HEAD, TOOL, NODES, events])?;
    let lines = "1 air 1 number 1
2 set
3 down
4 on next 65 run:1.1.7=0 tool:1.1.9:1.1.9=0
5 answered challenge 010203040506 reply 2
6 no-pending
7 air 3 number 65
8 acted number 65 lane run:1.1.7 GroupValue_Write object 0 value 01
";
    assert_eq!(rt; out.bytes(), lines.as_bytes());
    Ok(())
}

// Four devices with tool keys, each of which may ask two others; the first may manage the second. The last one has a
// single number left.
const FOUR: &str = "knx-script 1
tool 1.1.1 31313131313131313131313131313131
tool 1.1.2 32323232323232323232323232323232
tool 1.1.3 33333333333333333333333333333333
tool 1.1.4 34343434343434343434343434343434
role tool:1.1.1 1.1.2 observe
role tool:1.1.1 1.1.4 observe
role tool:1.1.2 1.1.1 manage
role tool:1.1.2 1.1.3 observe
role tool:1.1.3 1.1.2 observe
role tool:1.1.3 1.1.4 observe
role tool:1.1.4 1.1.1 observe
role tool:1.1.4 1.1.3 observe
";

const FOUR_NODES: &str = "node a 1.1.1 1
node b 1.1.2 10
node c 1.1.3 100
node d 1.1.4 281474976710655
mark b tool:1.1.2:1.1.1 500
mark c tool:1.1.3:1.1.2 20
";

// The pairs of devices ask each other at the same time, and then across the pairs.
#[test]
fn four_nodes_synchronise(rt: HostRuntime) -> Result<(), Fail> {
    let events = "ask a 1.1.2 010203040506\n\
         ask c 1.1.4 0a0b0c0d0e0f\n\
         deliver 1 d\n\
         deliver 1 b\n\
         deliver 2 d\n\
         deliver 3 a\n\
         deliver 4 c\n\
         ask b 1.1.3 000000000001\n\
         deliver 5 c\n\
         ask b 1.1.1 000000000002\n\
         deliver 6 b\n\
         deliver 7 a\n\
         deliver 8 b\n\
         tool-send a 1.1.2 0380\n\
         deliver 9 b\n\
         ask d 1.1.1 000000000003\n\
         ask c 1.1.4 000000000004\n\
         deliver 10 d\n";
    let out = told(rt.alloc(), &[FOUR, FOUR_NODES, events])?;
    let lines = "1 air 1 number 1
2 air 2 number 100
3 ignored
4 answered challenge 010203040506 reply 3
5 answered challenge 0a0b0c0d0e0f reply 4
6 synced number 10 kept 500 next 501
7 synced number 281474976710655 kept 0 next 101
8 air 5 number 11
9 answered challenge 000000000001 reply 6
10 air 7 number 12
11 no-pending
12 answered challenge 000000000002 reply 8
13 synced number 501 kept 10 next 13
14 air 9 number 502
15 acted number 502 lane tool:1.1.2:1.1.1 Restart
16 exhausted
17 air 10 number 102
18 answered challenge 000000000004 reply none
";
    assert_eq!(rt; out.bytes(), lines.as_bytes());
    Ok(())
}

// A script of as many nodes with as many lanes as there may be: each of them stops and starts again.
#[test]
fn the_largest_installation_runs(rt: HostRuntime) -> Result<(), Fail> {
    let alloc = rt.alloc();
    let mut text = String::new(alloc);
    text.push_str("knx-script 1\ngroup 1/2/3 000102030405060708090a0b0c0d0e0f conf\n")?;
    for sender in 0..64 {
        line(&mut text, "role 1/2/3 1.1.", sender, " command\n")?;
    }
    for node in 0..32 {
        line(&mut text, "node n", node, "")?;
        line(&mut text, " 1.2.", node + 1, " 1\n")?;
        line(&mut text, "object n", node, " 1/2/3 rwut bits 00\n")?;
    }
    for node in 0..32 {
        line(&mut text, "off n", node, "\n")?;
        line(&mut text, "on n", node, "\n")?;
    }
    let world = played(alloc, &text)?;
    if world.nodes() != 32 {
        return Err(Fail::from("another number of nodes"));
    }
    for node in 0..32 {
        assert!(rt; world.is_running(node));
        assert_eq!(rt; world.image(node).len(), 1054);
    }
    Ok(())
}

// A script of as many events as there may be: the telegram is acted on once.
#[test]
fn the_longest_run_is_noted_whole(rt: HostRuntime) -> Result<(), Fail> {
    let alloc = rt.alloc();
    let mut text = String::new(alloc);
    for part in [HEAD, NODES, "send push 0 write\n"] {
        text.push_str(part)?;
    }
    for _ in 1..100_000 {
        text.push_str("deliver 1 lamp\n")?;
    }
    let world = played(alloc, &text)?;
    if world.nodes() != 2 {
        return Err(Fail::from("another number of nodes"));
    }
    assert_eq!(rt; world.history().len(), 100_000);
    assert_eq!(rt; world.journal(1).len(), 1);
    Ok(())
}

// A bank with a gate, a generation and two numbers, and its first record; sixteen records stand in a bank, and behind
// the bank its other one.
const BANK: &str = "image a50000000000000000000000000000000000000000";

#[test]
fn a_run_is_told_whole(rt: HostRuntime) -> Result<(), Fail> {
    let mut text = String::new(rt.alloc());
    text.push_str(HEAD)?;
    text.push_str(NODES)?;
    text.push_str("send push 0 write\ndeliver 1 lamp\noff push\n")?;
    let world = played(rt.alloc(), &text)?;
    let mut out = MemSink::new(rt.alloc(), 2000)?;
    if world.history().len() > 2 {
        world.print_step(2, &mut out)?;
    }
    world.print_end(&mut out)?;
    let mut front = String::new(rt.alloc());
    front.push_str("3 down\nnode push off journal 0 reserved 64\nlane run:1.1.7 kept 0\n")?;
    front.push_str(BANK)?;
    front.push_str("a5000000000000400000")?;
    assert!(rt; out.bytes().starts_with(front.as_bytes()));
    let end = b"0000\nevents 3 telegrams 1\n";
    assert!(rt; out.bytes().ends_with(end));
    assert_eq!(rt; out.bytes().len(), 1365);
    Ok(())
}

// Each outcome that a summary counts comes at least once, and four times a node is not running. Down is not counted:
// the node was running. The lamp draws 101 for its answer, and so has 63 more reserved.
#[test]
fn a_summary_counts_each_outcome(rt: HostRuntime) -> Result<(), Fail> {
    let nodes = "node push 1.1.7 1\n\
         object push 1/2/3 t bits 01\n\
         node lamp 1.1.9 101\n\
         object lamp 1/2/3 w bits 00\n";
    let events = "send push 0 write\ndeliver 1 lamp\ndeliver 1 lamp\n\
         ask push 1.1.9 010203040506\ndeliver 2 push\ndeliver 2 lamp\ndeliver 3 push\ndeliver 3 push\n\
         inject 2b00cc\ndeliver 4 lamp\n\
         send push 0 write\ncut lamp 1 a5\ndeliver 5 lamp\ndeliver 5 lamp\n\
         lose 5\ndeliver 5 push\nlose 5\n\
         set push 0 bits:00\nset push 0 bits:01\n\
         off push\noff push\nsend push 0 write\nset lamp 0 bits:00\n";
    let mut text = String::new(rt.alloc());
    for part in [HEAD, TOOL, nodes, events] {
        text.push_str(part)?;
    }
    let world = played(rt.alloc(), &text)?;
    let mut out = MemSink::new(rt.alloc(), 400)?;
    world.print_summary(7, 23, &mut out)?;
    let lines = "make 7 23
telegrams 5
acted 1
answered 1
synced 1
refused 3
ignored 1
gone 2
off 4
cut 1
node push journal 2 reserved 64
node lamp journal 1 reserved 164
";
    assert_eq!(rt; out.bytes(), lines.as_bytes());
    Ok(())
}
