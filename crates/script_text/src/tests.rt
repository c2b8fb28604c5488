use crate::{Event, Script, ScriptFault, make_script, read_script};
use group_objects::SendService;
use knx_base::{Cause, IndAddr};
use std::alloc::Global;
use std::test::Fail;

fn fault_of(script: Result<Script, ScriptFault>) -> Option<ScriptFault> {
    match script {
        Ok(_) => None,
        Err(fault) => Some(fault),
    }
}

// The script of a head and a line after it is refused there for this cause.
fn check(alloc: Global, head: &[u8], line: &[u8], number: u64, cause: Cause) -> Result<bool, Fail> {
    let mut text = Vec::from_slice(alloc, head)?;
    text.extend_from_slice(line)?;
    Ok(fault_of(read_script(alloc, &text)) == Some(ScriptFault::Line(number, cause)))
}

#[test]
fn a_first_line_or_a_row_is_refused(rt: HostRuntime) {
    for (text, number, cause) in [
        (b"".as_slice(), 1, Cause::Words),
        (b"# a comment", 1, Cause::Words),
        (b"knx-script 2", 1, Cause::Words),
        (b"knx-script 1 1", 1, Cause::Words),
        (b"\xef\xbb\xbfknx-script 1", 1, Cause::Words),
        (b"knx-script 1\nknx-script", 2, Cause::Words),
        (b"knx-script 1\nevent", 2, Cause::Words),
        (b"knx-script 1\nrole 1/2/3 any no", 2, Cause::Any),
        (b"knx-script 1\nrole 0 any command", 2, Cause::Address),
        (b"knx-script 1\nset lamp 0 01", 2, Cause::Name),
        (b"knx-script 1\nnode a 0.0.0 1", 2, Cause::Address),
        (b"knx-script 1\nnode A 1.1.1 1", 2, Cause::Name),
        (
            b"knx-script 1\nnode a_234567890123456 1.1.1 1",
            2,
            Cause::Name,
        ),
        (b"knx-script 1\nnode a 1.1.1 0", 2, Cause::Number),
        (
            b"knx-script 1\nnode a 1.1.1 281474976710656",
            2,
            Cause::Number,
        ),
    ] {
        assert_eq!(rt;
            fault_of(read_script(rt.alloc(), text)),
            Some(ScriptFault::Line(number, cause))
        );
    }
}

#[test]
fn a_line_after_a_node_is_refused(rt: HostRuntime) -> Result<(), Fail> {
    for (line, cause) in [
        (b"object a 0/0/0 r bits 00".as_slice(), Cause::Address),
        (b"object a 1/2/3 rr bits 00", Cause::Flags),
        (b"object a 1/2/3 - bits 40", Cause::Value),
        (b"object a 1/2/3 - 15 00", Cause::Size),
        (b"object a 1/2/3 - 2 00", Cause::Value),
        (b"object b 1/2/3 - bits 00", Cause::Name),
        (b"set a 64 bits:01", Cause::Number),
        (b"set a 00 bits:01", Cause::Number),
        (b"set a 0 bits:40", Cause::Value),
        (b"send a 0 Read", Cause::Service),
        (b"tool-send a 1.1.2 00", Cause::Value),
        (
            b"tool-send a 1.1.2 0000000000000000000000000000000000",
            Cause::Value,
        ),
        (b"ask a 1.1.2 0102030405", Cause::Value),
        (b"deliver 0 a", Cause::Number),
        (b"deliver 4294967296 a", Cause::Number),
        (b"inject", Cause::Words),
        (b"inject 0", Cause::Value),
        (b"off b", Cause::Name),
        (b"cut a 0 00", Cause::Number),
        (b"cut a 1001 00", Cause::Number),
        (b"cut a 1 0", Cause::Value),
        (b"mark a walk:1.1.1 7", Cause::Lane),
        (b"mark a run:1.1.1 7", Cause::Lane),
    ] {
        assert!(rt;
            check(
                rt.alloc(),
                b"knx-script 1\nnode a 1.1.1 1\n",
                line,
                3,
                cause
            )?
        );
    }
    Ok(())
}

#[test]
fn a_line_out_of_order_and_one_said_twice_are_refused(rt: HostRuntime) {
    for (text, fault) in [
        (
            b"knx-script 1\nknx-script 2".as_slice(),
            ScriptFault::Order(2),
        ),
        (
            b"knx-script 1\nnode a 1.1.1 1\noff a\nnode b x y",
            ScriptFault::Order(4),
        ),
        (
            b"knx-script 1\nnode a 1.1.1 1\noff a\nmark a b c",
            ScriptFault::Order(4),
        ),
        (
            b"knx-script 1\nnode a 1.1.1 1\noff a\nmark a b",
            ScriptFault::Line(4, Cause::Words),
        ),
        (
            b"knx-script 1\nnode a 1.1.1 1\nnode a 1.1.2 1",
            ScriptFault::Twice(3),
        ),
        (
            b"knx-script 1\nnode a 1.1.1 1\nnode b 1.1.1 1",
            ScriptFault::Twice(3),
        ),
        (
            b"knx-script 1\nnode a 1.1.1 1\nobject a 1/2/3 - 1 00\nobject a 1/515 r bits 00",
            ScriptFault::Twice(4),
        ),
        (
            b"knx-script 1\n\
              role 1/2/3 1.1.1 command\n\
              node a 1.1.9 1\n\
              object a 1/2/3 w 1 00\n\
              mark a run:1.1.1 7\n\
              mark a run:1.1.1 8",
            ScriptFault::Twice(6),
        ),
    ] {
        assert_eq!(rt; fault_of(read_script(rt.alloc(), text)), Some(fault));
    }
}

// A line that begins so, with one octet again and again behind it.
fn long_line(alloc: Global, front: &[u8], octet: u8, count: u32) -> Result<Vec<u8>, Fail> {
    let mut line = Vec::from_slice(alloc, front)?;
    for _ in 0..count {
        line.push(octet)?;
    }
    Ok(line)
}

#[test]
fn a_line_of_1025_octets_and_a_frame_of_266_are_refused(rt: HostRuntime) -> Result<(), Fail> {
    for (front, octet, count, cause) in [
        (b"".as_slice(), b'#', 1_025, Cause::Long),
        (b"inject ", b'0', 532, Cause::Value),
    ] {
        let line = long_line(rt.alloc(), front, octet, count)?;
        assert!(rt; check(rt.alloc(), b"knx-script 1\n", &line, 2, cause)?);
    }
    Ok(())
}

#[test]
fn a_mark_of_another_lane_or_past_the_numbers_is_refused(rt: HostRuntime) -> Result<(), Fail> {
    let head =
        b"knx-script 1\nrole 1/2/3 1.1.1 command\nnode a 1.1.9 1\nobject a 1/2/3 w bits 00\n";
    for (line, cause) in [
        (b"mark a run:1.1.2 7".as_slice(), Cause::Lane),
        (b"mark a run:1.1.1 281474976710656", Cause::Number),
    ] {
        assert!(rt; check(rt.alloc(), head, line, 5, cause)?);
    }
    Ok(())
}

// A node of 65 lanes in line 67, an object in line 68, and then this line.
fn crowded(alloc: Global, last: &[u8]) -> Result<Option<ScriptFault>, Fail> {
    let mut text = String::from_str(alloc, "knx-script 1\n")?;
    for sender in 1..66u16 {
        write!(text, "role 1/2/3 1.1.{} command\n", sender)?;
    }
    text.push_str("node a 1.2.1 1\nobject a 1/2/3 w bits 00\n")?;
    let mut octets = Vec::from_slice(alloc, text.as_bytes())?;
    octets.extend_from_slice(last)?;
    Ok(fault_of(read_script(alloc, &octets)))
}

#[test]
fn too_many_lanes_are_told_with_the_nodes_line(rt: HostRuntime) -> Result<(), Fail> {
    for (last, fault) in [
        (b"".as_slice(), ScriptFault::TooMany(67)),
        (b"mark b run:1 x", ScriptFault::TooMany(67)),
        (b"off", ScriptFault::Line(69, Cause::Words)),
        (b"object b 0 x y z", ScriptFault::Line(69, Cause::Name)),
    ] {
        assert_eq!(rt; crowded(rt.alloc(), last)?, Some(fault));
    }
    Ok(())
}

#[test]
fn one_node_and_one_object_too_many_are_refused(rt: HostRuntime) -> Result<(), Fail> {
    let mut nodes = String::from_str(rt.alloc(), "knx-script 1\n")?;
    for node in 1..34u16 {
        write!(nodes, "node n{} 1.1.{} 1\n", node, node)?;
    }
    assert_eq!(rt;
        fault_of(read_script(rt.alloc(), nodes.as_bytes())),
        Some(ScriptFault::TooMany(34))
    );
    let mut objects = String::from_str(rt.alloc(), "knx-script 1\nnode a 1.1.1 1\n")?;
    for group in 1..66u16 {
        write!(objects, "object a {} - bits 00\n", group)?;
    }
    assert_eq!(rt;
        fault_of(read_script(rt.alloc(), objects.as_bytes())),
        Some(ScriptFault::TooMany(67))
    );
    Ok(())
}

const EXAMPLE: &[u8] = b"knx-script 1
group 1/2/3 000102030405060708090a0b0c0d0e0f conf
role 1/2/3 1.1.7 command
node push 1.1.7 1
object push 1/2/3 t bits 01
node lamp 1.1.9 1
object lamp 1/2/3 w bits 00
mark lamp run:1.1.7 0
send push 0 write
cut lamp 1 a5
deliver 1 lamp
on lamp
deliver 1 lamp
";

#[test]
fn the_example_of_the_formats_is_read(rt: HostRuntime) -> Result<(), Fail> {
    let Ok(script) = read_script(rt.alloc(), EXAMPLE) else {
        assert!(rt; false);
        return Ok(());
    };
    assert_eq!(rt; script.rows().len(), 2);
    for (place, name, address) in [
        (0, b"push".as_slice(), IndAddr(0x1107)),
        (1, b"lamp".as_slice(), IndAddr(0x1109)),
    ] {
        let Some(node) = script.nodes().get(place) else {
            assert!(rt; false);
            return Ok(());
        };
        assert_eq!(rt; node.name.as_bytes(), name);
        assert_eq!(rt; node.address, address);
        assert_eq!(rt; node.objects.as_slice().len(), 1);
        assert_eq!(rt; node.marks.as_slice().len(), 1);
    }
    assert_eq!(rt;
        script.events(),
        [
            send(0, 0),
            Event::Cut {
                node: 1,
                write: 1,
                torn: 0xa5,
            },
            deliver(1, 1),
            Event::On { node: 1 },
            deliver(1, 1),
        ]
        .as_slice()
    );
    Ok(())
}

#[test]
fn as_many_events_as_may_be_are_read(rt: HostRuntime) -> Result<(), Fail> {
    let mut text = String::from_str(rt.alloc(), "knx-script 1\nnode a 1.1.1 1\n")?;
    for _event in 0..100_000u32 {
        text.push_str("on a\n")?;
    }
    assert_eq!(rt; fault_of(read_script(rt.alloc(), text.as_bytes())), None);
    text.push_str("on a\n")?;
    assert_eq!(rt;
        fault_of(read_script(rt.alloc(), text.as_bytes())),
        Some(ScriptFault::TooMany(100_003))
    );
    Ok(())
}

fn send(node: usize, object: usize) -> Event {
    Event::Send {
        node,
        object,
        service: SendService::Write,
    }
}

fn deliver(telegram: u32, node: usize) -> Event {
    Event::Deliver { telegram, node }
}

// Worked out from the draws.
#[test]
fn the_made_events_follow_the_draws(rt: HostRuntime) {
    let Ok(script) = make_script(rt.alloc(), 7, 100_000) else {
        assert!(rt; false);
        return;
    };
    for (place, event) in [
        (0, Event::On { node: 3 }),
        (1, send(1, 1)),
        (2, send(0, 0)),
        (3, deliver(2, 3)),
        (4, send(0, 0)),
        (
            5,
            Event::Cut {
                node: 2,
                write: 4,
                torn: 0,
            },
        ),
        (
            6,
            Event::Ask {
                node: 0,
                to: IndAddr(0x1104),
                challenge: [0, 0, 0, 0, 0, 7],
            },
        ),
        (7, deliver(3, 2)),
        (8, send(1, 0)),
        (99_999, deliver(37_501, 2)),
    ] {
        assert_eq!(rt; script.events().get(place).copied(), Some(event));
    }
}
