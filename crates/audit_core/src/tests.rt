ghost use Rattle.std.specs.Prelude.{◌≡◌, ◌+◌, ◌-◌, ◌^◌, ◌<◌, OnOk};

use crate::{Addresses, Audit, Line, print_line};
use judge_rules::Verdict;
use key_tables::{Tables, read_tables};
use knx_base::{Failed, IndAddr, MemSink};
use secure_apdu::ApduBuf;
use std::alloc::Global;
use std::test::Fail;

const CONF: &[u8] = b"group 1/2/3 000102030405060708090a0b0c0d0e0f conf\nrole 1/2/3 1.1.7 command";

const AUTH: &[u8] = b"group 1/2/3 000102030405060708090a0b0c0d0e0f auth\nrole 1/2/3 1.1.7 command";

const OBSERVE: &[u8] =
    b"group 1/2/3 000102030405060708090a0b0c0d0e0f conf\nrole 1/2/3 1.1.7 observe";

/// From 1.1.7 to the group 1/2/3 under number 5, a GroupValue_Write of 1; and the same as a repetition.
const TELEGRAM: &str = "2900bce011070a030e03f1100000000000050d5858028267";

const REPETITION: &str = "29009ce011070a030e03f1100000000000050d5858028267";

/// The same under number 6, readable.
const READABLE: &str = "2900bce011070a030e03f1000000000000060081615ae14f";

const DEVICE: &[u8] = b"group 1/2/3 000102030405060708090a0b0c0d0e0f conf
role 1/2/3 1.1.7 command
tool 1.1.9 000102030405060708090a0b0c0d0e0f
role tool:1.1.9 1.1.7 manage";

/// From 1.1.7 to 1.1.9 under number 2, a request of a synchronisation with the challenge 010203040506.
const REQUEST: &str = "29003c60110711091203f192000000000002fd82b40668d40a240653";

/// Its answer under number 1, which shows the challenge XOR that and tells that 500 was kept.
const ANSWER: &str = "29003c60110911071803f193010203040507447c61778fc4ec5016de976dd7fdfa50";

// Prints the line of the next frame.
fn print_next(alloc: Global, audit: &mut Audit, frame: &str, out: &mut MemSink) -> Result<(), Fail>
    requires few { audit.old.total.records < 2 ^ 64 - 1 }
    ensures counted { OnOk result (audit.new.total.records ≡ audit.old.total.records + 1) }
{
    let octets = hex::decode(alloc, frame.as_bytes())?;
    let mut apdu = ApduBuf::new();
    match audit.frame(octets.as_slice(), &mut apdu) {
        Ok(line) => Ok(print_line(&line, None, &apdu, out)?),
        Err(_) => Err(Fail::from("no memory")),
    }
}

// What an audit of these frames prints, its total last, and how many alarms it counts.
fn audited(alloc: Global, rows: &[u8], frames: &[&str]) -> Result<(MemSink, u64), Fail> {
    let rows = read_tables(alloc, rows)?;
    let mut audit = Audit::new(alloc, Tables::build(alloc, rows.as_slice())?);
    let mut out = MemSink::new(alloc, 1000)?;
    for frame in frames {
        print_next(alloc, &mut audit, frame, &mut out)?;
    }
    audit.print_total(&mut out)?;
    Ok((out, audit.alarms()))
}

#[test]
fn a_number_is_stale_once_it_was_kept(rt: HostRuntime) -> Result<(), Fail> {
    let rows: [(&[u8], [&str; 2], &str, u64); 3] = [
        (
            CONF,
            [TELEGRAM, TELEGRAM],
            "1 1.1.7 > 1/2/3 accepted number 5 GroupValue_Write 0081\n\
             2 1.1.7 > 1/2/3 stale kept 5 got 5 !\n\
             total 2 accepted 1 sync 0 alarms 1\n",
            1,
        ),
        (
            CONF,
            [TELEGRAM, REPETITION],
            "1 1.1.7 > 1/2/3 accepted number 5 GroupValue_Write 0081\n\
             2 1.1.7 > 1/2/3 repeat stale kept 5 got 5\n\
             total 2 accepted 1 sync 0 alarms 0\n",
            0,
        ),
        (
            OBSERVE,
            [TELEGRAM, TELEGRAM],
            "1 1.1.7 > 1/2/3 role needs command has observe !\n\
             2 1.1.7 > 1/2/3 stale kept 5 got 5 !\n\
             total 2 accepted 0 sync 0 alarms 2\n",
            2,
        ),
    ];
    for (rows, frames, told, alarms) in rows {
        let (out, count) = audited(rt.alloc(), rows, &frames)?;
        assert_eq!(rt; out.bytes(), told.as_bytes());
        assert_eq!(rt; count, alarms);
    }
    Ok(())
}

#[test]
fn a_readable_frame_is_accepted_where_its_group_allows(rt: HostRuntime) -> Result<(), Fail> {
    let rows: [(&[u8], [&str; 2], &str, u64); 2] = [
        (
            CONF,
            [READABLE, TELEGRAM],
            "1 1.1.7 > 1/2/3 level !\n2 1.1.7 > 1/2/3 stale kept 6 got 5 !\ntotal 2 accepted 0 sync 0 alarms 2\n",
            2,
        ),
        (
            AUTH,
            [READABLE, TELEGRAM],
            "1 1.1.7 > 1/2/3 accepted number 6 GroupValue_Write 0081\n\
             2 1.1.7 > 1/2/3 stale kept 6 got 5 !\n\
             total 2 accepted 1 sync 0 alarms 1\n",
            1,
        ),
    ];
    for (rows, frames, told, alarms) in rows {
        let (out, count) = audited(rt.alloc(), rows, &frames)?;
        assert_eq!(rt; out.bytes(), told.as_bytes());
        assert_eq!(rt; count, alarms);
    }
    Ok(())
}

#[test]
fn records_that_are_not_secure_frames_have_their_lines(rt: HostRuntime) -> Result<(), Fail> {
    let frames = [
        "2900bce011070a03010081",
        "2b00bc11070a03e100813c",
        "2b0703010004021234bc11070a03e100813c",
        "",
        "00",
        "29010300",
        "2b004000",
        "2900bce011070a03ff",
        "2900bce011070a030100",
        "2b00bc11070a03e100813d",
        "2b00cc",
    ];
    let told = "1 1.1.7 > 1/2/3 plain GroupValue_Write !
2 1.1.7 > 1/2/3 plain GroupValue_Write !
3 1.1.7 > 1/2/3 plain GroupValue_Write !
4 - not-frame short 0
5 - not-frame code 00
6 - not-frame info 2
7 - not-frame format 40
8 - not-frame escape
9 - not-frame length 2 1
10 - not-frame check 3d 3c
11 - not-frame acknowledge cc
total 11 accepted 0 sync 0 alarms 3\n";
    let (out, alarms) = audited(rt.alloc(), CONF, &frames)?;
    assert_eq!(rt; out.bytes(), told.as_bytes());
    assert_eq!(rt; alarms, 3);
    Ok(())
}

#[test]
fn rows_say_whose_frames_are_judged(rt: HostRuntime) -> Result<(), Fail> {
    let rows: [(&[u8], &str, &str, u64); 2] = [
        (
            b"role 1/2/3 any command",
            TELEGRAM,
            "1 1.1.7 > 1/2/3 no-key\ntotal 1 accepted 0 sync 0 alarms 0\n",
            0,
        ),
        (
            b"group 1/2/3 000102030405060708090a0b0c0d0e0f conf",
            TELEGRAM,
            "1 1.1.7 > 1/2/3 sender !\ntotal 1 accepted 0 sync 0 alarms 1\n",
            1,
        ),
    ];
    for (rows, frame, told, alarms) in rows {
        let (out, count) = audited(rt.alloc(), rows, &[frame])?;
        assert_eq!(rt; out.bytes(), told.as_bytes());
        assert_eq!(rt; count, alarms);
    }
    Ok(())
}

#[test]
fn an_answer_is_taken_once_after_its_request(rt: HostRuntime) -> Result<(), Fail> {
    let cases: [(&[&str], &str); 4] = [
        (
            &[REQUEST, ANSWER],
            "1 1.1.7 > 1.1.9 sync-ask number 2 challenge 010203040506
2 1.1.9 > 1.1.7 sync-answer number 1 kept 500
total 2 accepted 0 sync 2 alarms 0\n",
        ),
        (
            &[ANSWER],
            "1 1.1.9 > 1.1.7 no-pending\ntotal 1 accepted 0 sync 0 alarms 0\n",
        ),
        (
            &[REQUEST, ANSWER, ANSWER],
            "1 1.1.7 > 1.1.9 sync-ask number 2 challenge 010203040506
2 1.1.9 > 1.1.7 sync-answer number 1 kept 500
3 1.1.9 > 1.1.7 no-pending
total 3 accepted 0 sync 2 alarms 0\n",
        ),
        (
            &[REQUEST, ANSWER, REQUEST, ANSWER],
            "1 1.1.7 > 1.1.9 sync-ask number 2 challenge 010203040506
2 1.1.9 > 1.1.7 sync-answer number 1 kept 500
3 1.1.7 > 1.1.9 sync-ask number 2 challenge 010203040506
4 1.1.9 > 1.1.7 sync-answer number 1 kept 500
total 4 accepted 0 sync 4 alarms 0\n",
        ),
    ];
    for (frames, told) in cases {
        let (out, _) = audited(rt.alloc(), DEVICE, frames)?;
        assert_eq!(rt; out.bytes(), told.as_bytes());
    }
    Ok(())
}

// A frame from one device to another, whose sender has no role.
fn refused_line() -> Line {
    Line {
        index: 7,
        addresses: Some(Addresses {
            source: IndAddr(0x1107),
            group: false,
            destination: 0x1109,
        }),
        repeated: true,
        verdict: Verdict::Sender,
        alarm: true,
    }
}

#[test]
fn a_line_shows_the_time_of_its_record(rt: HostRuntime) -> Result<(), Fail> {
    for (time, told) in [
        (
            1_709_287_200_123,
            "7 @1709287200123 1.1.7 > 1.1.9 repeat sender !\n",
        ),
        (-1, "7 @-1 1.1.7 > 1.1.9 repeat sender !\n"),
        (
            i64::MIN,
            "7 @-9223372036854775808 1.1.7 > 1.1.9 repeat sender !\n",
        ),
    ] {
        let mut out = MemSink::new(rt.alloc(), 100)?;
        print_line(&refused_line(), Some(time), &ApduBuf::new(), &mut out)?;
        assert_eq!(rt; out.bytes(), told.as_bytes());
    }
    Ok(())
}

#[test]
fn a_failing_sink_has_a_part_of_the_text(rt: HostRuntime) -> Result<(), Fail> {
    let mut full = MemSink::new(rt.alloc(), 5)?;
    let printed = print_line(&refused_line(), None, &ApduBuf::new(), &mut full);
    assert_eq!(rt; printed, Err(Failed));
    assert_eq!(rt; full.bytes(), b"7 1.1".as_slice());
    let mut failing = MemSink::new(rt.alloc(), 100)?;
    failing.fail_at(1)?;
    let rows = read_tables(rt.alloc(), CONF)?;
    let audit = Audit::new(rt.alloc(), Tables::build(rt.alloc(), rows.as_slice())?);
    assert_eq!(rt; audit.print_total(&mut failing), Err(Failed));
    assert_eq!(rt; failing.bytes(), b"".as_slice());
    Ok(())
}
