use crate::{Status, run};
use knx_base::{HostFiles, MemSink, NoMemory};
use std::alloc::AllocGlobal;
use std::rt;
use std::test::Fail;

mod audits;
mod faults;
mod keyrings;
mod logs;
mod replays;
mod values;

const KEY: &str = "000102030405060708090a0b0c0d0e0f";

/// From 1.1.7 to the group 1/2/3 under number 5: a GroupValue_Write of 1.
const TELEGRAM: &str = "2900bce011070a030e03f1100000000000050d5858028267";

// What `run` prints for these words into a sink with this room, and its status.
fn printed<R: rt::Files + AllocGlobal>(
    rt: &R,
    texts: &[&str],
    room: usize,
) -> Result<(MemSink, Status), NoMemory> {
    let alloc = rt.alloc();
    let mut words = Vec::new(alloc);
    for text in texts {
        words.push(String::from_str(alloc, text)?)?;
    }
    let mut out = MemSink::new(alloc, room)?;
    let status = run(alloc, &words, &mut HostFiles::new(rt), &mut out, &mut None);
    Ok((out, status))
}

#[test]
fn words_of_no_form_print_the_usage_line(rt: HostRuntime) -> Result<(), Fail> {
    let usage =
        b"usage: knxsec open KEYHEX FRAMEHEX | audit TABLES FRAMES | audit-keyring KEYRING PASSWORDFILE TABLES FRAMES | \
             replay SCRIPT | make NUMBER COUNT | audit-values TABLES TYPES FRAMES | encode TYPE TEXT\n";
    let short_key = "000102030405060708090a0b0c0d0e0";
    for texts in [["open", short_key, TELEGRAM], ["open", KEY, ""]] {
        let (out, status) = printed(&rt, &texts, 1000)?;
        assert_eq!(rt; status, Status::Usage);
        assert_eq!(rt; out.bytes(), usage.as_slice());
    }
    Ok(())
}

#[test]
fn frames_open_or_print_their_verdict(rt: HostRuntime) -> Result<(), Fail> {
    let rows = [
        (TELEGRAM, "0081\n", Status::Done),
        // The hop count is not covered.
        (
            "2900bc9011070a030e03f1100000000000050d5858028267",
            "0081\n",
            Status::Done,
        ),
        // The code and the octets fill the first block of the stream, and cross it.
        (
            "29003ce011070a031803f1100000000000050d59944e95d577eb2b5cc0e2a9ccce66",
            "00800102030405060708090a\n",
            Status::Done,
        ),
        (
            "29003ce011070a031903f1100000000000050d59944e95d577eb2b5cc0e23e2a1e97bf",
            "00800102030405060708090a0b\n",
            Status::Done,
        ),
        // Authentication alone.
        (
            "2900bce011070a030e03f1000000000000060081615ae14f",
            "0081\n",
            Status::Done,
        ),
        (
            "2900bce011070a03010081",
            "plain GroupValue_Write\n",
            Status::Alarm,
        ),
        (
            "2900bce011070a030d03f110000000000005aabbccddee",
            "bad-secure short 12\n",
            Status::Alarm,
        ),
        ("29", "not-frame short 1\n", Status::Alarm),
        (
            "2b00bc11070a03e100813d",
            "not-frame check 3d 3c\n",
            Status::Alarm,
        ),
        ("2b00cc", "not-frame acknowledge cc\n", Status::Alarm),
        (
            "2900bce011070a030100",
            "not-frame length 2 1\n",
            Status::Alarm,
        ),
        ("2900bce011070a03ff", "not-frame escape\n", Status::Alarm),
    ];
    for (frame, report, ended) in rows {
        let (out, status) = printed(&rt, &["open", KEY, frame], 100)?;
        assert_eq!(rt; out.bytes(), report.as_bytes());
        assert_eq!(rt; status, ended);
    }
    Ok(())
}

#[test]
fn a_changed_code_is_told_beside_the_computed_one(rt: HostRuntime) -> Result<(), Fail> {
    let changed = "2900bce011070a030e03f1100000000000050d5858028268";
    let (out, status) = printed(&rt, &["open", KEY, changed], 100)?;
    assert_eq!(rt; status, Status::Alarm);
    assert!(rt; out.bytes().starts_with(b"bad-code said "));
    assert_eq!(rt; out.bytes().len(), 41);
    Ok(())
}

#[test]
fn a_full_sink_is_a_write_fault(rt: HostRuntime) -> Result<(), Fail> {
    let (out, status) = printed(&rt, &["open", KEY, TELEGRAM], 2)?;
    assert_eq!(rt; status, Status::WriteFault);
    assert_eq!(rt; out.bytes(), b"00".as_slice());
    Ok(())
}
