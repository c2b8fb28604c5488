ghost use Rattle.std.specs.Prelude.{◌≡◌, ◌∷◌, [], ◌≤◌, map, codes, IfOk};
ghost use Rattle.std.specs.String.{string_bytes};

use crate::{Status, run};
use aes_modes::Key128;
use knx_base::{HostFiles, HostSink, IndAddr, MemFiles, MemSink, NoMemory, Number48};
use secure_apdu::{FrameBuf, SendHead, seal_frame};
use std::alloc::Global;
use std::fs;
use std::test::Fail;

pub(super) const TABLES: &str =
    "group 1/2/3 000102030405060708090a0b0c0d0e0f conf\nrole 1/2/3 1.1.7 command\n";

const AUTH_TABLES: &str =
    "group 1/2/3 000102030405060708090a0b0c0d0e0f auth\nrole 1/2/3 1.1.7 command";

/// Each sender may command.
const ANY_TABLES: &str =
    "group 1/2/3 000102030405060708090a0b0c0d0e0f conf\nrole 1/2/3 any command\n";

const KEY: [u8; 16] = [0, 1, 2, 3, 4, 5, 6, 7, 8, 9, 10, 11, 12, 13, 14, 15];

const OBSERVER_TABLES: &str =
    "group 1/2/3 000102030405060708090a0b0c0d0e0f conf\nrole 1/2/3 1.1.7 observe\n";

const DOUBLED_TABLES: &str =
    "group 1/2/3 000102030405060708090a0b0c0d0e0f conf\ngroup 1/515 000102030405060708090a0b0c0d0e0f auth\n";

/// From 1.1.7 to the group 1/2/3 under number 5, a GroupValue_Write of 1: twice, and the second time as a repetition.
pub(super) const TWICE: &str =
    "2900bce011070a030e03f1100000000000050d5858028267\n2900bce011070a030e03f1100000000000050d5858028267\n";

const REPEATED: &str =
    "2900bce011070a030e03f1100000000000050d5858028267\n29009ce011070a030e03f1100000000000050d5858028267";

/// The same under number 6, readable, and then under number 5.
const READABLE: &str =
    "2900bce011070a030e03f1000000000000060081615ae14f\n2900bce011070a030e03f1100000000000050d5858028267\n";

const ONCE: &str = "2900bce011070a030e03f1100000000000050d5858028267\n";

/// A device 1.1.9 with a tool key, which 1.1.7 may manage.
const DEVICE_TABLES: &str = "group 1/2/3 000102030405060708090a0b0c0d0e0f conf\n\
     role 1/2/3 1.1.7 command\n\
     tool 1.1.9 000102030405060708090a0b0c0d0e0f\n\
     role tool:1.1.9 1.1.7 manage\n";

/// From 1.1.7 to 1.1.9 under number 2, a request of a synchronisation, and its answer under number 1.
const EXCHANGE: &str = "29003c60110711091203f192000000000002fd82b40668d40a240653\n\
     29003c60110911071803f193010203040507447c61778fc4ec5016de976dd7fdfa50\n";

pub(super) fn audit_words(alloc: Global) -> Result<Vec<String>, NoMemory>
    ensures { IfOk result (λ words. map string_bytes words.items ≡ codes "audit" ∷ codes "tables" ∷ codes "frames"
        ∷ []) }
{
    let mut words = Vec::new(alloc);
    words.push(String::from_str(alloc, "audit")?)?;
    words.push(String::from_str(alloc, "tables")?)?;
    words.push(String::from_str(alloc, "frames")?)?;
    Ok(words)
}

// What an audit of these files prints, where the call on them with this number fails, and its status.
pub(super) fn audited(
    alloc: Global,
    tables: &str,
    frames: &str,
    failing: u64,
) -> Result<(MemSink, Status), Fail>
    requires numbered { (1 ≤ failing) × (failing ≤ 1000000) }
{
    audited_octets(alloc, tables, frames.as_bytes(), failing)
}

pub(super) fn audited_octets(
    alloc: Global,
    tables: &str,
    frames: &[u8],
    failing: u64,
) -> Result<(MemSink, Status), Fail>
    requires numbered { (1 ≤ failing) × (failing ≤ 1000000) }
{
    audited_into(alloc, tables, frames, failing, 30_000)
}

// The same into a sink of so many octets.
fn audited_into(
    alloc: Global,
    tables: &str,
    frames: &[u8],
    failing: u64,
    room: usize,
) -> Result<(MemSink, Status), Fail>
    requires numbered { (1 ≤ failing) × (failing ≤ 1000000) }
{
    if tables.len() > 1000 || frames.len() > 20_000_000 {
        return Err(Fail::from("a short text"));
    }
    let words = audit_words(alloc)?;
    let mut files = MemFiles::new(alloc);
    files.add("tables", tables.as_bytes())?;
    files.add("frames", frames)?;
    files.fail_at(failing)?;
    let mut out = MemSink::new(alloc, room)?;
    let status = run(alloc, &words, &mut files, &mut out, &mut None);
    Ok((out, status))
}

#[test]
fn one_telegram_again_and_again_is_accepted_once(rt: HostRuntime) -> Result<(), Fail> {
    let mut frames = Vec::new(rt.alloc());
    for _ in 0..200_000 {
        frames.extend_from_slice(ONCE.as_bytes())?;
    }
    let (out, status) = audited_into(rt.alloc(), TABLES, &frames, 1_000_000, 10_000_000)?;
    assert_eq!(rt; status, Status::Alarm);
    assert!(rt;
        out.bytes().starts_with(
            b"1 1.1.7 > 1/2/3 accepted number 5 GroupValue_Write 0081\n\
         2 1.1.7 > 1/2/3 stale kept 5 got 5 !\n"
        )
    );
    assert!(rt;
        out.bytes().ends_with(
            b"\n200000 1.1.7 > 1/2/3 stale kept 5 got 5 !\n\
         total 200000 accepted 1 sync 0 alarms 199999\n"
        )
    );
    Ok(())
}

#[test]
fn each_record_is_judged_by_those_before_it(rt: HostRuntime) -> Result<(), Fail> {
    let rows = [
        (
            TABLES,
            "",
            "total 0 accepted 0 sync 0 alarms 0\n",
            Status::Done,
        ),
        (
            TABLES,
            TWICE,
            "1 1.1.7 > 1/2/3 accepted number 5 GroupValue_Write 0081\n\
             2 1.1.7 > 1/2/3 stale kept 5 got 5 !\n\
             total 2 accepted 1 sync 0 alarms 1\n",
            Status::Alarm,
        ),
        (
            TABLES,
            REPEATED,
            "1 1.1.7 > 1/2/3 accepted number 5 GroupValue_Write 0081\n\
             2 1.1.7 > 1/2/3 repeat stale kept 5 got 5\n\
             total 2 accepted 1 sync 0 alarms 0\n",
            Status::Done,
        ),
        (
            OBSERVER_TABLES,
            TWICE,
            "1 1.1.7 > 1/2/3 role needs command has observe !\n\
             2 1.1.7 > 1/2/3 stale kept 5 got 5 !\n\
             total 2 accepted 0 sync 0 alarms 2\n",
            Status::Alarm,
        ),
        (
            DEVICE_TABLES,
            EXCHANGE,
            "1 1.1.7 > 1.1.9 sync-ask number 2 challenge 010203040506\n\
             2 1.1.9 > 1.1.7 sync-answer number 1 kept 500\n\
             total 2 accepted 0 sync 2 alarms 0\n",
            Status::Done,
        ),
    ];
    for (tables, frames, report, ended) in rows {
        let (out, status) = audited(rt.alloc(), tables, frames, 1_000_000)?;
        assert_eq!(rt; out.bytes(), report.as_bytes());
        assert_eq!(rt; status, ended);
    }
    Ok(())
}

#[test]
fn a_readable_telegram_is_kept_whatever_its_level(rt: HostRuntime) -> Result<(), Fail> {
    let rows = [
        (
            TABLES,
            READABLE,
            "1 1.1.7 > 1/2/3 level !\n2 1.1.7 > 1/2/3 stale kept 6 got 5 !\ntotal 2 accepted 0 sync 0 alarms 2\n",
            Status::Alarm,
        ),
        (
            AUTH_TABLES,
            READABLE,
            "1 1.1.7 > 1/2/3 accepted number 6 GroupValue_Write 0081\n\
             2 1.1.7 > 1/2/3 stale kept 6 got 5 !\n\
             total 2 accepted 1 sync 0 alarms 1\n",
            Status::Alarm,
        ),
    ];
    for (tables, frames, report, ended) in rows {
        let (out, status) = audited(rt.alloc(), tables, frames, 1_000_000)?;
        assert_eq!(rt; out.bytes(), report.as_bytes());
        assert_eq!(rt; status, ended);
    }
    Ok(())
}

#[test]
fn readable_frames_and_records_that_are_none_are_told(rt: HostRuntime) -> Result<(), Fail> {
    let rows = [
        (
            TABLES,
            "2900bce011070a03010081\n2b00bc11070a03e100813c\n2b0703010004021234bc11070a03e100813c\n",
            "1 1.1.7 > 1/2/3 plain GroupValue_Write !\n\
             2 1.1.7 > 1/2/3 plain GroupValue_Write !\n\
             3 1.1.7 > 1/2/3 plain GroupValue_Write !\n\
             total 3 accepted 0 sync 0 alarms 3\n",
            Status::Alarm,
        ),
        (
            TABLES,
            "2b00bc11070a03e100813d\n2b00cc\n# a comment\n2900bce011070a030100\n\n2900bce011070a03ff\n",
            "1 - not-frame check 3d 3c\n\
             2 - not-frame acknowledge cc\n\
             3 - not-frame length 2 1\n\
             4 - not-frame escape\n\
             total 4 accepted 0 sync 0 alarms 0\n",
            Status::Done,
        ),
        (
            "role 1/2/3 any command\n",
            ONCE,
            "1 1.1.7 > 1/2/3 no-key\ntotal 1 accepted 0 sync 0 alarms 0\n",
            Status::Done,
        ),
        (
            "group 1/2/3 000102030405060708090a0b0c0d0e0f conf\n",
            ONCE,
            "1 1.1.7 > 1/2/3 sender !\ntotal 1 accepted 0 sync 0 alarms 1\n",
            Status::Alarm,
        ),
    ];
    for (tables, frames, report, ended) in rows {
        let (out, status) = audited(rt.alloc(), tables, frames, 1_000_000)?;
        assert_eq!(rt; out.bytes(), report.as_bytes());
        assert_eq!(rt; status, ended);
    }
    Ok(())
}

#[test]
fn a_refused_file_ends_the_report(rt: HostRuntime) -> Result<(), Fail> {
    let rows = [
        (
            DOUBLED_TABLES,
            ONCE,
            "refused tables line 2 twice\n",
            Status::Refused,
        ),
        (
            TABLES,
            "290",
            "refused frames line 1 digits\n",
            Status::Refused,
        ),
        (
            TABLES,
            "\n2900bce011070a03010081\n29 00\n",
            "1 1.1.7 > 1/2/3 plain GroupValue_Write !\nrefused frames line 3 words\n",
            Status::Refused,
        ),
    ];
    for (tables, frames, report, ended) in rows {
        let (out, status) = audited(rt.alloc(), tables, frames, 1_000_000)?;
        assert_eq!(rt; out.bytes(), report.as_bytes());
        assert_eq!(rt; status, ended);
    }
    Ok(())
}

#[test]
fn a_fault_before_the_first_line_leaves_nothing_written(rt: HostRuntime) -> Result<(), Fail> {
    let alloc = rt.alloc();
    for call in [1, 2, 3, 4, 5] {
        let (out, status) = audited(alloc, TABLES, TWICE, call)?;
        assert_eq!(rt; out.bytes(), b"".as_slice());
        assert_eq!(rt; status, Status::ReadFault);
    }
    let words = audit_words(alloc)?;
    let mut files = MemFiles::new(alloc);
    files.add("tables", TABLES.as_bytes())?;
    files.add("frames", b"")?;
    let mut out = MemSink::new(alloc, 1000)?;
    out.fail_at(1)?;
    let status = run(alloc, &words, &mut files, &mut out, &mut None);
    assert_eq!(rt; out.bytes(), b"".as_slice());
    assert_eq!(rt; status, Status::WriteFault);
    Ok(())
}

#[test]
fn a_fault_of_reading_after_records_leaves_their_lines(rt: HostRuntime) -> Result<(), Fail> {
    let (out, status) = audited(rt.alloc(), TABLES, TWICE, 6)?;
    let lines =
        b"1 1.1.7 > 1/2/3 accepted number 5 GroupValue_Write 0081\n2 1.1.7 > 1/2/3 stale kept 5 got 5 !\n";
    assert_eq!(rt; out.bytes(), lines.as_slice());
    assert_eq!(rt; status, Status::ReadFault);
    Ok(())
}

#[test]
fn an_audit_of_the_host_s_files(rt: HostRuntime) -> Result<(), Fail> {
    fs::write(&rt, "tables", TABLES)?;
    fs::write(&rt, "frames", TWICE)?;
    let words = audit_words(rt.alloc())?;
    let mut files = HostFiles::new(&rt);
    let mut out = HostSink::new(&rt);
    let status = run(rt.alloc(), &words, &mut files, &mut out, &mut None);
    assert_eq!(rt; status, Status::Alarm);
    Ok(())
}

// Telegrams of 300 senders to the group 1/2/3, each sealed for its sender under number 5: twice the first, and each
// other once.
fn senders(alloc: Global) -> Result<String, Fail> {
    let key = Key128::new(KEY);
    let mut frames = String::new(alloc);
    add_telegram(&key, 0x1100, &mut frames)?;
    for sender in 0x1100..0x122c {
        add_telegram(&key, sender, &mut frames)?;
    }
    Ok(frames)
}

fn add_telegram(key: &Key128, sender: u16, frames: &mut String) -> Result<(), Fail> {
    let number = Number48::new(5).ok_or("a number of 48 bits")?;
    let head = SendHead {
        source: IndAddr(sender),
        destination: 0x0a03,
        group: true,
        number,
        shown: number,
        field: 0x10,
    };
    let mut frame = FrameBuf::new();
    seal_frame(key, &head, &[0x00, 0x81], &mut frame);
    for octet in frame.bytes() {
        write!(*frames, "{octet:02x}")?;
    }
    writeln!(*frames)?;
    Ok(())
}

#[test]
fn each_sender_has_a_mark_of_its_own(rt: HostRuntime) -> Result<(), Fail> {
    let frames = senders(rt.alloc())?;
    let (out, status) = audited(rt.alloc(), ANY_TABLES, frames.as_str(), 1_000_000)?;
    let total = b"\ntotal 301 accepted 300 sync 0 alarms 1\n";
    assert!(rt; out.bytes().ends_with(total));
    assert_eq!(rt; status, Status::Alarm);
    Ok(())
}
