ghost use Rattle.std.specs.Prelude.{◌≡◌, ◌≢◌, [], map, IfOk};
ghost use Rattle.std.specs.String.{string_bytes};
ghost use Rattle.knx_base.specs.Shelf.{file_of};
ghost use Rattle.knxsec_app.specs.Words.{command_of};
ghost use Rattle.knxsec_app.specs.Commands.{AreThere};

use super::audits::{TABLES, TWICE, audit_words};
use super::keyrings::{FRAMES, HOUSE, NEVER, REPORT};
use super::replays::{ONE_WRITE, replay_words};
use super::{KEY, TELEGRAM, keyrings, printed};
use crate::{Status, run};
use knx_base::{CountSink, MemFiles, MemSink, SureFiles};
use std::alloc::Global;
use std::test::Fail;

const TWICE_REPORT: &str = "1 1.1.7 > 1/2/3 accepted number 5 GroupValue_Write 0081\n\
     2 1.1.7 > 1/2/3 stale kept 5 got 5 !\n\
     total 2 accepted 1 sync 0 alarms 1\n";

// ---- what fails

// So many calls on the files are good before one fails, so many on the sink, and the sink has this room.
#[derive(Clone, Copy)]
struct Outside {
    reads: u32,
    writes: u32,
    room: usize,
}

const SURE: Outside = Outside {
    reads: u32::MAX,
    writes: u32::MAX,
    room: 10_000,
};

impl Outside {
    fn files(self, alloc: Global) -> Result<MemFiles, Fail>
        ensures none { IfOk result (λ files. files.files ≡ []) }
    {
        let mut files = MemFiles::new(alloc);
        files.fail_at(u64::from(self.reads) + 1)?;
        Ok(files)
    }

    fn sink(self, alloc: Global) -> Result<MemSink, Fail> {
        let mut out = MemSink::new(alloc, self.room)?;
        out.fail_at(u64::from(self.writes) + 1)?;
        Ok(out)
    }
}

// ---- the three runs

fn audit_twice(alloc: Global, outside: Outside) -> Result<(MemSink, Status), Fail> {
    let words = audit_words(alloc)?;
    let mut files = outside.files(alloc)?;
    files.add("tables", TABLES.as_bytes())?;
    files.add("frames", TWICE.as_bytes())?;
    let mut out = outside.sink(alloc)?;
    let status = run(alloc, &words, &mut files, &mut out, &mut None);
    Ok((out, status))
}

fn audit_house(alloc: Global, outside: Outside) -> Result<(MemSink, Status), Fail> {
    let words = keyrings::audit_words(alloc)?;
    let mut files = outside.files(alloc)?;
    files.add("keyring", HOUSE.as_bytes())?;
    files.add("password", b"test-password")?;
    files.add("tables", b"")?;
    files.add("frames", FRAMES.as_bytes())?;
    let mut out = outside.sink(alloc)?;
    let status = run(alloc, &words, &mut files, &mut out, &mut None);
    Ok((out, status))
}

fn replay_one_write(alloc: Global, outside: Outside) -> Result<(MemSink, Status), Fail> {
    let script = ONE_WRITE.script(alloc)?;
    if script.len() > 10_000 {
        return Err(Fail::from("a short text"));
    }
    let words = replay_words(alloc)?;
    let mut files = outside.files(alloc)?;
    files.add("script", script.as_bytes())?;
    let mut out = outside.sink(alloc)?;
    let mut played = None;
    let status = run(alloc, &words, &mut files, &mut out, &mut played);
    if played.is_some() != (status == Status::Done) {
        return Err(Fail::from("a world with Done alone"));
    }
    Ok((out, status))
}

#[derive(Clone, Copy)]
enum Command {
    Audit,
    House,
    Replay,
}

impl Command {
    fn run(self, alloc: Global, outside: Outside) -> Result<(MemSink, Status), Fail> {
        match self {
            Command::Audit => audit_twice(alloc, outside),
            Command::House => audit_house(alloc, outside),
            Command::Replay => replay_one_write(alloc, outside),
        }
    }

    // The whole report, and its status.
    fn answer(self, alloc: Global) -> Result<(String, Status), Fail> {
        match self {
            Command::Audit => Ok((String::from_str(alloc, TWICE_REPORT)?, Status::Alarm)),
            Command::House => Ok((String::from_str(alloc, REPORT)?, Status::Done)),
            Command::Replay => Ok((ONE_WRITE.report(alloc)?, Status::Done)),
        }
    }
}

// ---- calls that fail

// So many calls are good before one fails in this way.
fn failing(fault: Status, good: u32) -> Outside {
    match fault {
        Status::ReadFault => Outside {
            reads: good,
            ..SURE
        },
        _ => Outside {
            writes: good,
            ..SURE
        },
    }
}

// How many calls there are of which the next one can fail in this way. Where one fails a prefix of the report was
// written, and where none does the whole of it.
fn count_calls(alloc: Global, command: Command, fault: Status) -> Result<u32, Fail> {
    let (report, status) = command.answer(alloc)?;
    for good in 0..1000 {
        let (out, ended) = command.run(alloc, failing(fault, good))?;
        if ended == status && out.bytes() == report.as_bytes() {
            return Ok(good);
        }
        if ended != fault || !report.as_bytes().starts_with(out.bytes()) {
            return Err(Fail::from("a prefix of the report after a fault"));
        }
    }
    Err(Fail::from("an end of the calls"))
}

#[test]
fn each_call_that_fails_leaves_a_prefix_of_the_report(rt: HostRuntime) -> Result<(), Fail> {
    // Each file is opened and read, and each report is written.
    let rows = [
        (Command::Audit, 4),
        (Command::House, 8),
        (Command::Replay, 2),
    ];
    for (command, least) in rows {
        assert!(rt; count_calls(rt.alloc(), command, Status::ReadFault)? >= least);
        assert!(rt; count_calls(rt.alloc(), command, Status::WriteFault)? >= 1);
    }
    Ok(())
}

#[test]
fn a_sink_that_is_full_has_what_it_has_room_for(rt: HostRuntime) -> Result<(), Fail> {
    let report = ONE_WRITE.report(rt.alloc())?;
    for room in 0..601 {
        let (out, status) = replay_one_write(rt.alloc(), Outside { room, ..SURE })?;
        assert_eq!(rt; status, Status::WriteFault);
        assert_eq!(rt; out.bytes().len(), room);
        assert!(rt; report.as_bytes().starts_with(out.bytes()));
    }
    Ok(())
}

// ---- nothing that fails

// Over files and a sink of which no call fails no fault is answered.
fn run_surely(alloc: Global, words: &[String], files: &mut SureFiles) -> (CountSink, Status)
    requires there { AreThere (command_of (map string_bytes words.now)) (map file_of files.old.files) }
    ensures no_read_fault { result.1 ≢ Status.ReadFault }
    ensures no_write_fault { result.1 ≢ Status.WriteFault }
{
    let mut out = CountSink::new();
    let status = run(alloc, words, files, &mut out, &mut None);
    (out, status)
}

#[test]
fn an_audit_ends_where_no_call_fails(rt: HostRuntime) -> Result<(), Fail> {
    let alloc = rt.alloc();
    let rows = [
        ("", "total 0 accepted 0 sync 0 alarms 0\n", Status::Done),
        (TWICE, TWICE_REPORT, Status::Alarm),
    ];
    for (frames, report, ended) in rows {
        let mut files = SureFiles::new(alloc);
        files.add("tables", TABLES.as_bytes())?;
        files.add("frames", frames.as_bytes())?;
        let (out, status) = run_surely(alloc, &audit_words(alloc)?, &mut files);
        assert_eq!(rt; status, ended);
        assert_eq!(rt; out.count(), report.len() as u128);
    }
    Ok(())
}

#[test]
fn an_audit_by_a_keyring_ends_where_no_call_fails(rt: HostRuntime) -> Result<(), Fail> {
    let alloc = rt.alloc();
    let mut files = SureFiles::new(alloc);
    files.add("keyring", HOUSE.as_bytes())?;
    files.add("password", b"test-password")?;
    files.add("tables", b"")?;
    files.add("frames", FRAMES.as_bytes())?;
    let (out, status) = run_surely(alloc, &keyrings::audit_words(alloc)?, &mut files);
    assert_eq!(rt; status, Status::Done);
    assert_eq!(rt; out.count(), REPORT.len() as u128);
    Ok(())
}

#[test]
fn a_replay_ends_where_no_call_fails(rt: HostRuntime) -> Result<(), Fail> {
    let alloc = rt.alloc();
    let script = ONE_WRITE.script(alloc)?;
    assert!(rt; script.len() < 10_000);
    let mut files = SureFiles::new(alloc);
    files.add("script", script.as_bytes())?;
    let (out, status) = run_surely(alloc, &replay_words(alloc)?, &mut files);
    assert_eq!(rt; status, Status::Done);
    assert_eq!(rt; out.count(), ONE_WRITE.report(alloc)?.len() as u128);
    Ok(())
}

// ---- input that was cut

#[test]
fn a_cut_frame_is_short_or_of_another_length(rt: HostRuntime) -> Result<(), Fail> {
    for count in 1..24 {
        let front = TELEGRAM.get(..2 * count).ok_or("the front of the digits")?;
        let mut report = String::new(rt.alloc());
        if count < 9 {
            writeln!(report, "not-frame short {count}")?;
        } else {
            writeln!(report, "not-frame length 15 {}", count - 9)?;
        }
        let (out, status) = printed(&rt, &["open", KEY, front], 100)?;
        assert_eq!(rt; out.bytes(), report.as_bytes());
        assert_eq!(rt; status, Status::Alarm);
    }
    Ok(())
}

// The place of the tag or instruction that a cut behind these octets divides, else the place of the cut.
fn divided_at(front: &[u8]) -> usize {
    let begun = front.iter().rposition(|octet| *octet == b'<');
    let ended = front.iter().rposition(|octet| *octet == b'>');
    match begun {
        Some(place) if ended < begun => place,
        _ => front.len(),
    }
}

#[test]
fn a_cut_keyring_is_bad_where_it_was_cut(rt: HostRuntime) -> Result<(), Fail> {
    let alloc = rt.alloc();
    for count in 0..HOUSE.len() - 1 {
        let front = HOUSE.get(..count).ok_or("the front of the keyring")?;
        let mut report = String::new(alloc);
        writeln!(
            report,
            "refused keyring at {} bad",
            divided_at(front.as_bytes())
        )?;
        let (out, status) = keyrings::audited(alloc, front, "test-password", "", FRAMES, NEVER)?;
        assert_eq!(rt; out.bytes(), report.as_bytes());
        assert_eq!(rt; status, Status::Refused);
    }
    Ok(())
}

#[test]
fn a_keyring_needs_no_last_line_end(rt: HostRuntime) -> Result<(), Fail> {
    let whole = HOUSE.trim_end();
    let (out, status) = keyrings::audited(rt.alloc(), whole, "test-password", "", FRAMES, NEVER)?;
    assert_eq!(rt; out.bytes(), REPORT.as_bytes());
    assert_eq!(rt; status, Status::Done);
    Ok(())
}
