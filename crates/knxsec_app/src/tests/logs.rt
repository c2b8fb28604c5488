use super::audits::{TABLES, audited, audited_octets};
use super::keyrings;
use crate::Status;
use std::test::Fail;

/// Two telegrams as ETS exports them, both the one of number 5, with other elements between them. The second stands
/// deeper, and half a millisecond before 1970.
const LOG: &str = r#"<?xml version="1.0" encoding="utf-8"?>
<CommunicationLog xmlns="http://knx.org/xml/telegrams/01">
  <RecordStart Timestamp="2024-03-01T09:59:58.5Z" Mode="LinkLayer" MediumType="TP" />
  <Telegram Timestamp="2024-03-01T10:00:00Z" Service="L_Data.ind" FrameFormat="CommonEmi"
    RawData="2900bce011070a030e03f1100000000000050d5858028267" />
  <RecordStop Timestamp="2024-03-01T10:00:01Z" />
  <!-- the clock of this computer stands before 1970 -->
  <Telegrams><Telegram Service="L_Data.ind" Timestamp="1969-12-31T23:59:59.9995Z"
    RawData='2900bce011070a030e03f1100000000000050d5858028267'></Telegram></Telegrams>
</CommunicationLog>
"#;

/// How many octets of it stand up to the end of its first telegram.
const FIRST: usize = 339;

/// The log and the report of the folder `examples`.
const HOUSE_LOG: &str = r#"<?xml version="1.0" encoding="utf-8"?>
<CommunicationLog xmlns="http://knx.org/xml/telegrams/01">
  <RecordStart Timestamp="2024-03-01T06:00:00.0000000Z" Mode="LinkLayer" MediumType="TP" />
  <Telegram Timestamp="2024-03-01T06:30:00.1234567Z" Service="L_Data.ind" FrameFormat="CommonEmi"
    RawData="2900BCE0110A08010E03F1100000000003E94011881E6368" />
  <Telegram Timestamp="2024-03-01T23:10:05.5000000Z" Service="L_Data.ind" FrameFormat="CommonEmi"
    RawData="2900BCE0110A08010E03F1100000000003E94011881E6368" />
  <RecordStop Timestamp="2024-03-01T23:59:59.0000000Z" />
</CommunicationLog>
"#;

const HOUSE_LOG_REPORT: &str =
    r#"1 @1709274600123 1.1.10 > 1/0/1 accepted number 1001 GroupValue_Write 0081
2 @1709334605500 1.1.10 > 1/0/1 stale kept 1001 got 1001 !
total 2 accepted 1 sync 0 alarms 1
"#;

#[test]
fn lines_of_a_log_have_its_times(rt: HostRuntime) -> Result<(), Fail> {
    let (out, status) = audited(rt.alloc(), TABLES, LOG, 1_000_000)?;
    let report = b"1 @1709287200000 1.1.7 > 1/2/3 accepted number 5 GroupValue_Write 0081\n\
        2 @-1 1.1.7 > 1/2/3 stale kept 5 got 5 !\n\
        total 2 accepted 1 sync 0 alarms 1\n";
    assert_eq!(rt; out.bytes(), report.as_slice());
    assert_eq!(rt; status, Status::Alarm);
    Ok(())
}

#[test]
fn the_first_telegram_is_told_before_the_refusal_of_the_second(
    rt: HostRuntime,
) -> Result<(), Fail> {
    let digits = " RawData='2900bce011070a030e03f1100000000000050d5858028267'";
    let log = LOG.replace(rt.alloc(), digits, "")?;
    let (out, status) = audited(rt.alloc(), TABLES, &log, 1_000_000)?;
    let report = b"1 @1709287200000 1.1.7 > 1/2/3 accepted number 5 GroupValue_Write 0081\n\
        refused frames at 460 missing RawData\n";
    assert_eq!(rt; out.bytes(), report.as_slice());
    assert_eq!(rt; status, Status::Refused);
    Ok(())
}

#[test]
fn a_log_cut_after_its_first_telegram_is_bad_at_its_end(rt: HostRuntime) -> Result<(), Fail> {
    let front = LOG.get(..FIRST).ok_or("the front of the log")?;
    let (out, status) = audited(rt.alloc(), TABLES, front, 1_000_000)?;
    let report = b"1 @1709287200000 1.1.7 > 1/2/3 accepted number 5 GroupValue_Write 0081\n\
        refused frames at 339 bad\n";
    assert_eq!(rt; out.bytes(), report.as_slice());
    assert_eq!(rt; status, Status::Refused);
    Ok(())
}

#[test]
fn logs_of_no_form_are_refused(rt: HostRuntime) -> Result<(), Fail> {
    let alloc = rt.alloc();
    let rows = [
        (
            b"<Log><Telegram RawData='29'/></Log>".as_slice(),
            "refused frames at 5 missing Timestamp\n",
        ),
        (
            b"<Log><Telegram Timestamp='2024-03-01 10:00' RawData='29'/></Log>".as_slice(),
            "refused frames at 5 time\n",
        ),
        (
            b"<Log><Telegram Timestamp='2024-03-01T10:00:00Z' RawData='290'/></Log>".as_slice(),
            "refused frames at 5 digits\n",
        ),
        (b"<Log>\xff</Log>".as_slice(), "refused frames at 5 utf8\n"),
    ];
    for (log, report) in rows {
        let (out, status) = audited_octets(alloc, TABLES, log, 1_000_000)?;
        assert_eq!(rt; out.bytes(), report.as_bytes());
        assert_eq!(rt; status, Status::Refused);
    }
    let deep = "<a>".repeat(alloc, 33)?;
    let (out, _) = audited(alloc, TABLES, &deep, 1_000_000)?;
    assert_eq!(rt; out.bytes(), b"refused frames at 96 deep\n".as_slice());
    Ok(())
}

#[test]
fn a_log_past_its_limit_is_refused(rt: HostRuntime) -> Result<(), Fail> {
    let mut log = vec![in rt.alloc(); b' '; 16_777_217]?;
    log[0] = b'<';
    let (out, status) = audited_octets(rt.alloc(), TABLES, &log, 1_000_000)?;
    assert_eq!(rt; out.bytes(), b"refused frames long\n".as_slice());
    assert_eq!(rt; status, Status::Refused);
    Ok(())
}

#[test]
fn the_log_of_the_examples_has_its_report(rt: HostRuntime) -> Result<(), Fail> {
    let (out, status) = keyrings::audited(
        rt.alloc(),
        keyrings::HOUSE,
        "test-password",
        keyrings::HOUSE_TABLES,
        HOUSE_LOG,
        keyrings::NEVER,
    )?;
    assert_eq!(rt; out.bytes(), HOUSE_LOG_REPORT.as_bytes());
    assert_eq!(rt; status, Status::Alarm);
    Ok(())
}
