ghost use Rattle.std.specs.Prelude.{◌≤◌, ◌^◌, length};

use crate::{Field, Record, RecordFault, Records};
use knx_base::{Cause, Files, MemFiles};
use std::alloc::Global;
use std::test::Fail;
use tag_text::TagFault;

#[test]
fn records_are_numbered_past_skipped_lines(rt: HostRuntime) -> Result<(), Fail> {
    let mut files = MemFiles::new(rt.alloc());
    files.add("frames", b"# a comment\r\n2900bC\r\n\n\t0F")?;
    files.open("frames").ok().ok_or("not opened")?;
    let mut records = Records::new(rt.alloc())?;
    let first = Record {
        number: 1,
        time: None,
        octets: &[0x29, 0, 0xbc],
    };
    let second = Record {
        number: 2,
        time: None,
        octets: &[0x0f],
    };
    assert_eq!(rt; records.next(&mut files), Ok(Some(first)));
    assert_eq!(rt; records.next(&mut files), Ok(Some(second)));
    assert_eq!(rt; records.next(&mut files), Ok(None));
    Ok(())
}

#[test]
fn lines_of_other_forms_are_refused(rt: HostRuntime) -> Result<(), Fail> {
    let long = [b'0'; 1025];
    assert_eq!(rt; fault_in(rt.alloc(), b"")?, None);
    assert_eq!(rt; fault_in(rt.alloc(), b"# nothing")?, None);
    assert_eq!(rt;
        fault_in(rt.alloc(), b"00 00")?,
        Some(RecordFault::Line(1, Cause::Words))
    );
    assert_eq!(rt;
        fault_in(rt.alloc(), b"\n\xef\xbb\xbf00")?,
        Some(RecordFault::Line(2, Cause::Words))
    );
    assert_eq!(rt;
        fault_in(rt.alloc(), b"000")?,
        Some(RecordFault::Line(1, Cause::Digits))
    );
    assert_eq!(rt;
        fault_in(rt.alloc(), b"0g")?,
        Some(RecordFault::Line(1, Cause::Digits))
    );
    assert_eq!(rt;
        fault_in(rt.alloc(), &long)?,
        Some(RecordFault::LongLine(1))
    );
    assert_eq!(rt; fault_in(rt.alloc(), &long[1..])?, None);
    Ok(())
}

#[test]
fn a_fault_is_answered_again(rt: HostRuntime) -> Result<(), Fail> {
    let mut files = MemFiles::new(rt.alloc());
    files.add("frames", b"00\n")?;
    files.fail_at(2)?;
    files.open("frames").ok().ok_or("not opened")?;
    let mut records = Records::new(rt.alloc())?;
    assert_eq!(rt;
        records.next(&mut files).err(),
        Some(RecordFault::ReadFault)
    );
    assert_eq!(rt;
        records.next(&mut files).err(),
        Some(RecordFault::ReadFault)
    );
    Ok(())
}

// The times are those of the two instants, in milliseconds, rounded down.
#[test]
fn a_log_gives_its_telegrams(rt: HostRuntime) -> Result<(), Fail> {
    let mut files = MemFiles::new(rt.alloc());
    files.add(
        "log",
        b"\xef\xbb\xbf\r\n <?xml version='1.0'?><Log><Note><Telegram RawData='2900bC' Timestamp='2024-03-01T10:00:00Z'>\
        <Other/><Telegram Timestamp=\"1969-12-31T23:59:59.9995Z\" RawData=\"0F\"/></Telegram></Note></Log>\n",
    )?;
    files.open("log").ok().ok_or("not opened")?;
    let mut records = Records::new(rt.alloc())?;
    let first = Record {
        number: 1,
        time: Some(1_709_287_200_000),
        octets: &[0x29, 0, 0xbc],
    };
    let second = Record {
        number: 2,
        time: Some(-1),
        octets: &[0x0f],
    };
    assert_eq!(rt; records.next(&mut files), Ok(Some(first)));
    assert_eq!(rt; records.next(&mut files), Ok(Some(second)));
    assert_eq!(rt; records.next(&mut files), Ok(None));
    assert_eq!(rt; records.next(&mut files), Ok(None));
    Ok(())
}

#[test]
fn a_log_is_refused_after_the_records_before(rt: HostRuntime) -> Result<(), Fail> {
    let mut files = MemFiles::new(rt.alloc());
    files.add(
        "log",
        b"<Log><Telegram Timestamp='2024-03-01T10:00:00Z' RawData='00'/>",
    )?;
    files.open("log").ok().ok_or("not opened")?;
    let mut records = Records::new(rt.alloc())?;
    let only = Record {
        number: 1,
        time: Some(1_709_287_200_000),
        octets: &[0],
    };
    let fault = RecordFault::Tag(TagFault::Bad(62));
    assert_eq!(rt; records.next(&mut files), Ok(Some(only)));
    assert_eq!(rt; records.next(&mut files), Err(fault));
    assert_eq!(rt; records.next(&mut files), Err(fault));
    Ok(())
}

#[test]
fn elements_of_other_forms_are_refused(rt: HostRuntime) -> Result<(), Fail> {
    assert_eq!(rt;
        fault_in(rt.alloc(), b"<Log><Telegram/></Log>")?,
        Some(RecordFault::Missing(Field::Timestamp, 5))
    );
    assert_eq!(rt;
        fault_in(rt.alloc(), b"<Telegram Timestamp=''/>")?,
        Some(RecordFault::Missing(Field::RawData, 0))
    );
    assert_eq!(rt;
        fault_in(
            rt.alloc(),
            b"<Telegram Timestamp='2024-03-01' RawData='0'/>"
        )?,
        Some(RecordFault::Time(0))
    );
    assert_eq!(rt;
        fault_in(
            rt.alloc(),
            b"<Telegram Timestamp='2024-03-01T10:00:00Z' RawData='0'/>"
        )?,
        Some(RecordFault::Digits(0))
    );
    assert_eq!(rt;
        fault_in(
            rt.alloc(),
            b"<Telegram Timestamp='2024-03-01T10:00:00Z' RawData=''/>"
        )?,
        Some(RecordFault::Digits(0))
    );
    assert_eq!(rt;
        fault_in(rt.alloc(), b"<Log>\xff</Log>")?,
        Some(RecordFault::Tag(TagFault::Utf8(5)))
    );
    Ok(())
}

// More than one piece is read of each.
#[test]
fn both_kinds_are_read_in_pieces(rt: HostRuntime) -> Result<(), Fail> {
    let mut list = Vec::new(rt.alloc());
    list.resize(1000, b'\n')?;
    list.extend_from_slice(b"00")?;
    let listed = Record {
        number: 1,
        time: None,
        octets: &[0],
    };
    assert!(rt; is_all_of(rt.alloc(), &list, listed)?);
    let mut log = Vec::new(rt.alloc());
    log.resize(1000, b' ')?;
    log.extend_from_slice(b"<Log>")?;
    log.resize(2000, b'x')?;
    log.extend_from_slice(b"<Telegram Timestamp='1970-01-01T00:00:00Z' RawData='ff'/></Log>")?;
    let logged = Record {
        number: 1,
        time: Some(0),
        octets: &[0xff],
    };
    assert!(rt; is_all_of(rt.alloc(), &log, logged)?);
    Ok(())
}

// Whether this is the only record of a file.
fn is_all_of(alloc: Global, text: &[u8], record: Record<'_>) -> Result<bool, Fail>
    requires { length text.now ≤ 2 ^ 40 }
{
    let mut files = MemFiles::new(alloc);
    files.add("frames", text)?;
    files.open("frames").ok().ok_or("not opened")?;
    let mut records = Records::new(alloc)?;
    let given = records.next(&mut files) == Ok(Some(record));
    Ok(records.next(&mut files) == Ok(None) && given)
}

// The fault of the first call.
fn fault_in(alloc: Global, text: &[u8]) -> Result<Option<RecordFault>, Fail>
    requires { length text.now ≤ 2 ^ 40 }
{
    let mut files = MemFiles::new(alloc);
    files.add("frames", text)?;
    files.open("frames").ok().ok_or("not opened")?;
    let mut records = Records::new(alloc)?;
    match records.next(&mut files) {
        Ok(_) => Ok(None),
        Err(fault) => Ok(Some(fault)),
    }
}
