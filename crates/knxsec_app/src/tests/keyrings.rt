ghost use Rattle.std.specs.Prelude.{◌≡◌, ◌≤◌, ◌∷◌, [], map, codes, IfOk};
ghost use Rattle.std.specs.String.{string_bytes};

use crate::{Status, run};
use knx_base::{MemFiles, MemSink, NoMemory};
use std::alloc::Global;
use std::test::Fail;

// Signed, and its keys wrapped, by another program, under the password `test-password`.
pub(super) const HOUSE: &str = r#"<?xml version="1.0" encoding="utf-8"?>
<Keyring Project="House" CreatedBy="ETS" Created="2024-03-01T10:00:00" Signature="bc3iyTunJTlYq6ukzr+EyA==" xmlns="http://knx.org/xml/keyring/1">
  <Interface Type="USB" IndividualAddress="1.1.1">
    <Group Address="1/0/1" Senders="1.1.10 1.1.11" />
    <Group Address="1/0/2" Senders="1.1.10" />
  </Interface>
  <Interface Type="Tunneling" Host="1.1.2" IndividualAddress="1.1.3">
    <Group Address="1/0/3" Senders="1.1.12" />
  </Interface>
  <GroupAddresses>
    <Group Address="1/0/1" Key="OVTJH6p8l1YNy+TWj5rt1A==" />
    <Group Address="1/0/2" Key="0MCjwH6uKOJVjXx4HYHP1Q==" />
    <Group Address="1/0/3" Key="6mkhcwURMYAci34HWCcj/w==" />
    <Group Address="1/0/4" Key="Ge6DpjVywl5yellg22vriQ==" />
    <Group Address="1/0/5" Key="lNArBTZAoVIOIXuGh9fNQg==" />
    <Group Address="1/0/6" Key="i/eckhW6z6lPR1PJ4HPMgg==" />
  </GroupAddresses>
  <Devices>
    <Device IndividualAddress="1.1.10" ToolKey="paqGwK2BRZxBY76Sj/WHcw==" SequenceNumber="1000" />
    <Device IndividualAddress="1.1.11" ToolKey="SDCxUkSAJDtwe8DuvJ5lbQ==" SequenceNumber="1000" />
    <Device IndividualAddress="1.1.12" ToolKey="kRNj65Kl8N/7HdUvl6ZwHg==" SequenceNumber="1000" />
  </Devices>
</Keyring>
"#;

/// Two telegrams to each of the six groups of the keyring, each a GroupValue_Write of 1 that another program has sealed
/// under the key of its group.
pub(super) const FRAMES: &str = "2900bce0110a08010e03f110000000000001362b1d3d40f2\n\
     2900bce0110b08010e03f11000000000000298501029015f\n\
     2900bce0110a08020e03f11000000000000341f38d59e3ca\n\
     2900bce0110108020e03f110000000000004203d84567f25\n\
     2900bce0110c08030e03f1100000000000051932959dee24\n\
     2900bce0110308030e03f110000000000006ae883063855e\n\
     2900bce0111408040e03f1100000000000076a3faef7a5d6\n\
     2900bce0111408040e03f110000000000008d2b3ce3b021d\n\
     2900bce0111408050e03f1100000000000098beaf4393316\n\
     2900bce0111408050e03f11000000000000a8912efbf44c9\n\
     2900bce0111408060e03f11000000000000b0b174ddaf569\n\
     2900bce0111408060e03f11000000000000c8ce297509ace\n";

pub(super) const REPORT: &str = "1 1.1.10 > 1/0/1 accepted number 1 GroupValue_Write 0081\n\
     2 1.1.11 > 1/0/1 accepted number 2 GroupValue_Write 0081\n\
     3 1.1.10 > 1/0/2 accepted number 3 GroupValue_Write 0081\n\
     4 1.1.1 > 1/0/2 accepted number 4 GroupValue_Write 0081\n\
     5 1.1.12 > 1/0/3 accepted number 5 GroupValue_Write 0081\n\
     6 1.1.3 > 1/0/3 accepted number 6 GroupValue_Write 0081\n\
     7 1.1.20 > 1/0/4 accepted number 7 GroupValue_Write 0081\n\
     8 1.1.20 > 1/0/4 accepted number 8 GroupValue_Write 0081\n\
     9 1.1.20 > 1/0/5 accepted number 9 GroupValue_Write 0081\n\
     10 1.1.20 > 1/0/5 accepted number 10 GroupValue_Write 0081\n\
     11 1.1.20 > 1/0/6 accepted number 11 GroupValue_Write 0081\n\
     12 1.1.20 > 1/0/6 accepted number 12 GroupValue_Write 0081\n\
     total 12 accepted 12 sync 0 alarms 0\n";

/// The tables, the recording and the report of the folder `examples`: its telegrams were sealed by another program, and
/// its report was written by the rules.
pub(super) const HOUSE_TABLES: &str = r#"# What the keyring does not say, or says too widely.
# 1/0/1 switches lamps: its telegrams have to be encrypted.
group 1/0/1 01010101010101010101010101010101 conf
# 1/0/4 is written by the gateway 1.1.20 alone; the sensor 1.1.30 may read it.
role 1/0/4 1.1.20 command
role 1/0/4 1.1.30 observe
"#;

const HOUSE_FRAMES: &str = r#"# A morning at the house, one telegram a line.
# the push button 1.1.10 switches the lamp on
2900bce0110a08010e03f1100000000003e94011881e6368
# the link layer repeats it, since nobody acknowledged
29009ce0110a08010e03f1100000000003e94011881e6368
# the thermostat 1.1.12 sends 21.00 degrees
29003ce0110c08031003f1100000000003e9917cbbddf7fd35e8
# somebody sends the recorded telegram of line 1 once more
2900bce0110a08010e03f1100000000003e94011881e6368
# a telegram with one octet changed
2900bce0110a08010e03f1100000000003eaa9b1a41365b7
# a telegram that is not secure, to the secured group
2900bce011090801010081
# an authentic telegram that anybody can read, where the tables ask for encryption
2900bce0110b08010e03f1000000000003e900816b9cf7ef
# the sensor 1.1.30 writes, and may only read; then it reads
2900bce0111e08040e03f11000000000004ddcd26e85f44d
2900bce0111e08040e03f11000000000004e987cd3eac4b1
# 1.1.5 has the key, and no interface lists it as a sender
2900bce0110508010e03f110000000000003082964b5118a
# the tool 1.1.1 asks the push button what device it is
2900bc601101110a0e03f190000000000007b71149efb098
# a group of which we have no key, and one that is not secured
2900bce0110a08090e03f1100000000003eb2ab1af12c531
2900bce011090d01010081
"#;

const HOUSE_REPORT: &str = r#"1 1.1.10 > 1/0/1 accepted number 1001 GroupValue_Write 0081
2 1.1.10 > 1/0/1 repeat stale kept 1001 got 1001
3 1.1.12 > 1/0/3 accepted number 1001 GroupValue_Write 00800c1a
4 1.1.10 > 1/0/1 stale kept 1001 got 1001 !
5 1.1.10 > 1/0/1 bad-code said 0350dbfa computed 0350dbfb !
6 1.1.9 > 1/0/1 plain GroupValue_Write !
7 1.1.11 > 1/0/1 level !
8 1.1.30 > 1/0/4 role needs command has observe !
9 1.1.30 > 1/0/4 accepted number 78 GroupValue_Read 0000
10 1.1.5 > 1/0/1 sender !
11 1.1.1 > 1.1.10 accepted number 7 DeviceDescriptor_Read 0300
12 1.1.10 > 1/0/9 no-key
13 1.1.9 > 1/5/1 plain GroupValue_Write
total 13 accepted 4 sync 0 alarms 6
"#;

/// The number of a call that is never made.
pub(super) const NEVER: u64 = 1_000_000;

pub(super) fn audit_words(alloc: Global) -> Result<Vec<String>, NoMemory>
    ensures { IfOk result (λ words. map string_bytes words.items ≡ codes "audit-keyring" ∷ codes "keyring"
        ∷ codes "password" ∷ codes "tables" ∷ codes "frames" ∷ []) }
{
    let mut words = Vec::new(alloc);
    words.push(String::from_str(alloc, "audit-keyring")?)?;
    words.push(String::from_str(alloc, "keyring")?)?;
    words.push(String::from_str(alloc, "password")?)?;
    words.push(String::from_str(alloc, "tables")?)?;
    words.push(String::from_str(alloc, "frames")?)?;
    Ok(words)
}

// What an audit by a keyring prints, where the call on the files with this number fails, and its status.
pub(super) fn audited(
    alloc: Global,
    keyring: &str,
    password: &str,
    tables: &str,
    frames: &str,
    failing: u64,
) -> Result<(MemSink, Status), Fail>
    requires numbered { (1 ≤ failing) × (failing ≤ 1000000) }
{
    if keyring.len() > 5000 || password.len() > 5000 || tables.len() > 1000 || frames.len() > 5000 {
        return Err(Fail::from("a short text"));
    }
    let words = audit_words(alloc)?;
    let mut files = MemFiles::new(alloc);
    files.add("keyring", keyring.as_bytes())?;
    files.add("password", password.as_bytes())?;
    files.add("tables", tables.as_bytes())?;
    files.add("frames", frames.as_bytes())?;
    files.fail_at(failing)?;
    let mut out = MemSink::new(alloc, 1000)?;
    let status = run(alloc, &words, &mut files, &mut out, &mut None);
    Ok((out, status))
}

#[test]
fn a_keyring_opens_its_telegrams(rt: HostRuntime) -> Result<(), Fail> {
    for password in [
        "test-password",
        "test-password\n",
        "test-password\r\nmore\n",
    ] {
        let (out, status) = audited(rt.alloc(), HOUSE, password, "", FRAMES, NEVER)?;
        assert_eq!(rt; out.bytes(), REPORT.as_bytes());
        assert_eq!(rt; status, Status::Done);
    }
    Ok(())
}

#[test]
fn the_house_of_the_examples_has_its_report(rt: HostRuntime) -> Result<(), Fail> {
    let (out, status) = audited(
        rt.alloc(),
        HOUSE,
        "test-password",
        HOUSE_TABLES,
        HOUSE_FRAMES,
        NEVER,
    )?;
    assert_eq!(rt; out.bytes(), HOUSE_REPORT.as_bytes());
    assert_eq!(rt; status, Status::Alarm);
    Ok(())
}

#[test]
fn refused_files_end_the_report(rt: HostRuntime) -> Result<(), Fail> {
    let alloc = rt.alloc();
    let long = "0".repeat(alloc, 4097)?;
    let rows = [
        ("<Keys/>", long.as_str(), "", "refused password long\n"),
        ("<Keys/>", "", "group", "refused keyring root\n"),
        ("<Keyring>", "", "", "refused keyring at 9 bad\n"),
        (
            "<Keyring/>",
            "",
            "",
            "refused keyring at 0 missing Created\n",
        ),
        (
            HOUSE,
            "test-password",
            "group",
            "refused tables line 1 words\n",
        ),
    ];
    for (keyring, password, tables, report) in rows {
        let (out, status) = audited(alloc, keyring, password, tables, FRAMES, NEVER)?;
        assert_eq!(rt; out.bytes(), report.as_bytes());
        assert_eq!(rt; status, Status::Refused);
    }
    Ok(())
}

#[test]
fn another_document_has_another_signature(rt: HostRuntime) -> Result<(), Fail> {
    let changed = HOUSE.replace(rt.alloc(), "House", "Hause")?;
    let (out, status) = audited(rt.alloc(), &changed, "test-password", "", FRAMES, NEVER)?;
    assert!(rt; out.bytes().starts_with(b"refused keyring signature "));
    assert_eq!(rt; status, Status::Refused);
    Ok(())
}

#[test]
fn a_text_that_is_too_long_to_be_signed_is_refused(rt: HostRuntime) -> Result<(), Fail> {
    let alloc = rt.alloc();
    let longest = HOUSE.replace(alloc, "House", &"H".repeat(alloc, 255)?)?;
    let (out, _) = audited(alloc, &longest, "test-password", "", FRAMES, NEVER)?;
    assert!(rt; out.bytes().starts_with(b"refused keyring signature "));
    let longer = HOUSE.replace(alloc, "House", &"H".repeat(alloc, 256)?)?;
    let (out, status) = audited(alloc, &longer, "test-password", "", FRAMES, NEVER)?;
    assert_eq!(rt;
        out.bytes(),
        b"refused keyring at 39 long-text\n".as_slice()
    );
    assert_eq!(rt; status, Status::Refused);
    Ok(())
}

#[test]
fn a_fault_of_reading_before_the_first_line_leaves_nothing_written(
    rt: HostRuntime,
) -> Result<(), Fail> {
    for call in [1, 2, 3, 4, 5, 6, 7, 8, 9] {
        let (out, status) = audited(rt.alloc(), HOUSE, "test-password", "", FRAMES, call)?;
        assert_eq!(rt; out.bytes(), b"".as_slice());
        assert_eq!(rt; status, Status::ReadFault);
    }
    Ok(())
}
