use crate::{BadService, Judgement, Verdict, is_alarm, judge, lane_of, write_verdict};
use aes_modes::Key128;
use cemi_frames::{NotFrame, read_frame};
use key_tables::{Lane, Role, Tables, read_tables};
use knx_base::{IndAddr, MemSink, Number48};
use knx_ccm::CodeDiffers;
use plain_apdu::{BadObject, Service};
use secure_apdu::{ApduBuf, BadSecure, FrameBuf, SendHead, seal_frame};
use std::alloc::Global;
use std::test::Fail;

const KEY: [u8; 16] = [0, 1, 2, 3, 4, 5, 6, 7, 8, 9, 10, 11, 12, 13, 14, 15];

const ROWS: &[u8] = b"group 1/2/3 000102030405060708090a0b0c0d0e0f conf
role 1/2/3 1.1.7 manage
tool 1.1.9 000102030405060708090a0b0c0d0e0f
role tool:1.1.9 1.1.7 observe";

/// From 1.1.7 to the group 1/2/3 under number 5, a GroupValue_Write of 1; and the same as a repetition.
const TELEGRAM: &str = "2900bce011070a030e03f1100000000000050d5858028267";

const REPETITION: &str = "29009ce011070a030e03f1100000000000050d5858028267";

/// The same under number 6, readable.
const READABLE: &str = "2900bce011070a030e03f1000000000000060081615ae14f";

fn tables(alloc: Global, text: &[u8]) -> Result<Tables, Fail> {
    let rows = read_tables(alloc, text)?;
    Ok(Tables::build(alloc, rows.as_slice())?)
}

fn number(value: u64) -> Result<Number48, Fail> {
    Ok(Number48::new(value).ok_or("a number of 48 bits")?)
}

// The judgement on a frame, its text with ` !` after an alarm's, and whether the frame has a lane.
fn judged(
    alloc: Global,
    tables: &Tables,
    kept: u64,
    asked: Option<[u8; 6]>,
    octets: &[u8],
) -> Result<(Judgement, MemSink, bool), Fail> {
    let Ok(frame) = read_frame(octets) else {
        return Err(Fail::from("a frame"));
    };
    let mut apdu = ApduBuf::new();
    let judgement = judge(tables, number(kept)?, asked, &frame, &mut apdu);
    let mut out = MemSink::new(alloc, 200)?;
    write_verdict(&judgement.verdict, apdu.bytes(), &mut out)?;
    if is_alarm(tables, &frame, &judgement.verdict) {
        knx_base::print_text(b" !", &mut out)?;
    }
    Ok((judgement, out, lane_of(tables, &frame).is_some()))
}

#[test]
fn each_check_gives_its_verdict(rt: HostRuntime) -> Result<(), Fail> {
    let alloc = rt.alloc();
    let rows: [(&[u8], u64, &str, &str); 20] = [
        (ROWS, 0, TELEGRAM, "accepted number 5 GroupValue_Write 0081"),
        (ROWS, 5, TELEGRAM, "stale kept 5 got 5 !"),
        (ROWS, 5, REPETITION, "stale kept 5 got 5"),
        (ROWS, 6, REPETITION, "stale kept 6 got 5 !"),
        (ROWS, 0, READABLE, "level !"),
        (
            b"group 1/2/3 000102030405060708090a0b0c0d0e0f auth\nrole 1/2/3 1.1.7 command",
            0,
            READABLE,
            "accepted number 6 GroupValue_Write 0081",
        ),
        (
            b"group 1/2/3 000102030405060708090a0b0c0d0e0f conf\nrole 1/2/3 1.1.7 observe",
            0,
            TELEGRAM,
            "role needs command has observe !",
        ),
        (b"role 1/2/3 any command", 0, TELEGRAM, "no-key"),
        (
            b"group 1/2/3 000102030405060708090a0b0c0d0e0f conf",
            0,
            TELEGRAM,
            "sender !",
        ),
        (
            ROWS,
            0,
            "2900bce011070a030e03f110000000000001545671c75ca6",
            "service upper 04",
        ),
        (
            ROWS,
            0,
            "2900bce011070a030e03f11000000000000248269ee3d947",
            "service 3d5",
        ),
        (
            ROWS,
            0,
            "2900bc60110711090e03f190000000000005c17766c14251",
            "accepted number 5 Memory_Response 0240",
        ),
        (
            ROWS,
            0,
            "2900bc60110711090e03f19000000000000632339d7f1218",
            "role needs manage has observe !",
        ),
        (
            ROWS,
            0,
            "2900bc60110711090e03f18000000000000803d6437af0f7",
            "level !",
        ),
        (
            ROWS,
            0,
            "2900bc60110711090e03f19000000000000916286eebd8b8",
            "service 040",
        ),
        (
            ROWS,
            0,
            "2900bce011070a040e03f11000000000000a41dc89a9c64c",
            "no-key",
        ),
        (ROWS, 0, "2900bce011070a030003", "plain Short !"),
        (
            ROWS,
            0,
            "2900bce011070a03010081",
            "plain GroupValue_Write !",
        ),
        (
            ROWS,
            0,
            "2900bce011070a030d03f110000000000005aabbccddee",
            "bad-secure short 12 !",
        ),
        (ROWS, 0, "2900bce011070a030083", "control 83"),
    ];
    for (text, kept, frame, told) in rows {
        let octets = hex::decode(alloc, frame.as_bytes())?;
        let tables = tables(alloc, text)?;
        let (_, out, _) = judged(alloc, &tables, kept, None, octets.as_slice())?;
        assert_eq!(rt; out.bytes(), told.as_bytes());
    }
    Ok(())
}

// A frame that asks for a synchronisation or answers one, from one device to another.
fn sync_frame(
    source: u16,
    destination: u16,
    numbers: (u64, u64),
    field: u8,
    payload: &[u8],
) -> Result<FrameBuf, Fail> {
    if payload.len() < 2 || payload.len() > 242 || field >> 4 & 0x07 > 1 {
        return Err(Fail::from("not a payload and a control field"));
    }
    let head = SendHead {
        source: IndAddr(source),
        destination,
        group: false,
        number: number(numbers.0)?,
        shown: number(numbers.1)?,
        field,
    };
    let mut frame = FrameBuf::new();
    seal_frame(&Key128::new(KEY), &head, payload, &mut frame);
    Ok(frame)
}

#[test]
fn a_synchronisation_is_asked_for_and_answered(rt: HostRuntime) -> Result<(), Fail> {
    let alloc = rt.alloc();
    let tables = tables(alloc, ROWS)?;
    let challenge = [1, 2, 3, 4, 5, 6];
    let ask = sync_frame(0x1107, 0x1109, (2, 2), 0x92, &challenge)?;
    let shown = 0x0102_0304_0507;
    let values = [0, 0, 0, 0, 0, 1, 0, 0, 0, 0, 1, 0xf4];
    let answer = sync_frame(0x1109, 0x1107, (1, shown), 0x93, &values)?;
    let others = [0, 0, 0, 0, 0, 9, 0, 0, 0, 0, 1, 0xf4];
    let wrong = sync_frame(0x1109, 0x1107, (1, shown), 0x93, &others)?;
    let none: Option<[u8; 6]> = None;
    for (frame, asked, told) in [
        (
            ask.bytes(),
            none,
            "sync-ask number 2 challenge 010203040506",
        ),
        (
            answer.bytes(),
            Some(challenge),
            "sync-answer number 1 kept 500",
        ),
        (answer.bytes(), none, "no-pending"),
        (
            wrong.bytes(),
            Some(challenge),
            "bad-payload said 9 number 1 !",
        ),
    ] {
        let (_, out, _) = judged(alloc, &tables, 0, asked, frame)?;
        assert_eq!(rt; out.bytes(), told.as_bytes());
    }
    Ok(())
}

#[test]
fn a_number_is_kept_on_its_lane(rt: HostRuntime) -> Result<(), Fail> {
    let alloc = rt.alloc();
    let tables = tables(alloc, ROWS)?;
    let run = Lane::Run(IndAddr(0x1107));
    let tool = Lane::Tool(IndAddr(0x1109), IndAddr(0x1107));
    for (frame, kept, keeps, has_lane) in [
        (TELEGRAM, 4, Some((run, 5)), true),
        (TELEGRAM, 5, None, true),
        // The level fails, and the number is kept.
        (READABLE, 5, Some((run, 6)), true),
        (
            "2900bc60110711090e03f190000000000005c17766c14251",
            0,
            Some((tool, 5)),
            true,
        ),
        (
            "2900bce011070a030e03f1100000000000050d5858028268",
            0,
            None,
            true,
        ),
        (
            "2900bce011070a040e03f11000000000000a41dc89a9c64c",
            0,
            None,
            false,
        ),
    ] {
        let octets = hex::decode(alloc, frame.as_bytes())?;
        let (judgement, _, lane) = judged(alloc, &tables, kept, None, octets.as_slice())?;
        let kept = match judgement.keeps {
            Some((lane, number)) => Some((lane, number.get())),
            None => None,
        };
        assert_eq!(rt; kept, keeps);
        assert_eq!(rt; lane, has_lane);
    }
    Ok(())
}

#[test]
fn each_other_verdict_has_its_text(rt: HostRuntime) -> Result<(), Fail> {
    let codes = CodeDiffers {
        said: [0x0d, 0x58, 0x58, 0x02],
        computed: [0, 1, 2, 0xff],
    };
    for (verdict, told) in [
        (Verdict::NotFrame(NotFrame::Short(1)), "not-frame short 1"),
        (Verdict::NotFrame(NotFrame::Code(0)), "not-frame code 00"),
        (Verdict::NotFrame(NotFrame::Info(3)), "not-frame info 3"),
        (
            Verdict::NotFrame(NotFrame::Format(0xff)),
            "not-frame format ff",
        ),
        (Verdict::NotFrame(NotFrame::Escape), "not-frame escape"),
        (
            Verdict::NotFrame(NotFrame::Length(2, 1)),
            "not-frame length 2 1",
        ),
        (
            Verdict::NotFrame(NotFrame::Check(0x3d, 0x3c)),
            "not-frame check 3d 3c",
        ),
        (
            Verdict::NotFrame(NotFrame::Acknowledge(0xcc)),
            "not-frame acknowledge cc",
        ),
        (
            Verdict::BadSecure(BadSecure::Algorithm(7)),
            "bad-secure algorithm 7",
        ),
        (
            Verdict::BadSecure(BadSecure::Broadcast),
            "bad-secure broadcast",
        ),
        (
            Verdict::BadSecure(BadSecure::Service(1)),
            "bad-secure service 1",
        ),
        (
            Verdict::BadSecure(BadSecure::Sync(0x92, 7)),
            "bad-secure sync 92 7",
        ),
        (
            Verdict::BadCode(codes),
            "bad-code said 0d585802 computed 000102ff",
        ),
        (Verdict::Plain(Some(Service::Secure)), "plain Secure"),
        (
            Verdict::Role {
                needs: Role::Manage,
                has: Role::Command,
            },
            "role needs manage has command",
        ),
        (Verdict::Service(BadService::Code(0x01)), "service 001"),
        (Verdict::Object(BadObject::Flag), "object flag"),
        (Verdict::Object(BadObject::Size(1, 14)), "object size 1 14"),
    ] {
        let mut out = MemSink::new(rt.alloc(), 100)?;
        write_verdict(&verdict, &[], &mut out)?;
        assert_eq!(rt; out.bytes(), told.as_bytes());
    }

    // An APDU of any length is shown whole.
    let accepted = Verdict::Accepted {
        number: number(5)?,
        service: Service::MemoryWrite,
    };
    let mut out = MemSink::new(rt.alloc(), 2000)?;
    write_verdict(&accepted, &[0xa7; 600], &mut out)?;
    let front = b"accepted number 5 Memory_Write ";
    assert_eq!(rt; out.bytes().len(), front.len() + 1200);
    assert!(rt; out.bytes().starts_with(front));
    assert!(rt; out.bytes().ends_with(b"a7a7"));
    Ok(())
}
