use crate::{Effect, Flags, ObjectRow, Objects, ObjectsFault, SendService, SetFault, Value};
use knx_base::GroupAddr;
use plain_apdu::BadObject;
use std::alloc::{AllocError, Global};
use std::test::Fail;

const ALL: Flags = Flags {
    reads: true,
    writes: true,
    updates: true,
    transmits: true,
};

const READ: [u8; 2] = [0x00, 0x00];

const WRITE_ON: [u8; 2] = [0x00, 0x81];

const RESPONSE_ON: [u8; 2] = [0x00, 0x41];

// The text `Rattle, proved` as 14 octets.
const TEXT: [u8; 14] = *b"Rattle, proved";

fn bits(value: u8) -> Result<Value, Fail> {
    Ok(Value::bits(value).ok_or("64 and above")?)
}

fn octets(octets: &[u8]) -> Result<Value, Fail> {
    Ok(Value::octets(octets).ok_or("none, or more than 14")?)
}

fn row(group: u16, value: Value) -> ObjectRow {
    ObjectRow {
        group: GroupAddr(group),
        flags: ALL,
        value,
    }
}

#[test]
fn each_service_needs_its_flag(rt: HostRuntime) -> Result<(), Fail> {
    let on = bits(1)?;
    for number in 0..16 {
        let flags = Flags {
            reads: number & 8 != 0,
            writes: number & 4 != 0,
            updates: number & 2 != 0,
            transmits: number & 1 != 0,
        };
        let lamp = ObjectRow {
            flags,
            ..row(1, on)
        };
        for (apdu, allowed, effect) in [
            (READ, flags.reads, Effect::Read),
            (WRITE_ON, flags.writes, Effect::Write(on)),
            (RESPONSE_ON, flags.updates, Effect::Response(on)),
        ] {
            let answer = if allowed {
                Ok(effect)
            } else {
                Err(BadObject::Flag)
            };
            assert_eq!(rt; lamp.accepts(&apdu), answer, "{number}");
        }
    }
    Ok(())
}

#[test]
fn values_are_sent_as_the_standard_spells_them(rt: HostRuntime) -> Result<(), Fail> {
    let rows: [(Value, &[u8], &[u8]); 4] = [
        (bits(0x25)?, &[0x00, 0xa5], &[0x00, 0x65]),
        (octets(&[0xff])?, &[0x00, 0x80, 0xff], &[0x00, 0x40, 0xff]),
        (
            octets(&[0x0c, 0x1a])?,
            &[0x00, 0x80, 0x0c, 0x1a],
            &[0x00, 0x40, 0x0c, 0x1a],
        ),
        (
            octets(&TEXT)?,
            b"\x00\x80Rattle, proved",
            b"\x00\x40Rattle, proved",
        ),
    ];
    for (value, written, answered) in rows {
        let object = row(1, value);
        let mut out = [0xaa; 16];
        let size = SendService::Write.write_apdu(&value, &mut out);
        assert_eq!(rt; &out[..size], written);
        assert_eq!(rt; object.accepts(&out[..size]), Ok(Effect::Write(value)));
        let size = SendService::Response.write_apdu(&value, &mut out);
        assert_eq!(rt; &out[..size], answered);
        assert_eq!(rt; object.accepts(&out[..size]), Ok(Effect::Response(value)));
        let size = SendService::Read.write_apdu(&value, &mut out);
        assert_eq!(rt; &out[..size], &READ[..]);
    }
    assert_eq!(rt; Value::bits(64), None);
    assert_eq!(rt; Value::octets(&[]), None);
    assert_eq!(rt; Value::octets(&[0; 15]), None);
    Ok(())
}

#[test]
fn another_size_is_refused_after_the_flag(rt: HostRuntime) -> Result<(), Fail> {
    let lamp = row(1, bits(0)?);
    let sensor = row(2, octets(&[0, 0])?);
    assert_eq!(rt;
        lamp.accepts(&[0x00, 0x80, 0x01]),
        Err(BadObject::Size(3, 2))
    );
    assert_eq!(rt; sensor.accepts(&WRITE_ON), Err(BadObject::Size(2, 4)));
    assert_eq!(rt;
        sensor.accepts(&[0x00, 0x40, 1, 2, 3]),
        Err(BadObject::Size(5, 4))
    );
    let deaf = ObjectRow {
        flags: Flags {
            writes: false,
            ..ALL
        },
        ..sensor
    };
    assert_eq!(rt; deaf.accepts(&WRITE_ON), Err(BadObject::Flag));
    // A restart is of no group.
    assert_eq!(rt; lamp.accepts(&[0x03, 0x80]), Err(BadObject::Flag));
    Ok(())
}

#[test]
fn objects_hold_values_of_their_form(rt: HostRuntime) -> Result<(), Fail> {
    let off = bits(0)?;
    let on = bits(1)?;
    let rows = [row(0x0a03, off), row(0x0a04, octets(&[20])?)];
    let mut objects = Objects::build(rt.alloc(), &rows)?;
    assert_eq!(rt; objects.find(GroupAddr(0x0a04)), Some(1));
    assert_eq!(rt; objects.find(GroupAddr(0x0a05)), None);
    assert_eq!(rt; objects.flags(1), Some(ALL));
    assert_eq!(rt; objects.flags(2), None);
    assert_eq!(rt; objects.row(0), Some(&rows[0]));
    assert_eq!(rt; objects.set(2, on), Err(SetFault::NoObject));
    assert_eq!(rt; objects.set(1, on), Err(SetFault::Size));
    assert_eq!(rt; objects.set(0, on), Ok(()));
    assert_eq!(rt; objects.value(0), Some(on));
    assert_eq!(rt; objects.value(1), Some(rows[1].value));
    objects.reset();
    assert_eq!(rt; objects.value(0), Some(off));
    assert_eq!(rt; objects.value(2), None);
    Ok(())
}

#[test]
fn a_device_has_64_objects_of_groups_of_their_own(rt: HostRuntime) -> Result<(), Fail> {
    let off = bits(0)?;
    let rows = [row(7, off); 65];
    let many = Objects::build(rt.alloc(), &rows).err();
    assert_eq!(rt; many, Some(ObjectsFault::TooMany));
    let twice = [row(1, off), row(2, off), row(1, off), row(2, off)];
    let fault = Objects::build(rt.alloc(), &twice).err();
    assert_eq!(rt; fault, Some(ObjectsFault::Twice(2)));
    let most = numbered(rt.alloc(), off)?;
    assert_eq!(rt; Objects::build(rt.alloc(), &most).err(), None);
    Ok(())
}

// 64 rows of as many groups.
fn numbered(alloc: Global, value: Value) -> Result<Vec<ObjectRow>, AllocError> {
    (1..=64).map(|group| row(group, value)).collect(alloc)
}
