use crate::{BadValue, Dpt, ShownValue, TypesFault, ValueText, decode, encode, read_types};
use knx_base::{Cause, GroupAddr};
use std::process::Abort;
use std::test::Fail;

const WRITE: u16 = 0x080;

#[test]
fn texts_are_encoded_as_the_table_says(rt: HostRuntime) -> Result<(), Fail> {
    for (dpt, text, apdu) in [
        (Dpt::Switch, "on", b"\x00\x81".as_slice()),
        (Dpt::Scaling, "50.19", b"\x00\x80\x80".as_slice()),
        (Dpt::I8, "-128", b"\x00\x80\x80".as_slice()),
        (
            Dpt::U32,
            "4294967295",
            b"\x00\x80\xff\xff\xff\xff".as_slice(),
        ),
        (
            Dpt::I32,
            "-2147483648",
            b"\x00\x80\x80\x00\x00\x00".as_slice(),
        ),
        (Dpt::Hundredths, "21.00", b"\x00\x80\x0c\x1a".as_slice()),
        (Dpt::Hundredths, "-1.00", b"\x00\x80\x87\x9c".as_slice()),
        (
            Dpt::Hundredths,
            "-671088.64",
            b"\x00\x80\xf8\x00".as_slice(),
        ),
        (Dpt::Time, "7 23:59:59", b"\x00\x80\xf7\x3b\x3b".as_slice()),
        (Dpt::Date, "2024-02-29", b"\x00\x80\x1d\x02\x18".as_slice()),
        (
            Dpt::Text14,
            "\"fourteen chars\"",
            b"\x00\x80fourteen chars".as_slice(),
        ),
    ] {
        let mut out = [0xee; 16];
        let count = encode(dpt, text, WRITE, &mut out).ok_or("no value")?;
        assert_eq!(rt; &out[..count], apdu);
    }
    Ok(())
}

#[test]
fn texts_of_no_value_are_refused(rt: HostRuntime) {
    for (dpt, text) in [
        (Dpt::Scaling, "50.20"),
        (Dpt::U8, "01"),
        (Dpt::I16, "-0"),
        (Dpt::Hundredths, "670760.96"),
        (Dpt::Hundredths, "-0.00"),
        (Dpt::Time, "1 24:00:00"),
        (Dpt::Date, "2024-02-30"),
        (Dpt::Date, "1989-12-31"),
        (Dpt::Text14, "\"fifteen chars!!\""),
    ] {
        let mut out = [0xee; 16];
        assert_eq!(rt; encode(dpt, text, WRITE, &mut out), None);
        assert_eq!(rt; out, [0xee; 16]);
    }
}

#[test]
fn octets_of_no_value_are_refused(rt: HostRuntime) {
    for (dpt, apdu, fault) in [
        (Dpt::U8, b"\x00\x81".as_slice(), BadValue::Size(2, 3)),
        (Dpt::Switch, b"\x00\x82".as_slice(), BadValue::Range),
        (
            Dpt::Time,
            b"\x00\x80\x18\x00\x00".as_slice(),
            BadValue::Range,
        ),
        (
            Dpt::Date,
            b"\x00\x80\x1d\x02\x5a".as_slice(),
            BadValue::Range,
        ),
        (
            Dpt::Text14,
            b"\x00\x80a\x00a\x00\x00\x00\x00\x00\x00\x00\x00\x00\x00\x00".as_slice(),
            BadValue::Range,
        ),
    ] {
        let mut text = ValueText::new();
        if apdu.len() >= 2 && apdu.len() <= 242 {
            assert_eq!(rt; decode(dpt, apdu, &mut text), Err(fault));
            assert_eq!(rt; text.bytes(), b"".as_slice());
        }
    }
}

#[test]
fn a_line_shows_the_value_or_that_there_is_none(rt: HostRuntime) {
    for (dpt, shown) in [
        (Dpt::Switch, b" = on".as_slice()),
        (Dpt::U8, b" = bad-value".as_slice()),
    ] {
        assert_eq!(rt; ShownValue::of(dpt, b"\x00\x81").bytes(), shown);
    }
    let longest = ShownValue::of(Dpt::Text14, b"\x00\x80fourteen chars");
    assert_eq!(rt; longest.bytes(), b" = \"fourteen chars\"".as_slice());
    assert_eq!(rt; ShownValue::nothing().bytes(), b"".as_slice());
}

#[test]
fn two_octets_are_decoded_and_encoded_back(rt: HostRuntime) -> Result<(), Fail> {
    for number in 0..=u16::MAX {
        let [high, low] = number.to_be_bytes();
        let apdu = [0x00, 0x80, high, low];
        comes_back(&rt, Dpt::U16, &apdu, true)?;
        comes_back(&rt, Dpt::I16, &apdu, true)?;
        if number != 0x7fff {
            comes_back(&rt, Dpt::Hundredths, &apdu, false)?;
        }
    }
    let mut text = ValueText::new();
    assert_eq!(rt;
        decode(Dpt::Hundredths, b"\x00\x80\x7f\xff", &mut text),
        Err(BadValue::Range)
    );
    Ok(())
}

// The text is encoded as octets of the same text, and where a value has one form, as the same octets.
fn comes_back(rt: &impl Abort, dpt: Dpt, apdu: &[u8; 4], one_form: bool) -> Result<(), Fail> {
    let mut text = ValueText::new();
    assert_eq!(rt; decode(dpt, apdu, &mut text), Ok(()));
    let mut out = [0; 16];
    let value = str::from_utf8(text.bytes()).ok().ok_or("not a text")?;
    assert_eq!(rt; encode(dpt, value, WRITE, &mut out), Some(4));
    if one_form {
        assert_eq!(rt; &out[..4], apdu.as_slice());
    }
    let mut again = ValueText::new();
    assert_eq!(rt; decode(dpt, &out[..4], &mut again), Ok(()));
    assert_eq!(rt; again.bytes(), text.bytes());
    Ok(())
}

#[test]
fn types_are_read_and_asked(rt: HostRuntime) -> Result<(), Fail> {
    let text = b"# types\ntype 1/2/3 9.001\n\ntype 2564 16.000";
    let types = read_types(rt.alloc(), text).ok().ok_or("refused")?;
    assert_eq!(rt; types.of(GroupAddr(0x0a03)), Some(Dpt::Hundredths));
    assert_eq!(rt; types.of(GroupAddr(0x0a04)), Some(Dpt::Text14));
    assert_eq!(rt; types.of(GroupAddr(0x0a05)), None);
    for (text, fault) in [
        (
            b"type 0/0/0 1.001".as_slice(),
            TypesFault::Line(1, Cause::Address),
        ),
        (
            b"type 1/2/3 2.001".as_slice(),
            TypesFault::Line(1, Cause::Value),
        ),
        (b"type 1/2/3".as_slice(), TypesFault::Line(1, Cause::Words)),
        (
            b"\ntype 1 1.001\ntype 0/1 5.001".as_slice(),
            TypesFault::Twice(3),
        ),
    ] {
        assert_eq!(rt; read_types(rt.alloc(), text).err(), Some(fault));
    }
    Ok(())
}
