use super::*;
use std::test::*;

#[test]
fn individual_addresses_have_three_parts(rt: HostRuntime) {
    let rows = [
        ("0.0.0", Some(IndAddr(0))),
        ("1.1.10", Some(IndAddr(0x110a))),
        ("15.15.255", Some(IndAddr(0xffff))),
        ("16.0.0", None),
        ("1.16.0", None),
        ("1.1.256", None),
        ("1.1", None),
        ("1.1.1.1", None),
        ("1..1", None),
        ("1.1.", None),
        ("01.1.1", None),
        ("1.+1.1", None),
        (" 1.1.1", None),
        ("1.1.18446744073709551617", None),
        ("1/1/1", None),
        ("", None),
    ];
    for (text, address) in rows {
        assert_eq!(rt; IndAddr::read(text), address, "{text}");
    }
}

#[test]
fn group_addresses_have_three_forms(rt: HostRuntime) {
    let rows = [
        ("1/0/1", Some(GroupAddr(0x0801))),
        ("1/1", Some(GroupAddr(0x0801))),
        ("2049", Some(GroupAddr(0x0801))),
        ("31/7/255", Some(GroupAddr(0xffff))),
        ("31/2047", Some(GroupAddr(0xffff))),
        ("65535", Some(GroupAddr(0xffff))),
        ("0", Some(GroupAddr(0))),
        ("32/0/0", None),
        ("1/8/0", None),
        ("1/0/256", None),
        ("32/0", None),
        ("1/2048", None),
        ("65536", None),
        ("00", None),
        ("1/", None),
        ("1/0/1/0", None),
        ("1.0.1", None),
        ("", None),
    ];
    for (text, address) in rows {
        assert_eq!(rt; GroupAddr::read(text), address, "{text}");
    }
}

#[test]
fn addresses_are_written_with_three_parts(rt: HostRuntime) {
    let mut out = [b'-'; 12];
    assert_eq!(rt; IndAddr(0x110a).write_text(&mut out), 6);
    assert_eq!(rt; out, *b"1.1.10------");
    assert_eq!(rt; GroupAddr(0xffff).write_text(&mut out), 8);
    assert_eq!(rt; out, *b"31/7/255----");
}
