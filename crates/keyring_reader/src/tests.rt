use crate::keyring::keyring_under;
use crate::tags::read_tags;
use crate::{Attribute, Keyring, KeyringFault, read_keyring};
use base64::engine::general_purpose::STANDARD;
use key_tables::{Channel, Level, Role, Row};
use knx_base::{GroupAddr, IndAddr};
use std::alloc::Global;
use std::test::Fail;
use tag_text::TagFault;

// Signed, and its keys wrapped, by another program, under the password `test-password`.
const HOUSE: &str = r#"<?xml version="1.0" encoding="utf-8"?>
<Keyring Project="House" CreatedBy="ETS" Created="2024-03-01T10:00:00" Signature="bc3iyTunJTlYq6ukzr+EyA==" xmlns="http://knx.org/xml/keyring/1">
  <Interface Type="USB" IndividualAddress="1.1.1">
    <Group Address="1/0/1" Senders="1.1.10 1.1.11" />
    <Group Address="1/0/2" Senders="1.1.10" />
  </Interface>
  <Interface Type="Tunneling" Host="1.1.2" IndividualAddress="1.1.3">
    <Group Address="1/0/3" Senders="1.1.12" />
  </Interface>
  <GroupAddresses>
    <Group Address="1/0/1" Key="OVTJH6p8l1YNy+TWj5rt1A==" />
    <Group Address="1/0/2" Key="0MCjwH6uKOJVjXx4HYHP1Q==" />
    <Group Address="1/0/3" Key="6mkhcwURMYAci34HWCcj/w==" />
    <Group Address="1/0/4" Key="Ge6DpjVywl5yellg22vriQ==" />
    <Group Address="1/0/5" Key="lNArBTZAoVIOIXuGh9fNQg==" />
    <Group Address="1/0/6" Key="i/eckhW6z6lPR1PJ4HPMgg==" />
  </GroupAddresses>
  <Devices>
    <Device IndividualAddress="1.1.10" ToolKey="paqGwK2BRZxBY76Sj/WHcw==" SequenceNumber="1000" />
    <Device IndividualAddress="1.1.11" ToolKey="SDCxUkSAJDtwe8DuvJ5lbQ==" SequenceNumber="1000" />
    <Device IndividualAddress="1.1.12" ToolKey="kRNj65Kl8N/7HdUvl6ZwHg==" SequenceNumber="1000" />
  </Devices>
</Keyring>
"#;

fn read_house(alloc: Global, document: &str) -> Result<Keyring, KeyringFault> {
    read_keyring(alloc, document.as_bytes(), b"test-password")
}

// Reads one of the small keyrings, which another program has signed under a password whose key is sixteen times 7.
fn read_small(alloc: Global, document: &str) -> Result<Keyring, KeyringFault> {
    let tags = read_tags(alloc, document.as_bytes())?;
    keyring_under(alloc, [7; 16], &tags)
}

fn group_key(group: u16, octet: u8) -> Row {
    Row::Group {
        address: GroupAddr(group),
        key: [octet; 16],
        level: Level::Auth,
    }
}

// The devices are those of line 1.1.
fn device(number: u8) -> IndAddr {
    IndAddr(0x1100 | u16::from(number))
}

fn tool_key(number: u8, octet: u8) -> Row {
    Row::Tool {
        device: device(number),
        key: [octet; 16],
    }
}

fn commands(group: u16, sender: Option<u8>) -> Row {
    Row::Role {
        channel: Channel::Group(GroupAddr(group)),
        sender: sender.map(device),
        role: Role::Command,
    }
}

fn managed(number: u8) -> Row {
    Row::Role {
        channel: Channel::Tool(device(number)),
        sender: None,
        role: Role::Manage,
    }
}

#[test]
fn the_house_keyring_gives_its_rows(rt: HostRuntime) -> Result<(), Fail> {
    let expected = [
        group_key(2049, 1),
        group_key(2050, 2),
        group_key(2051, 3),
        group_key(2052, 4),
        group_key(2053, 5),
        group_key(2054, 6),
        tool_key(10, 7),
        tool_key(11, 8),
        tool_key(12, 9),
        commands(2049, Some(1)),
        commands(2049, Some(10)),
        commands(2049, Some(11)),
        commands(2050, Some(1)),
        commands(2050, Some(10)),
        commands(2051, Some(3)),
        commands(2051, Some(12)),
        commands(2052, None),
        commands(2053, None),
        commands(2054, None),
        managed(10),
        managed(11),
        managed(12),
    ];
    let keyring = read_house(rt.alloc(), HOUSE)?;
    assert_eq!(rt; keyring.rows(), expected.as_slice());
    Ok(())
}

#[test]
fn a_changed_keyring_has_another_signature(rt: HostRuntime) -> Result<(), Fail> {
    let stored = 0x6dcd_e2c9_3ba7_2539_58ab_aba4_cebf_84c8u128;
    let computed = 0x48fe_8fc7_2797_dbfc_c7c2_a23d_6163_edd6u128;
    let document = HOUSE.replace(rt.alloc(), "\"House\"", "\"Hause\"")?;
    assert_eq!(rt;
        read_house(rt.alloc(), document.as_str()).err(),
        Some(KeyringFault::Signature {
            stored: Some(stored.to_be_bytes()),
            computed: computed.to_be_bytes(),
        })
    );
    Ok(())
}

#[test]
fn the_form_is_judged_before_the_signature(rt: HostRuntime) -> Result<(), Fail> {
    let cases = [
        (
            "</Devices>",
            "</Device>",
            KeyringFault::Tag(TagFault::Bad(1200)),
        ),
        ("Keyring", "KeyRing", KeyringFault::NotKeyring),
        (
            "Created=",
            "created=",
            KeyringFault::Missing(Attribute::Created, 39),
        ),
        (
            "Signature=",
            "signature=",
            KeyringFault::Missing(Attribute::Signature, 39),
        ),
    ];
    for (old, new, fault) in cases {
        let document = HOUSE.replace(rt.alloc(), old, new)?;
        let answer = read_small(rt.alloc(), document.as_str());
        assert_eq!(rt; answer.err(), Some(fault), "{new}");
    }
    Ok(())
}

#[test]
fn a_text_of_256_octets_is_too_long(rt: HostRuntime) -> Result<(), Fail> {
    for (octets, fault) in [(255, None), (256, Some(KeyringFault::LongText(39)))] {
        let mut project = String::new(rt.alloc());
        project.push_str("\"")?;
        for _ in 0..octets {
            project.push_str("H")?;
        }
        project.push_str("\"")?;
        let document = HOUSE.replace(rt.alloc(), "\"House\"", project.as_str())?;
        let answer = read_small(rt.alloc(), document.as_str()).err();
        let long = answer.filter(|fault| matches!(fault, KeyringFault::LongText(_)));
        assert_eq!(rt; long, fault, "{octets}");
    }
    Ok(())
}

#[test]
fn a_signature_that_is_no_base64_is_none(rt: HostRuntime) -> Result<(), Fail> {
    let document = "<Keyring Created='c' Signature='S'/>";
    let answer = read_small(rt.alloc(), document).err();
    let none = answer.is_some_and(|fault| matches!(
        fault,
        KeyringFault::Signature { stored: None, .. }
    ));
    assert!(rt; none);
    Ok(())
}

#[test]
fn elements_are_refused_in_order(rt: HostRuntime) -> Result<(), Fail> {
    for (document, fault) in REFUSED {
        let answer = read_small(rt.alloc(), document);
        assert_eq!(rt; answer.err(), Some(fault), "{document}");
    }
    Ok(())
}

// An element of each kind that lacks an attribute, or that has an address or a key that is none, or that is there
// twice.
const REFUSED: [(&str, KeyringFault); 14] = [
    (
        r#"<Keyring Created="c" Signature="qjq74cNzjmNKRmHMOR8RlQ=="><GroupAddresses><Group/></GroupAddresses></Keyring>"#,
        KeyringFault::Missing(Attribute::Address, 74),
    ),
    (
        r#"<Keyring Created="c" Signature="wYYEDiZMtfqLA/v1zGu8Ig=="><GroupAddresses><Group Address="0"/></GroupAddresses></Keyring>"#,
        KeyringFault::Missing(Attribute::Key, 74),
    ),
    (
        r#"<Keyring Created="c" Signature="ahIeBR19qbiSM7kmM1fwpg=="><GroupAddresses><Group Address="0/0" Key=""/></GroupAddresses></Keyring>"#,
        KeyringFault::Address(74),
    ),
    (
        r#"<Keyring Created="c" Signature="1lv7eanaIPnTgBf1qmLw+A=="><GroupAddresses><Group Address="1/0/1" Key="2eqk2M5XD1ZWLQ9rOg2eGA="/></GroupAddresses></Keyring>"#,
        KeyringFault::Key(74),
    ),
    (
        r#"<Keyring Created="c" Signature="Fd4RmLUljYPAQsWn11sWLw=="><GroupAddresses><Group Address="1/0/1" Key="2eqk2M5XD1ZWLQ9rOg2eGA=="/><Group Address="1/0/1" Key=""/></GroupAddresses></Keyring>"#,
        KeyringFault::Key(129),
    ),
    (
        r#"<Keyring Created="c" Signature="i5aRNIziSbBJhu+MrqbYpA=="><GroupAddresses><Group Address="1/0/1" Key="2eqk2M5XD1ZWLQ9rOg2eGA=="/><Group Address="2049" Key="hvZqJP3PPQxjMgqodJQBhA=="/></GroupAddresses></Keyring>"#,
        KeyringFault::Twice(129),
    ),
    (
        r#"<Keyring Created="c" Signature="aZEYSBJnxGituuZl3qmDCg=="><Devices><Device ToolKey=""/></Devices></Keyring>"#,
        KeyringFault::Missing(Attribute::IndividualAddress, 67),
    ),
    (
        r#"<Keyring Created="c" Signature="3TIpGNujB/A8b9+VvPzARg=="><Devices><Device IndividualAddress="1.1" ToolKey=""/></Devices></Keyring>"#,
        KeyringFault::Address(67),
    ),
    (
        r#"<Keyring Created="c" Signature="yKO1Y6tqokNfh5IrWoq3Qw=="><Devices><Device IndividualAddress="1.1.1" ToolKey=""/></Devices></Keyring>"#,
        KeyringFault::Key(67),
    ),
    (
        r#"<Keyring Created="c" Signature="sFCxJN7nQ0QisQRpupwaaA=="><Devices><Device IndividualAddress="1.1.1" ToolKey="2eqk2M5XD1ZWLQ9rOg2eGA=="/><Device IndividualAddress="1.1.1" ToolKey="2eqk2M5XD1ZWLQ9rOg2eGA=="/></Devices></Keyring>"#,
        KeyringFault::Twice(137),
    ),
    (
        r#"<Keyring Created="c" Signature="smShtcxaMFt9+zeDK0z2GQ=="><Interface IndividualAddress=""><Group/></Interface></Keyring>"#,
        KeyringFault::Address(58),
    ),
    (
        r#"<Keyring Created="c" Signature="XAehkrvi6D9jto+m4Lqs8Q=="><Interface><Group/></Interface></Keyring>"#,
        KeyringFault::Missing(Attribute::Address, 69),
    ),
    (
        r#"<Keyring Created="c" Signature="N4tmuUfYEJmjzFA1n5p2DQ=="><Interface><Group Address="0/0/0"/></Interface></Keyring>"#,
        KeyringFault::Address(69),
    ),
    (
        r#"<Keyring Created="c" Signature="IV2xjMOJy/Mz+puSWzvtzQ=="><Interface><Group Address="1" Senders="1.1.1 1.1.1&#9;"/></Interface></Keyring>"#,
        KeyringFault::Address(69),
    ),
];

#[test]
fn other_elements_are_signed_alone(rt: HostRuntime) -> Result<(), Fail> {
    let keyring = read_small(rt.alloc(), OTHERS)?;
    assert_eq!(rt; keyring.rows(), [].as_slice());
    Ok(())
}

// No path of these elements is one that is read.
const OTHERS: &str =
    "<Keyring xmlns:x=\"u\" b='1' a=\"2\t3\" Created=\"c\" Signature=\"b9JMVWOTrE47Ko60/jxMpg==\"><A Signature=\"t\" xmlns=\"v\" z=\"&lt;\" B=\"2&#10;\"><Group/></A><A><GroupAddresses><Group/></GroupAddresses></A><Device ToolKey=\"\"/></Keyring>";

#[test]
fn rows_are_in_order(rt: HostRuntime) -> Result<(), Fail> {
    let expected = [
        tool_key(9, 3),
        tool_key(1, 1),
        group_key(2050, 2),
        group_key(1, 1),
        commands(2050, Some(7)),
        commands(2050, Some(8)),
        commands(2050, Some(9)),
        commands(2050, Some(10)),
        managed(1),
        managed(9),
    ];
    let keyring = read_small(rt.alloc(), ORDERED)?;
    assert_eq!(rt; keyring.rows(), expected.as_slice());
    Ok(())
}

// Devices before groups, a group in two spellings, a group that is listed for no one, and one without a key.
const ORDERED: &str =
    r#"<Keyring Created="c" Signature="sMTP2Mn6zF3DmDnUCMDQ4Q=="><Devices><Device/><Device IndividualAddress="1.1.9" ToolKey="jdwm8C7RQhrH0u7QjWWeOw=="/><Device IndividualAddress="1.1.1" ToolKey="2eqk2M5XD1ZWLQ9rOg2eGA=="/></Devices><GroupAddresses><Group Address="1/0/2" Key="hvZqJP3PPQxjMgqodJQBhA=="/><Group Address="1" Key="2eqk2M5XD1ZWLQ9rOg2eGA=="/></GroupAddresses><Interface><Group Address="0/1"/><Group Address="1/0/3"/></Interface><Interface IndividualAddress="1.1.7"><Group Senders="  1.1.10   1.1.9 1.1.10 " Address="1/2"/></Interface><Interface IndividualAddress="1.1.8"><Group Senders="" Address="1/2"/></Interface></Keyring>"#;

#[test]
fn base64_is_that_of_the_standard(rt: HostRuntime) -> Result<(), Fail> {
    let octets = [
        0x00, 0x10, 0x83, 0x10, 0x51, 0x87, 0x20, 0x92, 0x8b, 0x30, 0xd3, 0x8f, 0x41, 0x14, 0x93,
        0x51, 0x55, 0x97, 0x61, 0x96, 0x9b, 0x71, 0xd7, 0x9f, 0x82, 0x18, 0xa3, 0x92, 0x59, 0xa7,
        0xa2, 0x9a, 0xab, 0xb2, 0xdb, 0xaf, 0xc3, 0x1c, 0xb3, 0xd3, 0x5d, 0xb7, 0xe3, 0x9e, 0xbb,
        0xf3, 0xdf, 0xbf,
    ];
    assert_eq!(rt;
        STANDARD.encode(rt.alloc(), &octets)?.as_str(),
        "ABCDEFGHIJKLMNOPQRSTUVWXYZabcdefghijklmnopqrstuvwxyz0123456789+/"
    );
    Ok(())
}

#[test]
fn a_fault_says_its_place(rt: HostRuntime) -> Result<(), Fail> {
    let fault = KeyringFault::Missing(Attribute::IndividualAddress, 1004);
    assert_eq!(rt;
        format!(in rt.alloc(); "{fault}")?.as_str(),
        "no IndividualAddress at 1004"
    );
    Ok(())
}
