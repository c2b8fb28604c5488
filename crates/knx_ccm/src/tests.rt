ghost use Rattle.std.specs.Prelude.{◌≡◌, IfSome};

use crate::{Head, open, seal};
use aes_modes::Key128;
use knx_base::Number48;
use std::test::Fail;

const KEY: [u8; 16] = [0, 1, 2, 3, 4, 5, 6, 7, 8, 9, 10, 11, 12, 13, 14, 15];

// From 1.1.7 to the group 1/2/3.
fn head(number: u64, control2: u8, field: u8) -> Option<Head>
    ensures { IfSome result (λ head. head.field ≡ field) }
{
    Some(Head {
        number: Number48::new(number)?,
        source: 0x1107,
        destination: 0x0a03,
        control2,
        tpci: 0x03,
        field,
    })
}

// The APDU seals to the body, and the body opens to the APDU.
fn seal_and_open(number: u64, field: u8, apdu: &[u8], body: &[u8]) -> Option<bool> {
    let head = head(number, 0xe0, field)?;
    if head.field / 16 % 8 > 1 || apdu.len() > 13 || body.len() < 4 || body.len() > 17 {
        return None;
    }
    let key = Key128::new(KEY);
    let mut sealed = [0; 17];
    let length = seal(&key, &head, apdu, &mut sealed);
    let mut opened = [0; 17];
    let opened_length = open(&key, &head, body, &mut opened).ok()?;
    Some(&sealed[..length] == body && &opened[..opened_length] == apdu)
}

#[test]
fn telegrams_of_both_algorithms_seal_and_open(rt: HostRuntime) {
    let short = b"\x00\x81";
    assert_eq!(rt;
        seal_and_open(5, 0x10, short, b"\x0d\x58\x58\x02\x82\x67"),
        Some(true)
    );
    assert_eq!(rt;
        seal_and_open(6, 0x00, short, b"\x00\x81\x61\x5a\xe1\x4f"),
        Some(true)
    );
}

#[test]
fn a_stream_goes_on_past_its_first_block(rt: HostRuntime) {
    let twelve = b"\x00\x80\x01\x02\x03\x04\x05\x06\x07\x08\x09\x0a";
    let body = b"\x0d\x59\x94\x4e\x95\xd5\x77\xeb\x2b\x5c\xc0\xe2\xa9\xcc\xce\x66";
    assert_eq!(rt; seal_and_open(5, 0x10, twelve, body), Some(true));
    let thirteen = b"\x00\x80\x01\x02\x03\x04\x05\x06\x07\x08\x09\x0a\x0b";
    let body = b"\x0d\x59\x94\x4e\x95\xd5\x77\xeb\x2b\x5c\xc0\xe2\x3e\x2a\x1e\x97\xbf";
    assert_eq!(rt; seal_and_open(5, 0x10, thirteen, body), Some(true));
}

#[test]
fn the_hop_count_is_not_covered(rt: HostRuntime) -> Result<(), Fail> {
    let mut out = [0; 2];
    let head = head(5, 0x90, 0x10).ok_or("number")?;
    assert_eq!(rt;
        open(
            &Key128::new(KEY),
            &head,
            b"\x0d\x58\x58\x02\x82\x67",
            &mut out
        ),
        Ok(2)
    );
    assert_eq!(rt; &out, b"\x00\x81");
    Ok(())
}

#[test]
fn a_changed_octet_does_not_open(rt: HostRuntime) -> Result<(), Fail> {
    let mut out = [0xaa; 3];
    let head = head(5, 0xe0, 0x10).ok_or("number")?;
    assert!(rt;
        open(
            &Key128::new(KEY),
            &head,
            b"\x0d\x58\x58\x02\x82\x68",
            &mut out
        )
        .is_err()
    );
    assert_eq!(rt; out, [0, 0, 0xaa]);
    Ok(())
}
