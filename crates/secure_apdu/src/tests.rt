use crate::{
    ApduBuf, BadSecure, FrameBuf, SendHead, is_secure, open_frame, read_secure, seal_frame,
    sync_values, xor_number,
};
use aes_modes::Key128;
use cemi_frames::read_frame;
use knx_base::{IndAddr, Number48};
use std::test::Fail;

const KEY: [u8; 16] = [0, 1, 2, 3, 4, 5, 6, 7, 8, 9, 10, 11, 12, 13, 14, 15];

/// From 1.1.7 to the group 1/2/3, under number 5, a GroupValue_Write of 1.
const SEALED: [u8; 24] =
    *b"\x29\x00\xbc\xe0\x11\x07\x0a\x03\x0e\x03\xf1\x10\x00\x00\x00\x00\x00\x05\x0d\x58\x58\x02\x82\x67";

// What is wrong first with the frame of these octets; None where it is no secure frame.
fn first_fault(octets: &[u8]) -> Option<Option<BadSecure>> {
    let Ok(frame) = read_frame(octets) else {
        return None;
    };
    if !is_secure(&frame) {
        return None;
    }
    match read_secure(&frame) {
        Ok(_) => Some(None),
        Err(fault) => Some(Some(fault)),
    }
}

#[test]
fn a_telegram_is_sealed_into_its_frame(rt: HostRuntime) -> Result<(), Fail> {
    let number = Number48::new(5).ok_or("number")?;
    let head = SendHead {
        source: IndAddr(0x1107),
        destination: 0x0a03,
        group: true,
        number,
        shown: number,
        field: 0x10,
    };
    let mut out = FrameBuf::new();
    seal_frame(&Key128::new(KEY), &head, b"\x00\x81", &mut out);
    assert_eq!(rt; out.bytes(), SEALED.as_slice());
    Ok(())
}

// Whether the frame of these octets opens under its own number.
fn opens(octets: &[u8], apdu: &mut ApduBuf) -> bool {
    let Ok(frame) = read_frame(octets) else {
        return false;
    };
    if !is_secure(&frame) {
        return false;
    }
    let Ok(secure) = read_secure(&frame) else {
        return false;
    };
    open_frame(&Key128::new(KEY), &frame, &secure, secure.shown, apdu).is_ok()
}

#[test]
fn a_sealed_frame_opens(rt: HostRuntime) {
    let mut apdu = ApduBuf::new();
    assert!(rt; opens(&SEALED, &mut apdu));
    assert_eq!(rt; apdu.bytes(), b"\x00\x81".as_slice());
}

#[test]
fn the_first_fault_of_a_secure_frame_is_told(rt: HostRuntime) {
    let rows: [(&[u8], Option<BadSecure>); 5] = [
        (
            b"\x29\x00\xbc\xe0\x11\x07\x0a\x03\x0d\x03\xf1\x10\x00\x00\x00\x00\x00\x05\xaa\xbb\xcc\xdd\xee",
            Some(BadSecure::Short(12)),
        ),
        (
            b"\x29\x00\xbc\xe0\x11\x07\x0a\x03\x0e\x03\xf1\x28\x00\x00\x00\x00\x00\x05\x0d\x58\x58\x02\x82\x67",
            Some(BadSecure::Algorithm(2)),
        ),
        (
            b"\x29\x00\xbc\xe0\x11\x07\x0a\x03\x0e\x03\xf1\x19\x00\x00\x00\x00\x00\x05\x0d\x58\x58\x02\x82\x67",
            Some(BadSecure::Broadcast),
        ),
        (
            b"\x29\x00\xbc\xe0\x11\x07\x0a\x03\x0e\x03\xf1\x11\x00\x00\x00\x00\x00\x05\x0d\x58\x58\x02\x82\x67",
            Some(BadSecure::Service(1)),
        ),
        (
            b"\x29\x00\xbc\xe0\x11\x07\x0a\x03\x0e\x03\xf1\x12\x00\x00\x00\x00\x00\x05\x0d\x58\x58\x02\x82\x67",
            Some(BadSecure::Sync(0x12, 2)),
        ),
    ];
    for (octets, fault) in rows {
        assert_eq!(rt; first_fault(octets), Some(fault));
    }
}

#[test]
fn a_challenge_is_added_to_a_number(rt: HostRuntime) {
    let one = Number48::from_bytes([0, 0, 0, 0, 0, 1]);
    assert_eq!(rt;
        xor_number([1, 2, 3, 4, 5, 6], one).to_bytes(),
        [1, 2, 3, 4, 5, 7]
    );
    let (number, kept) = sync_values(&[0, 0, 0, 0, 0, 1, 0, 0, 0, 0, 1, 0xf4]);
    assert_eq!(rt; (number.get(), kept.get()), (1, 500));
}
