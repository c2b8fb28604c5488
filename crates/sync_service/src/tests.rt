use crate::{AskedBook, Pending, answer, ask};
use aes_modes::Key128;
use knx_base::{IndAddr, Number48};
use secure_apdu::FrameBuf;
use std::test::Fail;

const KEY: [u8; 16] = [0, 1, 2, 3, 4, 5, 6, 7, 8, 9, 10, 11, 12, 13, 14, 15];

const CHALLENGE: [u8; 6] = [1, 2, 3, 4, 5, 6];

const PUSH: IndAddr = IndAddr(0x1107);

const LAMP: IndAddr = IndAddr(0x1109);

fn number(value: u64) -> Result<Number48, Fail> {
    Ok(Number48::new(value).ok_or("a number of 48 bits")?)
}

// What stands before the octets that are encrypted.
#[test]
fn a_request_shows_its_number_and_an_answer_the_challenge_with_its_own(
    rt: HostRuntime,
) -> Result<(), Fail> {
    let key = Key128::new(KEY);
    let mut out = FrameBuf::new();
    ask(&key, PUSH, LAMP, number(2)?, CHALLENGE, &mut out);
    assert_eq!(rt; out.bytes().len(), 28);
    assert_eq!(rt;
        &out.bytes()[..18],
        b"\x29\x00\x3c\x60\x11\x07\x11\x09\x12\x03\xf1\x92\x00\x00\x00\x00\x00\x02".as_slice()
    );
    answer(
        &key,
        LAMP,
        PUSH,
        number(1)?,
        CHALLENGE,
        number(500)?,
        &mut out,
    );
    assert_eq!(rt; out.bytes().len(), 34);
    assert_eq!(rt;
        &out.bytes()[..18],
        b"\x29\x00\x3c\x60\x11\x09\x11\x07\x18\x03\xf1\x93\x01\x02\x03\x04\x05\x07".as_slice()
    );
    Ok(())
}

#[test]
fn a_device_waits_for_the_peer_that_it_asked_last(rt: HostRuntime) {
    let mut pending = Pending::none();
    assert_eq!(rt; pending.asked(LAMP), None);
    pending.open(PUSH, [0; 6]);
    pending.open(LAMP, CHALLENGE);
    assert_eq!(rt;
        (pending.asked(PUSH), pending.asked(LAMP)),
        (None, Some(CHALLENGE))
    );
    pending.close();
    assert_eq!(rt; pending.asked(LAMP), None);
}

#[test]
fn a_book_keeps_the_last_challenge_of_each_pair(rt: HostRuntime) -> Result<(), Fail> {
    let mut book = AskedBook::new(rt.alloc());
    book.note(PUSH, LAMP, [0; 6])?;
    book.note(PUSH, LAMP, CHALLENGE)?;
    assert_eq!(rt; book.asked(PUSH, LAMP), Some(CHALLENGE));
    assert_eq!(rt; book.asked(LAMP, PUSH), None);
    book.close(PUSH, LAMP);
    assert_eq!(rt; book.asked(PUSH, LAMP), None);
    Ok(())
}
