ghost use Rattle.std.specs.Prelude.{◌≡◌, ◌≤◌, ◌+◌, length};
ghost use Rattle.knx_ccm.specs.Sealing.{is_confidential, nonce_of, block_0, counter_0, two_octets, encrypted_length, readable_length, code_of, ciphered};

use crate::Head;
use aes_modes::{CbcMac, Key128, ctr_apply};

/// How many octets a code has.
pub(crate) const CODE_LEN: usize = 4;

pub(crate) fn has_confidentiality(head: &Head) -> bool
    ensures { result ≡ is_confidential head.now }
{
    head.field / 16 % 8 == 1
}

fn nonce(head: &Head) -> [u8; 10]
    ensures { result ≡ nonce_of head.now }
{
    let [n0, n1, n2, n3, n4, n5] = head.number.to_bytes();
    let [s0, s1] = head.source.to_be_bytes();
    let [d0, d1] = head.destination.to_be_bytes();
    [n0, n1, n2, n3, n4, n5, s0, s1, d0, d1]
}

fn first_block(head: &Head, encrypted: u8) -> [u8; 16]
    ensures { result ≡ block_0 head.now encrypted }
{
    let [n0, n1, n2, n3, n4, n5, s0, s1, d0, d1] = nonce(head);
    let control2 = head.control2 & 0x8f;
    let tpci = head.tpci | 0x03;
    [
        n0, n1, n2, n3, n4, n5, s0, s1, d0, d1, 0, control2, tpci, 0xf1, 0, encrypted,
    ]
}

fn first_counter(head: &Head) -> [u8; 16]
    ensures { result ≡ counter_0 head.now }
{
    let [n0, n1, n2, n3, n4, n5, s0, s1, d0, d1] = nonce(head);
    [n0, n1, n2, n3, n4, n5, s0, s1, d0, d1, 0, 0, 0, 0, 1, 0]
}

fn encrypted_length(head: &Head, apdu: &[u8]) -> u8
    requires short { length apdu.now ≤ 242 }
    ensures { result ≡ encrypted_length head.now apdu.now }
{
    if has_confidentiality(head) {
        apdu.len() as u8
    } else {
        0
    }
}

fn readable_length(head: &Head, apdu: &[u8]) -> u16
    requires short { length apdu.now ≤ 242 }
    ensures { result ≡ readable_length head.now apdu.now }
{
    if has_confidentiality(head) {
        1
    } else {
        apdu.len() as u16 + 1
    }
}

fn two_octets(number: u16) -> [u8; 2]
    ensures { result ≡ two_octets number }
{
    number.to_be_bytes()
}

/// The code of an APDU.
pub(crate) fn code(key: &Key128, head: &Head, apdu: &[u8]) -> [u8; CODE_LEN]
    requires short { length apdu.now ≤ 242 }
    ensures { result ≡ code_of key.now head.now apdu.now }
{
    let mut mac = CbcMac::new(*key);
    mac.feed(&first_block(head, encrypted_length(head, apdu)));
    mac.feed(&two_octets(readable_length(head, apdu)));
    mac.feed(&[head.field]);
    mac.feed(apdu);
    let mut code = [0; CODE_LEN];
    code.copy_from_slice(&mac.finish()[..CODE_LEN]);
    code
}

/// Adds the stream to the octets, where there is confidentiality.
pub(crate) fn cipher(key: &Key128, head: &Head, octets: &mut [u8])
    requires short { length octets.old ≤ 4096 }
    ensures { octets.new ≡ ciphered key.now head.now octets.old }
{
    if has_confidentiality(head) {
        ctr_apply(key, &first_counter(head), octets);
    }
}
