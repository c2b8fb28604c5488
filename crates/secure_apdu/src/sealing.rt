ghost use Rattle.std.specs.Prelude.{◌≡◌, ◌≤◌, ◌/◌, ◌%◌, ◌+◌, ◌∷◌, ◌++◌, length, take, drop};
ghost use Rattle.knx_base.specs.Number.{octets_of};
ghost use Rattle.knx_ccm.specs.Sealing.{sealed};
ghost use Rattle.secure_apdu.specs.SealedFrame.{sealed_frame, sealed_head, sealed_content};

use crate::FrameBuf;
use aes_modes::Key128;
use cemi_frames::{FrameParts, write_ldata};
use knx_base::{IndAddr, Number48};
use knx_ccm::{Head, seal};

/// What a frame is sealed under.
#[derive(Clone, Copy, Debug, PartialEq, Eq)]
pub struct SendHead {
    /// The sender.
    pub source: IndAddr,
    /// A group address or an individual one.
    pub destination: u16,
    /// Whether the destination is a group.
    pub group: bool,
    /// The nonce number.
    pub number: Number48,
    /// The number field.
    pub shown: Number48,
    /// The control field.
    pub field: u8,
}

// Two octets of the service, the control field, and six of the number.
const FRONT: usize = 9;

// The most octets of a content.
const ROOM: usize = 255;

/// Seals an APDU of 2 to 242 octets (the sealing of docs/RULES.md) and writes the frame that it is sent in: an
/// L_Data.ind frame whose TPCI octet is 03.
pub fn seal_frame(key: &Key128, head: &SendHead, apdu: &[u8], out: &mut FrameBuf)
    requires algorithm { head.now.field / 16 % 8 ≤ 1 }
    requires some { 2 ≤ length apdu.now }
    requires short { length apdu.now ≤ 242 }
    ensures frame { out.new ≡ sealed_frame key.now head.now apdu.now }
{
    let mut content = [0; ROOM];
    let length = put_content(key, head, apdu, &mut content);
    let parts = FrameParts {
        source: head.source,
        destination: head.destination,
        group: head.group,
        content: &content[..length],
    };
    out.len = write_ldata(&parts, &mut out.store);
}

// Writes what stands in the frame from the TPCI octet on, and answers its length.
fn put_content(key: &Key128, head: &SendHead, apdu: &[u8], content: &mut [u8; ROOM]) -> usize
    requires algorithm { head.now.field / 16 % 8 ≤ 1 }
    requires short { length apdu.now ≤ 242 }
    ensures length { result ≡ length apdu.now + 13 }
    ensures content { take result content.new ≡ sealed_content key.now head.now apdu.now }
{
    let ccm_head = Head {
        number: head.number,
        source: head.source.0,
        destination: head.destination,
        control2: if head.group { 0xe0 } else { 0x60 },
        tpci: 0x03,
        field: head.field,
    };
    let (front, body) = content.split_at_mut(FRONT);
    front.copy_from_slice(&front_of(head));
    FRONT + seal(key, &ccm_head, apdu, body)
}

fn front_of(head: &SendHead) -> [u8; FRONT]
    ensures { result ≡ 0x03 ∷ 0xf1 ∷ head.now.field ∷ octets_of head.now.shown }
{
    let [n0, n1, n2, n3, n4, n5] = head.shown.to_bytes();
    [0x03, 0xf1, head.field, n0, n1, n2, n3, n4, n5]
}
