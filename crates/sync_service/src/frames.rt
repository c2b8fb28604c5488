ghost use Rattle.std.specs.Prelude.{◌≡◌};
ghost use Rattle.sync_service.specs.Frames.{device_head, ask_frame, answer_payload, answer_frame};

use aes_modes::Key128;
use knx_base::{IndAddr, Number48};
use secure_apdu::{FrameBuf, SendHead, seal_frame, xor_number};

// Tool access, encrypted, a request of a synchronisation.
const ASK_FIELD: u8 = 0x92;

// The same of its answer.
const ANSWER_FIELD: u8 = 0x93;

/// Writes the request of a synchronisation (docs/RULES.md): sealed under a number of the requester, it carries the
/// challenge.
pub fn ask(
    key: &Key128,
    source: IndAddr,
    destination: IndAddr,
    number: Number48,
    challenge: [u8; 6],
    out: &mut FrameBuf,
)
    ensures frame { out.new ≡ ask_frame key.now source destination number challenge }
{
    let head = device_head(source, destination, ASK_FIELD, number, number);
    seal_frame(key, &head, &challenge, out);
}

/// Writes the answer to a request (docs/RULES.md): sealed under a number of the responder, it shows the request's
/// challenge XOR that
/// number, and carries the number and the greatest one that the responder kept of the requester.
pub fn answer(
    key: &Key128,
    source: IndAddr,
    destination: IndAddr,
    number: Number48,
    challenge: [u8; 6],
    kept: Number48,
    out: &mut FrameBuf,
)
    ensures frame { out.new ≡ answer_frame key.now source destination number challenge kept }
{
    let shown = xor_number(challenge, number);
    let head = device_head(source, destination, ANSWER_FIELD, number, shown);
    seal_frame(key, &head, &two_numbers(number, kept), out);
}

fn device_head(
    source: IndAddr,
    destination: IndAddr,
    field: u8,
    number: Number48,
    shown: Number48,
) -> SendHead
    ensures { result ≡ device_head source destination field number shown }
{
    SendHead {
        source,
        destination: destination.0,
        group: false,
        number,
        shown,
        field,
    }
}

#[tactic(auto, unfolding(knx_base::specs::Number::octets_of))]
fn two_numbers(number: Number48, kept: Number48) -> [u8; 12]
    ensures { result ≡ answer_payload number kept }
{
    let [n0, n1, n2, n3, n4, n5] = number.to_bytes();
    let [k0, k1, k2, k3, k4, k5] = kept.to_bytes();
    [n0, n1, n2, n3, n4, n5, k0, k1, k2, k3, k4, k5]
}
