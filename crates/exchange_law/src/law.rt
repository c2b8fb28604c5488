ghost use Rattle.exchange_law.specs.Exchange.{AreBetween, RequestIsJudged, AnswerIsJudged};

use aes_modes::Key128;
use knx_base::{IndAddr, Number48};
use secure_apdu::xor_number;

/// The law of a synchronisation: what `sync_service::ask` and `answer` write is read as a telegram from the one device
/// to the other with tool access, and is judged as what it is, with its numbers, under rows whose channel of the frame
/// has the key, and an answer under its challenge; or its sender may not send.
pub fn exchange_is_judged(
    key: &Key128,
    source: IndAddr,
    destination: IndAddr,
    number: Number48,
    challenge: [u8; 6],
    kept: Number48,
)
    ensures between { AreBetween key.now source destination number challenge kept }
    ensures request { RequestIsJudged key.now source destination number challenge }
    ensures answer { AnswerIsJudged key.now source destination number challenge kept }
{
    let shown = xor_number(challenge, number);
    let _ranges = (number.get(), shown.get(), kept.get());
}
