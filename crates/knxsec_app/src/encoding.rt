ghost use Rattle.std.specs.Prelude.{◌≡◌, ◌≢◌};
ghost use Rattle.knxsec_app.specs.Answer.{Answers};
ghost use Rattle.knxsec_app.specs.Encoding.{encoding_answer};
ghost use Rattle.knxsec_app.specs.Ends.{EndsWriting};

use crate::Status;
use crate::ending::ended;
use crate::opening::print_apdu;
use datapoints::Dpt;
use knx_base::{Sink, print_text};

/// The ten bits of GroupValue_Write.
const WRITE: u16 = 0x080;

/// Prints the APDU of a write that carries the value of a text, or that the text is of none.
pub(crate) fn encode<S: Sink>(dpt: Dpt, text: &str, out: &mut S) -> Status
    ensures answer { Answers (encoding_answer dpt text.now) result (S.octets out.old) (S.octets out.new) }
    ensures ends { EndsWriting (S.faults out.old) (S.faults out.new) result }
    ensures not_usage { result ≢ Status.Usage }
{
    let mut apdu = [0; 16];
    match datapoints::encode(dpt, text, WRITE, &mut apdu) {
        Some(count) => ended(print_apdu(&apdu[..count], out), Status::Done),
        None => ended(print_text(b"no-value\n", out), Status::Alarm),
    }
}
