ghost use Rattle.std.specs.Prelude.{◌≡◌, ◌≢◌, ◌≤◌, ◌++◌, ◌∷◌, [], length, Some, None};
ghost use Rattle.hex.specs.Hex.{encode_lower};
ghost use Rattle.knx_base.specs.Faults.{HasCause};
ghost use Rattle.knx_base.specs.Sink.{Prints};
ghost use Rattle.cemi_frames.specs.Frames.{telegram};
ghost use Rattle.judge_rules.specs.Parts.{shown_in};
ghost use Rattle.judge_rules.specs.Checks.{apdu_in, first_failing};
ghost use Rattle.judge_rules.specs.Text.{verdict_text};
ghost use Rattle.knxsec_app.specs.Answer.{Answers};
ghost use Rattle.knxsec_app.specs.Commands.{opening_answer};
ghost use Rattle.knxsec_app.specs.Ends.{EndsWriting};
ghost use Rattle.knxsec_app.specs.Opening.{telegram_checks, refusal_of, apdu_of};

use crate::Status;
use crate::ending::ended;
use crate::frame_word::FrameWord;
use aes_modes::Key128;
use cemi_frames::{Frame, read_frame};
use judge_rules::{Verdict, secure_parts, write_verdict};
use knx_base::{Failed, LineBuf, Sink, print_text};
use secure_apdu::{ApduBuf, open_frame};

/// Opens a frame: prints its APDU, or the verdict on it.
pub(crate) fn open<S: Sink>(key: &[u8; 16], frame: &FrameWord, out: &mut S) -> Status
    ensures answer { Answers (opening_answer (refusal_of key.now frame.now) (apdu_of key.now frame.now)) result
        (S.octets out.old) (S.octets out.new) }
    ensures ends { EndsWriting (S.faults out.old) (S.faults out.new) result }
    ensures not_usage { result ≢ Status.Usage }
{
    let mut apdu = ApduBuf::new();
    match refuse(&Key128::new(*key), frame.bytes(), &mut apdu) {
        None => ended(print_apdu(apdu.bytes(), out), Status::Done),
        Some(verdict) => ended(print_refusal(&verdict, out), Status::Alarm),
    }
}

/// Prints an APDU in hexadecimal.
pub(crate) fn print_apdu<S: Sink>(apdu: &[u8], out: &mut S) -> Result<(), Failed>
    requires short { length apdu.now ≤ 242 }
    ensures text { Prints (S.octets out.old) (S.octets out.new) result (encode_lower apdu.now ++ 10 ∷ []) }
    ensures cause { HasCause (S.faults out.old) (S.faults out.new) result }
{
    let mut line = LineBuf::new();
    line.hex(apdu);
    line.octet(b'\n');
    print_text(line.bytes(), out)
}

fn print_refusal<S: Sink>(verdict: &Verdict, out: &mut S) -> Result<(), Failed>
    ensures text { Prints (S.octets out.old) (S.octets out.new) result (verdict_text verdict.now [] ++ 10 ∷ []) }
    ensures cause { HasCause (S.faults out.old) (S.faults out.new) result }
{
    write_verdict(verdict, &[], out)?;
    print_text(b"\n", out)
}

// The first check that fails for these octets. Where none does, `apdu` has the one APDU that seals to them.
fn refuse(key: &Key128, octets: &[u8], apdu: &mut ApduBuf) -> Option<Verdict>
    ensures refusal { result ≡ refusal_of key.now octets.now }
    ensures opened { result ≡ None → apdu.new ≡ apdu_of key.now octets.now }
{
    match read_frame(octets) {
        Ok(frame) => refuse_frame(key, &frame, apdu),
        Err(fault) => Some(Verdict::NotFrame(fault)),
    }
}

fn refuse_frame(key: &Key128, frame: &Frame<'_>, apdu: &mut ApduBuf) -> Option<Verdict>
    ensures refusal { result ≡ first_failing (telegram_checks key.now (telegram frame.now)) }
    ensures opened { result ≡ None → apdu.new ≡ apdu_in key.now (shown_in (telegram frame.now)) (telegram frame.now) }
{
    let secure = match secure_parts(frame) {
        Ok(secure) => secure,
        Err(verdict) => return Some(verdict),
    };
    if secure.field & 0x07 == ANSWER {
        return Some(Verdict::NoPending);
    }
    match open_frame(key, frame, &secure, secure.shown, apdu) {
        Ok(()) => None,
        Err(codes) => Some(Verdict::BadCode(codes)),
    }
}

// The service bits of an answer of a synchronisation.
const ANSWER: u8 = 3;
