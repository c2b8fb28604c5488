ghost use Rattle.std.specs.Prelude.{◌≡◌, ◌≢◌, ◌↔◌, ◌+◌, ◌/◌, ◌%◌, ◌==◌, List, ℕ, [], length, Some, None, OnOk, OnErr, IsOk, IfErr, MatchResult};
ghost use Rattle.knx_ccm.specs.Sealing.{opened, said_code, computed_code, Opens, AreCodes};
ghost use Rattle.secure_apdu.specs.Secure.{bad_secure, HasParts};
ghost use Rattle.secure_apdu.specs.Opening.{head_of};
ghost use Rattle.cemi_frames.specs.Frames.{telegram};

use crate::{ApduBuf, Secure};
use aes_modes::Key128;
use cemi_frames::Frame;
use knx_base::Number48;
use knx_ccm::{CodeDiffers, Head, open};

/// Opens a secure frame under a key and a nonce number: `out` has the one APDU that seals to it. After a refusal it is
/// empty.
pub fn open_frame(
    key: &Key128,
    frame: &Frame<'_>,
    secure: &Secure<'_>,
    number: Number48,
    out: &mut ApduBuf,
) -> Result<(), CodeDiffers>
    requires faultless { bad_secure frame.now.content.now (frame.now.control2 / 128 % 2 == 1) ≡ None }
    requires parts { HasParts frame.now.content.now secure.now.field secure.now.shown secure.now.body.now }
    ensures opened { OnOk result (Opens key.now (head_of (telegram frame.now) number secure.now.field)
        secure.now.body.now out.new) }

    // The call is answered by Ok wherever an APDU seals to the frame, and at most one does.
    ensures only { (apdu : List ℕ) → Opens key.now (head_of (telegram frame.now) number secure.now.field)
        secure.now.body.now apdu → IsOk result × (out.new ≡ apdu) }
    ensures differ { IfErr result (λ codes. codes.said ≢ codes.computed) }
    ensures codes { IfErr result (λ codes. AreCodes key.now (head_of (telegram frame.now) number secure.now.field)
        secure.now.body.now codes.said codes.computed) }

    // The same as functions of the frame.
    ensures answer { MatchResult result
        (λ _. opened key.now (head_of (telegram frame.now) number secure.now.field) secure.now.body.now ≡ Some out.new)
        (λ codes. (opened key.now (head_of (telegram frame.now) number secure.now.field) secure.now.body.now ≡ None)
        × (codes.said ≡ said_code key.now (head_of (telegram frame.now) number secure.now.field) secure.now.body.now)
        × (codes.computed ≡ computed_code key.now (head_of (telegram frame.now) number secure.now.field)
        secure.now.body.now)) }

    // What the function `opened` answers is what seals to the frame's body, whatever APDU is asked about.
    ensures law { (apdu : List ℕ) → (opened key.now (head_of (telegram frame.now) number secure.now.field)
        secure.now.body.now ≡ Some apdu) ↔ Opens key.now (head_of (telegram frame.now) number secure.now.field)
        secure.now.body.now apdu }
    ensures length { OnOk result (length out.new + 13 ≡ length frame.now.content.now) }
    ensures empty { OnErr result (out.new ≡ []) }
{
    let head = Head {
        number,
        source: frame.source.0,
        destination: frame.destination,
        control2: frame.control2,
        tpci: frame.content[0],
        field: secure.field,
    };
    out.len = 0;
    out.len = open(key, &head, secure.body, &mut out.store)?;
    Ok(())
}
