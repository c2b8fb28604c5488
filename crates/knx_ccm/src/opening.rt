ghost use Rattle.std.specs.Prelude.{◌≡◌, ◌≢◌, ◌↔◌, ◌≤◌, ◌+◌, ◌-◌, ℕ, List, length, take, Some, None, IfOk, IfErr, MatchResult};
ghost use Rattle.std.specs.Result.{IsOkAnd};
ghost use Rattle.knx_ccm.specs.Sealing.{algorithm, line_of, opened, said_code, computed_code, Opens, AreCodes, WritesOnly};

use crate::Head;
use crate::code::{CODE_LEN, cipher, code};
use crate::sealing::{MOST_APDU, join};
use aes_modes::Key128;

/// No APDU seals to the octets: the code that they say and the one of the APDU beside it differ.
#[derive(Clone, Copy, Debug, PartialEq, Eq)]
pub struct CodeDiffers {
    /// the code on the wire, as it is where the APDU is readable, and decrypted where it is encrypted
    pub said: [u8; 4],
    /// the code of the APDU on the wire
    pub computed: [u8; 4],
}

/// Writes the one APDU that seals to `body`, an APDU of at most 242 octets and its code of four, and answers its length
/// (the sealing of docs/RULES.md, backwards).
///
/// Where no APDU seals to it, `out` has zeros in the place of the APDU.
pub fn open(key: &Key128, head: &Head, body: &[u8], out: &mut [u8]) -> Result<usize, CodeDiffers>
    requires algorithm { algorithm head.now ≤ 1 }
    requires code { 4 ≤ length body.now }
    requires short { length body.now ≤ 246 }
    requires room { length body.now ≤ length out.old + 4 }
    ensures length { IfOk result (λ n. n + 4 ≡ length body.now) }
    ensures opened { IfOk result (λ n. Opens key.now head.now body.now (take n out.new)) }

    // The call is answered by Ok wherever an APDU seals to the body, and at most one does.
    ensures only { (apdu : List ℕ) → Opens key.now head.now body.now apdu
        → IsOkAnd result (λ n. take n out.new ≡ apdu) }
    ensures differ { IfErr result (λ codes. codes.said ≢ codes.computed) }
    ensures codes { IfErr result (λ codes. AreCodes key.now head.now body.now codes.said codes.computed) }

    // The same as functions of the key, the head and the body.
    ensures answer { MatchResult result
        (λ n. opened key.now head.now body.now ≡ Some (take n out.new))
        (λ codes. (opened key.now head.now body.now ≡ None)
        × (codes.said ≡ said_code key.now head.now body.now) × (codes.computed
        ≡ computed_code key.now head.now body.now)) }

    // What the function `opened` answers is what seals to the body, whatever APDU is asked about.
    ensures law { (apdu : List ℕ) → (opened key.now head.now body.now ≡ Some apdu)
        ↔ Opens key.now head.now body.now apdu }
    ensures writes { WritesOnly (length body.now - 4) result out.old out.new }
{
    let length = body.len() - CODE_LEN;
    let mut store = [0; CODE_LEN + MOST_APDU];
    let line = &mut store[..body.len()];
    decrypt(key, head, body, line);
    let said = front(line);
    let apdu = &line[CODE_LEN..];
    let computed = code(key, head, apdu);
    if said == computed {
        out[..length].copy_from_slice(apdu);
        Ok(length)
    } else {
        out[..length].fill(0);
        Err(CodeDiffers { said, computed })
    }
}

// Writes the code and the APDU that are on the wire, without the stream.
fn decrypt(key: &Key128, head: &Head, body: &[u8], line: &mut [u8])
    requires code { 4 ≤ length body.now }
    requires short { length body.now ≤ 246 }
    requires same { length body.now ≡ length line.old }
    ensures { line.new ≡ line_of key.now head.now body.now }
{
    let length = body.len() - CODE_LEN;
    join(line, &body[length..], &body[..length]);
    cipher(key, head, line);
}

// The code at the front.
fn front(line: &[u8]) -> [u8; CODE_LEN]
    requires { 4 ≤ length line.now }
    ensures { result ≡ take 4 line.now }
{
    let mut code = [0; CODE_LEN];
    code.copy_from_slice(&line[..CODE_LEN]);
    code
}
