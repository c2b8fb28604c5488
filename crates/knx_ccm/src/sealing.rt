ghost use Rattle.std.specs.Prelude.{◌≡◌, ◌≤◌, ◌+◌, ◌++◌, length, take, drop};
ghost use Rattle.knx_ccm.specs.Sealing.{algorithm, sealed};

use crate::Head;
use crate::code::{CODE_LEN, cipher, code};
use aes_modes::Key128;

/// The most octets of an APDU that is sealed.
pub(crate) const MOST_APDU: usize = 242;

/// Writes an APDU of at most 242 octets as it stands on the wire, and its code of four octets after it, and answers
/// their length (the sealing of docs/RULES.md).
pub fn seal(key: &Key128, head: &Head, apdu: &[u8], out: &mut [u8]) -> usize
    requires algorithm { algorithm head.now ≤ 1 }
    requires short { length apdu.now ≤ 242 }
    requires room { length apdu.now + 4 ≤ length out.old }
    ensures length { result ≡ length apdu.now + 4 }
    ensures sealed { take result out.new ≡ sealed key.now head.now apdu.now }
    ensures rest { drop result out.new ≡ drop result out.old }
{
    let mut store = [0; CODE_LEN + MOST_APDU];
    let line = &mut store[..CODE_LEN + apdu.len()];
    join(line, &code(key, head, apdu), apdu);
    cipher(key, head, line);
    wire(line, &mut out[..CODE_LEN + apdu.len()]);
    apdu.len() + CODE_LEN
}

/// Writes one list after the other.
pub(crate) fn join(out: &mut [u8], first: &[u8], second: &[u8])
    requires { length first.now + length second.now ≡ length out.old }
    ensures { out.new ≡ first.now ++ second.now }
{
    let (front, back) = out.split_at_mut(first.len());
    front.copy_from_slice(first);
    back.copy_from_slice(second);
}

// Turns a code and an APDU after it into the APDU and the code after it.
fn wire(line: &[u8], out: &mut [u8])
    requires code { 4 ≤ length line.now }
    requires same { length line.now ≡ length out.old }
    ensures { out.new ≡ drop 4 line.now ++ take 4 line.now }
{
    join(out, &line[CODE_LEN..], &line[..CODE_LEN]);
}
