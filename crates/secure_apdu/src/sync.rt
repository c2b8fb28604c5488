ghost use Rattle.std.specs.Prelude.{◌≡◌, ◌++◌};
ghost use Rattle.knx_base.specs.Number.{octets_of};
ghost use Rattle.secure_apdu.specs.Sync.{xor_number, xor_octets, sync_values};

use knx_base::Number48;

/// The number whose octets are those of the number XOR the challenge. Twice with one challenge gives the number back.
pub fn xor_number(challenge: [u8; 6], number: Number48) -> Number48
    ensures octets { octets_of result ≡ xor_octets challenge (octets_of number) }
    ensures value { result ≡ xor_number challenge number }
    ensures twice { xor_number challenge result ≡ number }
    ensures back { xor_octets challenge (octets_of result) ≡ octets_of number }
{
    let [c0, c1, c2, c3, c4, c5] = challenge;
    let [n0, n1, n2, n3, n4, n5] = number.to_bytes();
    Number48::from_bytes([c0 ^ n0, c1 ^ n1, c2 ^ n2, c3 ^ n3, c4 ^ n4, c5 ^ n5])
}

/// The two numbers in the payload of an answer: the one under which it was sealed, and the one that the responder kept.
pub fn sync_values(payload: &[u8; 12]) -> (Number48, Number48)
    ensures values { result ≡ sync_values payload.now }
    ensures back { octets_of result.0 ++ octets_of result.1 ≡ payload.now }
{
    let [n0, n1, n2, n3, n4, n5, k0, k1, k2, k3, k4, k5] = *payload;
    (
        Number48::from_bytes([n0, n1, n2, n3, n4, n5]),
        Number48::from_bytes([k0, k1, k2, k3, k4, k5]),
    )
}
