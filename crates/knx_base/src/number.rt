ghost use Rattle.std.specs.Prelude.{◌≡◌, ℕ, ◌+◌, ◌^◌, ◌<◌, ◌↔◌, length, IsSome, IfSome};
ghost use Rattle.knx_base.specs.Number.{octets_of, number_of};

use std::marker::Model;

/// A sequence number of KNX Data Secure: 48 bits, written as six octets, the highest first.
///
/// A contract sees it as that number.
#[derive(Clone, Copy, Debug, PartialEq, Eq, PartialOrd, Ord)]
pub struct Number48 {
    value: u64,
}

impl Model for Number48 {
    ghost Value = { ℕ };

    ghost view = { λ n. n.value };

    ghost invariant = { λ n. n.value < 2 ^ 48 };

    ghost inverse = { λ n. record { value = n } };
}

impl Number48 {
    /// The number, or None at 2^48 and above.
    pub fn new(value: u64) -> Option<Number48>
        ensures fits { IsSome result ↔ (value < 2 ^ 48) }
        ensures value { IfSome result (λ number. number ≡ value) }
    {
        if value < 1 << 48 {
            Some(Number48 { value })
        } else {
            None
        }
    }

    /// The number as a plain one.
    pub fn get(&self) -> u64
        ensures value { result ≡ self.now }
        ensures fits { self.now < 2 ^ 48 }
    {
        self.value
    }

    /// The number that these six octets write, the highest first.
    pub fn from_bytes(bytes: [u8; 6]) -> Number48
        ensures value { result ≡ number_of bytes }
        ensures back { octets_of result ≡ bytes }
    {
        Number48 {
            value: number_in(&bytes),
        }
    }

    /// The six octets of the number, the highest first.
    pub fn to_bytes(&self) -> [u8; 6]
        ensures octets { result ≡ octets_of self.now }
        ensures back { number_of result ≡ self.now }
    {
        let [_, _, b0, b1, b2, b3, b4, b5] = self.value.to_be_bytes();
        [b0, b1, b2, b3, b4, b5]
    }

    /// The number after this one, or None at the last, 2^48 - 1.
    pub fn next(&self) -> Option<Number48>
        ensures some { IsSome result ↔ (self.now + 1 < 2 ^ 48) }
        ensures value { IfSome result (λ number. number ≡ self.now + 1) }
    {
        Number48::new(self.value + 1)
    }
}

fn number_in(octets: &[u8]) -> u64
    requires six { length octets.now ≡ 6 }
    ensures value { result ≡ number_of octets.now }
    ensures fits { result < 2 ^ 48 }
    ensures back { octets_of result ≡ octets.now }
{
    u64::from_be_bytes([
        0, 0, octets[0], octets[1], octets[2], octets[3], octets[4], octets[5],
    ])
}
