ghost use Rattle.std.specs.Prelude.{◌≡◌, ◌+◌, ◌*◌, ◌^◌, ◌<◌, ◌≤◌, [], ◌∷◌, ◌++◌, length, MatchBool};
ghost use Rattle.std.specs.Int.{to_be_bytes, w8, w16, w32};
ghost use Rattle.datapoints.specs.declared.dpt.Dpt.TheVariants.{Hundredths};
ghost use Rattle.datapoints.specs.Values.{signed_text, is_negative, magnitude_of, HasValue, HasNoText};

use crate::ValueText;

// The numbers that octets are, the highest first.

pub(crate) fn number_of_one(octets: &[u8]) -> u64
    requires size { length octets.now ≡ 1 }
    ensures bound { result < 2 ^ 8 }
    ensures octets { octets.now ≡ to_be_bytes w8 result }
{
    u64::from(octets[0])
}

pub(crate) fn number_of_two(octets: &[u8]) -> u64
    requires size { length octets.now ≡ 2 }
    ensures bound { result < 2 ^ 16 }
    ensures octets { octets.now ≡ to_be_bytes w16 result }
{
    u64::from(octets[0]) * 256 + u64::from(octets[1])
}

pub(crate) fn number_of_four(octets: &[u8]) -> u64
    requires size { length octets.now ≡ 4 }
    ensures bound { result < 2 ^ 32 }
    ensures octets { octets.now ≡ to_be_bytes w32 result }
{
    number_of_two(&octets[..2]) * 65_536 + number_of_two(&octets[2..])
}

/// Adds the text of a number in two's complement. From `half` of all numbers on, it is negative.
pub(crate) fn write_signed(number: u64, half: u64, out: &mut ValueText)
    requires empty { out.old ≡ [] }
    requires bound { number < 2 * half }
    requires most { half ≤ 2 ^ 31 }
    ensures { out.new ≡ signed_text half number }
{
    out.sign(number >= half);
    out.decimal(if number < half {
        number
    } else {
        2 * half - number
    });
}

/// Writes the text of a number with an exponent, if the two octets are one.
pub(crate) fn write_float(octets: &[u8], out: &mut ValueText) -> bool
    requires size { length octets.now ≡ 2 }
    requires empty { out.old ≡ [] }
    ensures { MatchBool result (HasValue Hundredths octets.now out.new) (HasNoText Hundredths octets.now) }
{
    let number = number_of_two(octets);
    if number == 0x7fff {
        return false;
    }
    out.sign(is_negative(number));
    out.hundredths(magnitude_of(number));
    true
}

fn is_negative(number: u64) -> bool
    ensures { result ≡ is_negative number }
{
    number >= 0x8000
}

fn magnitude_of(number: u64) -> u64
    requires bound { number < 2 ^ 16 }
    ensures value { result ≡ magnitude_of number }
    ensures bound { result ≤ 2 ^ 26 }
{
    let mantissa = number % 2048;
    let steps = if is_negative(number) {
        2048 - mantissa
    } else {
        mantissa
    };
    steps << (number / 2048 % 16)
}
